//! What a service comes to.
use record_text::Cause;
use uh_base::Text;

/// What a service comes to.
#[derive(Drop)]
pub enum Conclusion {
    /// A value for a0.
    Answers(u64),
    /// A text that it prints, and a value for a0.
    Prints(Text, u64),
    /// The hart goes on as the service left it.
    Continues,
    /// The job is over, with this status of its image.
    Leaves(u64),
    /// The run is over, by a reset of this type, with this status.
    Resets(u32, u64),
    /// The run is over, for this cause.
    Halts(Cause),
}
