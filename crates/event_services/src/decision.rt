//! Which event of a list decides.

/// The event of a list that decides how a wait ends.
#[derive(Clone, Copy, Debug, PartialEq, Eq, Drop)]
pub struct Decision {
    /// The status that the wait ends with.
    pub status: u64,
    /// The event's place in the list, from 0 on.
    pub place: u64,
}
