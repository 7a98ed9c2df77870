//! Code at run time, and the functions that are notified of the virtual address change, a turn at a time (UEFI 2.10,
//! section 8.4).
#![tactic(auto)]

mod call;
mod function;
mod halt;
mod pointer;
mod running;
mod slot;

pub use call::{RtEnd, turn};
pub use function::{CallEnd, CallTurn};
pub use halt::Halt;
pub use pointer::ground_of;
pub use running::run_function;
