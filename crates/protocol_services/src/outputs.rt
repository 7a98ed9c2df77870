//! Where a list is told to a caller.
#![tactic(auto)]

/// The two outputs of a service that gives a list: its address, and how many elements it has. They are written in the order
/// in which they stand among the arguments.
#[derive(Clone, Copy, Debug, PartialEq, Eq, Drop)]
pub struct ListOutputs {
    /// The address of the output that is written first.
    pub first: u64,
    /// The address of the output that is written behind it.
    pub second: u64,
    /// Whether the number of elements is written first, and not the address of the list.
    pub count_first: bool,
}
