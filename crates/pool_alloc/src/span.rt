//! Whole pages in a row.
#![tactic(auto)]

/// Whole pages of 4,096 bytes in a row.
#[derive(Clone, Copy, Debug, PartialEq, Eq, Drop)]
pub struct PageSpan {
    /// The address of the first byte of the first page.
    pub start: u64,
    /// How many pages there are.
    pub count: u64,
}
