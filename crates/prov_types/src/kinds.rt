//! Kinds: what is known of one value in two runs.

/// The numbers from `lo` to `hi` by steps of `by`. It is proper where `by` is at least 1, `lo` is at most `hi`, and `hi`
/// is a number of whole steps above `lo`; all calls of this crate want proper spans.
#[derive(Clone, Copy, Debug, PartialEq, Eq, Drop)]
pub struct Span {
    pub lo: u64,
    pub hi: u64,
    pub by: u64,
}

/// What is known of one value, such as a register's, in two runs whose regions of memory may begin at other addresses.
#[derive(Clone, Copy, Debug, PartialEq, Eq, Drop)]
pub enum Kind {
    /// Nothing.
    Any,
    /// A number of the span, the same in both runs.
    Num(Span),
    /// The address of an offset in a region, by the region's number: the same offset in both runs, in the span and at
    /// most the region's length.
    Ptr(u8, Span),
    /// 0 in both runs, or such an address.
    Opt(u8, Span),
}

/// Where an instruction stands: its offset in region 0, the image, its length in bytes, and the offset that a HIGH20
/// relocation site on it names, if there is one.
#[derive(Clone, Copy, Debug, PartialEq, Eq, Drop)]
pub struct Place {
    pub at: u64,
    pub len: u8,
    pub target: Option<u64>,
}
