//! What can be wrong with a certificate.

/// A part of a certificate, in the order in which they are judged.
#[derive(Clone, Copy, Debug, PartialEq, Eq, Drop)]
pub enum Part {
    /// The bytes are no TOML document.
    Text,
    /// A key is unknown or missing, isn't a list, or has more items than it may have.
    Keys,
    Regions,
    Spans,
    Entries,
    Notify,
    Nodes,
}

/// Why a certificate is refused: the first part that is wrong, with the number, from 0, of its first item that is
/// wrong, 0 for `Text` and `Keys`; or no memory.
#[derive(Clone, Copy, Debug, PartialEq, Eq, Drop)]
pub enum CertFault {
    At { part: Part, index: u32 },
    Memory,
}
