//! Why a virtual address map is refused.
#![tactic(auto)]

/// Why a virtual address map is refused: the first of these that stands in the way. The faults from `NotFound` to `Shadow`
/// are asked of each entry for the runtime in turn; their number is the entry's.
#[derive(Clone, Copy, Debug, PartialEq, Eq, Drop)]
pub enum MapFault {
    /// Boot services aren't over.
    BeforeExit,
    /// A map was made before.
    AlreadyMapped,
    /// The size of a descriptor isn't 40.
    DescriptorSize,
    /// The version of a descriptor isn't 1.
    DescriptorVersion,
    /// The size of all entries is no multiple of 40, or one of more than 1,024.
    MapSize,
    /// No runtime descriptor of the memory map has the entry's start and pages.
    NotFound(u32),
    /// An earlier entry has its start.
    Twice(u32),
    /// Its virtual start is no multiple of 4,096.
    Unaligned(u32),
    /// Its virtual range doesn't lie between 4,096 and 2^64 - 4,096.
    OutOfRange(u32),
    /// Its virtual range meets that of an earlier entry.
    Overlap(u32),
    /// Its virtual range meets a page of RAM that stays where it is.
    Shadow(u32),
    /// The new place of the operating system's window fails one of the last four rules.
    OsWindow,
    /// The runtime descriptor of this number in the memory map has no entry.
    NoMapping(u32),
    /// Of the kept image of the first number the site of the second leaves its range.
    Reloc32(u32, u32),
}
