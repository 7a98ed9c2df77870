//! Entries of a relocation block.
#![tactic(auto)]

ghost use Rattle.std.specs.Prelude.{◌≡◌};
ghost use Rattle.base_reloc.specs.Kept.{kind_of, type_in};

use crate::site::SiteKind;

/// What an entry asks for ("Base Relocation Types").
#[derive(Clone, Copy)]
pub enum EntryKind {
    /// Nothing: it fills its block up.
    Padding,
    /// Bytes that are moved.
    Moved(SiteKind),
    /// Four bytes with the low 12 bits of an address, which a move by whole pages leaves as they are.
    Unmoved,
    /// A type that isn't known here.
    Unknown,
}

/// What the upper four bits of an entry ask for.
pub fn entry_kind(word: u16) -> EntryKind
    ensures { result ≡ kind_of (type_in word) }
{
    match word >> 12 {
        0 => EntryKind::Padding,
        3 => EntryKind::Moved(SiteKind::Highlow),
        5 => EntryKind::Moved(SiteKind::High20),
        7 | 8 => EntryKind::Unmoved,
        10 => EntryKind::Moved(SiteKind::Dir64),
        _ => EntryKind::Unknown,
    }
}
