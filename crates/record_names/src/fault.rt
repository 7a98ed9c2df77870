//! The faults of a virtual address map.
ghost use Rattle.std.specs.Prelude.{◌≡◌, IfOk, string_bytes};
ghost use Rattle.std.specs.Fmt.{decimal};
ghost use Rattle.record_names.specs.Faults.{numbered, fault_text};

use std::alloc::{AllocError, Global};

/// Why a virtual address map is refused (UEFI 2.10, section 8.4); a refusal names the first of these. The numbers are
/// the places, from 0, of entries of the map, of descriptors, and of images and their sites.
#[derive(Clone, Copy, Debug, PartialEq, Eq)]
pub enum Fault {
    /// Boot services aren't over.
    BeforeExit,
    /// A map was made before.
    AlreadyMapped,
    /// The size of a descriptor.
    DescriptorSize,
    /// The version of a descriptor.
    DescriptorVersion,
    /// The size of the map.
    MapSize,
    /// The entry is no runtime descriptor's.
    NotFound(u32),
    /// An earlier entry is the same descriptor's.
    Twice(u32),
    /// The entry's virtual start is within a page.
    Unaligned(u32),
    /// The entry's virtual range is where nothing may be.
    OutOfRange(u32),
    /// The entry's virtual range meets an earlier one.
    Overlap(u32),
    /// The entry's virtual range meets RAM that stays where it is.
    Shadow(u32),
    /// The new place of the operating system's window.
    OsWindow,
    /// This runtime descriptor of the memory map has no entry.
    NoMapping(u32),
    /// This site of this kept image, both from 0, would leave its range.
    Reloc32(u32, u32),
}

/// A name and a number in parentheses.
fn numbered(alloc: Global, name: &str, n: u32) -> Result<String, AllocError>
    ensures { IfOk result (λ text. string_bytes text ≡ numbered name.now (decimal n)) }
{
    format!(in alloc; "{}({})", name, n)
}

/// The text of a fault: its name, and its numbers in parentheses where it has some, as in `Reloc32(0,3)`.
pub fn fault_text(alloc: Global, fault: Fault) -> Result<String, AllocError>
    ensures { IfOk result (λ text. string_bytes text ≡ fault_text fault) }
{
    match fault {
        Fault::BeforeExit => String::from_str(alloc, "BeforeExit"),
        Fault::AlreadyMapped => String::from_str(alloc, "AlreadyMapped"),
        Fault::DescriptorSize => String::from_str(alloc, "DescriptorSize"),
        Fault::DescriptorVersion => String::from_str(alloc, "DescriptorVersion"),
        Fault::MapSize => String::from_str(alloc, "MapSize"),
        Fault::NotFound(i) => numbered(alloc, "NotFound", i),
        Fault::Twice(i) => numbered(alloc, "Twice", i),
        Fault::Unaligned(i) => numbered(alloc, "Unaligned", i),
        Fault::OutOfRange(i) => numbered(alloc, "OutOfRange", i),
        Fault::Overlap(i) => numbered(alloc, "Overlap", i),
        Fault::Shadow(i) => numbered(alloc, "Shadow", i),
        Fault::OsWindow => String::from_str(alloc, "OsWindow"),
        Fault::NoMapping(i) => numbered(alloc, "NoMapping", i),
        Fault::Reloc32(image, site) => {
            let numbers = format!(in alloc; "{},{}", image, site)?;
            format!(in alloc; "Reloc32({})", numbers.as_str())
        }
    }
}
