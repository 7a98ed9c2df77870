//! ConvertPointer (UEFI 2.10, section 8.4).
#![tactic(auto)]

ghost use Rattle.std.specs.Prelude.{◌≡◌, None};
ghost use Rattle.std.specs.Option.{option_copied};
ghost use Rattle.map_faults.specs.Faults.{entry_at, first_fault};
ghost use Rattle.map_faults.specs.Pointers.{converted};

use crate::ground::{MapCall, MapGround};
use crate::rules::is_runtime;
use memory_map::Descriptor;

/// Why a pointer isn't converted.
#[derive(Clone, Copy, Debug, PartialEq, Eq, Drop)]
pub enum ConvertRefusal {
    /// It is 0, and may not be.
    Null,
    /// No entry for the runtime holds it.
    NotFound,
}

/// The entry for the runtime that holds an address.
pub fn entry_at(entries: &[Descriptor], at: u64) -> Option<&Descriptor>
    ensures { option_copied result ≡ entry_at entries.now at }
{
    entries
        .iter()
        .find(|entry| is_runtime(*entry) && entry.holds(at))
}

/// Where a pointer goes by a map that is accepted. Bit 0 of the flags, EFI_OPTIONAL_PTR, allows 0, which stays 0.
#[tactic(auto, using(crate::proofs::AcceptedLemmas::goes_inside, crate::proofs::AcceptedLemmas::holds_low), unfolding(crate::specs::Pointers::converted))]
pub fn convert_pointer(
    ground: &MapGround,
    map: &MapCall,
    flags: u64,
    value: u64,
) -> Result<u64, ConvertRefusal>
    requires accepted { first_fault ground.now map.now ≡ None }
    ensures { result ≡ converted map.now.entries flags value }
{
    if value == 0 {
        return if flags % 2 == 1 {
            Ok(0)
        } else {
            Err(ConvertRefusal::Null)
        };
    }
    match entry_at(map.entries.as_slice(), value) {
        Some(entry) => Ok(entry.virt + (value - entry.start)),
        None => Err(ConvertRefusal::NotFound),
    }
}
