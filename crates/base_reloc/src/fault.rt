//! What is wrong with base relocations.
#![tactic(auto)]

ghost use Rattle.std.specs.Prelude.{◌≡◌};
ghost use Rattle.base_reloc.specs.declared.fault.RelocFault.TheVariants.{Memory};

use std::alloc::{AllocError, AllocFailed};
use thiserror::Error;

/// The first thing that is wrong with base relocations. Blocks, entries and sites are numbered from 0, entries
/// over all blocks.
#[derive(Clone, Copy, Debug, PartialEq, Eq, Error)]
pub enum RelocFault {
    /// This block has fewer than 8 bytes left, or a size that is below 8, odd or more than what is left.
    #[error("block {0} has no proper size")]
    BlockSize(u32),
    /// This entry has a type that isn't known.
    #[error("entry {0} has an unknown type")]
    Kind(u32),
    /// The bytes of this entry end behind the image.
    #[error("entry {0} does not lie in the image")]
    Outside(u32),
    /// The bytes of this entry meet those of an earlier site.
    #[error("entry {0} meets an earlier one")]
    Overlap(u32),
    /// What this site would hold leaves its range.
    #[error("site {0} would leave its range")]
    Range32(u32),
    /// There is no memory for the sites.
    #[error("out of memory")]
    Memory,
}

impl From<AllocError> for RelocFault {
    ghost from_gives = { λ _ e. e ≡ Memory };

    fn from(_error: AllocError) -> RelocFault {
        RelocFault::Memory
    }
}

impl<T: Drop> From<AllocFailed<T>> for RelocFault {
    ghost from_gives = { λ _ e. e ≡ Memory };

    fn from(_error: AllocFailed<T>) -> RelocFault {
        RelocFault::Memory
    }
}
