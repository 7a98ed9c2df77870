//! Why a block is not given or not taken back.
#![tactic(auto)]

ghost use Rattle.std.specs.Prelude.{◌≡◌};

use std::alloc::AllocError;

/// Why a block is not given or not taken back.
#[derive(Clone, Copy, Debug, PartialEq, Eq, Drop)]
pub enum PoolRefusal {
    /// The memory type is none that is given, or no block begins at the address.
    Invalid,
    /// A page is needed, and no conventional pages fit.
    NoPages,
    /// The host has no memory for its lists.
    Memory,
}

impl From<AllocError> for PoolRefusal {
    ghost use Rattle.std.specs.Prelude.{◌≡◌};
    ghost use Rattle.pool_alloc.specs.declared.refusal.PoolRefusal.TheVariants.{Memory};

    ghost from_gives = { λ _ refusal. refusal ≡ Memory };

    fn from(_: AllocError) -> PoolRefusal {
        PoolRefusal::Memory
    }
}
