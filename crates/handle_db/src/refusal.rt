//! Why a call of the handle database is refused.
#![tactic(auto)]

ghost use Rattle.std.specs.Prelude.{◌≡◌};

use std::alloc::AllocError;

/// Why a call of the handle database is refused.
#[derive(Clone, Copy, Debug, PartialEq, Eq, Drop)]
pub enum HandleRefusal {
    /// The handle is unknown, or has the protocol already.
    Invalid,
    /// The handle has no such interface.
    NotFound,
    /// There are 1,024 handles, or 2^60 - 1 were made.
    Full,
    /// The host has no memory for its lists.
    Memory,
}

impl From<AllocError> for HandleRefusal {
    ghost use Rattle.std.specs.Prelude.{◌≡◌};
    ghost use Rattle.handle_db.specs.declared.refusal.HandleRefusal.TheVariants.{Memory};

    ghost from_gives = { λ _ refusal. refusal ≡ Memory };

    fn from(_: AllocError) -> HandleRefusal {
        HandleRefusal::Memory
    }
}
