//! Why a variable isn't set or found.
#![tactic(auto)]

ghost use Rattle.std.specs.Prelude.{◌≡◌};

use std::alloc::AllocError;

/// Why a variable isn't set or found.
#[derive(Clone, Copy, Debug, PartialEq, Eq)]
pub enum VarRefusal {
    /// The name or the attributes are out of form, the variable has other attributes, or a new one may not be made.
    Invalid,
    /// The attributes have bits that aren't served.
    Unsupported,
    /// There is no variable to remove.
    NotFound,
    /// A volatile variable, after the end of boot services.
    WriteProtected,
    /// The bytes don't fit in the room that is left.
    Full,
    /// The host has no memory for it.
    Memory,
}

impl From<AllocError> for VarRefusal {
    ghost use Rattle.std.specs.Prelude.{◌≡◌};
    ghost use Rattle.variable_store.specs.declared.refusal.VarRefusal.TheVariants.{Memory};

    ghost from_gives = { λ _ refusal. refusal ≡ Memory };

    fn from(_: AllocError) -> VarRefusal {
        VarRefusal::Memory
    }
}
