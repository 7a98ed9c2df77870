//! What is wrong, or no memory.
#![tactic(auto)]

ghost use Rattle.std.specs.Prelude.{◌≡◌};
ghost use Rattle.uh_base.specs.declared.fault.Fault.TheVariants.{Memory};

use std::alloc::{AllocError, AllocFailed};

/// Why a part of an input is refused: what is wrong with it, or no memory.
#[derive(Clone, Copy, Debug, PartialEq, Eq)]
pub enum Fault<K> {
    Kind(K),
    Memory,
}

impl<K> From<AllocError> for Fault<K> {
    ghost from_gives = { λ _ e. e ≡ Memory };

    fn from(_error: AllocError) -> Fault<K> {
        Fault::Memory
    }
}

impl<K, T: Drop> From<AllocFailed<T>> for Fault<K> {
    ghost from_gives = { λ _ e. e ≡ Memory };

    fn from(_error: AllocFailed<T>) -> Fault<K> {
        Fault::Memory
    }
}
