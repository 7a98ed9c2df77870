//! The laws about two runs.
#![tactic(auto)]

ghost use Rattle.prov_types.specs.Laws.{FitsIsSound, FitsIsReflexive, FitsIsTransitive, TransferIsMonotone, TransferIsProper, TransferIsSound, AsksHold, ComparesAlike, NarrowIsSound, NarrowIsProper};

use rv_step::asks_fit;

/// A value of a kind is of each kind that it fits.
pub fn fits_is_sound()
    ensures { FitsIsSound }
{}

/// A kind fits itself, and all that is fitted by a kind that it fits.
pub fn fits_is_a_preorder()
    ensures reflexive { FitsIsReflexive }
    ensures transitive { FitsIsTransitive }
{}

/// Values of the operands' kinds give a result of the transferred kind, in both runs.
pub fn transfer_is_sound()
    ensures { TransferIsSound }
{
    asks_fit();
}

/// The transferred kind of kinds with proper spans has a proper span.
pub fn transfer_is_proper()
    ensures { TransferIsProper }
{}

/// Kinds that fit those of the operands give a kind that fits the transferred one, for every instruction.
pub fn transfer_is_monotone()
    ensures { TransferIsMonotone }
{}

/// What the kinds of registers say of all that an instruction asks for.
pub fn asks_hold()
    ensures { AsksHold }
{
    asks_fit();
}

/// A branch that may be judged has one outcome in both runs.
pub fn branches_compare_alike()
    ensures { ComparesAlike }
{}

/// On the edge that both runs take, the values are of the narrowed kinds.
pub fn narrow_is_sound()
    ensures { NarrowIsSound }
{}

/// What narrowing leaves of kinds with proper spans has proper spans.
pub fn narrow_is_proper()
    ensures { NarrowIsProper }
{}
