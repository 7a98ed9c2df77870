//! What the definitions come to. Each law is the contract of a function that does nothing.
#![tactic(auto)]

ghost use Rattle.map_faults.specs.Laws.{EntriesArePlaced, RangesAreApart, OffsetsStay};

/// Each entry for the runtime of an accepted map names a runtime descriptor, and its virtual range is one of whole pages
/// between the first and the last page of the address space.
pub fn entries_are_placed()
    ensures { EntriesArePlaced }
{}

/// The virtual ranges of an accepted map have no address in common.
#[tactic(auto, using(crate::proofs::AcceptedLemmas::apart))]
pub fn ranges_are_apart()
    ensures { RangesAreApart }
{}

/// A pointer keeps its offset from the start of the descriptor that holds it.
#[tactic(auto, using(crate::proofs::AcceptedLemmas::offsets))]
pub fn offsets_stay()
    ensures { OffsetsStay }
{}
