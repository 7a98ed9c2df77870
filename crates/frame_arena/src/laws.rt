//! Laws of frames under ids.
#![tactic(auto)]

ghost use Rattle.frame_arena.specs.Laws.{PutIsThere, GivenIsGone, OthersStay};

/// Under an id that is put stands what was put, under an id that is given back nothing, and under every other id
/// what stood there.
#[tactic(auto, using(crate::proofs::EntryLemmas::put_there, crate::proofs::EntryLemmas::given_gone))]
pub fn frames_are_a_map()
    ensures put { PutIsThere }
    ensures given { GivenIsGone }
    ensures others { OthersStay }
{}
