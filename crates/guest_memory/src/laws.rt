//! Laws of memory.
#![tactic(auto)]

ghost use Rattle.guest_memory.specs.Laws.{BytesArePut, MarksArePut, PartsArePut, OnlyMarksAreAdded};

/// A byte that is put at an address of memory is there, and every other address has the byte that it had.
#[tactic(auto, using(crate::proofs::PageLemmas::bytes_put_long))]
#[inline(always)]
pub fn bytes_are_put()
    ensures { BytesArePut }
{}

/// Where a page in memory is touched, its addresses are touched then, and every other address is as it was.
#[tactic(auto, using(crate::proofs::TouchedLemmas::touched_touch))]
pub fn marks_are_put()
    ensures { MarksArePut }
{}

/// Bytes that are put in one page are there as if they were put one after another.
#[tactic(auto, using(crate::proofs::PartLaws::parts_are_put))]
pub fn parts_are_put()
    ensures { PartsArePut }
{}

/// Where a call lacked memory and only marks were added, each address has the byte and the rights that it had,
/// and is touched if it was.
pub fn only_marks_are_added()
    ensures { OnlyMarksAreAdded }
{}
