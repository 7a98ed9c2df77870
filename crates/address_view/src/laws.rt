//! Laws of windows, and of loads and stores through them.
#![tactic(auto)]

ghost use Rattle.guest_memory.specs.Runs.{with_bytes};
ghost use Rattle.guest_memory.specs.Pages.{Pages, rights_at};
ghost use Rattle.std.specs.Prelude.{◌≡◌, ◌≢◌, ◌↔◌, ◌<◌, ◌≤◌, ◌^◌, ℕ, true, Bool, List, Option, Some, None, length, slice_index};
ghost use Rattle.uh_base.specs.Bytes.{with_byte, first_refused, behind};
ghost use Rattle.rv_step.specs.declared.bus.Access.{Access as AnyAccess};
ghost use Rattle.address_view.specs.declared.view.Window.{Window as AnyWindow};
ghost use Rattle.address_view.specs.Windows.{AreWindows, ShowsOnce, see, shown_at, seen_bytes};
ghost use Rattle.address_view.specs.Seen.{all_pass, view_allows, is_seen};
ghost use Rattle.address_view.specs.Laws.{AllPass, PlacesDecide, OthersStay, TouchedSuffice, CodeStays, RangesSuffice, RangesAreMarked, SameMarked, StoredOver, StoresFollow};

use guest_memory::{bytes_are_put, marks_are_put};

/// No place is seen at two addresses.
#[tactic(auto, using(crate::proofs::StoreLaws::once))]
pub fn one_address()
    ensures { (ws : List AnyWindow) → AreWindows ws → ShowsOnce (see ws) }
{}

/// An address shows a place exactly where the place is shown at the address.
#[tactic(auto, using(crate::proofs::ShownLemmas::shown_of_seen, crate::proofs::ShownLemmas::seen_of_shown))]
pub fn seen_and_shown()
    ensures { (ws : List AnyWindow) (at place : ℕ) → AreWindows ws → ((see ws at ≡ Some place) ↔ (shown_at ws place ≡ Some at)) }
{}

/// A byte that is put at the place of one address is seen at that address, and changes nothing that is seen
/// at another.
pub fn seen_elsewhere()
    ensures { (shown : ℕ → Option ℕ) (bytes : ℕ → ℕ) (at place byte : ℕ) → ShowsOnce shown → shown at ≡ Some place → seen_bytes shown (with_byte bytes place byte) ≡ with_byte (seen_bytes shown bytes) at byte }
{}

/// Behind a store of bytes each of its addresses has its byte, and every other address has what it had.
pub fn bytes_behind_a_store()
    ensures stored { (bytes : ℕ → ℕ) (at i : ℕ) (list : List ℕ) → at < 2 ^ 64 → length list ≤ 2 ^ 64 → i < length list → with_bytes bytes at list (behind at i) ≡ slice_index list i }
    ensures others { (bytes : ℕ → ℕ) (at other : ℕ) (list : List ℕ) → at < 2 ^ 64 → ((i : ℕ) → i < length list → behind at i ≢ other) → with_bytes bytes at list other ≡ bytes other }
{}

/// A range passes a test exactly where each of its addresses does, which is exactly where `first_refused` finds
/// none; and a range that allows an access shows memory.
pub fn ranges_pass()
    ensures each { (test : ℕ → Bool) (at n : ℕ) → at < 2 ^ 64 → (all_pass test at n ≡ true) ↔ AllPass test at n }
    ensures none { (test : ℕ → Bool) (at n : ℕ) → (all_pass test at n ≡ true) ↔ (first_refused test at n ≡ None) }
    ensures seen { (shown : ℕ → Option ℕ) (m : Pages) (kind : AnyAccess) (at n : ℕ) → all_pass (view_allows shown (rights_at m) kind) at n ≡ true → all_pass (is_seen shown m) at n ≡ true }
{}

/// What is loaded and stored depends on the places alone, through whatever view and at whatever addresses.
pub fn places_decide()
    ensures { PlacesDecide }
{}

/// After a store a place that none of its addresses shows has the byte that it had, and a page is touched exactly
/// where it was or one of the addresses shows it.
pub fn others_stay()
    ensures { OthersStay }
{
    bytes_are_put();
    marks_are_put();
}

/// A store on touched pages changes no mark and never lacks frames; and whatever is marked, a store puts the
/// same bytes.
pub fn touched_pages_suffice()
    ensures sure { TouchedSuffice }
    ensures marked { SameMarked }
    ensures over { StoredOver }
{}

/// Bytes may be stored in two stores, one behind the other.
pub fn stores_follow()
    ensures { StoresFollow }
{}

/// Where `lacks_after` finds frames enough for stores into several ranges, they may be touched or stored into one after
/// another, and none of them lacks frames.
pub fn ranges_suffice()
    ensures { RangesSuffice }
{}

/// What is remembered of a page of code outlives an instruction, which leaves view, rights and RAM.
#[tactic(auto, using(crate::proofs::CodeLemmas::stays))]
pub fn code_stays()
    ensures { CodeStays }
{}

/// The pages that `lacks_after` counts are those that are touched, and those that an address of one of the ranges
/// shows, each once.
pub fn ranges_are_marked()
    ensures { RangesAreMarked }
{
    marks_are_put();
}
