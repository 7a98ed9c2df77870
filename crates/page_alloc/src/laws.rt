//! What the definitions come to. Each law is the contract of a function that does nothing.
#![tactic(auto)]

ghost use Rattle.page_alloc.specs.Fit.{FitIsHighest};
ghost use Rattle.page_alloc.specs.Laws.{FitMeans, FreeRestores, OthersStay, CallsLeaveOthers, OwnedStay, GivenAreOwned, OwnedAreFreed, KeyCounts, OpeningCoversRam};

/// The fit is the highest start that fits, or there is none.
#[tactic(auto, using(crate::proofs::FitLemmas::fits_are_highest))]
pub fn fit_is_highest()
    ensures { FitIsHighest }
{}

/// A start fits where its pages are all there and conventional and it meets the kind.
#[tactic(auto, using(crate::proofs::LawLemmas::fit_means))]
pub fn fit_means()
    ensures { FitMeans }
{}

/// Taking back what was given leaves all pages as before.
#[tactic(auto, using(crate::proofs::LawLemmas::free_restores))]
pub fn free_restores()
    ensures { FreeRestores }
{}

/// A change of pages leaves each page outside it.
#[tactic(auto, using(crate::proofs::LawLemmas::others_stay))]
pub fn others_stay()
    ensures { OthersStay }
{}

/// A call leaves the type and the owner of each page that it may not change.
#[tactic(auto, using(crate::proofs::OwnerLemmas::calls_leave_others))]
pub fn calls_leave_others()
    ensures { CallsLeaveOthers }
{}

/// What an owner has stays the owner's in each call but the owner's own FreePages.
#[tactic(auto, using(crate::proofs::OwnerLemmas::owned_stay))]
pub fn owned_stay()
    ensures { OwnedStay }
{}

/// Pages that were given are whole pages of RAM, which no owner had, and the owner has them.
pub fn given_are_owned()
    ensures { GivenAreOwned }
{}

/// What an owner has can be taken back, and each owner keeps what it has apart from that.
pub fn owned_are_freed()
    ensures { OwnedAreFreed }
{}

/// After every list of calls the key has risen by one for each accepted one.
#[tactic(auto, using(crate::proofs::LawLemmas::key_counts))]
pub fn key_counts()
    ensures { KeyCounts }
{}

/// The map at opening has a page for each page of RAM.
#[tactic(auto, using(crate::proofs::Openings::opening_length))]
pub fn opening_covers_ram()
    ensures { OpeningCoversRam }
{}
