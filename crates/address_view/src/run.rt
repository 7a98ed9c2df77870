//! Runs of addresses that show one page, by which ranges are worked on.
#![tactic(auto)]

ghost use Rattle.std.specs.Prelude.{◌≡◌, ◌≤◌, ◌+◌, ◌%◌, ◌^◌, false, IfSome, IfNone};
ghost use Rattle.guest_memory.specs.Pages.{rights_at};
ghost use Rattle.rv_step.specs.declared.bus.Access.{Access};
ghost use Rattle.address_view.specs.Windows.{see};
ghost use Rattle.address_view.specs.Seen.{is_seen, may, IsRun};
ghost use Rattle.address_view.specs.Stored.{AllSeen};

use crate::view::View;
use guest_memory::GuestMemory;

/// Addresses of one window that show places of one page of memory.
#[derive(Clone, Copy, Debug, PartialEq, Eq, Drop)]
pub struct PageRun {
    /// The place that the first of them shows.
    pub place: u64,
    /// The page of these places, counted from the base of memory.
    pub page: u32,
    /// How many they are, at least one.
    pub len: u64,
}

/// The address so many behind another. Behind the last one comes 0.
pub(crate) fn behind(at: u64, count: u64) -> u64
    ensures { result ≡ (at + count) % 2 ^ 64 }
{
    at.wrapping_add(count)
}

/// The longest run from an address on, of at most so many addresses; none where the address shows no memory.
#[tactic(auto, using(crate::proofs::RunLaws::run_is, crate::proofs::RunLaws::unseen_there, crate::proofs::RunLaws::unseen_place))]
pub(crate) fn run_at(memory: &GuestMemory, view: &View, at: u64, most: u64) -> Option<PageRun>
    requires { 1 ≤ most }
    ensures found { IfSome result (λ run. IsRun (see view.now) memory.now at run) }
    ensures few { IfSome result (λ run. run.len ≤ most) }
    ensures none { IfNone result (is_seen (see view.now) memory.now at ≡ false) }
{
    memory.whole();
    view.whole();
    let window = match view.window(at) {
        Some(window) => window,
        None => return None,
    };
    let into = at - window.virt;
    let place = window.phys + into;
    match memory.page_at(place) {
        Some(page) => {
            let len = shortest(most, window.len - into, 4096 - place % 4096);
            Some(PageRun { place, page, len })
        }
        None => None,
    }
}

/// The least of three numbers.
fn shortest(a: u64, b: u64, c: u64) -> u64
    ensures first { result ≤ a }
    ensures second { result ≤ b }
    ensures third { result ≤ c }
    ensures some { 1 ≤ a → 1 ≤ b → 1 ≤ c → 1 ≤ result }
{
    let least = if a < b { a } else { b };
    if least < c { least } else { c }
}

/// The longest run from an address on, of at most so many addresses, all of which show memory.
#[tactic(auto, using(crate::proofs::RunLaws::seen_first))]
pub(crate) fn seen_run(memory: &GuestMemory, view: &View, at: u64, most: u64) -> PageRun
    requires some { 1 ≤ most }
    requires seen { AllSeen (see view.now) memory.now at most }
    ensures found { IsRun (see view.now) memory.now at result }
    ensures few { result.len ≤ most }
{
    match run_at(memory, view, at, most) {
        Some(run) => run,
        None => unreachable!(),
    }
}
