//! The pages that addresses show.
#![tactic(auto)]

ghost use Rattle.std.specs.Prelude.{◌≡◌, ◌<◌, [], ◌∷◌, IfOk, All, true};
ghost use Rattle.address_view.specs.Windows.{see};
ghost use Rattle.address_view.specs.Seen.{all_pass, is_seen};
ghost use Rattle.image_calls.specs.Loading.{page_shown, pages_shown};

use address_view::View;
use guest_memory::GuestMemory;
use std::alloc::{AllocError, Global};

/// The page that an address shows, by its number from the base of memory.
fn page_shown(memory: &GuestMemory, view: &View, at: u64) -> u32
    requires { is_seen (see view.now) memory.now at ≡ true }
    ensures page { page_shown memory.now.base (see view.now at) ≡ result ∷ [] }
    ensures inside { result < memory.now.pages }
{
    memory.whole();
    match view.translate(at) {
        Some(place) => match memory.page_at(place) {
            Some(page) => page,
            None => unreachable!(),
        },
        None => unreachable!(),
    }
}

/// The pages that so many addresses show from one on, one for each address, by their numbers from the base of memory.
pub(crate) fn pages_shown(
    alloc: Global,
    memory: &GuestMemory,
    view: &View,
    at: u64,
    count: u64,
) -> Result<Vec<u32>, AllocError>
    requires { all_pass (is_seen (see view.now) memory.now) at count ≡ true }
    ensures pages { IfOk result (λ pages. pages.items ≡ pages_shown (see view.now) memory.now.base at count) }
    ensures inside { IfOk result (λ pages. All (λ page. page < memory.now.pages) pages.items) }
{
    let mut pages = Vec::new(alloc);
    let mut here = at;
    for _ in 0..count {
        pages.push(page_shown(memory, view, here))?;
        here = here.wrapping_add(1);
    }
    Ok(pages)
}
