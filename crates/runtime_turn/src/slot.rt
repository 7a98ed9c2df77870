//! Slots as code sees them.
#![tactic(auto)]

ghost use Rattle.std.specs.Prelude.{◌≡◌, ◌≤◌, IfSome};
ghost use Rattle.runtime_turn.specs.Turns.{slot_of, slot_seen, returns_seen};

use page_alloc::Layout;
use virtual_map::RuntimeState;

/// The slot that begins at a place of RAM.
#[inline(always)]
fn slot_of(layout: &Layout, place: u64) -> Option<u8>
    ensures slot { result ≡ slot_of layout.now place }
    ensures few { IfSome result (λ slot. slot ≤ 67) }
{
    if place < layout.slots {
        return None;
    }
    let offset = place - layout.slots;
    if offset % 16 == 0 && offset <= 16 * 67 && offset != 16 * 17 {
        Some((offset / 16) as u8)
    } else {
        None
    }
}

/// The slot that is seen at an address.
#[tactic(auto, unfolding(crate::specs::Turns::slot_seen))]
#[inline(always)]
pub(crate) fn slot_seen(state: &RuntimeState, at: u64) -> Option<u8>
    ensures { result ≡ slot_seen state.now at }
{
    match state.view.translate(at) {
        Some(place) => slot_of(&state.layout, place),
        None => None,
    }
}

/// Whether the first byte of the page to which a call of the operating system returns is seen at an address.
#[tactic(auto, unfolding(crate::specs::Turns::returns_seen))]
#[inline(always)]
pub(crate) fn returns_seen(state: &RuntimeState, at: u64) -> bool
    ensures { result ≡ returns_seen state.now at }
{
    match state.view.translate(at) {
        Some(place) => place == state.layout.os_return,
        None => false,
    }
}
