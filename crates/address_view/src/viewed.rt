//! Memory through a view.
#![tactic(auto)]

ghost use Rattle.std.specs.Prelude.{◌≡◌, ℕ, refl};
ghost use Rattle.guest_memory.specs.Pages.{bytes_of, rights_at};
ghost use Rattle.guest_memory.specs.Changes.{TouchedBesides};
ghost use Rattle.address_view.specs.Windows.{see, seen_bytes};
ghost use Rattle.address_view.specs.Seen.{view_allows};
ghost use Rattle.address_view.specs.Stored.{store_seen, lacks_seen, all_touched};

use crate::access::{both_halves, load_through};
use crate::store::store_through;
use crate::view::View;
use guest_memory::{GuestMemory, bytes_are_put};
use rv_step::{Access, Bus, BusEnd};

/// Memory and the windows through which a guest sees it. Each access asks for the right of each page that
/// it meets.
#[derive(Drop)]
pub struct Viewed<'m, 'v> {
    /// What is seen.
    pub memory: &'m mut GuestMemory,
    /// Through what.
    pub view: &'v View,
}

impl<'m, 'v> Bus for Viewed<'m, 'v> {
    ghost bytes = { λ viewed. seen_bytes (see viewed.view.now) (bytes_of viewed.memory.now) };

    ghost allows = { λ viewed. view_allows (see viewed.view.now) (rights_at viewed.memory.now) };

    ghost lacks_frames = { λ viewed at width. lacks_seen (see viewed.view.now) viewed.memory.now at width };

    ghost takes_no_memory = { λ viewed at width. all_touched (see viewed.view.now) viewed.memory.now at width };

    type Content = GuestMemory;

    ghost content = { λ viewed. viewed.memory.now };

    ghost after = { λ viewed at width value. store_seen (see viewed.view.now) viewed.memory.now at width value };

    ghost kept = { λ old new. TouchedBesides old new };

    ghost same = { λ old new. (new.memory.ghost_name ≡ old.memory.ghost_name) × (new.view.now ≡ old.view.now) × (new.memory.now.base ≡ old.memory.now.base) × (new.memory.now.pages ≡ old.memory.now.pages) };

    ghost same_self = { λ a. (refl, refl, refl, refl) };

    #[inline(always)]
    fn load(&self, at: u64, width: u8) -> Result<u64, u64> {
        load_through(self.memory, self.view, at, width, Access::Load)
    }

    #[tactic(auto, using(crate::proofs::StoreLaws::bytes_stored, crate::proofs::StoreLaws::bytes_kept, crate::proofs::StoreLaws::rights_stored))]
    #[inline(always)]
    fn store(&mut self, at: u64, width: u8, value: u64) -> Result<(), BusEnd> {
        let view: &View = self.view;
        view.whole();
        self.memory.whole();
        bytes_are_put();
        store_through(self.memory, view, at, width, value)
    }

    #[inline(always)]
    fn fetch(&self, at: u64) -> Result<u16, u64> {
        match load_through(self.memory, self.view, at, 2, Access::Fetch) {
            Ok(half) => Ok(half as u16),
            Err(refused) => Err(refused),
        }
    }

    #[inline(always)]
    fn fetch_both(&self, at: u64) -> Option<(u16, u16)> {
        both_halves(self.memory, self.view, at)
    }
}
