//! The rights to the pages that code sees.
#![tactic(auto)]

ghost use Rattle.std.specs.Prelude.{◌≡◌};

use address_view::{View, allowed};
use guest_memory::GuestMemory;
use provenance_check::PageRights;

/// Memory as it is seen, with the rights to its pages.
#[derive(Drop)]
pub(crate) struct SeenRights<'a> {
    pub(crate) memory: &'a GuestMemory,
    pub(crate) view: &'a View,
}

impl<'a> PageRights for SeenRights<'a> {
    ghost use Rattle.guest_memory.specs.Pages.{rights_at};
    ghost use Rattle.address_view.specs.Windows.{see};
    ghost use Rattle.address_view.specs.Seen.{view_allows};

    ghost allows = { λ rights. view_allows (see rights.view.now) (rights_at rights.memory.now) };

    fn allowed(&self, at: u64, len: u64, write: bool) -> bool {
        allowed(self.memory, self.view, at, len, write)
    }
}
