//! The page that code runs in, remembered.
#![tactic(auto)]

ghost use Rattle.std.specs.Prelude.{ℕ, Option, IfSome};
ghost use Rattle.rv_step.specs.declared.bus.Access.{Access};
ghost use Rattle.rv_step.specs.Exec.{AreHalves};
ghost use Rattle.guest_memory.specs.Pages.{Pages, bytes_of, rights_at};
ghost use Rattle.address_view.specs.Windows.{see, seen_bytes};
ghost use Rattle.address_view.specs.Seen.{view_allows, IsCode};

use crate::access::one_page;
use crate::view::View;
use guest_memory::GuestMemory;
use rv_step::Access;

/// How many addresses of a page begin four bytes that lie in it.
const STARTS: u64 = 4093;

/// A page that is seen whole, from an address on, and that code may run in; or none. It is right as long as view, rights
/// and RAM stay; bytes may change.
#[derive(Clone, Copy, Debug, Drop)]
pub struct CodePage {
    /// The address of its first byte.
    pub virt: u64,
    /// The physical address of its first byte.
    pub place: u64,
    /// How many of its addresses begin four bytes that lie in it; 0 where no page is remembered.
    pub starts: u64,
}

impl CodePage {
    /// No page, which is right of every memory.
    #[tactic(auto, using(crate::proofs::CodeLemmas::none_is))]
    pub fn none() -> CodePage
        ensures { (see : ℕ → Option ℕ) (m : Pages) → IsCode see m result }
    {
        CodePage {
            virt: 0,
            place: 0,
            starts: 0,
        }
    }

    /// The page that is seen at an address, if it is seen whole and code may run there.
    #[inline(never)]
    pub fn at(memory: &GuestMemory, view: &View, at: u64) -> CodePage
        ensures { IsCode (see view.now) memory.now result }
    {
        match view.translate(at) {
            Some(place) if place % 4096 <= at => CodePage::from(memory, view, at - place % 4096),
            _ => CodePage::none(),
        }
    }

    /// The page that is seen from an address on, if it is seen whole and code may run there.
    fn from(memory: &GuestMemory, view: &View, virt: u64) -> CodePage
        ensures { IsCode (see view.now) memory.now result }
    {
        match one_page(memory, view, virt, 4096, Access::Fetch) {
            Some(place) => CodePage {
                virt,
                place,
                starts: STARTS,
            },
            None => CodePage::none(),
        }
    }

    /// Both halves of an instruction of 32 bits at an address, if they lie in the page.
    #[tactic(auto, using(crate::proofs::CodeLemmas::first_inside, crate::proofs::CodeLemmas::second_inside, crate::proofs::CodeLemmas::room))]
    #[inline(always)]
    pub fn halves(&self, memory: &GuestMemory, view: &View, at: u64) -> Option<(u16, u16)>
        requires { IsCode (see view.now) memory.now self.now }
        ensures { IfSome result (AreHalves (seen_bytes (see view.now) (bytes_of memory.now)) (view_allows (see view.now) (rights_at memory.now) Access.Fetch) at) }
    {
        let _ = view;
        let into = at.wrapping_sub(self.virt);
        if into >= self.starts {
            return None;
        }
        let place = self.place + into;
        Some((
            memory.number(place, 2) as u16,
            memory.number(place + 2, 2) as u16,
        ))
    }
}
