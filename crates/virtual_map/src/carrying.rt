//! One instruction over memory as code sees it.
ghost use Rattle.std.specs.Prelude.{◌≡◌, IfSome};
ghost use Rattle.rv_step.specs.declared.bus.Access.{Access};
ghost use Rattle.rv_step.specs.Exec.{AreHalves};
ghost use Rattle.guest_memory.specs.Pages.{bytes_of, rights_at};
ghost use Rattle.address_view.specs.Windows.{see, seen_bytes};
ghost use Rattle.address_view.specs.Seen.{view_allows, IsCode};
ghost use Rattle.virtual_map.specs.States.{SameParts};
ghost use Rattle.virtual_map.specs.Instructions.{CarriesOut};

use crate::state::RuntimeState;
use address_view::{CodePage, View, Viewed, code_stays};
use guest_memory::GuestMemory;
use rv_decode::KnownWords;
use rv_step::{Regs, StepEnd, step_fetched};

/// Carries out the instruction at the program counter. The readings of its words are remembered, and so is the page that
/// they stand in.
#[tactic(auto, unfolding(crate::specs::Instructions::carried))]
#[inline(always)]
pub fn instruction(
    known: &mut KnownWords,
    code: &mut CodePage,
    regs: &mut Regs,
    state: &mut RuntimeState,
) -> StepEnd
    requires { IsCode (see state.old.view) state.old.memory code.old }
    ensures gives { CarriesOut result regs.old.x regs.old.pc state.old regs.new.x regs.new.pc state.new }
    ensures same { SameParts state.old state.new }
    ensures code { IsCode (see state.new.view) state.new.memory code.new }
{
    code_stays();
    let halves = fetched(code, &state.memory, &state.view, regs.pc);
    let mut bus = Viewed {
        memory: &mut state.memory,
        view: &state.view,
    };
    step_fetched(known, halves, regs, &mut bus)
}

/// Both halves of an instruction of 32 bits, if they lie in the page that is remembered, or in that at the address, which
/// is remembered from now on.
#[inline(always)]
fn fetched(code: &mut CodePage, memory: &GuestMemory, view: &View, at: u64) -> Option<(u16, u16)>
    requires { IsCode (see view.now) memory.now code.old }
    ensures halves { IfSome result (AreHalves (seen_bytes (see view.now) (bytes_of memory.now)) (view_allows (see view.now) (rights_at memory.now) Access.Fetch) at) }
    ensures code { IsCode (see view.now) memory.now code.new }
{
    match code.halves(memory, view, at) {
        Some(halves) => Some(halves),
        None => {
            *code = CodePage::at(memory, view, at);
            code.halves(memory, view, at)
        }
    }
}
