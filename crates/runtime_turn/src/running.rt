//! A notified function from its beginning to its return.
#![tactic(auto)]

ghost use Rattle.std.specs.Prelude.{◌≡◌, None, Ok, Err};
ghost use Rattle.map_faults.specs.Faults.{first_fault};
ghost use Rattle.virtual_map.specs.States.{SameParts};
ghost use Rattle.address_view.specs.Windows.{see};
ghost use Rattle.address_view.specs.Seen.{IsCode};
ghost use Rattle.page_alloc.specs.Layout.{IsLayout};
ghost use Rattle.runtime_turn.specs.Functions.{ground_of, registers_for, RunEnds, RunGives, most_steps};

use crate::function::{CallEnd, CallTurn, function_turn};
use crate::halt::Halt;
use address_view::CodePage;
use event_queue::Notify;
use map_faults::MapCall;
use page_alloc::Layout;
use record_text::Cause;
use rv_decode::KnownWords;
use rv_step::Regs;
use virtual_map::RuntimeState;

/// The most steps of a function.
const MOST_STEPS: u64 = 1_000_000;

/// What a function begins with: its return address, its stack and two arguments.
#[tactic(auto, unfolding(page_alloc::specs::Layout::layout_at))]
fn registers_for(layout: &Layout, sp: u64, notify: &Notify) -> [u64; 32]
    requires { IsLayout layout.now }
    ensures { result ≡ registers_for layout.now sp notify.now }
{
    let mut x = [0; 32];
    x[1] = layout.slots + 16 * 67;
    x[2] = sp - sp % 16;
    x[10] = notify.event;
    x[11] = notify.context;
    x
}

/// Makes turns until the function returns.
fn run_on(
    known: &mut KnownWords,
    regs: &mut Regs,
    state: &mut RuntimeState,
    map: &MapCall,
) -> Result<u64, CallEnd>
    requires accepted { first_fault (ground_of state.old) map.now ≡ None }
    ensures gives { RunEnds result most_steps map.now.entries regs.old.x regs.old.pc state.old state.new }
    ensures same { SameParts state.old state.new }
{
    let mut code = CodePage::none();
    for step in 0..MOST_STEPS {
        match function_turn(known, &mut code, regs, state, map) {
            CallTurn::Goes => {}
            CallTurn::Returns => return Ok(step + 1),
            CallTurn::Halts(halt) => return Err(CallEnd::Halted(halt)),
            CallTurn::Memory => return Err(CallEnd::LacksMemory),
        }
    }
    Err(CallEnd::Halted(Halt {
        cause: Cause::Bound,
        pc: regs.pc,
        at: 0,
    }))
}

/// Where RAM lies.
fn layout_of(state: &RuntimeState) -> Layout
    ensures { result ≡ state.now.layout }
{
    state.layout
}

/// Runs a notified function, with its stack below an address, while a map is made that is accepted. It gives the number of
/// its steps, of which the return is one. ConvertPointer is answered by the map, other runtime services are unsupported.
#[tactic(auto)]
pub fn run_function(
    known: &mut KnownWords,
    state: &mut RuntimeState,
    map: &MapCall,
    sp: u64,
    notify: Notify,
) -> Result<u64, CallEnd>
    requires layout { IsLayout state.old.layout }
    requires accepted { first_fault (ground_of state.old) map.now ≡ None }
    ensures gives { RunGives result map.now.entries sp notify state.old state.new }
    ensures same { SameParts state.old state.new }
{
    let layout = layout_of(state);
    let mut regs = Regs {
        x: registers_for(&layout, sp, &notify),
        pc: notify.function,
    };
    run_on(known, &mut regs, state, map)
}
