//! The runtime services over all the parts that they read or change.
#![tactic(auto)]

ghost use Rattle.std.specs.Prelude.{◌≡◌, ◌≤◌, IfOk, OnErr, is_some, true};
ghost use Rattle.guest_memory.specs.Pages.{rights_at};
ghost use Rattle.guest_memory.specs.Changes.{TouchedBesides};
ghost use Rattle.address_view.specs.Windows.{see};
ghost use Rattle.runtime_services.specs.Slots.{service_of};
ghost use Rattle.runtime_services.specs.Serving.{serve_runtime, served_by};

use crate::capsule::{query_capsule_capabilities, update_capsule};
use crate::count::{get_next_high_monotonic_count, get_next_monotonic_count};
use crate::get::get_variable;
use crate::info::query_variable_info;
use crate::next_name::get_next_variable_name;
use crate::service::RuntimeService;
use crate::set::set_variable;
use crate::time::{get_time, get_wakeup_time, set_time, set_wakeup_time};
use address_view::View;
use guest_memory::GuestMemory;
use rv_step::Regs;
use service_answer::{Served, gives};
use std::alloc::{AllocError, Global};
use time_service::Clock;
use variable_store::Variables;

/// Makes the call of a runtime service, by its slot: `now` is the time of the host in units of 100 nanoseconds, and `gone`
/// says that boot services are over. `RuntimeService::of_slot` says whether a slot is served here. The answer has no
/// events; where its `frames` is true nothing has changed. `Err` is want of host memory: then variables, clock and count
/// are as before, and so is the memory but for pages that are touched besides.
#[tactic(auto, unfolding(crate::specs::Serving::serve_runtime))]
pub fn serve_runtime(
    alloc: Global,
    slot: u8,
    regs: &Regs,
    view: &View,
    memory: &mut GuestMemory,
    variables: &mut Variables,
    clock: &mut Clock,
    count: &mut u64,
    now: u64,
    gone: bool,
) -> Result<Served, AllocError>
    requires slot { is_some (service_of slot) ≡ true }
    requires now { clock.old.set_at ≤ now }
    ensures ok { IfOk result (λ answer. record { answer = answer; memory = memory.new; variables = variables.new; clock = clock.new; count = count.new } ≡ serve_runtime slot regs.now.x (see view.now) memory.old variables.old clock.old count.old now gone) }
    ensures variables { OnErr result (variables.new ≡ variables.old) }
    ensures clock { OnErr result (clock.new ≡ clock.old) }
    ensures count { OnErr result (count.new ≡ count.old) }
    ensures set_at { clock.new.set_at ≤ now }
    ensures err { OnErr result (TouchedBesides memory.old memory.new) }
    ensures rights { rights_at memory.new ≡ rights_at memory.old }
    ensures base { memory.new.base ≡ memory.old.base }
    ensures pages { memory.new.pages ≡ memory.old.pages }
{
    match RuntimeService::of_slot(slot) {
        Some(service) => serve(
            alloc, service, &regs.x, view, memory, variables, clock, count, now, gone,
        ),
        None => unreachable!(),
    }
}

#[tactic(auto, using(crate::proofs::MarkLemmas::nothing_touched))]
fn serve(
    alloc: Global,
    service: RuntimeService,
    registers: &[u64; 32],
    view: &View,
    memory: &mut GuestMemory,
    variables: &mut Variables,
    clock: &mut Clock,
    count: &mut u64,
    now: u64,
    gone: bool,
) -> Result<Served, AllocError>
    requires now { clock.old.set_at ≤ now }
    ensures ok { IfOk result (λ answer. record { answer = answer; memory = memory.new; variables = variables.new; clock = clock.new; count = count.new } ≡ served_by service registers.now (see view.now) memory.old variables.old clock.old count.old now gone) }
    ensures variables { OnErr result (variables.new ≡ variables.old) }
    ensures clock { OnErr result (clock.new ≡ clock.old) }
    ensures count { OnErr result (count.new ≡ count.old) }
    ensures set_at { clock.new.set_at ≤ now }
    ensures err { OnErr result (TouchedBesides memory.old memory.new) }
    ensures rights { rights_at memory.new ≡ rights_at memory.old }
    ensures base { memory.new.base ≡ memory.old.base }
    ensures pages { memory.new.pages ≡ memory.old.pages }
{
    match service {
        RuntimeService::GetNextMonotonicCount => {
            get_next_monotonic_count(alloc, registers, view, memory, count)
        }
        RuntimeService::GetTime => get_time(alloc, registers, view, memory, clock, now),
        RuntimeService::SetTime => {
            let status = set_time(alloc, registers, view, memory, clock, now)?;
            Ok(gives(alloc, status))
        }
        RuntimeService::GetWakeupTime => Ok(gives(alloc, get_wakeup_time())),
        RuntimeService::SetWakeupTime => Ok(gives(alloc, set_wakeup_time())),
        RuntimeService::GetVariable => {
            get_variable(alloc, registers, view, memory, variables, gone)
        }
        RuntimeService::GetNextVariableName => {
            get_next_variable_name(alloc, registers, view, memory, variables, gone)
        }
        RuntimeService::SetVariable => {
            let status = set_variable(alloc, registers, view, memory, variables, gone)?;
            Ok(gives(alloc, status))
        }
        RuntimeService::GetNextHighMonotonicCount => {
            get_next_high_monotonic_count(alloc, registers, view, memory, count)
        }
        RuntimeService::UpdateCapsule => Ok(gives(alloc, update_capsule(registers))),
        RuntimeService::QueryCapsuleCapabilities => Ok(gives(alloc, query_capsule_capabilities())),
        RuntimeService::QueryVariableInfo => {
            query_variable_info(alloc, registers, view, memory, variables)
        }
    }
}
