//! Calls of guest code by the host, in place of the service of a slot.
ghost use Rattle.std.specs.Prelude.{◌≡◌};

use firmware_core::{Job, Machine, Setup, begin, load, step_machine};
use guest_build::assemble;
use std::alloc::{AllocError, Global};
use std::test::Fail;
use time_service::Clock;
use variable_store::Variables;

/// An application that asks for the time, by the runtime services of its system table.
const APPLICATION: &str = "start: ld t0, 88(a1)\n ld t0, 24(t0)\n jalr ra, 0(t0)\n ret";

/// The slot of GetTime, 44, in RAM of 256 pages at 0x40000000.
const SLOT: u64 = 0x400f_f000 + 16 * 44;

/// Whether a job comes to the slot within eight turns.
fn comes_to_slot(alloc: Global, machine: &mut Machine) -> Result<bool, AllocError> {
    for _ in 0..8 {
        if machine.pending_slot() == Some(44) {
            return Ok(true);
        }
        step_machine(alloc, machine)?;
    }
    Ok(false)
}

/// How many calls of the slot itself begin before one doesn't, of a hundred.
fn calls_that_begin(machine: &mut Machine) -> Result<u32, AllocError> {
    for calls in 0..100 {
        if machine.pending_slot().is_none() || !machine.push_call(SLOT, &[])? {
            return Ok(calls);
        }
    }
    Ok(100)
}

/// How many calls begin while the application asks for the time; none where it doesn't.
fn calls_of_application(alloc: Global, machine: &mut Machine) -> Result<u32, AllocError> {
    let Ok(image) = assemble(alloc, APPLICATION) else {
        return Ok(0);
    };
    if image.len() > 0x400000 {
        return Ok(0);
    }
    let (_, handle, _, _) = load(alloc, machine, image.as_slice())?;
    let job = Job::Start { handle, bound: 100 };
    if begin(machine, &job)? && comes_to_slot(alloc, machine)? {
        return calls_that_begin(machine);
    }
    Ok(0)
}

/// A machine of 256 pages.
fn opened(alloc: Global, clock: Clock) -> Result<Machine, AllocError>
    requires { clock.set_at ≡ 0 }
{
    let setup = Setup {
        base: 0x4000_0000,
        pages: 256,
        ticks: Vec::new(alloc),
        clock,
        variables: Variables::new(alloc),
        trace: false,
    };
    Machine::new(alloc, setup)
}

#[test]
fn no_call_begins_where_64_frames_stand(rt: HostRuntime) -> Result<(), Fail> {
    let clock = Clock::at("2024-01-01T00:00:00").expect(&rt, "a clock");
    let mut machine = opened(rt.alloc(), clock)?;
    // One frame is that of the application.
    let calls = calls_of_application(rt.alloc(), &mut machine)?;
    assert_eq!(rt; (calls, machine.frames()), (63, 64));
    Ok(())
}
