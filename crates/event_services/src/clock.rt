//! Stall and SetWatchdogTimer (UEFI 2.10, sections 7.5.2 and 7.5.1).
#![tactic(auto)]

ghost use Rattle.std.specs.Prelude.{◌≡◌, ◌≤◌};
ghost use Rattle.event_services.specs.Clock.{stall, set_watchdog_timer};

use guest_call::argument;
use service_answer::{Served, gives};
use std::alloc::Global;
use uh_base::EfiStatus;

/// Stall (microseconds): so much time passes. `moment` is in units of 100 ns, and stops at 2^64 - 1.
#[tactic(auto, unfolding(crate::specs::Clock::stall))]
pub fn stall(alloc: Global, registers: &[u64; 32], moment: &mut u64) -> Served
    ensures answer { record { served = result; moment = moment.new } ≡ stall registers.now moment.old }
    ensures later { moment.old ≤ moment.new }
{
    let units = argument(0, registers).saturating_mul(10);
    *moment = moment.saturating_add(units);
    gives(alloc, EfiStatus::SUCCESS.0)
}

/// SetWatchdogTimer: there is no watchdog, so it does nothing.
#[tactic(auto, unfolding(crate::specs::Clock::set_watchdog_timer))]
pub fn set_watchdog_timer(alloc: Global) -> Served
    ensures { result ≡ set_watchdog_timer }
{
    gives(alloc, EfiStatus::SUCCESS.0)
}
