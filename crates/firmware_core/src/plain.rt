//! Plain instructions, one after another.
ghost use Rattle.std.specs.Prelude.{◌≡◌, ◌≤◌, ◌<◌, ◌+◌, ◌-◌, OnOk, IfOk, None, false};
ghost use Rattle.event_queue.specs.Timers.{moment_ahead};
ghost use Rattle.firmware_core.specs.Turns.{is_returning, slot_at, halt_of, instruction_turn};
ghost use Rattle.firmware_core.specs.Frames.{Quiet};
ghost use Rattle.firmware_core.specs.Jobs.{SilentlyTo};
ghost use Rattle.firmware_core.specs.Views.{turn_by, potential};

use crate::firmware::Firmware;
use crate::happened::Halt;
use crate::machine::Machine;
use record_text::Cause;
use rv_step::{Access, StepEnd, Trap};
use std::alloc::AllocError;

/// The halt by a trap at a program counter.
fn halt_of(trap: Trap, pc: u64) -> Halt
    ensures { result ≡ halt_of trap pc }
{
    let (cause, at) = match trap {
        Trap::Illegal => (Cause::Illegal, 0),
        Trap::Ebreak => (Cause::Ebreak, 0),
        Trap::Ecall => (Cause::Ecall, 0),
        Trap::Fault { at, kind } => match kind {
            Access::Load => (Cause::Load, at),
            Access::Store => (Cause::Store, at),
            Access::Fetch => (Cause::Fetch, at),
        },
    };
    Halt { cause, pc, at }
}

impl Firmware {
    /// How many units of time there surely are before the next tick.
    fn units_to_tick(&self) -> u64
        ensures { 0 < result → self.now.runtime.gone ≡ false → self.now.time + result ≤ moment_ahead self.now.events }
    {
        if self.runtime.gone {
            return u64::MAX;
        }
        match self.events.tick_moment() {
            Some(moment) => moment.saturating_sub(self.time),
            None => u64::MAX - self.time,
        }
    }
}

impl Machine {
    /// The number of steps up to which neither a tick nor a notification comes, at most the bound.
    pub(crate) fn quiet_end(&self) -> u64
        ensures bound { result ≤ self.now.bound }
        ensures quiet { self.now.steps < result → Quiet self.now.firmware (result - self.now.steps) }
    {
        self.whole();
        if self.firmware.has_notice() {
            return self.steps;
        }
        let end = self.steps.saturating_add(self.firmware.units_to_tick());
        end.min(self.bound)
    }

    /// Carries out instructions up to a number of steps, up to which neither a tick nor a notification comes, as long as no
    /// service and no return comes. Gives the halt of one that isn't carried out, which isn't counted.
    #[inline(never)]
    pub(crate) fn run_plain(&mut self, end: u64) -> Result<Option<Halt>, AllocError>
        requires end { end ≤ self.old.bound }
        requires quiet { self.old.steps < end → Quiet self.old.firmware (end - self.old.steps) }
        ensures silent { OnOk result (SilentlyTo self.old self.new) }
        ensures one { end ≡ self.old.steps + 1 → is_returning self.old.firmware ≡ false → slot_at self.old.firmware ≡ None → IfOk result (λ halt. turn_by halt self.new ≡ instruction_turn self.old) }
        ensures bound { self.new.bound ≡ self.old.bound }
        ensures nearer { OnOk result (potential self.new ≤ potential self.old) }
    {
        self.whole();
        for step in self.steps..end {
            if self.firmware.is_returning() {
                return Ok(None);
            }
            if self.firmware.slot_at().is_some() {
                return Ok(None);
            }
            let pc = self.firmware.pc();
            match self.firmware.instruct() {
                StepEnd::Next => self.count(),
                StepEnd::Memory => return Err(AllocError),
                StepEnd::Trap(trap) => return Ok(Some(halt_of(trap, pc))),
                StepEnd::Frames => {
                    return Ok(Some(Halt {
                        cause: Cause::Frames,
                        pc,
                        at: 0,
                    }));
                }
            }
        }
        Ok(None)
    }
}
