//! One turn of the machine.
ghost use Rattle.std.specs.Prelude.{◌≡◌, ◌<◌, None, false, IfOk};
ghost use Rattle.firmware_core.specs.Frames.{Quiet};
ghost use Rattle.firmware_core.specs.Turns.{turn_of, by_next, counted_next, is_returning, slot_at, service_turn, return_turn, instruction_turn, told, comes_to, ends_call, stopped, halted, counted};
ghost use Rattle.firmware_core.specs.Views.{NoticeTurned};

use crate::conclusion::Conclusion;
use crate::happened::{Halt, Happened};
use crate::machine::Machine;
use record_text::{Cause, Line};
use std::alloc::{AllocError, Global};

/// The end of a run.
fn halted(cause: Cause, pc: u64, at: u64) -> Happened
    ensures { result ≡ halted cause pc at }
{
    Happened::Halted(Halt { cause, pc, at })
}

/// Whether a halt for this cause ends a call of runtime code, and not the run.
fn ends_call(cause: Cause) -> bool
    ensures { result ≡ ends_call cause }
{
    match cause {
        Cause::Illegal => true,
        Cause::Ebreak => true,
        Cause::Ecall => true,
        Cause::Fetch => true,
        Cause::Load => true,
        Cause::Store => true,
        Cause::Bound => true,
        Cause::Idle => false,
        Cause::Tpl => false,
        Cause::BootGone => false,
        Cause::Depth => false,
        Cause::Frames => false,
    }
}

impl Machine {
    /// Makes of a halt the end of the call that is under way, or of the run.
    fn stop(&mut self, halt: Halt) -> Happened
        ensures { record { happened = result; state = self.new } ≡ stopped halt self.old }
    {
        if ends_call(halt.cause) && self.firmware.in_call() {
            self.firmware.end_call();
            return Happened::Trapped {
                cause: halt.cause,
                steps: self.steps,
            };
        }
        Happened::Halted(halt)
    }

    /// Counts a step.
    #[inline(always)]
    pub(crate) fn count(&mut self)
        requires { self.old.steps < self.old.bound }
        ensures { self.new ≡ counted self.old self.old.firmware }
    {
        self.firmware.pass();
        self.steps += 1;
    }

    /// Tells the answer of a service, where that is asked for.
    fn tell(&self, slot: u8, a0: u64) -> Happened
        ensures { result ≡ told self.now slot a0 }
    {
        if self.trace {
            Happened::Said(Line::Svc { slot, h0: a0 })
        } else {
            Happened::Turned
        }
    }

    /// Gives what a service called at a slot and a program counter came to.
    pub(crate) fn conclude(&mut self, slot: u8, pc: u64, conclusion: Conclusion) -> Happened
        requires { self.old.steps < self.old.bound }
        ensures { record { happened = result; state = self.new } ≡ comes_to slot pc self.old conclusion self.old.firmware }
    {
        match conclusion {
            Conclusion::Answers(a0) => {
                self.firmware.answer(a0);
                self.count();
                self.tell(slot, a0)
            }
            Conclusion::Prints(text, a0) => {
                self.firmware.answer(a0);
                self.count();
                Happened::Said(Line::Console { text })
            }
            Conclusion::Continues => {
                self.count();
                Happened::Turned
            }
            Conclusion::Leaves(value) => {
                self.count();
                Happened::Left {
                    value,
                    steps: self.steps,
                }
            }
            Conclusion::Resets(kind, status) => Happened::Reset { kind, status },
            Conclusion::Halts(cause) => halted(cause, pc, 0),
        }
    }

    /// The service of a slot.
    #[tactic(auto, unfolding(crate::specs::Turns::service_turn))]
    fn service_turn(&mut self, alloc: Global, slot: u8) -> Result<Happened, AllocError>
        requires { self.old.steps < self.old.bound }
        ensures { IfOk result (λ h. record { happened = h; state = self.new } ≡ service_turn slot self.old) }
    {
        let pc = self.firmware.pc();
        let conclusion = self.firmware.serve_slot(alloc, slot)?;
        Ok(self.conclude(slot, pc, conclusion))
    }

    /// The return of a call of runtime code.
    fn return_turn(&mut self) -> Happened
        requires { self.old.steps < self.old.bound }
        ensures { record { happened = result; state = self.new } ≡ return_turn self.old }
    {
        let value = self.firmware.given(0);
        self.firmware.end_call();
        self.count();
        Happened::Left {
            value,
            steps: self.steps,
        }
    }

    /// The instruction at the program counter.
    fn instruction_turn(&mut self) -> Result<Happened, AllocError>
        requires bound { self.old.steps < self.old.bound }
        requires returning { is_returning self.old.firmware ≡ false }
        requires slot { slot_at self.old.firmware ≡ None }
        requires quiet { Quiet self.old.firmware 1 }
        ensures { IfOk result (λ h. record { happened = h; state = self.new } ≡ instruction_turn self.old) }
    {
        match self.run_plain(self.steps + 1) {
            Ok(None) => Ok(Happened::Turned),
            Ok(Some(halt)) => Ok(self.stop(halt)),
            Err(_) => Err(AllocError),
        }
    }

    /// The start of the notification that comes next, if one comes.
    fn notice_turn(&mut self) -> Result<Option<Happened>, AllocError>
        ensures { IfOk result (λ h. NoticeTurned h self.old self.new) }
    {
        if self.firmware.has_notice() && self.firmware.is_full() {
            return Ok(Some(halted(Cause::Depth, self.firmware.pc(), 0)));
        }
        match self.firmware.take_notice() {
            Some(notify) => {
                self.firmware.notify(notify)?;
                Ok(Some(Happened::Turned))
            }
            None => Ok(None),
        }
    }

    /// The return of a call, a service or an instruction, unless the bound is reached.
    fn counted_turn(&mut self, alloc: Global) -> Result<Happened, AllocError>
        requires { Quiet self.old.firmware 1 }
        ensures { IfOk result (λ h. record { happened = h; state = self.new } ≡ by_next (counted_next self.old) self.old) }
    {
        self.whole();
        if self.steps == self.bound {
            let pc = self.firmware.pc();
            return Ok(self.stop(Halt {
                cause: Cause::Bound,
                pc,
                at: 0,
            }));
        }
        if self.firmware.is_returning() {
            return Ok(self.return_turn());
        }
        match self.firmware.slot_at() {
            Some(slot) => self.service_turn(alloc, slot),
            None => self.instruction_turn(),
        }
    }
}

/// Makes one turn: a tick where one is due, else the start of the notification that comes next, else the return of a call of
/// runtime code, else a service where the program counter is at its slot, else an instruction, unless the bound of the job is
/// reached. A turn that halts leaves the parts as they were, but for the end of an image whose starter's outputs lack frames: it
/// has gone by then. A trap and the bound end a call of runtime code, and not the run. After want of memory the machine may only
/// be dropped.
pub fn step_machine(alloc: Global, machine: &mut Machine) -> Result<Happened, AllocError>
    ensures { IfOk result (λ h. record { happened = h; state = machine.new } ≡ turn_of machine.old) }
{
    if machine.firmware.tick_is_due() {
        machine.firmware.tick();
        return Ok(Happened::Turned);
    }
    match machine.notice_turn() {
        Ok(Some(happened)) => Ok(happened),
        Ok(None) => machine.counted_turn(alloc),
        Err(_) => Err(AllocError),
    }
}
