//! What a host may do in place of the service of a slot.
ghost use Rattle.std.specs.Prelude.{◌≡◌, ◌≤◌, ◌<◌, ◌||◌, not, nat_lt, length, true, is_some, IfOk, IfSome, OnOk};
ghost use Rattle.firmware_core.specs.Frames.{aligned_stack};
ghost use Rattle.firmware_core.specs.BootEnd.{exit_address, is_ending};
ghost use Rattle.firmware_core.specs.Turns.{counted_next, next_turn};
ghost use Rattle.firmware_core.specs.Calls.{slot_of, pending_slot, slot_answered, call_argument, call_registers, with_call, call_begun, without_returned, frame_count};

use crate::boot_end::exit_address;
use crate::conclusion::Conclusion;
use crate::firmware::Firmware;
use crate::frame::{Hart, Phase, Purpose};
use crate::happened::Happened;
use crate::machine::Machine;
use protocol_db::Protocols;
use rv_step::Regs;
use std::alloc::AllocError;

/// An argument of a call, from 0 on; 0 behind the last.
fn call_argument(args: &[u64], n: usize) -> u64
    ensures { result ≡ call_argument args.now n }
{
    match args.get(n) {
        Some(value) => *value,
        None => 0,
    }
}

impl Firmware {
    /// What a call begins with, on a stack.
    pub(crate) fn call_registers(&self, sp: u64, args: &[u64]) -> [u64; 32]
        ensures { result ≡ call_registers self.now.runtime.layout sp args.now }
    {
        let mut x = self.registers_for(sp, call_argument(args, 0), call_argument(args, 1));
        x[12] = call_argument(args, 2);
        x[13] = call_argument(args, 3);
        x[14] = call_argument(args, 4);
        x[15] = call_argument(args, 5);
        x[16] = call_argument(args, 6);
        x[17] = call_argument(args, 7);
        x
    }

    /// Begins a call of guest code.
    #[tactic(auto, unfolding(crate::specs::Calls::with_call))]
    fn call(&mut self, pc: u64, args: &[u64]) -> Result<(), AllocError>
        ensures { OnOk result (self.new ≡ with_call self.old pc args.now) }
    {
        let x = self.call_registers(self.aligned_stack(), args);
        let hart = Hart {
            regs: Regs { x, pc },
            phase: Phase::Called,
            tpl: self.hart.tpl,
        };
        self.push(Purpose::Call, hart)
    }
}

impl Firmware {
    /// Whether no job is under way: no frame stands, and boot services aren't being ended.
    fn is_idle(&self) -> bool
        ensures { result ≡ not (nat_lt 0 (length self.now.frames) || is_ending (exit_address self.now.runtime.layout) self.now.hart) }
    {
        self.whole();
        let runtime = &self.runtime;
        self.frames.is_empty() && !self.hart.is_ending(exit_address(&runtime.layout))
    }
}

impl Machine {
    /// The slot whose service comes, unless the bound is reached.
    fn counted_slot(&self) -> Option<u8>
        ensures slot { result ≡ slot_of (counted_next self.now) }
        ensures below { IfSome result (λ slot. self.now.steps < self.now.bound) }
    {
        self.whole();
        if self.steps == self.bound || self.firmware.is_returning() {
            None
        } else {
            self.firmware.slot_at()
        }
    }

    /// The slot whose service is the next turn.
    #[tactic(auto, using(crate::proofs::CallLemmas::slot_at_tick, crate::proofs::CallLemmas::slot_at_notice, crate::proofs::CallLemmas::slot_counted))]
    fn next_slot(&self) -> Option<u8>
        ensures slot { result ≡ slot_of (next_turn self.now) }
        ensures below { IfSome result (λ slot. self.now.steps < self.now.bound) }
    {
        if self.firmware.tick_is_due() {
            None
        } else if self.firmware.has_notice() {
            None
        } else {
            self.counted_slot()
        }
    }

    /// The slot whose service is the next turn: None where that is a tick, the start of a notification, the return of a call
    /// of runtime code, an instruction or the end by the bound, and where no job is under way.
    #[tactic(auto, unfolding(crate::specs::Calls::pending_slot))]
    pub fn pending_slot(&self) -> Option<u8>
        ensures slot { result ≡ pending_slot self.now }
        ensures below { IfSome result (λ slot. self.now.steps < self.now.bound) }
    {
        if self.firmware.is_idle() {
            None
        } else {
            self.next_slot()
        }
    }

    /// Answers the slot that comes next, as its service would: sets a0, continues at ra, and counts a step.
    #[tactic(auto, unfolding(crate::specs::Calls::slot_answered))]
    pub fn answer_slot(&mut self, value: u64) -> Happened
        requires { is_some (pending_slot self.old) ≡ true }
        ensures { record { happened = result; state = self.new } ≡ slot_answered self.old value }
    {
        match self.pending_slot() {
            Some(slot) => {
                let pc = self.firmware.pc();
                self.conclude(slot, pc, Conclusion::Answers(value))
            }
            None => unreachable!(),
        }
    }

    /// The registers, from which the arguments of a slot can be read.
    pub fn regs(&self) -> Regs
        ensures x { result.x ≡ self.now.firmware.hart.x }
        ensures pc { result.pc ≡ self.now.firmware.hart.pc }
    {
        self.firmware.hart.regs
    }

    /// Begins a call of guest code at an address with at most 8 arguments, and counts a step: the slot comes again behind it.
    /// False where 64 frames stand; then nothing changes. After want of memory the machine may only be dropped.
    #[tactic(auto, unfolding(crate::specs::Calls::call_begun))]
    pub fn push_call(&mut self, pc: u64, args: &[u64]) -> Result<bool, AllocError>
        requires pending { is_some (pending_slot self.old) ≡ true }
        requires few { length args.now ≤ 8 }
        ensures { IfOk result (λ begins. record { begins = begins; state = self.new } ≡ call_begun self.old pc args.now) }
    {
        let _pending = self.pending_slot();
        if self.firmware.is_full() {
            return Ok(false);
        }
        self.firmware.call(pc, args)?;
        self.count();
        Ok(true)
    }

    /// Takes a0 with which the last call by `push_call` ended: None where none has ended since it was last taken.
    pub fn returned(&mut self) -> Option<u64>
        ensures value { result ≡ self.old.firmware.returned }
        ensures taken { self.new ≡ without_returned self.old }
    {
        let value = self.firmware.returned;
        self.firmware.returned = None;
        value
    }

    /// How many frames stand.
    pub fn frames(&self) -> u32
        ensures { result ≡ frame_count self.now }
    {
        u32::try_from(self.firmware.frames.len()).unwrap_or(u32::MAX)
    }

    /// The handles with their protocols.
    pub fn protocols(&self) -> &Protocols
        ensures { result.now ≡ self.now.firmware.protocols }
    {
        &self.firmware.protocols
    }
}
