//! One step of a hart.
#![tactic(auto)]

ghost use Rattle.std.specs.Prelude.{◌≡◌, ◌==◌, ◌%◌, not, IsTrue, IfSome, IfOk, IfErr, Ok, Err};
ghost use Rattle.rv_decode.specs.Means.{NamesRegisters, decoded};
ghost use Rattle.rv_step.specs.declared.bus.Access.{Access};
ghost use Rattle.rv_step.specs.Exec.{AreHalves, or_illegal, fetched, step_of};
ghost use Rattle.rv_step.specs.Steps.{StepGives, StepKeeps, state_of};

use crate::bus::{Access, Bus};
use crate::ends::{StepEnd, Trap};
use crate::perform::execute;
use crate::regs::Regs;
use rv_decode::{Insn, KnownWords, decode};

/// The halves of the instruction at an address, or why there are none. The second is fetched only where the low two bits
/// of the first are 11, and else it is 0.
#[tactic(auto, unfolding(crate::specs::Exec::fetched))]
#[inline(always)]
fn fetch_halves<B: Bus>(bus: &B, pc: u64) -> Result<(u16, u16), Trap>
    ensures ok { IfOk result (λ halves. fetched (B.bytes bus.now) (B.allows bus.now) pc ≡ or_illegal (decoded halves.0 halves.1)) }
    ensures err { IfErr result (λ trap. fetched (B.bytes bus.now) (B.allows bus.now) pc ≡ Err trap) }
    ensures second { IfOk result (λ halves. IsTrue (not (halves.0 % 4 == 3)) → halves.1 ≡ 0) }
{
    let half0 = match bus.fetch(pc) {
        Ok(half) => half,
        Err(at) => return Err(Trap::Fault {
            at,
            kind: Access::Fetch,
        }),
    };
    if half0 % 4 == 3 {
        match bus.fetch(pc.wrapping_add(2)) {
            Ok(half1) => Ok((half0, half1)),
            Err(at) => Err(Trap::Fault {
                at,
                kind: Access::Fetch,
            }),
        }
    } else {
        Ok((half0, 0))
    }
}

/// The instruction that was read, or that there is none.
#[inline(always)]
fn found(read: Option<(Insn, u8)>) -> Result<(Insn, u8), Trap>
    requires { IfSome read (λ insn. NamesRegisters insn.0) }
    ensures found { result ≡ or_illegal read }
    ensures registers { IfOk result (λ insn. NamesRegisters insn.0) }
{
    match read {
        Some(insn) => Ok(insn),
        None => Err(Trap::Illegal),
    }
}

/// The instruction at an address, or why there is none.
#[inline(always)]
fn fetch_insn<B: Bus>(bus: &B, pc: u64) -> Result<(Insn, u8), Trap>
    ensures found { result ≡ fetched (B.bytes bus.now) (B.allows bus.now) pc }
    ensures registers { IfOk result (λ insn. NamesRegisters insn.0) }
{
    match fetch_halves(bus, pc) {
        Ok((half0, half1)) => found(decode(half0, half1)),
        Err(trap) => Err(trap),
    }
}

/// The instruction at an address, which is remembered from now on, or why there is none.
#[inline(always)]
fn fetch_anew<B: Bus>(known: &mut KnownWords, bus: &B, pc: u64) -> Result<(Insn, u8), Trap>
    ensures found { result ≡ fetched (B.bytes bus.now) (B.allows bus.now) pc }
    ensures registers { IfOk result (λ insn. NamesRegisters insn.0) }
{
    match fetch_halves(bus, pc) {
        Ok((half0, half1)) => found(known.learn(pc, half0, half1)),
        Err(trap) => Err(trap),
    }
}

/// The instruction at an address, if both of its halves were looked up and its reading is remembered. None says nothing.
#[tactic(auto, unfolding(crate::specs::Exec::fetched))]
#[inline(always)]
fn recalled<B: Bus>(
    known: &KnownWords,
    halves: Option<(u16, u16)>,
    bus: &B,
    pc: u64,
) -> Option<(Insn, u8)>
    requires { IfSome halves (AreHalves (B.bytes bus.now) (B.allows bus.now Access.Fetch) pc) }
    ensures found { IfSome result (λ insn. fetched (B.bytes bus.now) (B.allows bus.now) pc ≡ Ok insn) }
    ensures registers { IfSome result (λ insn. NamesRegisters insn.0) }
{
    let _ = bus;
    match halves {
        Some((half0, half1)) => known.recall(pc, half0, half1),
        None => None,
    }
}

/// Carries out what was fetched.
#[tactic(auto, unfolding(crate::specs::Exec::step_of))]
#[inline(always)]
fn carry_out<B: Bus>(insn: Result<(Insn, u8), Trap>, regs: &mut Regs, bus: &mut B) -> StepEnd
    requires found { insn ≡ fetched (B.bytes bus.old) (B.allows bus.old) regs.old.pc }
    requires registers { IfOk insn (λ found. NamesRegisters found.0) }
    ensures step { StepGives (B.lacks_frames bus.old) (B.takes_no_memory bus.old) result
        (step_of (B.allows bus.old) (state_of regs.old (B.bytes bus.old)))
        (state_of regs.old (B.bytes bus.old)) (state_of regs.new (B.bytes bus.new)) }
    ensures same { B.same bus.old bus.new }
    ensures content { StepKeeps B.kept (B.after bus.old) result
        (step_of (B.allows bus.old) (state_of regs.old (B.bytes bus.old)))
        (B.content bus.old) (B.content bus.new) }
    ensures rights { B.allows bus.new ≡ B.allows bus.old }
{
    match insn {
        Ok((insn, len)) => execute(insn, len, regs, bus),
        Err(trap) => StepEnd::Trap(trap),
    }
}

/// Carries out the instruction at the program counter. All answers but `Next` leave registers and memory as before.
/// The second half of an instruction is fetched only where the low two bits of the first are 11. (RISC-V unprivileged
/// manual, version 20191213, 1.5)
#[inline(always)]
pub fn step<B: Bus>(regs: &mut Regs, bus: &mut B) -> StepEnd
    ensures step { StepGives (B.lacks_frames bus.old) (B.takes_no_memory bus.old) result
        (step_of (B.allows bus.old) (state_of regs.old (B.bytes bus.old)))
        (state_of regs.old (B.bytes bus.old)) (state_of regs.new (B.bytes bus.new)) }
    ensures same { B.same bus.old bus.new }
    ensures content { StepKeeps B.kept (B.after bus.old) result
        (step_of (B.allows bus.old) (state_of regs.old (B.bytes bus.old)))
        (B.content bus.old) (B.content bus.new) }
    ensures rights { B.allows bus.new ≡ B.allows bus.old }
{
    let insn = fetch_insn(bus, regs.pc);
    carry_out(insn, regs, bus)
}

/// `step` of an instruction whose reading isn't remembered. It is from now on.
#[inline(never)]
fn step_anew<B: Bus>(known: &mut KnownWords, regs: &mut Regs, bus: &mut B) -> StepEnd
    ensures step { StepGives (B.lacks_frames bus.old) (B.takes_no_memory bus.old) result
        (step_of (B.allows bus.old) (state_of regs.old (B.bytes bus.old)))
        (state_of regs.old (B.bytes bus.old)) (state_of regs.new (B.bytes bus.new)) }
    ensures same { B.same bus.old bus.new }
    ensures content { StepKeeps B.kept (B.after bus.old) result
        (step_of (B.allows bus.old) (state_of regs.old (B.bytes bus.old)))
        (B.content bus.old) (B.content bus.new) }
    ensures rights { B.allows bus.new ≡ B.allows bus.old }
{
    let insn = fetch_anew(known, bus, regs.pc);
    carry_out(insn, regs, bus)
}

/// `step`, by the readings of words that are remembered.
#[inline(always)]
pub fn step_known<B: Bus>(known: &mut KnownWords, regs: &mut Regs, bus: &mut B) -> StepEnd
    ensures step { StepGives (B.lacks_frames bus.old) (B.takes_no_memory bus.old) result
        (step_of (B.allows bus.old) (state_of regs.old (B.bytes bus.old)))
        (state_of regs.old (B.bytes bus.old)) (state_of regs.new (B.bytes bus.new)) }
    ensures same { B.same bus.old bus.new }
    ensures content { StepKeeps B.kept (B.after bus.old) result
        (step_of (B.allows bus.old) (state_of regs.old (B.bytes bus.old)))
        (B.content bus.old) (B.content bus.new) }
    ensures rights { B.allows bus.new ≡ B.allows bus.old }
{
    let halves = bus.fetch_both(regs.pc);
    step_fetched(known, halves, regs, bus)
}

/// `step_known` of an instruction whose halves the caller looked up, where a look at what it remembers found them.
#[tactic(auto, unfolding(crate::specs::Exec::step_of))]
#[inline(always)]
pub fn step_fetched<B: Bus>(
    known: &mut KnownWords,
    halves: Option<(u16, u16)>,
    regs: &mut Regs,
    bus: &mut B,
) -> StepEnd
    requires { IfSome halves (AreHalves (B.bytes bus.old) (B.allows bus.old Access.Fetch) regs.old.pc) }
    ensures step { StepGives (B.lacks_frames bus.old) (B.takes_no_memory bus.old) result
        (step_of (B.allows bus.old) (state_of regs.old (B.bytes bus.old)))
        (state_of regs.old (B.bytes bus.old)) (state_of regs.new (B.bytes bus.new)) }
    ensures same { B.same bus.old bus.new }
    ensures content { StepKeeps B.kept (B.after bus.old) result
        (step_of (B.allows bus.old) (state_of regs.old (B.bytes bus.old)))
        (B.content bus.old) (B.content bus.new) }
    ensures rights { B.allows bus.new ≡ B.allows bus.old }
{
    match recalled(known, halves, bus, regs.pc) {
        Some((insn, len)) => execute(insn, len, regs, bus),
        None => step_anew(known, regs, bus),
    }
}
