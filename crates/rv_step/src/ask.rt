//! What an instruction asks for.
#![tactic(auto)]

ghost use Rattle.std.specs.Prelude.{◌≡◌, ◌<◌, ◌%◌, ◌^◌, ◌+◌, Bool, slice_index};
ghost use Rattle.rv_decode.specs.Means.{NamesRegisters};
ghost use Rattle.rv_step.specs.declared.ask.Ask.TheVariants.{Set, Load, Store};
ghost use Rattle.uh_base.specs.Bytes.{plus};
ghost use Rattle.rv_step.specs.Values.{bits_of};
ghost use Rattle.rv_step.specs.Asks.{asks, asks_as, branch};
ghost use Rattle.rv_step.specs.Exec.{IsFit};

use crate::ends::Trap;
use crate::values::{div, divu, even, extended, low, mulh, mulhsu, rem, remu};
use rv_decode::{Insn, Op};

/// What an instruction asks for. Addresses and values are numbers of 64 bits, widths are in bytes.
#[derive(Clone, Copy, Debug, PartialEq, Eq, Drop)]
pub enum Ask {
    /// A register gets a value.
    Set {
        rd: u8,
        value: u64,
    },
    /// A register gets the number of so many bytes at an address, with or without its sign.
    Load {
        rd: u8,
        at: u64,
        width: u8,
        sign: bool,
    },
    /// The low bytes of a number are stored.
    Store {
        at: u64,
        width: u8,
        value: u64,
    },
    /// On at another address, with the address behind this instruction in a register.
    Jump {
        to: u64,
        rd: u8,
    },
    /// A trap.
    Stop(Trap),
}

#[inline(always)]
fn set(rd: u8, value: u64) -> Ask
    ensures { result ≡ Set rd value }
{
    Ask::Set { rd, value }
}

#[inline(always)]
fn load(rd: u8, at: u64, width: u8, sign: bool) -> Ask
    ensures { result ≡ Load rd at width sign }
{
    Ask::Load {
        rd,
        at,
        width,
        sign,
    }
}

#[inline(always)]
fn store(at: u64, width: u8, value: u64) -> Ask
    ensures { result ≡ Store at width value }
{
    Ask::Store { at, width, value }
}

#[inline(always)]
fn branch(taken: bool, next: u64, target: u64) -> Ask
    ensures { result ≡ branch taken next target }
{
    Ask::Jump {
        to: if taken { target } else { next },
        rd: 0,
    }
}

#[inline(always)]
fn ask_as(op: Op, rd: u8, a: u64, b: u64, i: u64, pc: u64, next: u64) -> Ask
    requires { rd < 32 }
    ensures asked { result ≡ asks_as op rd a b i pc next }
    ensures fit { IsFit result }
{
    let target = pc.wrapping_add(i);
    let at = a.wrapping_add(i);
    match op {
        Op::Add => set(rd, a.wrapping_add(b)),
        Op::Sub => set(rd, a.wrapping_sub(b)),
        Op::Sll => set(rd, a << (b % 64)),
        Op::Slt => set(rd, u64::from(a.cast_signed() < b.cast_signed())),
        Op::Sltu => set(rd, u64::from(a < b)),
        Op::Xor => set(rd, a ^ b),
        Op::Srl => set(rd, a >> (b % 64)),
        Op::Sra => set(rd, (a.cast_signed() >> (b % 64)).cast_unsigned()),
        Op::Or => set(rd, a | b),
        Op::And => set(rd, a & b),
        Op::Addi => set(rd, a.wrapping_add(i)),
        Op::Slti => set(rd, u64::from(a.cast_signed() < i.cast_signed())),
        Op::Sltiu => set(rd, u64::from(a < i)),
        Op::Xori => set(rd, a ^ i),
        Op::Ori => set(rd, a | i),
        Op::Andi => set(rd, a & i),
        Op::Slli => set(rd, a << (i % 64)),
        Op::Srli => set(rd, a >> (i % 64)),
        Op::Srai => set(rd, (a.cast_signed() >> (i % 64)).cast_unsigned()),
        Op::Addw => set(rd, extended(a.wrapping_add(b))),
        Op::Subw => set(rd, extended(a.wrapping_sub(b))),
        Op::Sllw => set(rd, extended(a << (b % 32))),
        Op::Srlw => set(rd, extended(u64::from(low(a) >> (b % 32)))),
        Op::Sraw => set(
            rd,
            i64::from(low(a).cast_signed() >> (b % 32)).cast_unsigned(),
        ),
        Op::Addiw => set(rd, extended(a.wrapping_add(i))),
        Op::Slliw => set(rd, extended(a << (i % 32))),
        Op::Srliw => set(rd, extended(u64::from(low(a) >> (i % 32)))),
        Op::Sraiw => set(
            rd,
            i64::from(low(a).cast_signed() >> (i % 32)).cast_unsigned(),
        ),
        Op::Mul => set(rd, a.wrapping_mul(b)),
        Op::Mulh => set(rd, mulh(a.cast_signed(), b.cast_signed())),
        Op::Mulhsu => set(rd, mulhsu(a.cast_signed(), b)),
        Op::Mulhu => set(rd, ((u128::from(a) * u128::from(b)) >> 64) as u64),
        Op::Div => set(rd, div(a, b)),
        Op::Divu => set(rd, divu(a, b)),
        Op::Rem => set(rd, rem(a, b)),
        Op::Remu => set(rd, remu(a, b)),
        Op::Mulw => set(rd, extended(a.wrapping_mul(b))),
        Op::Divw => set(rd, extended(div(extended(a), extended(b)))),
        Op::Divuw => set(rd, extended(divu(u64::from(low(a)), u64::from(low(b))))),
        Op::Remw => set(rd, extended(rem(extended(a), extended(b)))),
        Op::Remuw => set(rd, extended(remu(u64::from(low(a)), u64::from(low(b))))),
        Op::Lb => load(rd, at, 1, true),
        Op::Lh => load(rd, at, 2, true),
        Op::Lw => load(rd, at, 4, true),
        Op::Ld => load(rd, at, 8, false),
        Op::Lbu => load(rd, at, 1, false),
        Op::Lhu => load(rd, at, 2, false),
        Op::Lwu => load(rd, at, 4, false),
        Op::Sb => store(at, 1, b),
        Op::Sh => store(at, 2, b),
        Op::Sw => store(at, 4, b),
        Op::Sd => store(at, 8, b),
        Op::Beq => branch(a == b, next, target),
        Op::Bne => branch(a != b, next, target),
        Op::Blt => branch(a.cast_signed() < b.cast_signed(), next, target),
        Op::Bge => branch(a.cast_signed() >= b.cast_signed(), next, target),
        Op::Bltu => branch(a < b, next, target),
        Op::Bgeu => branch(a >= b, next, target),
        Op::Jal => Ask::Jump { to: target, rd },
        Op::Jalr => Ask::Jump { to: even(at), rd },
        Op::Lui => set(rd, i),
        Op::Auipc => set(rd, target),
        Op::Fence => set(0, 0),
        Op::Ecall => Ask::Stop(Trap::Ecall),
        Op::Ebreak => Ask::Stop(Trap::Ebreak),
    }
}

/// What an instruction of so many bytes at `pc` asks for, with these registers.
#[tactic(auto, unfolding(crate::specs::Asks::asks))]
#[inline(always)]
pub fn asked(insn: Insn, len: u8, x: &[u64; 32], pc: u64) -> Ask
    requires { NamesRegisters insn }
    ensures asked { result ≡ asks insn len x.now pc }
    ensures fit { IsFit result }
{
    let a = x[insn.rs1 as usize];
    let b = x[insn.rs2 as usize];
    ask_as(
        insn.op,
        insn.rd,
        a,
        b,
        insn.imm.cast_unsigned(),
        pc,
        pc.wrapping_add(u64::from(len)),
    )
}
