//! What a word and its operands say.
ghost use Rattle.std.specs.Prelude.{◌≡◌};
ghost use Rattle.uh_base.specs.Answers.{Reads, kind_of};
ghost use Rattle.guest_build.specs.Statements.{insn, plain, registers, immediate, shift, offset, store, branch, upper_of, lui, jump, bare, instruction, li, la, mv, nop, ret, jump_by, jr, zero_branch};

use crate::fault::{AsmKind, Fault};
use crate::number::{Number, number_in};
use crate::operand::{based, high, label, low, nothing, register, three, two, upper};
use crate::statement::{Operand, Statement};
use crate::word::Shape;
use rv_decode::{Insn, Op};
use std::alloc::Global;
use uh_base::Text;

/// An instruction with these registers.
pub fn insn(op: Op, rd: u8, rs1: u8, rs2: u8) -> Insn
    ensures { result ≡ insn op rd rs1 rs2 }
{
    Insn {
        op,
        rd,
        rs1,
        rs2,
        imm: 0,
    }
}

/// An instruction of registers alone.
fn plain(op: Op, rd: u8, rs1: u8, rs2: u8) -> Statement
    ensures { result ≡ plain op rd rs1 rs2 }
{
    Statement::Instruction {
        insn: insn(op, rd, rs1, rs2),
        operand: Operand::Number(Number {
            negative: false,
            size: 0,
        }),
    }
}

/// `rd, rs1, rs2`.
#[tactic(auto, unfolding(crate::specs::Statements::registers))]
fn registers(op: Op, text: &str) -> Result<Statement, AsmKind>
    ensures { result ≡ registers op text.now }
{
    let (first, second, third) = three(text)?;
    let rd = register(first)?;
    let rs1 = register(second)?;
    let rs2 = register(third)?;
    Ok(plain(op, rd, rs1, rs2))
}

/// `rd, rs1` and a number of 12 bits or `%lo(label)`.
#[tactic(auto, unfolding(crate::specs::Statements::immediate))]
fn immediate(alloc: Global, op: Op, text: &str) -> Result<Statement, Fault>
    ensures { Reads kind_of (λ statement. statement) result (immediate op text.now) }
{
    let (first, second, third) = three(text)?;
    let rd = register(first)?;
    let rs1 = register(second)?;
    let operand = low(alloc, third)?;
    Ok(Statement::Instruction {
        insn: insn(op, rd, rs1, 0),
        operand,
    })
}

/// `rd, rs1` and a shift amount.
#[tactic(auto, unfolding(crate::specs::Statements::shift))]
fn shift(op: Op, text: &str) -> Result<Statement, AsmKind>
    ensures { result ≡ shift op text.now }
{
    let (first, second, third) = three(text)?;
    let rd = register(first)?;
    let rs1 = register(second)?;
    let n = number_in(third)?;
    Ok(Statement::Instruction {
        insn: insn(op, rd, rs1, 0),
        operand: Operand::Number(n),
    })
}

/// `rd, offset(rs1)`.
#[tactic(auto, unfolding(crate::specs::Statements::offset))]
fn offset(alloc: Global, op: Op, text: &str) -> Result<Statement, Fault>
    ensures { Reads kind_of (λ statement. statement) result (offset op text.now) }
{
    let (first, second) = two(text)?;
    let rd = register(first)?;
    let (operand, base) = based(alloc, second)?;
    Ok(Statement::Instruction {
        insn: insn(op, rd, base, 0),
        operand,
    })
}

/// `rs2, offset(rs1)`.
#[tactic(auto, unfolding(crate::specs::Statements::store))]
fn store(alloc: Global, op: Op, text: &str) -> Result<Statement, Fault>
    ensures { Reads kind_of (λ statement. statement) result (store op text.now) }
{
    let (first, second) = two(text)?;
    let rs2 = register(first)?;
    let (operand, base) = based(alloc, second)?;
    Ok(Statement::Instruction {
        insn: insn(op, 0, base, rs2),
        operand,
    })
}

/// `rs1, rs2, label`.
#[tactic(auto, unfolding(crate::specs::Statements::branch))]
fn branch(alloc: Global, op: Op, text: &str) -> Result<Statement, Fault>
    ensures { Reads kind_of (λ statement. statement) result (branch op text.now) }
{
    let (first, second, third) = three(text)?;
    let rs1 = register(first)?;
    let rs2 = register(second)?;
    let target = label(third)?;
    let target = Text::new(alloc, target)?;
    Ok(Statement::Instruction {
        insn: insn(op, 0, rs1, rs2),
        operand: Operand::Distance(target),
    })
}

/// `rd` and a field of 20 bits.
#[tactic(auto, unfolding(crate::specs::Statements::upper_of))]
fn upper_of(op: Op, text: &str) -> Result<Statement, AsmKind>
    ensures { result ≡ upper_of op text.now }
{
    let (first, second) = two(text)?;
    let rd = register(first)?;
    let operand = upper(second)?;
    Ok(Statement::Instruction {
        insn: insn(op, rd, 0, 0),
        operand,
    })
}

/// `rd` and a field of 20 bits or `%hi(label)`.
#[tactic(auto, unfolding(crate::specs::Statements::lui))]
fn lui(alloc: Global, op: Op, text: &str) -> Result<Statement, Fault>
    ensures { Reads kind_of (λ statement. statement) result (lui op text.now) }
{
    let (first, second) = two(text)?;
    let rd = register(first)?;
    let operand = high(alloc, second)?;
    Ok(Statement::Instruction {
        insn: insn(op, rd, 0, 0),
        operand,
    })
}

/// `rd, label`.
#[tactic(auto, unfolding(crate::specs::Statements::jump))]
fn jump(alloc: Global, op: Op, text: &str) -> Result<Statement, Fault>
    ensures { Reads kind_of (λ statement. statement) result (jump op text.now) }
{
    let (first, second) = two(text)?;
    let rd = register(first)?;
    let target = label(second)?;
    let target = Text::new(alloc, target)?;
    Ok(Statement::Instruction {
        insn: insn(op, rd, 0, 0),
        operand: Operand::Distance(target),
    })
}

/// No operands.
#[tactic(auto, unfolding(crate::specs::Statements::bare))]
fn bare(op: Op, text: &str) -> Result<Statement, AsmKind>
    ensures { result ≡ bare op text.now }
{
    nothing(text)?;
    Ok(plain(op, 0, 0, 0))
}

/// An instruction of the manual.
#[tactic(auto, unfolding(crate::specs::Statements::instruction))]
pub fn instruction(alloc: Global, op: Op, shape: Shape, text: &str) -> Result<Statement, Fault>
    ensures { Reads kind_of (λ statement. statement) result (instruction op shape text.now) }
{
    match shape {
        Shape::Registers => Ok(registers(op, text)?),
        Shape::Immediate => immediate(alloc, op, text),
        Shape::Shift => Ok(shift(op, text)?),
        Shape::Offset => offset(alloc, op, text),
        Shape::Store => store(alloc, op, text),
        Shape::Branch => branch(alloc, op, text),
        Shape::Upper => Ok(upper_of(op, text)?),
        Shape::Lui => lui(alloc, op, text),
        Shape::Jump => jump(alloc, op, text),
        Shape::Bare => Ok(bare(op, text)?),
    }
}

/// `li rd, N`.
#[tactic(auto, unfolding(crate::specs::Statements::li))]
pub fn li(text: &str) -> Result<Statement, AsmKind>
    ensures { result ≡ li text.now }
{
    let (first, second) = two(text)?;
    let rd = register(first)?;
    let value = number_in(second)?;
    Ok(Statement::LoadImmediate { rd, value })
}

/// `la rd, label`.
#[tactic(auto, unfolding(crate::specs::Statements::la))]
pub fn la(alloc: Global, text: &str) -> Result<Statement, Fault>
    ensures { Reads kind_of (λ statement. statement) result (la text.now) }
{
    let (first, second) = two(text)?;
    let rd = register(first)?;
    let target = label(second)?;
    Ok(Statement::LoadAddress {
        rd,
        label: Text::new(alloc, target)?,
    })
}

/// `mv rd, rs1`, which is `addi rd, rs1, 0`.
#[tactic(auto, unfolding(crate::specs::Statements::mv))]
pub fn mv(text: &str) -> Result<Statement, AsmKind>
    ensures { result ≡ mv text.now }
{
    let (first, second) = two(text)?;
    let rd = register(first)?;
    let rs1 = register(second)?;
    Ok(plain(Op::Addi, rd, rs1, 0))
}

/// `nop`, which is `addi zero, zero, 0`.
#[tactic(auto, unfolding(crate::specs::Statements::nop))]
pub fn nop(text: &str) -> Result<Statement, AsmKind>
    ensures { result ≡ nop text.now }
{
    nothing(text)?;
    Ok(plain(Op::Addi, 0, 0, 0))
}

/// `ret`, which is `jalr zero, 0(ra)`.
#[tactic(auto, unfolding(crate::specs::Statements::ret))]
pub fn ret(text: &str) -> Result<Statement, AsmKind>
    ensures { result ≡ ret text.now }
{
    nothing(text)?;
    Ok(plain(Op::Jalr, 0, 1, 0))
}

/// `j label` and `call label`, which are `jal zero, label` and `jal ra, label`.
#[tactic(auto, unfolding(crate::specs::Statements::jump_by))]
pub fn jump_by(alloc: Global, rd: u8, text: &str) -> Result<Statement, Fault>
    ensures { Reads kind_of (λ statement. statement) result (jump_by rd text.now) }
{
    let target = label(text)?;
    let target = Text::new(alloc, target)?;
    Ok(Statement::Instruction {
        insn: insn(Op::Jal, rd, 0, 0),
        operand: Operand::Distance(target),
    })
}

/// `jr rs1`, which is `jalr zero, 0(rs1)`.
#[tactic(auto, unfolding(crate::specs::Statements::jr))]
pub fn jr(text: &str) -> Result<Statement, AsmKind>
    ensures { result ≡ jr text.now }
{
    let rs1 = register(text)?;
    Ok(plain(Op::Jalr, 0, rs1, 0))
}

/// `beqz rs1, label` and `bnez rs1, label`, which compare with `zero`.
#[tactic(auto, unfolding(crate::specs::Statements::zero_branch))]
pub fn zero_branch(alloc: Global, op: Op, text: &str) -> Result<Statement, Fault>
    ensures { Reads kind_of (λ statement. statement) result (zero_branch op text.now) }
{
    let (first, second) = two(text)?;
    let rs1 = register(first)?;
    let target = label(second)?;
    let target = Text::new(alloc, target)?;
    Ok(Statement::Instruction {
        insn: insn(op, 0, rs1, 0),
        operand: Operand::Distance(target),
    })
}
