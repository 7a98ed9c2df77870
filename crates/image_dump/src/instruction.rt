//! The text of an instruction, appended to what stands before it.
ghost use Rattle.std.specs.Prelude.{◌≡◌, ◌<◌, ◌++◌, ◌∷◌, [], OnOk};
ghost use Rattle.std.specs.Fmt.{signed_decimal};
ghost use Rattle.rv_decode.specs.Means.{NamesRegisters};
ghost use Rattle.rv_decode.specs.Texts.{name_of, register_name, comma, based, upper_field, text_of};
ghost use Rattle.image_dump.specs.Operands.{operands_of, operands_text};

use record_text::push_decimal;
use rv_decode::{Insn, Op};
use std::alloc::AllocError;

/// Which operands the text of an instruction has.
#[derive(Clone, Copy)]
pub enum Operands {
    /// Three registers.
    Registers,
    /// Two registers and a number.
    Number,
    /// A register, and an offset with its base.
    Load,
    /// The same, with the register that is stored.
    Store,
    /// Two registers that are compared, and a distance.
    Branch,
    /// A register and a field of 20 bits.
    Upper,
    /// A register and a distance.
    Distance,
    Nothing,
}

/// Which operands an instruction's text has, by its name.
fn operands_of(op: Op) -> Operands
    ensures { result ≡ operands_of op }
{
    match op {
        Op::Lui | Op::Auipc => Operands::Upper,
        Op::Jal => Operands::Distance,
        Op::Beq | Op::Bne | Op::Blt | Op::Bge | Op::Bltu | Op::Bgeu => Operands::Branch,
        Op::Jalr | Op::Lb | Op::Lh | Op::Lw | Op::Ld | Op::Lbu | Op::Lhu | Op::Lwu => {
            Operands::Load
        }
        Op::Sb | Op::Sh | Op::Sw | Op::Sd => Operands::Store,
        Op::Addi
        | Op::Slli
        | Op::Slti
        | Op::Sltiu
        | Op::Xori
        | Op::Srli
        | Op::Srai
        | Op::Ori
        | Op::Andi
        | Op::Addiw
        | Op::Slliw
        | Op::Srliw
        | Op::Sraiw => Operands::Number,
        Op::Fence | Op::Ecall | Op::Ebreak => Operands::Nothing,
        _ => Operands::Registers,
    }
}

/// The name of a register. (RISC-V unprivileged manual, version 20191213, table 25.1)
#[tactic(auto, unfolding(rv_decode::specs::Texts::register_name, rv_decode::specs::Texts::register_names))]
fn register_name(n: u8) -> &'static str
    requires { n < 32 }
    ensures { result.now ≡ register_name n }
{
    match n {
        0 => "zero",
        1 => "ra",
        2 => "sp",
        3 => "gp",
        4 => "tp",
        5 => "t0",
        6 => "t1",
        7 => "t2",
        8 => "s0",
        9 => "s1",
        10 => "a0",
        11 => "a1",
        12 => "a2",
        13 => "a3",
        14 => "a4",
        15 => "a5",
        16 => "a6",
        17 => "a7",
        18 => "s2",
        19 => "s3",
        20 => "s4",
        21 => "s5",
        22 => "s6",
        23 => "s7",
        24 => "s8",
        25 => "s9",
        26 => "s10",
        27 => "s11",
        28 => "t3",
        29 => "t4",
        30 => "t5",
        _ => "t6",
    }
}

#[tactic(auto, unfolding(rv_decode::specs::Texts::name_of))]
fn name(op: Op) -> &'static str
    ensures { result.now ≡ name_of op }
{
    match op {
        Op::Lui => "lui",
        Op::Auipc => "auipc",
        Op::Jal => "jal",
        Op::Jalr => "jalr",
        Op::Beq => "beq",
        Op::Bne => "bne",
        Op::Blt => "blt",
        Op::Bge => "bge",
        Op::Bltu => "bltu",
        Op::Bgeu => "bgeu",
        Op::Lb => "lb",
        Op::Lh => "lh",
        Op::Lw => "lw",
        Op::Ld => "ld",
        Op::Lbu => "lbu",
        Op::Lhu => "lhu",
        Op::Lwu => "lwu",
        Op::Sb => "sb",
        Op::Sh => "sh",
        Op::Sw => "sw",
        Op::Sd => "sd",
        Op::Addi => "addi",
        Op::Slli => "slli",
        Op::Slti => "slti",
        Op::Sltiu => "sltiu",
        Op::Xori => "xori",
        Op::Srli => "srli",
        Op::Srai => "srai",
        Op::Ori => "ori",
        Op::Andi => "andi",
        Op::Addiw => "addiw",
        Op::Slliw => "slliw",
        Op::Srliw => "srliw",
        Op::Sraiw => "sraiw",
        Op::Add => "add",
        Op::Sub => "sub",
        Op::Mul => "mul",
        Op::Sll => "sll",
        Op::Mulh => "mulh",
        Op::Slt => "slt",
        Op::Mulhsu => "mulhsu",
        Op::Sltu => "sltu",
        Op::Mulhu => "mulhu",
        Op::Xor => "xor",
        Op::Div => "div",
        Op::Srl => "srl",
        Op::Sra => "sra",
        Op::Divu => "divu",
        Op::Or => "or",
        Op::Rem => "rem",
        Op::And => "and",
        Op::Remu => "remu",
        Op::Addw => "addw",
        Op::Subw => "subw",
        Op::Mulw => "mulw",
        Op::Sllw => "sllw",
        Op::Divw => "divw",
        Op::Srlw => "srlw",
        Op::Sraw => "sraw",
        Op::Divuw => "divuw",
        Op::Remw => "remw",
        Op::Remuw => "remuw",
        Op::Fence => "fence",
        Op::Ecall => "ecall",
        Op::Ebreak => "ebreak",
    }
}

fn upper_field(i: &Insn) -> u64
    ensures { result ≡ upper_field i.now }
{
    i.imm.cast_unsigned() / (1 << 12) % (1 << 20)
}

/// Appends a register's name, a comma and a space.
fn push_register(text: &mut Vec<u8>, n: u8) -> Result<(), AllocError>
    requires { n < 32 }
    ensures { OnOk result (text.new.items ≡ text.old.items ++ comma (register_name n) []) }
{
    text.extend_from_slice(register_name(n).as_bytes())?;
    text.extend_from_slice(b", ")?;
    Ok(())
}

/// Appends a number in decimal digits, with its sign where it is negative.
#[tactic(auto, using(crate::proofs::TextLemmas::negative, crate::proofs::TextLemmas::not_negative))]
fn push_signed(text: &mut Vec<u8>, n: i64) -> Result<(), AllocError>
    ensures { OnOk result (text.new.items ≡ text.old.items ++ signed_decimal n) }
{
    if n < 0 {
        text.push(b'-')?;
        push_decimal(text, n.unsigned_abs())
    } else {
        push_decimal(text, n.unsigned_abs())
    }
}

/// Appends an offset and its base in parentheses.
fn push_based(text: &mut Vec<u8>, offset: i64, base: u8) -> Result<(), AllocError>
    requires { base < 32 }
    ensures { OnOk result (text.new.items ≡ text.old.items ++ based offset (register_name base)) }
{
    push_signed(text, offset)?;
    text.push(b'(')?;
    text.extend_from_slice(register_name(base).as_bytes())?;
    text.push(b')')?;
    Ok(())
}

/// Appends a space and the operands of an instruction.
fn push_operands(text: &mut Vec<u8>, operands: Operands, i: &Insn) -> Result<(), AllocError>
    requires { NamesRegisters i.now }
    ensures { OnOk result (text.new.items ≡ text.old.items ++ operands_text operands i.now) }
{
    match operands {
        Operands::Registers => {
            text.push(b' ')?;
            push_register(text, i.rd)?;
            push_register(text, i.rs1)?;
            text.extend_from_slice(register_name(i.rs2).as_bytes())
        }
        Operands::Number => {
            text.push(b' ')?;
            push_register(text, i.rd)?;
            push_register(text, i.rs1)?;
            push_signed(text, i.imm)
        }
        Operands::Load => {
            text.push(b' ')?;
            push_register(text, i.rd)?;
            push_based(text, i.imm, i.rs1)
        }
        Operands::Store => {
            text.push(b' ')?;
            push_register(text, i.rs2)?;
            push_based(text, i.imm, i.rs1)
        }
        Operands::Branch => {
            text.push(b' ')?;
            push_register(text, i.rs1)?;
            push_register(text, i.rs2)?;
            push_signed(text, i.imm)
        }
        Operands::Upper => {
            text.push(b' ')?;
            push_register(text, i.rd)?;
            push_decimal(text, upper_field(i))
        }
        Operands::Distance => {
            text.push(b' ')?;
            push_register(text, i.rd)?;
            push_signed(text, i.imm)
        }
        Operands::Nothing => Ok(()),
    }
}

fn push_name(text: &mut Vec<u8>, op: Op) -> Result<(), AllocError>
    ensures { OnOk result (text.new.items ≡ text.old.items ++ name_of op) }
{
    text.extend_from_slice(name(op).as_bytes())?;
    Ok(())
}

/// Appends the operands of a name, with the space in front of them.
fn push_operands_of(text: &mut Vec<u8>, i: &Insn) -> Result<(), AllocError>
    requires { NamesRegisters i.now }
    ensures { OnOk result (text.new.items ≡ text.old.items ++ operands_text (operands_of i.now.op) i.now) }
{
    push_operands(text, operands_of(i.op), i)
}

/// Appends the text of an instruction, as `Insn::text` gives it.
pub fn push_instruction(text: &mut Vec<u8>, insn: &Insn) -> Result<(), AllocError>
    requires { NamesRegisters insn.now }
    ensures { OnOk result (text.new.items ≡ text.old.items ++ text_of insn.now) }
{
    push_name(text, insn.op)?;
    push_operands_of(text, insn)?;
    Ok(())
}
