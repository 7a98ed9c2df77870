//! The assembly text of an instruction.
#![tactic(auto)]

ghost use Rattle.std.specs.Prelude.{◌≡◌, ◌<◌, ◌++◌, IfOk, IsTrue, string_bytes};
ghost use Rattle.rv_decode.specs.Fits.{fits};
ghost use Rattle.rv_decode.specs.Means.{NamesRegisters};
ghost use Rattle.rv_decode.specs.Texts.{based, name_of, of_distance, of_place, of_number, of_offset, of_registers, of_upper, register_name, text_in, text_of, upper_field};

use crate::encoder::row_of_name;
use crate::insn::{Insn, Op};
use crate::table::Format;
use std::alloc::{AllocError, Global};

/// The name of a register. (RISC-V unprivileged manual, version 20191213, table 25.1)
#[tactic(auto, unfolding(crate::specs::Texts::register_name, crate::specs::Texts::register_names))]
fn register_name(n: u8) -> &'static str
    requires { n < 32 }
    ensures { result.now ≡ register_name n }
{
    match n {
        0 => "zero",
        1 => "ra",
        2 => "sp",
        3 => "gp",
        4 => "tp",
        5 => "t0",
        6 => "t1",
        7 => "t2",
        8 => "s0",
        9 => "s1",
        10 => "a0",
        11 => "a1",
        12 => "a2",
        13 => "a3",
        14 => "a4",
        15 => "a5",
        16 => "a6",
        17 => "a7",
        18 => "s2",
        19 => "s3",
        20 => "s4",
        21 => "s5",
        22 => "s6",
        23 => "s7",
        24 => "s8",
        25 => "s9",
        26 => "s10",
        27 => "s11",
        28 => "t3",
        29 => "t4",
        30 => "t5",
        _ => "t6",
    }
}

#[tactic(auto, unfolding(crate::specs::Texts::name_of))]
fn name(op: Op) -> &'static str
    ensures { result.now ≡ name_of op }
{
    match op {
        Op::Lui => "lui",
        Op::Auipc => "auipc",
        Op::Jal => "jal",
        Op::Jalr => "jalr",
        Op::Beq => "beq",
        Op::Bne => "bne",
        Op::Blt => "blt",
        Op::Bge => "bge",
        Op::Bltu => "bltu",
        Op::Bgeu => "bgeu",
        Op::Lb => "lb",
        Op::Lh => "lh",
        Op::Lw => "lw",
        Op::Ld => "ld",
        Op::Lbu => "lbu",
        Op::Lhu => "lhu",
        Op::Lwu => "lwu",
        Op::Sb => "sb",
        Op::Sh => "sh",
        Op::Sw => "sw",
        Op::Sd => "sd",
        Op::Addi => "addi",
        Op::Slli => "slli",
        Op::Slti => "slti",
        Op::Sltiu => "sltiu",
        Op::Xori => "xori",
        Op::Srli => "srli",
        Op::Srai => "srai",
        Op::Ori => "ori",
        Op::Andi => "andi",
        Op::Addiw => "addiw",
        Op::Slliw => "slliw",
        Op::Srliw => "srliw",
        Op::Sraiw => "sraiw",
        Op::Add => "add",
        Op::Sub => "sub",
        Op::Mul => "mul",
        Op::Sll => "sll",
        Op::Mulh => "mulh",
        Op::Slt => "slt",
        Op::Mulhsu => "mulhsu",
        Op::Sltu => "sltu",
        Op::Mulhu => "mulhu",
        Op::Xor => "xor",
        Op::Div => "div",
        Op::Srl => "srl",
        Op::Sra => "sra",
        Op::Divu => "divu",
        Op::Or => "or",
        Op::Rem => "rem",
        Op::And => "and",
        Op::Remu => "remu",
        Op::Addw => "addw",
        Op::Subw => "subw",
        Op::Mulw => "mulw",
        Op::Sllw => "sllw",
        Op::Divw => "divw",
        Op::Srlw => "srlw",
        Op::Sraw => "sraw",
        Op::Divuw => "divuw",
        Op::Remw => "remw",
        Op::Remuw => "remuw",
        Op::Fence => "fence",
        Op::Ecall => "ecall",
        Op::Ebreak => "ebreak",
    }
}

fn upper_field(i: &Insn) -> u64
    ensures { result ≡ upper_field i.now }
{
    i.imm.cast_unsigned() / (1 << 12) % (1 << 20)
}

fn of_registers(alloc: Global, name: &str, a: &str, b: &str, c: &str) -> Result<String, AllocError>
    ensures { IfOk result (λ s. string_bytes s ≡ of_registers name.now a.now b.now c.now) }
{
    format!(in alloc; "{} {}, {}, {}", name, a, b, c)
}

fn of_number(alloc: Global, name: &str, a: &str, b: &str, n: i64) -> Result<String, AllocError>
    ensures { IfOk result (λ s. string_bytes s ≡ of_number name.now a.now b.now n) }
{
    format!(in alloc; "{} {}, {}, {}", name, a, b, n)
}

/// An offset and its base in parentheses.
fn based(alloc: Global, offset: i64, base: &str) -> Result<String, AllocError>
    ensures { IfOk result (λ s. string_bytes s ≡ based offset base.now) }
{
    let mut text = format!(in alloc; "{}({}", offset, base)?;
    text.push(')')?;
    Ok(text)
}

fn of_place(alloc: Global, name: &str, a: &str, place: &str) -> Result<String, AllocError>
    ensures { IfOk result (λ s. string_bytes s ≡ of_place name.now a.now place.now) }
{
    format!(in alloc; "{} {}, {}", name, a, place)
}

fn of_offset(
    alloc: Global,
    name: &str,
    a: &str,
    offset: i64,
    base: &str,
) -> Result<String, AllocError>
    ensures { IfOk result (λ s. string_bytes s ≡ of_offset name.now a.now offset base.now) }
{
    let place = based(alloc, offset, base)?;
    of_place(alloc, name, a, place.as_str())
}

fn of_distance(alloc: Global, name: &str, a: &str, n: i64) -> Result<String, AllocError>
    ensures { IfOk result (λ s. string_bytes s ≡ of_distance name.now a.now n) }
{
    format!(in alloc; "{} {}, {}", name, a, n)
}

fn of_upper(alloc: Global, name: &str, a: &str, n: u64) -> Result<String, AllocError>
    ensures { IfOk result (λ s. string_bytes s ≡ of_upper name.now a.now n) }
{
    format!(in alloc; "{} {}, {}", name, a, n)
}

/// The name and the operands in a format.
#[tactic(auto, unfolding(crate::specs::Texts::text_in))]
fn text_in(alloc: Global, format: Format, name: &str, i: &Insn) -> Result<String, AllocError>
    requires { NamesRegisters i.now }
    ensures { IfOk result (λ s. string_bytes s ≡ text_in format name.now i.now) }
{
    let rd = register_name(i.rd);
    let rs1 = register_name(i.rs1);
    let rs2 = register_name(i.rs2);
    match format {
        Format::R => of_registers(alloc, name, rd, rs1, rs2),
        Format::I | Format::IShift | Format::IShiftWord => of_number(alloc, name, rd, rs1, i.imm),
        Format::IOffset => of_offset(alloc, name, rd, i.imm, rs1),
        Format::S => of_offset(alloc, name, rs2, i.imm, rs1),
        Format::B => of_number(alloc, name, rs1, rs2, i.imm),
        Format::U => of_upper(alloc, name, rd, upper_field(i)),
        Format::J => of_distance(alloc, name, rd, i.imm),
        _ => String::from_str(alloc, name),
    }
}

impl Insn {
    /// The assembly text: the name in lower case, a space, and the operands with `, ` between. Numbers are decimal;
    /// `lui` and `auipc` show their field of 20 bits, branches and `jal` their distance in bytes.
    #[tactic(auto, unfolding(crate::specs::Texts::text_of))]
    pub fn text(&self, alloc: Global) -> Result<String, AllocError>
        requires { IsTrue (fits self.now) }
        ensures { IfOk result (λ s. string_bytes s ≡ text_of self.now) }
    {
        let row = row_of_name(self.op);
        text_in(alloc, row.format, name(self.op), self)
    }
}
