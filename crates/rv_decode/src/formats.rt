//! The instruction of a word in each format.
#![tactic(auto)]

ghost use Rattle.std.specs.Prelude.{◌≡◌, ◌<◌};
ghost use Rattle.rv_decode.specs.Formats.{reads_of};
ghost use Rattle.rv_decode.specs.Means.{NamesRegisters};

use crate::fields::{register, short_register};
use crate::immediates::{
    imm_addi4spn, imm_addi16sp, imm_b, imm_ci, imm_i, imm_j, imm_lui, imm_s, imm_u, offset_b,
    offset_j, offset_ld, offset_ldsp, offset_lw, offset_lwsp, offset_sdsp, offset_swsp, shamt,
    shamt_ci, shamt_word,
};
use crate::insn::{Insn, Op};
use crate::table::Format;

#[inline(always)]
fn insn(op: Op, rd: u8, rs1: u8, rs2: u8, imm: i64) -> Insn
    ensures { result ≡ record { op = op; rd = rd; rs1 = rs1; rs2 = rs2; imm = imm } }
{
    Insn {
        op,
        rd,
        rs1,
        rs2,
        imm,
    }
}

/// The instruction that a word is in a format.
#[inline(always)]
pub(crate) fn read(format: Format, op: Op, word: u32) -> Insn
    ensures reads { result ≡ reads_of format op word }
    ensures registers { NamesRegisters result }
{
    let rd = register(word, 7);
    let rs1 = register(word, 15);
    let rs2 = register(word, 20);
    let rs2_half = register(word, 2);
    let rd_short = short_register(word, 2);
    let rs1_short = short_register(word, 7);
    match format {
        Format::R => insn(op, rd, rs1, rs2, 0),
        Format::I | Format::IOffset => insn(op, rd, rs1, 0, imm_i(word)),
        Format::IShift => insn(op, rd, rs1, 0, shamt(word)),
        Format::IShiftWord => insn(op, rd, rs1, 0, shamt_word(word)),
        Format::S => insn(op, 0, rs1, rs2, imm_s(word)),
        Format::B => insn(op, 0, rs1, rs2, imm_b(word)),
        Format::U => insn(op, rd, 0, 0, imm_u(word)),
        Format::J => insn(op, rd, 0, 0, imm_j(word)),
        Format::Fence | Format::Whole => insn(op, 0, 0, 0, 0),
        Format::Ciw => insn(op, rd_short, 2, 0, imm_addi4spn(word)),
        Format::ClLw => insn(op, rd_short, rs1_short, 0, offset_lw(word)),
        Format::ClLd => insn(op, rd_short, rs1_short, 0, offset_ld(word)),
        Format::CsSw => insn(op, 0, rs1_short, rd_short, offset_lw(word)),
        Format::CsSd => insn(op, 0, rs1_short, rd_short, offset_ld(word)),
        Format::Ci => insn(op, rd, rd, 0, imm_ci(word)),
        Format::CiLi => insn(op, rd, 0, 0, imm_ci(word)),
        Format::CiSp => insn(op, 2, 2, 0, imm_addi16sp(word)),
        Format::CiLui => insn(op, rd, 0, 0, imm_lui(word)),
        Format::CiSlli => insn(op, rd, rd, 0, shamt_ci(word)),
        Format::CiLwsp => insn(op, rd, 2, 0, offset_lwsp(word)),
        Format::CiLdsp => insn(op, rd, 2, 0, offset_ldsp(word)),
        Format::CssSwsp => insn(op, 0, 2, rs2_half, offset_swsp(word)),
        Format::CssSdsp => insn(op, 0, 2, rs2_half, offset_sdsp(word)),
        Format::CbShift => insn(op, rs1_short, rs1_short, 0, shamt_ci(word)),
        Format::CbAndi => insn(op, rs1_short, rs1_short, 0, imm_ci(word)),
        Format::Cb => insn(op, 0, rs1_short, 0, offset_b(word)),
        Format::Ca => insn(op, rs1_short, rs1_short, rd_short, 0),
        Format::Cj => insn(op, 0, 0, 0, offset_j(word)),
        Format::CrJr => insn(op, 0, rd, 0, 0),
        Format::CrJalr => insn(op, 1, rd, 0, 0),
        Format::CrMv => insn(op, rd, 0, rs2_half, 0),
        Format::CrAdd => insn(op, rd, rd, rs2_half, 0),
    }
}
