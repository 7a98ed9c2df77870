//! Instruction words from instructions.
#![tactic(auto)]

ghost use Rattle.std.specs.Prelude.{◌≡◌, ◌<◌, ◌^◌, ◌/◌, ◌%◌, ◌*◌, IsTrue, Some, length, slice_get};
ghost use Rattle.std.specs.Int.{cast_unsigned, w64};
ghost use Rattle.rv_decode.specs.Encoded.{encoded};
ghost use Rattle.rv_decode.specs.Fields.{field};
ghost use Rattle.rv_decode.specs.Fits.{fits, FitsExactly};
ghost use Rattle.rv_decode.specs.Means.{decoded};
ghost use Rattle.rv_decode.specs.Names.{place_of};
ghost use Rattle.rv_decode.specs.Packed.{pack_i, pack_u, pack_j, pack_b, pack_s, pack_shift, pack_shift_w, pack_r, packed};
ghost use Rattle.rv_decode.specs.declared.table.TheConstants.{ROWS};

use crate::insn::{Insn, Op};
use crate::table::{Format, ROWS, Row};

/// The `count` bits of an immediate from bit `low` on.
fn bits(imm: i64, low: u32, count: u32) -> u32
    requires low { low < 64 }
    requires count { count < 32 }
    ensures value { result ≡ field (cast_unsigned w64 imm) low count }
    ensures below { result < 2 ^ count }
{
    ((imm.cast_unsigned() >> low) % (1 << count)) as u32
}

fn rd_bits(insn: Insn) -> u32
    ensures { result ≡ insn.rd * 2 ^ 7 }
{
    u32::from(insn.rd) << 7
}

fn rs1_bits(insn: Insn) -> u32
    ensures { result ≡ insn.rs1 * 2 ^ 15 }
{
    u32::from(insn.rs1) << 15
}

fn rs2_bits(insn: Insn) -> u32
    ensures { result ≡ insn.rs2 * 2 ^ 20 }
{
    u32::from(insn.rs2) << 20
}

fn i_word(value: u32, insn: Insn) -> u32
    ensures { result ≡ pack_i value insn }
{
    value
        .wrapping_add(rd_bits(insn))
        .wrapping_add(rs1_bits(insn))
        .wrapping_add(bits(insn.imm, 0, 12) << 20)
}

fn s_word(value: u32, insn: Insn) -> u32
    ensures { result ≡ pack_s value insn }
{
    value
        .wrapping_add(rs1_bits(insn))
        .wrapping_add(rs2_bits(insn))
        .wrapping_add(bits(insn.imm, 5, 7) << 25)
        .wrapping_add(bits(insn.imm, 0, 5) << 7)
}

fn b_word(value: u32, insn: Insn) -> u32
    ensures { result ≡ pack_b value insn }
{
    value
        .wrapping_add(rs1_bits(insn))
        .wrapping_add(rs2_bits(insn))
        .wrapping_add(bits(insn.imm, 12, 1) << 31)
        .wrapping_add(bits(insn.imm, 11, 1) << 7)
        .wrapping_add(bits(insn.imm, 5, 6) << 25)
        .wrapping_add(bits(insn.imm, 1, 4) << 8)
}

fn u_word(value: u32, insn: Insn) -> u32
    ensures { result ≡ pack_u value insn }
{
    value
        .wrapping_add(rd_bits(insn))
        .wrapping_add(bits(insn.imm, 12, 20) << 12)
}

fn j_word(value: u32, insn: Insn) -> u32
    ensures { result ≡ pack_j value insn }
{
    value
        .wrapping_add(rd_bits(insn))
        .wrapping_add(bits(insn.imm, 20, 1) << 31)
        .wrapping_add(bits(insn.imm, 12, 8) << 12)
        .wrapping_add(bits(insn.imm, 11, 1) << 20)
        .wrapping_add(bits(insn.imm, 1, 10) << 21)
}

fn shift_word(value: u32, insn: Insn) -> u32
    ensures { result ≡ pack_shift value insn }
{
    value
        .wrapping_add(rd_bits(insn))
        .wrapping_add(rs1_bits(insn))
        .wrapping_add(bits(insn.imm, 0, 6) << 20)
}

fn shift_w_word(value: u32, insn: Insn) -> u32
    ensures { result ≡ pack_shift_w value insn }
{
    value
        .wrapping_add(rd_bits(insn))
        .wrapping_add(rs1_bits(insn))
        .wrapping_add(bits(insn.imm, 0, 5) << 20)
}

fn r_word(value: u32, insn: Insn) -> u32
    ensures { result ≡ pack_r value insn }
{
    value
        .wrapping_add(rd_bits(insn))
        .wrapping_add(rs1_bits(insn))
        .wrapping_add(rs2_bits(insn))
}

/// The word of the format with this value of its mask's bits and the fields of the instruction.
fn pack(format: Format, value: u32, insn: Insn) -> u32
    ensures { result ≡ packed format value insn }
{
    match format {
        Format::R => r_word(value, insn),
        Format::I | Format::IOffset => i_word(value, insn),
        Format::IShift => shift_word(value, insn),
        Format::IShiftWord => shift_w_word(value, insn),
        Format::S => s_word(value, insn),
        Format::B => b_word(value, insn),
        Format::U => u_word(value, insn),
        Format::J => j_word(value, insn),
        Format::Fence => 0x0ff0_000f,
        _ => value,
    }
}

/// The place of a name's row of 32 bits.
fn place(op: Op) -> usize
    ensures place { result ≡ place_of op }
    ensures below { result < 65 }
{
    op as usize
}

fn row_at(rows: &[Row], place: usize) -> Row
    requires { place < length rows.now }
    ensures { slice_get rows.now place ≡ Some result }
{
    rows[place]
}

/// A name's row of 32 bits.
pub(crate) fn row_of_name(op: Op) -> Row
    ensures { slice_get ROWS (place_of op) ≡ Some result }
{
    row_at(&ROWS, place(op))
}

/// The word of an instruction, which decodes to it. The word of FENCE is that of `fence iorw, iorw`. (RISC-V
/// unprivileged manual, version 20191213, 2.7)
pub fn encode(insn: Insn) -> u32
    requires { IsTrue (fits insn) }
    ensures word { result ≡ encoded insn }
    ensures means { decoded (result % 2 ^ 16) (result / 2 ^ 16) ≡ Some (insn, 4) }
{
    let row = row_of_name(insn.op);
    pack(row.format, row.value, insn)
}

/// An instruction fits exactly where some word of 32 bits means it.
pub fn fits_exactly()
    ensures { FitsExactly }
{}
