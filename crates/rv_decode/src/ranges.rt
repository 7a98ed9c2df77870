//! Which instructions have a word of 32 bits.
#![tactic(auto)]

ghost use Rattle.std.specs.Prelude.{◌≡◌, ◌<◌, ◌≤◌};
ghost use Rattle.rv_decode.specs.Fits.{fits, in_range, is_signed, is_shift, is_multiple};

use crate::encoder::row_of_name;
use crate::insn::Insn;
use crate::table::Format;

/// Whether so many bits hold the number, with its sign.
fn is_signed(bits: u32, z: i64) -> bool
    requires bits { 0 < bits }
    requires few { bits ≤ 32 }
    ensures { result ≡ is_signed bits z }
{
    let half = 1_i64 << (bits - 1);
    -half <= z && z < half
}

fn is_shift(bits: u32, z: i64) -> bool
    ensures { result ≡ is_shift bits z }
{
    0 <= z && z < i64::from(bits)
}

fn is_multiple(n: u64, z: i64) -> bool
    requires { 0 < n }
    ensures { result ≡ is_multiple n z }
{
    z.unsigned_abs() % n == 0
}

/// Whether the fields of the format are in their ranges, and the others are 0.
fn in_range(format: Format, i: Insn) -> bool
    ensures { result ≡ in_range format i }
{
    let rd = i.rd < 32;
    let rs1 = i.rs1 < 32;
    let rs2 = i.rs2 < 32;
    match format {
        Format::R => rd && rs1 && rs2 && i.imm == 0,
        Format::I | Format::IOffset => rd && rs1 && i.rs2 == 0 && is_signed(12, i.imm),
        Format::IShift => rd && rs1 && i.rs2 == 0 && is_shift(64, i.imm),
        Format::IShiftWord => rd && rs1 && i.rs2 == 0 && is_shift(32, i.imm),
        Format::S => i.rd == 0 && rs1 && rs2 && is_signed(12, i.imm),
        Format::B => i.rd == 0 && rs1 && rs2 && is_signed(13, i.imm) && is_multiple(2, i.imm),
        Format::U => {
            rd && i.rs1 == 0 && i.rs2 == 0 && is_signed(32, i.imm) && is_multiple(4096, i.imm)
        }
        Format::J => {
            rd && i.rs1 == 0 && i.rs2 == 0 && is_signed(21, i.imm) && is_multiple(2, i.imm)
        }
        Format::Fence | Format::Whole => i.rd == 0 && i.rs1 == 0 && i.rs2 == 0 && i.imm == 0,
        _ => false,
    }
}

impl Insn {
    /// Whether the instruction has a word of 32 bits: the fields of its format are in their ranges, and the others
    /// are 0.
    pub fn fits(&self) -> bool
        ensures { result ≡ fits self.now }
    {
        let row = row_of_name(self.op);
        in_range(row.format, *self)
    }
}
