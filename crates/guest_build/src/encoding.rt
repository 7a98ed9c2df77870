//! The bytes of instructions.
ghost use Rattle.std.specs.Prelude.{◌≡◌, ◌<◌, ◌^◌, ◌++◌, OnOk};
ghost use Rattle.guest_build.specs.Faults.{Puts};
ghost use Rattle.guest_build.specs.Views.{places_in};
ghost use Rattle.guest_build.specs.Codes.{offset_of, upper_value, low_value, upper_field, wrapped_distance, high_field, imm_of, word_bytes, with_imm, upper_insn, lower_insn, pair_bytes, li_bytes, is_near, la_bytes, instruction_bytes};

use crate::fault::{AsmKind, Fault};
use crate::instruction::insn;
use crate::labels::Labels;
use crate::little_endian::put;
use crate::number::Number;
use crate::places::Origins;
use crate::statement::Operand;
use rv_decode::{Insn, Op, encode};

/// Where a label stands in the image.
pub fn offset_of(origins: &Origins, labels: &Labels, name: &str) -> Result<u64, AsmKind>
    ensures { result ≡ offset_of origins.now (places_in labels.now name.now) }
{
    match labels.find(name) {
        Some(place) => Ok(origins.at(place.section, place.offset)),
        None => Err(AsmKind::Label),
    }
}

/// What a field of 20 bits stands for.
fn upper_value(field: u64) -> i64
    requires { field < 2 ^ 20 }
    ensures { result ≡ upper_value field }
{
    let n = (field * 4096) as i64;
    if n < 1 << 31 { n } else { n - (1 << 32) }
}

/// A number's low 12 bits with their sign.
fn low_value(n: u64) -> i64
    ensures { result ≡ low_value n }
{
    let low = (n % 4096) as i64;
    if low < 2048 { low } else { low - 4096 }
}

/// The upper 20 bits that go with those low 12.
fn upper_field(n: u64) -> u64
    requires { n < 2 ^ 32 }
    ensures value { result ≡ upper_field n }
    ensures small { result < 2 ^ 20 }
{
    (n + 0x800) / 4096 % (1 << 20)
}

/// From one place to another, modulo 2^64.
fn wrapped_distance(from: u64, to: u64) -> u64
    ensures { result ≡ wrapped_distance from to }
{
    to.wrapping_sub(from)
}

/// The upper 20 bits of a label's address, as the low 12 bits need them, or more bits.
fn high_field(origins: &Origins, offset: u64) -> u64
    ensures { result ≡ high_field origins.now offset }
{
    origins.base / 4096 + offset.wrapping_add(0x800) / 4096
}

/// What an operand makes of the immediate.
#[tactic(auto, unfolding(crate::specs::Codes::imm_of))]
fn imm_of(origins: &Origins, labels: &Labels, here: u64, operand: &Operand) -> Result<i64, AsmKind>
    ensures { result ≡ imm_of origins.now (places_in labels.now) here operand.now }
{
    match operand {
        Operand::Number(n) => if n.size < 1 << 32 {
            Ok(n.value())
        } else {
            Err(AsmKind::Range)
        },
        Operand::Upper(n) => if n.is_between(0, (1 << 20) - 1) {
            Ok(upper_value(n.size))
        } else {
            Err(AsmKind::Range)
        },
        Operand::Distance(name) => {
            let there = offset_of(origins, labels, name.as_str())?;
            Ok(wrapped_distance(here, there).cast_signed())
        }
        Operand::High(name) => {
            let there = offset_of(origins, labels, name.as_str())?;
            let field = high_field(origins, there);
            if field < 1 << 20 {
                Ok(upper_value(field))
            } else {
                Err(AsmKind::Range)
            }
        }
        Operand::Low(name) => {
            let there = offset_of(origins, labels, name.as_str())?;
            Ok(low_value(there))
        }
    }
}

/// An instruction with another immediate.
fn with_imm(insn: Insn, imm: i64) -> Insn
    ensures { result ≡ with_imm insn imm }
{
    Insn {
        op: insn.op,
        rd: insn.rd,
        rs1: insn.rs1,
        rs2: insn.rs2,
        imm,
    }
}

/// Appends an instruction's word, where its immediate fits.
#[tactic(auto, unfolding(crate::specs::Codes::word_bytes))]
fn put_word(out: &mut Vec<u8>, insn: Insn) -> Result<(), Fault>
    ensures { Puts result out.old.items out.new.items (word_bytes insn) }
{
    if !insn.fits() {
        return Err(Fault::Kind(AsmKind::Range));
    }
    put(out, 4, u64::from(encode(insn)))?;
    Ok(())
}

/// Appends an instruction that gives the upper bits of a number.
fn put_upper(out: &mut Vec<u8>, op: Op, rd: u8, n: u64) -> Result<(), Fault>
    requires { n < 2 ^ 32 }
    ensures { Puts result out.old.items out.new.items (word_bytes (upper_insn op rd n)) }
{
    put_word(
        out,
        with_imm(insn(op, rd, 0, 0), upper_value(upper_field(n))),
    )
}

/// Appends an instruction that adds the low 12 bits of a number.
fn put_lower(out: &mut Vec<u8>, op: Op, rd: u8, n: u64) -> Result<(), Fault>
    ensures { Puts result out.old.items out.new.items (word_bytes (lower_insn op rd n)) }
{
    put_word(out, with_imm(insn(op, rd, rd, 0), low_value(n)))
}

/// Appends two instructions, of which the first gives the upper bits and the second adds the low 12.
#[tactic(auto, unfolding(crate::specs::Codes::pair_bytes))]
fn put_pair(out: &mut Vec<u8>, first: Op, second: Op, rd: u8, n: u64) -> Result<(), Fault>
    requires { n < 2 ^ 32 }
    ensures { Puts result out.old.items out.new.items (pair_bytes first second rd n) }
{
    put_upper(out, first, rd, n)?;
    put_lower(out, second, rd, n)
}

/// Appends `li`.
#[tactic(auto, unfolding(crate::specs::Codes::li_bytes))]
pub fn put_li(out: &mut Vec<u8>, rd: u8, n: Number) -> Result<(), Fault>
    ensures { Puts result out.old.items out.new.items (li_bytes rd n) }
{
    if n.is_signed(12) {
        return put_word(out, with_imm(insn(Op::Addi, rd, 0, 0), n.value()));
    }
    if n.is_signed(32) {
        return put_pair(out, Op::Lui, Op::Addiw, rd, n.wrapped() % (1 << 32));
    }
    Err(Fault::Kind(AsmKind::Range))
}

/// Whether AUIPC and ADDI reach so far.
fn is_near(distance: u64) -> bool
    ensures { result ≡ is_near distance }
{
    distance.wrapping_add((1 << 31) + 2048) < 1 << 32
}

/// Appends `la`.
#[tactic(auto, unfolding(crate::specs::Codes::la_bytes))]
pub fn put_la(out: &mut Vec<u8>, rd: u8, from: u64, to: u64) -> Result<(), Fault>
    ensures { Puts result out.old.items out.new.items (la_bytes rd from to) }
{
    let distance = wrapped_distance(from, to);
    if is_near(distance) {
        return put_pair(out, Op::Auipc, Op::Addi, rd, distance % (1 << 32));
    }
    Err(Fault::Kind(AsmKind::Range))
}

/// Appends an instruction.
pub fn put_instruction(
    out: &mut Vec<u8>,
    origins: &Origins,
    labels: &Labels,
    here: u64,
    insn: Insn,
    operand: &Operand,
) -> Result<(), Fault>
    ensures { Puts result out.old.items out.new.items (instruction_bytes origins.now (places_in labels.now) here insn operand.now) }
{
    let imm = imm_of(origins, labels, here, operand)?;
    put_word(out, with_imm(insn, imm))
}
