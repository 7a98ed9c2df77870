//! The bytes of statements.
ghost use Rattle.std.specs.Prelude.{◌≡◌, ◌++◌, OnOk, Ok, Err, if◌then◌else◌};
ghost use Rattle.uh_base.specs.declared.fault.Fault.TheVariants.{Kind};
ghost use Rattle.guest_build.specs.declared.fault.AsmKind.TheVariants.{Range};
ghost use Rattle.guest_build.specs.Faults.{Puts};
ghost use Rattle.guest_build.specs.Views.{places_in};
ghost use Rattle.guest_build.specs.Codes.{units, number_bytes, zero_bytes, address_bytes, address_loaded, bytes_at};
ghost use Rattle.std.specs.List.{flat_map};
ghost use Rattle.uh_base.specs.LittleEndian.{low_bytes};

use crate::encoding::{offset_of, put_instruction, put_la, put_li};
use crate::fault::{AsmKind, Fault};
use crate::labels::Labels;
use crate::little_endian::{put, put_zeros};
use crate::number::Number;
use crate::places::{Origins, is_alignment, is_base, is_subsystem};
use crate::statement::Statement;
use std::alloc::AllocError;

/// Nothing, where a setting is in its range.
fn allowed(good: bool) -> Result<(), Fault>
    ensures { result ≡ (if good then Ok tt else Err (Kind Range)) }
{
    if good {
        Ok(())
    } else {
        Err(Fault::Kind(AsmKind::Range))
    }
}

/// A number of so many bytes.
#[tactic(auto, unfolding(crate::specs::Codes::number_bytes))]
fn put_number(out: &mut Vec<u8>, width: u8, n: Number) -> Result<(), Fault>
    ensures { Puts result out.old.items out.new.items (number_bytes width n) }
{
    if width == 0 || width > 8 || !n.is_data(8 * u32::from(width)) {
        return Err(Fault::Kind(AsmKind::Range));
    }
    put(out, width, n.wrapped())?;
    Ok(())
}

/// The address of a label.
fn put_address(
    out: &mut Vec<u8>,
    origins: &Origins,
    labels: &Labels,
    name: &str,
) -> Result<(), Fault>
    ensures { Puts result out.old.items out.new.items (address_bytes origins.now (places_in labels.now name.now)) }
{
    let there = offset_of(origins, labels, name)?;
    put(out, 8, origins.base.wrapping_add(there))?;
    Ok(())
}

/// So many zeros.
#[tactic(auto, unfolding(crate::specs::Codes::zero_bytes))]
fn put_zero(out: &mut Vec<u8>, n: Number) -> Result<(), Fault>
    ensures { Puts result out.old.items out.new.items (zero_bytes n) }
{
    if !n.is_between(0, 1 << 20) {
        return Err(Fault::Kind(AsmKind::Range));
    }
    put_zeros(out, n.size)?;
    Ok(())
}

/// The bytes of a text as units of 16 bits.
fn put_units(out: &mut Vec<u8>, text: &[u8]) -> Result<(), AllocError>
    ensures { OnOk result (out.new.items ≡ out.old.items ++ flat_map (λ b. low_bytes 2 b) text.now) }
{
    for byte in text {
        put(out, 2, u64::from(*byte))?;
    }
    Ok(())
}

/// A text in units of 16 bits, with a final 0.
fn put_text(out: &mut Vec<u8>, text: &[u8]) -> Result<(), AllocError>
    ensures { OnOk result (out.new.items ≡ out.old.items ++ units text.now) }
{
    put_units(out, text)?;
    put(out, 2, 0)
}

/// `la`.
fn put_loaded(
    out: &mut Vec<u8>,
    origins: &Origins,
    labels: &Labels,
    rd: u8,
    here: u64,
    name: &str,
) -> Result<(), Fault>
    ensures { Puts result out.old.items out.new.items (address_loaded origins.now rd here (places_in labels.now name.now)) }
{
    let there = offset_of(origins, labels, name)?;
    put_la(out, rd, here, there)
}

/// Appends the bytes of a statement at an offset in the image.
#[tactic(auto, unfolding(crate::specs::Codes::bytes_at))]
pub fn put_statement(
    out: &mut Vec<u8>,
    origins: &Origins,
    labels: &Labels,
    here: u64,
    statement: &Statement,
) -> Result<(), Fault>
    ensures { Puts result out.old.items out.new.items (bytes_at origins.now (places_in labels.now) here statement.now) }
{
    match statement {
        Statement::Empty | Statement::Text | Statement::Data => Ok(()),
        Statement::Fault(kind) => Err(Fault::Kind(*kind)),
        Statement::Base(n) => allowed(is_base(*n)),
        Statement::Subsystem(n) => allowed(is_subsystem(*n)),
        Statement::Alignment(n) => allowed(is_alignment(*n)),
        Statement::Number { width, value } => put_number(out, *width, *value),
        Statement::Address(name) => put_address(out, origins, labels, name.as_str()),
        Statement::Zero(n) => put_zero(out, *n),
        Statement::Ascii16(text) => Ok(put_text(out, text.as_str().as_bytes())?),
        Statement::Guid(id) => Ok(out.extend_from_slice(&id.to_bytes())?),
        Statement::Instruction { insn, operand } => {
            put_instruction(out, origins, labels, here, *insn, operand)
        }
        Statement::LoadImmediate { rd, value } => put_li(out, *rd, *value),
        Statement::LoadAddress { rd, label } => {
            put_loaded(out, origins, labels, *rd, here, label.as_str())
        }
    }
}
