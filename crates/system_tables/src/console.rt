//! The text of 16-bit units that a guest prints.
#![tactic(auto)]

ghost use Rattle.std.specs.Prelude.{◌≡◌, ◌++◌, ◌||◌, IfOk, OnOk, string_bytes};
ghost use Rattle.std.specs.List.{list_any};
ghost use Rattle.uh_base.specs.ConsoleText.{is_surrogate, unit_text, units_text};

use std::alloc::{AllocError, Global};
use uh_base::push_hex;

/// Whether a unit is one half of a pair, which has no text of its own.
fn is_surrogate(unit: u16) -> bool
    ensures { result ≡ is_surrogate unit }
{
    (0xd800..=0xdfff).contains(&unit)
}

/// Appends the text of one unit.
#[tactic(auto, unfolding(uh_base::specs::ConsoleText::unit_text), using(std::proofs::lemmas::List::append_assoc))]
fn push_unit(text: &mut Vec<u8>, unit: u16) -> Result<(), AllocError>
    ensures { OnOk result (text.new.items ≡ text.old.items ++ unit_text unit) }
{
    match unit {
        0x5c => text.extend_from_slice(b"\\\\"),
        0x20..=0x7e => Ok(text.push(unit as u8)?),
        0xd800..=0xdfff => Ok(()),
        _ => {
            text.extend_from_slice(b"\\u")?;
            push_hex(text, 4, u64::from(unit))
        }
    }
}

/// The text of 16-bit units, and whether some unit has none: UEFI 2.10, 12.4 (OutputString). Units 0x20 to
/// 0x7E stand for themselves, a backslash is written twice, a half of a surrogate pair is skipped, and any
/// other unit is `\u` and four hexadecimal digits in lower case.
pub fn console_text(alloc: Global, units: &[u16]) -> Result<(String, bool), AllocError>
    ensures text { IfOk result (λ r. string_bytes r.0 ≡ units_text units.now) }
    ensures skipped { IfOk result (λ r. r.1 ≡ list_any is_surrogate units.now) }
{
    let mut text = Vec::new(alloc);
    let mut skipped = false;
    for unit in units {
        push_unit(&mut text, *unit)?;
        skipped |= is_surrogate(*unit);
    }
    match String::from_utf8(text) {
        Ok(text) => Ok((text, skipped)),
        Err(_) => unreachable!(),
    }
}
