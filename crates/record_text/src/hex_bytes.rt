//! Bytes in text: two hexadecimal digits in lower case for each.
ghost use Rattle.std.specs.Prelude.{◌≡◌, IfOk, length, string_bytes};
ghost use Rattle.record_text.specs.HexBytes.{bytes_text, byte_of, bytes_of};

use crate::console::{digit, is_digit};
use std::alloc::{AllocError, Global};
use uh_base::{Bytes, hex_text};

/// The text of bytes.
pub(crate) fn bytes_text(alloc: Global, bytes: &[u8]) -> Result<String, AllocError>
    ensures { IfOk result (λ text. string_bytes text ≡ bytes_text bytes.now) }
{
    let mut text = String::new(alloc);
    for byte in bytes {
        let digits = hex_text(alloc, 2, u64::from(*byte))?;
        text.push_str(digits.as_str())?;
    }
    Ok(text)
}

/// The byte of two digits.
fn byte_of(high: u8, low: u8) -> Option<u8>
    ensures { result ≡ byte_of high low }
{
    if is_digit(high) && is_digit(low) {
        Some((digit(high) * 16 + digit(low)) as u8)
    } else {
        None
    }
}

/// The bytes of a text; None exactly where it isn't two hexadecimal digits in lower case for each of some bytes.
#[tactic(auto, unfolding(crate::specs::HexBytes::bytes_of))]
pub fn bytes_of(alloc: Global, text: &str) -> Result<Option<Bytes>, AllocError>
    ensures { IfOk result (λ bytes. bytes ≡ bytes_of text.now) }
{
    let digits = text.as_bytes();
    let mut bytes = Vec::new(alloc);
    let mut at = 0;
    while at + 1 < digits.len() {
        match byte_of(digits[at], digits[at + 1]) {
            Some(byte) => bytes.push(byte)?,
            None => return Ok(None),
        }
        at += 2;
    }
    if at < digits.len() {
        return Ok(None);
    }
    Ok(Some(Bytes::from_vec(bytes)))
}
