//! Hexadecimal text.
#![tactic(auto)]

ghost use Rattle.std.specs.Prelude.{◌≡◌, ◌<◌, ◌++◌, ℕ, IfOk, OnOk, string_bytes};
ghost use Rattle.std.specs.Str.{IsUtf8};
ghost use Rattle.uh_base.specs.Hex.{hex_digits, hex_digit};

use std::alloc::{AllocError, Global};

fn digit(n: u8) -> u8
    requires { n < 16 }
    ensures { result ≡ hex_digit n }
{
    if n < 10 { n + b'0' } else { n - 10 + b'a' }
}

/// Appends so many hexadecimal digits of a number in lower case, the most significant first.
#[tactic(auto, unfolding(crate::specs::Hex::hex_digits))]
pub fn push_hex(text: &mut Vec<u8>, count: u8, n: u64) -> Result<(), AllocError>
    ensures { OnOk result (text.new.items ≡ text.old.items ++ hex_digits count n) }
{
    if count > 0 {
        push_hex(text, count - 1, n / 16)?;
        text.push(digit((n % 16) as u8))?;
    }
    Ok(())
}

/// So many hexadecimal digits of a number in lower case, the most significant first.
pub fn hex_text(alloc: Global, count: u8, n: u64) -> Result<String, AllocError>
    ensures { IfOk result (λ text. string_bytes text ≡ hex_digits count n) }
{
    let mut digits = Vec::new(alloc);
    push_hex(&mut digits, count, n)?;
    match String::from_utf8(digits) {
        Ok(text) => Ok(text),
        Err(_) => unreachable!(),
    }
}

/// A law: hexadecimal digits are text.
#[tactic(auto, using(crate::proofs::HexLemmas::hex_is_text))]
pub fn hexadecimals_are_text()
    ensures { (count n : ℕ) → IsUtf8 (hex_digits count n) }
{}
