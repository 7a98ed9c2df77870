//! Number texts.
ghost use Rattle.std.specs.Prelude.{◌≡◌, ◌<◌, ◌≤◌, ◌^◌, ℕ, Some};
ghost use Rattle.std.specs.Fmt.{decimal};
ghost use Rattle.uh_base.specs.Hex.{hex_digits};
ghost use Rattle.uh_base.specs.Numbers.{digit_value, digits_number, decimal_number, hexadecimal_number, number_of};
ghost use Rattle.uh_base.specs.DigitSteps.{joined, digits_from};

/// What a digit stands for, a letter of either case; 16 where the byte is no digit.
#[tactic(auto, unfolding(crate::specs::Numbers::digit_value))]
fn digit_value(byte: u8) -> u64
    ensures value { result ≡ digit_value byte }
    ensures small { result ≤ 16 }
{
    match byte {
        b'0'..=b'9' => u64::from(byte - b'0'),
        b'a'..=b'f' => u64::from(byte - b'a') + 10,
        b'A'..=b'F' => u64::from(byte - b'A') + 10,
        _ => 16,
    }
}

/// A number with a digit of the base behind it.
fn joined(base: u64, n: u64, byte: u8) -> Option<u64>
    ensures { result ≡ joined base n byte }
{
    let digit = digit_value(byte);
    if digit >= base {
        return None;
    }
    n.checked_mul(base)?.checked_add(digit)
}

/// The number of digits of a base, read one after another.
fn read_digits(base: u64, bytes: &[u8]) -> Option<u64>
    ensures { result ≡ digits_from base (Some 0) bytes.now }
{
    let mut n: u64 = 0;
    for byte in bytes {
        match joined(base, n, *byte) {
            Some(more) => n = more,
            None => return None,
        }
    }
    Some(n)
}

/// The number of digits of a base, where it is below 2^64.
#[tactic(auto, using(crate::proofs::NumberLemmas::digits_are))]
fn digits(base: u64, bytes: &[u8]) -> Option<u64>
    requires { 1 ≤ base }
    ensures { result ≡ digits_number base bytes.now }
{
    read_digits(base, bytes)
}

fn decimal(bytes: &[u8]) -> Option<u64>
    ensures { result ≡ decimal_number bytes.now }
{
    if bytes.is_empty() || bytes.len() > 1 && bytes[0] == b'0' {
        None
    } else {
        digits(10, bytes)
    }
}

/// The number of 1 to 16 hexadecimal digits of either case.
pub fn hexadecimal(bytes: &[u8]) -> Option<u64>
    ensures { result ≡ hexadecimal_number bytes.now }
{
    if bytes.is_empty() || bytes.len() > 16 {
        None
    } else {
        digits(16, bytes)
    }
}

/// The number of decimal digits without a needless leading 0. None exactly elsewhere, and above 2^64 - 1.
pub fn decimal_number(text: &str) -> Option<u64>
    ensures { result ≡ decimal_number text.now }
{
    decimal(text.as_bytes())
}

/// The number of a number text: decimal digits without a needless leading 0, or `0x` and 1 to 16 hexadecimal
/// digits of either case. None exactly elsewhere, and above 2^64 - 1.
#[tactic(auto, unfolding(crate::specs::Numbers::number_of))]
pub fn number(text: &str) -> Option<u64>
    ensures { result ≡ number_of text.now }
{
    let bytes = text.as_bytes();
    if bytes.len() >= 2 && bytes[0] == b'0' && bytes[1] == b'x' {
        hexadecimal(&bytes[2..])
    } else {
        decimal(bytes)
    }
}

/// A law: the decimal text of a number below 2^64 is read as that number.
#[tactic(auto, using(crate::proofs::NumberLemmas::number_of_decimal))]
pub fn decimals_read_back()
    ensures { (n : ℕ) → n < 2 ^ 64 → number_of (decimal n) ≡ Some n }
{}

/// A law: the hexadecimal digits of a number that they hold are read as that number.
#[tactic(auto, using(crate::proofs::NumberLemmas::number_of_hex_digits))]
pub fn hexadecimals_read_back()
    ensures { (count n : ℕ) → 1 ≤ count → count ≤ 16 → n < 16 ^ count → hexadecimal_number (hex_digits count n) ≡ Some n }
{}
