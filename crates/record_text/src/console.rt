//! Console text, read back.
ghost use Rattle.std.specs.Prelude.{◌≡◌, ◌==◌, ◌<◌, ◌≤◌, ◌^◌, ◌↔◌, IsTrue, length};
ghost use Rattle.uh_base.specs.ConsoleText.{IsConsoleText, is_printable, is_surrogate};
ghost use Rattle.record_text.specs.Console.{is_digit, digit, are_digits, unit_in, is_escape, unit_len, behind_unit, behind_units};
ghost use Rattle.std.specs.Option.{option_copied};

/// A unit that stands for itself, or the backslash.
fn is_printable(unit: u32) -> bool
    ensures { result ≡ is_printable unit }
{
    unit >= 0x20 && unit <= 0x7e
}

fn is_surrogate(unit: u32) -> bool
    ensures { result ≡ is_surrogate unit }
{
    unit >= 0xd800 && unit <= 0xdfff
}

/// A hexadecimal digit in lower case.
pub(crate) fn is_digit(byte: u8) -> bool
    ensures { result ≡ is_digit byte }
{
    byte >= b'0' && byte <= b'9' || byte >= b'a' && byte <= b'f'
}

/// What a lower-case hexadecimal digit stands for.
#[tactic(auto, unfolding(crate::specs::Console::digit))]
pub(crate) fn digit(byte: u8) -> u32
    requires { IsTrue (is_digit byte) }
    ensures value { result ≡ digit byte }
    ensures small { result < 16 }
{
    if byte <= b'9' {
        u32::from(byte - b'0')
    } else {
        u32::from(byte - b'a') + 10
    }
}

#[tactic(auto, unfolding(crate::specs::Console::are_digits))]
fn are_digits(text: &[u8]) -> bool
    requires { 6 ≤ length text.now }
    ensures { result ≡ are_digits text.now }
{
    is_digit(text[2]) && is_digit(text[3]) && is_digit(text[4]) && is_digit(text[5])
}

/// The unit of the four digits behind `\u`.
#[tactic(auto, unfolding(crate::specs::Console::are_digits, crate::specs::Console::unit_in))]
fn unit_in(text: &[u8]) -> u32
    requires long { 6 ≤ length text.now }
    requires digits { IsTrue (are_digits text.now) }
    ensures { result ≡ unit_in text.now }
{
    let high = digit(text[2]) * 16 + digit(text[3]);
    let low = digit(text[4]) * 16 + digit(text[5]);
    high * 256 + low
}

/// Whether `\u` and four digits of a unit that has no other text stand in front, but for the backslash.
#[tactic(auto, unfolding(crate::specs::Console::is_escape))]
fn is_escape(text: &[u8]) -> bool
    ensures { result ≡ is_escape text.now }
{
    if text.len() < 6 || text[1] != b'u' || !are_digits(text) {
        return false;
    }
    let unit = unit_in(text);
    !is_printable(unit) && !is_surrogate(unit)
}

/// How many bytes the text of the first unit has; 0 where none begins.
#[tactic(auto, unfolding(crate::specs::Console::unit_len, crate::specs::Console::is_escape))]
fn unit_len(text: &[u8]) -> usize
    ensures value { result ≡ unit_len text.now }
    ensures within { result ≤ length text.now }
{
    if text.is_empty() || !is_printable(u32::from(text[0])) {
        0
    } else if text[0] != b'\\' {
        1
    } else if text.len() >= 2 && text[1] == b'\\' {
        2
    } else if is_escape(text) {
        6
    } else {
        0
    }
}

/// What stands behind the text of the first unit; None where none begins.
#[tactic(auto, unfolding(crate::specs::Console::behind_unit))]
fn behind_unit(text: &[u8]) -> Option<&[u8]>
    ensures { option_copied result ≡ behind_unit text.now }
{
    let len = unit_len(text);
    if len == 0 { None } else { Some(&text[len..]) }
}

/// Whether a text is that of at most 4,096 units.
fn are_units(text: &[u8]) -> bool
    ensures { result ≡ (length (behind_units 4096 text.now) == 0) }
{
    let mut rest = text;
    for unit in 0..4096u32 {
        match behind_unit(rest) {
            Some(more) => rest = more,
            None => return rest.is_empty(),
        }
    }
    rest.is_empty()
}

/// Whether a text is console text: that of at most 4,096 units.
#[tactic(auto, using(crate::proofs::ConsoleLemmas::is_read, crate::proofs::ConsoleLemmas::is_written))]
pub(crate) fn is_console_text(text: &str) -> bool
    ensures sound { IsTrue result → IsConsoleText text.now }
    ensures all { IsConsoleText text.now → IsTrue result }
{
    are_units(text.as_bytes())
}
