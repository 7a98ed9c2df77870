//! Texts of a date and a time of day.
#![tactic(auto)]

ghost use Rattle.std.specs.Prelude.{◌≡◌, ◌+◌, ◌≤◌, ◌<◌, length, codes, true};
ghost use Rattle.time_service.specs.Texts.{fits_character, fits_form, two_digits, time_in};

use crate::efi_time::EfiTime;

/// The form of a text: `0` stands for any digit.
const FORM: &[u8] = b"0000-00-00T00:00:00";

fn fits_character(form: u8, character: u8) -> bool
    ensures { result ≡ fits_character form character }
{
    if form == b'0' {
        b'0' <= character && character <= b'9'
    } else {
        character == form
    }
}

/// Each character of a text stands where the form has it.
fn fits_form(form: &[u8], text: &[u8]) -> bool
    ensures fits { result ≡ fits_form form.now text.now }
    ensures lengths { result ≡ true → length text.now ≡ length form.now }
{
    if text.len() != form.len() {
        return false;
    }
    for (index, character) in text.iter().enumerate() {
        if !fits_character(form[index], *character) {
            return false;
        }
    }
    true
}

fn two_digits(text: &[u8], at: usize) -> u8
    requires { at + 2 ≤ length text.now }
    ensures value { result ≡ two_digits text.now at }
    ensures bound { result ≤ 165 }
{
    text[at] % 16 * 10 + text[at + 1] % 16
}

/// A text is in the form.
pub fn is_in_form(text: &[u8]) -> bool
    ensures form { result ≡ fits_form (codes "0000-00-00T00:00:00") text.now }
    ensures length { result ≡ true → length text.now ≡ 19 }
{
    fits_form(FORM, text)
}

/// The time that a text in the form says.
#[tactic(auto, unfolding(crate::specs::Texts::time_in))]
pub fn time_in(text: &[u8]) -> EfiTime
    requires { length text.now ≡ 19 }
    ensures { result ≡ time_in text.now }
{
    EfiTime {
        year: u16::from(two_digits(text, 0)) * 100 + u16::from(two_digits(text, 2)),
        month: two_digits(text, 5),
        day: two_digits(text, 8),
        hour: two_digits(text, 11),
        minute: two_digits(text, 14),
        second: two_digits(text, 17),
        nanosecond: 0,
        time_zone: 2047,
        daylight: 0,
    }
}
