//! Parts of a line's text.
ghost use Rattle.std.specs.Prelude.{◌≡◌, ◌≤◌, ◌<◌, ◌+◌, ◌-◌, length, false, option_map, slice_index};
ghost use Rattle.std.specs.List.{prefix_len, suffix_len, position_or_len};
ghost use Rattle.guest_build.specs.Texts.{is_blank, behind_blanks, before_blanks, trimmed, has_quote, stops, is_quoted, outside, cut, behind_first, before_last, seen_two};

use crate::fault::AsmKind;

/// Whether a byte is a blank: a space or a tab.
pub fn is_blank(byte: u8) -> bool
    ensures { result ≡ is_blank byte }
{
    byte == b' ' || byte == b'\t'
}

/// How many blanks stand in front.
fn blanks_in_front(bytes: &[u8]) -> usize
    ensures value { result ≡ prefix_len is_blank bytes.now }
    ensures bound { result ≤ length bytes.now }
    ensures behind { 0 < result → slice_index bytes.now (result - 1) < 128 }
{
    for i in 0..bytes.len() {
        if !is_blank(bytes[i]) {
            return i;
        }
    }
    bytes.len()
}

/// How many bytes stand before the blanks at the end.
fn end_of(bytes: &[u8]) -> usize
    ensures value { result + suffix_len is_blank bytes.now ≡ length bytes.now }
    ensures before { result < length bytes.now → slice_index bytes.now result < 128 }
{
    let mut end = bytes.len();
    while end > 0 {
        if !is_blank(bytes[end - 1]) {
            return end;
        }
        end -= 1;
    }
    0
}

/// The text without the blanks in front.
#[tactic(auto, unfolding(crate::specs::Texts::behind_blanks))]
fn behind_blanks(text: &str) -> &str
    ensures { result.now ≡ behind_blanks text.now }
{
    let count = blanks_in_front(text.as_bytes());
    let (_, rest) = text.split_at(count);
    rest
}

/// The text without the blanks at the end.
#[tactic(auto, unfolding(crate::specs::Texts::before_blanks))]
fn before_blanks(text: &str) -> &str
    ensures { result.now ≡ before_blanks text.now }
{
    let end = end_of(text.as_bytes());
    let (front, _) = text.split_at(end);
    front
}

/// The text without the blanks at both ends.
#[tactic(auto, unfolding(crate::specs::Texts::trimmed))]
pub fn trimmed(text: &str) -> &str
    ensures { result.now ≡ trimmed text.now }
{
    before_blanks(behind_blanks(text))
}

fn has_quote(bytes: &[u8]) -> bool
    ensures { result ≡ has_quote bytes.now }
{
    bytes.contains(&b'"')
}

/// Whether a byte is the wanted one and not quoted.
fn stops(wanted: u8, quoted: bool, byte: u8) -> bool
    ensures { result ≡ stops wanted quoted byte }
{
    !quoted && byte == wanted
}

/// Whether what follows a byte is quoted, where the byte was or wasn't.
fn is_quoted(quoted: bool, byte: u8, rest: &[u8]) -> bool
    ensures { result ≡ is_quoted quoted byte rest.now }
{
    if quoted {
        byte != b'"'
    } else {
        byte == b'"' && has_quote(rest)
    }
}

/// Where a byte first stands outside quotes, or the length.
pub fn outside(wanted: u8, bytes: &[u8]) -> usize
    ensures value { result ≡ outside wanted false bytes.now }
    ensures bound { result ≤ length bytes.now }
    ensures before { result < length bytes.now → slice_index bytes.now result ≡ wanted }
{
    let mut quoted = false;
    for i in 0..bytes.len() {
        if stops(wanted, quoted, bytes[i]) {
            return i;
        }
        quoted = is_quoted(quoted, bytes[i], &bytes[i + 1..]);
    }
    bytes.len()
}

/// Where the first blank stands, or the length.
pub fn word_end(bytes: &[u8]) -> usize
    ensures value { result ≡ position_or_len is_blank bytes.now }
    ensures bound { result ≤ length bytes.now }
    ensures before { result < length bytes.now → slice_index bytes.now result < 128 }
{
    for i in 0..bytes.len() {
        if is_blank(bytes[i]) {
            return i;
        }
    }
    bytes.len()
}

/// What stands before and behind the first of a character of ASCII; `Operand` where there is none.
pub fn cut(text: &str, c: char) -> Result<(&str, &str), AsmKind>
    requires { c < 128 }
    ensures { seen_two result ≡ cut c text.now }
{
    match text.split_once(c) {
        Some(parts) => Ok(parts),
        None => Err(AsmKind::Operand),
    }
}

/// What stands behind a character of ASCII at the beginning.
pub fn behind_first(text: &str, c: char) -> Option<&str>
    requires { c < 128 }
    ensures { option_map (λ rest. rest.now) result ≡ behind_first c text.now }
{
    text.strip_prefix(c)
}

/// What stands before a character of ASCII at the end.
pub fn before_last(text: &str, c: char) -> Option<&str>
    requires { c < 128 }
    ensures { option_map (λ front. front.now) result ≡ before_last c text.now }
{
    text.strip_suffix(c)
}
