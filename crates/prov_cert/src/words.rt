//! Words, numbers and lists in the texts of a certificate.
ghost use Rattle.std.specs.Prelude.{◌≡◌, ◌≤◌, ◌<◌, ◌-◌, ◌==◌, length, map, slice_index, IfOk};
ghost use Rattle.std.specs.List.{prefix_len, position_or_len, slice_split};
ghost use Rattle.prov_cert.specs.Words.{is_space, behind_spaces, is_blank, split_word, next_word, next_number, one_number, cut, listed, seen_pair, seen_behind};

use std::alloc::{AllocError, Global};

/// How many spaces stand in front.
fn spaces_in_front(bytes: &[u8]) -> usize
    ensures value { result ≡ prefix_len is_space bytes.now }
    ensures bound { result ≤ length bytes.now }
    ensures behind { 0 < result → slice_index bytes.now (result - 1) < 128 }
{
    for i in 0..bytes.len() {
        if bytes[i] != b' ' {
            return i;
        }
    }
    bytes.len()
}

/// Where the first space stands, or the length.
fn word_end(bytes: &[u8]) -> usize
    ensures value { result ≡ position_or_len is_space bytes.now }
    ensures bound { result ≤ length bytes.now }
    ensures before { result < length bytes.now → slice_index bytes.now result < 128 }
{
    for i in 0..bytes.len() {
        if bytes[i] == b' ' {
            return i;
        }
    }
    bytes.len()
}

/// The text without the spaces in front.
#[tactic(auto, unfolding(crate::specs::Words::behind_spaces))]
fn behind_spaces(text: &str) -> &str
    ensures { result.now ≡ behind_spaces text.now }
{
    let count = spaces_in_front(text.as_bytes());
    let (_, rest) = text.split_at(count);
    rest
}

/// Whether a text is spaces alone.
#[tactic(auto, unfolding(crate::specs::Words::is_blank))]
pub(crate) fn is_blank(text: &str) -> bool
    ensures { result ≡ is_blank text.now }
{
    behind_spaces(text).is_empty()
}

/// A text at its first space.
fn split_word(text: &str) -> (&str, &str)
    ensures word { result.0.now ≡ (split_word text.now).0 }
    ensures rest { result.1.now ≡ (split_word text.now).1 }
{
    let end = word_end(text.as_bytes());
    text.split_at(end)
}

/// The first word and what is behind it; None where there is no word.
#[tactic(auto, unfolding(crate::specs::Words::next_word))]
pub(crate) fn next_word(text: &str) -> Option<(&str, &str)>
    ensures { seen_pair result ≡ next_word text.now }
{
    let text = behind_spaces(text);
    if text.is_empty() {
        return None;
    }
    Some(split_word(text))
}

/// The number that the first word is, and what is behind it.
#[tactic(auto, unfolding(crate::specs::Words::next_number))]
pub(crate) fn next_number(text: &str) -> Option<(u64, &str)>
    ensures { seen_behind result ≡ next_number text.now }
{
    match next_word(text) {
        None => None,
        Some((word, rest)) => match uh_base::number(word) {
            None => None,
            Some(n) => Some((n, rest)),
        },
    }
}

/// The number that is the one word.
#[tactic(auto, unfolding(crate::specs::Words::one_number))]
pub(crate) fn one_number(text: &str) -> Option<u64>
    ensures { result ≡ one_number text.now }
{
    match next_number(text) {
        None => None,
        Some((n, rest)) => { if is_blank(rest) { Some(n) } else { None } }
    }
}

/// What stands before and behind the first of a character of ASCII; None where there is none.
pub(crate) fn cut(text: &str, c: char) -> Option<(&str, &str)>
    requires { c < 128 }
    ensures { seen_pair result ≡ cut c text.now }
{
    text.split_once(c)
}

/// The parts of a text between commas.
fn between_commas(alloc: Global, text: &str) -> Result<Vec<&str>, AllocError>
    ensures { IfOk result (λ v. map (λ part. part.now) v.items ≡ slice_split (λ b. b == 44) text.now) }
{
    text.split(',').collect(alloc)
}

/// The parts of a text between commas, none where it is spaces alone.
#[tactic(auto, unfolding(crate::specs::Words::listed))]
pub(crate) fn listed(alloc: Global, text: &str) -> Result<Vec<&str>, AllocError>
    ensures { IfOk result (λ v. map (λ part. part.now) v.items ≡ listed text.now) }
{
    if is_blank(text) {
        return Ok(Vec::new(alloc));
    }
    between_commas(alloc, text)
}
