//! Operands, each without the blanks around it.
ghost use Rattle.std.specs.Prelude.{◌≡◌, ◌<◌, ◌+◌, ◌≤◌, map, length};
ghost use Rattle.std.specs.List.{list_all};
ghost use Rattle.uh_base.specs.Answers.{Reads, kind_of};
ghost use Rattle.guest_build.specs.Texts.{seen, seen_two, seen_three};
ghost use Rattle.guest_build.specs.Operands.{two, three, register_from, register, begins_with_digit, is_label, label, nothing, around, in_parentheses, is_part, the_word, part, low, upper, high, low_based, number_based, based, is_plain, plain_text, quoted};

use crate::fault::{AsmKind, Fault};
use crate::number::number_in;
use crate::statement::Operand;
use crate::text::{before_last, behind_first, cut, trimmed};
use std::alloc::Global;
use uh_base::{Text, is_name};

/// The names of x0 to x31. (RISC-V unprivileged manual, version 20191213, table 25.1)
static NAMES: [&str; 32] = [
    "zero", "ra", "sp", "gp", "tp", "t0", "t1", "t2", "s0", "s1", "a0", "a1", "a2", "a3", "a4",
    "a5", "a6", "a7", "s2", "s3", "s4", "s5", "s6", "s7", "s8", "s9", "s10", "s11", "t3", "t4",
    "t5", "t6",
];

/// Two operands with a comma between.
#[tactic(auto, unfolding(crate::specs::Operands::two))]
pub fn two(text: &str) -> Result<(&str, &str), AsmKind>
    ensures { seen_two result ≡ two text.now }
{
    let (first, second) = cut(text, ',')?;
    Ok((trimmed(first), trimmed(second)))
}

/// Three operands with commas between.
#[tactic(auto, unfolding(crate::specs::Operands::three))]
pub fn three(text: &str) -> Result<(&str, &str, &str), AsmKind>
    ensures { seen_three result ≡ three text.now }
{
    let (first, others) = cut(text, ',')?;
    let (second, third) = two(others)?;
    Ok((trimmed(first), second, third))
}

/// The place of a name in a list of names.
fn register_in(names: &[&str], text: &str) -> Result<u8, AsmKind>
    requires { length names.now ≤ 32 }
    ensures { result ≡ register_from 0 (map (λ name. name.now) names.now) text.now }
{
    for i in 0..names.len() {
        if names[i] == text {
            return Ok(i as u8);
        }
    }
    Err(AsmKind::Operand)
}

/// The number of a register's name.
pub fn register(text: &str) -> Result<u8, AsmKind>
    ensures { result ≡ register text.now }
{
    register_in(&NAMES, text)
}

fn begins_with_digit(bytes: &[u8]) -> bool
    ensures { result ≡ begins_with_digit bytes.now }
{
    bytes.len() > 0 && bytes[0] >= b'0' && bytes[0] <= b'9'
}

/// Whether a text is a label: a name that doesn't begin with a digit.
#[tactic(auto, unfolding(crate::specs::Operands::is_label))]
pub fn is_label(text: &str) -> bool
    ensures { result ≡ is_label text.now }
{
    is_name(text) && !begins_with_digit(text.as_bytes())
}

/// A label.
#[tactic(auto, unfolding(crate::specs::Operands::label))]
pub fn label(text: &str) -> Result<&str, AsmKind>
    ensures { seen result ≡ label text.now }
{
    if is_label(text) {
        Ok(text)
    } else {
        Err(AsmKind::Operand)
    }
}

/// No operand.
#[tactic(auto, unfolding(crate::specs::Operands::nothing))]
pub fn nothing(text: &str) -> Result<(), AsmKind>
    ensures { result ≡ nothing text.now }
{
    if text.is_empty() {
        Ok(())
    } else {
        Err(AsmKind::Operand)
    }
}

/// What stands before the first parenthesis, between it and the next closing one, and behind that.
#[tactic(auto, unfolding(crate::specs::Operands::around))]
fn around(text: &str) -> Result<(&str, &str, &str), AsmKind>
    ensures { seen_three result ≡ around text.now }
{
    let (before, others) = cut(text, '(')?;
    let (inside, behind) = cut(others, ')')?;
    Ok((trimmed(before), trimmed(inside), trimmed(behind)))
}

/// A register in parentheses.
#[tactic(auto, unfolding(crate::specs::Operands::in_parentheses))]
fn in_parentheses(text: &str) -> Result<u8, AsmKind>
    ensures { result ≡ in_parentheses text.now }
{
    let (before, inside, behind) = around(text)?;
    nothing(before)?;
    nothing(behind)?;
    register(inside)
}

/// Whether a text begins with a percent sign.
#[tactic(auto, unfolding(crate::specs::Operands::is_part))]
fn is_part(text: &str) -> bool
    ensures { result ≡ is_part text.now }
{
    behind_first(text, '%').is_some()
}

/// The word, and no other.
#[tactic(auto, unfolding(crate::specs::Operands::the_word))]
fn the_word(word: &str, text: &str) -> Result<(), AsmKind>
    ensures { result ≡ the_word word.now text.now }
{
    if text == word {
        Ok(())
    } else {
        Err(AsmKind::Operand)
    }
}

/// The label of a word with a label in parentheses.
#[tactic(auto, unfolding(crate::specs::Operands::part))]
fn part<'a>(word: &str, text: &'a str) -> Result<&'a str, AsmKind>
    ensures { seen result ≡ part word.now text.now }
{
    let (before, inside, behind) = around(text)?;
    the_word(word, before)?;
    nothing(behind)?;
    label(inside)
}

/// A number of 12 bits, or `%lo(label)`.
#[tactic(auto, unfolding(crate::specs::Operands::low))]
pub fn low(alloc: Global, text: &str) -> Result<Operand, Fault>
    ensures { Reads kind_of (λ operand. operand) result (low text.now) }
{
    if is_part(text) {
        let name = part("%lo", text)?;
        return Ok(Operand::Low(Text::new(alloc, name)?));
    }
    let n = number_in(text)?;
    Ok(Operand::Number(n))
}

/// A field of 20 bits.
#[tactic(auto, unfolding(crate::specs::Operands::upper))]
pub fn upper(text: &str) -> Result<Operand, AsmKind>
    ensures { result ≡ upper text.now }
{
    let n = number_in(text)?;
    Ok(Operand::Upper(n))
}

/// A field of 20 bits, or `%hi(label)`.
#[tactic(auto, unfolding(crate::specs::Operands::high))]
pub fn high(alloc: Global, text: &str) -> Result<Operand, Fault>
    ensures { Reads kind_of (λ operand. operand) result (high text.now) }
{
    if is_part(text) {
        let name = part("%hi", text)?;
        return Ok(Operand::High(Text::new(alloc, name)?));
    }
    let operand = upper(text)?;
    Ok(operand)
}

/// `%lo(label)(register)`.
#[tactic(auto, unfolding(crate::specs::Operands::low_based))]
fn low_based(alloc: Global, text: &str) -> Result<(Operand, u8), Fault>
    ensures { Reads kind_of (λ place. place) result (low_based text.now) }
{
    let (before, inside, behind) = around(text)?;
    the_word("%lo", before)?;
    let name = label(inside)?;
    let base = in_parentheses(behind)?;
    Ok((Operand::Low(Text::new(alloc, name)?), base))
}

/// A number before a register in parentheses.
#[tactic(auto, unfolding(crate::specs::Operands::number_based))]
fn number_based(text: &str) -> Result<(Operand, u8), AsmKind>
    ensures { result ≡ number_based text.now }
{
    let (before, inside, behind) = around(text)?;
    let n = number_in(before)?;
    let base = register(inside)?;
    nothing(behind)?;
    Ok((Operand::Number(n), base))
}

/// An offset with its base in parentheses.
#[tactic(auto, unfolding(crate::specs::Operands::based))]
pub fn based(alloc: Global, text: &str) -> Result<(Operand, u8), Fault>
    ensures { Reads kind_of (λ place. place) result (based text.now) }
{
    if is_part(text) {
        return low_based(alloc, text);
    }
    let place = number_based(text)?;
    Ok(place)
}

fn is_plain(byte: u8) -> bool
    ensures { result ≡ is_plain byte }
{
    byte < 128 && byte != b'"'
}

fn are_plain(bytes: &[u8]) -> bool
    ensures { result ≡ list_all is_plain bytes.now }
{
    bytes.iter().all(|b| is_plain(*b))
}

/// A text of ASCII without quotes.
fn plain_text(text: &str) -> Result<&str, AsmKind>
    ensures { seen result ≡ plain_text text.now }
{
    if are_plain(text.as_bytes()) {
        Ok(text)
    } else {
        Err(AsmKind::Operand)
    }
}

/// The text between quotes.
#[tactic(auto, unfolding(crate::specs::Operands::quoted))]
pub fn quoted(text: &str) -> Result<&str, AsmKind>
    ensures { seen result ≡ quoted text.now }
{
    let Some(rest) = behind_first(text, '"') else {
        return Err(AsmKind::Operand);
    };
    let Some(inside) = before_last(rest, '"') else {
        return Err(AsmKind::Operand);
    };
    plain_text(inside)
}
