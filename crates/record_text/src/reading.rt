//! Reading a line back: the line that a text may be is guessed, its text is written, and the two are compared.
ghost use Rattle.std.specs.Prelude.{◌≡◌, IfOk, IfSome, IfNone, IsTrue, ◌≤◌, ◌+◌, length};
ghost use Rattle.record_text.specs.Texts.{text_of, IsLine, HasForms, is_called};
ghost use Rattle.record_text.specs.Guesses.{cut, seen_cut, small_number, load_of, svc_of, start_of, unload_of, exit_boot_of, shown_of, peeked, peek_of, vars_of, memmap_of, row_of, reset_of, halt_of, by_verdict, not_passed, verdict_of, check_of, mapped_by, map_of, returned_of, trapped_of, stopped_of, ended_of, called_of, call_of, with_last_word, with_later_word, with_word, behind_word, guess_of};
ghost use Rattle.record_text.specs.HexBytes.{AreSome, bytes_of};
ghost use Rattle.record_text.specs.declared.line.Line.{Line as AnyLine};

use crate::cause::cause_of;
use crate::console::is_console_text;
use crate::hex_bytes::bytes_of;
use crate::line::Line;
use crate::service::{service_name, service_slot};
use crate::writing::line_text;
use record_names::{
    fault_of, faults_read_back, part_of, parts_read_back, rule_of, rules_read_back,
};
use std::alloc::{AllocError, Global};
use uh_base::{Text, decimals_read_back, hexadecimal, hexadecimals_read_back, is_name, number};

/// The first word, and what stands behind the space after it.
pub(crate) fn cut(text: &str) -> Option<(&str, &str)>
    ensures { seen_cut result ≡ cut text.now }
{
    text.split_once(' ')
}

/// A number below 2^32.
#[tactic(auto, unfolding(crate::specs::Guesses::small_number))]
pub(crate) fn small_number(text: &str) -> Option<u32>
    ensures { result ≡ small_number text.now }
{
    match number(text) {
        Some(n) => if n < 1 << 32 { Some(n as u32) } else { None },
        None => None,
    }
}

#[tactic(auto, unfolding(crate::specs::Guesses::svc_of))]
fn svc_of(text: &str) -> Option<Line>
    ensures { result ≡ svc_of text.now }
{
    let (name, first) = cut(text)?;
    let slot = service_slot(name)?;
    let h0 = hexadecimal(first.as_bytes())?;
    Some(Line::Svc { slot, h0 })
}

#[tactic(auto, unfolding(crate::specs::Guesses::load_of))]
fn load_of(alloc: Global, text: &str) -> Result<Option<Line>, AllocError>
    ensures { IfOk result (λ line. line ≡ load_of text.now) }
{
    let Some((name, rest)) = cut(text) else {
        return Ok(None);
    };
    let Some((first, rest)) = cut(rest) else {
        return Ok(None);
    };
    let Some((second, rest)) = cut(rest) else {
        return Ok(None);
    };
    let Some(h0) = hexadecimal(first.as_bytes()) else {
        return Ok(None);
    };
    let Some(h1) = hexadecimal(second.as_bytes()) else {
        return Ok(None);
    };
    let Some(pages) = small_number(rest) else {
        return Ok(None);
    };
    let name = Text::new(alloc, name)?;
    Ok(Some(Line::Load {
        name,
        h0,
        h1,
        pages,
    }))
}

#[tactic(auto, unfolding(crate::specs::Guesses::start_of))]
fn start_of(alloc: Global, text: &str) -> Result<Option<Line>, AllocError>
    ensures { IfOk result (λ line. line ≡ start_of text.now) }
{
    let Some((name, rest)) = cut(text) else {
        return Ok(None);
    };
    let Some((first, rest)) = cut(rest) else {
        return Ok(None);
    };
    let Some(h0) = hexadecimal(first.as_bytes()) else {
        return Ok(None);
    };
    let Some(steps) = number(rest) else {
        return Ok(None);
    };
    let name = Text::new(alloc, name)?;
    Ok(Some(Line::Start { name, h0, steps }))
}

#[tactic(auto, unfolding(crate::specs::Guesses::unload_of))]
fn unload_of(alloc: Global, text: &str) -> Result<Option<Line>, AllocError>
    ensures { IfOk result (λ line. line ≡ unload_of text.now) }
{
    let Some((name, first)) = cut(text) else {
        return Ok(None);
    };
    let Some(h0) = hexadecimal(first.as_bytes()) else {
        return Ok(None);
    };
    let name = Text::new(alloc, name)?;
    Ok(Some(Line::Unload { name, h0 }))
}

#[tactic(auto, unfolding(crate::specs::Guesses::exit_boot_of))]
fn exit_boot_of(text: &str) -> Option<Line>
    ensures { result ≡ exit_boot_of text.now }
{
    let h0 = hexadecimal(text.as_bytes())?;
    Some(Line::ExitBoot { h0 })
}

#[tactic(auto, unfolding(crate::specs::Guesses::shown_of))]
fn shown_of(alloc: Global, text: &str) -> Result<Option<Line>, AllocError>
    ensures { IfOk result (λ line. line ≡ shown_of text.now) }
{
    let Some((word, rest)) = cut(text) else {
        return Ok(None);
    };
    let Some(offset) = small_number(word) else {
        return Ok(None);
    };
    match bytes_of(alloc, rest)? {
        Some(hex) => Ok(Some(Line::Bytes { offset, hex })),
        None => Ok(None),
    }
}

/// What was found at an address: bytes, or a fault.
fn peeked(alloc: Global, h0: u64, word: &str) -> Result<Option<Line>, AllocError>
    ensures { IfOk result (λ line. line ≡ peeked h0 word.now (bytes_of word.now)) }
{
    match bytes_of(alloc, word)? {
        Some(hex) => Ok(Some(Line::Peek { h0, hex })),
        None => if word == "fault" {
            Ok(Some(Line::PeekFault { h0 }))
        } else {
            Ok(None)
        },
    }
}

#[tactic(auto, unfolding(crate::specs::Guesses::peek_of))]
fn peek_of(alloc: Global, text: &str) -> Result<Option<Line>, AllocError>
    ensures { IfOk result (λ line. line ≡ peek_of text.now) }
{
    let Some((first, rest)) = cut(text) else {
        return Ok(None);
    };
    let Some(h0) = hexadecimal(first.as_bytes()) else {
        return Ok(None);
    };
    peeked(alloc, h0, rest)
}

#[tactic(auto, unfolding(crate::specs::Guesses::vars_of))]
fn vars_of(alloc: Global, text: &str) -> Result<Option<Line>, AllocError>
    ensures { IfOk result (λ line. line ≡ vars_of text.now) }
{
    match bytes_of(alloc, text)? {
        Some(hex) => Ok(Some(Line::Vars { hex })),
        None => Ok(None),
    }
}

#[tactic(auto, unfolding(crate::specs::Guesses::memmap_of))]
fn memmap_of(text: &str) -> Option<Line>
    ensures { result ≡ memmap_of text.now }
{
    let key = number(text)?;
    Some(Line::MemmapKey { key })
}

/// The row of a memory map behind its memory type.
#[tactic(auto, unfolding(crate::specs::Guesses::row_of))]
fn row_of(memory_type: u32, text: &str) -> Option<Line>
    ensures { result ≡ row_of memory_type text.now }
{
    let (first, rest) = cut(text)?;
    let (count, second) = cut(rest)?;
    let h0 = hexadecimal(first.as_bytes())?;
    let pages = number(count)?;
    let h1 = hexadecimal(second.as_bytes())?;
    Some(Line::MemmapRow {
        memory_type,
        h0,
        pages,
        h1,
    })
}

#[tactic(auto, unfolding(crate::specs::Guesses::reset_of))]
fn reset_of(text: &str) -> Option<Line>
    ensures { result ≡ reset_of text.now }
{
    let (word, first) = cut(text)?;
    let kind = small_number(word)?;
    let h0 = hexadecimal(first.as_bytes())?;
    Some(Line::Reset { kind, h0 })
}

#[tactic(auto, unfolding(crate::specs::Guesses::halt_of))]
fn halt_of(text: &str) -> Option<Line>
    ensures { result ≡ halt_of text.now }
{
    let (word, rest) = cut(text)?;
    let (first, second) = cut(rest)?;
    let cause = cause_of(word)?;
    let h0 = hexadecimal(first.as_bytes())?;
    let h1 = hexadecimal(second.as_bytes())?;
    Some(Line::Halt { cause, h0, h1 })
}

/// A check that says no, or whose certificate is none: by its word, a name and a number.
#[tactic(auto, unfolding(crate::specs::Guesses::by_verdict))]
fn by_verdict(
    alloc: Global,
    name: &str,
    verdict: &str,
    word: &str,
    n: u32,
) -> Result<Option<Line>, AllocError>
    ensures { IfOk result (λ line. line ≡ by_verdict name.now verdict.now word.now n) }
{
    if verdict == "no" {
        let Some(rule) = rule_of(word) else {
            return Ok(None);
        };
        let name = Text::new(alloc, name)?;
        return Ok(Some(Line::CheckNo { name, rule, n }));
    }
    if verdict == "cert" {
        let Some(part) = part_of(word) else {
            return Ok(None);
        };
        let name = Text::new(alloc, name)?;
        return Ok(Some(Line::CheckCert { name, part, n }));
    }
    Ok(None)
}

#[tactic(auto, unfolding(crate::specs::Guesses::not_passed))]
fn not_passed(
    alloc: Global,
    name: &str,
    verdict: &str,
    text: &str,
) -> Result<Option<Line>, AllocError>
    ensures { IfOk result (λ line. line ≡ not_passed name.now verdict.now text.now) }
{
    let Some((word, rest)) = cut(text) else {
        return Ok(None);
    };
    let Some(n) = small_number(rest) else {
        return Ok(None);
    };
    by_verdict(alloc, name, verdict, word, n)
}

/// A check behind its name.
#[tactic(auto, unfolding(crate::specs::Guesses::verdict_of))]
fn verdict_of(alloc: Global, name: &str, text: &str) -> Result<Option<Line>, AllocError>
    ensures { IfOk result (λ line. line ≡ verdict_of name.now text.now) }
{
    if let Some((verdict, rest)) = cut(text) {
        return not_passed(alloc, name, verdict, rest);
    }
    if text == "yes" {
        let name = Text::new(alloc, name)?;
        return Ok(Some(Line::CheckYes { name }));
    }
    Ok(None)
}

#[tactic(auto, unfolding(crate::specs::Guesses::check_of))]
fn check_of(alloc: Global, text: &str) -> Result<Option<Line>, AllocError>
    ensures { IfOk result (λ line. line ≡ check_of text.now) }
{
    match cut(text) {
        Some((name, rest)) => verdict_of(alloc, name, rest),
        None => Ok(None),
    }
}

#[tactic(auto, unfolding(crate::specs::Guesses::mapped_by))]
fn mapped_by(word: &str, text: &str) -> Option<Line>
    ensures { result ≡ mapped_by word.now text.now }
{
    if word == "accepted" {
        let steps = number(text)?;
        return Some(Line::MapAccepted { steps });
    }
    if word == "refused" {
        let fault = fault_of(text)?;
        return Some(Line::MapRefused { fault });
    }
    None
}

#[tactic(auto, unfolding(crate::specs::Guesses::map_of))]
fn map_of(text: &str) -> Option<Line>
    ensures { result ≡ map_of text.now }
{
    let (word, rest) = cut(text)?;
    mapped_by(word, rest)
}

#[tactic(auto, unfolding(crate::specs::Guesses::returned_of))]
fn returned_of(alloc: Global, name: &str, h0: u64, text: &str) -> Result<Option<Line>, AllocError>
    ensures { IfOk result (λ line. line ≡ returned_of name.now h0 text.now) }
{
    let Some(steps) = number(text) else {
        return Ok(None);
    };
    let name = Text::new(alloc, name)?;
    Ok(Some(Line::Call { name, h0, steps }))
}

#[tactic(auto, unfolding(crate::specs::Guesses::trapped_of))]
fn trapped_of(alloc: Global, name: &str, text: &str) -> Result<Option<Line>, AllocError>
    ensures { IfOk result (λ line. line ≡ trapped_of name.now text.now) }
{
    let Some((word, rest)) = cut(text) else {
        return Ok(None);
    };
    let Some(cause) = cause_of(word) else {
        return Ok(None);
    };
    let Some(steps) = number(rest) else {
        return Ok(None);
    };
    let name = Text::new(alloc, name)?;
    Ok(Some(Line::CallTrap { name, cause, steps }))
}

/// A call that didn't return, by the word that says so.
#[tactic(auto, unfolding(crate::specs::Guesses::stopped_of))]
fn stopped_of(alloc: Global, name: &str, word: &str, text: &str) -> Result<Option<Line>, AllocError>
    ensures { IfOk result (λ line. line ≡ stopped_of name.now word.now text.now) }
{
    if word == "trap" {
        return trapped_of(alloc, name, text);
    }
    if word == "bound" {
        let Some(steps) = number(text) else {
            return Ok(None);
        };
        let name = Text::new(alloc, name)?;
        return Ok(Some(Line::CallBound { name, steps }));
    }
    Ok(None)
}

#[tactic(auto, unfolding(crate::specs::Guesses::ended_of))]
fn ended_of(alloc: Global, name: &str, word: &str, text: &str) -> Result<Option<Line>, AllocError>
    ensures { IfOk result (λ line. line ≡ ended_of name.now word.now text.now) }
{
    match hexadecimal(word.as_bytes()) {
        Some(h0) => returned_of(alloc, name, h0, text),
        None => stopped_of(alloc, name, word, text),
    }
}

/// A call behind its name.
#[tactic(auto, unfolding(crate::specs::Guesses::called_of))]
fn called_of(alloc: Global, name: &str, text: &str) -> Result<Option<Line>, AllocError>
    ensures { IfOk result (λ line. line ≡ called_of name.now text.now) }
{
    if let Some((word, rest)) = cut(text) {
        return ended_of(alloc, name, word, rest);
    }
    if text == "early" {
        let name = Text::new(alloc, name)?;
        return Ok(Some(Line::CallEarly { name }));
    }
    Ok(None)
}

#[tactic(auto, unfolding(crate::specs::Guesses::call_of))]
fn call_of(alloc: Global, text: &str) -> Result<Option<Line>, AllocError>
    ensures { IfOk result (λ line. line ≡ call_of text.now) }
{
    match cut(text) {
        Some((name, rest)) => called_of(alloc, name, rest),
        None => Ok(None),
    }
}

#[tactic(auto, unfolding(crate::specs::Guesses::with_last_word))]
fn with_last_word(alloc: Global, word: &str, rest: &str) -> Result<Option<Line>, AllocError>
    ensures { IfOk result (λ line. line ≡ with_last_word word.now rest.now) }
{
    if word == "check" {
        return check_of(alloc, rest);
    }
    if word == "map" {
        return Ok(map_of(rest));
    }
    if word == "call" {
        return call_of(alloc, rest);
    }
    Ok(None)
}

#[tactic(auto, unfolding(crate::specs::Guesses::with_later_word))]
fn with_later_word(alloc: Global, word: &str, rest: &str) -> Result<Option<Line>, AllocError>
    ensures { IfOk result (λ line. line ≡ with_later_word word.now rest.now) }
{
    if word == "unload" {
        return unload_of(alloc, rest);
    }
    if word == "exit_boot" {
        return Ok(exit_boot_of(rest));
    }
    if word == "bytes" {
        return shown_of(alloc, rest);
    }
    if word == "peek" {
        return peek_of(alloc, rest);
    }
    if word == "vars" {
        return vars_of(alloc, rest);
    }
    with_last_word(alloc, word, rest)
}

#[tactic(auto, unfolding(crate::specs::Guesses::with_word))]
fn with_word(alloc: Global, word: &str, rest: &str) -> Result<Option<Line>, AllocError>
    ensures { IfOk result (λ line. line ≡ with_word word.now rest.now) }
{
    if word == "console" {
        let text = Text::new(alloc, rest)?;
        return Ok(Some(Line::Console { text }));
    }
    if word == "load" {
        return load_of(alloc, rest);
    }
    if word == "start" {
        return start_of(alloc, rest);
    }
    if word == "memmap" {
        return Ok(memmap_of(rest));
    }
    if word == "svc" {
        return Ok(svc_of(rest));
    }
    if word == "reset" {
        return Ok(reset_of(rest));
    }
    if word == "halt" {
        return Ok(halt_of(rest));
    }
    with_later_word(alloc, word, rest)
}

/// A row where the first word is a number.
#[tactic(auto, unfolding(crate::specs::Guesses::behind_word))]
fn behind_word(alloc: Global, word: &str, rest: &str) -> Result<Option<Line>, AllocError>
    ensures { IfOk result (λ line. line ≡ behind_word word.now rest.now) }
{
    match small_number(word) {
        Some(memory_type) => Ok(row_of(memory_type, rest)),
        None => with_word(alloc, word, rest),
    }
}

/// The line that a text may be.
#[tactic(auto, unfolding(crate::specs::Guesses::guess_of))]
fn guess_of(alloc: Global, text: &str) -> Result<Option<Line>, AllocError>
    ensures { IfOk result (λ line. line ≡ guess_of text.now) }
{
    match cut(text) {
        Some((word, rest)) => behind_word(alloc, word, rest),
        None => if text == "end" {
            Ok(Some(Line::End))
        } else {
            Ok(None)
        },
    }
}

/// Whether there is a byte.
fn are_some(bytes: &[u8]) -> bool
    ensures sound { IsTrue result → AreSome bytes.now }
    ensures all { AreSome bytes.now → IsTrue result }
{
    !bytes.is_empty()
}

/// Whether 1 to 4,096 bytes from an offset on lie below 65,536.
fn are_shown(offset: u32, bytes: &[u8]) -> bool
    ensures sound { IsTrue result → (AreSome bytes.now × (length bytes.now ≤ 4096) × (offset + length bytes.now ≤ 65536)) }
    ensures all { (AreSome bytes.now × (length bytes.now ≤ 4096) × (offset + length bytes.now ≤ 65536)) → IsTrue result }
{
    are_some(bytes) && bytes.len() <= 4096 && offset as usize + bytes.len() <= 65536
}

/// Whether a name is that of an image or of a service.
fn is_called(name: &str) -> bool
    ensures { result ≡ is_called name.now }
{
    is_name(name) || service_slot(name).is_some()
}

/// Whether the words of a line keep their forms.
fn has_forms(line: &Line) -> bool
    ensures sound { IsTrue result → HasForms line.now }
    ensures all { HasForms line.now → IsTrue result }
{
    match line {
        Line::Console { text } => is_console_text(text.as_str()),
        Line::Svc { slot, .. } => !service_name(*slot).is_empty(),
        Line::Load { name, .. } => is_name(name.as_str()),
        Line::Start { name, .. } => is_name(name.as_str()),
        Line::Unload { name, .. } => is_name(name.as_str()),
        Line::ExitBoot { .. } => true,
        Line::CheckYes { name } => is_name(name.as_str()),
        Line::CheckNo { name, .. } => is_name(name.as_str()),
        Line::CheckCert { name, .. } => is_name(name.as_str()),
        Line::MapAccepted { .. } => true,
        Line::MapRefused { .. } => true,
        Line::Call { name, .. } => is_called(name.as_str()),
        Line::CallTrap { name, .. } => is_called(name.as_str()),
        Line::CallBound { name, .. } => is_called(name.as_str()),
        Line::CallEarly { name } => is_called(name.as_str()),
        Line::Bytes { offset, hex } => are_shown(*offset, hex.as_slice()),
        Line::Peek { hex, .. } => are_shown(0, hex.as_slice()),
        Line::PeekFault { .. } => true,
        Line::Vars { hex } => are_some(hex.as_slice()),
        Line::MemmapKey { .. } => true,
        Line::MemmapRow { .. } => true,
        Line::Reset { .. } => true,
        Line::Halt { .. } => true,
        Line::End => true,
    }
}

/// Reads a line's text, without the line end; None exactly where the text is no line's.
pub fn read_line(alloc: Global, text: &str) -> Result<Option<Line>, AllocError>
    ensures found { IfOk result (λ o. IfSome o (λ line. IsLine line × (text_of line ≡ text.now))) }
    ensures only { IfOk result (λ o. IfSome o (λ line. (other : AnyLine) → IsLine other → text_of other ≡ text.now → line ≡ other)) }
    ensures none { IfOk result (λ o. IfNone o ((line : AnyLine) → IsLine line → text_of line ≡ text.now → ⊥)) }
{
    // What the proof reads of the crates below: texts of numbers and names are read as these numbers and names.
    decimals_read_back();
    hexadecimals_read_back();
    rules_read_back();
    parts_read_back();
    faults_read_back();
    let line = match guess_of(alloc, text)? {
        Some(line) => line,
        None => return Ok(None),
    };
    if !has_forms(&line) {
        return Ok(None);
    }
    let written = line_text(alloc, &line)?;
    if written.as_str() == text {
        Ok(Some(line))
    } else {
        Ok(None)
    }
}
