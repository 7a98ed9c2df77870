//! Reading back a line on what an image file holds, as `reading` does that of a run: the line that a text may be is
//! guessed, its text is written, and the two are compared.
ghost use Rattle.std.specs.Prelude.{◌≡◌, ◌≤◌, ◌<◌, ◌^◌, IfOk, IfSome, IfNone, IsTrue, length};
ghost use Rattle.std.specs.List.{list_all};
ghost use Rattle.std.specs.Str.{bytes_eq};
ghost use Rattle.uh_base.specs.ConsoleText.{is_printable};
ghost use Rattle.record_text.specs.Guesses.{seen_cut};
ghost use Rattle.record_text.specs.ImageGuesses.{cut_at, below, short_number, kind_of, plain_fault, numbered_fault, with_number, fault_of, stripped_of, image_of, has, with_rights, section_of, section_or_listed, site_of, refused_of, with_word, half_line, by_digits, code_of, behind_word, guess_of};
ghost use Rattle.record_text.specs.ImageTexts.{image_text, is_instruction_text, HasForms, IsImageLine};
ghost use Rattle.record_text.specs.declared.image_line.ImageLine.{ImageLine as AnyLine};

use crate::image_line::{ImageFault, ImageLine, RelocKind};
use crate::image_writing::push_image_line;
use crate::reading::{cut, small_number};
use std::alloc::{AllocError, Global};
use uh_base::{Text, decimals_read_back, hexadecimal, hexadecimals_read_back, number};

/// What stands before the first byte of a kind, and what behind it.
fn cut_at(text: &str, mark: char) -> Option<(&str, &str)>
    requires { mark < 128 }
    ensures { seen_cut result ≡ cut_at mark text.now }
{
    text.split_once(mark)
}

fn below_32(n: u64) -> Option<u32>
    ensures { result ≡ below 32 n }
{
    if n < 1 << 32 { Some(n as u32) } else { None }
}

fn below_16(n: u64) -> Option<u16>
    ensures { result ≡ below 16 n }
{
    if n < 1 << 16 { Some(n as u16) } else { None }
}

fn below_8(n: u64) -> Option<u8>
    ensures { result ≡ below 8 n }
{
    if n < 1 << 8 { Some(n as u8) } else { None }
}

/// A number below 2^16.
#[tactic(auto, unfolding(crate::specs::ImageGuesses::short_number))]
fn short_number(text: &str) -> Option<u16>
    ensures { result ≡ short_number text.now }
{
    below_16(number(text)?)
}

#[tactic(auto, unfolding(crate::specs::ImageGuesses::kind_of))]
fn kind_of(word: &str) -> Option<RelocKind>
    ensures { result ≡ kind_of word.now }
{
    if word == "dir64" {
        Some(RelocKind::Dir64)
    } else if word == "highlow" {
        Some(RelocKind::Highlow)
    } else if word == "high20" {
        Some(RelocKind::High20)
    } else {
        None
    }
}

/// The fault of a name, of those without a number.
#[tactic(auto, unfolding(crate::specs::ImageGuesses::plain_fault))]
fn plain_fault(name: &str) -> Option<ImageFault>
    ensures { result ≡ plain_fault name.now }
{
    if name == "Magic" {
        Some(ImageFault::Magic)
    } else if name == "Machine" {
        Some(ImageFault::Machine)
    } else if name == "Header" {
        Some(ImageFault::Header)
    } else if name == "Subsystem" {
        Some(ImageFault::Subsystem)
    } else if name == "Alignment" {
        Some(ImageFault::Alignment)
    } else if name == "TooLarge" {
        Some(ImageFault::TooLarge)
    } else if name == "EntryOutside" {
        Some(ImageFault::EntryOutside)
    } else if name == "Directory" {
        Some(ImageFault::Directory)
    } else {
        None
    }
}

/// The fault of a name and a number.
#[tactic(auto, unfolding(crate::specs::ImageGuesses::numbered_fault))]
fn numbered_fault(name: &str, n: u64) -> Option<ImageFault>
    ensures { result ≡ numbered_fault name.now n }
{
    if name == "Truncated" {
        Some(ImageFault::Truncated(below_32(n)?))
    } else if name == "SectionOutside" {
        Some(ImageFault::SectionOutside(below_16(n)?))
    } else if name == "SectionOverlap" {
        Some(ImageFault::SectionOverlap(below_16(n)?))
    } else if name == "BlockSize" {
        Some(ImageFault::BlockSize(below_32(n)?))
    } else if name == "Kind" {
        Some(ImageFault::Kind(below_32(n)?))
    } else if name == "Outside" {
        Some(ImageFault::Outside(below_32(n)?))
    } else if name == "Overlap" {
        Some(ImageFault::Overlap(below_32(n)?))
    } else if name == "Range32" {
        Some(ImageFault::Range32(below_32(n)?))
    } else {
        None
    }
}

/// The fault of a name and of what stands behind `(`.
#[tactic(auto, unfolding(crate::specs::ImageGuesses::with_number))]
fn with_number(name: &str, rest: &str) -> Option<ImageFault>
    ensures { result ≡ with_number name.now rest.now }
{
    let (digits, _) = cut_at(rest, ')')?;
    let n = number(digits)?;
    numbered_fault(name, n)
}

#[tactic(auto, unfolding(crate::specs::ImageGuesses::fault_of))]
fn fault_of(text: &str) -> Option<ImageFault>
    ensures { result ≡ fault_of text.now }
{
    match cut_at(text, '(') {
        Some((name, rest)) => with_number(name, rest),
        None => plain_fault(text),
    }
}

#[tactic(auto, unfolding(crate::specs::ImageGuesses::stripped_of))]
fn stripped_of(word: &str) -> Option<bool>
    ensures { result ≡ stripped_of word.now }
{
    if word == "stripped" {
        Some(true)
    } else if word == "relocatable" {
        Some(false)
    } else {
        None
    }
}

#[tactic(auto, unfolding(crate::specs::ImageGuesses::image_of))]
fn image_of(text: &str) -> Option<ImageLine>
    ensures { result ≡ image_of text.now }
{
    let (first, rest) = cut(text)?;
    let (second, rest) = cut(rest)?;
    let (third, rest) = cut(rest)?;
    let (fourth, rest) = cut(rest)?;
    let (fifth, last) = cut(rest)?;
    let subsystem = short_number(first)?;
    let base = hexadecimal(second.as_bytes())?;
    let size = small_number(third)?;
    let entry = small_number(fourth)?;
    let alignment = small_number(fifth)?;
    let is_stripped = stripped_of(last)?;
    Some(ImageLine::Image {
        subsystem,
        base,
        size,
        entry,
        alignment,
        is_stripped,
    })
}

fn with_rights(number: u16, at: u32, len: u32, copied: u32, rights: &[u8]) -> Option<ImageLine>
    ensures { result ≡ with_rights number at len copied rights.now }
{
    if rights.len() == 3 {
        Some(ImageLine::Section {
            number,
            at,
            len,
            copied,
            is_read: rights[0] == b'r',
            is_written: rights[1] == b'w',
            is_executed: rights[2] == b'x',
        })
    } else {
        None
    }
}

/// A section behind its number.
#[tactic(auto, unfolding(crate::specs::ImageGuesses::section_of))]
fn section_of(number: u16, text: &str) -> Option<ImageLine>
    ensures { result ≡ section_of number text.now }
{
    let (first, rest) = cut(text)?;
    let (second, rest) = cut(rest)?;
    let (third, rights) = cut(rest)?;
    let at = small_number(first)?;
    let len = small_number(second)?;
    let copied = small_number(third)?;
    with_rights(number, at, len, copied, rights.as_bytes())
}

#[tactic(auto, unfolding(crate::specs::ImageGuesses::section_or_listed))]
fn section_or_listed(text: &str) -> Option<ImageLine>
    ensures { result ≡ section_or_listed text.now }
{
    match cut(text) {
        Some((first, rest)) => {
            let number = short_number(first)?;
            section_of(number, rest)
        }
        None => {
            let number = short_number(text)?;
            Some(ImageLine::Listed { number })
        }
    }
}

#[tactic(auto, unfolding(crate::specs::ImageGuesses::site_of))]
fn site_of(text: &str) -> Option<ImageLine>
    ensures { result ≡ site_of text.now }
{
    let (word, rest) = cut(text)?;
    let kind = kind_of(word)?;
    let at = small_number(rest)?;
    Some(ImageLine::Site { kind, at })
}

#[tactic(auto, unfolding(crate::specs::ImageGuesses::refused_of))]
fn refused_of(text: &str) -> Option<ImageLine>
    ensures { result ≡ refused_of text.now }
{
    let fault = fault_of(text)?;
    Some(ImageLine::Refused { fault })
}

#[tactic(auto, unfolding(crate::specs::ImageGuesses::with_word))]
fn with_word(word: &str, rest: &str) -> Option<ImageLine>
    ensures { result ≡ with_word word.now rest.now }
{
    if word == "image" {
        return image_of(rest);
    }
    if word == "section" {
        return section_or_listed(rest);
    }
    if word == "site" {
        return site_of(rest);
    }
    if word == "refused" {
        return refused_of(rest);
    }
    None
}

/// The line of two bytes.
fn half_line(alloc: Global, at: u32, text: &str, half: u16) -> Result<ImageLine, AllocError>
    ensures { IfOk result (λ line. line ≡ half_line at text.now half) }
{
    if text == "-" {
        return Ok(ImageLine::NoInstruction { at, half });
    }
    let text = Text::new(alloc, text)?;
    Ok(ImageLine::Half { at, half, text })
}

/// The line of a word of so many digits.
#[tactic(auto, unfolding(crate::specs::ImageGuesses::by_digits))]
fn by_digits(
    alloc: Global,
    at: u32,
    digits: usize,
    n: u64,
    text: &str,
) -> Result<Option<ImageLine>, AllocError>
    ensures { IfOk result (λ line. line ≡ by_digits at digits n text.now) }
{
    if digits == 8 {
        let Some(word) = below_32(n) else {
            return Ok(None);
        };
        let text = Text::new(alloc, text)?;
        return Ok(Some(ImageLine::Word { at, word, text }));
    }
    if digits == 4 {
        let Some(half) = below_16(n) else {
            return Ok(None);
        };
        let line = half_line(alloc, at, text, half)?;
        return Ok(Some(line));
    }
    if digits != 2 {
        return Ok(None);
    }
    match below_8(n) {
        Some(byte) => Ok(Some(ImageLine::LastByte { at, byte })),
        None => Ok(None),
    }
}

/// Code behind its offset.
#[tactic(auto, unfolding(crate::specs::ImageGuesses::code_of))]
fn code_of(alloc: Global, offset: u64, text: &str) -> Result<Option<ImageLine>, AllocError>
    ensures { IfOk result (λ line. line ≡ code_of offset text.now) }
{
    let Some(at) = below_32(offset) else {
        return Ok(None);
    };
    let Some((word, rest)) = cut(text) else {
        return Ok(None);
    };
    let Some(n) = hexadecimal(word.as_bytes()) else {
        return Ok(None);
    };
    by_digits(alloc, at, word.len(), n, rest)
}

/// Code where the first word is an offset.
#[tactic(auto, unfolding(crate::specs::ImageGuesses::behind_word))]
fn behind_word(alloc: Global, word: &str, rest: &str) -> Result<Option<ImageLine>, AllocError>
    ensures { IfOk result (λ line. line ≡ behind_word word.now rest.now) }
{
    match hexadecimal(word.as_bytes()) {
        Some(offset) => code_of(alloc, offset, rest),
        None => Ok(with_word(word, rest)),
    }
}

/// The line that a text may be.
#[tactic(auto, unfolding(crate::specs::ImageGuesses::guess_of))]
fn guess_of(alloc: Global, text: &str) -> Result<Option<ImageLine>, AllocError>
    ensures { IfOk result (λ line. line ≡ guess_of text.now) }
{
    match cut(text) {
        Some((word, rest)) => behind_word(alloc, word, rest),
        None => if text == "end" {
            Ok(Some(ImageLine::End))
        } else {
            Ok(None)
        },
    }
}

fn is_printable(byte: u8) -> bool
    ensures { result ≡ is_printable byte }
{
    byte >= 0x20 && byte <= 0x7e
}

fn are_printable(bytes: &[u8]) -> bool
    ensures { result ≡ list_all is_printable bytes.now }
{
    bytes.iter().all(|b| is_printable(*b))
}

fn is_instruction_text(text: &str) -> bool
    ensures { result ≡ is_instruction_text text.now }
{
    are_printable(text.as_bytes()) && text != "-"
}

/// Whether the words of a line keep their forms.
fn has_forms(line: &ImageLine) -> bool
    ensures sound { IsTrue result → HasForms line.now }
    ensures all { HasForms line.now → IsTrue result }
{
    match line {
        ImageLine::Word { text, .. } => is_instruction_text(text.as_str()),
        ImageLine::Half { text, .. } => is_instruction_text(text.as_str()),
        _ => true,
    }
}

/// The text of a line.
fn line_text(alloc: Global, line: &ImageLine) -> Result<Vec<u8>, AllocError>
    ensures { IfOk result (λ text. text.items ≡ image_text line.now) }
{
    let mut text = Vec::new(alloc);
    push_image_line(&mut text, line)?;
    Ok(text)
}

/// Reads the text of a line on what an image file holds, without the line end; None exactly where the text is no such
/// line's.
pub fn read_image_line(alloc: Global, text: &str) -> Result<Option<ImageLine>, AllocError>
    ensures found { IfOk result (λ o. IfSome o (λ line. IsImageLine line × (image_text line ≡ text.now))) }
    ensures only { IfOk result (λ o. IfSome o (λ line. (other : AnyLine) → IsImageLine other → image_text other ≡ text.now → line ≡ other)) }
    ensures none { IfOk result (λ o. IfNone o ((line : AnyLine) → IsImageLine line → image_text line ≡ text.now → ⊥)) }
{
    // What the proof reads of `uh_base`: numbers' texts are read as these numbers.
    decimals_read_back();
    hexadecimals_read_back();
    let line = match guess_of(alloc, text)? {
        Some(line) => line,
        None => return Ok(None),
    };
    if !has_forms(&line) {
        return Ok(None);
    }
    let written = line_text(alloc, &line)?;
    if written.as_slice() == text.as_bytes() {
        Ok(Some(line))
    } else {
        Ok(None)
    }
}
