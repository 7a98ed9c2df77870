//! The text of a line on what an image file holds.
ghost use Rattle.std.specs.Prelude.{◌≡◌, ◌++◌, ◌∷◌, [], OnOk};
ghost use Rattle.std.specs.Fmt.{decimal};
ghost use Rattle.uh_base.specs.Hex.{hex_digits};
ghost use Rattle.record_text.specs.Texts.{spaced};
ghost use Rattle.record_text.specs.ImageTexts.{kind_name, fault_name, fault_number, fault_text, letter, rights_text, stripped_word, code_text, image_text};

use crate::image_line::{ImageFault, ImageLine, RelocKind};
use std::alloc::AllocError;
use uh_base::push_hex;

/// Appends a number in decimal digits.
#[tactic(auto, using(std::proofs::lemmas::Fmt::decimal_digit, std::proofs::lemmas::Fmt::decimal_step))]
pub fn push_decimal(text: &mut Vec<u8>, n: u64) -> Result<(), AllocError>
    ensures { OnOk result (text.new.items ≡ text.old.items ++ decimal n) }
{
    if n >= 10 {
        push_decimal(text, n / 10)?;
        text.push(b'0' + (n % 10) as u8)?;
        return Ok(());
    }
    text.push(b'0' + n as u8)?;
    Ok(())
}

fn kind_name(kind: RelocKind) -> &'static str
    ensures { result.now ≡ kind_name kind }
{
    match kind {
        RelocKind::Dir64 => "dir64",
        RelocKind::Highlow => "highlow",
        RelocKind::High20 => "high20",
    }
}

fn fault_name(fault: ImageFault) -> &'static str
    ensures { result.now ≡ fault_name fault }
{
    match fault {
        ImageFault::Truncated(_) => "Truncated",
        ImageFault::Magic => "Magic",
        ImageFault::Machine => "Machine",
        ImageFault::Header => "Header",
        ImageFault::Subsystem => "Subsystem",
        ImageFault::Alignment => "Alignment",
        ImageFault::TooLarge => "TooLarge",
        ImageFault::SectionOutside(_) => "SectionOutside",
        ImageFault::SectionOverlap(_) => "SectionOverlap",
        ImageFault::EntryOutside => "EntryOutside",
        ImageFault::Directory => "Directory",
        ImageFault::BlockSize(_) => "BlockSize",
        ImageFault::Kind(_) => "Kind",
        ImageFault::Outside(_) => "Outside",
        ImageFault::Overlap(_) => "Overlap",
        ImageFault::Range32(_) => "Range32",
    }
}

fn fault_number(fault: ImageFault) -> Option<u32>
    ensures { result ≡ fault_number fault }
{
    match fault {
        ImageFault::Truncated(at) => Some(at),
        ImageFault::SectionOutside(i) | ImageFault::SectionOverlap(i) => Some(u32::from(i)),
        ImageFault::BlockSize(i)
        | ImageFault::Kind(i)
        | ImageFault::Outside(i)
        | ImageFault::Overlap(i)
        | ImageFault::Range32(i) => Some(i),
        _ => None,
    }
}

fn push_fault(text: &mut Vec<u8>, fault: ImageFault) -> Result<(), AllocError>
    ensures { OnOk result (text.new.items ≡ text.old.items ++ fault_text fault) }
{
    text.extend_from_slice(fault_name(fault).as_bytes())?;
    match fault_number(fault) {
        Some(n) => {
            text.push(b'(')?;
            push_decimal(text, u64::from(n))?;
            text.push(b')')?;
            Ok(())
        }
        None => Ok(()),
    }
}

/// A right's letter, or `-` where it is absent.
fn letter(is_there: bool, code: u8) -> u8
    ensures { result ≡ letter is_there code }
{
    if is_there { code } else { b'-' }
}

fn push_rights(
    text: &mut Vec<u8>,
    is_read: bool,
    is_written: bool,
    is_executed: bool,
) -> Result<(), AllocError>
    ensures { OnOk result (text.new.items ≡ text.old.items ++ rights_text is_read is_written is_executed) }
{
    text.push(letter(is_read, b'r'))?;
    text.push(letter(is_written, b'w'))?;
    text.push(letter(is_executed, b'x'))?;
    Ok(())
}

fn stripped_word(is_stripped: bool) -> &'static str
    ensures { result.now ≡ stripped_word is_stripped }
{
    match is_stripped {
        true => "stripped",
        false => "relocatable",
    }
}

/// Appends a number in decimal digits and a space.
fn push_number(text: &mut Vec<u8>, n: u64) -> Result<(), AllocError>
    ensures { OnOk result (text.new.items ≡ text.old.items ++ (decimal n ++ 32 ∷ [])) }
{
    push_decimal(text, n)?;
    text.push(b' ')?;
    Ok(())
}

/// Appends an address and a space.
fn push_base(text: &mut Vec<u8>, base: u64) -> Result<(), AllocError>
    ensures { OnOk result (text.new.items ≡ text.old.items ++ (hex_digits 16 base ++ 32 ∷ [])) }
{
    push_hex(text, 16, base)?;
    text.push(b' ')?;
    Ok(())
}

/// Appends three numbers in decimal digits, with a space behind each.
fn push_numbers(text: &mut Vec<u8>, a: u32, b: u32, c: u32) -> Result<(), AllocError>
    ensures { OnOk result (text.new.items ≡ text.old.items ++ spaced (decimal a) (spaced (decimal b) (spaced (decimal c) []))) }
{
    push_number(text, u64::from(a))?;
    push_number(text, u64::from(b))?;
    push_number(text, u64::from(c))?;
    Ok(())
}

/// Appends an offset of an image and a word of so many hexadecimal digits, with a space behind each.
pub fn push_place(text: &mut Vec<u8>, at: u32, digits: u8, word: u32) -> Result<(), AllocError>
    ensures { OnOk result (text.new.items ≡ text.old.items ++ code_text at digits word []) }
{
    push_hex(text, 8, u64::from(at))?;
    text.push(b' ')?;
    push_hex(text, digits, u64::from(word))?;
    text.push(b' ')?;
    Ok(())
}

/// Appends the text of a line, without the line end.
#[tactic(auto, unfolding(crate::specs::ImageTexts::image_text))]
pub fn push_image_line(text: &mut Vec<u8>, line: &ImageLine) -> Result<(), AllocError>
    ensures { OnOk result (text.new.items ≡ text.old.items ++ image_text line.now) }
{
    match line {
        ImageLine::Image {
            subsystem,
            base,
            size,
            entry,
            alignment,
            is_stripped,
        } => {
            text.extend_from_slice(b"image ")?;
            push_number(text, u64::from(*subsystem))?;
            push_base(text, *base)?;
            push_numbers(text, *size, *entry, *alignment)?;
            text.extend_from_slice(stripped_word(*is_stripped).as_bytes())
        }
        ImageLine::Section {
            number,
            at,
            len,
            copied,
            is_read,
            is_written,
            is_executed,
        } => {
            text.extend_from_slice(b"section ")?;
            push_number(text, u64::from(*number))?;
            push_numbers(text, *at, *len, *copied)?;
            push_rights(text, *is_read, *is_written, *is_executed)
        }
        ImageLine::Site { kind, at } => {
            text.extend_from_slice(b"site ")?;
            text.extend_from_slice(kind_name(*kind).as_bytes())?;
            text.push(b' ')?;
            push_decimal(text, u64::from(*at))
        }
        ImageLine::Listed { number } => {
            text.extend_from_slice(b"section ")?;
            push_decimal(text, u64::from(*number))
        }
        ImageLine::Word {
            at,
            word,
            text: own,
        } => {
            push_place(text, *at, 8, *word)?;
            text.extend_from_slice(own.as_str().as_bytes())
        }
        ImageLine::Half {
            at,
            half,
            text: own,
        } => {
            push_place(text, *at, 4, u32::from(*half))?;
            text.extend_from_slice(own.as_str().as_bytes())
        }
        ImageLine::NoInstruction { at, half } => {
            push_place(text, *at, 4, u32::from(*half))?;
            text.extend_from_slice(b"-")
        }
        ImageLine::LastByte { at, byte } => {
            push_place(text, *at, 2, u32::from(*byte))?;
            text.extend_from_slice(b"-")
        }
        ImageLine::Refused { fault } => {
            text.extend_from_slice(b"refused ")?;
            push_fault(text, *fault)
        }
        ImageLine::End => text.extend_from_slice(b"end"),
    }
}
