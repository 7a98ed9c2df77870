//! The lines of code.
ghost use Rattle.std.specs.Prelude.{◌≡◌, ◌≤◌, ◌<◌, ◌+◌, ◌++◌, ◌∷◌, [], length, drop, IfOk, OnOk};
ghost use Rattle.rv_decode.specs.Means.{decoded, NamesRegisters};
ghost use Rattle.rv_decode.specs.Rows.{word_of};
ghost use Rattle.rv_decode.specs.Texts.{text_of};
ghost use Rattle.record_text.specs.ImageTexts.{code_text};
ghost use Rattle.image_dump.specs.Code.{front, no_instruction, half_front, word_front, last_byte, listing};
ghost use Rattle.image_dump.specs.Puts.{Puts};
ghost use Rattle.image_dump.specs.Reports.{line_bytes};

use crate::instruction::push_instruction;
use crate::stop::{PIECE, Stop, put_text};
use pe_image::u16_in;
use record_text::push_place;
use rv_decode::{Insn, decode};
use std::alloc::AllocError;
use uh_base::Sink;

/// Appends the line of a word that is no instruction.
#[tactic(auto, unfolding(record_text::specs::ImageTexts::image_text))]
fn push_dash(text: &mut Vec<u8>, at: u32, digits: u8, word: u32) -> Result<(), AllocError>
    ensures { OnOk result (text.new.items ≡ text.old.items ++ (code_text at digits word (45 ∷ []) ++ 10 ∷ [])) }
{
    push_place(text, at, digits, word)?;
    text.extend_from_slice(b"-\n")?;
    Ok(())
}

/// Appends the line of an instruction.
fn push_code(
    text: &mut Vec<u8>,
    at: u32,
    digits: u8,
    word: u32,
    insn: &Insn,
) -> Result<(), AllocError>
    requires { NamesRegisters insn.now }
    ensures { OnOk result (text.new.items ≡ text.old.items ++ (code_text at digits word (text_of insn.now) ++ 10 ∷ [])) }
{
    push_place(text, at, digits, word)?;
    push_instruction(text, insn)?;
    text.push(b'\n')?;
    Ok(())
}

/// Appends the line of a half that is an instruction or none, and gives its length.
#[tactic(auto, unfolding(record_text::specs::ImageTexts::image_text))]
fn push_half(text: &mut Vec<u8>, at: u32, half: u16) -> Result<usize, AllocError>
    ensures text { IfOk result (λ len. text.new.items ≡ text.old.items ++ line_bytes (half_front at half (decoded half 0)).line) }
    ensures len { IfOk result (λ len. len ≡ (half_front at half (decoded half 0)).len) }
    ensures two { IfOk result (λ len. len ≡ 2) }
{
    match decode(half, 0) {
        Some((insn, _)) => push_code(text, at, 4, u32::from(half), &insn)?,
        None => push_dash(text, at, 4, u32::from(half))?,
    }
    Ok(2)
}

/// Appends the line of two halves that are an instruction, or of the first where they are none, and gives its length.
#[tactic(auto, unfolding(record_text::specs::ImageTexts::image_text))]
fn push_word(text: &mut Vec<u8>, at: u32, half0: u16, half1: u16) -> Result<usize, AllocError>
    ensures text { IfOk result (λ len. text.new.items ≡ text.old.items ++ line_bytes (word_front at half0 half1 (decoded half0 half1)).line) }
    ensures len { IfOk result (λ len. len ≡ (word_front at half0 half1 (decoded half0 half1)).len) }
    ensures some { IfOk result (λ len. 0 < len) }
    ensures four { IfOk result (λ len. len ≤ 4) }
{
    match decode(half0, half1) {
        Some((insn, _)) => {
            let word = u32::from(half0) + (u32::from(half1) << 16);
            push_code(text, at, 8, word, &insn)?;
            Ok(4)
        }
        None => {
            push_dash(text, at, 4, u32::from(half0))?;
            Ok(2)
        }
    }
}

/// Appends the line at the front of code, and gives how many bytes it is of.
#[tactic(auto, unfolding(crate::specs::Code::front, record_text::specs::ImageTexts::image_text))]
fn push_front(text: &mut Vec<u8>, at: u32, code: &[u8]) -> Result<usize, AllocError>
    requires { 0 < length code.now }
    ensures text { IfOk result (λ len. text.new.items ≡ text.old.items ++ line_bytes (front at code.now).line) }
    ensures len { IfOk result (λ len. len ≡ (front at code.now).len) }
    ensures some { IfOk result (λ len. 0 < len) }
    ensures within { IfOk result (λ len. len ≤ length code.now) }
{
    if code.len() == 1 {
        push_dash(text, at, 2, u32::from(code[0]))?;
        return Ok(1);
    }
    let half0 = u16_in(code, 0);
    if half0 % 4 != 3 {
        return push_half(text, at, half0);
    }
    if code.len() >= 4 {
        return push_word(text, at, half0, u16_in(code, 2));
    }
    push_dash(text, at, 4, u32::from(half0))?;
    Ok(2)
}

/// The code behind the first so many bytes.
fn behind(code: &[u8], count: usize) -> &[u8]
    requires { count ≤ length code.now }
    ensures { result.now ≡ drop count code.now }
{
    &code[count..]
}

/// Appends the lines of the first code, until there is enough to put at once. Gives how many bytes these are of.
fn push_lines(text: &mut Vec<u8>, at: u32, code: &[u8]) -> Result<usize, AllocError>
    requires some { 0 < length code.now }
    requires inside { at + length code.now ≤ 0x800000 }
    ensures text { IfOk result (λ count. text.old.items ++ listing at code.now ≡ text.new.items ++ listing (at + count) (drop count code.now)) }
    ensures some { IfOk result (λ count. 0 < count) }
    ensures within { IfOk result (λ count. count ≤ length code.now) }
{
    let mut count = 0;
    while count < code.len() {
        count += push_front(text, at + count as u32, behind(code, count))?;
        if text.len() >= PIECE {
            return Ok(count);
        }
    }
    Ok(count)
}

/// Puts the lines of code that begins at an offset, in pieces.
pub fn put_code<O: Sink>(text: &mut Vec<u8>, at: u32, code: &[u8], out: &mut O) -> Result<(), Stop>
    requires inside { at + length code.now ≤ 0x800000 }
    requires empty { text.old.items ≡ [] }
    ensures puts { Puts result (listing at code.now) (O.written out.old) (O.faults out.old) (O.written out.new) (O.faults out.new) }
    ensures empty { OnOk result (text.new.items ≡ []) }
{
    let mut place = at;
    let mut left = code;
    while !left.is_empty() {
        match push_lines(text, place, left) {
            Ok(count) => {
                left = behind(left, count);
                place += count as u32;
            }
            Err(_) => return Err(Stop::Memory),
        }
        match put_text(text, out) {
            Ok(()) => {}
            Err(stop) => return Err(stop),
        }
    }
    Ok(())
}
