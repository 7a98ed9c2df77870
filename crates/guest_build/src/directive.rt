//! What directives say, and all words.
ghost use Rattle.std.specs.Prelude.{◌≡◌};
ghost use Rattle.uh_base.specs.Answers.{Reads, kind_of};
ghost use Rattle.guest_build.specs.Statements.{numbered, dword, ascii16, guid, saying};

use crate::fault::{AsmKind, Fault};
use crate::instruction;
use crate::number::number_in;
use crate::operand::{label, nothing, quoted};
use crate::statement::Statement;
use crate::word::Word;
use rv_decode::Op;
use std::alloc::Global;
use uh_base::{Guid, Text};

/// `.dword`: a number, or a label.
#[tactic(auto, unfolding(crate::specs::Statements::dword))]
fn dword(alloc: Global, text: &str) -> Result<Statement, Fault>
    ensures { Reads kind_of (λ statement. statement) result (dword text.now) }
{
    match number_in(text) {
        Ok(value) => Ok(Statement::Number { width: 8, value }),
        Err(_) => {
            let target = label(text)?;
            Ok(Statement::Address(Text::new(alloc, target)?))
        }
    }
}

/// `.ascii16`.
#[tactic(auto, unfolding(crate::specs::Statements::ascii16))]
fn ascii16(alloc: Global, text: &str) -> Result<Statement, Fault>
    ensures { Reads kind_of (λ statement. statement) result (ascii16 text.now) }
{
    let inside = quoted(text)?;
    Ok(Statement::Ascii16(Text::new(alloc, inside)?))
}

/// `.guid`.
#[tactic(auto, unfolding(crate::specs::Statements::guid))]
fn guid(text: &str) -> Result<Statement, AsmKind>
    ensures { result ≡ guid text.now }
{
    match Guid::read(text) {
        Some(id) => Ok(Statement::Guid(id)),
        None => Err(AsmKind::Operand),
    }
}

/// A directive with a number.
#[tactic(auto, unfolding(crate::specs::Statements::numbered))]
fn numbered(word: Word, text: &str) -> Result<Statement, AsmKind>
    ensures { result ≡ numbered word text.now }
{
    let n = number_in(text)?;
    match word {
        Word::Base => Ok(Statement::Base(n)),
        Word::Subsystem => Ok(Statement::Subsystem(n)),
        Word::Alignment => Ok(Statement::Alignment(n)),
        Word::Zero => Ok(Statement::Zero(n)),
        Word::Number(width) => Ok(Statement::Number { width, value: n }),
        _ => Err(AsmKind::Operand),
    }
}

/// What a word and its operands say.
#[tactic(auto, unfolding(crate::specs::Statements::saying))]
pub fn saying(alloc: Global, word: Word, text: &str) -> Result<Statement, Fault>
    ensures { Reads kind_of (λ statement. statement) result (saying word text.now) }
{
    match word {
        Word::Instruction(op, shape) => instruction::instruction(alloc, op, shape, text),
        Word::Li => Ok(instruction::li(text)?),
        Word::La => instruction::la(alloc, text),
        Word::Mv => Ok(instruction::mv(text)?),
        Word::Nop => Ok(instruction::nop(text)?),
        Word::Ret => Ok(instruction::ret(text)?),
        Word::J => instruction::jump_by(alloc, 0, text),
        Word::Jr => Ok(instruction::jr(text)?),
        Word::Beqz => instruction::zero_branch(alloc, Op::Beq, text),
        Word::Bnez => instruction::zero_branch(alloc, Op::Bne, text),
        Word::Call => instruction::jump_by(alloc, 1, text),
        Word::Dword => dword(alloc, text),
        Word::Ascii16 => ascii16(alloc, text),
        Word::Guid => Ok(guid(text)?),
        Word::Text => {
            nothing(text)?;
            Ok(Statement::Text)
        }
        Word::Data => {
            nothing(text)?;
            Ok(Statement::Data)
        }
        _ => Ok(numbered(word, text)?),
    }
}
