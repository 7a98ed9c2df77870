//! What a line says.
ghost use Rattle.std.specs.Prelude.{◌≡◌, IfOk};
ghost use Rattle.uh_base.specs.Answers.{Reads, kind_of};
ghost use Rattle.guest_build.specs.Lines.{uncommented, said, statement_of, labelled, line_in, line_of};

use crate::directive::saying;
use crate::fault::{AsmKind, Fault};
use crate::operand::is_label;
use crate::statement::{Line, Statement};
use crate::text::{outside, trimmed, word_end};
use crate::word::word_of;
use std::alloc::{AllocError, Global};
use uh_base::Text;

/// What stands before a comment.
#[tactic(auto, unfolding(crate::specs::Lines::uncommented))]
fn uncommented(line: &str) -> &str
    ensures { result.now ≡ uncommented line.now }
{
    let end = outside(b'#', line.as_bytes());
    let (front, _) = line.split_at(end);
    front
}

/// What a word and its operands say.
#[tactic(auto, unfolding(crate::specs::Lines::said))]
fn said(alloc: Global, text: &str) -> Result<Statement, Fault>
    ensures { Reads kind_of (λ statement. statement) result (said text.now) }
{
    let end = word_end(text.as_bytes());
    let (word, operands) = text.split_at(end);
    let word = word_of(word)?;
    saying(alloc, word, trimmed(operands))
}

/// What stands behind a line's label.
#[tactic(auto, unfolding(crate::specs::Lines::statement_of))]
fn statement_of(alloc: Global, text: &str) -> Result<Statement, AllocError>
    ensures { IfOk result (λ statement. statement ≡ statement_of text.now) }
{
    if text.is_empty() {
        return Ok(Statement::Empty);
    }
    match said(alloc, text) {
        Ok(statement) => Ok(statement),
        Err(Fault::Kind(kind)) => Ok(Statement::Fault(kind)),
        Err(Fault::Memory) => Err(AllocError),
    }
}

/// A line with a label.
#[tactic(auto, unfolding(crate::specs::Lines::labelled))]
fn labelled(alloc: Global, name: &str, statement: Statement) -> Result<Line, AllocError>
    ensures { IfOk result (λ line. line ≡ labelled name.now statement) }
{
    if is_label(name) {
        let label = Text::new(alloc, name)?;
        return Ok(Line {
            label: Some(label),
            statement,
        });
    }
    Ok(Line {
        label: None,
        statement: Statement::Fault(AsmKind::Word),
    })
}

/// A line without its comment.
#[tactic(auto, unfolding(crate::specs::Lines::line_in))]
fn line_in(alloc: Global, text: &str) -> Result<Line, AllocError>
    ensures { IfOk result (λ line. line ≡ line_in text.now) }
{
    let at = outside(b':', text.as_bytes());
    if at < text.len() {
        let (name, _) = text.split_at(at);
        let (_, behind) = text.split_at(at + 1);
        let statement = statement_of(alloc, trimmed(behind))?;
        return labelled(alloc, trimmed(name), statement);
    }
    let statement = statement_of(alloc, trimmed(text))?;
    Ok(Line {
        label: None,
        statement,
    })
}

/// What a line says.
#[tactic(auto, unfolding(crate::specs::Lines::line_of))]
pub fn line_of(alloc: Global, line: &str) -> Result<Line, AllocError>
    ensures { IfOk result (λ said. said ≡ line_of line.now) }
{
    line_in(alloc, uncommented(line))
}
