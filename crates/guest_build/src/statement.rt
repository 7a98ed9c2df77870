//! What a line says.

use crate::fault::AsmKind;
use crate::number::Number;
use rv_decode::Insn;
use uh_base::{Guid, Text};

/// What an instruction's immediate is made of.
#[derive(Debug, Drop)]
pub enum Operand {
    /// The number itself.
    Number(Number),
    /// A field of 20 bits, which stands for that many times 4,096.
    Upper(Number),
    /// The distance to a label.
    Distance(Text),
    /// The upper 20 bits of a label's address, as `%lo` needs them.
    High(Text),
    /// The low 12 bits of a label's address, as a signed number.
    Low(Text),
}

/// What a line says behind its label.
#[derive(Debug, Drop)]
pub enum Statement {
    /// Nothing.
    Empty,
    /// What is wrong with it.
    Fault(AsmKind),
    /// What follows stands in `.text`.
    Text,
    /// What follows stands in `.data`.
    Data,
    /// The address that the image is linked for.
    Base(Number),
    Subsystem(Number),
    /// The alignment of sections.
    Alignment(Number),
    /// A number of so many bytes.
    Number { width: u8, value: Number },
    /// The address of a label, in 8 bytes.
    Address(Text),
    /// So many zero bytes.
    Zero(Number),
    /// A text in 16-bit units, with a final 0.
    Ascii16(Text),
    Guid(Guid),
    /// An instruction whose immediate is still 0, and what makes its immediate.
    Instruction { insn: Insn, operand: Operand },
    /// `li`.
    LoadImmediate { rd: u8, value: Number },
    /// `la`.
    LoadAddress { rd: u8, label: Text },
}

/// A line.
#[derive(Debug, Drop)]
pub struct Line {
    pub label: Option<Text>,
    pub statement: Statement,
}
