//! The words that a line may begin with.
ghost use Rattle.std.specs.Prelude.{◌≡◌, map};
ghost use Rattle.guest_build.specs.Words.{entry_in, word_of};

use crate::fault::AsmKind;
use rv_decode::Op;

/// Which operands an instruction has, in the manual's order.
#[derive(Clone, Copy, Debug, PartialEq, Eq)]
pub enum Shape {
    /// Three registers: `rd, rs1, rs2`.
    Registers,
    /// `rd, rs1` and a number of 12 bits, or `%lo(label)`.
    Immediate,
    /// `rd, rs1` and a shift amount.
    Shift,
    /// `rd, offset(rs1)`: loads and JALR.
    Offset,
    /// `rs2, offset(rs1)`: stores.
    Store,
    /// `rs1, rs2, label`.
    Branch,
    /// `rd` and a field of 20 bits.
    Upper,
    /// `rd` and a field of 20 bits, or `%hi(label)`.
    Lui,
    /// `rd, label`.
    Jump,
    /// No operands.
    Bare,
}

/// What a word stands for.
#[derive(Clone, Copy, Debug, PartialEq, Eq)]
pub enum Word {
    Instruction(Op, Shape),
    Li,
    La,
    Mv,
    Nop,
    Ret,
    J,
    Jr,
    Beqz,
    Bnez,
    Call,
    Text,
    Data,
    Base,
    Subsystem,
    Alignment,
    /// A number of 8 bytes, or the address of a label.
    Dword,
    /// A number of so many bytes.
    Number(u8),
    Zero,
    Ascii16,
    Guid,
}

/// All words.
static ENTRIES: [(&str, Word); 87] = [
    ("lui", Word::Instruction(Op::Lui, Shape::Lui)),
    ("auipc", Word::Instruction(Op::Auipc, Shape::Upper)),
    ("jal", Word::Instruction(Op::Jal, Shape::Jump)),
    ("jalr", Word::Instruction(Op::Jalr, Shape::Offset)),
    ("beq", Word::Instruction(Op::Beq, Shape::Branch)),
    ("bne", Word::Instruction(Op::Bne, Shape::Branch)),
    ("blt", Word::Instruction(Op::Blt, Shape::Branch)),
    ("bge", Word::Instruction(Op::Bge, Shape::Branch)),
    ("bltu", Word::Instruction(Op::Bltu, Shape::Branch)),
    ("bgeu", Word::Instruction(Op::Bgeu, Shape::Branch)),
    ("lb", Word::Instruction(Op::Lb, Shape::Offset)),
    ("lh", Word::Instruction(Op::Lh, Shape::Offset)),
    ("lw", Word::Instruction(Op::Lw, Shape::Offset)),
    ("ld", Word::Instruction(Op::Ld, Shape::Offset)),
    ("lbu", Word::Instruction(Op::Lbu, Shape::Offset)),
    ("lhu", Word::Instruction(Op::Lhu, Shape::Offset)),
    ("lwu", Word::Instruction(Op::Lwu, Shape::Offset)),
    ("sb", Word::Instruction(Op::Sb, Shape::Store)),
    ("sh", Word::Instruction(Op::Sh, Shape::Store)),
    ("sw", Word::Instruction(Op::Sw, Shape::Store)),
    ("sd", Word::Instruction(Op::Sd, Shape::Store)),
    ("addi", Word::Instruction(Op::Addi, Shape::Immediate)),
    ("slli", Word::Instruction(Op::Slli, Shape::Shift)),
    ("slti", Word::Instruction(Op::Slti, Shape::Immediate)),
    ("sltiu", Word::Instruction(Op::Sltiu, Shape::Immediate)),
    ("xori", Word::Instruction(Op::Xori, Shape::Immediate)),
    ("srli", Word::Instruction(Op::Srli, Shape::Shift)),
    ("srai", Word::Instruction(Op::Srai, Shape::Shift)),
    ("ori", Word::Instruction(Op::Ori, Shape::Immediate)),
    ("andi", Word::Instruction(Op::Andi, Shape::Immediate)),
    ("addiw", Word::Instruction(Op::Addiw, Shape::Immediate)),
    ("slliw", Word::Instruction(Op::Slliw, Shape::Shift)),
    ("srliw", Word::Instruction(Op::Srliw, Shape::Shift)),
    ("sraiw", Word::Instruction(Op::Sraiw, Shape::Shift)),
    ("add", Word::Instruction(Op::Add, Shape::Registers)),
    ("sub", Word::Instruction(Op::Sub, Shape::Registers)),
    ("mul", Word::Instruction(Op::Mul, Shape::Registers)),
    ("sll", Word::Instruction(Op::Sll, Shape::Registers)),
    ("mulh", Word::Instruction(Op::Mulh, Shape::Registers)),
    ("slt", Word::Instruction(Op::Slt, Shape::Registers)),
    ("mulhsu", Word::Instruction(Op::Mulhsu, Shape::Registers)),
    ("sltu", Word::Instruction(Op::Sltu, Shape::Registers)),
    ("mulhu", Word::Instruction(Op::Mulhu, Shape::Registers)),
    ("xor", Word::Instruction(Op::Xor, Shape::Registers)),
    ("div", Word::Instruction(Op::Div, Shape::Registers)),
    ("srl", Word::Instruction(Op::Srl, Shape::Registers)),
    ("sra", Word::Instruction(Op::Sra, Shape::Registers)),
    ("divu", Word::Instruction(Op::Divu, Shape::Registers)),
    ("or", Word::Instruction(Op::Or, Shape::Registers)),
    ("rem", Word::Instruction(Op::Rem, Shape::Registers)),
    ("and", Word::Instruction(Op::And, Shape::Registers)),
    ("remu", Word::Instruction(Op::Remu, Shape::Registers)),
    ("addw", Word::Instruction(Op::Addw, Shape::Registers)),
    ("subw", Word::Instruction(Op::Subw, Shape::Registers)),
    ("mulw", Word::Instruction(Op::Mulw, Shape::Registers)),
    ("sllw", Word::Instruction(Op::Sllw, Shape::Registers)),
    ("divw", Word::Instruction(Op::Divw, Shape::Registers)),
    ("srlw", Word::Instruction(Op::Srlw, Shape::Registers)),
    ("sraw", Word::Instruction(Op::Sraw, Shape::Registers)),
    ("divuw", Word::Instruction(Op::Divuw, Shape::Registers)),
    ("remw", Word::Instruction(Op::Remw, Shape::Registers)),
    ("remuw", Word::Instruction(Op::Remuw, Shape::Registers)),
    ("fence", Word::Instruction(Op::Fence, Shape::Bare)),
    ("ecall", Word::Instruction(Op::Ecall, Shape::Bare)),
    ("ebreak", Word::Instruction(Op::Ebreak, Shape::Bare)),
    ("li", Word::Li),
    ("la", Word::La),
    ("mv", Word::Mv),
    ("nop", Word::Nop),
    ("ret", Word::Ret),
    ("j", Word::J),
    ("jr", Word::Jr),
    ("beqz", Word::Beqz),
    ("bnez", Word::Bnez),
    ("call", Word::Call),
    (".text", Word::Text),
    (".data", Word::Data),
    (".base", Word::Base),
    (".subsystem", Word::Subsystem),
    (".alignment", Word::Alignment),
    (".dword", Word::Dword),
    (".word", Word::Number(4)),
    (".half", Word::Number(2)),
    (".byte", Word::Number(1)),
    (".zero", Word::Zero),
    (".ascii16", Word::Ascii16),
    (".guid", Word::Guid),
];

/// What a text stands for in a list of words.
fn entry_in(entries: &[(&str, Word)], text: &str) -> Result<Word, AsmKind>
    ensures { result ≡ entry_in (map (λ entry. (entry.0.now, entry.1)) entries.now) text.now }
{
    for entry in entries {
        if entry.0 == text {
            return Ok(entry.1);
        }
    }
    Err(AsmKind::Word)
}

/// What a word stands for; `Word` where there is none such.
pub fn word_of(text: &str) -> Result<Word, AsmKind>
    ensures { result ≡ word_of text.now }
{
    entry_in(&ENTRIES, text)
}
