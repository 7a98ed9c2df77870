//! The rows of the instruction table, and the index that finds those of a word.
#![tactic(auto)]

use crate::insn::Op;

/// Which fields an instruction has and where. (RISC-V unprivileged manual, version 20191213, 2.2 and 16.2)
#[derive(Clone, Copy, Drop)]
pub(crate) enum Format {
    /// R-type.
    R,
    /// I-type of a register and an immediate.
    I,
    /// I-type of an offset and a base: the loads and JALR.
    IOffset,
    /// I-type of a shift of 64 bits.
    IShift,
    /// I-type of a shift of 32 bits.
    IShiftWord,
    /// S-type.
    S,
    /// B-type.
    B,
    /// U-type.
    U,
    /// J-type.
    J,
    /// FENCE, whose fields are ignored.
    Fence,
    /// a whole word: ECALL, EBREAK, C.EBREAK.
    Whole,
    /// C.ADDI4SPN.
    Ciw,
    /// C.LW.
    ClLw,
    /// C.LD.
    ClLd,
    /// C.SW.
    CsSw,
    /// C.SD.
    CsSd,
    /// C.ADDI, C.ADDIW.
    Ci,
    /// C.LI.
    CiLi,
    /// C.ADDI16SP.
    CiSp,
    /// C.LUI.
    CiLui,
    /// C.SLLI.
    CiSlli,
    /// C.LWSP.
    CiLwsp,
    /// C.LDSP.
    CiLdsp,
    /// C.SWSP.
    CssSwsp,
    /// C.SDSP.
    CssSdsp,
    /// C.SRLI, C.SRAI.
    CbShift,
    /// C.ANDI.
    CbAndi,
    /// C.BEQZ, C.BNEZ.
    Cb,
    /// C.SUB, C.XOR, C.OR, C.AND, C.SUBW, C.ADDW.
    Ca,
    /// C.J.
    Cj,
    /// C.JR.
    CrJr,
    /// C.JALR.
    CrJalr,
    /// C.MV.
    CrMv,
    /// C.ADD.
    CrAdd,
}

/// A test of a word's bits: those of the mask have the value.
#[derive(Clone, Copy, Drop)]
pub(crate) struct Pattern {
    pub(crate) mask: u32,
    pub(crate) value: u32,
}

/// A row of the table: it holds where the bits of the mask have the value, and neither of the two patterns is met.
#[derive(Clone, Copy, Drop)]
pub(crate) struct Row {
    pub(crate) mask: u32,
    pub(crate) value: u32,
    pub(crate) but: Option<Pattern>,
    pub(crate) nor: Option<Pattern>,
    /// What the instruction is.
    pub(crate) op: Op,
    /// How it is read.
    pub(crate) format: Format,
    /// How many bytes it has.
    pub(crate) length: u8,
}

/// A pattern that a row excludes.
macro_rules! except {
    ($mask:expr, $value:expr) => {
        Some(Pattern {
            mask: $mask,
            value: $value,
        })
    };
}

macro_rules! row {
    ($mask:expr, $value:expr, $op:ident, $format:ident, $length:expr, $but:expr, $nor:expr) => {
        Row {
            mask: $mask,
            value: $value,
            but: $but,
            nor: $nor,
            op: Op::$op,
            format: Format::$format,
            length: $length,
        }
    };
}

/// A row of 32 bits: its mask and value, what it is and its format.
macro_rules! long {
    ($mask:expr, $value:expr, $op:ident, $format:ident) => {
        row!($mask, $value, $op, $format, 4, None, None)
    };
}

/// A row of 16 bits likewise, with what it excludes behind them.
macro_rules! half {
    ($mask:expr, $value:expr, $op:ident, $format:ident) => {
        row!($mask, $value, $op, $format, 2, None, None)
    };
    ($mask:expr, $value:expr, $op:ident, $format:ident, $but:expr) => {
        row!($mask, $value, $op, $format, 2, $but, None)
    };
    ($mask:expr, $value:expr, $op:ident, $format:ident, $but:expr, $nor:expr) => {
        row!($mask, $value, $op, $format, 2, $but, $nor)
    };
}

/// The rows of 32 bits, at the numbers of their names, then those of 16 bits.
pub(crate) static ROWS: [Row; 97] = [
    // Integer register-immediate instructions of U-type (2.4)
    long!(0x7f, 0x37, Lui, U),
    long!(0x7f, 0x17, Auipc, U),
    // Unconditional jumps (2.5)
    long!(0x7f, 0x6f, Jal, J),
    long!(0x707f, 0x67, Jalr, IOffset),
    // Conditional branches (2.5)
    long!(0x707f, 0x63, Beq, B),
    long!(0x707f, 0x1063, Bne, B),
    long!(0x707f, 0x4063, Blt, B),
    long!(0x707f, 0x5063, Bge, B),
    long!(0x707f, 0x6063, Bltu, B),
    long!(0x707f, 0x7063, Bgeu, B),
    // Loads (2.6 and 5.3)
    long!(0x707f, 0x3, Lb, IOffset),
    long!(0x707f, 0x1003, Lh, IOffset),
    long!(0x707f, 0x2003, Lw, IOffset),
    long!(0x707f, 0x3003, Ld, IOffset),
    long!(0x707f, 0x4003, Lbu, IOffset),
    long!(0x707f, 0x5003, Lhu, IOffset),
    long!(0x707f, 0x6003, Lwu, IOffset),
    // Stores (2.6 and 5.3)
    long!(0x707f, 0x23, Sb, S),
    long!(0x707f, 0x1023, Sh, S),
    long!(0x707f, 0x2023, Sw, S),
    long!(0x707f, 0x3023, Sd, S),
    // Integer register-immediate instructions (2.4 and 5.2)
    long!(0x707f, 0x13, Addi, I),
    long!(0xfc00707f, 0x1013, Slli, IShift),
    long!(0x707f, 0x2013, Slti, I),
    long!(0x707f, 0x3013, Sltiu, I),
    long!(0x707f, 0x4013, Xori, I),
    long!(0xfc00707f, 0x5013, Srli, IShift),
    long!(0xfc00707f, 0x40005013, Srai, IShift),
    long!(0x707f, 0x6013, Ori, I),
    long!(0x707f, 0x7013, Andi, I),
    // The same on 32 bits (5.2)
    long!(0x707f, 0x1b, Addiw, I),
    long!(0xfe00707f, 0x101b, Slliw, IShiftWord),
    long!(0xfe00707f, 0x501b, Srliw, IShiftWord),
    long!(0xfe00707f, 0x4000501b, Sraiw, IShiftWord),
    // Integer register-register instructions (2.4); those with funct7 1 multiply and divide (7.1 and 7.2)
    long!(0xfe00707f, 0x33, Add, R),
    long!(0xfe00707f, 0x40000033, Sub, R),
    long!(0xfe00707f, 0x2000033, Mul, R),
    long!(0xfe00707f, 0x1033, Sll, R),
    long!(0xfe00707f, 0x2001033, Mulh, R),
    long!(0xfe00707f, 0x2033, Slt, R),
    long!(0xfe00707f, 0x2002033, Mulhsu, R),
    long!(0xfe00707f, 0x3033, Sltu, R),
    long!(0xfe00707f, 0x2003033, Mulhu, R),
    long!(0xfe00707f, 0x4033, Xor, R),
    long!(0xfe00707f, 0x2004033, Div, R),
    long!(0xfe00707f, 0x5033, Srl, R),
    long!(0xfe00707f, 0x40005033, Sra, R),
    long!(0xfe00707f, 0x2005033, Divu, R),
    long!(0xfe00707f, 0x6033, Or, R),
    long!(0xfe00707f, 0x2006033, Rem, R),
    long!(0xfe00707f, 0x7033, And, R),
    long!(0xfe00707f, 0x2007033, Remu, R),
    // The same on 32 bits (5.2, 7.1 and 7.2)
    long!(0xfe00707f, 0x3b, Addw, R),
    long!(0xfe00707f, 0x4000003b, Subw, R),
    long!(0xfe00707f, 0x200003b, Mulw, R),
    long!(0xfe00707f, 0x103b, Sllw, R),
    long!(0xfe00707f, 0x200403b, Divw, R),
    long!(0xfe00707f, 0x503b, Srlw, R),
    long!(0xfe00707f, 0x4000503b, Sraw, R),
    long!(0xfe00707f, 0x200503b, Divuw, R),
    long!(0xfe00707f, 0x200603b, Remw, R),
    long!(0xfe00707f, 0x200703b, Remuw, R),
    // Memory ordering, environment calls and breakpoints (2.7 and 2.8)
    long!(0x707f, 0xf, Fence, Fence),
    long!(0xffffffff, 0x73, Ecall, Whole),
    long!(0xffffffff, 0x100073, Ebreak, Whole),
    // Quadrant 0 (table 16.5): C.ADDI4SPN, C.LW, C.LD, C.SW, C.SD
    half!(0xe003, 0x0, Addi, Ciw, except!(0x1fe0, 0x0)),
    half!(0xe003, 0x4000, Lw, ClLw),
    half!(0xe003, 0x6000, Ld, ClLd),
    half!(0xe003, 0xc000, Sw, CsSw),
    half!(0xe003, 0xe000, Sd, CsSd),
    // Quadrant 1 (table 16.6): C.NOP and C.ADDI, C.ADDIW, C.LI, C.ADDI16SP, C.LUI
    half!(0xe003, 0x1, Addi, Ci),
    half!(0xe003, 0x2001, Addiw, Ci, except!(0xf80, 0x0)),
    half!(0xe003, 0x4001, Addi, CiLi),
    half!(0xef83, 0x6101, Addi, CiSp, except!(0x107c, 0x0)),
    half!(
        0xe003,
        0x6001,
        Lui,
        CiLui,
        except!(0xf80, 0x100),
        except!(0x107c, 0x0)
    ),
    // C.SRLI, C.SRAI, C.ANDI, C.SUB, C.XOR, C.OR, C.AND, C.SUBW, C.ADDW
    half!(0xec03, 0x8001, Srli, CbShift),
    half!(0xec03, 0x8401, Srai, CbShift),
    half!(0xec03, 0x8801, Andi, CbAndi),
    half!(0xfc63, 0x8c01, Sub, Ca),
    half!(0xfc63, 0x8c21, Xor, Ca),
    half!(0xfc63, 0x8c41, Or, Ca),
    half!(0xfc63, 0x8c61, And, Ca),
    half!(0xfc63, 0x9c01, Subw, Ca),
    half!(0xfc63, 0x9c21, Addw, Ca),
    // C.J, C.BEQZ, C.BNEZ
    half!(0xe003, 0xa001, Jal, Cj),
    half!(0xe003, 0xc001, Beq, Cb),
    half!(0xe003, 0xe001, Bne, Cb),
    // Quadrant 2 (table 16.7): C.SLLI, C.LWSP, C.LDSP
    half!(0xe003, 0x2, Slli, CiSlli),
    half!(0xe003, 0x4002, Lw, CiLwsp, except!(0xf80, 0x0)),
    half!(0xe003, 0x6002, Ld, CiLdsp, except!(0xf80, 0x0)),
    // C.JR, C.MV, C.EBREAK, C.JALR, C.ADD
    half!(0xf07f, 0x8002, Jalr, CrJr, except!(0xf80, 0x0)),
    half!(0xf003, 0x8002, Add, CrMv, except!(0x7c, 0x0)),
    half!(0xffff, 0x9002, Ebreak, Whole),
    half!(0xf07f, 0x9002, Jalr, CrJalr, except!(0xf80, 0x0)),
    half!(0xf003, 0x9002, Add, CrAdd, except!(0x7c, 0x0)),
    // C.SWSP, C.SDSP
    half!(0xe003, 0xc002, Sw, CssSwsp),
    half!(0xe003, 0xe002, Sd, CssSdsp),
];

/// The first row of each slot. A slot of words of 32 bits has the number (bits 6 to 2) * 8 + (bits 14 to 12), and one of
/// words of 16 bits 256 + (bits 1 and 0) * 8 + (bits 15 to 13).
pub(crate) static FROM: [u8; 280] = [
    10, 11, 12, 13, 14, 15, 16, 0, 0, 0, 0, 0, 0, 0, 0, 0, 0, 0, 0, 0, 0, 0, 0, 0, 62, 0, 0, 0, 0,
    0, 0, 0, 21, 22, 23, 24, 25, 26, 28, 29, 1, 1, 1, 1, 1, 1, 1, 1, 30, 31, 0, 0, 0, 32, 0, 0, 0,
    0, 0, 0, 0, 0, 0, 0, 17, 18, 19, 20, 0, 0, 0, 0, 0, 0, 0, 0, 0, 0, 0, 0, 0, 0, 0, 0, 0, 0, 0,
    0, 0, 0, 0, 0, 0, 0, 0, 0, 34, 37, 39, 41, 43, 45, 48, 50, 0, 0, 0, 0, 0, 0, 0, 0, 52, 55, 0,
    0, 56, 57, 60, 61, 0, 0, 0, 0, 0, 0, 0, 0, 0, 0, 0, 0, 0, 0, 0, 0, 0, 0, 0, 0, 0, 0, 0, 0, 0,
    0, 0, 0, 0, 0, 0, 0, 0, 0, 0, 0, 0, 0, 0, 0, 0, 0, 0, 0, 0, 0, 0, 0, 0, 0, 0, 0, 0, 0, 0, 0, 0,
    0, 0, 0, 0, 0, 0, 0, 0, 0, 0, 0, 0, 0, 0, 0, 4, 5, 0, 0, 6, 7, 8, 9, 3, 0, 0, 0, 0, 0, 0, 0, 0,
    0, 0, 0, 0, 0, 0, 0, 2, 2, 2, 2, 2, 2, 2, 2, 63, 0, 0, 0, 0, 0, 0, 0, 0, 0, 0, 0, 0, 0, 0, 0,
    0, 0, 0, 0, 0, 0, 0, 0, 0, 0, 0, 0, 0, 0, 0, 0, 65, 0, 66, 67, 0, 0, 68, 69, 70, 71, 72, 73,
    75, 84, 85, 86, 87, 0, 88, 89, 90, 0, 95, 96,
];

/// The end of each slot's rows.
pub(crate) static TO: [u8; 280] = [
    11, 12, 13, 14, 15, 16, 17, 0, 0, 0, 0, 0, 0, 0, 0, 0, 0, 0, 0, 0, 0, 0, 0, 0, 63, 0, 0, 0, 0,
    0, 0, 0, 22, 23, 24, 25, 26, 28, 29, 30, 2, 2, 2, 2, 2, 2, 2, 2, 31, 32, 0, 0, 0, 34, 0, 0, 0,
    0, 0, 0, 0, 0, 0, 0, 18, 19, 20, 21, 0, 0, 0, 0, 0, 0, 0, 0, 0, 0, 0, 0, 0, 0, 0, 0, 0, 0, 0,
    0, 0, 0, 0, 0, 0, 0, 0, 0, 37, 39, 41, 43, 45, 48, 50, 52, 1, 1, 1, 1, 1, 1, 1, 1, 55, 56, 0,
    0, 57, 60, 61, 62, 0, 0, 0, 0, 0, 0, 0, 0, 0, 0, 0, 0, 0, 0, 0, 0, 0, 0, 0, 0, 0, 0, 0, 0, 0,
    0, 0, 0, 0, 0, 0, 0, 0, 0, 0, 0, 0, 0, 0, 0, 0, 0, 0, 0, 0, 0, 0, 0, 0, 0, 0, 0, 0, 0, 0, 0, 0,
    0, 0, 0, 0, 0, 0, 0, 0, 0, 0, 0, 0, 0, 0, 0, 5, 6, 0, 0, 7, 8, 9, 10, 4, 0, 0, 0, 0, 0, 0, 0,
    0, 0, 0, 0, 0, 0, 0, 0, 3, 3, 3, 3, 3, 3, 3, 3, 65, 0, 0, 0, 0, 0, 0, 0, 0, 0, 0, 0, 0, 0, 0,
    0, 0, 0, 0, 0, 0, 0, 0, 0, 0, 0, 0, 0, 0, 0, 0, 0, 66, 0, 67, 68, 0, 0, 69, 70, 71, 72, 73, 75,
    84, 85, 86, 87, 88, 0, 89, 90, 95, 0, 96, 97,
];
