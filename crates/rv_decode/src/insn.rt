//! Instructions.
#![tactic(auto)]

/// The name of an instruction of RV64IM, in the order of the instruction table. (RISC-V unprivileged manual, version
/// 20191213, table 24.2)
#[derive(Clone, Copy, Debug, PartialEq, Eq, Drop)]
pub enum Op {
    Lui,
    Auipc,
    Jal,
    Jalr,
    Beq,
    Bne,
    Blt,
    Bge,
    Bltu,
    Bgeu,
    Lb,
    Lh,
    Lw,
    Ld,
    Lbu,
    Lhu,
    Lwu,
    Sb,
    Sh,
    Sw,
    Sd,
    Addi,
    Slli,
    Slti,
    Sltiu,
    Xori,
    Srli,
    Srai,
    Ori,
    Andi,
    Addiw,
    Slliw,
    Srliw,
    Sraiw,
    Add,
    Sub,
    Mul,
    Sll,
    Mulh,
    Slt,
    Mulhsu,
    Sltu,
    Mulhu,
    Xor,
    Div,
    Srl,
    Sra,
    Divu,
    Or,
    Rem,
    And,
    Remu,
    Addw,
    Subw,
    Mulw,
    Sllw,
    Divw,
    Srlw,
    Sraw,
    Divuw,
    Remw,
    Remuw,
    Fence,
    Ecall,
    Ebreak,
}

/// An instruction: its name, its registers by their numbers, and its immediate with its sign. A field that the name
/// doesn't use is 0.
///
/// The immediate is the manual's: that of LUI and AUIPC is a multiple of 4,096, that of a branch or a jump the
/// distance in bytes, and that of a shift the shift amount. (RISC-V unprivileged manual, version 20191213, 2.3)
#[derive(Clone, Copy, Debug, PartialEq, Eq, Drop)]
pub struct Insn {
    pub op: Op,
    pub rd: u8,
    pub rs1: u8,
    pub rs2: u8,
    pub imm: i64,
}
