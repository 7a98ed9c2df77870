//! Vectors from outside: GNU as 2.40 for riscv64, with -march=rv64im for the words of 32 bits and rv64imc for those of
//! 16. The operands and the texts are the lines that were given to it; a 16-bit row has the word and the text of the
//! instruction that the manual expands it to.
use rv_decode::{Insn, KnownWords, Op, decode, encode};
use std::test::Fail;

/// A word, its name, rd, rs1, rs2, its immediate, and its text.
static WORDS: [(u32, Op, u8, u8, u8, i64, &str); 91] = [
    (0x00000d37, Op::Lui, 26, 0, 0, 0, "lui s10, 0"),
    (0xfffff337, Op::Lui, 6, 0, 0, -4096, "lui t1, 1048575"),
    (0x800002b7, Op::Lui, 5, 0, 0, -2147483648, "lui t0, 524288"),
    (0x00000997, Op::Auipc, 19, 0, 0, 0, "auipc s3, 0"),
    (0xfffff597, Op::Auipc, 11, 0, 0, -4096, "auipc a1, 1048575"),
    (
        0x80000497,
        Op::Auipc,
        9,
        0,
        0,
        -2147483648,
        "auipc s1, 524288",
    ),
    (0x8000086f, Op::Jal, 16, 0, 0, -1048576, "jal a6, -1048576"),
    (0x7ffff06f, Op::Jal, 0, 0, 0, 1048574, "jal zero, 1048574"),
    (0xfffffe6f, Op::Jal, 28, 0, 0, -2, "jal t3, -2"),
    (0x00100fef, Op::Jal, 31, 0, 0, 2048, "jal t6, 2048"),
    (0x800b8503, Op::Lb, 10, 23, 0, -2048, "lb a0, -2048(s7)"),
    (0x7fff1403, Op::Lh, 8, 30, 0, 2047, "lh s0, 2047(t5)"),
    (0xfffd2183, Op::Lw, 3, 26, 0, -1, "lw gp, -1(s10)"),
    (0x8002b303, Op::Ld, 6, 5, 0, -2048, "ld t1, -2048(t0)"),
    (0x7ff5b983, Op::Ld, 19, 11, 0, 2047, "ld s3, 2047(a1)"),
    (0xfff83483, Op::Ld, 9, 16, 0, -1, "ld s1, -1(a6)"),
    (0x800e4003, Op::Lbu, 0, 28, 0, -2048, "lbu zero, -2048(t3)"),
    (0x7ff55f83, Op::Lhu, 31, 10, 0, 2047, "lhu t6, 2047(a0)"),
    (0xfff46b83, Op::Lwu, 23, 8, 0, -1, "lwu s7, -1(s0)"),
    (0x80018f67, Op::Jalr, 30, 3, 0, -2048, "jalr t5, -2048(gp)"),
    (0x7ff30d67, Op::Jalr, 26, 6, 0, 2047, "jalr s10, 2047(t1)"),
    (0xfff982e7, Op::Jalr, 5, 19, 0, -1, "jalr t0, -1(s3)"),
    (0x80958063, Op::Beq, 0, 11, 9, -4096, "beq a1, s1, -4096"),
    (0x7e080fe3, Op::Beq, 0, 16, 0, 4094, "beq a6, zero, 4094"),
    (0xfffe0fe3, Op::Beq, 0, 28, 31, -2, "beq t3, t6, -2"),
    (0x7f751fe3, Op::Bne, 0, 10, 23, 4094, "bne a0, s7, 4094"),
    (0xffe44fe3, Op::Blt, 0, 8, 30, -2, "blt s0, t5, -2"),
    (0x01a1d0e3, Op::Bge, 0, 3, 26, 2048, "bge gp, s10, 2048"),
    (0x80536063, Op::Bltu, 0, 6, 5, -4096, "bltu t1, t0, -4096"),
    (0x80b9f063, Op::Bgeu, 0, 19, 11, -4096, "bgeu s3, a1, -4096"),
    (0x7f04ffe3, Op::Bgeu, 0, 9, 16, 4094, "bgeu s1, a6, 4094"),
    (0xffc07fe3, Op::Bgeu, 0, 0, 28, -2, "bgeu zero, t3, -2"),
    (0x01f50fa3, Op::Sb, 0, 10, 31, 31, "sb t6, 31(a0)"),
    (0x7f741fa3, Op::Sh, 0, 8, 23, 2047, "sh s7, 2047(s0)"),
    (0xffe1afa3, Op::Sw, 0, 3, 30, -1, "sw t5, -1(gp)"),
    (0x81a33023, Op::Sd, 0, 6, 26, -2048, "sd s10, -2048(t1)"),
    (0x7e59bfa3, Op::Sd, 0, 19, 5, 2047, "sd t0, 2047(s3)"),
    (0xfeb4bfa3, Op::Sd, 0, 9, 11, -1, "sd a1, -1(s1)"),
    (
        0x80000813,
        Op::Addi,
        16,
        0,
        0,
        -2048,
        "addi a6, zero, -2048",
    ),
    (0x7fff8e13, Op::Addi, 28, 31, 0, 2047, "addi t3, t6, 2047"),
    (0xfffb8513, Op::Addi, 10, 23, 0, -1, "addi a0, s7, -1"),
    (0x7fff2413, Op::Slti, 8, 30, 0, 2047, "slti s0, t5, 2047"),
    (0xfffd3193, Op::Sltiu, 3, 26, 0, -1, "sltiu gp, s10, -1"),
    (0x5552c313, Op::Xori, 6, 5, 0, 1365, "xori t1, t0, 1365"),
    (0x8005e993, Op::Ori, 19, 11, 0, -2048, "ori s3, a1, -2048"),
    (0x7ff87493, Op::Andi, 9, 16, 0, 2047, "andi s1, a6, 2047"),
    (
        0x800e001b,
        Op::Addiw,
        0,
        28,
        0,
        -2048,
        "addiw zero, t3, -2048",
    ),
    (0x7ff50f9b, Op::Addiw, 31, 10, 0, 2047, "addiw t6, a0, 2047"),
    (0xfff40b9b, Op::Addiw, 23, 8, 0, -1, "addiw s7, s0, -1"),
    (0x00019f13, Op::Slli, 30, 3, 0, 0, "slli t5, gp, 0"),
    (0x03f31d13, Op::Slli, 26, 6, 0, 63, "slli s10, t1, 63"),
    (0x0209d293, Op::Srli, 5, 19, 0, 32, "srli t0, s3, 32"),
    (0x4004d593, Op::Srai, 11, 9, 0, 0, "srai a1, s1, 0"),
    (0x43f05813, Op::Srai, 16, 0, 0, 63, "srai a6, zero, 63"),
    (0x000f9e1b, Op::Slliw, 28, 31, 0, 0, "slliw t3, t6, 0"),
    (0x01fb951b, Op::Slliw, 10, 23, 0, 31, "slliw a0, s7, 31"),
    (0x010f541b, Op::Srliw, 8, 30, 0, 16, "srliw s0, t5, 16"),
    (0x400d519b, Op::Sraiw, 3, 26, 0, 0, "sraiw gp, s10, 0"),
    (0x41f2d31b, Op::Sraiw, 6, 5, 0, 31, "sraiw t1, t0, 31"),
    (0x009589b3, Op::Add, 19, 11, 9, 0, "add s3, a1, s1"),
    (0x41c00833, Op::Sub, 16, 0, 28, 0, "sub a6, zero, t3"),
    (0x03750fb3, Op::Mul, 31, 10, 23, 0, "mul t6, a0, s7"),
    (0x003f1433, Op::Sll, 8, 30, 3, 0, "sll s0, t5, gp"),
    (0x02531d33, Op::Mulh, 26, 6, 5, 0, "mulh s10, t1, t0"),
    (0x0095a9b3, Op::Slt, 19, 11, 9, 0, "slt s3, a1, s1"),
    (0x03c02833, Op::Mulhsu, 16, 0, 28, 0, "mulhsu a6, zero, t3"),
    (0x01753fb3, Op::Sltu, 31, 10, 23, 0, "sltu t6, a0, s7"),
    (0x023f3433, Op::Mulhu, 8, 30, 3, 0, "mulhu s0, t5, gp"),
    (0x00534d33, Op::Xor, 26, 6, 5, 0, "xor s10, t1, t0"),
    (0x0295c9b3, Op::Div, 19, 11, 9, 0, "div s3, a1, s1"),
    (0x01c05833, Op::Srl, 16, 0, 28, 0, "srl a6, zero, t3"),
    (0x41755fb3, Op::Sra, 31, 10, 23, 0, "sra t6, a0, s7"),
    (0x023f5433, Op::Divu, 8, 30, 3, 0, "divu s0, t5, gp"),
    (0x00536d33, Op::Or, 26, 6, 5, 0, "or s10, t1, t0"),
    (0x0295e9b3, Op::Rem, 19, 11, 9, 0, "rem s3, a1, s1"),
    (0x01c07833, Op::And, 16, 0, 28, 0, "and a6, zero, t3"),
    (0x03757fb3, Op::Remu, 31, 10, 23, 0, "remu t6, a0, s7"),
    (0x003f043b, Op::Addw, 8, 30, 3, 0, "addw s0, t5, gp"),
    (0x40530d3b, Op::Subw, 26, 6, 5, 0, "subw s10, t1, t0"),
    (0x029589bb, Op::Mulw, 19, 11, 9, 0, "mulw s3, a1, s1"),
    (0x01c0183b, Op::Sllw, 16, 0, 28, 0, "sllw a6, zero, t3"),
    (0x03754fbb, Op::Divw, 31, 10, 23, 0, "divw t6, a0, s7"),
    (0x003f543b, Op::Srlw, 8, 30, 3, 0, "srlw s0, t5, gp"),
    (0x40535d3b, Op::Sraw, 26, 6, 5, 0, "sraw s10, t1, t0"),
    (0x0295d9bb, Op::Divuw, 19, 11, 9, 0, "divuw s3, a1, s1"),
    (0x03c0683b, Op::Remw, 16, 0, 28, 0, "remw a6, zero, t3"),
    (0x03757fbb, Op::Remuw, 31, 10, 23, 0, "remuw t6, a0, s7"),
    (0x0ff0000f, Op::Fence, 0, 0, 0, 0, "fence"),
    (0x00000073, Op::Ecall, 0, 0, 0, 0, "ecall"),
    (0x00100073, Op::Ebreak, 0, 0, 0, 0, "ebreak"),
    (0x00500513, Op::Addi, 10, 0, 0, 5, "addi a0, zero, 5"),
];

/// A half, the word of its expansion, and that word's text.
static HALVES: [(u16, u32, &str); 104] = [
    (0x0040, 0x00410413, "addi s0, sp, 4"),
    (0x1ffc, 0x3fc10793, "addi a5, sp, 1020"),
    (0x0028, 0x00810513, "addi a0, sp, 8"),
    (0x0088, 0x04010513, "addi a0, sp, 64"),
    (0x0808, 0x01010513, "addi a0, sp, 16"),
    (0x4380, 0x0007a403, "lw s0, 0(a5)"),
    (0x5c7c, 0x07c42783, "lw a5, 124(s0)"),
    (0x41c8, 0x0045a503, "lw a0, 4(a1)"),
    (0x41a8, 0x0405a503, "lw a0, 64(a1)"),
    (0x6304, 0x00073483, "ld s1, 0(a4)"),
    (0x7cf8, 0x0f84b703, "ld a4, 248(s1)"),
    (0x61a8, 0x0405b503, "ld a0, 64(a1)"),
    (0x6588, 0x0085b503, "ld a0, 8(a1)"),
    (0xc380, 0x0087a023, "sw s0, 0(a5)"),
    (0xdc7c, 0x06f42e23, "sw a5, 124(s0)"),
    (0xc2d0, 0x00c6a223, "sw a2, 4(a3)"),
    (0xe304, 0x00973023, "sd s1, 0(a4)"),
    (0xfcf8, 0x0ee4bc23, "sd a4, 248(s1)"),
    (0x0001, 0x00000013, "addi zero, zero, 0"),
    (0x1f81, 0xfe0f8f93, "addi t6, t6, -32"),
    (0x00fd, 0x01f08093, "addi ra, ra, 31"),
    (0x157d, 0xfff50513, "addi a0, a0, -1"),
    (0x3f81, 0xfe0f8f9b, "addiw t6, t6, -32"),
    (0x20fd, 0x01f0809b, "addiw ra, ra, 31"),
    (0x2501, 0x0005051b, "addiw a0, a0, 0"),
    (0x5f81, 0xfe000f93, "addi t6, zero, -32"),
    (0x40fd, 0x01f00093, "addi ra, zero, 31"),
    (0x557d, 0xfff00513, "addi a0, zero, -1"),
    (0x7101, 0xe0010113, "addi sp, sp, -512"),
    (0x617d, 0x1f010113, "addi sp, sp, 496"),
    (0x717d, 0xff010113, "addi sp, sp, -16"),
    (0x6141, 0x01010113, "addi sp, sp, 16"),
    (0x6121, 0x04010113, "addi sp, sp, 64"),
    (0x6109, 0x08010113, "addi sp, sp, 128"),
    (0x6105, 0x02010113, "addi sp, sp, 32"),
    (0x6ffd, 0x0001ffb7, "lui t6, 31"),
    (0x7081, 0xfffe00b7, "lui ra, 1048544"),
    (0x757d, 0xfffff537, "lui a0, 1048575"),
    (0x6185, 0x000011b7, "lui gp, 1"),
    (0x8005, 0x00145413, "srli s0, s0, 1"),
    (0x93fd, 0x03f7d793, "srli a5, a5, 63"),
    (0x9481, 0x4204d493, "srai s1, s1, 32"),
    (0x877d, 0x41f75713, "srai a4, a4, 31"),
    (0x9801, 0xfe047413, "andi s0, s0, -32"),
    (0x8bfd, 0x01f7f793, "andi a5, a5, 31"),
    (0x8c1d, 0x40f40433, "sub s0, s0, a5"),
    (0x8cb9, 0x00e4c4b3, "xor s1, s1, a4"),
    (0x8d55, 0x00d56533, "or a0, a0, a3"),
    (0x8df1, 0x00c5f5b3, "and a1, a1, a2"),
    (0x9e05, 0x4096063b, "subw a2, a2, s1"),
    (0x9ea1, 0x008686bb, "addw a3, a3, s0"),
    (0xb001, 0x801ff06f, "jal zero, -2048"),
    (0xaffd, 0x7fe0006f, "jal zero, 2046"),
    (0xbffd, 0xfffff06f, "jal zero, -2"),
    (0xa801, 0x0100006f, "jal zero, 16"),
    (0xa005, 0x0200006f, "jal zero, 32"),
    (0xa081, 0x0400006f, "jal zero, 64"),
    (0xa041, 0x0800006f, "jal zero, 128"),
    (0xa201, 0x1000006f, "jal zero, 256"),
    (0xa101, 0x4000006f, "jal zero, 1024"),
    (0xa009, 0x0020006f, "jal zero, 2"),
    (0xd001, 0xf00400e3, "beq s0, zero, -256"),
    (0xcffd, 0x0e078f63, "beq a5, zero, 254"),
    (0xc105, 0x02050063, "beq a0, zero, 32"),
    (0xc121, 0x04050063, "beq a0, zero, 64"),
    (0xc501, 0x00050463, "beq a0, zero, 8"),
    (0xfcfd, 0xfe049fe3, "bne s1, zero, -2"),
    (0xe341, 0x08071063, "bne a4, zero, 128"),
    (0x0086, 0x00109093, "slli ra, ra, 1"),
    (0x1ffe, 0x03ff9f93, "slli t6, t6, 63"),
    (0x1502, 0x02051513, "slli a0, a0, 32"),
    (0x4082, 0x00012083, "lw ra, 0(sp)"),
    (0x5ffe, 0x0fc12f83, "lw t6, 252(sp)"),
    (0x4506, 0x04012503, "lw a0, 64(sp)"),
    (0x5502, 0x02012503, "lw a0, 32(sp)"),
    (0x6082, 0x00013083, "ld ra, 0(sp)"),
    (0x7ffe, 0x1f813f83, "ld t6, 504(sp)"),
    (0x6506, 0x04013503, "ld a0, 64(sp)"),
    (0x7502, 0x02013503, "ld a0, 32(sp)"),
    (0x8082, 0x00008067, "jalr zero, 0(ra)"),
    (0x8f82, 0x000f8067, "jalr zero, 0(t6)"),
    (0x80fe, 0x01f000b3, "add ra, zero, t6"),
    (0x8f86, 0x00100fb3, "add t6, zero, ra"),
    (0x9002, 0x00100073, "ebreak"),
    (0x9082, 0x000080e7, "jalr ra, 0(ra)"),
    (0x9f82, 0x000f80e7, "jalr ra, 0(t6)"),
    (0x90fe, 0x01f080b3, "add ra, ra, t6"),
    (0x9f86, 0x001f8fb3, "add t6, t6, ra"),
    (0xc002, 0x00012023, "sw zero, 0(sp)"),
    (0xdffe, 0x0ff12e23, "sw t6, 252(sp)"),
    (0xc0aa, 0x04a12023, "sw a0, 64(sp)"),
    (0xe002, 0x00013023, "sd zero, 0(sp)"),
    (0xfffe, 0x1ff13c23, "sd t6, 504(sp)"),
    (0xe0aa, 0x04a13023, "sd a0, 64(sp)"),
    (0x4005, 0x00100013, "addi zero, zero, 1"),
    (0x6005, 0x00001037, "lui zero, 1"),
    (0x802a, 0x00a00033, "add zero, zero, a0"),
    (0x902a, 0x00a00033, "add zero, zero, a0"),
    (0x0016, 0x00501013, "slli zero, zero, 5"),
    (0x0501, 0x00050513, "addi a0, a0, 0"),
    (0x001d, 0x00700013, "addi zero, zero, 7"),
    (0x0502, 0x00051513, "slli a0, a0, 0"),
    (0x8101, 0x00055513, "srli a0, a0, 0"),
    (0x8501, 0x40055513, "srai a0, a0, 0"),
];

/// Halves of 16 bits that are reserved, or of the extensions F and D.
static REFUSED_HALVES: [u16; 14] = [
    0x0000, 0x2001, 0x6101, 0x6501, 0x4002, 0x6002, 0x8002, 0x9c41, 0x9c61, 0x8000, 0x2108, 0xa108,
    0x2502, 0xa02a,
];

/// Words of the extensions Zifencei, Zicsr, A, F and D, of privileged instructions, with reserved fields, and longer ones.
static REFUSED_WORDS: [u32; 32] = [
    0x0000100f, 0x30059573, 0x3005a573, 0x30200073, 0x10200073, 0x10500073, 0x12000073, 0x1005a52f,
    0x00b6352f, 0x00052507, 0x00a53027, 0x02c5f553, 0xd2257553, 0x000000f3, 0x00200073, 0x0000a063,
    0x00007003, 0x00004023, 0x00001067, 0x04000033, 0x40001033, 0x04001013, 0x80005013, 0x0200101b,
    0x0200501b, 0x4200501b, 0x0000201b, 0x0000203b, 0x0200103b, 0x0000001f, 0x0000003f, 0xffffffff,
];

fn low(word: u32) -> u16 {
    (word % 65536) as u16
}

fn high(word: u32) -> u16 {
    (word / 65536) as u16
}

#[test]
fn each_word_is_read_written_and_shown(rt: HostRuntime) -> Result<(), Fail> {
    for (word, op, rd, rs1, rs2, imm, text) in &WORDS {
        let insn = Insn {
            op: *op,
            rd: *rd,
            rs1: *rs1,
            rs2: *rs2,
            imm: *imm,
        };
        assert_eq!(rt; decode(low(*word), high(*word)), Some((insn, 4)));
        assert!(rt; insn.fits());
        assert_eq!(rt; encode(insn), *word);
        let shown = insn.text(rt.alloc())?;
        assert_eq!(rt; shown.as_str(), *text);
    }
    Ok(())
}

#[test]
fn each_half_is_read_as_its_expansion(rt: HostRuntime) -> Result<(), Fail> {
    for (half, word, text) in &HALVES {
        let (insn, len) = decode(*half, 0xffff).ok_or("refused")?;
        assert_eq!(rt; len, 2);
        assert_eq!(rt; decode(low(*word), high(*word)), Some((insn, 4)));
        assert!(rt; insn.fits());
        let shown = insn.text(rt.alloc())?;
        assert_eq!(rt; shown.as_str(), *text);
    }
    Ok(())
}

#[test]
fn reserved_and_other_extensions_are_refused(rt: HostRuntime) {
    for half in &REFUSED_HALVES {
        assert_eq!(rt; decode(*half, 0), None);
    }
    for word in &REFUSED_WORDS {
        assert_eq!(rt; decode(low(*word), high(*word)), None);
    }
}

#[test]
fn fence_ignores_its_fields(rt: HostRuntime) {
    let fence = Insn {
        op: Op::Fence,
        rd: 0,
        rs1: 0,
        rs2: 0,
        imm: 0,
    };
    assert_eq!(rt; decode(0x000f, 0x0310), Some((fence, 4)));
    assert_eq!(rt; decode(0x8f8f, 0x8330), Some((fence, 4)));
}

#[test]
fn words_are_remembered_at_their_places(rt: HostRuntime) -> Result<(), Fail> {
    let mut known = KnownWords::new(rt.alloc())?;
    let (word, half) = (decode(0x8503, 0x800b), decode(0x0505, 0));
    assert_eq!(rt; known.learn(0x4000_0000, 0x8503, 0x800b), word);
    assert_eq!(rt; known.learn(0x4000_2000, 0x0505, 0), half);
    assert_eq!(rt; known.recall(0x4000_0000, 0x8503, 0x800b), word);
    assert_eq!(rt; known.recall(0x4000_2000, 0x0505, 0xffff), half);
    // Another word at a place, and a reserved one, aren't known there.
    assert_eq!(rt; known.recall(0x4000_0000, 0x8503, 0x800c), None);
    assert_eq!(rt; known.learn(0x4000_0000, 0, 0), None);
    assert_eq!(rt; known.recall(0x4000_0000, 0x8503, 0x800b), word);
    Ok(())
}

#[test]
fn out_of_range_does_not_fit(rt: HostRuntime) {
    let addi = Insn {
        op: Op::Addi,
        rd: 1,
        rs1: 2,
        rs2: 0,
        imm: 2048,
    };
    assert!(rt; !addi.fits());
    assert!(rt; !Insn { imm: -2049, ..addi }.fits());
    assert!(rt;
        !Insn {
            rs2: 1,
            imm: 0,
            ..addi
        }
        .fits()
    );
    assert!(rt;
        !Insn {
            rd: 32,
            imm: 0,
            ..addi
        }
        .fits()
    );
    assert!(rt; Insn { imm: 2047, ..addi }.fits());
    let odd = Insn {
        op: Op::Beq,
        rd: 0,
        rs1: 2,
        rs2: 3,
        imm: 3,
    };
    assert!(rt; !odd.fits());
    assert!(rt;
        !Insn {
            op: Op::Lui,
            rd: 1,
            rs1: 0,
            rs2: 0,
            imm: 4095
        }
        .fits()
    );
    assert!(rt;
        !Insn {
            op: Op::Slliw,
            rd: 1,
            rs1: 2,
            rs2: 0,
            imm: 32
        }
        .fits()
    );
}
