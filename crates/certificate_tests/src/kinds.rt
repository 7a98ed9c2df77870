//! Rows by hand from docs/certificate.md, among them steps of its worked driver.
use prov_types::{
    Kind, Place, RegionLists, Span, fits, holds, is_branch, is_proper, narrow, transfer,
};
use rv_decode::{Insn, Op};

/// A kind as a row: `a` for Any, `n` for a number, `p` for a pointer, `o` for what may be 0; the region; and the span.
type Row = (char, u8, u64, u64, u64);

const ANY: Row = ('a', 0, 0, 0, 0);

const NUMBER: Row = ('n', 0, 0, u64::MAX, 1);

const ZERO: Row = ('n', 0, 0, 0, 1);

const BIT: Row = ('n', 0, 0, 1, 1);

/// The lengths of the regions: the image, the OS stack and the OS arguments.
static LENS: [u64; 3] = [0x3000, 65536, 65536];

fn kind((letter, region, lo, hi, by): Row) -> Kind {
    let span = Span { lo, hi, by };
    match letter {
        'n' => Kind::Num(span),
        'p' => Kind::Ptr(region, span),
        'o' => Kind::Opt(region, span),
        _ => Kind::Any,
    }
}

/// A name, its immediate, the kinds of rs1 and rs2, and the kind of the result, at the offset 0x1074 of the image.
static TRANSFERS: [(Op, i64, Row, Row, Row); 46] = [
    // a load and a link
    (Op::Ld, 0, ('p', 0, 0x2010, 0x2010, 1), ANY, ANY),
    (
        Op::Jalr,
        0,
        ('p', 5, 784, 784, 1),
        ANY,
        ('p', 0, 0x1078, 0x1078, 1),
    ),
    // sums and differences: both ends of 64 bits, and the greatest common divisor of steps
    (
        Op::Add,
        0,
        ('n', 0, 0, 40, 4),
        ('n', 0, 2, 62, 6),
        ('n', 0, 2, 102, 2),
    ),
    (
        Op::Add,
        0,
        ('n', 0, 1, 1, 1),
        ('n', 0, 0, 12, 4),
        ('n', 0, 1, 13, 4),
    ),
    (
        Op::Add,
        0,
        ('n', 0, 0, u64::MAX - 1, 1),
        ('n', 0, 1, 1, 1),
        ('n', 0, 1, u64::MAX, 1),
    ),
    (Op::Add, 0, NUMBER, ('n', 0, 1, 1, 1), NUMBER),
    (
        Op::Sub,
        0,
        ('n', 0, 8, 16, 4),
        ('n', 0, 0, 8, 8),
        ('n', 0, 0, 16, 4),
    ),
    (Op::Sub, 0, ('n', 0, 7, 7, 1), ('n', 0, 0, 8, 1), NUMBER),
    (Op::Addi, -1, ('n', 0, 1, 5, 1), ANY, ('n', 0, 0, 4, 1)),
    (Op::Addi, -1, ('n', 0, 0, 5, 1), ANY, NUMBER),
    // pointers
    (
        Op::Add,
        0,
        ('p', 2, 0, 65528, 8),
        ('n', 0, 8, 8, 1),
        ('p', 2, 8, 65536, 8),
    ),
    (
        Op::Add,
        0,
        ('n', 0, 8, 8, 1),
        ('p', 2, 0, 65528, 8),
        ('p', 2, 8, 65536, 8),
    ),
    (Op::Add, 0, ('p', 2, 0, 65528, 8), ('n', 0, 9, 9, 1), ANY),
    (Op::Addi, -1, ('p', 1, 0, 0, 1), ANY, ANY),
    (
        Op::Sub,
        0,
        ('p', 1, 16, 16, 1),
        ('n', 0, 16, 16, 1),
        ('p', 1, 0, 0, 1),
    ),
    (Op::Sub, 0, ('p', 1, 16, 16, 1), ('p', 1, 32, 32, 1), NUMBER),
    (Op::Sub, 0, ('p', 1, 16, 16, 1), ('p', 2, 16, 16, 1), ANY),
    (Op::Add, 0, ('p', 1, 16, 16, 1), ('p', 1, 16, 16, 1), ANY),
    (Op::Add, 0, ('o', 1, 16, 16, 1), ZERO, ANY),
    (Op::Sltu, 0, ('p', 1, 16, 16, 1), ('p', 1, 32, 32, 1), BIT),
    (Op::Sltu, 0, ('p', 1, 16, 16, 1), ('p', 2, 32, 32, 1), ANY),
    (Op::Slt, 0, ('p', 1, 16, 16, 1), ('p', 1, 32, 32, 1), ANY),
    (Op::Addi, 1, ('p', 3, 0, 0, 1), ANY, ANY),
    // shifts and masks
    (Op::Slli, 3, ('n', 0, 1, 5, 2), ANY, ('n', 0, 8, 40, 16)),
    (
        Op::Slli,
        63,
        ('n', 0, 0, 1, 1),
        ANY,
        ('n', 0, 0, 1 << 63, 1 << 63),
    ),
    (Op::Slli, 63, ('n', 0, 0, 2, 1), ANY, NUMBER),
    (Op::Srli, 2, ('n', 0, 8, 40, 16), ANY, ('n', 0, 2, 10, 1)),
    (Op::Andi, 7, NUMBER, ANY, ('n', 0, 0, 7, 1)),
    (Op::Andi, 7, ('n', 0, 0, 3, 1), ANY, ('n', 0, 0, 3, 1)),
    (Op::Andi, -8, NUMBER, ANY, NUMBER),
    (
        Op::And,
        0,
        NUMBER,
        ('n', 0, (1 << 63) - 1, (1 << 63) - 1, 1),
        ('n', 0, 0, (1 << 63) - 1, 1),
    ),
    (Op::And, 0, NUMBER, ('n', 0, 1 << 63, 1 << 63, 1), NUMBER),
    (Op::And, 0, ('n', 0, 0, 12, 4), ('n', 0, 0, 3, 1), NUMBER),
    (Op::Remu, 0, NUMBER, ('n', 0, 10, 10, 1), ('n', 0, 0, 9, 1)),
    (Op::Remu, 0, NUMBER, ZERO, NUMBER),
    // words: both ends of 2^31
    (
        Op::Addiw,
        1,
        ('n', 0, 0, (1 << 31) - 2, 1),
        ANY,
        ('n', 0, 1, (1 << 31) - 1, 1),
    ),
    (Op::Addiw, 1, ('n', 0, 0, (1 << 31) - 1, 1), ANY, NUMBER),
    (Op::Addiw, 0, ('n', 0, 1 << 32, 1 << 32, 1), ANY, ZERO),
    (Op::Addiw, 0, ('n', 0, 1 << 31, 1 << 31, 1), ANY, NUMBER),
    (Op::Addiw, 1, ('n', 0, u64::MAX, u64::MAX, 1), ANY, NUMBER),
    // all else
    (Op::Mul, 0, NUMBER, ZERO, NUMBER),
    (Op::Xori, -1, ('n', 0, 1, 1, 1), ANY, NUMBER),
    (Op::Slti, 0, NUMBER, ANY, BIT),
    (Op::Lui, 0x60000, ANY, ANY, ('n', 0, 0x60000, 0x60000, 1)),
    (Op::Auipc, 0x1f8c, ANY, ANY, ('p', 0, 0x3000, 0x3000, 1)),
    (Op::Auipc, 0x1f8d, ANY, ANY, ANY),
];

fn insn(op: Op, rs1: u8, rs2: u8, imm: i64) -> Insn {
    Insn {
        op,
        rd: 10,
        rs1,
        rs2,
        imm,
    }
}

#[test]
fn transfers_are_as_the_table_says(rt: HostRuntime) {
    let place = Place {
        at: 0x1074,
        len: 4,
        target: None,
    };
    for (op, imm, a, b, wanted) in &TRANSFERS {
        let found = transfer(
            &insn(*op, 11, 12, *imm),
            &place,
            &kind(*a),
            &kind(*b),
            &LENS,
        );
        assert!(rt; found == kind(*wanted), "{op:?} {imm}: {found:?}");
    }
    let site = Place {
        at: 0x1074,
        len: 4,
        target: Some(0x2000),
    };
    let named = transfer(
        &insn(Op::Lui, 0, 0, 0x4000_0000),
        &site,
        &Kind::Any,
        &Kind::Any,
        &LENS,
    );
    assert!(rt; named == kind(('p', 0, 0x2000, 0x2000, 1)));
}

/// The nodes of the worked driver that set a register by its operands: the offset of each, its name and immediate, the
/// kinds of rs1 and rs2 there, and the kind that the node behind it has.
static DRIVER: [(u64, Op, i64, Row, Row, Row); 16] = [
    (
        0x1074,
        Op::Auipc,
        0x1000,
        ANY,
        ANY,
        ('p', 0, 0x2074, 0x2074, 1),
    ),
    (
        0x1078,
        Op::Addi,
        -100,
        ('p', 0, 0x2074, 0x2074, 1),
        ANY,
        ('p', 0, 0x2010, 0x2010, 1),
    ),
    (
        0x1084,
        Op::Auipc,
        0x1000,
        ANY,
        ANY,
        ('p', 0, 0x2084, 0x2084, 1),
    ),
    (
        0x1088,
        Op::Addi,
        -124,
        ('p', 0, 0x2084, 0x2084, 1),
        ANY,
        ('p', 0, 0x2008, 0x2008, 1),
    ),
    (0x1094, Op::Add, 0, NUMBER, NUMBER, NUMBER),
    (0x109c, Op::Addi, 0, NUMBER, ANY, NUMBER),
    (
        0x10a4,
        Op::Addi,
        -16,
        ('p', 1, 65536, 65536, 1),
        ANY,
        ('p', 1, 65520, 65520, 1),
    ),
    (
        0x10ac,
        Op::Auipc,
        0x1000,
        ANY,
        ANY,
        ('p', 0, 0x20ac, 0x20ac, 1),
    ),
    (
        0x10b0,
        Op::Addi,
        -172,
        ('p', 0, 0x20ac, 0x20ac, 1),
        ANY,
        ('p', 0, 0x2000, 0x2000, 1),
    ),
    (0x10bc, Op::Addi, 0, ZERO, ANY, ZERO),
    (
        0x10c0,
        Op::Auipc,
        0x1000,
        ANY,
        ANY,
        ('p', 0, 0x20c0, 0x20c0, 1),
    ),
    (
        0x10c4,
        Op::Addi,
        -184,
        ('p', 0, 0x20c0, 0x20c0, 1),
        ANY,
        ('p', 0, 0x2008, 0x2008, 1),
    ),
    (0x10cc, Op::Addi, 0, ZERO, ANY, ZERO),
    (
        0x10d0,
        Op::Auipc,
        0x1000,
        ANY,
        ANY,
        ('p', 0, 0x20d0, 0x20d0, 1),
    ),
    (
        0x10d4,
        Op::Addi,
        -208,
        ('p', 0, 0x20d0, 0x20d0, 1),
        ANY,
        ('p', 0, 0x2000, 0x2000, 1),
    ),
    (
        0x10e0,
        Op::Addi,
        16,
        ('p', 1, 65520, 65520, 1),
        ANY,
        ('p', 1, 65536, 65536, 1),
    ),
];

#[test]
fn the_worked_driver_has_its_kinds(rt: HostRuntime) {
    for (at, op, imm, a, b, wanted) in &DRIVER {
        let place = Place {
            at: *at,
            len: 4,
            target: None,
        };
        let found = transfer(
            &insn(*op, 11, 12, *imm),
            &place,
            &kind(*a),
            &kind(*b),
            &LENS,
        );
        assert!(rt; found == kind(*wanted), "{at} {op:?}: {found:?}");
    }
}

/// A name, whether the branch is taken, the kinds before, and those behind; a row of `x` is an edge that isn't possible.
static EDGES: [(Op, bool, Row, Row, Row, Row); 18] = [
    (
        Op::Bltu,
        true,
        ('n', 0, 0, 40, 4),
        ('n', 0, 10, 10, 1),
        ('n', 0, 0, 8, 4),
        ('n', 0, 10, 10, 1),
    ),
    (
        Op::Bltu,
        false,
        ('n', 0, 0, 40, 4),
        ('n', 0, 10, 10, 1),
        ('n', 0, 12, 40, 4),
        ('n', 0, 10, 10, 1),
    ),
    (
        Op::Bltu,
        true,
        ('n', 0, 0, 8, 8),
        ('n', 0, 0, 8, 8),
        ZERO,
        ('n', 0, 8, 8, 1),
    ),
    (
        Op::Bgeu,
        true,
        NUMBER,
        ('n', 0, u64::MAX, u64::MAX, 1),
        ('n', 0, u64::MAX, u64::MAX, 1),
        ('n', 0, u64::MAX, u64::MAX, 1),
    ),
    (Op::Bltu, true, NUMBER, ZERO, ('x', 0, 0, 0, 0), ANY),
    (
        Op::Bltu,
        true,
        ('n', 0, u64::MAX, u64::MAX, 1),
        NUMBER,
        ('x', 0, 0, 0, 0),
        ANY,
    ),
    (
        Op::Blt,
        true,
        ('n', 0, 0, 40, 4),
        ('n', 0, 10, 10, 1),
        ('n', 0, 0, 8, 4),
        ('n', 0, 10, 10, 1),
    ),
    (
        Op::Blt,
        true,
        NUMBER,
        ('n', 0, 10, 10, 1),
        NUMBER,
        ('n', 0, 10, 10, 1),
    ),
    (
        Op::Bge,
        false,
        ('n', 0, 0, 1 << 63, 1 << 63),
        ZERO,
        ('n', 0, 0, 1 << 63, 1 << 63),
        ZERO,
    ),
    (
        Op::Beq,
        true,
        ('n', 0, 0, 40, 4),
        ('n', 0, 8, 8, 1),
        ('n', 0, 8, 8, 1),
        ('n', 0, 8, 8, 1),
    ),
    (
        Op::Beq,
        true,
        ('n', 0, 0, 40, 4),
        ('n', 0, 9, 9, 1),
        ('x', 0, 0, 0, 0),
        ANY,
    ),
    (
        Op::Bne,
        true,
        ('n', 0, 0, 40, 4),
        ZERO,
        ('n', 0, 4, 40, 4),
        ZERO,
    ),
    (
        Op::Beq,
        false,
        ('n', 0, 0, 4, 4),
        ('n', 0, 4, 4, 1),
        ZERO,
        ('n', 0, 4, 4, 1),
    ),
    (Op::Bne, true, ZERO, ZERO, ('x', 0, 0, 0, 0), ANY),
    (
        Op::Bne,
        true,
        ('p', 2, 0, 16, 8),
        ('p', 2, 16, 16, 1),
        ('p', 2, 0, 8, 8),
        ('p', 2, 16, 16, 1),
    ),
    (
        Op::Bne,
        true,
        ('p', 2, 0, 16, 8),
        ('p', 1, 16, 16, 1),
        ('p', 2, 0, 16, 8),
        ('p', 1, 16, 16, 1),
    ),
    (Op::Beq, true, ('o', 2, 0, 16, 8), ZERO, ZERO, ZERO),
    (
        Op::Bne,
        true,
        ZERO,
        ('o', 2, 0, 16, 8),
        ZERO,
        ('p', 2, 0, 16, 8),
    ),
];

#[test]
fn edges_narrow_as_the_table_says(rt: HostRuntime) {
    for (op, taken, a, b, left, right) in &EDGES {
        let branch = insn(*op, 10, 11, 8);
        assert!(rt; is_branch(branch.op));
        let (first, second) = (kind(*a), kind(*b));
        assert!(rt; is_proper(&first) && is_proper(&second));
        let wanted = if left.0 == 'x' {
            None
        } else {
            Some((kind(*left), kind(*right)))
        };
        let found = narrow(&branch, *taken, &first, &second);
        assert!(rt; found == wanted, "{op:?} {taken}: {found:?}");
    }
}

#[test]
fn one_register_is_not_narrowed(rt: HostRuntime) {
    let number = kind(NUMBER);
    assert!(rt; is_proper(&number));
    let branch = insn(Op::Bltu, 10, 10, 8);
    assert!(rt; is_branch(branch.op));
    let found = narrow(&branch, true, &number, &number);
    assert!(rt; found == Some((number, number)));
}

/// Two kinds, and whether the first fits the second.
static FITS: [(Row, Row, bool); 12] = [
    (('n', 0, 8, 16, 4), ('n', 0, 0, 16, 2), true),
    (('n', 0, 8, 16, 4), ('n', 0, 0, 24, 8), false),
    (('n', 0, 5, 5, 1), ('n', 0, 1, 9, 4), true),
    (('n', 0, 6, 6, 1), ('n', 0, 1, 9, 4), false),
    (('n', 0, 5, 5, 8), ('n', 0, 5, 5, 1), true),
    (('p', 2, 8, 8, 1), ('o', 2, 0, 16, 8), true),
    (('o', 2, 8, 8, 1), ('p', 2, 0, 16, 8), false),
    (('p', 2, 8, 8, 1), ('p', 3, 0, 16, 8), false),
    (ZERO, ('o', 2, 8, 16, 8), true),
    (('n', 0, 0, 1, 1), ('o', 2, 0, 16, 8), false),
    (('o', 2, 8, 8, 1), ANY, true),
    (ANY, NUMBER, false),
];

#[test]
fn kinds_fit_as_the_table_says(rt: HostRuntime) {
    for (a, b, wanted) in &FITS {
        let (first, second) = (kind(*a), kind(*b));
        assert!(rt; is_proper(&second));
        assert!(rt; fits(&first, &second) == *wanted, "{first:?} {second:?}");
    }
}

/// A kind, a value in each run, and whether they are of it, where region 2 begins at 0x1000 in the first run and at
/// 0x8000 in the second.
static VALUES: [(Row, u64, u64, bool); 9] = [
    (ANY, 1, 2, true),
    (('n', 0, 8, 16, 4), 12, 12, true),
    (('n', 0, 8, 16, 4), 10, 10, false),
    (('n', 0, 8, 16, 4), 12, 16, false),
    (('p', 2, 0, 16, 8), 0x1008, 0x8008, true),
    (('p', 2, 0, 16, 8), 0x1008, 0x8000, false),
    (('p', 2, 0, 16, 8), 0, 0, false),
    (('o', 2, 0, 16, 8), 0, 0, true),
    (('p', 2, 65544, 65544, 1), 0x11008, 0x18008, false),
];

#[test]
fn kinds_hold_of_values(rt: HostRuntime) {
    let regions = RegionLists {
        old: &[0x100, 0x200, 0x1000],
        new: &[0x100, 0x200, 0x8000],
        lens: &LENS,
    };
    for (row, first, second, wanted) in &VALUES {
        let of = kind(*row);
        assert!(rt; is_proper(&of));
        assert!(rt;
            holds(&of, *first, *second, &regions) == *wanted,
            "{of:?} {first} {second}"
        );
    }
}
