//! Vectors from outside: words of GNU as 2.40 with -march=rv64im, and what QEMU 7.2 (qemu-riscv64) leaves in a0 after
//! each of them.

ghost use Rattle.std.specs.Prelude.{true};

use rv_decode::{KnownWords, decode};
use rv_step::{Access, Ask, Bus, BusEnd, Regs, StepEnd, Trap, asked, step, step_known};
use std::test::Fail;

/// A word that writes a0 from a1 and a2, what these hold, and what a0 then holds.
static VALUES: [(u32, u64, u64, u64); 92] = [
    (
        0x00c58533,
        0x123456789abcdef0,
        0xfedcba9876543211,
        0x1111111111111101,
    ),
    (0x00c58533, 0xfffffffffffffff9, 0x3, 0xfffffffffffffffc),
    (
        0x40c58533,
        0x123456789abcdef0,
        0xfedcba9876543211,
        0x13579be02468acdf,
    ),
    (0x40c58533, 0xfffffffffffffff9, 0x3, 0xfffffffffffffff6),
    (0x00c59533, 0x8000000000000001, 0x3f, 0x8000000000000000),
    (0x00c59533, 0x123456789abcdef0, 0x44, 0x23456789abcdef00),
    (0x00c5a533, 0xffffffffffffffff, 0x0, 0x1),
    (0x00c5a533, 0x0, 0xffffffffffffffff, 0x0),
    (0x00c5a533, 0x5, 0x5, 0x0),
    (0x00c5b533, 0xffffffffffffffff, 0x0, 0x0),
    (0x00c5b533, 0x0, 0xffffffffffffffff, 0x1),
    (0x00c5b533, 0x5, 0x5, 0x0),
    (
        0x00c5c533,
        0x123456789abcdef0,
        0xfedcba9876543211,
        0xece8ece0ece8ece1,
    ),
    (0x00c5c533, 0xfffffffffffffff9, 0x3, 0xfffffffffffffffa),
    (0x00c5d533, 0x8000000000000001, 0x3f, 0x1),
    (0x00c5d533, 0x8765432112345678, 0x44, 0x876543211234567),
    (0x40c5d533, 0x8000000000000001, 0x3f, 0xffffffffffffffff),
    (0x40c5d533, 0x8765432112345678, 0x44, 0xf876543211234567),
    (
        0x00c5e533,
        0x123456789abcdef0,
        0xfedcba9876543211,
        0xfefcfef8fefcfef1,
    ),
    (0x00c5e533, 0xfffffffffffffff9, 0x3, 0xfffffffffffffffb),
    (
        0x00c5f533,
        0x123456789abcdef0,
        0xfedcba9876543211,
        0x1214121812141210,
    ),
    (0x00c5f533, 0xfffffffffffffff9, 0x3, 0x1),
    (0x02c58533, 0xfffffffffffffff9, 0x3, 0xffffffffffffffeb),
    (
        0x02c58533,
        0x123456789abcdef0,
        0xfedcba9876543211,
        0x35a1df76f0d5adf0,
    ),
    (0x02c59533, 0xffffffffffffffff, 0xffffffffffffffff, 0x0),
    (
        0x02c59533,
        0x8000000000000000,
        0x8000000000000000,
        0x4000000000000000,
    ),
    (0x02c59533, 0xfffffffffffffff9, 0x3, 0xffffffffffffffff),
    (
        0x02c5a533,
        0xffffffffffffffff,
        0xffffffffffffffff,
        0xffffffffffffffff,
    ),
    (0x02c5a533, 0x3, 0xffffffffffffffff, 0x2),
    (0x02c5a533, 0xfffffffffffffff9, 0x3, 0xffffffffffffffff),
    (
        0x02c5b533,
        0xffffffffffffffff,
        0xffffffffffffffff,
        0xfffffffffffffffe,
    ),
    (0x02c5b533, 0x8000000000000000, 0x2, 0x1),
    (0x02c5b533, 0x7, 0x3, 0x0),
    (0x02c5c533, 0xfffffffffffffff9, 0x2, 0xfffffffffffffffd),
    (0x02c5c533, 0x7, 0xfffffffffffffffe, 0xfffffffffffffffd),
    (0x02c5c533, 0x7, 0x0, 0xffffffffffffffff),
    (
        0x02c5c533,
        0x8000000000000000,
        0xffffffffffffffff,
        0x8000000000000000,
    ),
    (0x02c5d533, 0xfffffffffffffff9, 0x2, 0x7ffffffffffffffc),
    (0x02c5d533, 0x7, 0x0, 0xffffffffffffffff),
    (0x02c5d533, 0x8000000000000000, 0xffffffffffffffff, 0x0),
    (0x02c5e533, 0xfffffffffffffff9, 0x2, 0xffffffffffffffff),
    (0x02c5e533, 0x7, 0xfffffffffffffffe, 0x1),
    (0x02c5e533, 0x7, 0x0, 0x7),
    (0x02c5e533, 0x8000000000000000, 0xffffffffffffffff, 0x0),
    (0x02c5f533, 0xfffffffffffffff9, 0x2, 0x1),
    (0x02c5f533, 0x7, 0x0, 0x7),
    (
        0x02c5f533,
        0x8000000000000000,
        0xffffffffffffffff,
        0x8000000000000000,
    ),
    (0x00c5853b, 0x7fffffff, 0x1, 0xffffffff80000000),
    (
        0x00c5853b,
        0x123456789abcdef0,
        0xfedcba9876543211,
        0x11111101,
    ),
    (0x40c5853b, 0xffffffff80000000, 0x1, 0x7fffffff),
    (
        0x40c5853b,
        0x123456789abcdef0,
        0xfedcba9876543211,
        0x2468acdf,
    ),
    (0x00c5953b, 0x123456789abcdef0, 0x1f, 0x0),
    (0x00c5953b, 0xffffffff80000001, 0x24, 0x10),
    (0x00c5d53b, 0x123456789abcdef0, 0x4, 0x9abcdef),
    (0x00c5d53b, 0xffffffff80000001, 0x3f, 0x1),
    (0x40c5d53b, 0x123456789abcdef0, 0x4, 0xfffffffff9abcdef),
    (0x40c5d53b, 0xffffffff80000001, 0x3f, 0xffffffffffffffff),
    (0x02c5853b, 0x80000000, 0x3, 0xffffffff80000000),
    (
        0x02c5853b,
        0x123456789abcdef0,
        0xfedcba9876543211,
        0xfffffffff0d5adf0,
    ),
    (0x02c5c53b, 0xfffffffffffffff9, 0x2, 0xfffffffffffffffd),
    (0x02c5c53b, 0x100000007, 0x0, 0xffffffffffffffff),
    (0x02c5c53b, 0x80000000, 0xffffffff, 0xffffffff80000000),
    (0x02c5c53b, 0x1fffffff9, 0x100000002, 0xfffffffffffffffd),
    (0x02c5d53b, 0xfffffffffffffff9, 0x2, 0x7ffffffc),
    (0x02c5d53b, 0x7, 0x100000000, 0xffffffffffffffff),
    (0x02c5d53b, 0x80000000, 0xffffffff, 0x0),
    (0x02c5e53b, 0xfffffffffffffff9, 0x2, 0xffffffffffffffff),
    (0x02c5e53b, 0x180000007, 0x0, 0xffffffff80000007),
    (0x02c5e53b, 0x80000000, 0xffffffff, 0x0),
    (0x02c5e53b, 0x1fffffff9, 0x100000002, 0xffffffffffffffff),
    (0x02c5f53b, 0xfffffffffffffff9, 0x2, 0x1),
    (0x02c5f53b, 0x80000007, 0x100000000, 0xffffffff80000007),
    (0x02c5f53b, 0x80000000, 0xffffffff, 0xffffffff80000000),
    (0x80058513, 0x7ff, 0x0, 0xffffffffffffffff),
    (0x80058513, 0x8000000000000000, 0x0, 0x7ffffffffffff800),
    (0xfff5a513, 0xfffffffffffffffe, 0x0, 0x1),
    (0xfff5a513, 0x0, 0x0, 0x0),
    (0xfff5b513, 0xfffffffffffffffe, 0x0, 0x1),
    (0xfff5b513, 0xffffffffffffffff, 0x0, 0x0),
    (0xfff5c513, 0x123456789abcdef0, 0x0, 0xedcba9876543210f),
    (0xf005e513, 0x12, 0x0, 0xffffffffffffff12),
    (0xf005f513, 0x123456789abcdef0, 0x0, 0x123456789abcde00),
    (0x03f59513, 0x3, 0x0, 0x8000000000000000),
    (0x03f5d513, 0xc000000000000000, 0x0, 0x1),
    (0x43f5d513, 0xc000000000000000, 0x0, 0xffffffffffffffff),
    (0x0015851b, 0x7fffffff, 0x0, 0xffffffff80000000),
    (0x0015851b, 0x1ffffffff, 0x0, 0x0),
    (0x01f5951b, 0x3, 0x0, 0xffffffff80000000),
    (0x01f5d51b, 0xffffffff80000000, 0x0, 0x1),
    (0x41f5d51b, 0x80000000, 0x0, 0xffffffffffffffff),
    (0x80000537, 0x0, 0x0, 0xffffffff80000000),
    (0x12345537, 0x0, 0x0, 0x12345000),
];

/// A branch by a1 and a2 to 16 bytes before it, what these hold, and whether it is taken.
static BRANCHES: [(u32, u64, u64, bool); 18] = [
    (0xfec588e3, 0x5, 0x5, true),
    (0xfec588e3, 0xffffffffffffffff, 0x0, false),
    (0xfec588e3, 0x0, 0xffffffffffffffff, false),
    (0xfec598e3, 0x5, 0x5, false),
    (0xfec598e3, 0xffffffffffffffff, 0x0, true),
    (0xfec598e3, 0x0, 0xffffffffffffffff, true),
    (0xfec5c8e3, 0x5, 0x5, false),
    (0xfec5c8e3, 0xffffffffffffffff, 0x0, true),
    (0xfec5c8e3, 0x0, 0xffffffffffffffff, false),
    (0xfec5d8e3, 0x5, 0x5, true),
    (0xfec5d8e3, 0xffffffffffffffff, 0x0, false),
    (0xfec5d8e3, 0x0, 0xffffffffffffffff, true),
    (0xfec5e8e3, 0x5, 0x5, false),
    (0xfec5e8e3, 0xffffffffffffffff, 0x0, false),
    (0xfec5e8e3, 0x0, 0xffffffffffffffff, true),
    (0xfec5f8e3, 0x5, 0x5, true),
    (0xfec5f8e3, 0xffffffffffffffff, 0x0, true),
    (0xfec5f8e3, 0x0, 0xffffffffffffffff, false),
];

/// Loads of a0 from 0(a1), their width, and whether they keep the sign.
static LOADS: [(u32, u8, bool); 7] = [
    (0x00058503, 1, true),
    (0x00059503, 2, true),
    (0x0005a503, 4, true),
    (0x0005b503, 8, false),
    (0x0005c503, 1, false),
    (0x0005d503, 2, false),
    (0x0005e503, 4, false),
];

/// What a word at 0x1000 asks for, with these numbers in a1 and a2.
fn asked_of(word: u32, a: u64, b: u64) -> Option<Ask> {
    let (insn, len) = decode((word % 65536) as u16, (word / 65536) as u16)?;
    let mut x = [0; 32];
    x[11] = a;
    x[12] = b;
    Some(asked(insn, len, &x, 0x1000))
}

#[test]
fn values_are_those_of_qemu(rt: HostRuntime) {
    for (word, a, b, value) in &VALUES {
        let wanted = Ask::Set {
            rd: 10,
            value: *value,
        };
        assert_eq!(rt; asked_of(*word, *a, *b), Some(wanted));
    }
}

#[test]
fn branches_are_taken_as_by_qemu(rt: HostRuntime) {
    for (word, a, b, taken) in &BRANCHES {
        let to = if *taken { 0xff0 } else { 0x1004 };
        assert_eq!(rt; asked_of(*word, *a, *b), Some(Ask::Jump { to, rd: 0 }));
    }
}

#[test]
fn loads_and_stores_ask_for_their_width(rt: HostRuntime) {
    for (word, width, sign) in &LOADS {
        let wanted = Ask::Load {
            rd: 10,
            at: 0x80,
            width: *width,
            sign: *sign,
        };
        assert_eq!(rt; asked_of(*word, 0x80, 0), Some(wanted));
    }
    let wanted = Ask::Store {
        at: 0x7f,
        width: 4,
        value: 0x123456789,
    };
    assert_eq!(rt; asked_of(0xfec5afa3, 0x80, 0x123456789), Some(wanted));
}

#[test]
fn jumps_link_and_traps_stop(rt: HostRuntime) {
    let jal = Ask::Jump { to: 0xff0, rd: 1 };
    assert_eq!(rt; asked_of(0xff1ff0ef, 0, 0), Some(jal));
    let jalr = Ask::Jump { to: 0x4000, rd: 10 };
    assert_eq!(rt; asked_of(0x00158567, 0x4000, 0), Some(jalr));
    let auipc = Ask::Set {
        rd: 10,
        value: 0xffffffff80001000,
    };
    assert_eq!(rt; asked_of(0x80000517, 0, 0), Some(auipc));
    assert_eq!(rt;
        asked_of(0x0ff0000f, 0, 0),
        Some(Ask::Set { rd: 0, value: 0 })
    );
    assert_eq!(rt; asked_of(0x00000073, 0, 0), Some(Ask::Stop(Trap::Ecall)));
    assert_eq!(rt; asked_of(0x00100073, 0, 0), Some(Ask::Stop(Trap::Ebreak)));
}

/// A memory whose bytes are all 0x83, with no frame for a store.
#[derive(Drop)]
struct Constant;

impl Bus for Constant {
    ghost bytes = { λ bus at. 131 };

    ghost allows = { λ bus kind at. true };

    ghost lacks_frames = { λ bus at width. true };

    ghost takes_no_memory = { λ bus at width. true };

    type Content = u8;

    ghost content = { λ bus. 0 };

    ghost after = { λ bus at width value. 0 };

    ghost kept = { λ old new. Unit {0} };

    ghost same = { λ old new. Unit {0} };

    ghost same_self = { λ bus. tt };

    fn load(&self, _at: u64, width: u8) -> Result<u64, u64> {
        match width {
            1 => Ok(0x83),
            2 => Ok(0x8383),
            4 => Ok(0x83838383),
            _ => Ok(0x8383838383838383),
        }
    }

    fn store(&mut self, _at: u64, _width: u8, _value: u64) -> Result<(), BusEnd> {
        Err(BusEnd::Frames)
    }

    fn fetch(&self, _at: u64) -> Result<u16, u64> {
        Ok(0x8383)
    }

    #[tactic(auto, unfolding(uh_base::specs::Bytes::loaded, uh_base::specs::Bytes::first_refused, uh_base::specs::Bytes::number_at))]
    fn fetch_both(&self, _at: u64) -> Option<(u16, u16)> {
        Some((0x8383, 0x8383))
    }
}

/// The word 0x83838383 is `lb t2, -1992(t2)`. It is read anew at first, and then remembered.
#[test]
fn a_step_fetches_decodes_and_loads(rt: HostRuntime) -> Result<(), Fail> {
    let mut known = KnownWords::new(rt.alloc())?;
    for way in 0..3 {
        let mut regs = Regs {
            x: [0; 32],
            pc: 0xfffffffffffffffe,
        };
        let end = if way == 0 {
            step(&mut regs, &mut Constant)
        } else {
            step_known(&mut known, &mut regs, &mut Constant)
        };
        assert_eq!(rt; end, StepEnd::Next);
        assert_eq!(rt; regs.pc, 2);
        let (loaded, zero) = (regs.x[7], regs.x[0]);
        assert_eq!(rt; loaded, 0xffffffffffffff83);
        assert_eq!(rt; zero, 0);
    }
    Ok(())
}
