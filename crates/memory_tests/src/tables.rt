//! Texts and tables that are written down elsewhere.

ghost use Rattle.page_alloc.specs.Layout.{IsRam};

use guest_memory::GuestMemory;
use page_alloc::Layout;
use std::alloc::Global;
use std::process::Abort;
use std::test::Fail;
use system_tables::{build_tables, clear_boot, console_text, move_tables};

#[test]
fn text_of_units(rt: HostRuntime) -> Result<(), Fail> {
    let (text, skipped) = console_text(rt.alloc(), &[0x0048, 0xd83d, 0x0069, 0x005c, 0x000d])?;
    assert_eq!(rt; text.as_str(), "Hi\\\\\\u000d");
    assert!(rt; skipped);
    let (text, skipped) = console_text(rt.alloc(), &[0x20, 0x7e, 0x7f, 0xe000])?;
    assert_eq!(rt; text.as_str(), " ~\\u007f\\ue000");
    assert!(rt; !skipped);
    Ok(())
}

/// A number of bytes in memory, the least first.
fn number(memory: &GuestMemory, at: u64, width: u64) -> u64 {
    let mut value: u64 = 0;
    for i in 0..width {
        let byte = memory.get(at.wrapping_add(width - 1 - i)).unwrap_or(0xee);
        value = value.wrapping_mul(256).wrapping_add(u64::from(byte));
    }
    value
}

/// The remainder after one more byte, bit by bit.
fn after_byte(crc: u32, byte: u8) -> u32 {
    let mut crc = crc ^ u32::from(byte);
    for _ in 0..8 {
        crc = if crc % 2 == 1 {
            (crc / 2) ^ 0xedb8_8320
        } else {
            crc / 2
        };
    }
    crc
}

/// The CRC of a table in memory, with 0 in the place of its own.
fn crc_of(memory: &GuestMemory, at: u64, size: u64) -> u64 {
    let mut crc = u32::MAX;
    for i in 0..size {
        let byte = if i / 4 == 4 {
            0
        } else {
            memory.get(at.wrapping_add(i)).unwrap_or(0xee)
        };
        crc = after_byte(crc, byte);
    }
    u64::from(crc ^ u32::MAX)
}

/// The three tables with a header: address, signature and size.
const TABLES: [(u64, u64, u64); 3] = [
    (0x400f_e000, 0x5453_5953_2049_4249, 120),
    (0x400f_e100, 0x5652_4553_544e_5552, 136),
    (0x400f_d000, 0x5652_4553_544f_4f42, 376),
];

/// Numbers at opening: address, width, value.
const OPENING: [(u64, u64, u64); 35] = [
    (0x400f_e018, 8, 0x400f_e200),
    (0x400f_e020, 4, 1),
    (0x400f_e028, 8, 0),
    (0x400f_e030, 8, 0),
    (0x400f_e038, 8, 16),
    (0x400f_e040, 8, 0x400f_d200),
    (0x400f_e048, 8, 16),
    (0x400f_e050, 8, 0x400f_d200),
    (0x400f_e058, 8, 0x400f_e100),
    (0x400f_e060, 8, 0x400f_d000),
    (0x400f_e068, 8, 0),
    (0x400f_e070, 8, 0),
    (0x400f_e078, 8, 0),
    (0x400f_e118, 8, 0x400f_f2c0),
    (0x400f_e138, 8, 0x400f_f300),
    (0x400f_e158, 8, 0x400f_f340),
    (0x400f_e180, 8, 0x400f_f390),
    (0x400f_e188, 8, 0),
    (0x400f_e200, 8, 0x0049_0046_0045_0055),
    (0x400f_e208, 8, 0x0054_0053_004f_0048),
    (0x400f_e210, 8, 0),
    (0x400f_d018, 8, 0x400f_f000),
    (0x400f_d040, 8, 0x400f_f050),
    (0x400f_d098, 8, 0x400f_f100),
    (0x400f_d0a0, 8, 0),
    (0x400f_d0a8, 8, 0x400f_f120),
    (0x400f_d170, 8, 0x400f_f2b0),
    (0x400f_d178, 8, 0),
    (0x400f_d200, 8, 0x400f_f3a0),
    (0x400f_d208, 8, 0x400f_f3b0),
    (0x400f_d240, 8, 0x400f_f420),
    (0x400f_d248, 8, 0x400f_d300),
    (0x400f_d300, 8, 1),
    (0x400f_d308, 8, 7),
    (0x400f_d310, 8, 0),
];

/// After the end of boot services.
const CLEARED: [(u64, u64, u64); 8] = [
    (0x400f_e028, 8, 0),
    (0x400f_e030, 8, 0),
    (0x400f_e038, 8, 0),
    (0x400f_e040, 8, 0),
    (0x400f_e048, 8, 0),
    (0x400f_e050, 8, 0),
    (0x400f_e058, 8, 0x400f_e100),
    (0x400f_e060, 8, 0),
];

/// With the system page at 0x9000 and the slot page at 0xb000.
const MOVED: [(u64, u64, u64); 5] = [
    (0x400f_e018, 8, 0x9200),
    (0x400f_e058, 8, 0x9100),
    (0x400f_e118, 8, 0xb2c0),
    (0x400f_e180, 8, 0xb390),
    (0x400f_d018, 8, 0x400f_f000),
];

/// Compares numbers in memory, and the CRC of each table with the one in its header.
fn expect(rt: &impl Abort, memory: &GuestMemory, numbers: &[(u64, u64, u64)]) {
    for (at, width, value) in numbers {
        assert_eq!(rt; number(memory, *at, *width), *value, "at {at:x}");
    }
    for (at, signature, size) in TABLES {
        assert_eq!(rt; number(memory, at, 8), signature);
        assert_eq!(rt; number(memory, at.wrapping_add(8), 4), 0x0002_0064);
        assert_eq!(rt; number(memory, at.wrapping_add(12), 4), size);
        assert_eq!(rt;
            number(memory, at.wrapping_add(16), 4),
            crc_of(memory, at, size)
        );
        assert_eq!(rt; number(memory, at.wrapping_add(20), 4), 0);
    }
}

/// Builds, clears and moves the tables of a RAM.
#[tactic(auto, unfolding(page_alloc::specs::Layout::layout_at))]
fn expect_tables(rt: &impl Abort, alloc: Global, base: u64, pages: u32) -> Result<(), Fail>
    requires { IsRam base pages }
{
    let layout = Layout::at(base, pages);
    let mut memory = GuestMemory::new(alloc, base, pages)?;
    build_tables(&layout, &mut memory)?;
    expect(rt, &memory, &OPENING);
    clear_boot(&layout, &mut memory);
    expect(rt, &memory, &CLEARED);
    move_tables(&layout, &mut memory, 0x9000, 0xb000);
    expect(rt, &memory, &MOVED);
    assert_eq!(rt; memory.touched(), 2);
    Ok(())
}

#[test]
fn tables_of_a_small_ram(rt: HostRuntime) -> Result<(), Fail> {
    expect_tables(&rt, rt.alloc(), 0x4000_0000, 256)
}
