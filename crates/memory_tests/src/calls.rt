//! Tables of pointers, buffers and outputs.

use address_view::View;
use guest_call::{
    argument, can_read, can_read_buffer, can_write, can_write_buffer, can_write_optional, low_word,
    number_seen, put_number,
};
use guest_memory::{GuestMemory, PutEnd, Rights};
use std::alloc::{AllocError, Global};
use std::test::Fail;

/// 256 pages, of which the second may only be read.
fn pages(alloc: Global) -> Result<GuestMemory, AllocError> {
    let mut memory = GuestMemory::new(alloc, 0x100000, 256)?;
    memory.set_rights(
        1,
        1,
        Rights {
            read: true,
            write: false,
            exec: false,
        },
    );
    Ok(memory)
}

/// What each check says of so many bytes: a pointer that is written, one that is read, a buffer that is written, one that
/// is read, and an output that may be left out.
fn checks(memory: &GuestMemory, view: &View, at: u64, len: u64) -> [bool; 5] {
    [
        can_write(memory, view, at, len),
        can_read(memory, view, at, len),
        can_write_buffer(memory, view, at, len),
        can_read_buffer(memory, view, at, len),
        can_write_optional(memory, view, at, len),
    ]
}

#[test]
fn pointers_and_buffers(rt: HostRuntime) -> Result<(), Fail> {
    let memory = pages(rt.alloc())?;
    let view = View::identity(rt.alloc(), 0x100000, 0x100000)?;
    const ROWS: [(u64, u64, [bool; 5]); 9] = [
        (0, 8, [false, false, false, false, true]),
        (0, 0, [false, false, true, true, true]),
        (0x102000, 8, [true; 5]),
        (0x100ffc, 8, [false, true, false, true, false]),
        (0x101000, 0, [true; 5]),
        (0x1ffffc, 8, [false; 5]),
        (0xffff_ffff_ffff_fffc, 8, [false; 5]),
        (0xffff_ffff_ffff_fffc, 0, [true; 5]),
        (0x102000, u64::MAX, [false; 5]),
    ];
    for (at, len, wanted) in ROWS {
        assert_eq!(rt; checks(&memory, &view, at, len), wanted);
    }
    Ok(())
}

#[test]
fn arguments_of_a_call(rt: HostRuntime) -> Result<(), Fail> {
    let mut registers = [0; 32];
    registers[10] = 0x1_0000_0002;
    registers[17] = 7;
    assert_eq!(rt; low_word(argument(0, &registers)), 2);
    assert_eq!(rt; argument(7, &registers), 7);
    Ok(())
}

/// Puts a number where it may be put, and reads it.
fn put(memory: &mut GuestMemory, view: &View, at: u64, value: u64) -> (Result<(), PutEnd>, u64) {
    if !can_write(memory, view, at, 8) {
        return (Err(PutEnd::Outside), 0);
    }
    let end = put_number(memory, view, at, 8, value);
    (end, number_seen(memory, view, at, 8))
}

#[test]
fn outputs_over_a_page_edge(rt: HostRuntime) -> Result<(), Fail> {
    let mut memory = pages(rt.alloc())?;
    let view = View::identity(rt.alloc(), 0x100000, 0x100000)?;
    let value = 0x1122_3344_5566_7788;
    assert_eq!(rt; put(&mut memory, &view, 0x102ffc, value), (Ok(()), value));
    assert_eq!(rt; number_seen(&memory, &view, 0x103000, 2), 0x3344);
    assert_eq!(rt; number_seen(&memory, &view, 0x1ffffe, 4), 0);
    assert_eq!(rt; memory.touched(), 2);
    Ok(())
}
