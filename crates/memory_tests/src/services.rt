//! Calls of a guest, one after another.

use address_view::View;
use guest_call::{Answer, can_write, number_seen, put_number};
use guest_memory::GuestMemory;
use memory_services::{calculate_crc32, copy_mem, get_memory_map, set_mem};
use page_alloc::{Layout, PageMap};
use std::alloc::{AllocError, Global};
use std::test::Fail;
use uh_base::EfiStatus;

/// 256 pages from 0x100000 on.
fn fresh(alloc: Global) -> Result<GuestMemory, AllocError> {
    GuestMemory::new(alloc, 0x100000, 256)
}

/// The registers of a call with these arguments.
fn call(arguments: [u64; 5]) -> [u64; 32] {
    let [a0, a1, a2, a3, a4] = arguments;
    let mut registers = [0; 32];
    registers[10] = a0;
    registers[11] = a1;
    registers[12] = a2;
    registers[13] = a3;
    registers[14] = a4;
    registers
}

/// Puts a number of 8 bytes where it may be put.
fn put(memory: &mut GuestMemory, view: &View, at: u64, value: u64) -> bool {
    can_write(memory, view, at, 8) && put_number(memory, view, at, 8, value).is_ok()
}

#[test]
fn bytes_are_moved(rt: HostRuntime) -> Result<(), Fail> {
    let alloc = rt.alloc();
    let mut memory = fresh(alloc)?;
    let view = View::identity(alloc, 0x100000, 0x100000)?;
    let done = Answer::Gives(0);
    assert!(rt; put(&mut memory, &view, 0x110000, 0x0807_0605_0403_0201));
    let forward = call([0x110003, 0x110000, 8, 0, 0]);
    assert_eq!(rt; copy_mem(alloc, &forward, &view, &mut memory)?, done);
    assert_eq!(rt;
        number_seen(&memory, &view, 0x110003, 8),
        0x0807_0605_0403_0201
    );
    assert_eq!(rt; number_seen(&memory, &view, 0x110000, 4), 0x0103_0201);
    let backward = call([0x110001, 0x110003, 8, 0, 0]);
    assert_eq!(rt; copy_mem(alloc, &backward, &view, &mut memory)?, done);
    assert_eq!(rt;
        number_seen(&memory, &view, 0x110001, 8),
        0x0807_0605_0403_0201
    );
    let outside = call([0x1ffffc, 0x110001, 8, 0, 0]);
    assert_eq!(rt; copy_mem(alloc, &outside, &view, &mut memory)?, done);
    assert_eq!(rt; number_seen(&memory, &view, 0x1ffffc, 4), 0);
    let set = call([0x110ffe, 4, 0x1ff, 0, 0]);
    assert_eq!(rt; set_mem(alloc, &set, &view, &mut memory)?, done);
    assert_eq!(rt; number_seen(&memory, &view, 0x110ffd, 8), 0x00ff_ffff_ff00);
    Ok(())
}

#[test]
fn crc_of_digits(rt: HostRuntime) -> Result<(), Fail> {
    let alloc = rt.alloc();
    let mut memory = fresh(alloc)?;
    let view = View::identity(alloc, 0x100000, 0x100000)?;
    assert!(rt; put(&mut memory, &view, 0x110000, 0x3837_3635_3433_3231));
    assert!(rt; put(&mut memory, &view, 0x110008, 0x39));
    const INVALID: Answer = Answer::Gives(EfiStatus::INVALID_PARAMETER.0);
    const ROWS: [([u64; 5], Answer, u64); 4] = [
        ([0x110000, 9, 0x110100, 0, 0], Answer::Gives(0), 0xcbf4_3926),
        ([0x110000, 0, 0x110200, 0, 0], INVALID, 0),
        ([0, 9, 0x110200, 0, 0], INVALID, 0),
        ([0x110000, 9, 0, 0, 0], INVALID, 0),
    ];
    for (arguments, answer, value) in ROWS {
        let told = calculate_crc32(alloc, &call(arguments), &view, &mut memory)?;
        assert_eq!(rt; told, answer);
        assert_eq!(rt; number_seen(&memory, &view, arguments[2], 4), value);
    }
    Ok(())
}

#[test]
fn the_map_is_told(rt: HostRuntime) -> Result<(), Fail> {
    let alloc = rt.alloc();
    let mut memory = fresh(alloc)?;
    let pages = PageMap::new(alloc, &Layout::at(0x100000, 256))?;
    let view = View::identity(alloc, 0x100000, 0x100000)?;
    let short = call([0x110000, 0x111000, 0x110010, 0x110020, 0x110030]);
    assert!(rt; put(&mut memory, &view, 0x110000, 199));
    let told = get_memory_map(&short, &view, &mut memory, &pages)?;
    assert_eq!(rt; told, Answer::Gives(EfiStatus::BUFFER_TOO_SMALL.0));
    let numbers = [
        number_seen(&memory, &view, 0x110000, 8),
        number_seen(&memory, &view, 0x110010, 8),
        number_seen(&memory, &view, 0x110020, 8),
        number_seen(&memory, &view, 0x110030, 8),
        number_seen(&memory, &view, 0x111000, 8),
    ];
    assert_eq!(rt; numbers, [200, 0, 40, 1, 0]);
    let told = get_memory_map(&short, &view, &mut memory, &pages)?;
    assert_eq!(rt; told, Answer::Gives(0));
    let numbers = [
        number_seen(&memory, &view, 0x110000, 8),
        number_seen(&memory, &view, 0x110010, 8),
        number_seen(&memory, &view, 0x111000, 8),
        number_seen(&memory, &view, 0x111008, 8),
        number_seen(&memory, &view, 0x111018, 8),
        number_seen(&memory, &view, 0x111028, 8),
    ];
    assert_eq!(rt; numbers, [200, 1, 7, 0x100000, 188, 2]);
    let nowhere = call([0x110000, 0, 0x110010, 0, 0]);
    let told = get_memory_map(&nowhere, &view, &mut memory, &pages)?;
    assert_eq!(rt; told, Answer::Gives(EfiStatus::INVALID_PARAMETER.0));
    Ok(())
}
