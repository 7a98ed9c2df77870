//! Calls of the runtime services.

use address_view::View;
use guest_call::{can_write, number_seen, put_number};
use guest_memory::GuestMemory;
use runtime_services::{RuntimeService, serve_runtime};
use rv_step::Regs;
use std::alloc::{AllocError, Global};
use std::test::Fail;
use time_service::Clock;
use variable_store::Variables;

/// What a runtime service reads or changes.
#[derive(Drop)]
struct Machine {
    view: View,
    memory: GuestMemory,
    variables: Variables,
    clock: Clock,
    count: u64,
}

/// 16 pages from 0x100000 on, no variable, and the clock before a leap day.
fn fresh(alloc: Global) -> Result<Option<Machine>, AllocError> {
    let memory = GuestMemory::new(alloc, 0x100000, 16)?;
    let view = View::identity(alloc, 0x100000, 0x10000)?;
    match Clock::at("2024-02-28T23:59:59") {
        Some(clock) => Ok(Some(Machine {
            view,
            memory,
            variables: Variables::new(alloc),
            clock,
            count: 0,
        })),
        None => Ok(None),
    }
}

/// The registers of a call with these arguments.
fn call(arguments: [u64; 5]) -> Regs {
    let [a0, a1, a2, a3, a4] = arguments;
    let mut x = [0; 32];
    x[10] = a0;
    x[11] = a1;
    x[12] = a2;
    x[13] = a3;
    x[14] = a4;
    Regs { x, pc: 0 }
}

/// The value that a service gives, where the slot is one of a runtime service and no time before the clock's own is
/// asked for.
fn serve(
    alloc: Global,
    machine: &mut Machine,
    slot: u8,
    arguments: [u64; 5],
    now: u64,
    gone: bool,
) -> Result<Option<u64>, AllocError> {
    if RuntimeService::of_slot(slot).is_none() || machine.clock.set_at() > now {
        return Ok(None);
    }
    let served = serve_runtime(
        alloc,
        slot,
        &call(arguments),
        &machine.view,
        &mut machine.memory,
        &mut machine.variables,
        &mut machine.clock,
        &mut machine.count,
        now,
        gone,
    )?;
    Ok(Some(served.value))
}

/// The number of eight bytes at an address.
fn seen(machine: &Machine, at: u64) -> u64 {
    number_seen(&machine.memory, &machine.view, at, 8)
}

#[test]
fn time_over_a_leap_day(rt: HostRuntime) -> Result<(), Fail> {
    let alloc = rt.alloc();
    let mut machine = match fresh(alloc)? {
        Some(machine) => machine,
        None => {
            assert!(rt; false);
            return Ok(());
        }
    };
    // the moment, and the sixteen bytes that are shown then, as two numbers
    let rows = [
        (0, 0x003b_3b17_1c02_07e8, 0x0000_07ff_0000_0000),
        (10_000_000, 0x0000_0000_1d02_07e8, 0x0000_07ff_0000_0000),
        (
            864_020_000_000,
            0x0001_0000_0103_07e8,
            0x0000_07ff_0000_0000,
        ),
        (5, 0x003b_3b17_1c02_07e8, 0x0000_07ff_0000_01f4),
    ];
    for (now, low, high) in rows {
        let arguments = [0x101000, 0, 0, 0, 0];
        let value = serve(alloc, &mut machine, 44, arguments, now, false)?;
        assert_eq!(rt; value, Some(0));
        let shown = (seen(&machine, 0x101000), seen(&machine, 0x101008));
        assert_eq!(rt; shown, (low, high));
    }
    Ok(())
}

#[test]
fn count_over_a_carry(rt: HostRuntime) -> Result<(), Fail> {
    let alloc = rt.alloc();
    let mut machine = match fresh(alloc)? {
        Some(machine) => machine,
        None => {
            assert!(rt; false);
            return Ok(());
        }
    };
    // a slot, the count before and behind the call, and what is written
    let rows = [
        (27, 0, 1, 1),
        (27, 0xffff_ffff, 0x1_0000_0000, 0x1_0000_0000),
        (53, 0x1_0000_0007, 0x2_0000_0000, 2),
        (53, 0xffff_ffff_0000_0007, 0, 0),
        (27, u64::MAX, 0, 0),
    ];
    for (slot, before, after, written) in rows {
        machine.count = before;
        let value = serve(alloc, &mut machine, slot, [0x101000, 0, 0, 0, 0], 0, true)?;
        assert_eq!(rt; value, Some(0));
        assert_eq!(rt; machine.count, after);
        let width = if slot == 27 { 8 } else { 4 };
        assert_eq!(rt;
            number_seen(&machine.memory, &machine.view, 0x101000, width),
            written
        );
    }
    Ok(())
}

/// Puts a number of eight bytes where it may be put.
fn put(machine: &mut Machine, at: u64, value: u64) -> bool {
    can_write(&machine.memory, &machine.view, at, 8)
        && put_number(&mut machine.memory, &machine.view, at, 8, value).is_ok()
}

/// A call: a number that is put before it, its slot and its arguments, whether boot services are over, its status, and a
/// number that is seen behind it.
#[derive(Clone, Copy)]
struct Row {
    put: (u64, u64),
    slot: u8,
    arguments: [u64; 5],
    gone: bool,
    status: u64,
    seen: (u64, u64),
}

const ERROR: u64 = 1 << 63;

/// The names A, B and C, the vendor, the data, where the outputs go, and a name that goes over the variables.
const A: u64 = 0x102000;

const B: u64 = 0x102008;

const C: u64 = 0x102018;

const VENDOR: u64 = 0x102020;

const DATA: u64 = 0x102030;

const ATTRIBUTES: u64 = 0x103000;

const SIZE: u64 = 0x103008;

const BUFFER: u64 = 0x103010;

const NAME: u64 = 0x104000;

const NAME_SIZE: u64 = 0x104008;

const NAME_VENDOR: u64 = 0x104010;

const NOTHING: (u64, u64) = (0x105000, 0);

fn set(name: u64, attributes: u64, size: u64, data: u64, gone: bool, status: u64) -> Row {
    Row {
        put: NOTHING,
        slot: 52,
        arguments: [name, VENDOR, attributes, size, data],
        gone,
        status,
        seen: NOTHING,
    }
}

fn get(name: u64, room: u64, gone: bool, status: u64, seen: (u64, u64)) -> Row {
    Row {
        put: (SIZE, room),
        slot: 50,
        arguments: [name, VENDOR, ATTRIBUTES, SIZE, BUFFER],
        gone,
        status,
        seen,
    }
}

fn next(room: u64, gone: bool, status: u64, seen: (u64, u64)) -> Row {
    Row {
        put: (NAME_SIZE, room),
        slot: 51,
        arguments: [NAME_SIZE, NAME, NAME_VENDOR, 0, 0],
        gone,
        status,
        seen,
    }
}

fn info(attributes: u64, status: u64, seen: (u64, u64)) -> Row {
    Row {
        put: NOTHING,
        slot: 57,
        arguments: [attributes, 0x103020, 0x103028, 0x103030, 0],
        gone: false,
        status,
        seen,
    }
}

#[test]
fn variables_come_and_go(rt: HostRuntime) -> Result<(), Fail> {
    let alloc = rt.alloc();
    let mut machine = match fresh(alloc)? {
        Some(machine) => machine,
        None => {
            assert!(rt; false);
            return Ok(());
        }
    };
    let puts = [
        (A, 0x41),
        (B, 0x42),
        (C, 0x43),
        (VENDOR, 0x1111_2222_3333_4444),
        (VENDOR + 8, 0x5555_6666_7777_8888),
        (DATA, 0x0807_0605_0403_0201),
    ];
    for (at, value) in puts {
        assert!(rt; put(&mut machine, at, value));
    }
    let rows = [
        get(A, 8, false, ERROR + 14, (SIZE, 8)),
        set(0, 7, 4, DATA, false, ERROR + 2),
        set(C, 0, 8, 0, false, ERROR + 14),
        set(A, 7, 4, 0, false, ERROR + 2),
        set(A, 7, 0x20000, 0, false, ERROR + 9),
        set(A, 7, 4, DATA, false, 0),
        set(A, 3, 4, 0, false, ERROR + 2),
        set(A, 0, 4, 0, false, ERROR + 2),
        set(A, 0x47, 0, 0, true, 0),
        Row {
            put: (0x10fff8, 0x41 << 48),
            ..get(0x10fffe, 8, false, ERROR + 2, NOTHING)
        },
        get(A, 0x20000, false, ERROR + 2, (SIZE, 0x20000)),
        get(A, 3, false, ERROR + 5, (SIZE, 4)),
        get(A, 3, false, ERROR + 5, (ATTRIBUTES, 7)),
        get(A, 3, false, ERROR + 5, (BUFFER, 0)),
        get(A, 4, false, 0, (BUFFER, 0x0403_0201)),
        set(A, 0x47, 4, DATA + 4, true, 0),
        get(A, 8, true, 0, (BUFFER, 0x0807_0605_0403_0201)),
        set(B, 3, 8, DATA, false, 0),
        set(B, 3, 8, DATA, true, ERROR + 2),
        set(C, 6, 1, DATA, false, 0),
        set(C, 6, 1, DATA, true, ERROR + 8),
        set(C, 6, 1, 0, true, ERROR + 8),
        set(C, 6, 1, 0, false, ERROR + 2),
        set(C, 0x87, 1, 0, false, ERROR + 3),
        info(7, 0, (0x103020, 0x10000)),
        info(7, 0, (0x103028, 0x10000 - 44 - 44 - 37)),
        info(7, 0, (0x103030, 0x10000 - 44 - 44 - 37 - 34)),
        info(0x47, ERROR + 3, (0x103020, 0x10000)),
        info(5, ERROR + 2, (0x103020, 0x10000)),
        next(2, false, ERROR + 5, (NAME_SIZE, 4)),
        next(4, false, 0, (NAME, 0x41)),
        next(4, false, 0, (NAME, 0x42)),
        next(4, false, 0, (NAME_VENDOR, 0x1111_2222_3333_4444)),
        next(4, false, ERROR + 14, (NAME, 0x43)),
        set(A, 7, 0, 0, false, 0),
        get(A, 8, false, ERROR + 14, (SIZE, 8)),
    ];
    for row in rows {
        let (at, value) = row.put;
        assert!(rt; put(&mut machine, at, value));
        let status = serve(alloc, &mut machine, row.slot, row.arguments, 0, row.gone)?;
        assert_eq!(rt; status, Some(row.status));
        let (at, number) = row.seen;
        assert_eq!(rt; seen(&machine, at), number);
    }
    Ok(())
}

#[test]
fn clock_is_set(rt: HostRuntime) -> Result<(), Fail> {
    let alloc = rt.alloc();
    let mut machine = match fresh(alloc)? {
        Some(machine) => machine,
        None => {
            assert!(rt; false);
            return Ok(());
        }
    };
    // the two halves of the sixteen bytes at DATA, a slot, its arguments, its status, and what is seen at BUFFER
    let noon = (0x0000_000c_1f0c_270f, 0x0000_07ff_0000_0000);
    let rows = [
        (noon, 45, [DATA, 0, 0, 0, 0], 0, 0),
        (
            (0x003c_000c_1f0c_270f, 0),
            45,
            [DATA, 0, 0, 0, 0],
            ERROR + 2,
            0,
        ),
        (noon, 45, [0, 0, 0, 0, 0], ERROR + 2, 0),
        (noon, 44, [BUFFER, 0x101010, 0, 0, 0], 0, noon.0),
        (noon, 44, [BUFFER, 0x10fff8, 0, 0, 0], ERROR + 2, noon.0),
        (noon, 46, [0, 0, 0, 0, 0], ERROR + 3, noon.0),
        (noon, 47, [0, 0, 0, 0, 0], ERROR + 3, noon.0),
        (noon, 55, [0, 0, 0, 0, 0], ERROR + 2, noon.0),
        (noon, 55, [0, 1, 0, 0, 0], ERROR + 3, noon.0),
        (noon, 56, [0, 0, 0, 0, 0], ERROR + 3, noon.0),
    ];
    for (time, slot, arguments, status, number) in rows {
        assert!(rt; put(&mut machine, DATA, time.0));
        assert!(rt; put(&mut machine, DATA + 8, time.1));
        let value = serve(alloc, &mut machine, slot, arguments, 70, false)?;
        assert_eq!(rt; value, Some(status));
        assert_eq!(rt; seen(&machine, BUFFER), number);
    }
    assert_eq!(rt;
        (seen(&machine, 0x101010), seen(&machine, 0x101018)),
        (10_000_000, 0)
    );
    let late = 70 + 432_000_000_000;
    let value = serve(alloc, &mut machine, 44, [BUFFER, 0, 0, 0, 0], late, false)?;
    assert_eq!(rt; value, Some(ERROR + 7));
    Ok(())
}
