//! Events of all types and levels.

use crate::calls::{call, fresh, plain};
use event_queue::Events;
use event_services::create_event_ex;
use guest_call::number_seen;
use std::test::Fail;
use uh_base::EfiStatus;

const DONE: u64 = EfiStatus::SUCCESS.0;

const INVALID: u64 = EfiStatus::INVALID_PARAMETER.0;

/// A function, and a group's GUID.
const CODE: u64 = 0x104000;

const GROUP: u64 = 0x108000;

/// The type, level, function and group of an event, the status of its creation, and the number of the last event made.
const ROWS: [[u64; 6]; 24] = [
    [0, 0, 0, 0, DONE, 24],
    [0x8000_0000, 31, 0, 0, DONE, 40],
    [0x4000_0000, 4, CODE, GROUP, DONE, 56],
    [0xc000_0100, 8, CODE, GROUP, DONE, 72],
    [0xffff_ffff_0000_0000, 4, 0, 0, DONE, 88],
    [0x100, 4, CODE, 0, INVALID, 88],
    [0x100, 5, CODE, 0, DONE, 104],
    [0x100, 30, CODE, GROUP, DONE, 120],
    [0x100, 31, CODE, 0, INVALID, 120],
    [0x100, 1 << 63, CODE, 0, INVALID, 120],
    [0x100, 8, 0, 0, INVALID, 120],
    [0x200, 16, CODE, 0, DONE, 136],
    [0x200, 4, CODE, 0, INVALID, 136],
    [0x200, 16, 0, GROUP, INVALID, 136],
    [0x300, 8, CODE, 0, INVALID, 136],
    [0x201, 8, CODE, 0, DONE, 152],
    [0x201, 8, CODE, GROUP, INVALID, 152],
    [0x201, 31, CODE, 0, INVALID, 152],
    [0x6000_0202, 8, CODE, 0, DONE, 168],
    [0x6000_0202, 8, CODE, GROUP, INVALID, 168],
    [0x202, 8, CODE, 0, INVALID, 168],
    [0x8000_0201, 8, CODE, 0, INVALID, 168],
    [0x2000_0000, 8, CODE, 0, INVALID, 168],
    [1, 8, CODE, 0, INVALID, 168],
];

#[test]
fn events_of_all_types_and_levels(rt: HostRuntime) -> Result<(), Fail> {
    let alloc = rt.alloc();
    let mut memory = fresh(alloc)?;
    let view = plain(alloc)?;
    let mut events = Events::new(alloc, Vec::new(alloc))?;
    for [kind, tpl, function, group, status, number] in ROWS {
        let asked = call([kind, tpl, function, 0, group, 0x110000]);
        let served = create_event_ex(alloc, &asked, &view, &mut memory, &mut events)?;
        assert_eq!(rt; served.value, status);
        assert_eq!(rt; number_seen(&memory, &view, 0x110000, 8), number);
    }
    Ok(())
}
