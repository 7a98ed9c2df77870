//! Task priority levels, and time that passes.

use crate::calls::call;
use event_services::{LevelSet, raise_tpl, restore_tpl, set_watchdog_timer, stall};
use std::test::Fail;

/// The level and the value of a service that sets a level.
fn set(tpl: u8, value: u64) -> Option<LevelSet> {
    Some(LevelSet { tpl, value })
}

#[test]
fn levels_rise_and_fall(rt: HostRuntime) -> Result<(), Fail> {
    let rows = [
        (4, 8, set(8, 4), None),
        (8, 8, set(8, 8), set(8, 0)),
        (16, 4, None, set(4, 0)),
        (4, 31, set(31, 4), None),
        (4, 32, None, None),
        (4, 3, None, None),
        (31, 0, None, None),
        (4, u64::MAX, None, None),
    ];
    for (tpl, level, raised, restored) in rows {
        let registers = call([level, 0, 0, 0, 0, 0]);
        assert_eq!(rt; raise_tpl(&registers, tpl), raised);
        assert_eq!(rt; restore_tpl(&registers, tpl), restored);
    }
    Ok(())
}

#[test]
fn time_passes_in_a_stall(rt: HostRuntime) -> Result<(), Fail> {
    let alloc = rt.alloc();
    let rows = [
        (7, 3, 37),
        (7, 0, 7),
        (u64::MAX - 20, 2, u64::MAX),
        (0, 1 << 63, u64::MAX),
    ];
    for (before, microseconds, after) in rows {
        let mut moment = before;
        let served = stall(alloc, &call([microseconds, 0, 0, 0, 0, 0]), &mut moment);
        assert_eq!(rt; served.value, 0);
        assert_eq!(rt; moment, after);
    }
    assert_eq!(rt; set_watchdog_timer(alloc).value, 0);
    Ok(())
}
