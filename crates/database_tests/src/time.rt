//! Dates and times worked by hand.

use std::test::Fail;
use time_service::{Clock, EfiTime};

/// A valid time, with parts of its own in each field.
const TIME: EfiTime = EfiTime {
    year: 2024,
    month: 2,
    day: 29,
    hour: 23,
    minute: 59,
    second: 58,
    nanosecond: 123_456_789,
    time_zone: -90,
    daylight: 3,
};

const BYTES: [u8; 16] = [
    0xe8, 0x07, 2, 29, 23, 59, 58, 0, 0x15, 0xcd, 0x5b, 0x07, 0xa6, 0xff, 3, 0,
];

#[test]
fn bytes_of_a_time(rt: HostRuntime) -> Result<(), Fail> {
    assert_eq!(rt; TIME.to_bytes(), BYTES);
    assert_eq!(rt; EfiTime::read(&BYTES), Some(TIME));
    let mut bytes = BYTES;
    bytes[7] = 0xff;
    bytes[15] = 0xff;
    assert_eq!(rt; EfiTime::read(&bytes), Some(TIME));
    Ok(())
}

#[test]
fn bytes_at_the_edges(rt: HostRuntime) -> Result<(), Fail> {
    // an offset, the byte that stands there in place of the one in BYTES, and whether the time is valid
    const ROWS: [(usize, u8, bool); 20] = [
        (0, 0xe9, false),
        (0, 0xec, true),
        (1, 0x27, false),
        (2, 0, false),
        (2, 13, false),
        (2, 3, true),
        (3, 0, false),
        (3, 30, false),
        (4, 24, false),
        (5, 60, false),
        (6, 60, false),
        (6, 59, true),
        (7, 1, true),
        (11, 0x3b, true),
        (11, 0x3c, false),
        (13, 0x04, true),
        (13, 0x05, false),
        (13, 0xf5, false),
        (14, 4, false),
        (14, 0, true),
    ];
    for (at, byte, valid) in ROWS {
        let mut bytes = BYTES;
        if let Some(place) = bytes.get_mut(at) {
            *place = byte;
        }
        assert_eq!(rt; EfiTime::read(&bytes).is_some(), valid);
    }
    Ok(())
}

#[test]
fn zones(rt: HostRuntime) -> Result<(), Fail> {
    const ROWS: [(i16, bool); 9] = [
        (0, true),
        (1440, true),
        (1441, false),
        (-1440, true),
        (-1441, false),
        (2046, false),
        (2047, true),
        (2048, false),
        (i16::MIN, false),
    ];
    for (time_zone, valid) in ROWS {
        let time = EfiTime { time_zone, ..TIME };
        assert_eq!(rt; time.is_valid(), valid);
    }
    Ok(())
}

#[test]
fn days_of_the_calendar(rt: HostRuntime) -> Result<(), Fail> {
    const ROWS: [(u16, u8, u8, bool); 15] = [
        (1899, 12, 31, false),
        (1900, 1, 1, true),
        (1900, 2, 28, true),
        (1900, 2, 29, false),
        (2000, 2, 29, true),
        (2000, 2, 30, false),
        (2023, 2, 29, false),
        (2024, 2, 29, true),
        (2100, 2, 29, false),
        (2024, 4, 30, true),
        (2024, 4, 31, false),
        (2024, 12, 31, true),
        (2024, 12, 32, false),
        (9999, 12, 31, true),
        (10000, 1, 1, false),
    ];
    for (year, month, day, valid) in ROWS {
        let time = EfiTime {
            year,
            month,
            day,
            ..TIME
        };
        assert_eq!(rt; time.is_valid(), valid);
    }
    Ok(())
}

#[test]
fn texts(rt: HostRuntime) -> Result<(), Fail> {
    const ROWS: [(&str, bool); 18] = [
        ("2024-01-01T00:00:00", true),
        ("1900-01-01T00:00:00", true),
        ("1899-12-31T23:59:59", false),
        ("9999-12-31T23:59:59", true),
        ("2024-02-29T00:00:00", true),
        ("2023-02-29T00:00:00", false),
        ("2100-02-29T00:00:00", false),
        ("2024-01-01T24:00:00", false),
        ("2024-01-01T00:60:00", false),
        ("2024-01-01T00:00:60", false),
        ("2024-01-01t00:00:00", false),
        ("2024-01-01 00:00:00", false),
        ("2024-01-01T00:00:00Z", false),
        ("2024-01-01T00:00", false),
        ("2024-1-01T00:00:00", false),
        ("+024-01-01T00:00:00", false),
        ("2024-0:-01T00:00:00", false),
        ("", false),
    ];
    for (text, read) in ROWS {
        assert_eq!(rt; Clock::at(text).is_some(), read);
    }
    Ok(())
}

/// What a clock shows that a text has set.
fn moment_after(text: &str, now: u64) -> Option<EfiTime> {
    match Clock::at(text) {
        Some(clock) => clock.moment(now),
        None => None,
    }
}

#[test]
fn moments(rt: HostRuntime) -> Result<(), Fail> {
    // a text, a moment in units of 100 ns, and the bytes of the time then
    const ROWS: [(&str, u64, [u8; 16]); 8] = [
        (
            "2024-02-28T23:59:59",
            0,
            [0xe8, 7, 2, 28, 23, 59, 59, 0, 0, 0, 0, 0, 0xff, 7, 0, 0],
        ),
        (
            "2024-02-28T23:59:59",
            20_000_000,
            [0xe8, 7, 2, 29, 0, 0, 1, 0, 0, 0, 0, 0, 0xff, 7, 0, 0],
        ),
        (
            "2023-02-28T23:59:59",
            10_000_000,
            [0xe7, 7, 3, 1, 0, 0, 0, 0, 0, 0, 0, 0, 0xff, 7, 0, 0],
        ),
        (
            "2100-02-28T23:59:59",
            10_000_000,
            [0x34, 8, 3, 1, 0, 0, 0, 0, 0, 0, 0, 0, 0xff, 7, 0, 0],
        ),
        (
            "1900-01-01T00:00:00",
            1,
            [0x6c, 7, 1, 1, 0, 0, 0, 0, 100, 0, 0, 0, 0xff, 7, 0, 0],
        ),
        (
            "2024-12-31T23:59:59",
            9_999_999,
            [
                0xe8, 7, 12, 31, 23, 59, 59, 0, 0x9c, 0xc9, 0x9a, 0x3b, 0xff, 7, 0, 0,
            ],
        ),
        (
            "2024-12-31T23:59:59",
            10_000_000,
            [0xe9, 7, 1, 1, 0, 0, 0, 0, 0, 0, 0, 0, 0xff, 7, 0, 0],
        ),
        (
            "1900-01-01T00:00:00",
            31_556_736_000_000_000,
            [0xd0, 7, 1, 1, 0, 0, 0, 0, 0, 0, 0, 0, 0xff, 7, 0, 0],
        ),
    ];
    for (text, now, wanted) in ROWS {
        let time = moment_after(text, now);
        assert_eq!(rt; time.map(|time| time.to_bytes()), Some(wanted));
    }
    Ok(())
}

#[test]
fn the_end_of_9999(rt: HostRuntime) -> Result<(), Fail> {
    const ROWS: [(u64, bool); 4] = [
        (0, true),
        (9_999_999, true),
        (10_000_000, false),
        (u64::MAX, false),
    ];
    for (now, shown) in ROWS {
        let time = Clock::at("9999-12-31T23:59:59").and_then(|clock| clock.moment(now));
        assert_eq!(rt; time.is_some(), shown);
    }
    Ok(())
}

#[test]
fn a_clock_that_is_set(rt: HostRuntime) -> Result<(), Fail> {
    let mut clock = Clock::at("2024-01-01T00:00:00").expect(&rt, "a clock");
    assert!(rt; TIME.is_valid());
    clock.set(5_000, &TIME);
    assert_eq!(rt; clock.set_at(), 5_000);
    assert_eq!(rt; clock.moment(5_000), Some(TIME));
    let later = EfiTime {
        nanosecond: 123_456_889,
        ..TIME
    };
    assert_eq!(rt; clock.moment(5_001), Some(later));
    // a second, and 876,543,300 of the last second's nanoseconds, lead to 1 March
    let march = EfiTime {
        month: 3,
        day: 1,
        hour: 0,
        minute: 0,
        second: 0,
        nanosecond: 89,
        ..TIME
    };
    assert_eq!(rt; clock.moment(5_000 + 10_000_000 + 8_765_433), Some(march));
    Ok(())
}
