//! The clock.
#![tactic(auto)]

ghost use Rattle.std.specs.Prelude.{◌≡◌, ◌≤◌, ◌<◌, true, IfSome};
ghost use Rattle.time_service.specs.Times.{is_valid};
ghost use Rattle.time_service.specs.Clocks.{ClockState, IsClock, set_to, time_on, moment_of};
ghost use Rattle.time_service.specs.Texts.{clock_of};

use crate::efi_time::EfiTime;
use crate::{days, text};
use std::marker::Model;

const NANOSECONDS_A_DAY: u128 = 86_400_000_000_000;

/// A clock: it shows the time that was set last and what has passed since then, by the host's time in units of 100
/// nanoseconds.
#[derive(Clone, Copy, Debug)]
pub struct Clock {
    day: u32,
    nanosecond: u64,
    time_zone: i16,
    daylight: u8,
    set_at: u64,
}

impl Model for Clock {
    ghost use Rattle.time_service.specs.Clocks.{ClockState, IsClock};

    ghost Value = { ClockState };

    ghost view = { λ c. record { day = c.day; nanosecond = c.nanosecond; time_zone = c.time_zone; daylight = c.daylight; set_at = c.set_at } };

    ghost invariant = { λ c. IsClock (record { day = c.day; nanosecond = c.nanosecond; time_zone = c.time_zone; daylight = c.daylight; set_at = c.set_at }) };

    ghost inverse = { λ c. record { day = c.day; nanosecond = c.nanosecond; time_zone = c.time_zone; daylight = c.daylight; set_at = c.set_at } };
}

impl Clock {
    /// The clock that a text sets at the host's time 0, as `2024-01-01T00:00:00`: a valid date and time of day from 1900
    /// on, with time zone 2047 and daylight 0. None exactly where the text says no such time.
    #[tactic(auto, unfolding(crate::specs::Texts::clock_of))]
    pub fn at(text: &str) -> Option<Clock>
        ensures clock { result ≡ clock_of text.now }
        ensures set_at { IfSome result (λ clock. clock.set_at ≡ 0) }
    {
        let bytes = text.as_bytes();
        if !text::is_in_form(bytes) {
            return None;
        }
        let time = text::time_in(bytes);
        if time.is_valid() {
            Some(Clock::set_to(0, &time))
        } else {
            None
        }
    }

    #[tactic(auto, unfolding(crate::specs::Clocks::set_to))]
    fn set_to(now: u64, time: &EfiTime) -> Clock
        requires { is_valid time.now ≡ true }
        ensures clock { result ≡ set_to now time.now }
        ensures set_at { result.set_at ≡ now }
    {
        let seconds = u64::from(time.hour) * 3600
            + u64::from(time.minute) * 60
            + u64::from(time.second);
        Clock {
            day: days::day_number(time.year, time.month, time.day),
            nanosecond: seconds * 1_000_000_000 + u64::from(time.nanosecond),
            time_zone: time.time_zone,
            daylight: time.daylight,
            set_at: now,
        }
    }

    /// Sets the time at a moment of the host, in units of 100 nanoseconds (UEFI 2.10, section 8.3, SetTime).
    pub fn set(&mut self, now: u64, time: &EfiTime)
        requires { is_valid time.now ≡ true }
        ensures clock { self.new ≡ set_to now time.now }
        ensures set_at { self.new.set_at ≡ now }
    {
        *self = Clock::set_to(now, time);
    }

    /// The host's time at which the clock was set: 0 for one that a text has set.
    pub fn set_at(&self) -> u64
        ensures { result ≡ self.now.set_at }
    {
        self.set_at
    }

    /// What is so of every clock.
    pub fn whole(&self)
        ensures { IsClock self.now }
    {
        let _ = &self.day;
    }

    /// A date and a time of that day, in nanoseconds since midnight.
    fn time_on(&self, nanosecond: u64, year: u16, month: u8, day: u8) -> EfiTime
        requires { nanosecond < 86_400_000_000_000 }
        ensures { result ≡ time_on self.now nanosecond (record { year = year; month = month; day = day }) }
    {
        EfiTime {
            year,
            month,
            day,
            hour: (nanosecond / 3_600_000_000_000) as u8,
            minute: (nanosecond / 60_000_000_000 % 60) as u8,
            second: (nanosecond / 1_000_000_000 % 60) as u8,
            nanosecond: (nanosecond % 1_000_000_000) as u32,
            time_zone: self.time_zone,
            daylight: self.daylight,
        }
    }

    /// What the clock shows at a moment of the host, in units of 100 nanoseconds (UEFI 2.10, section 8.3, GetTime).
    /// None exactly after 9999.
    pub fn moment(&self, now: u64) -> Option<EfiTime>
        requires { self.now.set_at ≤ now }
        ensures moment { result ≡ moment_of self.now now }
        ensures valid { IfSome result (λ time. is_valid time ≡ true) }
    {
        let passed = u128::from(self.nanosecond) + 100 * u128::from(now - self.set_at);
        let day = u64::from(self.day) + (passed / NANOSECONDS_A_DAY) as u64;
        let nanosecond = (passed % NANOSECONDS_A_DAY) as u64;
        match days::date_of(day) {
            Some((year, month, day)) => Some(self.time_on(nanosecond, year, month, day)),
            None => None,
        }
    }
}
