//! Dates and their numbers, from 1 January 1900 on, which is day 0.
#![tactic(auto)]

ghost use Rattle.std.specs.Prelude.{◌≡◌, ◌<◌, ◌≤◌, true, IfSome, option_map};
ghost use Rattle.time_service.specs.Times.{is_date};
ghost use Rattle.time_service.specs.Days.{day_number, date_of};

use jiff_core::civil::Date;

/// How many days lie between the first day that jiff has and 1 January 1900.
const FIRST_DAY: u32 = 4_346_020;

/// The number of 31 December 9999.
const LAST_DAY: u64 = 2_958_463;

/// The calendar has this day.
pub fn is_date(year: u16, month: u8, day: u8) -> bool
    requires { year ≤ 9999 }
    ensures { result ≡ is_date year month day }
{
    month <= 12 && day <= 31 && Date::new(year as i16, month as i8, day as i8).is_ok()
}

/// The number of a day.
pub fn day_number(year: u16, month: u8, day: u8) -> u32
    requires first { 1900 ≤ year }
    requires last { year ≤ 9999 }
    requires date { is_date year month day ≡ true }
    ensures number { result ≡ day_number year month day }
    ensures bound { result < 2_958_464 }
{
    Date::constrain(year as i16, month, day).days_since_min() - FIRST_DAY
}

/// The date of a day number: its year, month and day. None exactly after 31 December 9999.
pub fn date_of(number: u64) -> Option<(u16, u8, u8)>
    ensures date { result ≡ option_map (λ date. (date.year, date.month, date.day)) (date_of number) }
    ensures first { IfSome result (λ date. 1900 ≤ date.0) }
    ensures last { IfSome result (λ date. date.0 ≤ 9999) }
    ensures civil { IfSome result (λ date. is_date date.0 date.1 date.2 ≡ true) }
{
    if number > LAST_DAY {
        return None;
    }
    let date = Date::from_days_since_min(number as u32 + FIRST_DAY);
    Some((date.year.unsigned_abs(), date.month, date.day))
}
