//! EFI_TIME.
#![tactic(auto)]

use crate::days;

/// A time as UEFI has it (EFI_TIME: UEFI 2.10, section 8.3, GetTime). The time zone is the number of minutes from
/// universal time, or 2047 for a local time. The daylight has bit 1 where daylight saving applies, and bit 2 where
/// the time was changed for it.
#[derive(Clone, Copy, Debug, PartialEq, Eq)]
pub struct EfiTime {
    pub year: u16,
    pub month: u8,
    pub day: u8,
    pub hour: u8,
    pub minute: u8,
    pub second: u8,
    pub nanosecond: u32,
    pub time_zone: i16,
    pub daylight: u8,
}

impl EfiTime {
    ghost use Rattle.std.specs.Prelude.{◌≡◌, true, IfSome};
    ghost use Rattle.time_service.specs.Times.{bytes_of, fields_of, time_of, is_valid, is_time_of_day, is_time_zone};

    /// The time of sixteen bytes: the fields in order, each with its least byte first, and a byte that isn't read behind
    /// the second and behind the daylight. None exactly where it isn't valid.
    #[tactic(auto, unfolding(crate::specs::Times::time_of))]
    pub fn read(bytes: &[u8; 16]) -> Option<EfiTime>
        ensures time { result ≡ time_of bytes.now }
        ensures valid { IfSome result (λ time. is_valid time ≡ true) }
    {
        let time = EfiTime::from_bytes(bytes);
        if time.is_valid() { Some(time) } else { None }
    }

    /// The fields of sixteen bytes.
    #[tactic(auto, unfolding(crate::specs::Times::fields_of))]
    fn from_bytes(bytes: &[u8; 16]) -> EfiTime
        ensures { result ≡ fields_of bytes.now }
    {
        let [
            y0,
            y1,
            month,
            day,
            hour,
            minute,
            second,
            _,
            n0,
            n1,
            n2,
            n3,
            z0,
            z1,
            daylight,
            _,
        ] = *bytes;
        EfiTime {
            year: u16::from_le_bytes([y0, y1]),
            month,
            day,
            hour,
            minute,
            second,
            nanosecond: u32::from_le_bytes([n0, n1, n2, n3]),
            time_zone: u16::from_le_bytes([z0, z1]).cast_signed(),
            daylight,
        }
    }

    /// The sixteen bytes of a time. Those that mean nothing are 0.
    #[tactic(auto, unfolding(crate::specs::Times::bytes_of))]
    pub fn to_bytes(&self) -> [u8; 16]
        ensures { result ≡ bytes_of self.now }
    {
        let [y0, y1] = self.year.to_le_bytes();
        let [n0, n1, n2, n3] = self.nanosecond.to_le_bytes();
        let [z0, z1] = self.time_zone.cast_unsigned().to_le_bytes();
        [
            y0,
            y1,
            self.month,
            self.day,
            self.hour,
            self.minute,
            self.second,
            0,
            n0,
            n1,
            n2,
            n3,
            z0,
            z1,
            self.daylight,
            0,
        ]
    }

    fn is_time_of_day(&self) -> bool
        ensures { result ≡ is_time_of_day self.now }
    {
        self.hour < 24 && self.minute < 60 && self.second < 60 && self.nanosecond < 1_000_000_000
    }

    fn is_time_zone(&self) -> bool
        ensures { result ≡ is_time_zone self.now.time_zone }
    {
        self.time_zone == 2047 || (self.time_zone >= -1440 && self.time_zone <= 1440)
    }

    /// A valid time: a date from 1900 to 9999 that the calendar has, a time of day, a time zone of a day at most or 2047,
    /// and a daylight from 0 to 3.
    #[tactic(auto, unfolding(crate::specs::Times::is_valid))]
    pub fn is_valid(&self) -> bool
        ensures { result ≡ is_valid self.now }
    {
        if self.year < 1900 || self.year > 9999 {
            return false;
        }
        days::is_date(self.year, self.month, self.day)
            && self.is_time_of_day()
            && self.is_time_zone()
            && self.daylight < 4
    }
}
