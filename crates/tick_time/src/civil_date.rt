//! `CivilDate`, a year, a month and a day, and its number by jiff's calendar.

ghost use Rattle.std.specs.Prelude.{◌≡◌, ◌≤◌, ◌<◌, ◌/◌, IfSome, IsTrue};
ghost use Rattle.jiff_core.specs.Calendar.{IsEpochDay};
ghost use Rattle.tick_time.specs.Moment.{end_ticks};
ghost use Rattle.tick_time.specs.Ticks.{day_ticks};

use crate::ticks::DAY;
use jiff::civil::Date;
use jiff_core::civil;

/// A year, a month and a day, whether the calendar has it or not.
#[derive(Clone, Copy)]
pub struct CivilDate {
    pub year: u16,
    pub month: u8,
    pub day: u8,
}

impl CivilDate {
    ghost use Rattle.tick_time.specs.Calendar.{HasDigits, is_date, date_number, date_of_number, date_of};
    ghost use Rattle.tick_time.specs.DateArithmetic.{month_index, date_in_month, end_month};

    /// The date of a moment of so many ticks.
    pub fn of_ticks(ticks: u64) -> CivilDate
        requires { ticks < end_ticks }
        ensures value { result ≡ date_of ticks }
        ensures exists { IsTrue (is_date result) }
    {
        CivilDate::of_number((ticks / DAY) as u32)
    }

    // The date that stands so many days after 1970-01-01.
    fn of_number(number: u32) -> CivilDate
        requires { number < end_ticks / day_ticks }
        ensures value { result ≡ date_of_number number }
        ensures exists { IsTrue (is_date result) }
    {
        match civil::Date::from_unix_epoch_day(number as i64) {
            Ok(date) => CivilDate {
                year: date.year as u16,
                month: date.month,
                day: date.day,
            },
            Err(_) => unreachable!(),
        }
    }

    /// The days since 1970-01-01, below 0 before it; `None` exactly where the calendar has no such
    /// date.
    pub fn number(self) -> Option<i64>
        requires { HasDigits self }
        ensures value { result ≡ date_number self }
        ensures bound { IfSome result IsEpochDay }
    {
        match Date::new(self.year as i16, self.month as i8, self.day as i8) {
            Ok(date) => Some(date.to_plain().to_unix_epoch_day() as i64),
            Err(_) => None,
        }
    }

    /// The months from the first month of the year 0 to this date's.
    pub fn month_index(self) -> u64
        requires { IsTrue (is_date self) }
        ensures { result ≡ month_index self }
    {
        self.year as u64 * 12 + (self.month as u64 - 1)
    }

    /// The date in a month at a day, or at the month's last day; month 0 is the first of the year 0.
    pub fn in_month(index: u64, day: u8) -> CivilDate
        requires month { index < end_month }
        requires day { 1 ≤ day }
        ensures value { result ≡ date_in_month index day }
        ensures exists { IsTrue (is_date result) }
        ensures digits { HasDigits result }
    {
        let year = (index / 12) as u16;
        let month = (index % 12) as u8 + 1;
        CivilDate {
            year,
            month,
            day: day.min(civil::days_in_month(year as i16, month)),
        }
    }
}
