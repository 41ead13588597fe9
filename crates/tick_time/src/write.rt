//! The written form of a moment.

ghost use Rattle.std.specs.Prelude.{◌≡◌, ◌<◌, ◌+◌, ◌/◌, ◌%◌};
ghost use Rattle.tick_time.specs.MomentText.{moment_text, digit};

use crate::civil_date::CivilDate;
use crate::moment::Moment;
use crate::ticks::{DAY, HOUR, MINUTE, SECOND};

// The digit of a number at a place, which is a power of ten.
fn digit(n: u64, place: u64) -> u8
    requires { 0 < place }
    ensures { result ≡ digit n place }
{
    b'0' + (n / place % 10) as u8
}

/// The text of a moment, `YYYY-MM-DDTHH:MM:SS.fffffffZ`; `END` is written as the moment before it.
#[tactic(auto, unfolding(crate::specs::MomentText::moment_text))]
pub fn write_moment(m: Moment) -> [u8; 28]
    ensures { result ≡ moment_text m }
{
    let ticks = m.count_before_end();
    let date = CivilDate::of_ticks(ticks);
    let year = date.year as u64;
    let month = date.month as u64;
    let day = date.day as u64;
    let time = ticks % DAY;
    let hour = time / HOUR;
    let minute = time / MINUTE % 60;
    let second = time / SECOND % 60;
    let fraction = time % SECOND;
    [
        digit(year, 1000),
        digit(year, 100),
        digit(year, 10),
        digit(year, 1),
        b'-',
        digit(month, 10),
        digit(month, 1),
        b'-',
        digit(day, 10),
        digit(day, 1),
        b'T',
        digit(hour, 10),
        digit(hour, 1),
        b':',
        digit(minute, 10),
        digit(minute, 1),
        b':',
        digit(second, 10),
        digit(second, 1),
        b'.',
        digit(fraction, 1_000_000),
        digit(fraction, 100_000),
        digit(fraction, 10_000),
        digit(fraction, 1000),
        digit(fraction, 100),
        digit(fraction, 10),
        digit(fraction, 1),
        b'Z',
    ]
}
