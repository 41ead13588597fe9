//! Parts of moments: adding them, counting their boundaries, and reading their fields.

ghost use Rattle.std.specs.Prelude.{◌≡◌, ◌<◌, ◌≤◌, ◌*ℤ◌, pos};
ghost use Rattle.tick_time.specs.Moment.{end_ticks};
ghost use Rattle.tick_time.specs.Ticks.{day_ticks};
ghost use Rattle.tick_time.specs.DateArithmetic.{end_month, moment_in_month, sum_of_months, sum_of_ticks, sum_before_end, date_sum, boundaries_to, date_difference, field_before_end, date_field};

use crate::civil_date::CivilDate;
use crate::moment::Moment;
use crate::part::Part;
use crate::ticks::{DAY, HOUR, MICROSECOND, MILLISECOND, MINUTE, SECOND};

// The months before the year 10000, from the first of the year 0 on.
const END_MONTH: i64 = 10_000 * 12;

// The moment in a month at a moment's day, or at the month's last day, and at its time of day.
#[tactic(auto, unfolding(crate::specs::Calendar::date_number))]
fn moment_in_month(index: u64, ticks: u64) -> Option<Moment>
    requires index { index < end_month }
    requires ticks { ticks < end_ticks }
    ensures { result ≡ moment_in_month index ticks }
{
    let day = CivilDate::of_ticks(ticks).day;
    let date = CivilDate::in_month(index, day);
    let number = date.number()?;
    Moment::below_limit(number * DAY as i64 + (ticks % DAY) as i64)
}

// So many months later.
fn add_months(n: i64, ticks: u64) -> Option<Moment>
    requires { ticks < end_ticks }
    ensures { result ≡ sum_of_months n ticks }
{
    let index = n.checked_add(CivilDate::of_ticks(ticks).month_index() as i64)?;
    if index < 0 || index >= END_MONTH {
        return None;
    }
    moment_in_month(index as u64, ticks)
}

// So many years later.
fn add_years(n: i64, ticks: u64) -> Option<Moment>
    requires { ticks < end_ticks }
    ensures { result ≡ sum_of_months (n *ℤ pos 12) ticks }
{
    add_months(n.checked_mul(12)?, ticks)
}

// So many lengths of these ticks later.
fn add_ticks(length: u64, n: i64, ticks: u64) -> Option<Moment>
    requires length { length ≤ day_ticks }
    requires ticks { ticks < end_ticks }
    ensures { result ≡ sum_of_ticks length n ticks }
{
    let more = n.checked_mul(length as i64)?;
    Moment::below_limit(more.checked_add(ticks as i64)?)
}

/// A moment with `n` parts added; months and years keep to the month's last day.
/// `None` exactly where the sum is below 0 or not below `LIMIT`.
#[tactic(auto, unfolding(crate::specs::DateArithmetic::date_sum))]
pub fn date_add(part: Part, n: i64, m: Moment) -> Option<Moment>
    ensures { result ≡ date_sum part n m }
{
    let ticks = m.count_before_end();
    match part {
        Part::Year => add_years(n, ticks),
        Part::Month => add_months(n, ticks),
        Part::Day => add_ticks(DAY, n, ticks),
        Part::Hour => add_ticks(HOUR, n, ticks),
        Part::Minute => add_ticks(MINUTE, n, ticks),
        Part::Second => add_ticks(SECOND, n, ticks),
        Part::Millisecond => add_ticks(MILLISECOND, n, ticks),
        Part::Microsecond => add_ticks(MICROSECOND, n, ticks),
    }
}

// How many boundaries of a part lie between a fixed start and a moment of so many ticks.
fn boundaries_to(part: Part, ticks: u64) -> u64
    requires { ticks < end_ticks }
    ensures value { result ≡ boundaries_to part ticks }
    ensures bound { result < end_ticks }
{
    match part {
        Part::Year => CivilDate::of_ticks(ticks).year as u64,
        Part::Month => CivilDate::of_ticks(ticks).month_index(),
        Part::Day => ticks / DAY,
        Part::Hour => ticks / HOUR,
        Part::Minute => ticks / MINUTE,
        Part::Second => ticks / SECOND,
        Part::Millisecond => ticks / MILLISECOND,
        Part::Microsecond => ticks / MICROSECOND,
    }
}

/// The boundaries of a part that are crossed from `a` to `b`, below 0 where `b` is earlier.
#[tactic(auto, unfolding(crate::specs::DateArithmetic::date_difference))]
pub fn date_diff(part: Part, a: Moment, b: Moment) -> i64
    ensures { result ≡ date_difference part a b }
{
    let from = boundaries_to(part, a.count_before_end());
    let to = boundaries_to(part, b.count_before_end());
    to as i64 - from as i64
}

/// A part of a moment's date or of its time of day.
#[tactic(auto, unfolding(crate::specs::DateArithmetic::date_field))]
pub fn date_part(part: Part, m: Moment) -> i64
    ensures { result ≡ pos (date_field part m) }
{
    let ticks = m.count_before_end();
    let field = match part {
        Part::Year => CivilDate::of_ticks(ticks).year as u64,
        Part::Month => CivilDate::of_ticks(ticks).month as u64,
        Part::Day => CivilDate::of_ticks(ticks).day as u64,
        Part::Hour => ticks / HOUR % 24,
        Part::Minute => ticks / MINUTE % 60,
        Part::Second => ticks / SECOND % 60,
        Part::Millisecond => ticks / MILLISECOND % 1000,
        Part::Microsecond => ticks / MICROSECOND % 1_000_000,
    };
    field as i64
}
