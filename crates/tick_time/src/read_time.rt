//! The time of day that stands behind a date, with its zone.

ghost use Rattle.std.specs.Prelude.{◌≡◌, ◌<◌, ◌≤◌, ◌+◌, ◌*◌, ◌/◌, All, IsTrue, None, Some, IfSome, MatchOption, length, drop, take_while, pos};
ghost use Rattle.jiff_core.specs.Calendar.{IsWithin};
ghost use Rattle.tick_time.specs.Ticks.{day_ticks, minute_ticks, second_ticks};
ghost use Rattle.tick_time.specs.MomentReading.{is_digit, is_separator, clock_at_front, fraction_ticks, fraction_at_front, second_at_front, seconds_at_front, offset_of, time_of};

use crate::digits::{digit_value, is_digit, is_pair_below, pair_value};
use crate::ticks::{HOUR, MINUTE, SECOND};

fn is_separator(byte: u8) -> bool
    ensures { result ≡ is_separator byte }
{
    byte == b'T' || byte == b't' || byte == b' '
}

// A separator and HH:MM: the ticks since midnight, and what stands behind it.
#[tactic(auto, unfolding(crate::specs::MomentReading::clock_at_front))]
fn read_clock(text: &[u8]) -> Option<(u64, &[u8])>
    ensures value { MatchOption result (clock_at_front text.now ≡ None)
        (λ r. clock_at_front text.now ≡ Some (r.0, r.1.now)) }
    ensures bound { IfSome result (λ r. r.0 < day_ticks) }
{
    match text {
        [s, a, b, p, c, d, rest @ ..] => {
            if is_separator(*s)
                && is_pair_below(24, *a, *b)
                && *p == b':'
                && is_pair_below(60, *c, *d)
            {
                let ticks = pair_value(*a, *b) * HOUR + pair_value(*c, *d) * MINUTE;
                Some((ticks, rest))
            } else {
                None
            }
        }
        _ => None,
    }
}

// How many digits stand at the front.
fn count_digits(text: &[u8]) -> usize
    ensures { result ≡ length (take_while is_digit text.now) }
{
    text.iter().take_while(|b| is_digit(**b)).count()
}

// The digits at the front, and what stands behind them.
fn split_digits(text: &[u8]) -> (&[u8], &[u8])
    ensures digits { result.0.now ≡ take_while is_digit text.now }
    ensures rest { result.1.now ≡ drop (length result.0.now) text.now }
    ensures all { All (λ b. IsTrue (is_digit b)) result.0.now }
{
    text.split_at(count_digits(text))
}

// The ticks of a fraction's digits.
fn fraction_value(digits: &[u8]) -> u64
    requires { All (λ b. IsTrue (is_digit b)) digits.now }
    ensures value { result ≡ fraction_ticks digits.now (second_ticks / 10) }
    ensures bound { result < second_ticks }
{
    let mut ticks = 0;
    let mut place = SECOND / 10;
    for digit in digits {
        ticks += digit_value(*digit) * place;
        place /= 10;
    }
    ticks
}

// A point with 1 to 9 digits, or nothing: its ticks, and what stands behind it.
#[tactic(auto, unfolding(crate::specs::MomentReading::fraction_at_front))]
fn read_fraction(text: &[u8]) -> Option<(u64, &[u8])>
    ensures value { MatchOption result (fraction_at_front text.now ≡ None)
        (λ r. fraction_at_front text.now ≡ Some (r.0, r.1.now)) }
    ensures bound { IfSome result (λ r. r.0 < second_ticks) }
{
    match text {
        [b'.', rest @ ..] => {
            let (digits, rest) = split_digits(rest);
            if digits.len() >= 1 && digits.len() <= 9 {
                Some((fraction_value(digits), rest))
            } else {
                None
            }
        }
        _ => Some((0, text)),
    }
}

// SS with its fraction: the ticks since the minute, and what stands behind it.
#[tactic(auto, unfolding(crate::specs::MomentReading::second_at_front))]
fn read_second(text: &[u8]) -> Option<(u64, &[u8])>
    ensures value { MatchOption result (second_at_front text.now ≡ None)
        (λ r. second_at_front text.now ≡ Some (r.0, r.1.now)) }
    ensures bound { IfSome result (λ r. r.0 < minute_ticks) }
{
    match text {
        [a, b, rest @ ..] => {
            if is_pair_below(60, *a, *b) {
                let (fraction, rest) = read_fraction(rest)?;
                Some((pair_value(*a, *b) * SECOND + fraction, rest))
            } else {
                None
            }
        }
        _ => None,
    }
}

// :SS with its fraction, or nothing.
#[tactic(auto, unfolding(crate::specs::MomentReading::seconds_at_front))]
fn read_seconds(text: &[u8]) -> Option<(u64, &[u8])>
    ensures value { MatchOption result (seconds_at_front text.now ≡ None)
        (λ r. seconds_at_front text.now ≡ Some (r.0, r.1.now)) }
    ensures bound { IfSome result (λ r. r.0 < minute_ticks) }
{
    match text {
        [b':', rest @ ..] => read_second(rest),
        _ => Some((0, text)),
    }
}

// The ticks that a zone is ahead: of nothing, Z, z, or a sign and HH:MM.
#[tactic(auto, unfolding(crate::specs::MomentReading::offset_of))]
fn read_zone(text: &[u8]) -> Option<i64>
    ensures value { result ≡ offset_of text.now }
    ensures bound { IfSome result (IsWithin day_ticks) }
{
    match text {
        [] => Some(0),
        [z] => {
            if *z == b'Z' || *z == b'z' {
                Some(0)
            } else {
                None
            }
        }
        [s, a, b, p, c, d] => {
            if (*s == b'+' || *s == b'-')
                && is_pair_below(24, *a, *b)
                && *p == b':'
                && is_pair_below(60, *c, *d)
            {
                let ticks = (pair_value(*a, *b) * HOUR + pair_value(*c, *d) * MINUTE) as i64;
                Some(if *s == b'+' { ticks } else { -ticks })
            } else {
                None
            }
        }
        _ => None,
    }
}

/// The ticks since midnight in UTC that stand behind a date.
#[tactic(auto, unfolding(crate::specs::MomentReading::time_of))]
pub fn read_time(text: &[u8]) -> Option<i64>
    ensures value { result ≡ time_of text.now }
    ensures bound { IfSome result (IsWithin (2 * day_ticks + minute_ticks)) }
{
    if text.is_empty() {
        return Some(0);
    }
    let (minutes, rest) = read_clock(text)?;
    let (seconds, rest) = read_seconds(rest)?;
    let offset = read_zone(rest)?;
    Some((minutes + seconds) as i64 - offset)
}
