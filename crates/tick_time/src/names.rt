//! The units and parts that words name, in any case.

ghost use Rattle.std.specs.Prelude.{◌≡◌};
ghost use Rattle.tick_time.specs.Unit.{is_name, is_day_name, is_hour_name, is_minute_name, is_second_name, is_millisecond_name, is_microsecond_name, unit_named};
ghost use Rattle.tick_time.specs.Part.{part_of_unit, is_year_name, is_month_name, part_named};

use crate::part::Part;
use crate::unit::Unit;

/// Whether a word is a name, but for the case of ASCII letters.
pub fn is_name(name: &[u8], word: &[u8]) -> bool
    ensures { result ≡ is_name name.now word.now }
{
    word.eq_ignore_ascii_case(name)
}

fn is_day_name(word: &[u8]) -> bool
    ensures { result ≡ is_day_name word.now }
{
    is_name(b"day", word) || is_name(b"dd", word) || is_name(b"d", word)
}

fn is_hour_name(word: &[u8]) -> bool
    ensures { result ≡ is_hour_name word.now }
{
    is_name(b"hour", word) || is_name(b"hh", word)
}

fn is_minute_name(word: &[u8]) -> bool
    ensures { result ≡ is_minute_name word.now }
{
    is_name(b"minute", word) || is_name(b"mi", word) || is_name(b"n", word)
}

fn is_second_name(word: &[u8]) -> bool
    ensures { result ≡ is_second_name word.now }
{
    is_name(b"second", word) || is_name(b"ss", word) || is_name(b"s", word)
}

fn is_millisecond_name(word: &[u8]) -> bool
    ensures { result ≡ is_millisecond_name word.now }
{
    is_name(b"millisecond", word) || is_name(b"ms", word)
}

fn is_microsecond_name(word: &[u8]) -> bool
    ensures { result ≡ is_microsecond_name word.now }
{
    is_name(b"microsecond", word) || is_name(b"mcs", word)
}

/// The unit that a word names, in any case; `None` exactly where it names none.
#[tactic(auto, unfolding(crate::specs::Unit::unit_named))]
pub fn unit_of(word: &[u8]) -> Option<Unit>
    ensures { result ≡ unit_named word.now }
{
    if is_day_name(word) {
        Some(Unit::Day)
    } else if is_hour_name(word) {
        Some(Unit::Hour)
    } else if is_minute_name(word) {
        Some(Unit::Minute)
    } else if is_second_name(word) {
        Some(Unit::Second)
    } else if is_millisecond_name(word) {
        Some(Unit::Millisecond)
    } else if is_microsecond_name(word) {
        Some(Unit::Microsecond)
    } else {
        None
    }
}

fn is_year_name(word: &[u8]) -> bool
    ensures { result ≡ is_year_name word.now }
{
    is_name(b"year", word) || is_name(b"yyyy", word) || is_name(b"yy", word)
}

fn is_month_name(word: &[u8]) -> bool
    ensures { result ≡ is_month_name word.now }
{
    is_name(b"month", word) || is_name(b"mm", word) || is_name(b"m", word)
}

// The part that a unit counts.
fn part_of_unit(unit: Unit) -> Part
    ensures { result ≡ part_of_unit unit }
{
    match unit {
        Unit::Day => Part::Day,
        Unit::Hour => Part::Hour,
        Unit::Minute => Part::Minute,
        Unit::Second => Part::Second,
        Unit::Millisecond => Part::Millisecond,
        Unit::Microsecond => Part::Microsecond,
    }
}

/// The part that a word names, in any case; `None` exactly where it names none.
#[tactic(auto, unfolding(crate::specs::Part::part_named))]
pub fn part_of(word: &[u8]) -> Option<Part>
    ensures { result ≡ part_named word.now }
{
    if is_year_name(word) {
        return Some(Part::Year);
    }
    if is_month_name(word) {
        return Some(Part::Month);
    }
    Some(part_of_unit(unit_of(word)?))
}
