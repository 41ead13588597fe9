//! The lengths that a window's arguments give.

ghost use Rattle.std.specs.Prelude.{◌≡◌};
ghost use Rattle.query_windows.specs.Lengths as spec;

use crate::arguments::Argument;
use tick_time::Unit;

/// A length as it is written: so many units.
#[derive(Clone, Copy)]
pub struct Length {
    pub unit: Unit,
    pub count: i64,
}

/// The lengths of a window's size and hop, and the place of an offset.
#[derive(Clone, Copy)]
pub struct Lengths {
    pub size: Length,
    pub hop: Length,
    pub offset: Option<u32>,
}

/// The lengths of a session's timeout and maximum.
#[derive(Clone, Copy)]
pub struct SessionLengths {
    pub timeout: Length,
    pub most: Length,
}

fn length_of(unit: Unit, count: i64) -> Length
    ensures { result ≡ spec.length_of unit count }
{
    Length { unit, count }
}

fn tumbling(unit: Unit, count: i64, offset: Option<u32>) -> Option<Lengths>
    ensures { result ≡ spec.tumbling unit count offset }
{
    Some(Lengths {
        size: length_of(unit, count),
        hop: length_of(unit, count),
        offset,
    })
}

fn hopping(size: Length, hop: Length, offset: Option<u32>) -> Option<Lengths>
    ensures { result ≡ spec.hopping size hop offset }
{
    Some(Lengths { size, hop, offset })
}

fn tumbling_of_one(first: Argument) -> Option<Lengths>
    ensures { result ≡ spec.tumbling_of_one first }
{
    match first {
        Argument::Duration(unit, count) => tumbling(unit, count, None),
        _ => None,
    }
}

fn tumbling_of_two(first: Argument, second: Argument) -> Option<Lengths>
    ensures { result ≡ spec.tumbling_of_two first second }
{
    match first {
        Argument::Unit(unit) => match second {
            Argument::Count(count) => tumbling(unit, count, None),
            _ => None,
        },
        Argument::Duration(unit, count) => match second {
            Argument::Offset(place) => tumbling(unit, count, Some(place)),
            _ => None,
        },
        _ => None,
    }
}

fn tumbling_of_three(first: Argument, second: Argument, third: Argument) -> Option<Lengths>
    ensures { result ≡ spec.tumbling_of_three first second third }
{
    match first {
        Argument::Unit(unit) => match second {
            Argument::Count(count) => match third {
                Argument::Offset(place) => tumbling(unit, count, Some(place)),
                _ => None,
            },
            _ => None,
        },
        _ => None,
    }
}

/// A unit and a number, or a Duration; perhaps an Offset behind it.
#[tactic(auto, unfolding(crate::specs::Lengths::tumbling_of))]
pub fn tumbling_of(arguments: &[Argument]) -> Option<Lengths>
    ensures { result ≡ spec.tumbling_of arguments.now }
{
    match arguments {
        [first] => tumbling_of_one(*first),
        [first, second] => tumbling_of_two(*first, *second),
        [first, second, third] => tumbling_of_three(*first, *second, *third),
        _ => None,
    }
}

fn hopping_in_unit(
    first: Argument,
    second: Argument,
    third: Argument,
    offset: Option<u32>,
) -> Option<Lengths>
    ensures { result ≡ spec.hopping_in_unit first second third offset }
{
    match first {
        Argument::Unit(unit) => match second {
            Argument::Count(size) => match third {
                Argument::Count(hop) => hopping(
                    length_of(unit, size),
                    length_of(unit, hop),
                    offset,
                ),
                _ => None,
            },
            _ => None,
        },
        _ => None,
    }
}

fn hopping_by_lengths(first: Argument, second: Argument, offset: Option<u32>) -> Option<Lengths>
    ensures { result ≡ spec.hopping_by_lengths first second offset }
{
    match first {
        Argument::Duration(unit, size) => match second {
            Argument::Hop(other, hop) => hopping(
                length_of(unit, size),
                length_of(other, hop),
                offset,
            ),
            _ => None,
        },
        _ => None,
    }
}

fn hopping_of_three(first: Argument, second: Argument, third: Argument) -> Option<Lengths>
    ensures { result ≡ spec.hopping_of_three first second third }
{
    match third {
        Argument::Offset(place) => hopping_by_lengths(first, second, Some(place)),
        _ => hopping_in_unit(first, second, third, None),
    }
}

fn hopping_of_four(
    first: Argument,
    second: Argument,
    third: Argument,
    fourth: Argument,
) -> Option<Lengths>
    ensures { result ≡ spec.hopping_of_four first second third fourth }
{
    match fourth {
        Argument::Offset(place) => hopping_in_unit(first, second, third, Some(place)),
        _ => None,
    }
}

/// A unit and two numbers, or a Duration and a Hop; perhaps an Offset behind them.
#[tactic(auto, unfolding(crate::specs::Lengths::hopping_of))]
pub fn hopping_of(arguments: &[Argument]) -> Option<Lengths>
    ensures { result ≡ spec.hopping_of arguments.now }
{
    match arguments {
        [first, second] => hopping_by_lengths(*first, *second, None),
        [first, second, third] => hopping_of_three(*first, *second, *third),
        [first, second, third, fourth] => hopping_of_four(*first, *second, *third, *fourth),
        _ => None,
    }
}

fn sliding_of_two(first: Argument, second: Argument) -> Option<Length>
    ensures { result ≡ spec.sliding_of_two first second }
{
    match first {
        Argument::Unit(unit) => match second {
            Argument::Count(count) => Some(length_of(unit, count)),
            _ => None,
        },
        _ => None,
    }
}

/// A unit and a number.
#[tactic(auto, unfolding(crate::specs::Lengths::sliding_of))]
pub fn sliding_of(arguments: &[Argument]) -> Option<Length>
    ensures { result ≡ spec.sliding_of arguments.now }
{
    match arguments {
        [first, second] => sliding_of_two(*first, *second),
        _ => None,
    }
}

fn session_lengths(timeout: Length, most: Length) -> Option<SessionLengths>
    ensures { result ≡ spec.session_lengths timeout most }
{
    Some(SessionLengths { timeout, most })
}

fn session_of_three(first: Argument, second: Argument, third: Argument) -> Option<SessionLengths>
    ensures { result ≡ spec.session_of_three first second third }
{
    match first {
        Argument::Unit(unit) => match second {
            Argument::Count(timeout) => match third {
                Argument::Count(most) => session_lengths(
                    length_of(unit, timeout),
                    length_of(unit, most),
                ),
                _ => None,
            },
            _ => None,
        },
        _ => None,
    }
}

/// A unit and two numbers.
#[tactic(auto, unfolding(crate::specs::Lengths::session_of))]
pub fn session_of(arguments: &[Argument]) -> Option<SessionLengths>
    ensures { result ≡ spec.session_of arguments.now }
{
    match arguments {
        [first, second, third] => session_of_three(*first, *second, *third),
        _ => None,
    }
}
