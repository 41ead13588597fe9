//! The bound in time of a join with a stream.

ghost use Rattle.std.specs.Prelude.{◌≡◌, neg_ℤ};
ghost use Rattle.tick_time.specs.Span.{span_of_units};
ghost use Rattle.query_literals.specs.Bounds as spec;

use crate::differences::{Difference, difference_in};
use crate::literals::WholeLiteral;
use query_tree::{And, Expr};
use tick_time::{Span, Unit, span_of};

/// How far the time of a joined row may lie behind that of the first source's row.
#[derive(Clone, Copy)]
pub struct Bound {
    /// The part of the condition that says so, counted from 0.
    pub part: usize,
    /// At least so far.
    pub low: Span,
    /// At most so far.
    pub high: Span,
}

/// How many parts of a condition are a difference in time.
#[derive(Clone, Copy)]
pub enum Differences {
    /// None.
    Nowhere,
    /// One, at this place.
    Once(usize, Difference),
    /// Several.
    Several,
}

// The length of so many units backward.
fn opposite_length(unit: Unit, whole: i64) -> Option<Span>
    ensures { result ≡ span_of_units unit (neg_ℤ whole) }
{
    match whole.checked_neg() {
        None => None,
        Some(negated) => span_of(unit, negated),
    }
}

fn length_of(unit: Unit, number: WholeLiteral) -> Option<Span>
    ensures { result ≡ spec.length_of unit number }
{
    if number.minus {
        return opposite_length(unit, number.whole);
    }
    span_of(unit, number.whole)
}

fn bound_within(part: usize, low: Option<Span>, high: Option<Span>) -> Option<Bound>
    ensures { result ≡ spec.bound_within part low high }
{
    match low {
        None => None,
        Some(low) => match high {
            None => None,
            Some(high) => {
                if low.ticks() <= high.ticks() {
                    Some(Bound { part, low, high })
                } else {
                    None
                }
            }
        },
    }
}

fn bound_by(part: usize, difference: Difference) -> Option<Bound>
    ensures { result ≡ spec.bound_by part difference }
{
    let low = length_of(difference.unit, difference.low);
    let high = length_of(difference.unit, difference.high);
    bound_within(part, low, high)
}

fn with_difference(found: Differences, place: usize, difference: Option<Difference>) -> Differences
    ensures { result ≡ spec.with_difference found place difference }
{
    match difference {
        None => found,
        Some(difference) => match found {
            Differences::Nowhere => Differences::Once(place, difference),
            Differences::Once(_, _) => Differences::Several,
            Differences::Several => Differences::Several,
        },
    }
}

#[tactic(auto, unfolding(crate::specs::Bounds::differences_of))]
fn differences_of(left: &[u8], right: &[u8], and: &And) -> Differences
    ensures { result ≡ spec.differences_of left.now right.now and.now }
{
    let first = difference_in(left, right, &and.first);
    let mut found = with_difference(Differences::Nowhere, 0, first);
    for (number, part) in and.more.as_slice().iter().enumerate() {
        found = with_difference(found, number + 1, difference_in(left, right, part));
    }
    found
}

fn bound_of_differences(found: Differences) -> Option<Bound>
    ensures { result ≡ spec.bound_of_differences found }
{
    match found {
        Differences::Nowhere => None,
        Differences::Once(part, difference) => bound_by(part, difference),
        Differences::Several => None,
    }
}

/// The bound of the sources of these names, in a condition without OR.
#[tactic(auto, unfolding(crate::specs::Bounds::bound_of))]
pub fn bound_of(left: &[u8], right: &[u8], on: &Expr) -> Option<Bound>
    ensures { result ≡ spec.bound_of left.now right.now on.now }
{
    match on.more.as_slice() {
        [] => bound_of_differences(differences_of(left, right, &on.first)),
        [_, ..] => None,
    }
}
