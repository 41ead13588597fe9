//! Parts of a join's condition that are the difference in time of its two sources.

ghost use Rattle.std.specs.Prelude.{◌≡◌};
ghost use Rattle.std.specs.Option.{option_copied};
ghost use Rattle.std.specs.Str.{bytes_eq};
ghost use Rattle.query_literals.specs.Differences as spec;

use crate::bare::{bare_primary, primary_of, unary_of_sum};
use crate::literals::{WholeLiteral, literal_of, unit_in};
use query_tree::{Args, Call, Expr, Name, Not, Path, Pred, PredRest, Primary, Sum};
use tick_time::{Unit, is_name};

/// The times of two sources, of which one is taken off the other.
#[derive(Clone, Copy)]
pub struct Times {
    /// What is counted between them.
    pub unit: Unit,
    /// Whether the joined source's time is the one that is taken off.
    pub exchanged: bool,
}

/// How far the time of a joined source lies behind that of the first.
#[derive(Clone, Copy)]
pub struct Difference {
    /// What is counted.
    pub unit: Unit,
    /// At least so many.
    pub low: WholeLiteral,
    /// At most so many.
    pub high: WholeLiteral,
}

fn name_of_path(path: &Path) -> Option<&Name>
    ensures { option_copied result ≡ spec.name_of_path path.now }
{
    match path.second {
        None => Some(&path.first),
        Some(_) => None,
    }
}

fn name_of_primary(primary: &Primary) -> Option<&Name>
    ensures { option_copied result ≡ spec.name_of_primary primary.now }
{
    match primary {
        Primary::Column(path) => name_of_path(path),
        _ => None,
    }
}

fn name_in(expr: &Expr) -> Option<&Name>
    ensures { option_copied result ≡ spec.name_in expr.now }
{
    match bare_primary(expr) {
        None => None,
        Some(primary) => name_of_primary(primary),
    }
}

fn is_text(name: &Name, text: &[u8]) -> bool
    ensures { result ≡ bytes_eq name.now.text text.now }
{
    name.text.items() == text
}

fn times_of_names(left: &[u8], right: &[u8], unit: Unit, a: &Name, b: &Name) -> Option<Times>
    ensures { result ≡ spec.times_of_names left.now right.now unit a.now b.now }
{
    if is_text(a, left) && is_text(b, right) {
        Some(Times {
            unit,
            exchanged: false,
        })
    } else if is_text(a, right) && is_text(b, left) {
        Some(Times {
            unit,
            exchanged: true,
        })
    } else {
        None
    }
}

fn times_with(
    left: &[u8],
    right: &[u8],
    unit: Option<Unit>,
    a: Option<&Name>,
    b: Option<&Name>,
) -> Option<Times>
    ensures { result ≡
        spec.times_with left.now right.now unit (option_copied a.entry) (option_copied b.entry) }
{
    match unit {
        None => None,
        Some(unit) => match a {
            None => None,
            Some(a) => match b {
                None => None,
                Some(b) => times_of_names(left, right, unit, a, b),
            },
        },
    }
}

fn times_of_args(left: &[u8], right: &[u8], args: &Args) -> Option<Times>
    ensures { result ≡ spec.times_of_args left.now right.now args.now }
{
    match args {
        Args::Star(_) => None,
        Args::Listed(_, true, _, _) => None,
        Args::Listed(_, false, first, more) => match more.as_slice() {
            [a, b] => times_with(left, right, unit_in(first.get()), name_in(a), name_in(b)),
            _ => None,
        },
    }
}

fn times_of_path(left: &[u8], right: &[u8], path: &Path, args: &Args) -> Option<Times>
    ensures { result ≡ spec.times_of_path left.now right.now path.now args.now }
{
    match path.second {
        Some(_) => None,
        None => {
            if is_name(b"DATEDIFF", path.first.text.items()) {
                times_of_args(left, right, args)
            } else {
                None
            }
        }
    }
}

fn times_of_call(left: &[u8], right: &[u8], call: &Call) -> Option<Times>
    ensures { result ≡ spec.times_of_call left.now right.now call.now }
{
    match call {
        Call::Cast(_, _, _, _) => None,
        Call::Function(_, _, None) => None,
        Call::Function(_, path, Some(args)) => times_of_path(left, right, path, args),
    }
}

fn times_of_primary(left: &[u8], right: &[u8], primary: &Primary) -> Option<Times>
    ensures { result ≡ spec.times_of_primary left.now right.now primary.now }
{
    match primary {
        Primary::Call(call) => times_of_call(left, right, call),
        _ => None,
    }
}

fn primary_of_sum(sum: &Sum) -> Option<&Primary>
    ensures { option_copied result ≡ spec.primary_of_sum sum.now }
{
    match unary_of_sum(sum) {
        None => None,
        Some(unary) => primary_of(unary),
    }
}

#[tactic(auto, unfolding(crate::specs::Differences::times_of_sum))]
fn times_of_sum(left: &[u8], right: &[u8], sum: &Sum) -> Option<Times>
    ensures { result ≡ spec.times_of_sum left.now right.now sum.now }
{
    match primary_of_sum(sum) {
        None => None,
        Some(primary) => times_of_primary(left, right, primary),
    }
}

#[tactic(auto, unfolding(crate::specs::Differences::literal_of_sum))]
fn literal_of_sum(sum: &Sum) -> Option<WholeLiteral>
    ensures { result ≡ spec.literal_of_sum sum.now }
{
    match unary_of_sum(sum) {
        None => None,
        Some(unary) => literal_of(unary),
    }
}

fn turned(number: WholeLiteral) -> WholeLiteral
    ensures { result ≡ spec.turned number }
{
    WholeLiteral {
        minus: !number.minus,
        whole: number.whole,
    }
}

fn difference_of(times: Times, low: WholeLiteral, high: WholeLiteral) -> Difference
    ensures { result ≡ spec.difference_of times low high }
{
    let unit = times.unit;
    if times.exchanged {
        return Difference {
            unit,
            low: turned(high),
            high: turned(low),
        };
    }
    Difference { unit, low, high }
}

fn difference_with(
    times: Option<Times>,
    low: Option<WholeLiteral>,
    high: Option<WholeLiteral>,
) -> Option<Difference>
    ensures { result ≡ spec.difference_with times low high }
{
    match times {
        None => None,
        Some(times) => match low {
            None => None,
            Some(low) => match high {
                None => None,
                Some(high) => Some(difference_of(times, low, high)),
            },
        },
    }
}

fn difference_in_pred(left: &[u8], right: &[u8], pred: &Pred) -> Option<Difference>
    ensures { result ≡ spec.difference_in_pred left.now right.now pred.now }
{
    match &pred.rest {
        Some(PredRest::Between(_, false, low, high)) => difference_with(
            times_of_sum(left, right, &pred.sum),
            literal_of_sum(low),
            literal_of_sum(high),
        ),
        _ => None,
    }
}

/// A part of a condition, as the difference in time of the sources of these names.
#[tactic(auto, unfolding(crate::specs::Differences::difference_in))]
pub fn difference_in(left: &[u8], right: &[u8], part: &Not) -> Option<Difference>
    ensures { result ≡ spec.difference_in left.now right.now part.now }
{
    match part {
        Not::Negation(_, _) => None,
        Not::Pred(pred) => difference_in_pred(left, right, pred),
    }
}
