//! Units and whole numbers that stand alone.

ghost use Rattle.std.specs.Prelude.{◌≡◌};
ghost use Rattle.query_literals.specs.Literals as spec;

use crate::bare::{bare_primary, bare_unary, primary_of};
use query_tree::{Expr, Number, Path, Primary, Unary};
use tick_time::{Unit, unit_of};

/// A whole number with at most one `-` before it.
#[derive(Clone, Copy)]
pub struct WholeLiteral {
    /// Whether a `-` stands before it.
    pub minus: bool,
    /// The number behind it.
    pub whole: i64,
}

/// The unit whose word a path is.
pub fn unit_of_path(path: &Path) -> Option<Unit>
    ensures { result ≡ spec.unit_of_path path.now }
{
    match path.second {
        None => unit_of(path.first.text.items()),
        Some(_) => None,
    }
}

fn unit_of_primary(primary: &Primary) -> Option<Unit>
    ensures { result ≡ spec.unit_of_primary primary.now }
{
    match primary {
        Primary::Column(path) => unit_of_path(path),
        _ => None,
    }
}

/// The unit whose word an expression is.
pub fn unit_in(expr: &Expr) -> Option<Unit>
    ensures { result ≡ spec.unit_in expr.now }
{
    match bare_primary(expr) {
        None => None,
        Some(primary) => unit_of_primary(primary),
    }
}

/// The number, where it is whole.
pub fn whole_of_number(number: Number) -> Option<i64>
    ensures { result ≡ spec.whole_of_number number }
{
    match number {
        Number::Whole(whole) => Some(whole),
        Number::Decimal(_) => None,
    }
}

fn whole_of_primary(primary: &Primary) -> Option<i64>
    ensures { result ≡ spec.whole_of_primary primary.now }
{
    match primary {
        Primary::Number(_, number) => whole_of_number(*number),
        _ => None,
    }
}

/// The whole number that an expression is.
pub fn whole_in(expr: &Expr) -> Option<i64>
    ensures { result ≡ spec.whole_in expr.now }
{
    match bare_primary(expr) {
        None => None,
        Some(primary) => whole_of_primary(primary),
    }
}

fn whole_of_unary(inner: &Unary) -> Option<i64>
    ensures { result ≡ spec.whole_of_unary inner.now }
{
    match primary_of(inner) {
        None => None,
        Some(primary) => whole_of_primary(primary),
    }
}

fn literal_with(minus: bool, whole: Option<i64>) -> Option<WholeLiteral>
    ensures { result ≡ spec.literal_with minus whole }
{
    match whole {
        None => None,
        Some(whole) => Some(WholeLiteral { minus, whole }),
    }
}

/// The whole number that a part is, with at most one `-` before it.
pub fn literal_of(unary: &Unary) -> Option<WholeLiteral>
    ensures { result ≡ spec.literal_of unary.now }
{
    match unary {
        Unary::Primary(primary) => literal_with(false, whole_of_primary(primary)),
        Unary::Minus(_, inner) => literal_with(true, whole_of_unary(inner.get())),
    }
}

/// The whole number that an expression is, with at most one `-` before it.
pub fn literal_in(expr: &Expr) -> Option<WholeLiteral>
    ensures { result ≡ spec.literal_in expr.now }
{
    match bare_unary(expr) {
        None => None,
        Some(unary) => literal_of(unary),
    }
}
