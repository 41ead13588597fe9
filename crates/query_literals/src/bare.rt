//! Expressions in which no sign of an operation stands.

ghost use Rattle.std.specs.Prelude.{◌≡◌};
ghost use Rattle.std.specs.Option.{option_copied};
ghost use Rattle.query_literals.specs.Bare as spec;

use query_tree::{And, Expr, Not, Pred, Primary, Prod, Sum, Unary};

/// The part that an expression is, where no sign of an operation stands in it but a `-` before it.
#[tactic(auto, unfolding(crate::specs::Bare::bare_unary))]
pub fn bare_unary(expr: &Expr) -> Option<&Unary>
    ensures { option_copied result ≡ spec.bare_unary expr.now }
{
    match expr.more.as_slice() {
        [] => unary_of_and(&expr.first),
        [_, ..] => None,
    }
}

fn unary_of_and(and: &And) -> Option<&Unary>
    ensures { option_copied result ≡ spec.unary_of_and and.now }
{
    match and.more.as_slice() {
        [] => unary_of_not(&and.first),
        [_, ..] => None,
    }
}

fn unary_of_not(not: &Not) -> Option<&Unary>
    ensures { option_copied result ≡ spec.unary_of_not not.now }
{
    match not {
        Not::Negation(_, _) => None,
        Not::Pred(pred) => unary_of_pred(pred),
    }
}

fn unary_of_pred(pred: &Pred) -> Option<&Unary>
    ensures { option_copied result ≡ spec.unary_of_pred pred.now }
{
    match &pred.rest {
        Some(_) => None,
        None => unary_of_sum(&pred.sum),
    }
}

/// The part that a sum is, where no sign of an operation stands in it but a `-` before it.
pub fn unary_of_sum(sum: &Sum) -> Option<&Unary>
    ensures { option_copied result ≡ spec.unary_of_sum sum.now }
{
    match sum.more.as_slice() {
        [] => unary_of_prod(&sum.first),
        [_, ..] => None,
    }
}

fn unary_of_prod(prod: &Prod) -> Option<&Unary>
    ensures { option_copied result ≡ spec.unary_of_prod prod.now }
{
    match prod.more.as_slice() {
        [] => Some(&prod.first),
        [_, ..] => None,
    }
}

/// The part that stands without a `-` before it.
pub fn primary_of(unary: &Unary) -> Option<&Primary>
    ensures { option_copied result ≡ spec.primary_of unary.now }
{
    match unary {
        Unary::Minus(_, _) => None,
        Unary::Primary(primary) => Some(primary),
    }
}

/// The part that an expression is, where no sign of an operation stands in it.
#[tactic(auto, unfolding(crate::specs::Bare::bare_primary))]
pub fn bare_primary(expr: &Expr) -> Option<&Primary>
    ensures { option_copied result ≡ spec.bare_primary expr.now }
{
    match bare_unary(expr) {
        None => None,
        Some(unary) => primary_of(unary),
    }
}
