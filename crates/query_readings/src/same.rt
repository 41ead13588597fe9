//! Whether two expressions of a plan are the same.

ghost use Rattle.std.specs.Prelude.{◌≡◌};
ghost use Rattle.query_readings.specs.Same as spec;

use event_value::{Value, order};
use query_forms::is_same_kind;
use query_plan::{Branch, Cond, Expr, Op, Rel};
use std::cmp::Ordering;
use tick_time::Part;

fn is_same_value(left: &Value, right: &Value) -> bool
    ensures { result ≡ spec.is_same_value left.now right.now }
{
    match order(left, right) {
        Ordering::Equal => true,
        Ordering::Less => false,
        Ordering::Greater => false,
    }
}

fn part_rank(part: Part) -> u8
    ensures { result ≡ spec.part_rank part }
{
    match part {
        Part::Year => 0,
        Part::Month => 1,
        Part::Day => 2,
        Part::Hour => 3,
        Part::Minute => 4,
        Part::Second => 5,
        Part::Millisecond => 6,
        Part::Microsecond => 7,
    }
}

fn op_rank(op: Op) -> (u8, u8)
    ensures { result ≡ spec.op_rank op }
{
    match op {
        Op::Add => (0, 0),
        Op::Sub => (1, 0),
        Op::Mul => (2, 0),
        Op::Div => (3, 0),
        Op::Rem => (4, 0),
        Op::Neg => (5, 0),
        Op::Abs => (6, 0),
        Op::DateAdd(part) => (7, part_rank(part)),
        Op::DateDiff(part) => (8, part_rank(part)),
        Op::DatePart(part) => (9, part_rank(part)),
        Op::Len => (10, 0),
        Op::Lower => (11, 0),
        Op::Upper => (12, 0),
        Op::Substring => (13, 0),
        Op::Concat => (14, 0),
        Op::Coalesce => (15, 0),
    }
}

fn is_same_op(left: Op, right: Op) -> bool
    ensures { result ≡ spec.is_same_op left right }
{
    let left = op_rank(left);
    let right = op_rank(right);
    left.0 == right.0 && left.1 == right.1
}

fn rel_rank(rel: Rel) -> u8
    ensures { result ≡ spec.rel_rank rel }
{
    match rel {
        Rel::Eq => 0,
        Rel::Ne => 1,
        Rel::Lt => 2,
        Rel::Le => 3,
        Rel::Gt => 4,
        Rel::Ge => 5,
    }
}

fn is_same_rel(left: Rel, right: Rel) -> bool
    ensures { result ≡ spec.is_same_rel left right }
{
    rel_rank(left) == rel_rank(right)
}

/// Whether two expressions are the same. It takes no memory.
#[cycle(same)]
pub fn is_same_expr(left: &Expr, right: &Expr) -> bool
    ensures { result ≡ spec.is_same_expr left.now right.now }
{
    match left {
        Expr::Lit(value) => match right {
            Expr::Lit(other) => is_same_value(value, other),
            _ => false,
        },
        Expr::Col(column) => match right {
            Expr::Col(other) => *column == *other,
            _ => false,
        },
        Expr::Stamp => match right {
            Expr::Stamp => true,
            _ => false,
        },
        Expr::Cast(inner, kind) => match right {
            Expr::Cast(other, to) => is_same_kind(*kind, *to)
                && is_same_expr(inner.get(), other.get()),
            _ => false,
        },
        Expr::Apply(op, operands) => match right {
            Expr::Apply(other, others) => {
                is_same_op(*op, *other) && are_same_exprs(operands.as_slice(), others.as_slice())
            }
            _ => false,
        },
        Expr::Choose(branches, None) => match right {
            Expr::Choose(others, None) => are_same_branches(branches.as_slice(), others.as_slice()),
            _ => false,
        },
        Expr::Choose(branches, Some(otherwise)) => match right {
            Expr::Choose(others, Some(other)) => {
                are_same_branches(branches.as_slice(), others.as_slice())
                    && is_same_expr(otherwise.get(), other.get())
            }
            _ => false,
        },
    }
}

#[cycle(same)]
fn are_same_exprs(left: &[Expr], right: &[Expr]) -> bool
    ensures { result ≡ spec.are_same_exprs left.now right.now }
{
    let mut others = right;
    for expr in left {
        match others {
            [] => return false,
            [other, rest @ ..] => {
                if !is_same_expr(expr, other) {
                    return false;
                }
                others = rest;
            }
        }
    }
    others.is_empty()
}

#[cycle(same)]
fn are_same_branches(left: &[Branch], right: &[Branch]) -> bool
    ensures { result ≡ spec.are_same_branches left.now right.now }
{
    let mut others = right;
    for branch in left {
        match others {
            [] => return false,
            [other, rest @ ..] => {
                if !is_same_branch(branch, other) {
                    return false;
                }
                others = rest;
            }
        }
    }
    others.is_empty()
}

#[cycle(same)]
fn is_same_branch(left: &Branch, right: &Branch) -> bool
    ensures { result ≡ spec.is_same_branch left.now right.now }
{
    is_same_cond(&left.cond, &right.cond) && is_same_expr(&left.value, &right.value)
}

#[cycle(same)]
fn is_same_cond(left: &Cond, right: &Cond) -> bool
    ensures { result ≡ spec.is_same_cond left.now right.now }
{
    match left {
        Cond::Compare(rel, a, b) => match right {
            Cond::Compare(other, c, d) => {
                is_same_rel(*rel, *other) && is_same_expr(a, c) && is_same_expr(b, d)
            }
            _ => false,
        },
        Cond::And(a, b) => match right {
            Cond::And(c, d) => is_same_cond(a.get(), c.get()) && is_same_cond(b.get(), d.get()),
            _ => false,
        },
        Cond::Or(a, b) => match right {
            Cond::Or(c, d) => is_same_cond(a.get(), c.get()) && is_same_cond(b.get(), d.get()),
            _ => false,
        },
        Cond::Not(a) => match right {
            Cond::Not(c) => is_same_cond(a.get(), c.get()),
            _ => false,
        },
        Cond::IsNull(a) => match right {
            Cond::IsNull(c) => is_same_expr(a, c),
            _ => false,
        },
        Cond::Like(a, pattern) => match right {
            Cond::Like(c, other) => pattern.items() == other.items() && is_same_expr(a, c),
            _ => false,
        },
        Cond::OneOf(a, values) => match right {
            Cond::OneOf(c, others) => {
                is_same_expr(a, c) && are_same_exprs(values.as_slice(), others.as_slice())
            }
            _ => false,
        },
    }
}
