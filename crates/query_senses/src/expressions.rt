//! `read_expr`: an expression that isn't too large, level by level down its tree.

ghost use Rattle.std.specs.Prelude.{◌≡◌, ◌≤◌, ◌++◌, IfOk, OnOk};
ghost use Rattle.expression_size.specs.Sizes.{max_nodes, size};
ghost use Rattle.query_senses.specs.Readings as spec;

use crate::calls::{Given, Quantifier, called};
use crate::parts::{
    cast_reading, nested, nothing_given, number_sense, pred_reading, quantifier_of,
};
use event_value::{Copies, Kind, Memory, Seq, Value};
use expression_size::{MAX_NODES, size_of_expr};
use query_forms::{Form, Sense, Valued, prod_form, rel_of, sum_form};
use query_plan::{Expr, Op};
use query_readings::{
    Face, Part, PredicateRest, Reading, Scope, as_pattern, chain, column_reading, formed,
    formed_of_one, like_form, operations, plain,
};
use query_tree as tree;
use std::alloc::Global;

/// What an expression is over the rows and over the groups of a scope.
///
/// # Errors
/// `Memory` where there was none, or where the plan of the expression would have more than
/// `MAX_NODES` nodes: that is asked before anything of it is planned.
pub fn read_expr(alloc: Global, scope: &Scope, expr: &tree::Expr) -> Result<Reading, Memory>
    ensures reading { IfOk result (λ reading. reading ≡ spec.reading scope.now expr.now) }
    ensures bounded { IfOk result (λ reading. size expr.now ≤ max_nodes) }
{
    if size_of_expr(expr) > MAX_NODES {
        return Err(Memory);
    }
    read_or(alloc, scope, expr)
}

#[cycle(reading)]
fn read_or(alloc: Global, scope: &Scope, expr: &tree::Expr) -> Result<Reading, Memory>
    ensures { IfOk result (λ reading. reading ≡ spec.reading scope.now expr.now) }
{
    let mut more = Seq::empty(alloc);
    for part in expr.more.as_slice() {
        more.push(read_and(alloc, scope, part)?)?;
    }
    let first = read_and(alloc, scope, &expr.first)?;
    chain(alloc, scope, expr.place, Form::Or, first, more.items())
}

#[cycle(reading)]
fn read_and(alloc: Global, scope: &Scope, and: &tree::And) -> Result<Reading, Memory>
    ensures { IfOk result (λ reading. reading ≡ spec.reading_of_and scope.now and.now) }
{
    let mut more = Seq::empty(alloc);
    for part in and.more.as_slice() {
        more.push(read_not(alloc, scope, part)?)?;
    }
    let first = read_not(alloc, scope, &and.first)?;
    chain(alloc, scope, and.place, Form::And, first, more.items())
}

/// What a part of an AND is.
#[cycle(reading)]
pub fn read_not(alloc: Global, scope: &Scope, not: &tree::Not) -> Result<Reading, Memory>
    ensures { IfOk result (λ reading. reading ≡ spec.reading_of_not scope.now not.now) }
{
    match not {
        tree::Not::Negation(place, inner) => {
            let part = read_not(alloc, scope, inner.get())?;
            formed_of_one(alloc, scope, *place, Form::Not, part)
        }
        tree::Not::Pred(pred) => read_pred(alloc, scope, pred),
    }
}

#[cycle(reading)]
fn read_pred(alloc: Global, scope: &Scope, pred: &tree::Pred) -> Result<Reading, Memory>
    ensures { IfOk result (λ reading. reading ≡ spec.reading_of_pred scope.now pred.now) }
{
    match &pred.rest {
        None => read_sum(alloc, scope, &pred.sum),
        Some(rest) => {
            let rest = read_rest(alloc, scope, rest)?;
            let sum = read_sum(alloc, scope, &pred.sum)?;
            pred_reading(alloc, scope, pred.place, sum, &rest)
        }
    }
}

#[cycle(reading)]
fn read_rest(alloc: Global, scope: &Scope, rest: &tree::PredRest) -> Result<PredicateRest, Memory>
    ensures { IfOk result (λ read. read ≡ spec.rest_of scope.now rest.now) }
{
    let mut parts = Seq::empty(alloc);
    match rest {
        tree::PredRest::Compare(_, rel, right) => {
            parts.push(read_sum(alloc, scope, right)?)?;
            Ok(PredicateRest {
                form: Form::Compare(rel_of(*rel)),
                parts,
            })
        }
        tree::PredRest::Between(_, negated, low, high) => {
            parts.push(read_sum(alloc, scope, low)?)?;
            parts.push(read_sum(alloc, scope, high)?)?;
            Ok(PredicateRest {
                form: Form::Between(*negated),
                parts,
            })
        }
        tree::PredRest::In(_, negated, first, more) => {
            parts.push(read_or(alloc, scope, first.get())?)?;
            for item in more.as_slice() {
                parts.push(read_or(alloc, scope, item)?)?;
            }
            Ok(PredicateRest {
                form: Form::In(*negated),
                parts,
            })
        }
        tree::PredRest::Like(_, negated, pattern) => {
            let pattern = read_sum(alloc, scope, pattern)?;
            let form = like_form(*negated, &pattern.face);
            parts.push(as_pattern(alloc, pattern)?)?;
            Ok(PredicateRest { form, parts })
        }
        tree::PredRest::IsNull(_, negated) => Ok(PredicateRest {
            form: Form::IsNull(*negated),
            parts,
        }),
    }
}

#[cycle(reading)]
fn read_sum(alloc: Global, scope: &Scope, sum: &tree::Sum) -> Result<Reading, Memory>
    ensures { IfOk result (λ reading. reading ≡ spec.reading_of_sum scope.now sum.now) }
{
    let mut more = Seq::empty(alloc);
    for part in sum.more.as_slice() {
        more.push(Part {
            form: sum_form(part.sign),
            reading: read_prod(alloc, scope, &part.prod)?,
        })?;
    }
    let first = read_prod(alloc, scope, &sum.first)?;
    operations(alloc, scope, sum.place, first, more.items())
}

#[cycle(reading)]
fn read_prod(alloc: Global, scope: &Scope, prod: &tree::Prod) -> Result<Reading, Memory>
    ensures { IfOk result (λ reading. reading ≡ spec.reading_of_prod scope.now prod.now) }
{
    let mut more = Seq::empty(alloc);
    for part in prod.more.as_slice() {
        more.push(Part {
            form: prod_form(part.sign),
            reading: read_unary(alloc, scope, &part.unary)?,
        })?;
    }
    let first = read_unary(alloc, scope, &prod.first)?;
    operations(alloc, scope, prod.place, first, more.items())
}

#[cycle(reading)]
fn read_unary(alloc: Global, scope: &Scope, unary: &tree::Unary) -> Result<Reading, Memory>
    ensures { IfOk result (λ reading. reading ≡ spec.reading_of_unary scope.now unary.now) }
{
    match unary {
        tree::Unary::Minus(place, inner) => {
            let part = read_unary(alloc, scope, inner.get())?;
            formed_of_one(alloc, scope, *place, Form::Apply(Op::Neg), part)
        }
        tree::Unary::Primary(primary) => read_primary(alloc, scope, primary),
    }
}

#[cycle(reading)]
fn read_primary(alloc: Global, scope: &Scope, primary: &tree::Primary) -> Result<Reading, Memory>
    ensures { IfOk result (λ reading. reading ≡ spec.reading_of_primary scope.now primary.now) }
{
    match primary {
        tree::Primary::Number(place, number) => {
            plain(alloc, scope, *place, number_sense(*number), Face::Other)
        }
        tree::Primary::Text(place, text) => {
            let value = Sense::Value(Valued {
                expr: Expr::Lit(Value::Text(text.copy()?)),
                kind: Some(Kind::Text),
            });
            plain(alloc, scope, *place, value, Face::Literal)
        }
        tree::Primary::Null(place) => {
            let value = Sense::Value(Valued {
                expr: Expr::Lit(Value::Null),
                kind: None,
            });
            plain(alloc, scope, *place, value, Face::Other)
        }
        tree::Primary::Column(path) => column_reading(alloc, scope, path),
        tree::Primary::Call(call) => read_call(alloc, scope, call),
        tree::Primary::Case(case) => read_case(alloc, scope, case),
        tree::Primary::Nested(place, inner) => {
            let inner = read_or(alloc, scope, inner.get())?;
            Ok(nested(*place, inner))
        }
    }
}

#[cycle(reading)]
fn read_call(alloc: Global, scope: &Scope, call: &tree::Call) -> Result<Reading, Memory>
    ensures { IfOk result (λ reading. reading ≡ spec.reading_of_call scope.now call.now) }
{
    match call {
        tree::Call::Cast(place, _, inner, to) => {
            let inner = read_or(alloc, scope, inner.get())?;
            cast_reading(alloc, scope, *place, inner, to)
        }
        tree::Call::Function(place, path, None) => {
            called(alloc, scope, *place, path, &nothing_given(alloc))
        }
        tree::Call::Function(place, path, Some(args)) => {
            let given = read_args(alloc, scope, args)?;
            called(alloc, scope, *place, path, &given)
        }
    }
}

#[cycle(reading)]
fn read_args(alloc: Global, scope: &Scope, args: &tree::Args) -> Result<Given, Memory>
    ensures { IfOk result (λ given. given ≡ spec.given_of scope.now args.now) }
{
    let mut parts = Seq::empty(alloc);
    match args {
        tree::Args::Star(_) => Ok(Given {
            quantifier: Quantifier::Star,
            parts,
        }),
        tree::Args::Listed(_, distinct, first, more) => {
            parts.push(read_or(alloc, scope, first.get())?)?;
            for arg in more.as_slice() {
                parts.push(read_or(alloc, scope, arg)?)?;
            }
            Ok(Given {
                quantifier: quantifier_of(*distinct),
                parts,
            })
        }
    }
}

#[cycle(reading)]
fn read_case(alloc: Global, scope: &Scope, case: &tree::Case) -> Result<Reading, Memory>
    ensures { IfOk result (λ reading. reading ≡ spec.reading_of_case scope.now case.now) }
{
    let mut parts = Seq::empty(alloc);
    push_subject(alloc, scope, case, &mut parts)?;
    push_whens(alloc, scope, case, &mut parts)?;
    push_otherwise(alloc, scope, case, &mut parts)?;
    let form = Form::Case(case.subject.is_some());
    formed(alloc, scope, case.place, form, parts.items())
}

#[cycle(reading)]
fn push_subject(
    alloc: Global,
    scope: &Scope,
    case: &tree::Case,
    parts: &mut Seq<Reading>,
) -> Result<(), Memory>
    ensures { OnOk result (parts.new ≡ parts.old ++ spec.subject_of scope.now case.now) }
{
    match &case.subject {
        None => Ok(()),
        Some(subject) => parts.push(read_or(alloc, scope, subject.get())?),
    }
}

#[cycle(reading)]
fn push_otherwise(
    alloc: Global,
    scope: &Scope,
    case: &tree::Case,
    parts: &mut Seq<Reading>,
) -> Result<(), Memory>
    ensures { OnOk result (parts.new ≡ parts.old ++ spec.otherwise_of scope.now case.now) }
{
    match &case.otherwise {
        None => Ok(()),
        Some(otherwise) => parts.push(read_or(alloc, scope, otherwise.get())?),
    }
}

#[cycle(reading)]
fn push_whens(
    alloc: Global,
    scope: &Scope,
    case: &tree::Case,
    parts: &mut Seq<Reading>,
) -> Result<(), Memory>
    ensures { OnOk result (parts.new ≡ parts.old ++ spec.whens_of scope.now case.now) }
{
    push_when(alloc, scope, &case.first, parts)?;
    for when in case.more.as_slice() {
        push_when(alloc, scope, when, parts)?;
    }
    Ok(())
}

#[cycle(reading)]
fn push_when(
    alloc: Global,
    scope: &Scope,
    when: &tree::When,
    parts: &mut Seq<Reading>,
) -> Result<(), Memory>
    ensures { OnOk result (parts.new ≡ parts.old ++ spec.parts_of_when scope.now when.now) }
{
    parts.push(read_or(alloc, scope, when.when.get())?)?;
    parts.push(read_or(alloc, scope, when.then.get())?)
}
