//! The plans of queries with what stands in their steps, as texts.

use crate::answers::{TWO, inputs_of, step_word};
use event_value::{AggKind, Aggregate, Memory, Text, Value};
use input_types::Inputs;
use query_parse::parse;
use query_plan::{Cond, Expr, Plan, Rel, Step};
use query_type::plan;
use std::alloc::Global;
use std::process::Abort;
use std::test::Fail;
use value_text::push_number;

/// A word, behind a blank where it isn't the first.
fn push_word(text: &mut Text, word: &str) -> Result<(), Memory> {
    if !text.items().is_empty() {
        text.push(b' ')?;
    }
    text.extend(word.as_bytes())
}

/// A number behind a blank.
fn push_count(text: &mut Text, number: u64) -> Result<(), Memory> {
    text.push(b' ')?;
    push_number(text, number)
}

/// A number with its sign behind a blank.
fn push_signed(text: &mut Text, number: i64) -> Result<(), Memory> {
    if number < 0 {
        text.extend(b" -")?;
        return push_number(text, number.unsigned_abs());
    }
    push_count(text, number.unsigned_abs())
}

/// A column by its number, a whole number behind `#`.
fn push_expr(text: &mut Text, expr: &Expr) -> Result<(), Memory> {
    match expr {
        Expr::Col(column) => push_count(text, *column as u64),
        Expr::Lit(Value::Big(whole)) => {
            push_word(text, "#")?;
            push_signed(text, *whole)
        }
        _ => push_word(text, "?"),
    }
}

/// Expressions, one behind the other.
fn push_exprs(text: &mut Text, exprs: &[Expr]) -> Result<(), Memory> {
    for expr in exprs {
        push_expr(text, expr)?;
    }
    Ok(())
}

/// An equality.
fn push_equality(text: &mut Text, rel: Rel, left: &Expr, right: &Expr) -> Result<(), Memory> {
    push_expr(text, left)?;
    push_word(text, if rel == Rel::Eq { "=" } else { "?" })?;
    push_expr(text, right)
}

/// A condition that is an equality.
fn push_simple(text: &mut Text, cond: &Cond) -> Result<(), Memory> {
    match cond {
        Cond::Compare(rel, left, right) => push_equality(text, *rel, left, right),
        _ => push_word(text, "?"),
    }
}

/// An equality, or two of them.
fn push_cond(text: &mut Text, cond: &Cond) -> Result<(), Memory> {
    match cond {
        Cond::And(left, right) => {
            push_simple(text, left.get())?;
            push_word(text, "and")?;
            push_simple(text, right.get())
        }
        _ => push_simple(text, cond),
    }
}

/// Which rows a join has, and its condition.
fn push_join(text: &mut Text, outer: bool, cond: &Cond) -> Result<(), Memory> {
    push_word(text, if outer { "left" } else { "inner" })?;
    push_cond(text, cond)
}

/// The word of an aggregate.
fn kind_word(kind: AggKind) -> &'static str {
    match kind {
        AggKind::Count => "Count",
        AggKind::CountDistinct => "CountDistinct",
        AggKind::Sum => "Sum",
        AggKind::Avg => "Avg",
        AggKind::Min => "Min",
        AggKind::Max => "Max",
    }
}

/// How many group expressions, and each aggregate with its column.
fn push_groups(text: &mut Text, keys: u16, aggs: &[Aggregate]) -> Result<(), Memory> {
    push_word(text, "keys")?;
    push_count(text, keys as u64)?;
    for aggregate in aggs {
        push_word(text, kind_word(aggregate.kind))?;
        if let Some(column) = aggregate.column {
            push_count(text, column as u64)?;
        }
    }
    Ok(())
}

/// How many parts a session has.
fn push_parts(text: &mut Text, parts: u16) -> Result<(), Memory> {
    push_word(text, "parts")?;
    push_count(text, parts as u64)
}

/// What stands in a window that follows the rows: its lengths in ticks, parts, keys, aggregates.
fn push_flow(text: &mut Text, step: &Step) -> Result<(), Memory> {
    match step {
        Step::Sliding {
            size,
            keys,
            aggs,
            ..
        } => {
            push_count(text, size.ticks().unsigned_abs())?;
            push_groups(text, *keys, aggs.items())
        }
        Step::Session {
            timeout,
            most,
            parts,
            keys,
            aggs,
            ..
        } => {
            push_count(text, timeout.ticks().unsigned_abs())?;
            push_count(text, most.ticks().unsigned_abs())?;
            push_parts(text, *parts)?;
            push_groups(text, *keys, aggs.items())
        }
        _ => Ok(()),
    }
}

/// A step with what stands in it: the expressions of a projection, the sides, bound and condition
/// of a join, and what a window that follows the rows takes. Of other steps the word alone.
fn push_step(text: &mut Text, step: &Step) -> Result<(), Memory> {
    push_word(text, step_word(step))?;
    match step {
        Step::Project { exprs, .. } => push_exprs(text, exprs.items()),
        Step::Join {
            left,
            right,
            low,
            high,
            cond,
            outer,
        } => {
            push_count(text, *left as u64)?;
            push_count(text, *right as u64)?;
            push_signed(text, low.ticks())?;
            push_signed(text, high.ticks())?;
            push_join(text, *outer, cond)
        }
        Step::Lookup {
            left,
            reference,
            cond,
            outer,
        } => {
            push_count(text, *left as u64)?;
            push_count(text, *reference as u64)?;
            push_join(text, *outer, cond)
        }
        _ => push_flow(text, step),
    }
}

/// Steps, one behind the other.
fn push_steps(text: &mut Text, steps: &[Step]) -> Result<(), Memory> {
    for step in steps {
        push_step(text, step)?;
    }
    Ok(())
}

/// The places of the references, and the steps with what stands in them.
fn plan_text(alloc: Global, plan: &Plan) -> Result<Text, Memory> {
    let mut text = Text::empty(alloc);
    for reference in plan.references.items() {
        push_word(&mut text, "reference")?;
        push_count(&mut text, *reference as u64)?;
    }
    push_steps(&mut text, plan.steps.items())?;
    Ok(text)
}

/// Whether a plan has this text.
fn has_text(alloc: Global, plan: &Plan, wanted: &str) -> bool {
    match plan_text(alloc, plan) {
        Ok(text) => text.items() == wanted.as_bytes(),
        Err(_) => false,
    }
}

/// Whether a query has a plan of this text.
fn is_planned(alloc: Global, inputs: &Inputs, query: &str, wanted: &str) -> bool {
    match parse(alloc, query.as_bytes()) {
        Ok(script) => match plan(alloc, &script, inputs) {
            Ok(plan) => has_text(alloc, &plan, wanted),
            Err(_) => false,
        },
        Err(_) => false,
    }
}

/// Asserts each line of a table: a query over the two streams, and its plan with what stands in
/// the steps.
pub fn check_plans(rt: &impl Abort, alloc: Global, cases: &str) -> Result<(), Fail> {
    let inputs = inputs_of(rt, alloc, TWO)?;
    for line in cases.lines() {
        if let Some((query, wanted)) = line.split_once(" => ") {
            assert!(rt; is_planned(alloc, &inputs, query, wanted), "{query}");
        }
    }
    Ok(())
}
