//! What queries over the streams of columns.rt give, as it is printed.

use crate::columns::{end_of_rows, inputs, rows};
use event_value::{Memory, Seq, Stamped, Text};
use input_types::Inputs;
use query_meaning::{Pipeline, ready_plan};
use query_parse::parse;
use query_plan::Plan;
use query_type::plan;
use std::alloc::Global;
use std::process::Abort;
use std::test::Fail;
use value_text::push_value;

/// The values of a row, a blank between two.
fn push_values(text: &mut Text, row: &Stamped) -> Result<(), Memory> {
    let mut is_first = true;
    for value in row.values.items() {
        if !is_first {
            text.push(b' ')?;
        }
        is_first = false;
        push_value(text, value)?;
    }
    Ok(())
}

/// The rows of outputs, `; ` between two.
fn rows_text(alloc: Global, outputs: &[Seq<Stamped>]) -> Result<Text, Memory> {
    let mut text = Text::empty(alloc);
    for rows in outputs {
        for row in rows.items() {
            if !text.items().is_empty() {
                text.extend(b"; ")?;
            }
            push_values(&mut text, row)?;
        }
    }
    Ok(text)
}

/// The rows of the streams that a plan uses.
fn sources(alloc: Global, plan: &Plan) -> Result<Seq<Seq<Stamped>>, Memory> {
    let mut sources = Seq::empty(alloc);
    for used in plan.streams.items() {
        sources.push(rows(alloc, used.stream)?)?;
    }
    Ok(sources)
}

/// The rows that a plan gives.
fn plan_text(alloc: Global, plan: &Plan, inputs: &Inputs) -> Result<Text, Memory> {
    let sources = sources(alloc, plan)?;
    let ready = ready_plan(alloc, plan, inputs, &[])?;
    let pipeline = Pipeline::begin(alloc, &ready)?;
    let (_, outputs) = pipeline.advance(alloc, &ready, sources.items(), end_of_rows())?;
    rows_text(alloc, outputs.items())
}

/// The rows that a query gives, or the word for what refuses it.
fn query_text(alloc: Global, inputs: &Inputs, query: &[u8]) -> Result<Text, Memory> {
    match parse(alloc, query) {
        Err(_) => Text::of(alloc, b"refused as a text"),
        Ok(script) => match plan(alloc, &script, inputs) {
            Err(_) => Text::of(alloc, b"refused as a plan"),
            Ok(plan) => plan_text(alloc, &plan, inputs),
        },
    }
}

/// The texts behind each other.
fn joined(alloc: Global, parts: &[&str]) -> Result<Text, Memory> {
    let mut text = Text::empty(alloc);
    for part in parts {
        text.extend(part.as_bytes())?;
    }
    Ok(text)
}

/// Whether a query of these parts gives this.
fn gives(alloc: Global, parts: &[&str], wanted: &str) -> Result<bool, Memory> {
    let query = joined(alloc, parts)?;
    let inputs = inputs(alloc)?;
    let found = query_text(alloc, &inputs, query.items())?;
    Ok(found.items() == wanted.as_bytes())
}

/// Whether a condition over the row of `s` has this truth.
fn has_truth(alloc: Global, cond: &str, wanted: &str) -> Result<bool, Memory> {
    let printed = match wanted {
        "true" => "1",
        "false" => "0",
        "unknown" => "null",
        _ => wanted,
    };
    let front = "SELECT CASE WHEN ";
    let middle = " THEN 1 WHEN NOT (";
    let back = ") THEN 0 END AS v INTO o FROM s";
    gives(alloc, &[front, cond, middle, cond, back], printed)
}

/// Asserts each row of a table: the middle of a query between these ends, and its rows.
fn check(
    rt: &impl Abort,
    alloc: Global,
    (front, back): (&str, &str),
    table: &[(&str, &str)],
) -> Result<(), Fail> {
    for (text, wanted) in table {
        assert!(rt; gives(alloc, &[front, text, back], wanted)?, "{text}");
    }
    Ok(())
}

/// Asserts each row of a table: an expression, and its printed value over the row of `s`.
pub fn check_values(rt: &impl Abort, alloc: Global, table: &[(&str, &str)]) -> Result<(), Fail> {
    check(rt, alloc, ("SELECT ", " AS v INTO o FROM s"), table)
}

/// Asserts each row of a table: an expression, and its printed value over the group of all rows of
/// `m`.
pub fn check_aggregates(
    rt: &impl Abort,
    alloc: Global,
    table: &[(&str, &str)],
) -> Result<(), Fail> {
    let back = " AS v INTO o FROM m GROUP BY SnapshotWindow()";
    check(rt, alloc, ("SELECT ", back), table)
}

/// Asserts each row of a table: a query, and the values of its rows, `; ` between two rows.
pub fn check_queries(rt: &impl Abort, alloc: Global, table: &[(&str, &str)]) -> Result<(), Fail> {
    check(rt, alloc, ("", ""), table)
}

/// Asserts each row of a table: a condition, and `true`, `false` or `unknown`.
pub fn check_truths(rt: &impl Abort, alloc: Global, table: &[(&str, &str)]) -> Result<(), Fail> {
    for (cond, wanted) in table {
        assert!(rt; has_truth(alloc, cond, wanted)?, "{cond}");
    }
    Ok(())
}
