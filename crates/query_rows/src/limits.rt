//! Limits of a plan, each on both sides of its edge.

use crate::answers::{TWO, inputs_of, is_answered};
use event_value::{Memory, Text};
use input_types::Inputs;
use std::alloc::Global;
use std::process::Abort;
use std::test::Fail;
use value_text::push_number;

/// A query of a front, a part that stands for each number from 2 to the last one, with the number
/// in the place of each `#`, and a back.
#[derive(Clone, Copy)]
struct Long {
    front: &'static str,
    part: &'static str,
    last: u64,
    back: &'static str,
}

/// A part with this number.
fn push_part(text: &mut Text, part: &str, number: u64) -> Result<(), Memory> {
    for byte in part.as_bytes() {
        if *byte == b'#' {
            push_number(text, number)?;
        } else {
            text.push(*byte)?;
        }
    }
    Ok(())
}

/// The text of a long query.
fn text_of(alloc: Global, long: &Long) -> Result<Text, Memory> {
    let mut text = Text::of(alloc, long.front.as_bytes())?;
    for number in 2..=long.last {
        push_part(&mut text, long.part, number)?;
    }
    text.extend(long.back.as_bytes())?;
    Ok(text)
}

/// Whether such a query is answered so.
fn is_long_answered(alloc: Global, inputs: &Inputs, long: &Long, wanted: (&str, u32)) -> bool {
    match text_of(alloc, long) {
        Ok(text) => is_answered(alloc, inputs, text.items(), wanted),
        Err(_) => false,
    }
}

/// Asserts how such a query is answered.
fn check(
    rt: &impl Abort,
    alloc: Global,
    (front, part, last, back): (&'static str, &'static str, u64, &'static str),
    wanted: (&str, u32),
) -> Result<(), Fail> {
    let inputs = inputs_of(rt, alloc, TWO)?;
    let long = Long {
        front,
        part,
        last,
        back,
    };
    assert!(rt;
        is_long_answered(alloc, &inputs, &long, wanted),
        "{front} {last}"
    );
    Ok(())
}

#[test]
fn a_select_has_64_items(rt: HostRuntime) -> Result<(), Fail> {
    let (front, part, back) = ("SELECT a AS x1", ", a AS x#", " INTO out FROM src");
    check(
        &rt,
        rt.alloc(),
        (front, part, 64, back),
        ("Source Project", 0),
    )?;
    check(&rt, rt.alloc(), (front, part, 65, back), ("TooMany", 638))
}

#[test]
fn a_list_of_in_has_64_parts(rt: HostRuntime) -> Result<(), Fail> {
    let (front, part, back) = ("SELECT a INTO out FROM src WHERE a IN (1", ", #", ")");
    check(
        &rt,
        rt.alloc(),
        (front, part, 64, back),
        ("Source Filter Project", 0),
    )?;
    check(&rt, rt.alloc(), (front, part, 66, back), ("TooMany", 286))
}

#[test]
fn a_select_has_16_groups(rt: HostRuntime) -> Result<(), Fail> {
    let front = "SELECT COUNT(*) AS n INTO out FROM src GROUP BY TumblingWindow(second, 5), a + 1";
    check(
        &rt,
        rt.alloc(),
        (front, ", a + #", 15, ""),
        ("Source Project Grid Project", 0),
    )?;
    check(
        &rt,
        rt.alloc(),
        (front, ", a + #", 16, ""),
        ("TooMany", 186),
    )
}

/// The steps of 16 names and the statement behind them.
const NAMES: &str = "Source Project Project Project Project Project Project Project Project \
    Project Project Project Project Project Project Project Project Project";

#[test]
fn with_has_16_names(rt: HostRuntime) -> Result<(), Fail> {
    let front = "WITH w1 AS (SELECT a FROM src)";
    let (part, back) = (", w# AS (SELECT a FROM src)", " SELECT a INTO out FROM w1");
    check(&rt, rt.alloc(), (front, part, 16, back), (NAMES, 0))?;
    check(&rt, rt.alloc(), (front, part, 17, back), ("TooMany", 444))
}

#[test]
fn a_script_has_8_outputs(rt: HostRuntime) -> Result<(), Fail> {
    let (front, part) = ("SELECT a INTO o1 FROM src", "; SELECT a INTO o# FROM src");
    let steps = "Source Project Project Project Project Project Project Project Project";
    check(&rt, rt.alloc(), (front, part, 8, ""), (steps, 0))?;
    check(&rt, rt.alloc(), (front, part, 9, ""), ("TooMany", 216))
}

/// The steps of a union of 16 selects, 32 in all.
const UNIONS: &str = "Source Project Project Union Project Union Project Union Project Union \
    Project Union Project Union Project Union Project Union Project Union Project Union \
    Project Union Project Union Project Union Project Union Project Union";

#[test]
fn a_plan_has_32_steps(rt: HostRuntime) -> Result<(), Fail> {
    let (front, part) = ("SELECT a INTO out FROM src", " UNION SELECT a FROM src");
    check(&rt, rt.alloc(), (front, part, 16, ""), (UNIONS, 0))?;
    check(&rt, rt.alloc(), (front, part, 17, ""), ("TooMany", 393))?;
    let filtered = "SELECT a INTO out FROM src WHERE a > 0";
    check(&rt, rt.alloc(), (filtered, part, 16, ""), ("TooMany", 381))
}

#[test]
fn a_join_is_a_step(rt: HostRuntime) -> Result<(), Fail> {
    let (front, part) = (
        "SELECT b INTO out FROM src JOIN ref ON 1 = 1",
        " UNION SELECT b FROM src",
    );
    check(&rt, rt.alloc(), (front, part, 16, ""), ("TooMany", 387))
}
