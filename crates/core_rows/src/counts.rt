//! Plans that count the events of one stream.

use crate::parts::one;
use event_value::{AggKind, Aggregate, Memory, Seq, Text};
use query_plan::{Output, Plan, Step, StreamUse};
use std::alloc::Global;
use tick_time::{Unit, span_of};

/// The one stream.
fn source(alloc: Global) -> Result<Seq<StreamUse>, Memory> {
    one(
        alloc,
        StreamUse {
            stream: 0,
            stamp: None,
            over: Seq::empty(alloc),
        },
    )
}

/// The rows of the windows, under the name `n`.
fn output(alloc: Global) -> Result<Seq<Output>, Memory> {
    let name = Text::of(alloc, b"out")?;
    let names = one(alloc, Text::of(alloc, b"n")?)?;
    one(
        alloc,
        Output {
            name,
            step: 1,
            names,
        },
    )
}

/// The windows of five seconds, or of each time, that count events.
fn window(alloc: Global, tumbling: bool) -> Result<Step, Memory> {
    let aggs = one(
        alloc,
        Aggregate {
            kind: AggKind::Count,
            column: None,
        },
    )?;
    match span_of(Unit::Second, 5) {
        Some(size) if tumbling => Ok(Step::Grid {
            from: 0,
            size,
            hop: size,
            offset: size,
            keys: 0,
            aggs,
        }),
        _ => Ok(Step::Snapshot {
            from: 0,
            keys: 0,
            aggs,
        }),
    }
}

/// The stream and its windows.
fn steps(alloc: Global, tumbling: bool) -> Result<Seq<Step>, Memory> {
    let mut steps = one(alloc, Step::Source { index: 0 })?;
    steps.push(window(alloc, tumbling)?)?;
    Ok(steps)
}

/// A plan that counts the events of windows of five seconds, or of each time.
pub fn plan(alloc: Global, tumbling: bool) -> Result<Plan, Memory> {
    Ok(Plan {
        streams: source(alloc)?,
        references: Seq::empty(alloc),
        steps: steps(alloc, tumbling)?,
        outputs: output(alloc)?,
    })
}
