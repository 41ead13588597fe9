//! Plans of steps as a table spells them.

use crate::parts::one;
use event_value::{AggKind, Aggregate, Memory, Policy, Seq, Text, Value};
use input_types::Inputs;
use query_meaning::{ReadyPlan, ready_plan};
use query_plan::{Cond, Expr, Output, Plan, Rel, Step};
use std::alloc::Global;
use tick_time::{Unit, span_of};

/// A step over the steps of these numbers.
#[derive(Clone, Copy)]
pub enum Spelt {
    /// The rows of the stream of this number.
    Source(u16),
    /// The rows whose column is greater than a number.
    Above(u16, u16, i64),
    /// One column.
    Column(u16, u16),
    /// The rows of both.
    Union(u16, u16),
    /// Windows of a size and a hop in seconds, of so many keys, with one aggregate.
    Grid(u16, i64, i64, u16, Aggregate),
    /// A window per time of so many keys, with one aggregate.
    Snapshot(u16, u16, Aggregate),
}

/// The number of rows.
pub const COUNT: Aggregate = Aggregate {
    kind: AggKind::Count,
    column: None,
};

/// The greatest value of the first column.
pub const GREATEST: Aggregate = Aggregate {
    kind: AggKind::Max,
    column: Some(0),
};

/// Whether a column is greater than a number.
fn above(place: u16, number: i64) -> Cond {
    Cond::Compare(Rel::Gt, Expr::Col(place), Expr::Lit(Value::Big(number)))
}

/// A grid of a size and a hop in seconds; one that doesn't fit where these are too long.
fn grid(alloc: Global, spelt: (u16, i64, i64, u16, Aggregate)) -> Result<Step, Memory> {
    let (from, size, hop, keys, aggregate) = spelt;
    let aggs = one(alloc, aggregate)?;
    let (Some(size), Some(hop)) = (span_of(Unit::Second, size), span_of(Unit::Second, hop)) else {
        return Ok(Step::Snapshot { from, keys, aggs });
    };
    Ok(Step::Grid {
        from,
        size,
        hop,
        offset: hop,
        keys,
        aggs,
    })
}

/// The step that is spelt.
fn step(alloc: Global, spelt: Spelt) -> Result<Step, Memory> {
    match spelt {
        Spelt::Source(index) => Ok(Step::Source { index }),
        Spelt::Above(from, place, number) => Ok(Step::Filter {
            from,
            cond: above(place, number),
        }),
        Spelt::Column(from, place) => Ok(Step::Project {
            from,
            exprs: one(alloc, Expr::Col(place))?,
        }),
        Spelt::Union(first, second) => Ok(Step::Union { first, second }),
        Spelt::Grid(from, size, hop, keys, aggregate) => {
            grid(alloc, (from, size, hop, keys, aggregate))
        }
        Spelt::Snapshot(from, keys, aggregate) => Ok(Step::Snapshot {
            from,
            keys,
            aggs: one(alloc, aggregate)?,
        }),
    }
}

/// The steps that are spelt.
fn steps(alloc: Global, spelt: &[Spelt]) -> Result<Seq<Step>, Memory> {
    let mut steps = Seq::empty(alloc);
    for one in spelt {
        steps.push(step(alloc, *one)?)?;
    }
    Ok(steps)
}

/// Outputs of the rows of these steps.
fn outputs(alloc: Global, places: &[u16]) -> Result<Seq<Output>, Memory> {
    let mut outputs = Seq::empty(alloc);
    for place in places {
        outputs.push(Output {
            name: Text::empty(alloc),
            step: *place,
            names: Seq::empty(alloc),
        })?;
    }
    Ok(outputs)
}

/// Inputs without a stream: a step that doesn't join asks for no number of columns.
fn inputs(alloc: Global) -> Inputs {
    Inputs {
        streams: Seq::empty(alloc),
        references: Seq::empty(alloc),
        policy: Policy {
            late: 0,
            disorder: 0,
            adjust: true,
            skew: 0,
        },
    }
}

/// A plan of these steps, with the rows of these as outputs.
pub fn plan(alloc: Global, spelt: &[Spelt], places: &[u16]) -> Result<ReadyPlan, Memory> {
    let plan = Plan {
        streams: Seq::empty(alloc),
        references: Seq::empty(alloc),
        steps: steps(alloc, spelt)?,
        outputs: outputs(alloc, places)?,
    };
    ready_plan(alloc, &plan, &inputs(alloc), &[])
}
