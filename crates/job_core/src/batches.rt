//! The rows that a cut takes out of the lanes, by stream, and those that it gives, printed.

ghost use Rattle.std.specs.Prelude.{◌≡◌, ◌++◌, IfOk, OnOk, take, drop};
ghost use Rattle.job_core.specs.Batches as spec;
ghost use Rattle.job_core.specs.Gathered as gather;

use crate::lists::push_all;
use checkpoint_form::Row;
use event_value::{Copies, Memory, Seq, Stamped, Text};
use query_plan::Output;
use row_order::put_in_order;
use std::alloc::Global;
use tick_time::Moment;
use value_text::push_row;

/// The rows of each stream, in order of time, by those of its lanes; it has so many lanes.
///
/// # Errors
/// `Memory` where there was none for the lists.
pub fn gathered(
    alloc: Global,
    counts: &[usize],
    rows: Seq<Seq<Stamped>>,
) -> Result<Seq<Seq<Stamped>>, Memory>
    ensures { IfOk result (λ streams. streams ≡ gather.gathered counts.now rows) }
{
    let mut rest = rows.into_vec();
    let mut streams = Seq::empty(alloc);
    for count in counts {
        let all = take_rows(alloc, &mut rest, *count)?;
        streams.push(put_in_order(all)?)?;
    }
    Ok(streams)
}

// Takes the first lists out, as one.
fn take_rows(
    alloc: Global,
    rest: &mut Vec<Seq<Stamped>>,
    count: usize,
) -> Result<Seq<Stamped>, Memory>
    ensures rows { IfOk result (λ rows. rows ≡ gather.joined (take count rest.old.items)) }
    ensures rest { OnOk result (rest.new.items ≡ drop count rest.old.items) }
{
    let mut all = Seq::empty(alloc);
    for i in 0..count {
        let rows = take_first(alloc, rest);
        push_all(&mut all, rows)?;
    }
    Ok(all)
}

// Takes the first list out; an empty one where there is none.
fn take_first(alloc: Global, rest: &mut Vec<Seq<Stamped>>) -> Seq<Stamped>
    ensures rows { result ≡ gather.first_list rest.old.items }
    ensures rest { rest.new.items ≡ drop 1 rest.old.items }
{
    if rest.is_empty() {
        Seq::empty(alloc)
    } else {
        rest.remove(0)
    }
}

/// The rows of each output from the start on, printed.
///
/// # Errors
/// `Memory` where there was none for them.
pub fn printed_outputs(
    alloc: Global,
    start: Moment,
    outputs: &[Output],
    rows: &[Seq<Stamped>],
) -> Result<Seq<Seq<Row>>, Memory>
    ensures { IfOk result (λ printed.
        printed ≡ spec.printed_outputs start outputs.now rows.now) }
{
    let mut printed = Seq::empty(alloc);
    for i in 0..outputs.len().min(rows.len()) {
        printed.push(printed_rows(alloc, start, &outputs[i], rows[i].items())?)?;
    }
    Ok(printed)
}

// The rows of an output from the start on, printed.
fn printed_rows(
    alloc: Global,
    start: Moment,
    output: &Output,
    rows: &[Stamped],
) -> Result<Seq<Row>, Memory>
    ensures { IfOk result (λ printed. printed ≡ spec.printed_rows start output.now rows.now) }
{
    let mut printed = Seq::empty(alloc);
    for row in rows {
        if row.time >= start {
            printed.push(print(alloc, output, row)?)?;
        }
    }
    Ok(printed)
}

// A row with its printed form.
fn print(alloc: Global, output: &Output, row: &Stamped) -> Result<Row, Memory>
    ensures { IfOk result (λ printed. printed ≡ spec.printed output.now.names row.now) }
{
    let mut text = Text::empty(alloc);
    push_row(&mut text, output.names.items(), row.values.items())?;
    Ok(Row {
        time: row.time,
        text,
    })
}
