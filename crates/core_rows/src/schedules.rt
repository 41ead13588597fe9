//! Tests of the core over lanes of counted events, however their entries come.
//!
//! An item is written as the second of its enqueue moment, none for one that is no record. A row
//! is written as its second and its text.

ghost use Rattle.std.specs.Prelude.{IfOk};
ghost use Rattle.input_book.specs.Laws.{IsWellFormed};

use crate::counts::plan;
use crate::parts::moment;
use checkpoint_form::{Batch, Row};
use event_value::{Item, Memory, Rule, Seq};
use input_book::{InputErr, read_inputs};
use input_types::Inputs;
use job_core::Core;
use std::alloc::Global;
use std::test::Fail;

/// The second of a record, none for an item that is no record.
type Mark = Option<u64>;

/// What is done with a core.
#[derive(Clone, Copy)]
enum Act<'a> {
    /// A lane is fed so many entries of a segment with these items.
    Feed(u32, &'a [Mark], u32),
    /// The core is cut.
    Cut,
}

/// The second up to which a batch is final, its rows, and how many records it drops.
type Wanted<'a> = (u64, &'a [(u64, &'a str)], usize);

/// One partition of two segments.
const ONE: &str = "[[stream]]
name = \"src\"
format = \"json\"
columns = [{name = \"v\", kind = \"bigint\"}]
[[stream.partition]]
segments = [{file = \"a\", through = \"1970-01-01T00:00:05Z\"}, {file = \"b\", through = \"1970-01-01T00:00:06Z\"}]
";

/// Two partitions, of which the second has an empty segment.
const TWO: &str = "[[stream]]
name = \"src\"
format = \"json\"
columns = [{name = \"v\", kind = \"bigint\"}]
[[stream.partition]]
segments = [{file = \"a\", through = \"1970-01-01T00:00:12Z\"}]
[[stream.partition]]
segments = [{file = \"b\", through = \"1970-01-01T00:00:02Z\"}, {file = \"c\", through = \"1970-01-01T00:00:17Z\"}]
";

/// Two partitions that are ended.
const ENDED: &str = "[[stream]]
name = \"src\"
format = \"json\"
columns = [{name = \"v\", kind = \"bigint\"}]
[[stream.partition]]
ended = true
segments = [{file = \"a\", through = \"1970-01-01T00:00:03Z\"}]
[[stream.partition]]
ended = true
segments = [{file = \"b\", through = \"1970-01-01T00:00:03Z\"}]
";

/// The last moment, in seconds.
const LAST: u64 = 253_402_300_800;

/// The item of a mark.
fn item(alloc: Global, mark: Mark) -> Item {
    match mark {
        Some(second) => Item::Good {
            enqueued: moment(second),
            values: Seq::empty(alloc),
        },
        None => Item::Bad(Rule::Syntax),
    }
}

/// The items of marks.
fn items(alloc: Global, marks: &[Mark]) -> Result<Seq<Item>, Memory> {
    let mut items = Seq::empty(alloc);
    for mark in marks {
        items.push(item(alloc, *mark))?;
    }
    Ok(items)
}

/// The inputs of a document, well formed where it is accepted.
fn inputs(alloc: Global, document: &str) -> Result<Inputs, InputErr>
    ensures { IfOk result IsWellFormed }
{
    let inputs = read_inputs(alloc, document.as_bytes())?;
    Ok(inputs)
}

/// A core that counts the events of a document's inputs, from a second on.
fn core(alloc: Global, tumbling: bool, document: &str, start: u64) -> Result<Core, Memory> {
    let plan = plan(alloc, tumbling)?;
    match inputs(alloc, document) {
        Ok(inputs) => Core::fresh(alloc, &plan, &inputs, Seq::empty(alloc), moment(start)),
        Err(_) => Err(Memory),
    }
}

/// The core, fed so many entries of a segment if the lane has as many to read.
fn fed(alloc: Global, core: Core, marks: &[Mark], lane: u32, n: u32) -> Result<Core, Memory> {
    let segment = items(alloc, marks)?;
    let all = segment.items();
    if core.has_unread(lane, all, n) {
        core.feed(alloc, lane, all, n)
    } else {
        Ok(core)
    }
}

/// The batches of the cuts among what is done with a core.
fn run(alloc: Global, core: Core, acts: &[Act]) -> Result<Seq<Batch>, Memory> {
    let mut core = core;
    let mut batches = Seq::empty(alloc);
    for one in acts {
        match one {
            Act::Feed(lane, marks, n) => core = fed(alloc, core, marks, *lane, *n)?,
            Act::Cut => {
                let (next, batch) = core.cut(alloc, 1)?;
                core = next;
                batches.push(batch)?;
            }
        }
    }
    Ok(batches)
}

/// Whether the rows are these.
fn are_rows(found: &[Row], wanted: &[(u64, &str)]) -> bool {
    found.len() == wanted.len()
        && found.iter().zip(wanted).all(|(row, (second, text))| {
            row.time == moment(*second) && row.text.items() == text.as_bytes()
        })
}

/// Whether a batch is this one.
fn is_batch(found: &Batch, wanted: &Wanted) -> bool {
    let (upto, rows, drops) = wanted;
    found.upto == moment(*upto)
        && found.drops.items().len() == *drops
        && match found.outputs.items() {
            [output] => are_rows(output.items(), rows),
            _ => false,
        }
}

/// Whether the batches are these.
fn are_batches(found: &[Batch], wanted: &[Wanted]) -> bool {
    found.len() == wanted.len()
        && found
            .iter()
            .zip(wanted)
            .all(|(batch, want)| is_batch(batch, want))
}

/// Whether a core that counts events gives these batches.
fn gives(
    alloc: Global,
    tumbling: bool,
    document: &str,
    start: u64,
    acts: &[Act],
    wanted: &[Wanted],
) -> Result<bool, Memory> {
    let core = core(alloc, tumbling, document, start)?;
    let batches = run(alloc, core, acts)?;
    Ok(are_batches(batches.items(), wanted))
}

#[test]
fn rows_are_final_below_the_least_watermark(rt: HostRuntime) -> Result<(), Fail> {
    let first = [
        Act::Feed(0, &[Some(1), Some(12)], 3),
        Act::Feed(1, &[Some(2)], 2),
        Act::Cut,
        Act::Feed(1, &[], 1),
        Act::Cut,
    ];
    let second = [
        Act::Feed(1, &[Some(2)], 1),
        Act::Feed(1, &[Some(2)], 1),
        Act::Feed(0, &[Some(1), Some(12)], 2),
        Act::Feed(0, &[Some(1), Some(12)], 1),
        Act::Cut,
        Act::Feed(1, &[], 1),
        Act::Cut,
    ];
    let wanted: [Wanted; 2] = [(2, &[], 0), (12, &[(5, "{\"n\":2}")], 0)];
    assert!(rt; gives(rt.alloc(), true, TWO, 0, &first, &wanted)?);
    assert!(rt; gives(rt.alloc(), true, TWO, 0, &second, &wanted)?);
    Ok(())
}

#[test]
fn a_window_that_ends_at_the_watermark_is_still_open(rt: HostRuntime) -> Result<(), Fail> {
    let acts = [
        Act::Feed(0, &[Some(1), Some(5)], 3),
        Act::Cut,
        Act::Feed(0, &[Some(6)], 2),
        Act::Cut,
    ];
    let wanted: [Wanted; 2] = [(5, &[], 0), (6, &[(5, "{\"n\":2}")], 0)];
    assert!(rt; gives(rt.alloc(), true, ONE, 0, &acts, &wanted)?);
    assert!(rt; gives(rt.alloc(), true, ONE, 5, &acts, &wanted)?);
    let later: [Wanted; 2] = [(5, &[], 0), (6, &[], 0)];
    assert!(rt; gives(rt.alloc(), true, ONE, 6, &acts, &later)?);
    Ok(())
}

#[test]
fn lanes_that_are_ended_hold_nothing_back(rt: HostRuntime) -> Result<(), Fail> {
    let acts = [
        Act::Feed(0, &[Some(3), None], 3),
        Act::Feed(1, &[Some(3)], 2),
        Act::Cut,
        Act::Cut,
    ];
    let wanted: [Wanted; 2] = [(LAST, &[(3, "{\"n\":2}")], 1), (LAST, &[], 0)];
    assert!(rt; gives(rt.alloc(), false, ENDED, 0, &acts, &wanted)?);
    Ok(())
}
