//! What a query is answered with over the inputs of the tests.

use event_value::{Column, Format, Kind, Memory, Seq, Text};
use input_book::read_inputs;
use input_types::{Inputs, Reference};
use query_parse::parse;
use query_plan::{Plan, Step};
use query_type::{TypeErr, plan};
use std::alloc::Global;
use std::process::Abort;
use std::test::Fail;

/// Two streams.
pub const TWO: &str = "
[[stream]]
name = 'src'
format = 'json'
columns = [
    {name = 'a', kind = 'bigint'},
    {name = 'b', kind = 'nvarchar(max)'},
    {name = 'c', kind = 'fixed'},
    {name = 't', kind = 'datetime'},
    {name = 'k', kind = 'bit'},
]
[[stream.partition]]
segments = [{file = 'src.json', through = '2024-01-01T00:00:01Z'}]
[[stream]]
name = 'dst'
format = 'json'
columns = [
    {name = 'a', kind = 'bigint'},
    {name = 'd', kind = 'nvarchar(max)'},
    {name = 't', kind = 'datetime'},
]
[[stream.partition]]
segments = [{file = 'dst.json', through = '2024-01-01T00:00:01Z'}]
";

/// One stream.
pub const ONE: &str = "
[[stream]]
name = 'src'
format = 'json'
columns = [{name = 'a', kind = 'bigint'}, {name = 'b', kind = 'nvarchar(max)'}]
[[stream.partition]]
segments = [{file = 'src.json', through = '2024-01-01T00:00:01Z'}]
";

/// A query with the place where a caret stood in it.
#[derive(Drop)]
struct Marked {
    text: Text,
    place: u32,
}

/// The query of a line, in which a caret may mark a place.
fn unmarked(alloc: Global, line: &str) -> Result<Marked, Memory> {
    let mut text = Text::empty(alloc);
    let mut place = 0;
    let mut at: u32 = 0;
    for byte in line.as_bytes() {
        if *byte == b'^' {
            place = at;
        } else {
            text.push(*byte)?;
            at = at.saturating_add(1);
        }
    }
    Ok(Marked { text, place })
}

/// A column of a kind under a name.
fn column(alloc: Global, name: &str, kind: Kind) -> Result<Column, Memory> {
    Ok(Column {
        name: Text::of(alloc, name.as_bytes())?,
        kind,
        path: Seq::empty(alloc),
    })
}

/// A reference without snapshots.
fn reference(alloc: Global, name: &str, columns: Seq<Column>) -> Result<Reference, Memory> {
    Ok(Reference {
        name: Text::of(alloc, name.as_bytes())?,
        format: Format::Json,
        columns,
        snapshots: Seq::empty(alloc),
    })
}

/// The references `zones` and `ref`.
fn references(alloc: Global) -> Result<Seq<Reference>, Memory> {
    let mut zones = Seq::empty(alloc);
    zones.push(column(alloc, "zone", Kind::Text)?)?;
    let mut names = Seq::empty(alloc);
    names.push(column(alloc, "a", Kind::Big)?)?;
    names.push(column(alloc, "name", Kind::Text)?)?;
    let mut references = Seq::empty(alloc);
    references.push(reference(alloc, "zones", zones)?)?;
    references.push(reference(alloc, "ref", names)?)?;
    Ok(references)
}

/// The inputs of a document, and the references beside them.
pub fn inputs_of(rt: &impl Abort, alloc: Global, document: &str) -> Result<Inputs, Fail> {
    let references = references(alloc)?;
    let mut inputs = match read_inputs(alloc, document.as_bytes()) {
        Ok(inputs) => inputs,
        Err(_) => panic!(rt; "{document}"),
    };
    inputs.references = references;
    Ok(inputs)
}

/// The word of a step.
pub fn step_word(step: &Step) -> &'static str {
    match step {
        Step::Source { .. } => "Source",
        Step::Filter { .. } => "Filter",
        Step::Project { .. } => "Project",
        Step::Union { .. } => "Union",
        Step::Grid { .. } => "Grid",
        Step::Snapshot { .. } => "Snapshot",
        Step::Sliding { .. } => "Sliding",
        Step::Session { .. } => "Session",
        Step::Join { .. } => "Join",
        Step::Lookup { .. } => "Lookup",
    }
}

/// The steps of a plan in words.
fn steps_text(alloc: Global, plan: &Plan) -> Result<Text, Memory> {
    let mut text = Text::empty(alloc);
    for step in plan.steps.items() {
        if !text.items().is_empty() {
            text.push(b' ')?;
        }
        text.extend(step_word(step).as_bytes())?;
    }
    Ok(text)
}

/// Whether a plan has these steps.
fn has_steps(alloc: Global, plan: &Plan, wanted: &str) -> bool {
    match steps_text(alloc, plan) {
        Ok(text) => text.items() == wanted.as_bytes(),
        Err(_) => false,
    }
}

/// The name of a rule, and the place where it is broken.
fn rule_of(error: TypeErr) -> (&'static str, u32) {
    match error {
        TypeErr::UnknownSource(place) => ("UnknownSource", place),
        TypeErr::UnknownColumn(place) => ("UnknownColumn", place),
        TypeErr::Ambiguous(place) => ("Ambiguous", place),
        TypeErr::Kind(place) => ("Kind", place),
        TypeErr::Aggregate(place) => ("Aggregate", place),
        TypeErr::NotGrouped(place) => ("NotGrouped", place),
        TypeErr::Window(place) => ("Window", place),
        TypeErr::Bound(place) => ("Bound", place),
        TypeErr::StampTwice(place) => ("StampTwice", place),
        TypeErr::NameTwice(place) => ("NameTwice", place),
        TypeErr::TooMany(place) => ("TooMany", place),
        TypeErr::Unsupported(place) => ("Unsupported", place),
        TypeErr::Memory => ("Memory", 0),
    }
}

/// Whether a query is answered with these steps, or with this rule at this place.
pub fn is_answered(
    alloc: Global,
    inputs: &Inputs,
    query: &[u8],
    (wanted, place): (&str, u32),
) -> bool {
    match parse(alloc, query) {
        Ok(script) => match plan(alloc, &script, inputs) {
            Ok(plan) => has_steps(alloc, &plan, wanted),
            Err(error) => rule_of(error) == (wanted, place),
        },
        Err(_) => false,
    }
}

/// Whether the query of a line is answered so, a rule at its caret.
fn is_line_answered(alloc: Global, inputs: &Inputs, line: &str, wanted: &str) -> bool {
    match unmarked(alloc, line) {
        Ok(marked) => is_answered(alloc, inputs, marked.text.items(), (wanted, marked.place)),
        Err(_) => false,
    }
}

/// Asserts each line of a table over these inputs.
fn check_all(rt: &impl Abort, alloc: Global, inputs: &Inputs, cases: &str) {
    for line in cases.lines() {
        if let Some((query, wanted)) = line.split_once(" => ") {
            assert!(rt; is_line_answered(alloc, inputs, query, wanted), "{query}");
        }
    }
}

/// Asserts each line of a table: a query, with a caret before the byte where it is refused, and the
/// steps of its plan or the rule that it breaks.
pub fn check_lines(
    rt: &impl Abort,
    alloc: Global,
    document: &str,
    cases: &str,
) -> Result<(), Fail> {
    let inputs = inputs_of(rt, alloc, document)?;
    check_all(rt, alloc, &inputs, cases);
    Ok(())
}
