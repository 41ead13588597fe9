//! `accept`, which reads what the documents of a command say.

ghost use Rattle.std.specs.Prelude.{◌≡◌, IfOk, IfErr};
ghost use Rattle.outside.specs.declared.segment.Segment.TheVariants.{Bytes};
ghost use Rattle.jobs_top.specs.Documents.{IsAccepted, IsRefusalOf, IsScriptAnswer, IsInputsAnswer};

use crate::documents::Documents;
use crate::failure::Failure;
use event_value::Memory;
use input_book::{InputErr, read_inputs};
use input_types::Inputs;
use outside::Segment;
use query_parse::{ParseErr, parse};
use query_plan::Plan;
use query_tree::Script;
use query_type::{TypeErr, plan};
use sqlite_items::Boxed;
use std::alloc::Global;

/// What the documents of a command say.
#[derive(Drop)]
pub struct Accepted {
    /// The query's tree.
    pub script: Boxed<Script>,
    /// The inputs of the document.
    pub inputs: Inputs,
    /// The plan of the query over the inputs.
    pub plan: Plan,
}

/// What the documents say, or the first of these refusals: the query's as a text, the inputs document's,
/// the query's over the inputs.
///
/// # Errors
/// The refusal, or `Memory`.
pub fn accept(alloc: Global, documents: &Documents) -> Result<Accepted, Failure>
    ensures ok { IfOk result (IsAccepted documents.now) }
    ensures err { IfErr result (IsRefusalOf documents.now) }
{
    let script = script_in(alloc, &documents.query)?;
    let inputs = inputs_in(alloc, &documents.inputs)?;
    match plan(alloc, script.get(), &inputs) {
        Ok(plan) => Ok(Accepted {
            script,
            inputs,
            plan,
        }),
        Err(TypeErr::Memory) => Err(Failure::Memory),
        Err(error) => Err(Failure::Plan(error)),
    }
}

/// The query that a file holds.
fn script_in(alloc: Global, segment: &Segment) -> Result<Boxed<Script>, Failure>
    ensures { IsScriptAnswer segment.now result }
{
    match segment {
        Segment::Bytes(text) => parsed(alloc, text.items()),
        Segment::TooLong => Err(Failure::Query(ParseErr::TooLong)),
    }
}

/// The query that a text is. Its tree is boxed at once, since it is large.
fn parsed(alloc: Global, text: &[u8]) -> Result<Boxed<Script>, Failure>
    ensures { IsScriptAnswer (Bytes text.now) result }
{
    match parse(alloc, text) {
        Ok(script) => Ok(boxed(alloc, script)?),
        Err(ParseErr::Memory) => Err(Failure::Memory),
        Err(error) => Err(Failure::Query(error)),
    }
}

fn boxed(alloc: Global, script: Script) -> Result<Boxed<Script>, Memory>
    ensures { IfOk result (λ boxed. boxed ≡ script) }
{
    Ok(Boxed::new(alloc, script)?)
}

/// The inputs that a file holds.
fn inputs_in(alloc: Global, segment: &Segment) -> Result<Inputs, Failure>
    ensures { IsInputsAnswer segment.now result }
{
    match segment {
        Segment::Bytes(text) => match read_inputs(alloc, text.items()) {
            Ok(inputs) => Ok(inputs),
            Err(InputErr::Memory) => Err(Failure::Memory),
            Err(error) => Err(Failure::Inputs(error)),
        },
        Segment::TooLong => Err(Failure::Inputs(InputErr::TooLong)),
    }
}
