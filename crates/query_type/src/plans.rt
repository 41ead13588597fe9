//! `plan`: a whole script.

ghost use Rattle.std.specs.Prelude.{◌≡◌, ◌++◌, IfOk, IfErr, OnOk, Ok};
ghost use Rattle.query_type.specs.Plans as spec;
ghost use Rattle.query_type.specs.Refusals.{IsRefusal};

use crate::items::column_names;
use crate::selects::read_select;
use crate::type_err::{TypeErr, err_of_fault};
use crate::unions::{join_selects, read_union};
use crate::uses::uses_of;
use event_value::{Copies, Memory, Seq, Text};
use input_types::Inputs;
use query_forms::{Cause, Fault, least, push_faults};
use query_plan::{Output, Plan};
use query_sources::{
    Draft, KnownSource, Origin, faults_of_mentions, names_of_script, references_of, streams_of,
};
use query_tree::{Def, Name, Script, Stmt, With};
use std::alloc::Global;

/// A script as far as it is read.
#[derive(Drop)]
pub struct Progress {
    /// The sources that a select may name.
    pub known: Seq<KnownSource>,
    /// The outputs.
    pub outputs: Seq<Output>,
    /// The places of the streams that the script names.
    pub used: Seq<u16>,
    /// The places of the references that it names.
    pub references: Seq<u16>,
    /// The steps and the faults.
    pub draft: Draft,
}

// How many names WITH may define.
const MAX_DEFINITIONS: usize = 16;
// How many outputs a script may have.
const MAX_OUTPUTS: usize = 8;

#[tactic(auto, unfolding(crate::specs::Plans::opened))]
fn open(alloc: Global, script: &Script, inputs: &Inputs) -> Result<Progress, Memory>
    ensures { IfOk result (λ progress. progress ≡ spec.opened script.now inputs.now) }
{
    let names = names_of_script(alloc, script)?;
    let streams = streams_of(alloc, names.items(), inputs.streams.items())?;
    let count = streams.steps.items().len();
    let references = references_of(
        alloc,
        names.items(),
        streams.known,
        inputs.references.items(),
    )?;
    Ok(Progress {
        known: references.known,
        outputs: Seq::empty(alloc),
        used: streams.used,
        references: references.used,
        draft: Draft {
            faults: Seq::empty(alloc),
            mentions: Seq::empty(alloc),
            steps: streams.steps,
            last: 0,
            count,
        },
    })
}

fn is_known(known: &[KnownSource], name: &[u8]) -> bool
    ensures { result ≡ spec.is_known known.now name.now }
{
    for source in known {
        if source.name.items() == name {
            return true;
        }
    }
    false
}

// Refuses a name that a source has.
fn note_known(name: &Name, progress: &mut Progress) -> Result<(), Memory>
    ensures { OnOk result (progress.new ≡ spec.known_noted name.now progress.old) }
{
    if is_known(progress.known.items(), name.text.items()) {
        return progress.draft.note(name.place, Cause::NameTwice);
    }
    Ok(())
}

#[tactic(auto, unfolding(crate::specs::Plans::definition_read))]
fn read_definition(alloc: Global, def: &Def, progress: &mut Progress) -> Result<(), Memory>
    ensures { OnOk result (progress.new ≡ spec.definition_read progress.old def.now) }
{
    note_known(&def.name, progress)?;
    let columns = read_union(
        alloc,
        progress.known.items(),
        &def.union,
        &mut progress.draft,
    )?;
    progress.known.push(KnownSource {
        name: def.name.text.copy()?,
        origin: Origin::Definition,
        step: progress.draft.last,
        columns,
    })
}

// The first name above the limit.
fn note_excess(more: &[Def], progress: &mut Progress) -> Result<(), Memory>
    ensures { OnOk result (progress.new ≡ spec.definitions_noted more.now progress.old) }
{
    match more.get(MAX_DEFINITIONS - 1) {
        None => Ok(()),
        Some(def) => progress.draft.note(def.name.place, Cause::TooMany),
    }
}

fn read_with(alloc: Global, with: &With, progress: &mut Progress) -> Result<(), Memory>
    ensures { OnOk result (progress.new ≡ spec.with_read with.now progress.old) }
{
    note_excess(with.more.items(), progress)?;
    read_definition(alloc, &with.first, progress)?;
    for def in with.more.items() {
        read_definition(alloc, def, progress)?;
    }
    Ok(())
}

fn is_output_byte(byte: u8) -> bool
    ensures { result ≡ spec.is_output_byte byte }
{
    (b'a' <= byte && byte <= b'z')
        || (b'A' <= byte && byte <= b'Z')
        || (b'0' <= byte && byte <= b'9')
        || byte == b'_'
        || byte == b'-'
}

fn is_output_name(name: &[u8]) -> bool
    ensures { result ≡ spec.is_output_name name.now }
{
    for byte in name {
        if !is_output_byte(*byte) {
            return false;
        }
    }
    true
}

fn is_output(outputs: &[Output], name: &[u8]) -> bool
    ensures { result ≡ spec.is_output outputs.now name.now }
{
    for output in outputs {
        if output.name.items() == name {
            return true;
        }
    }
    false
}

fn note_output_name(name: &Name, progress: &mut Progress) -> Result<(), Memory>
    ensures { OnOk result (progress.new ≡ spec.output_name_noted name.now progress.old) }
{
    if is_output_name(name.text.items()) {
        return Ok(());
    }
    progress.draft.note(name.place, Cause::Unsupported)
}

fn note_output_twice(name: &Name, progress: &mut Progress) -> Result<(), Memory>
    ensures { OnOk result (progress.new ≡ spec.output_twice_noted name.now progress.old) }
{
    if is_output(progress.outputs.items(), name.text.items()) {
        return progress.draft.note(name.place, Cause::NameTwice);
    }
    Ok(())
}

fn note_output_count(place: u32, progress: &mut Progress) -> Result<(), Memory>
    ensures { OnOk result (progress.new ≡ spec.output_count_noted place progress.old) }
{
    if progress.outputs.items().len() == MAX_OUTPUTS {
        return progress.draft.note(place, Cause::TooMany);
    }
    Ok(())
}

fn texts_of(alloc: Global, names: &[Name]) -> Result<Seq<Text>, Memory>
    ensures { IfOk result (λ texts. texts ≡ spec.texts_of names.now) }
{
    let mut texts = Seq::empty(alloc);
    for name in names {
        texts.push(name.text.copy()?)?;
    }
    Ok(texts)
}

// Reads the selects of a statement, and adds its output.
fn read_body(alloc: Global, stmt: &Stmt, progress: &mut Progress) -> Result<(), Memory>
    ensures { OnOk result (progress.new ≡ spec.body_read stmt.now progress.old) }
{
    let known = progress.known.items();
    let draft = &mut progress.draft;
    let first = read_select(
        alloc,
        known,
        stmt.place,
        false,
        &stmt.items,
        &stmt.tail,
        draft,
    )?;
    let columns = join_selects(alloc, known, first, stmt.more.items(), draft)?;
    let names = texts_of(alloc, column_names(alloc, columns.items())?.items())?;
    progress.outputs.push(Output {
        name: stmt.output.text.copy()?,
        step: progress.draft.last,
        names,
    })
}

#[tactic(auto, unfolding(crate::specs::Plans::statement_read))]
fn read_statement(alloc: Global, stmt: &Stmt, progress: &mut Progress) -> Result<(), Memory>
    ensures { OnOk result (progress.new ≡ spec.statement_read progress.old stmt.now) }
{
    note_output_count(stmt.place, progress)?;
    note_output_name(&stmt.output, progress)?;
    note_output_twice(&stmt.output, progress)?;
    read_body(alloc, stmt, progress)
}

#[tactic(auto, unfolding(crate::specs::Plans::script_read))]
fn read_script(alloc: Global, script: &Script, inputs: &Inputs) -> Result<Progress, Memory>
    ensures { IfOk result (λ progress. progress ≡ spec.script_read script.now inputs.now) }
{
    let mut progress = open(alloc, script, inputs)?;
    if let Some(with) = &script.with {
        read_with(alloc, with, &mut progress)?;
    }
    read_statement(alloc, &script.first, &mut progress)?;
    for more in script.more.items() {
        read_statement(alloc, &more.stmt, &mut progress)?;
    }
    Ok(progress)
}

fn faults_of(alloc: Global, draft: &Draft) -> Result<Seq<Fault>, Memory>
    ensures { IfOk result (λ faults. faults ≡ spec.faults_of draft.now) }
{
    let mut faults = draft.faults.copy()?;
    let more = faults_of_mentions(alloc, draft.mentions.items())?;
    push_faults(&mut faults, more.items())?;
    Ok(faults)
}

fn finished(alloc: Global, progress: Progress) -> Result<Plan, Memory>
    ensures { IfOk result (λ plan. plan ≡ spec.finished progress) }
{
    let Progress {
        known: _,
        outputs,
        used,
        references,
        draft,
    } = progress;
    let streams = uses_of(alloc, draft.mentions.items(), used.items())?;
    Ok(Plan {
        streams,
        references,
        steps: draft.steps,
        outputs,
    })
}

/// The plan of a script over the inputs of a job.
///
/// # Errors
/// The rule that the script breaks at the least place, of several there the one of the least number,
/// or `Memory` where there was none.
#[tactic(auto, unfolding(crate::specs::Plans::plan_or_fault))]
pub fn plan(alloc: Global, script: &Script, inputs: &Inputs) -> Result<Plan, TypeErr>
    ensures ok { IfOk result (λ plan. spec.plan_or_fault script.now inputs.now ≡ Ok plan) }
    ensures err { IfErr result (IsRefusal (spec.plan_or_fault script.now inputs.now)) }
{
    let progress = read_script(alloc, script, inputs)?;
    let faults = faults_of(alloc, &progress.draft)?;
    match least(faults.items()) {
        Some(fault) => Err(err_of_fault(fault)),
        None => Ok(finished(alloc, progress)?),
    }
}
