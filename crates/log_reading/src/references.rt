//! `read_references`, which reads the snapshots of the references that a plan names.

ghost use Rattle.std.specs.Prelude.{◌≡◌, ◌≤◌, [], ◌∷◌, IfOk, IfSome, length, map, option_map, slice_get};
ghost use Rattle.input_book.specs.Laws.{IsReference, IsWellFormed};
ghost use Rattle.log_reading.specs.Asking.{AsksUntil, IsCaused};
ghost use Rattle.log_reading.specs.References.{effective_moments, files_of_snapshots, no_snapshots};
ghost use Rattle.log_reading.specs.References.{reference_files, references_files, references_in};
ghost use Rattle.log_reading.specs.References.{rows_of_file, snapshots_found, snapshots_in};

use crate::reference_rows::rows_of_segment;
use crate::{NamedReadErr, read_named};
use arrival_text::MAX_SEGMENT;
use event_value::{Memory, Seq, Stamped};
use input_types::{Inputs, Reference, SnapshotName};
use outside::Files;
use std::alloc::Global;
use stream_joins::Versions;
use tick_time::Moment;

/// Reads the snapshots of the references of these numbers in the document.
///
/// # Errors
/// `Fault` with the name of a file only where the files' count of faults has risen in this call;
/// `Memory`.
pub fn read_references<F: Files>(
    alloc: Global,
    files: &mut F,
    inputs: &Inputs,
    numbers: &[u16],
) -> Result<Seq<Versions>, NamedReadErr>
    requires { IsWellFormed inputs.now }
    ensures versions { IfOk result (λ versions. IfSome (F.known files.old) (λ known.
        versions ≡ references_in known inputs.now.references numbers.now)) }
    ensures asked { AsksUntil (references_files inputs.now.references numbers.now) result
        (F.known files.old) (F.known files.new) }
    ensures never_falls { F.faults files.old ≤ F.faults files.new }
    ensures cause { IsCaused result (F.faults files.old) (F.faults files.new) }
{
    let mut versions = Seq::empty(alloc);
    for number in numbers {
        let next = read_numbered(alloc, files, inputs, *number)?;
        versions.push(next)?;
    }
    Ok(versions)
}

// The snapshots of the reference of this number; none where the document has no such reference.
fn read_numbered<F: Files>(
    alloc: Global,
    files: &mut F,
    inputs: &Inputs,
    number: u16,
) -> Result<Versions, NamedReadErr>
    requires { IsWellFormed inputs.now }
    ensures versions { IfOk result (λ versions. IfSome (F.known files.old) (λ known.
        versions ≡ snapshots_found known (slice_get inputs.now.references number))) }
    ensures asked { AsksUntil (reference_files (slice_get inputs.now.references number)) result
        (F.known files.old) (F.known files.new) }
    ensures never_falls { F.faults files.old ≤ F.faults files.new }
    ensures cause { IsCaused result (F.faults files.old) (F.faults files.new) }
{
    match reference_at(inputs, number) {
        None => Ok(no_snapshots(alloc)?),
        Some(reference) => read_reference(alloc, files, reference),
    }
}

// The reference at a place of the document, if there is one.
fn reference_at(inputs: &Inputs, place: u16) -> Option<&Reference>
    ensures { option_map (λ reference. reference.now) result
        ≡ slice_get inputs.now.references place }
{
    inputs.references.items().get(place as usize)
}

fn no_snapshots(alloc: Global) -> Result<Versions, Memory>
    ensures { IfOk result (λ versions. versions ≡ no_snapshots) }
{
    Versions::of(&[], Seq::empty(alloc))
}

// The snapshots of a reference.
fn read_reference<F: Files>(
    alloc: Global,
    files: &mut F,
    reference: &Reference,
) -> Result<Versions, NamedReadErr>
    requires { IsReference reference.now }
    ensures versions { IfOk result (λ versions. IfSome (F.known files.old) (λ known.
        versions ≡ snapshots_in known reference.now)) }
    ensures asked { AsksUntil (files_of_snapshots reference.now.snapshots) result
        (F.known files.old) (F.known files.new) }
    ensures never_falls { F.faults files.old ≤ F.faults files.new }
    ensures cause { IsCaused result (F.faults files.old) (F.faults files.new) }
{
    let snapshots = reference.snapshots.items();
    let rows = read_snapshots(alloc, files, reference, snapshots)?;
    let effective = effective_moments(alloc, snapshots)?;
    Ok(Versions::of(effective.items(), rows)?)
}

fn effective_moments(alloc: Global, snapshots: &[SnapshotName]) -> Result<Seq<Moment>, Memory>
    ensures { IfOk result (λ moments. moments ≡ effective_moments snapshots.now) }
{
    let mut moments = Seq::empty(alloc);
    for snapshot in snapshots {
        moments.push(snapshot.effective)?;
    }
    Ok(moments)
}

// The rows of each of these snapshots of a reference.
fn read_snapshots<F: Files>(
    alloc: Global,
    files: &mut F,
    reference: &Reference,
    snapshots: &[SnapshotName],
) -> Result<Seq<Seq<Stamped>>, NamedReadErr>
    ensures rows { IfOk result (λ rows. IfSome (F.known files.old) (λ known.
        rows ≡ map (λ s. rows_of_file known reference.now s.file) snapshots.now)) }
    ensures count { IfOk result (λ rows. length rows ≡ length snapshots.now) }
    ensures asked { AsksUntil (files_of_snapshots snapshots.now) result
        (F.known files.old) (F.known files.new) }
    ensures never_falls { F.faults files.old ≤ F.faults files.new }
    ensures cause { IsCaused result (F.faults files.old) (F.faults files.new) }
{
    let mut rows = Seq::empty(alloc);
    for snapshot in snapshots {
        let more = read_rows(alloc, files, reference, snapshot)?;
        rows.push(more)?;
    }
    Ok(rows)
}

// The rows of a snapshot of a reference.
fn read_rows<F: Files>(
    alloc: Global,
    files: &mut F,
    reference: &Reference,
    snapshot: &SnapshotName,
) -> Result<Seq<Stamped>, NamedReadErr>
    ensures rows { IfOk result (λ rows. IfSome (F.known files.old) (λ known.
        rows ≡ rows_of_file known reference.now snapshot.now.file)) }
    ensures asked { AsksUntil (snapshot.now.file ∷ []) result (F.known files.old) (F.known files.new) }
    ensures never_falls { F.faults files.old ≤ F.faults files.new }
    ensures cause { IsCaused result (F.faults files.old) (F.faults files.new) }
{
    let segment = read_named(alloc, files, snapshot.file.items(), MAX_SEGMENT)?;
    let (format, columns) = (reference.format, &reference.columns);
    Ok(rows_of_segment(alloc, format, columns, &segment)?)
}
