//! Names that stand twice.

ghost use Rattle.std.specs.Prelude.{◌≡◌, OnOk};
ghost use Rattle.query_sources.specs.Names as spec;

use crate::draft::Draft;
use event_value::{Copies, Memory, Seq};
use query_forms::Cause;
use query_tree::Name;
use std::alloc::Global;

/// Whether one of the names is this text.
pub fn is_named(names: &[Name], text: &[u8]) -> bool
    ensures { result ≡ spec.is_named names.now text.now }
{
    for name in names {
        if name.text.items() == text {
            return true;
        }
    }
    false
}

fn note_repeat(before: &[Name], name: &Name, draft: &mut Draft) -> Result<(), Memory>
    ensures { OnOk result (draft.new ≡ spec.noted_repeat before.now name.now draft.old) }
{
    if is_named(before, name.text.items()) {
        return draft.note(name.place, Cause::NameTwice);
    }
    Ok(())
}

/// Refuses each name that repeats an earlier one.
#[tactic(auto, unfolding(crate::specs::Names::noted_repeats))]
pub fn note_repeats(alloc: Global, names: &[Name], draft: &mut Draft) -> Result<(), Memory>
    ensures { OnOk result (draft.new ≡ spec.noted_repeats names.now draft.old) }
{
    let mut before = Seq::empty(alloc);
    for name in names {
        note_repeat(before.items(), name, draft)?;
        before.push(name.copy()?)?;
    }
    Ok(())
}
