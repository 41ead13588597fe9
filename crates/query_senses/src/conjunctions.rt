//! `read_and_without`, what is left of an AND without one of its parts.

ghost use Rattle.std.specs.Prelude.{◌≡◌, ◌++◌, IfOk, OnOk};
ghost use Rattle.query_senses.specs.Conjunctions as spec;

use crate::expressions::read_not;
use event_value::{Memory, Seq};
use query_forms::Form;
use query_readings::{Reading, Scope, chain};
use query_tree::{And, Not};
use std::alloc::Global;

// Reads a part, unless it is the one that is left out.
fn push_other(
    alloc: Global,
    scope: &Scope,
    is_left_out: bool,
    part: &Not,
    parts: &mut Seq<Reading>,
) -> Result<(), Memory>
    ensures { OnOk result (parts.new ≡ parts.old ++ spec.other scope.now is_left_out part.now) }
{
    if is_left_out {
        return Ok(());
    }
    parts.push(read_not(alloc, scope, part)?)
}

fn chain_of(
    alloc: Global,
    scope: &Scope,
    place: u32,
    form: Form,
    parts: &[Reading],
) -> Result<Option<Reading>, Memory>
    ensures { IfOk result (λ reading. reading ≡ spec.chain_of scope.now place form parts.now) }
{
    match parts {
        [] => Ok(None),
        [first, more @ ..] => {
            let first = first.copy(alloc)?;
            Ok(Some(chain(alloc, scope, place, form, first, more)?))
        }
    }
}

/// What the parts of an AND are but the one at a place, counted from 0; nothing where none is left.
///
/// # Errors
/// `Memory` where there was none.
#[tactic(auto, unfolding(crate::specs::Conjunctions::reading_without))]
pub fn read_and_without(
    alloc: Global,
    scope: &Scope,
    and: &And,
    without: usize,
) -> Result<Option<Reading>, Memory>
    ensures { IfOk result (λ reading. reading ≡ spec.reading_without scope.now and.now without) }
{
    let mut parts = Seq::empty(alloc);
    push_other(alloc, scope, without == 0, &and.first, &mut parts)?;
    for (number, part) in and.more.as_slice().iter().enumerate() {
        push_other(alloc, scope, number + 1 == without, part, &mut parts)?;
    }
    chain_of(alloc, scope, and.place, Form::And, parts.items())
}
