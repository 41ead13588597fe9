//! `print`, the canonical text of a query.

ghost use Rattle.std.specs.Prelude.{◌≡◌, IfOk};
ghost use Rattle.query_print.specs.Scripts.{canonical_text};

use crate::part::Part;
use crate::writer::Writer;
use event_value::{Memory, Text};
use query_tree::Script;
use std::alloc::Global;

/// The canonical text of a query.
///
/// # Errors
/// `Memory` where there was none for the text.
#[tactic(auto, unfolding(crate::specs::Scripts::canonical_text, crate::specs::Words::text_of))]
pub fn print(alloc: Global, script: &Script) -> Result<Text, Memory>
    ensures text { IfOk result (λ text. text ≡ canonical_text script.now) }
{
    let mut out = Writer::new(alloc);
    script.write(&mut out)?;
    Ok(out.into_text())
}
