//! Files that are longer than a segment may be.

ghost use Rattle.std.specs.Prelude.{◌≡◌, IfOk};
ghost use Rattle.arrival_text.specs.Segments.{too_long_items};

use event_value::{Item, Memory, Rule, Seq};
use std::alloc::Global;

/// The greatest length of a segment in bytes.
pub const MAX_SEGMENT: u32 = 4_194_304;

/// The items of a file that is longer: one, which says so.
///
/// # Errors
/// `Memory` where there was none for it.
pub fn too_long_items(alloc: Global) -> Result<Seq<Item>, Memory>
    ensures { IfOk result (λ items. items ≡ too_long_items) }
{
    let mut items = Seq::empty(alloc);
    items.push(Item::Bad(Rule::SegmentTooLong))?;
    Ok(items)
}
