//! The items of a file of JSON lines.

ghost use Rattle.std.specs.Prelude.{◌≡◌, ◌≤◌, IfOk, option_map, option_and_then, length};
ghost use Rattle.serde_json.specs.View.{view};
ghost use Rattle.serde_json.specs.Find.{as_str, get};
ghost use Rattle.arrival_text.specs.Items.{enqueued_name};
ghost use Rattle.arrival_text.specs.JsonItems.{json_items_of, line_item, record_item, moment_in};

use crate::field_values::{ENQUEUED, MAX_RECORD, enqueue_moment, item_of};
use crate::json_values::{json_of, values_of};
use crate::lines::{after_mark, is_line_blank, split_line};
use event_value::{Column, Columns, Item, Memory, Rule, Seq};
use serde_json::Value as Json;
use std::alloc::Global;
use tick_time::Moment;

/// The items of a file, one for each line that isn't blank. Where the source isn't stamped, no
/// enqueue moment is looked for, and it is 0.
///
/// # Errors
/// `Memory` where there was none for an item.
pub fn json_items(
    alloc: Global,
    columns: &Columns,
    stamped: bool,
    bytes: &[u8],
) -> Result<Seq<Item>, Memory>
    ensures items { IfOk result (λ items. items ≡ json_items_of columns.now stamped bytes.now) }
    ensures few { IfOk result (λ items. length items ≤ length bytes.now) }
{
    let mut items = Seq::empty(alloc);
    let mut rest = after_mark(bytes);
    while !rest.is_empty() {
        let (line, after) = split_line(rest);
        if !is_line_blank(line) {
            items.push(line_item(alloc, columns.items(), stamped, line)?)?;
        }
        rest = after;
    }
    Ok(items)
}

fn line_item(alloc: Global, columns: &[Column], stamped: bool, line: &[u8]) -> Result<Item, Memory>
    ensures { IfOk result (λ item. item ≡ line_item columns.now stamped line.now) }
{
    if line.len() > MAX_RECORD {
        return Ok(Item::Bad(Rule::Long));
    }
    let json = json_of(alloc, line)?;
    record_item(alloc, columns, stamped, json.as_ref())
}

fn record_item(
    alloc: Global,
    columns: &[Column],
    stamped: bool,
    json: Option<&Json>,
) -> Result<Item, Memory>
    ensures { IfOk result (λ item. item
        ≡ record_item columns.now stamped (option_map (λ j. view j.now) json.entry)) }
{
    let Some(json) = json else {
        return Ok(Item::Bad(Rule::Syntax));
    };
    if !json.is_object() {
        return Ok(Item::Bad(Rule::Syntax));
    }
    let Some(enqueued) = moment_in(stamped, json) else {
        return Ok(Item::Bad(Rule::Enqueued));
    };
    Ok(item_of(enqueued, values_of(alloc, columns, json)?))
}

/// The enqueue moment of a record.
fn moment_in(stamped: bool, json: &Json) -> Option<Moment>
    ensures { result ≡ moment_in stamped (view json.now) }
{
    enqueue_moment(stamped, text_in(json))
}

/// The text that names it.
fn text_in(json: &Json) -> Option<&[u8]>
    ensures { option_map (λ t. t.now) result
        ≡ option_and_then as_str (get enqueued_name (view json.now)) }
{
    Some(json.get(ENQUEUED)?.as_str()?.as_bytes())
}
