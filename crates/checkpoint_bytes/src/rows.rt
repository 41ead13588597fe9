//! Rows and outputs as fields.

ghost use Rattle.std.specs.Prelude.{refl};
ghost use Rattle.checkpoint_bytes.specs.BatchLaws.{IsForm-output_form, IsForm-row_form};
ghost use Rattle.checkpoint_bytes.specs.Batches.{output_form, row_form};

use checkpoint_form::Row;
use event_value::{Memory, Seq, Text};
use field_forms::{Field, FormOf, Unread, Unreadable, append_list, take_list};
use std::alloc::Global;
use tick_time::Moment;

/// The form of a row.
pub struct RowForm;

impl FormOf<Row> for RowForm {
    ghost form = { row_form };

    fn append(row: &Row, out: &mut Seq<u8>) -> Result<(), Memory> {
        row.time.append(out)?;
        row.text.append(out)
    }

    fn take(alloc: Global, unread: &mut Unread<'_>) -> Result<Row, Unreadable> {
        let time = Moment::take(alloc, unread)?;
        let text = Text::take(alloc, unread)?;
        Ok(Row { time, text })
    }

    ghost sound = { IsForm-row_form };

    ghost needs_bytes = { refl };
}

/// The form of the rows of an output.
pub struct OutputForm;

impl FormOf<Seq<Row>> for OutputForm {
    ghost form = { output_form };

    fn append(rows: &Seq<Row>, out: &mut Seq<u8>) -> Result<(), Memory> {
        append_list::<Row, RowForm>(rows, out)
    }

    fn take(alloc: Global, unread: &mut Unread<'_>) -> Result<Seq<Row>, Unreadable> {
        take_list::<Row, RowForm>(alloc, unread)
    }

    ghost sound = { IsForm-output_form };

    ghost needs_bytes = { refl };
}
