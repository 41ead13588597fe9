//! `print_preview`, the text of a preview.

ghost use Rattle.std.specs.Prelude.{◌≡◌, ◌++◌, IfOk, OnOk};
ghost use Rattle.std.specs.List.{flat_map, zip};
ghost use Rattle.preview_text.specs.PreviewText.{preview_text, outputs_text, output_text, row_line};
ghost use Rattle.preview_text.specs.PreviewText.{drops_text, dropped_line, stream_name};

use checkpoint_form::Row;
use event_value::{Dropped, Memory, Seq, Text};
use input_types::Stream;
use query_plan::Output;
use std::alloc::Global;
use value_text::push_dropped;

/// The text of a preview: the outputs, each with its rows, and the dropped records of the streams.
///
/// # Errors
/// `Memory` where there was none for the text.
pub fn print_preview(
    alloc: Global,
    outputs: &[Output],
    rows: &[Seq<Row>],
    streams: &[Stream],
    drops: &[Dropped],
) -> Result<Text, Memory>
    ensures { IfOk result (λ text. text ≡ preview_text outputs.now rows.now streams.now drops.now) }
{
    let mut text = Text::empty(alloc);
    push_outputs(&mut text, outputs, rows)?;
    text.extend(b"drops\n")?;
    push_drops(&mut text, streams, drops)?;
    Ok(text)
}

fn push_outputs(out: &mut Text, outputs: &[Output], rows: &[Seq<Row>]) -> Result<(), Memory>
    ensures { OnOk result (out.new ≡ out.old ++ outputs_text outputs.now rows.now) }
{
    for (output, rows) in outputs.iter().zip(rows) {
        push_output(out, output, rows.items())?;
    }
    Ok(())
}

fn push_output(out: &mut Text, output: &Output, rows: &[Row]) -> Result<(), Memory>
    ensures { OnOk result (out.new ≡ out.old ++ output_text output.now rows.now) }
{
    out.extend(b"output ")?;
    out.extend(output.name.items())?;
    out.push(b'\n')?;
    push_rows(out, rows)
}

fn push_rows(out: &mut Text, rows: &[Row]) -> Result<(), Memory>
    ensures { OnOk result (out.new ≡ out.old ++ flat_map row_line rows.now) }
{
    for row in rows {
        out.extend(row.text.items())?;
        out.push(b'\n')?;
    }
    Ok(())
}

fn push_drops(out: &mut Text, streams: &[Stream], drops: &[Dropped]) -> Result<(), Memory>
    ensures { OnOk result (out.new ≡ out.old ++ drops_text streams.now drops.now) }
{
    for dropped in drops {
        push_dropped(out, stream_name(streams, dropped.stream), dropped)?;
        out.push(b'\n')?;
    }
    Ok(())
}

// The name of a stream, empty where there is no such stream.
fn stream_name(streams: &[Stream], number: u16) -> &[u8]
    ensures { result.now ≡ stream_name streams.now number }
{
    match streams.get(number as usize) {
        Some(stream) => stream.name.items(),
        None => &[],
    }
}
