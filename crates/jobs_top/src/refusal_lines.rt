//! The lines of refusals, with the place, the key or the name that they have.

ghost use Rattle.std.specs.Prelude.{◌≡◌, ◌++◌, OnOk};
ghost use Rattle.jobs_top.specs.RefusalLines.{placed};
ghost use Rattle.jobs_top.specs.RefusalLines.{query_line, inputs_line, plan_line};

use crate::labels::push_labelled;
use event_value::{Memory, Text};
use input_book::InputErr;
use query_parse::ParseErr;
use query_type::TypeErr;

/// Adds the line for the refusal of a query as a text.
pub fn push_query_line(line: &mut Text, error: &ParseErr) -> Result<(), Memory>
    ensures { OnOk result (line.new ≡ line.old ++ query_line error.now) }
{
    match error {
        ParseErr::Utf8(place) => push_placed(line, b"error 3 Query.Utf8", *place),
        ParseErr::Token(place) => push_placed(line, b"error 3 Query.Token", *place),
        ParseErr::Expected(place) => push_placed(line, b"error 3 Query.Expected", *place),
        ParseErr::Deep(place) => push_placed(line, b"error 3 Query.Deep", *place),
        ParseErr::TooLong => line.extend(b"error 3 Query.TooLong\n"),
        ParseErr::Memory => line.extend(b"error 3 Query.Memory\n"),
    }
}

/// Adds the line for the refusal of an inputs document.
pub fn push_inputs_line(line: &mut Text, error: &InputErr) -> Result<(), Memory>
    ensures { OnOk result (line.new ≡ line.old ++ inputs_line error.now) }
{
    match error {
        InputErr::Toml => line.extend(b"error 3 Inputs.Toml\n"),
        InputErr::Missing(key) => push_labelled(line, b"error 3 Inputs.Missing", key.items()),
        InputErr::Unknown(key) => push_labelled(line, b"error 3 Inputs.Unknown", key.items()),
        InputErr::Shape(key) => push_labelled(line, b"error 3 Inputs.Shape", key.items()),
        InputErr::Range(key) => push_labelled(line, b"error 3 Inputs.Range", key.items()),
        InputErr::Twice(name) => push_labelled(line, b"error 3 Inputs.Twice", name.items()),
        InputErr::ThroughOrder(key) => push_labelled(
            line,
            b"error 3 Inputs.ThroughOrder",
            key.items(),
        ),
        InputErr::EffectiveOrder(key) => push_labelled(
            line,
            b"error 3 Inputs.EffectiveOrder",
            key.items(),
        ),
        InputErr::TooMany(key) => push_labelled(line, b"error 3 Inputs.TooMany", key.items()),
        InputErr::Memory => line.extend(b"error 3 Inputs.Memory\n"),
        InputErr::TooLong => line.extend(b"error 3 Inputs.TooLong\n"),
    }
}

/// Adds the line for the refusal of a query over the inputs.
pub fn push_plan_line(line: &mut Text, error: &TypeErr) -> Result<(), Memory>
    ensures { OnOk result (line.new ≡ line.old ++ plan_line error.now) }
{
    match error {
        TypeErr::UnknownSource(place) => push_placed(line, b"error 3 Query.UnknownSource", *place),
        TypeErr::UnknownColumn(place) => push_placed(line, b"error 3 Query.UnknownColumn", *place),
        TypeErr::Ambiguous(place) => push_placed(line, b"error 3 Query.Ambiguous", *place),
        TypeErr::Kind(place) => push_placed(line, b"error 3 Query.Kind", *place),
        TypeErr::Aggregate(place) => push_placed(line, b"error 3 Query.Aggregate", *place),
        TypeErr::NotGrouped(place) => push_placed(line, b"error 3 Query.NotGrouped", *place),
        TypeErr::Window(place) => push_placed(line, b"error 3 Query.Window", *place),
        TypeErr::Bound(place) => push_placed(line, b"error 3 Query.Bound", *place),
        TypeErr::StampTwice(place) => push_placed(line, b"error 3 Query.StampTwice", *place),
        TypeErr::NameTwice(place) => push_placed(line, b"error 3 Query.NameTwice", *place),
        TypeErr::TooMany(place) => push_placed(line, b"error 3 Query.TooMany", *place),
        TypeErr::Unsupported(place) => push_placed(line, b"error 3 Query.Unsupported", *place),
        TypeErr::Memory => line.extend(b"error 3 Query.Memory\n"),
    }
}

fn push_placed(line: &mut Text, name: &[u8], place: u32) -> Result<(), Memory>
    ensures { OnOk result (line.new ≡ line.old ++ placed name.now place) }
{
    let digits = (place as u64).to_string(line.allocator())?;
    push_labelled(line, name, digits.as_bytes())
}
