//! The printed form of rows and dropped records.

ghost use Rattle.std.specs.Prelude.{◌≡◌, ◌++◌, IfOk, OnOk, length};
ghost use Rattle.std.specs.Fmt.{decimal};
ghost use Rattle.value_text.specs.Printed.{member, further_members, row_text};
ghost use Rattle.value_text.specs.Printed.{numbered, place_text, rule_name, rule_text, dropped_text};

use crate::print_value::{push_text, push_value};
use event_value::{Dropped, Rule, Text, Value};
use std::alloc::Global;
use tick_time::Memory;

/// The printed form of a row: one JSON object without spaces.
///
/// # Errors
/// `Memory` where there was none for the text.
pub fn print_row(alloc: Global, names: &[Text], values: &[Value]) -> Result<Text, Memory>
    requires { length names.now ≡ length values.now }
    ensures { IfOk result (λ text. text ≡ row_text names.now values.now) }
{
    let mut text = Text::empty(alloc);
    push_row(&mut text, names, values)?;
    Ok(text)
}

/// Adds the printed form of a row at the end.
///
/// # Errors
/// `Memory` where there was none; a part of the row may then stand at the end.
pub fn push_row(out: &mut Text, names: &[Text], values: &[Value]) -> Result<(), Memory>
    ensures { OnOk result (out.new ≡ out.old ++ row_text names.now values.now) }
{
    let (Some((name, names)), Some((value, values))) = (names.split_first(), values.split_first())
    else {
        return out.extend(b"{}");
    };
    out.push(b'{')?;
    push_member(out, name, value)?;
    push_further_members(out, names, values)?;
    out.push(b'}')
}

fn push_further_members(out: &mut Text, names: &[Text], values: &[Value]) -> Result<(), Memory>
    ensures { OnOk result (out.new ≡ out.old ++ further_members names.now values.now) }
{
    for (name, value) in names.iter().zip(values) {
        out.push(b',')?;
        push_member(out, name, value)?;
    }
    Ok(())
}

fn push_member(out: &mut Text, name: &Text, value: &Value) -> Result<(), Memory>
    ensures { OnOk result (out.new ≡ out.old ++ member name.now value.now) }
{
    push_text(out, name.items())?;
    out.push(b':')?;
    push_value(out, value)
}

/// Adds the printed form of a dropped record at the end; `input` is the name of its stream.
///
/// # Errors
/// `Memory` where there was none; a part of the form may then stand at the end.
pub fn push_dropped(out: &mut Text, input: &[u8], dropped: &Dropped) -> Result<(), Memory>
    ensures { OnOk result (out.new ≡ out.old ++ dropped_text input.now dropped.now) }
{
    out.extend(b"{\"input\":")?;
    push_text(out, input)?;
    push_place(out, dropped)?;
    push_rule(out, dropped.rule)
}

fn push_place(out: &mut Text, dropped: &Dropped) -> Result<(), Memory>
    ensures { OnOk result (out.new ≡ out.old ++ place_text dropped.now) }
{
    push_numbered(out, b"partition", dropped.partition as u64)?;
    push_numbered(out, b"segment", dropped.segment as u64)?;
    push_numbered(out, b"index", dropped.index as u64)
}

fn push_rule(out: &mut Text, rule: Rule) -> Result<(), Memory>
    ensures { OnOk result (out.new ≡ out.old ++ rule_text rule) }
{
    out.extend(b",\"rule\":\"")?;
    out.extend(name_of(rule))?;
    out.extend(b"\"}")
}

#[tactic(auto, unfolding(crate::specs::Printed::numbered))]
fn push_numbered(out: &mut Text, word: &[u8], number: u64) -> Result<(), Memory>
    ensures { OnOk result (out.new ≡ out.old ++ numbered word.now number) }
{
    out.extend(b",\"")?;
    out.extend(word)?;
    out.extend(b"\":")?;
    push_number(out, number)
}

/// Adds the digits of a number at the end.
///
/// # Errors
/// `Memory` where there was none; the text is then as before.
pub fn push_number(out: &mut Text, number: u64) -> Result<(), Memory>
    ensures ok { OnOk result (out.new ≡ out.old ++ decimal number) }
{
    let digits = number.to_string(out.allocator())?;
    out.extend(digits.as_bytes())
}

/// The name of a rule as it is printed.
fn name_of(rule: Rule) -> &'static [u8]
    ensures { result.now ≡ rule_name rule }
{
    match rule {
        Rule::Syntax => b"Syntax",
        Rule::Enqueued => b"Enqueued",
        Rule::Number => b"Number",
        Rule::Field => b"Field",
        Rule::Long => b"Long",
        Rule::Damaged => b"Damaged",
        Rule::SegmentTooLong => b"SegmentTooLong",
        Rule::NoTime => b"NoTime",
        Rule::Early => b"Early",
        Rule::Late => b"Late",
        Rule::Disorder => b"Disorder",
    }
}
