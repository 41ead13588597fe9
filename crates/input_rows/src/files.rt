//! Items of files, by tables worked out by hand. A row about a value of JSON goes to
//! json_files.rt, one about a line to json_lines.rt, and one about CSV to csv_files.rt. An item is
//! shown as its enqueue moment in ticks and its values, or as its rule.

mod csv_files;
mod json_files;
mod json_lines;

use arrival_text::too_long_items;
use event_value::{Column, Columns, Item, Kind, Memory, Rule, Seq, Text, Value};
use std::alloc::Global;
use std::test::Fail;
use value_text::{push_number, push_value};

/// The column of a kind under a name, which stands at this path.
fn column(alloc: Global, name: &str, kind: Kind, path: &[&str]) -> Result<Column, Memory> {
    let mut names = Seq::empty(alloc);
    for part in path {
        names.push(Text::of(alloc, part.as_bytes())?)?;
    }
    Ok(Column {
        name: Text::of(alloc, name.as_bytes())?,
        kind,
        path: names,
    })
}

/// One column of a kind.
fn one_column(alloc: Global, kind: Kind, path: &[&str]) -> Result<Columns, Memory> {
    let mut columns = Seq::empty(alloc);
    columns.push(column(alloc, "v", kind, path)?)?;
    Ok(columns)
}

/// The columns `a`, a whole number, and `b`, a text.
fn two_columns(alloc: Global) -> Result<Columns, Memory> {
    let mut columns = Seq::empty(alloc);
    columns.push(column(alloc, "a", Kind::Big, &["a"])?)?;
    columns.push(column(alloc, "b", Kind::Text, &["b"])?)?;
    Ok(columns)
}

/// The word of a value's kind, with a blank.
fn kind_name(value: &Value) -> &'static str {
    match value {
        Value::Null => "",
        Value::Bit(_) => "bit ",
        Value::Big(_) => "bigint ",
        Value::Fixed(_) => "fixed ",
        Value::Text(_) => "nvarchar ",
        Value::Moment(_) => "datetime ",
    }
}

/// The name of a rule.
fn rule_name(rule: Rule) -> &'static str {
    match rule {
        Rule::Syntax => "Syntax",
        Rule::Enqueued => "Enqueued",
        Rule::Number => "Number",
        Rule::Field => "Field",
        Rule::Long => "Long",
        Rule::SegmentTooLong => "SegmentTooLong",
        _ => "another rule",
    }
}

/// Values, each with its kind.
fn push_values(text: &mut Text, values: &[Value]) -> Result<(), Memory> {
    for value in values {
        text.push(b' ')?;
        text.extend(kind_name(value).as_bytes())?;
        push_value(text, value)?;
    }
    Ok(())
}

/// An item as it is shown.
fn push_item(text: &mut Text, item: &Item) -> Result<(), Memory> {
    match item {
        Item::Good { enqueued, values } => {
            push_number(text, enqueued.count())?;
            push_values(text, values.items())
        }
        Item::Bad(rule) => text.extend(rule_name(*rule).as_bytes()),
    }
}

/// Whether the items are these, each shown and ended by a bar.
fn shows(alloc: Global, items: &[Item], wanted: &str) -> Result<bool, Memory> {
    let mut text = Text::empty(alloc);
    for item in items {
        push_item(&mut text, item)?;
        text.push(b'|')?;
    }
    Ok(text.items() == wanted.as_bytes())
}

/// A text of this front, so many of one byte, and this back.
fn filled(alloc: Global, front: &str, byte: u8, count: usize, back: &str) -> Result<Text, Memory> {
    let mut text = Text::of(alloc, front.as_bytes())?;
    for _ in 0..count {
        text.push(byte)?;
    }
    text.extend(back.as_bytes())?;
    Ok(text)
}

#[test]
fn a_long_file_has_one_item(rt: HostRuntime) -> Result<(), Fail> {
    let alloc = rt.alloc();
    assert!(rt; shows(alloc, too_long_items(alloc)?.items(), "SegmentTooLong|")?);
    Ok(())
}
