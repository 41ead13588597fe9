//! What stands in a line of JSON: its members by a path, and their values.

ghost use Rattle.std.specs.Prelude.{◌≡◌, IfOk, option_map};
ghost use Rattle.serde_json.specs.View.{view};
ghost use Rattle.arrival_text.specs.Items.{values_of};
ghost use Rattle.arrival_text.specs.JsonItems.{json_of, member_of, at_path};
ghost use Rattle.arrival_text.specs.JsonItems.{json_value, column_value};

use crate::field_values::{number_value, text_value, truth_value};
use event_value::{Column, Kind, Memory, Rule, Seq, Text, Value};
use serde_json::Value as Json;
use std::alloc::Global;

/// A line as JSON, if it is any.
pub fn json_of(alloc: Global, line: &[u8]) -> Result<Option<Json>, Memory>
    ensures { IfOk result (λ json. option_map view json ≡ json_of line.now) }
{
    match Json::from_slice(alloc, line) {
        Ok(json) => Ok(Some(json)),
        Err(error) => {
            if error.is_memory() {
                Err(Memory)
            } else {
                Ok(None)
            }
        }
    }
}

/// The values of the columns in a record, or the rule of the first that has none.
pub fn values_of(
    alloc: Global,
    columns: &[Column],
    json: &Json,
) -> Result<Result<Seq<Value>, Rule>, Memory>
    ensures { IfOk result (λ values.
        values ≡ values_of (column_value (view json.now)) columns.now) }
{
    let mut values = Seq::from_vec(Vec::with_capacity(alloc, columns.len())?);
    for column in columns {
        match column_value(alloc, json, column)? {
            Ok(value) => values.push(value)?,
            Err(rule) => return Ok(Err(rule)),
        }
    }
    Ok(Ok(values))
}

fn column_value(alloc: Global, json: &Json, column: &Column) -> Result<Result<Value, Rule>, Memory>
    ensures { IfOk result (λ value. value ≡ column_value (view json.now) column.now) }
{
    match at_path(json, column.path.items()) {
        Some(found) => json_value(alloc, column.kind, found),
        None => Ok(Ok(Value::Null)),
    }
}

/// What a path of names leads to.
fn at_path<'a>(json: &'a Json, path: &[Text]) -> Option<&'a Json>
    ensures { option_map (λ found. view found.now) result ≡ at_path path.now (view json.now) }
{
    let mut found = json;
    for name in path {
        found = member_of(found, name.items())?;
    }
    Some(found)
}

/// The member of an object under a name.
fn member_of<'a>(json: &'a Json, name: &[u8]) -> Option<&'a Json>
    ensures { option_map (λ member. view member.now) result ≡ member_of name.now (view json.now) }
{
    match std::str::from_utf8(name) {
        Ok(name) => json.get(name),
        Err(_) => None,
    }
}

fn json_value(alloc: Global, kind: Kind, json: &Json) -> Result<Result<Value, Rule>, Memory>
    ensures { IfOk result (λ value. value ≡ json_value kind (view json.now)) }
{
    match json {
        Json::Null => Ok(Ok(Value::Null)),
        Json::Bool(truth) => Ok(truth_value(kind, *truth)),
        Json::Number(number) => match number.as_i64() {
            Some(whole) => number_value(alloc, kind, whole),
            None => Ok(Err(Rule::Number)),
        },
        Json::String(text) => text_value(alloc, kind, text.as_bytes()),
        Json::Array(_) | Json::Object(_) => Ok(Err(Rule::Field)),
    }
}
