//! Operations on texts, by their characters.

ghost use Rattle.std.specs.Prelude.{◌≡◌, ◌++◌, IfOk, OnOk, MatchOption, map, take, drop, length, true, false};
ghost use Rattle.std.specs.List.{flat_map, list_all};
ghost use Rattle.std.specs.Char.{to_ascii_lowercase, to_ascii_uppercase};
ghost use Rattle.std.specs.Str.{chars, is_utf8, encode_utf8_all};
ghost use Rattle.expr_eval.specs.Texts as spec;

use event_value::{Memory, Text, Value};
use std::alloc::Global;
use value_text::whole_value;

// The greatest length of a result, in bytes.
const MAX_TEXT: usize = 65_536;

/// The text that bytes are; `None` where they aren't UTF-8.
pub fn as_text(bytes: &[u8]) -> Option<&str>
    ensures { MatchOption result (is_utf8 bytes.now ≡ false)
        (λ text. (text.now ≡ bytes.now) × (is_utf8 bytes.now ≡ true)) }
{
    match str::from_utf8(bytes) {
        Ok(text) => Some(text),
        Err(_) => None,
    }
}

/// Whether bytes are UTF-8.
pub fn is_utf8(bytes: &[u8]) -> bool
    ensures { result ≡ is_utf8 bytes.now }
{
    match as_text(bytes) {
        Some(_) => true,
        None => false,
    }
}

// A result; Null where it is too long.
fn text_value(text: Text) -> Value
    ensures { result ≡ spec.text_value text }
{
    if text.items().len() <= MAX_TEXT {
        Value::Text(text)
    } else {
        Value::Null
    }
}

fn count_characters(text: &str) -> usize
    ensures { result ≡ length (chars text.now) }
{
    text.chars().count()
}

/// The number of a text's characters.
#[tactic(auto, unfolding(crate::specs::Texts::character_count))]
pub fn character_count(value: &Value) -> Value
    ensures { result ≡ spec.character_count value.now }
{
    match value {
        Value::Text(text) => match as_text(text.items()) {
            Some(text) => whole_value(count_characters(text) as i128),
            None => Value::Null,
        },
        _ => Value::Null,
    }
}

fn in_lower_case(alloc: Global, bytes: &[u8]) -> Result<Text, Memory>
    ensures { IfOk result (λ text. text ≡ map to_ascii_lowercase bytes.now) }
{
    let mut text = Text::empty(alloc);
    for byte in bytes {
        text.push(byte.to_ascii_lowercase())?;
    }
    Ok(text)
}

fn in_upper_case(alloc: Global, bytes: &[u8]) -> Result<Text, Memory>
    ensures { IfOk result (λ text. text ≡ map to_ascii_uppercase bytes.now) }
{
    let mut text = Text::empty(alloc);
    for byte in bytes {
        text.push(byte.to_ascii_uppercase())?;
    }
    Ok(text)
}

/// A text with its ASCII letters in lower case.
#[tactic(auto, unfolding(crate::specs::Texts::lower))]
pub fn lower(alloc: Global, value: &Value) -> Result<Value, Memory>
    ensures { IfOk result (λ found. found ≡ spec.lower value.now) }
{
    match value {
        Value::Text(text) => {
            if is_utf8(text.items()) {
                Ok(text_value(in_lower_case(alloc, text.items())?))
            } else {
                Ok(Value::Null)
            }
        }
        _ => Ok(Value::Null),
    }
}

/// A text with its ASCII letters in upper case.
#[tactic(auto, unfolding(crate::specs::Texts::upper))]
pub fn upper(alloc: Global, value: &Value) -> Result<Value, Memory>
    ensures { IfOk result (λ found. found ≡ spec.upper value.now) }
{
    match value {
        Value::Text(text) => {
            if is_utf8(text.items()) {
                Ok(text_value(in_upper_case(alloc, text.items())?))
            } else {
                Ok(Value::Null)
            }
        }
        _ => Ok(Value::Null),
    }
}

/// The characters of a text.
pub fn characters(alloc: Global, text: &str) -> Result<Vec<char>, Memory>
    ensures { IfOk result (λ found. found.items ≡ chars text.now) }
{
    Ok(text.chars().collect(alloc)?)
}

// The text of characters.
fn text_of(alloc: Global, characters: &[char]) -> Result<Text, Memory>
    ensures { IfOk result (λ text. text ≡ encode_utf8_all characters.now) }
{
    let mut text = String::new(alloc);
    for character in characters {
        text.push(*character)?;
    }
    Ok(Text::from_vec(text.into_bytes()))
}

// The characters before an end.
fn characters_before(end: i128, characters: &[char]) -> &[char]
    ensures { result.now ≡ take (spec.positive_part end) characters.now }
{
    if end <= 0 {
        characters.split_at(0).0
    } else if end < characters.len() as i128 {
        characters.split_at(end as usize).0
    } else {
        characters
    }
}

// The characters from a start on.
fn characters_from(start: i128, characters: &[char]) -> &[char]
    ensures { result.now ≡ drop (spec.positive_part start) characters.now }
{
    if start <= 0 {
        characters
    } else if start < characters.len() as i128 {
        characters.split_at(start as usize).1
    } else {
        characters.split_at(characters.len()).1
    }
}

fn characters_at(from: i64, count: i64, characters: &[char]) -> &[char]
    ensures { result.now ≡ spec.characters_at from count characters.now }
{
    let start = from as i128 - 1;
    characters_from(start, characters_before(start + count as i128, characters))
}

fn part_of_text(alloc: Global, text: &[u8], from: i64, count: i64) -> Result<Value, Memory>
    ensures { IfOk result (λ found. found ≡ spec.part_of_text text.now from count) }
{
    if count < 0 {
        return Ok(Value::Null);
    }
    match as_text(text) {
        Some(text) => {
            let all = characters(alloc, text)?;
            let found = text_of(alloc, characters_at(from, count, all.as_slice()))?;
            Ok(text_value(found))
        }
        None => Ok(Value::Null),
    }
}

/// So many characters of a text from a place on; Null for a count below 0.
#[tactic(auto, unfolding(crate::specs::Texts::substring))]
pub fn substring(alloc: Global, text: &Value, from: &Value, count: &Value) -> Result<Value, Memory>
    ensures { IfOk result (λ found. found ≡ spec.substring text.now from.now count.now) }
{
    match (text, from, count) {
        (Value::Text(text), Value::Big(from), Value::Big(count)) => {
            part_of_text(alloc, text.items(), *from, *count)
        }
        _ => Ok(Value::Null),
    }
}

fn is_joinable(value: &Value) -> bool
    ensures { result ≡ spec.is_joinable value.now }
{
    match value {
        Value::Null => true,
        Value::Text(text) => is_utf8(text.items()),
        _ => false,
    }
}

fn are_joinable(values: &[Value]) -> bool
    ensures { result ≡ list_all spec.is_joinable values.now }
{
    values.iter().all(is_joinable)
}

fn push_text(out: &mut Text, value: &Value) -> Result<(), Memory>
    ensures { OnOk result (out.new ≡ out.old ++ spec.bytes_of value.now) }
{
    match value {
        Value::Text(text) => out.extend(text.items()),
        _ => Ok(()),
    }
}

fn texts_joined(alloc: Global, values: &[Value]) -> Result<Text, Memory>
    ensures { IfOk result (λ text. text ≡ flat_map spec.bytes_of values.now) }
{
    let mut text = Text::empty(alloc);
    for value in values {
        push_text(&mut text, value)?;
    }
    Ok(text)
}

/// Texts one behind the other, without those that are Null.
#[tactic(auto, unfolding(crate::specs::Texts::joined))]
pub fn joined(alloc: Global, values: &[Value]) -> Result<Value, Memory>
    ensures { IfOk result (λ found. found ≡ spec.joined values.now) }
{
    if values.len() >= 1 && are_joinable(values) {
        Ok(text_value(texts_joined(alloc, values)?))
    } else {
        Ok(Value::Null)
    }
}
