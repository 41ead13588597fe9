//! How single words are written.

ghost use Rattle.std.specs.Prelude.{◌≡◌, ◌++◌, OnOk};
ghost use Rattle.std.specs.List.{flat_map, list_all};
ghost use Rattle.query_tokens.specs.Bytes.{is_word_byte};
ghost use Rattle.query_print.specs.Words.{is_word, is_plain, is_bare, name_text, number_text, zero_behind_point, doubled, quoted, space_unless};

use crate::behind::{Behind, is_behind_stamp_point};
use event_value::{Memory, Text, Value};
use query_tokens::{Symbol, TokenKind, is_same_word, is_word_byte, is_word_start, symbol_at};
use query_tree::Number;
use value_text::push_value;

/// How many millionths make one.
const MILLION: i64 = 1_000_000;

/// Adds a space, unless none stands there.
pub fn push_space_unless(out: &mut Text, tight: bool) -> Result<(), Memory>
    ensures { OnOk result (out.new ≡ out.old ++ space_unless tight) }
{
    if tight { Ok(()) } else { out.push(b' ') }
}

/// Adds a name, in brackets where it needs them.
#[tactic(auto, unfolding(crate::specs::Words::name_text))]
pub fn push_name(out: &mut Text, last: Behind, name: &[u8]) -> Result<(), Memory>
    ensures { OnOk result (out.new ≡ out.old ++ name_text last name.now) }
{
    if is_bare(last, name) {
        return out.extend(name);
    }
    out.push(b'[')?;
    out.extend(name)?;
    out.push(b']')
}

/// Whether a name needs no brackets.
fn is_bare(last: Behind, name: &[u8]) -> bool
    ensures { result ≡ is_bare last name.now }
{
    is_plain(name) || (is_behind_stamp_point(last) && is_same_word(name, b"Timestamp"))
}

/// Whether a name is a word and no keyword.
#[tactic(auto, unfolding(crate::specs::Words::is_plain))]
fn is_plain(name: &[u8]) -> bool
    ensures { result ≡ is_plain name.now }
{
    is_word(name) && symbol_at(TokenKind::Word, name).is(Symbol::Word)
}

fn is_word(name: &[u8]) -> bool
    ensures { result ≡ is_word name.now }
{
    match name {
        [] => false,
        [first, rest @ ..] => is_word_start(*first) && are_word_bytes(rest),
    }
}

fn are_word_bytes(bytes: &[u8]) -> bool
    ensures { result ≡ list_all is_word_byte bytes.now }
{
    bytes.iter().all(|byte| is_word_byte(*byte))
}

/// Adds a number.
#[tactic(auto, unfolding(crate::specs::Words::number_text))]
pub fn push_number(out: &mut Text, number: Number) -> Result<(), Memory>
    ensures { OnOk result (out.new ≡ out.old ++ number_text number) }
{
    match number {
        Number::Whole(value) => push_value(out, &Value::Big(value)),
        Number::Decimal(millionths) => {
            push_value(out, &Value::Fixed(millionths))?;
            push_zero_behind_point(out, millionths)
        }
    }
}

fn push_zero_behind_point(out: &mut Text, millionths: i64) -> Result<(), Memory>
    ensures { OnOk result (out.new ≡ out.old ++ zero_behind_point millionths) }
{
    if millionths % MILLION == 0 {
        out.extend(b".0")
    } else {
        Ok(())
    }
}

/// Adds a text in quotes.
pub fn push_quoted(out: &mut Text, text: &[u8]) -> Result<(), Memory>
    ensures { OnOk result (out.new ≡ out.old ++ quoted text.now) }
{
    out.push(b'\'')?;
    push_doubled(out, text)?;
    out.push(b'\'')
}

/// Adds a text in which each quote stands twice.
fn push_doubled(out: &mut Text, text: &[u8]) -> Result<(), Memory>
    ensures { OnOk result (out.new ≡ out.old ++ flat_map doubled text.now) }
{
    for byte in text {
        if *byte == b'\'' {
            out.push(b'\'')?;
        }
        out.push(*byte)?;
    }
    Ok(())
}
