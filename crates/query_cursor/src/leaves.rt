//! What names, numbers and texts stand for.

ghost use Rattle.std.specs.Prelude.{◌≡◌, ◌≤◌, ◌-◌, ◌==◌, IfOk, IfSome, length, slice_range};
ghost use Rattle.query_tokens.specs.Bytes.{max_number};
ghost use Rattle.query_grammar.specs.Leaves.{name_text, name_of, inner_bytes, undoubled, text_content, number_of, number_by, decimal_value, value_or_zero};

use event_value::{Memory, Text};
use query_tokens::{Lexeme, MAX_DECIMALS, decimals_of, digits_len, millionths, value_from};
use query_tree::{Name, Number};
use std::alloc::Global;

/// The name that a token is.
pub fn name_of(alloc: Global, lexeme: &Lexeme<'_>) -> Result<Name, Memory>
    ensures { IfOk result (λ name. name ≡ name_of lexeme.now) }
{
    Ok(Name {
        place: lexeme.place(),
        text: Text::of(alloc, name_text(lexeme.bytes()))?,
    })
}

/// A name without its brackets.
#[tactic(auto, unfolding(query_grammar::specs::Leaves::name_text))]
fn name_text(bytes: &[u8]) -> &[u8]
    ensures { result.now ≡ name_text bytes.now }
{
    match bytes {
        [b'[', ..] => inner_bytes(bytes),
        _ => bytes,
    }
}

/// The bytes between the first and the last.
fn inner_bytes(bytes: &[u8]) -> &[u8]
    ensures { result.now ≡ inner_bytes bytes.now }
{
    match bytes {
        [_, inner @ .., _] => inner,
        _ => &[],
    }
}

/// A text without its quotes, two of them in a row once.
#[tactic(auto, unfolding(query_grammar::specs::Leaves::text_content))]
pub fn text_content(alloc: Global, bytes: &[u8]) -> Result<Text, Memory>
    ensures { IfOk result (λ text. text ≡ text_content bytes.now) }
{
    let mut text = Text::empty(alloc);
    let mut second = false;
    let mut rest = inner_bytes(bytes);
    'bytes: while let [byte, after @ ..] = rest {
        if second {
            second = false;
        } else {
            text.push(*byte)?;
            second = *byte == b'\'';
        }
        rest = after;
    }
    Ok(text)
}

/// The number that these bytes are.
#[tactic(auto, unfolding(query_grammar::specs::Leaves::number_of))]
pub fn number_of(bytes: &[u8]) -> Number
    ensures { result ≡ number_of bytes.now }
{
    let (whole, after) = bytes.split_at(digits_len(bytes));
    number_by(whole, decimals_of(after))
}

fn number_by(whole: &[u8], decimals: &[u8]) -> Number
    ensures { result ≡ number_by whole.now decimals.now }
{
    match decimals {
        [] => Number::Whole(value_or_zero(value_from(0, whole))),
        _ => Number::Decimal(value_or_zero(decimal_value(whole, decimals))),
    }
}

fn decimal_value(whole: &[u8], decimals: &[u8]) -> Option<u64>
    ensures value { result ≡ decimal_value whole.now decimals.now }
    ensures within { IfSome result (λ value. value ≤ max_number) }
{
    if decimals.len() <= MAX_DECIMALS {
        millionths(whole, decimals)
    } else {
        None
    }
}

fn value_or_zero(value: Option<u64>) -> i64
    requires { IfSome value (λ value. value ≤ max_number) }
    ensures { result ≡ value_or_zero value }
{
    match value {
        Some(value) => value as i64,
        None => 0,
    }
}
