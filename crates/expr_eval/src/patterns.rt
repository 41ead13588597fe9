//! `LIKE`: which texts fit a pattern. For each rest of the pattern, from its end, a row of bits says
//! which rests of the text fit it, so the time is the product of both lengths.

ghost use Rattle.std.specs.Prelude.{◌≡◌, IfOk, [], ◌∷◌, reverse, true, false};
ghost use Rattle.std.specs.Str.{chars};
ghost use Rattle.expr_eval.specs.Patterns as spec;
ghost use Rattle.expr_eval.specs.Rows as rows;

use crate::texts::{as_text, characters};
use event_value::{Memory, Value};
use std::alloc::Global;

fn is_fit(pattern: char, character: char) -> bool
    ensures { result ≡ spec.is_fit pattern character }
{
    pattern == '_' || pattern == character
}

fn first_bit(row: &[bool]) -> bool
    ensures { result ≡ rows.first_bit row.now }
{
    match row {
        [] => false,
        [bit, ..] => *bit,
    }
}

fn bits_behind(row: &[bool]) -> &[bool]
    ensures { result.now ≡ rows.bits_behind row.now }
{
    match row {
        [] => row,
        [_, rest @ ..] => rest,
    }
}

fn last_bit(row: &[bool]) -> bool
    ensures { result ≡ rows.last_bit false row.now }
{
    let mut last = false;
    for bit in row {
        last = *bit;
    }
    last
}

fn empty_fits(pattern: char, before: bool) -> bool
    ensures { result ≡ rows.empty_fits pattern before }
{
    pattern == '%' && before
}

fn longer_fits(pattern: char, both: bool, before: bool, character: char, next: bool) -> bool
    ensures { result ≡ rows.longer_fits pattern both before character next }
{
    if pattern == '%' {
        next || both
    } else {
        is_fit(pattern, character) && before
    }
}

// The row of a pattern with one more character in front; the text is given from its end.
#[tactic(auto, unfolding(crate::specs::Rows::row_before))]
fn row_before(
    alloc: Global,
    pattern: char,
    text: &[char],
    after: &[bool],
) -> Result<Vec<bool>, Memory>
    ensures { IfOk result (λ row. row.items ≡ rows.row_before pattern text.now after.now) }
{
    let mut before = first_bit(after);
    let mut rest = bits_behind(after);
    let mut both = empty_fits(pattern, before);
    let mut row = Vec::new(alloc);
    row.push(both)?;
    for character in text {
        let next = first_bit(rest);
        both = longer_fits(pattern, both, before, *character, next);
        row.push(both)?;
        before = next;
        rest = bits_behind(rest);
    }
    Ok(row)
}

// The row of the empty pattern: the empty rest alone fits.
fn last_row(alloc: Global, text: &[char]) -> Result<Vec<bool>, Memory>
    ensures { IfOk result (λ row. row.items ≡ true ∷ rows.no_bits text.now) }
{
    let mut row = Vec::new(alloc);
    row.push(true)?;
    for _character in text {
        row.push(false)?;
    }
    Ok(row)
}

// The row of a whole pattern; pattern and text are given from their ends.
fn whole_row(alloc: Global, pattern: &[char], text: &[char]) -> Result<Vec<bool>, Memory>
    ensures { IfOk result (λ row.
        row.items ≡ rows.row_behind text.now (true ∷ rows.no_bits text.now) pattern.now) }
{
    let mut row = last_row(alloc, text)?;
    for character in pattern {
        row = row_before(alloc, *character, text, row.as_slice())?;
    }
    Ok(row)
}

fn from_end(alloc: Global, characters: &[char]) -> Result<Vec<char>, Memory>
    ensures { IfOk result (λ found. found.items ≡ reverse characters.now) }
{
    let mut found = Vec::from_slice(alloc, characters)?;
    found.reverse();
    Ok(found)
}

#[tactic(auto, using(crate::proofs::PatternLemmas::last_bit_fits))]
fn fits(alloc: Global, pattern: &[char], text: &[char]) -> Result<bool, Memory>
    ensures { IfOk result (λ found. found ≡ spec.fits pattern.now text.now) }
{
    let pattern = from_end(alloc, pattern)?;
    let text = from_end(alloc, text)?;
    let row = whole_row(alloc, pattern.as_slice(), text.as_slice())?;
    Ok(last_bit(row.as_slice()))
}

fn text_fits(alloc: Global, pattern: &str, text: &str) -> Result<bool, Memory>
    ensures { IfOk result (λ found. found ≡ spec.fits (chars pattern.now) (chars text.now)) }
{
    let pattern = characters(alloc, pattern)?;
    let text = characters(alloc, text)?;
    fits(alloc, pattern.as_slice(), text.as_slice())
}

/// Whether a text fits a pattern; unknown for another value, and where one of both isn't UTF-8.
#[tactic(auto, unfolding(crate::specs::Patterns::like))]
pub fn like(alloc: Global, value: &Value, pattern: &[u8]) -> Result<Option<bool>, Memory>
    ensures { IfOk result (λ truth. truth ≡ spec.like value.now pattern.now) }
{
    match value {
        Value::Text(text) => match as_text(text.items()) {
            None => Ok(None),
            Some(text) => match as_text(pattern) {
                None => Ok(None),
                Some(pattern) => Ok(Some(text_fits(alloc, pattern, text)?)),
            },
        },
        _ => Ok(None),
    }
}
