//! The form of numbers.

ghost use Rattle.std.specs.Prelude.{◌≡◌, ◌≤◌, ◌<◌, ◌+◌, ◌*◌, ◌-◌, ◌&&◌, IsTrue, length, slice_index, nat_le, IfSome};
ghost use Rattle.std.specs.List.{prefix_len};
ghost use Rattle.query_tokens.specs.declared.token.TokenKind.TheVariants.{Number};
ghost use Rattle.query_tokens.specs.Bytes.{max_number, max_decimals, is_digit};
ghost use Rattle.query_tokens.specs.Steps.{number_step, decimals_of, value_from, is_decimal, bounded, millionths, token_if, IsStepWithin};

use crate::bytes::is_digit;
use crate::step::Step;
use crate::token::TokenKind;

/// The greatest number of decimals.
pub const MAX_DECIMALS: usize = 6;

/// The greatest value of a number, also in millionths.
pub const MAX_NUMBER: u64 = i64::MAX as u64;

/// What is missing of these is added to decimals.
const ZEROS: &[u8] = b"000000";

/// The step of a text that begins with a digit.
#[tactic(auto, unfolding(crate::specs::Steps::number_step))]
pub fn next_number(text: &[u8]) -> Step
    requires { IsTrue (is_digit (slice_index text.now 0)) }
    ensures step { result ≡ number_step text.now }
    ensures within { IsStepWithin (length text.now) result }
{
    let (whole, after) = text.split_at(digits_len(text));
    let decimals = decimals_of(after);
    if decimals.is_empty() {
        token_if(is_whole(whole), whole.len())
    } else {
        token_if(
            is_decimal(whole, decimals),
            whole.len() + 1 + decimals.len(),
        )
    }
}

fn token_if(allowed: bool, size: usize) -> Step
    ensures { result ≡ token_if allowed Number size }
{
    if allowed {
        Step::Token(TokenKind::Number, size)
    } else {
        Step::Stuck
    }
}

/// The digits behind a point.
pub fn decimals_of(text: &[u8]) -> &[u8]
    ensures digits { result.now ≡ decimals_of text.now }
    ensures within { 0 < length result.now → length result.now + 1 ≤ length text.now }
{
    match text {
        [b'.', rest @ ..] => rest.split_at(digits_len(rest)).0,
        _ => &[],
    }
}

/// How many digits a text begins with.
pub fn digits_len(text: &[u8]) -> usize
    ensures size { result ≡ prefix_len is_digit text.now }
    ensures within { result ≤ length text.now }
{
    text.iter().take_while(|byte| is_digit(**byte)).count()
}

/// Whether digits are a whole number.
fn is_whole(digits: &[u8]) -> bool
    ensures { result ≡ nat_le (value_from 0 digits.now) max_number }
{
    value_from(0, digits).is_some()
}

/// Whether digits before and behind a point are a number.
fn is_decimal(whole: &[u8], decimals: &[u8]) -> bool
    ensures { result ≡ is_decimal whole.now decimals.now }
{
    decimals.len() <= MAX_DECIMALS && millionths(whole, decimals).is_some()
}

/// The value of a number in millionths; `None` where no number has it.
#[tactic(auto, using(crate::proofs::NumberLemmas::stays_above))]
pub fn millionths(whole: &[u8], decimals: &[u8]) -> Option<u64>
    requires { length decimals.now ≤ max_decimals }
    ensures value { result ≡ bounded (millionths whole.now decimals.now) }
    ensures within { IfSome result (λ value. value ≤ max_number) }
{
    let value = value_from(value_from(0, whole)?, decimals)?;
    value_from(value, ZEROS.split_at(decimals.len()).1)
}

/// The value of further digits behind those of a value; `None` where no number has it.
#[tactic(auto, using(crate::proofs::NumberLemmas::stays_above))]
pub fn value_from(value: u64, digits: &[u8]) -> Option<u64>
    requires { value ≤ max_number }
    ensures value { result ≡ bounded (value_from value digits.now) }
    ensures within { IfSome result (λ value. value ≤ max_number) }
{
    let mut value = value;
    for digit in digits {
        value = value_and(value, *digit)?;
    }
    Some(value)
}

/// The value with one more digit; `None` where no number has it.
fn value_and(value: u64, digit: u8) -> Option<u64>
    requires { value ≤ max_number }
    ensures { result ≡ bounded (10 * value + (digit - 48)) }
{
    let next = 10 * u128::from(value) + u128::from(digit.saturating_sub(b'0'));
    if next <= u128::from(MAX_NUMBER) {
        Some(next as u64)
    } else {
        None
    }
}
