//! Numbers of 64 bits, and the numbers that texts spell.

ghost use Rattle.std.specs.Prelude.{◌≡◌, ◌≤◌, ◌+◌, ◌-◌, ◌*◌, length, take, IfSome};
ghost use Rattle.std.specs.List.{prefix_len};
ghost use Rattle.tick_time.specs.MomentReading.{is_digit, digit_value};
ghost use Rattle.value_text.specs.Numbers.{whole_value, fixed_value, value_from, bounded, greatest_size, most_decimals};
ghost use Rattle.value_text.specs.Numbers.{are_digits, is_whole_text, is_fraction_text, is_fixed_text, decimals_of, millionths, millionths_of};
ghost use Rattle.value_text.specs.Numbers.{is_negative, after_sign, signed, signed_whole, signed_fixed, whole_of_text, fixed_of_text};

use event_value::Value;

// The limits of numbers of 64 bits.
const LEAST_NUMBER: i128 = -9_223_372_036_854_775_808;

const GREATEST_NUMBER: i128 = 9_223_372_036_854_775_807;

// The greatest number without its sign.
const GREATEST_SIZE: u128 = 9_223_372_036_854_775_808;

// How many digits a whole number has at most.
const MOST_DIGITS: usize = 19;

// How many digits behind the point count.
const MOST_DECIMALS: usize = 6;

// What is missing of these is added to decimals.
const ZEROS: &[u8] = b"000000";

/// A whole number; Null where 64 bits don't hold it.
pub fn whole_value(exact: i128) -> Value
    ensures { result ≡ whole_value exact }
{
    if exact < LEAST_NUMBER || exact > GREATEST_NUMBER {
        return Value::Null;
    }
    Value::Big(exact as i64)
}

/// A decimal number of so many millionths; Null where 64 bits don't hold them.
pub fn fixed_value(exact: i128) -> Value
    ensures { result ≡ fixed_value exact }
{
    if exact < LEAST_NUMBER || exact > GREATEST_NUMBER {
        return Value::Null;
    }
    Value::Fixed(exact as i64)
}

fn is_digit(byte: u8) -> bool
    ensures { result ≡ is_digit byte }
{
    byte >= b'0' && byte <= b'9'
}

// How many digits a text begins with.
fn digits_len(text: &[u8]) -> usize
    ensures size { result ≡ prefix_len is_digit text.now }
    ensures within { result ≤ length text.now }
{
    text.iter().take_while(|byte| is_digit(**byte)).count()
}

fn are_digits(text: &[u8]) -> bool
    ensures { result ≡ are_digits text.now }
{
    text.len() >= 1 && digits_len(text) == text.len()
}

fn is_whole_text(text: &[u8]) -> bool
    ensures { result ≡ is_whole_text text.now }
{
    are_digits(text) && text.len() <= MOST_DIGITS
}

fn is_fraction_text(text: &[u8]) -> bool
    ensures { result ≡ is_fraction_text text.now }
{
    match text {
        [] => true,
        [point, digits @ ..] => *point == b'.' && are_digits(digits),
    }
}

fn is_fixed_text(text: &[u8]) -> bool
    ensures { result ≡ is_fixed_text text.now }
{
    let size = digits_len(text);
    size >= 1 && is_fraction_text(text.split_at(size).1)
}

// The digits behind a point that count.
fn decimals_of(text: &[u8]) -> &[u8]
    ensures digits { result.now ≡ decimals_of text.now }
    ensures within { length result.now ≤ most_decimals }
{
    match text {
        [] => &[],
        [_, digits @ ..] => first_decimals(digits),
    }
}

fn first_decimals(digits: &[u8]) -> &[u8]
    ensures digits { result.now ≡ take most_decimals digits.now }
    ensures within { length result.now ≤ most_decimals }
{
    if digits.len() > MOST_DECIMALS {
        digits.split_at(MOST_DECIMALS).0
    } else {
        digits
    }
}

// The value with one more digit; `None` where no number has it.
fn value_and(value: u64, digit: u8) -> Option<u64>
    requires { value ≤ greatest_size }
    ensures { result ≡ bounded (10 * value + (digit_value digit)) }
{
    let next = 10 * u128::from(value) + u128::from(digit.saturating_sub(b'0'));
    if next <= GREATEST_SIZE {
        Some(next as u64)
    } else {
        None
    }
}

// The value of further digits behind those of a value; `None` where no number has it.
#[tactic(auto, using(crate::proofs::NumberLemmas::stays_above))]
fn value_from(value: u64, digits: &[u8]) -> Option<u64>
    requires { value ≤ greatest_size }
    ensures value { result ≡ bounded (value_from value digits.now) }
    ensures within { IfSome result (λ value. value ≤ greatest_size) }
{
    let mut value = value;
    for digit in digits {
        value = value_and(value, *digit)?;
    }
    Some(value)
}

// A number in millionths; `None` where no number has it.
#[tactic(auto, using(crate::proofs::NumberLemmas::stays_above))]
fn millionths(whole: &[u8], decimals: &[u8]) -> Option<u64>
    requires { length decimals.now ≤ most_decimals }
    ensures { result ≡ bounded (millionths whole.now decimals.now) }
{
    let value = value_from(value_from(0, whole)?, decimals)?;
    value_from(value, ZEROS.split_at(decimals.len()).1)
}

// The millionths of a number's text; `None` where no number has them.
fn millionths_of(text: &[u8]) -> Option<u64>
    ensures { result ≡ bounded (millionths_of text.now) }
{
    let (whole, fraction) = text.split_at(digits_len(text));
    millionths(whole, decimals_of(fraction))
}

fn is_negative(text: &[u8]) -> bool
    ensures { result ≡ is_negative text.now }
{
    match text {
        [] => false,
        [sign, ..] => *sign == b'-',
    }
}

// What stands behind the sign, where there is one.
fn after_sign(text: &[u8]) -> &[u8]
    ensures { result.now ≡ after_sign text.now }
{
    match text {
        [b'-' | b'+', rest @ ..] => rest,
        _ => text,
    }
}

fn signed(negative: bool, size: u64) -> i128
    ensures { result ≡ signed negative size }
{
    if negative {
        -(size as i128)
    } else {
        size as i128
    }
}

fn signed_whole(negative: bool, size: Option<u64>) -> Value
    ensures { result ≡ signed_whole negative size }
{
    match size {
        None => Value::Null,
        Some(size) => whole_value(signed(negative, size)),
    }
}

fn signed_fixed(negative: bool, size: Option<u64>) -> Value
    ensures { result ≡ signed_fixed negative size }
{
    match size {
        None => Value::Null,
        Some(size) => fixed_value(signed(negative, size)),
    }
}

/// The whole number that a text spells; Null where it spells none.
#[tactic(auto, unfolding(crate::specs::Numbers::whole_of_text))]
pub fn whole_of_text(text: &[u8]) -> Value
    ensures { result ≡ whole_of_text text.now }
{
    let digits = after_sign(text);
    if is_whole_text(digits) {
        signed_whole(is_negative(text), value_from(0, digits))
    } else {
        Value::Null
    }
}

/// The decimal number that a text spells; Null where it spells none.
#[tactic(auto, unfolding(crate::specs::Numbers::fixed_of_text))]
pub fn fixed_of_text(text: &[u8]) -> Value
    ensures { result ≡ fixed_of_text text.now }
{
    let digits = after_sign(text);
    if is_fixed_text(digits) {
        signed_fixed(is_negative(text), millionths_of(digits))
    } else {
        Value::Null
    }
}
