//! The printed form of one value.

ghost use Rattle.std.specs.Prelude.{◌≡◌, ◌++◌, ◌<◌, OnOk};
ghost use Rattle.value_text.specs.Printed.{escaped, unicode_escape, hex_digit, quoted, value_text};
ghost use Rattle.tick_time.specs.MomentText.{digit};
ghost use Rattle.value_text.specs.Printed.{fixed_text, unsigned_fixed_text, fraction_text};

use crate::push_number;
use event_value::{Text, Value};
use tick_time::{Memory, write_moment};

/// How many millionths make one.
const MILLION: u64 = 1_000_000;

/// The places of the digits behind the point, in millionths.
const PLACES_BEHIND_POINT: [u64; 6] = [100_000, 10_000, 1_000, 100, 10, 1];

/// Adds the printed form of a value at the end.
pub fn push_value(out: &mut Text, value: &Value) -> Result<(), Memory>
    ensures { OnOk result (out.new ≡ out.old ++ value_text value.now) }
{
    match value {
        Value::Null => out.extend(b"null"),
        Value::Bit(true) => out.push(b'1'),
        Value::Bit(false) => out.push(b'0'),
        Value::Big(number) => {
            let digits = number.to_string(out.allocator())?;
            out.extend(digits.as_bytes())
        }
        Value::Fixed(millionths) => push_fixed(out, *millionths),
        Value::Text(text) => push_text(out, text.items()),
        Value::Moment(moment) => {
            out.push(b'"')?;
            out.extend(&write_moment(*moment))?;
            out.push(b'"')
        }
    }
}

fn push_fixed(out: &mut Text, millionths: i64) -> Result<(), Memory>
    ensures { OnOk result (out.new ≡ out.old ++ fixed_text millionths) }
{
    if millionths < 0 {
        out.push(b'-')?;
    }
    push_unsigned_fixed(out, millionths.unsigned_abs())
}

fn push_unsigned_fixed(out: &mut Text, millionths: u64) -> Result<(), Memory>
    ensures { OnOk result (out.new ≡ out.old ++ unsigned_fixed_text millionths) }
{
    push_number(out, millionths / MILLION)?;
    push_fraction(out, millionths % MILLION)
}

fn push_fraction(out: &mut Text, millionths: u64) -> Result<(), Memory>
    ensures { OnOk result (out.new ≡ out.old ++ fraction_text millionths) }
{
    if millionths == 0 {
        return Ok(());
    }
    out.push(b'.')?;
    let mut rest = millionths;
    for place in &PLACES_BEHIND_POINT {
        if rest == 0 {
            break;
        }
        out.push(digit_of(rest, *place))?;
        rest %= *place;
    }
    Ok(())
}

/// The decimal digit of a number at this place.
fn digit_of(number: u64, place: u64) -> u8
    requires { 0 < place }
    ensures { result ≡ digit number place }
{
    b'0' + (number / place % 10) as u8
}

/// Adds a text in quotes at the end.
///
/// # Errors
/// `Memory` where there was none; a part of the form may then stand at the end.
pub fn push_text(out: &mut Text, text: &[u8]) -> Result<(), Memory>
    ensures { OnOk result (out.new ≡ out.old ++ quoted text.now) }
{
    out.push(b'"')?;
    for byte in text {
        push_escaped(out, *byte)?;
    }
    out.push(b'"')
}

fn push_escaped(out: &mut Text, byte: u8) -> Result<(), Memory>
    ensures { OnOk result (out.new ≡ out.old ++ escaped byte) }
{
    match byte {
        b'"' => out.extend(b"\\\""),
        b'\\' => out.extend(b"\\\\"),
        8 => out.extend(b"\\b"),
        b'\t' => out.extend(b"\\t"),
        b'\n' => out.extend(b"\\n"),
        12 => out.extend(b"\\f"),
        b'\r' => out.extend(b"\\r"),
        0..32 => push_unicode_escape(out, byte),
        _ => out.push(byte),
    }
}

fn push_unicode_escape(out: &mut Text, byte: u8) -> Result<(), Memory>
    ensures { OnOk result (out.new ≡ out.old ++ unicode_escape byte) }
{
    out.extend(&[
        b'\\',
        b'u',
        b'0',
        b'0',
        hex_digit_of(byte / 16),
        hex_digit_of(byte % 16),
    ])
}

/// A digit to the base 16, in lower case.
fn hex_digit_of(digit: u8) -> u8
    requires { digit < 16 }
    ensures { result ≡ hex_digit digit }
{
    if digit < 10 {
        b'0' + digit
    } else {
        b'a' + (digit - 10)
    }
}
