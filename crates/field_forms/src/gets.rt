//! Values that are read at a place of bytes, and the place behind them.

ghost use Rattle.std.specs.Prelude.{◌≡◌, ◌<◌, ◌-◌, ◌^◌, drop, length, IfOk};
ghost use Rattle.field_forms.specs.Fields.{text_form};
ghost use Rattle.field_forms.specs.Numbers.{i128_form, i64_form, moment_form, u16_form, u32_form, u64_form, u8_form};
ghost use Rattle.field_forms.specs.Readings.{IsTaken};
ghost use Rattle.field_forms.specs.Spellings.{IsSpelledAt};
ghost use Rattle.field_forms.specs.Values.{value_form};

use crate::{Field, Unread, Unreadable};
use event_value::{Memory, Text, Value};
use std::alloc::Global;
use tick_time::Moment;

/// The byte at a place and the place behind it, and none exactly where none is spelled there.
pub fn get_u8(bytes: &[u8], at: u32) -> Option<(u8, u32)>
    requires { length bytes.now < 2 ^ 32 }
    ensures { IsSpelledAt u8_form bytes.now at result }
{
    let mut unread = unread_at(bytes, at);
    let taken = unread.u8();
    with_place(bytes, at, taken, &unread)
}

/// The number of two bytes at a place and the place behind it, and none exactly where
/// none is spelled there.
pub fn get_u16(bytes: &[u8], at: u32) -> Option<(u16, u32)>
    requires { length bytes.now < 2 ^ 32 }
    ensures { IsSpelledAt u16_form bytes.now at result }
{
    let mut unread = unread_at(bytes, at);
    let taken = unread.u16();
    with_place(bytes, at, taken, &unread)
}

/// The number of four bytes at a place and the place behind it, and none exactly where
/// none is spelled there.
pub fn get_u32(bytes: &[u8], at: u32) -> Option<(u32, u32)>
    requires { length bytes.now < 2 ^ 32 }
    ensures { IsSpelledAt u32_form bytes.now at result }
{
    let mut unread = unread_at(bytes, at);
    let taken = unread.u32();
    with_place(bytes, at, taken, &unread)
}

/// The number of eight bytes at a place and the place behind it, and none exactly where
/// none is spelled there.
pub fn get_u64(bytes: &[u8], at: u32) -> Option<(u64, u32)>
    requires { length bytes.now < 2 ^ 32 }
    ensures { IsSpelledAt u64_form bytes.now at result }
{
    let mut unread = unread_at(bytes, at);
    let taken = unread.u64();
    with_place(bytes, at, taken, &unread)
}

/// The signed number of eight bytes at a place and the place behind it, and none exactly where
/// none is spelled there.
pub fn get_i64(bytes: &[u8], at: u32) -> Option<(i64, u32)>
    requires { length bytes.now < 2 ^ 32 }
    ensures { IsSpelledAt i64_form bytes.now at result }
{
    let mut unread = unread_at(bytes, at);
    let taken = unread.i64();
    with_place(bytes, at, taken, &unread)
}

/// The signed number of sixteen bytes at a place and the place behind it, and none exactly where
/// none is spelled there.
pub fn get_i128(bytes: &[u8], at: u32) -> Option<(i128, u32)>
    requires { length bytes.now < 2 ^ 32 }
    ensures { IsSpelledAt i128_form bytes.now at result }
{
    let mut unread = unread_at(bytes, at);
    let taken = unread.i128();
    with_place(bytes, at, taken, &unread)
}

/// The moment at a place and the place behind it, and none exactly where none is spelled there.
pub fn get_moment(bytes: &[u8], at: u32) -> Option<(Moment, u32)>
    requires { length bytes.now < 2 ^ 32 }
    ensures { IsSpelledAt moment_form bytes.now at result }
{
    let mut unread = unread_at(bytes, at);
    let taken = unread.moment();
    with_place(bytes, at, taken, &unread)
}

/// The text at a place and the place behind it, and none exactly where none is spelled there.
///
/// # Errors
/// `Memory` where there was none for it.
pub fn get_text(alloc: Global, bytes: &[u8], at: u32) -> Result<Option<(Text, u32)>, Memory>
    requires { length bytes.now < 2 ^ 32 }
    ensures { IfOk result (λ answer. IsSpelledAt text_form bytes.now at answer) }
{
    get_at(alloc, bytes, at)
}

/// The value at a place and the place behind it, and none exactly where none is spelled there.
///
/// # Errors
/// `Memory` where there was none for it.
pub fn get_value(alloc: Global, bytes: &[u8], at: u32) -> Result<Option<(Value, u32)>, Memory>
    requires { length bytes.now < 2 ^ 32 }
    ensures { IfOk result (λ answer. IsSpelledAt value_form bytes.now at answer) }
{
    get_at(alloc, bytes, at)
}

// The value at a place and the place behind it.
fn get_at<T: Field>(alloc: Global, bytes: &[u8], at: u32) -> Result<Option<(T, u32)>, Memory>
    requires { length bytes.now < 2 ^ 32 }
    ensures { IfOk result (λ answer. IsSpelledAt T.form bytes.now at answer) }
{
    let mut unread = unread_at(bytes, at);
    match T::take(alloc, &mut unread) {
        Ok(value) => Ok(with_place(bytes, at, Some(value), &unread)),
        Err(Unreadable::Malformed) => Ok(with_place(bytes, at, None, &unread)),
        Err(Unreadable::Memory) => Err(Memory),
    }
}

// What was taken at a place, with the place of what is left.
fn with_place<T: Field>(
    bytes: &[u8],
    at: u32,
    taken: Option<T>,
    unread: &Unread<'_>,
) -> Option<(T, u32)>
    requires short { length bytes.now < 2 ^ 32 }
    requires read { IsTaken (T.form.reading (drop at bytes.now)) taken unread.now }
    ensures { IsSpelledAt T.form bytes.now at result }
{
    match taken {
        Some(value) => Some((value, place_of(bytes, unread))),
        None => None,
    }
}

// What is behind a place.
fn unread_at(bytes: &[u8], at: u32) -> Unread<'_>
    ensures { result ≡ drop at bytes.now }
{
    let at = at as usize;
    if at <= bytes.len() {
        Unread::of(&bytes[at..])
    } else {
        Unread::of(&bytes[bytes.len()..])
    }
}

// The place of what is left of bytes.
fn place_of(bytes: &[u8], unread: &Unread<'_>) -> u32
    requires { length bytes.now < 2 ^ 32 }
    ensures { result ≡ length bytes.now - length unread.now }
{
    bytes.len().saturating_sub(unread.bytes().len()) as u32
}
