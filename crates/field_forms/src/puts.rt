//! The bytes of numbers and moments, added at the end of a list.

ghost use Rattle.std.specs.Prelude.{◌≡◌, ◌++◌, OnOk, OnErr};
ghost use Rattle.field_forms.specs.Numbers.{i128_form, i64_form, low_first, moment_form, u16_form, u32_form, u64_form, u8_form};

use event_value::{Memory, Seq};
use tick_time::Moment;

/// Adds a byte.
///
/// # Errors
/// `Memory` where the list could not grow; it is then as before.
pub fn put_u8(out: &mut Seq<u8>, number: u8) -> Result<(), Memory>
    ensures ok { OnOk result (out.new ≡ out.old ++ u8_form.spelling number) }
    ensures err { OnErr result (out.new ≡ out.old) }
{
    out.push(number)
}

/// Adds the two bytes of a number.
///
/// # Errors
/// `Memory` where the list could not grow; it is then as before.
pub fn put_u16(out: &mut Seq<u8>, number: u16) -> Result<(), Memory>
    ensures ok { OnOk result (out.new ≡ out.old ++ u16_form.spelling number) }
    ensures err { OnErr result (out.new ≡ out.old) }
{
    out.extend(&number.to_le_bytes())
}

/// Adds the four bytes of a number.
///
/// # Errors
/// `Memory` where the list could not grow; it is then as before.
pub fn put_u32(out: &mut Seq<u8>, number: u32) -> Result<(), Memory>
    ensures ok { OnOk result (out.new ≡ out.old ++ u32_form.spelling number) }
    ensures err { OnErr result (out.new ≡ out.old) }
{
    out.extend(&number.to_le_bytes())
}

/// Adds the eight bytes of a number.
///
/// # Errors
/// `Memory` where the list could not grow; it is then as before.
pub fn put_u64(out: &mut Seq<u8>, number: u64) -> Result<(), Memory>
    ensures ok { OnOk result (out.new ≡ out.old ++ u64_form.spelling number) }
    ensures err { OnErr result (out.new ≡ out.old) }
{
    out.extend(&number.to_le_bytes())
}

/// Adds the eight bytes of a signed number.
///
/// # Errors
/// `Memory` where the list could not grow; it is then as before.
pub fn put_i64(out: &mut Seq<u8>, number: i64) -> Result<(), Memory>
    ensures ok { OnOk result (out.new ≡ out.old ++ i64_form.spelling number) }
    ensures err { OnErr result (out.new ≡ out.old) }
{
    out.extend(&number.cast_unsigned().to_le_bytes())
}

/// Adds the sixteen bytes of a signed number.
///
/// # Errors
/// `Memory` where the list could not grow; it is then as before.
pub fn put_i128(out: &mut Seq<u8>, number: i128) -> Result<(), Memory>
    ensures ok { OnOk result (out.new ≡ out.old ++ i128_form.spelling number) }
    ensures err { OnErr result (out.new ≡ out.old) }
{
    out.extend(&bytes_of(number.cast_unsigned()))
}

/// Adds the eight bytes of a moment.
///
/// # Errors
/// `Memory` where the list could not grow; it is then as before.
pub fn put_moment(out: &mut Seq<u8>, moment: Moment) -> Result<(), Memory>
    ensures ok { OnOk result (out.new ≡ out.old ++ moment_form.spelling moment) }
    ensures err { OnErr result (out.new ≡ out.old) }
{
    put_u64(out, moment.count())
}

// The sixteen bytes of a number.
fn bytes_of(number: u128) -> [u8; 16]
    ensures { result ≡ low_first 16 number }
{
    number.to_le_bytes()
}
