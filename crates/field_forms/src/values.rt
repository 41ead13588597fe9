//! Texts and values as fields.

ghost use Rattle.std.specs.Prelude.{◌≡◌, ◌++◌, true, refl, OnOk, OnErr};
ghost use Rattle.field_forms.specs.FieldLaws.{IsForm-text_form};
ghost use Rattle.field_forms.specs.Fields.{text_form};
ghost use Rattle.field_forms.specs.ValueLaws.{IsForm-value_form};
ghost use Rattle.field_forms.specs.Values.{value_form};

use crate::runs::append_run;
use crate::{Field, OwnForm, Unread, Unreadable, put_whole};
use event_value::{Memory, Seq, Text, Value};
use std::alloc::Global;
use tick_time::Moment;

/// Adds the bytes of a text: their number, and they.
///
/// # Errors
/// `Memory` where there was none for them, or where the text has 2^32 bytes or more; the list is
/// then as before.
pub fn put_text(out: &mut Seq<u8>, text: &Text) -> Result<(), Memory>
    ensures ok { OnOk result (out.new ≡ out.old ++ text_form.spelling text.now) }
    ensures fits { OnOk result (text_form.fits text.now ≡ true) }
    ensures err { OnErr result (out.new ≡ out.old) }
{
    put_whole::<Text, OwnForm>(out, text)
}

/// Adds the bytes of a value: its kind, and what it holds.
///
/// # Errors
/// `Memory` where there was none for them, or where it is a text of 2^32 bytes or more; the list is
/// then as before.
pub fn put_value(out: &mut Seq<u8>, value: &Value) -> Result<(), Memory>
    ensures ok { OnOk result (out.new ≡ out.old ++ value_form.spelling value.now) }
    ensures fits { OnOk result (value_form.fits value.now ≡ true) }
    ensures err { OnErr result (out.new ≡ out.old) }
{
    put_whole::<Value, OwnForm>(out, value)
}

impl Field for Text {
    ghost form = { text_form };

    fn append(&self, out: &mut Seq<u8>) -> Result<(), Memory> {
        append_run(self.items(), out)
    }

    fn take(alloc: Global, unread: &mut Unread<'_>) -> Result<Self, Unreadable> {
        let bytes = unread.part().ok_or(Unreadable::Malformed)?;
        Ok(Text::of(alloc, bytes)?)
    }

    ghost sound = { IsForm-text_form };

    ghost needs_bytes = { refl };
}

impl Field for Value {
    ghost form = { value_form };

    fn append(&self, out: &mut Seq<u8>) -> Result<(), Memory> {
        match self {
            Value::Null => out.push(0),
            Value::Bit(bit) => {
                out.push(1)?;
                bit.append(out)
            }
            Value::Big(number) => {
                out.push(2)?;
                number.append(out)
            }
            Value::Fixed(millionths) => {
                out.push(3)?;
                millionths.append(out)
            }
            Value::Text(text) => {
                out.push(4)?;
                text.append(out)
            }
            Value::Moment(moment) => {
                out.push(5)?;
                moment.append(out)
            }
        }
    }

    fn take(alloc: Global, unread: &mut Unread<'_>) -> Result<Self, Unreadable> {
        match u8::take(alloc, unread)? {
            0 => Ok(Value::Null),
            1 => Ok(Value::Bit(bool::take(alloc, unread)?)),
            2 => Ok(Value::Big(i64::take(alloc, unread)?)),
            3 => Ok(Value::Fixed(i64::take(alloc, unread)?)),
            4 => Ok(Value::Text(Text::take(alloc, unread)?)),
            5 => Ok(Value::Moment(Moment::take(alloc, unread)?)),
            _ => Err(Unreadable::Malformed),
        }
    }

    ghost sound = { IsForm-value_form };

    ghost needs_bytes = { refl };
}
