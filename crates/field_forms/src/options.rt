//! Options: a byte that says whether there is a value, and the value.

ghost use Rattle.std.specs.Prelude.{◌≡◌, ◌++◌, true, OnOk, refl};
ghost use Rattle.field_forms.specs.FieldLaws.{IsForm-option_form};
ghost use Rattle.field_forms.specs.Fields.{option_form};
ghost use Rattle.field_forms.specs.Readings.{IsReading};

use crate::{Field, FormOf, OwnForm, Unread, Unreadable};
use event_value::{Memory, Seq};
use std::alloc::Global;

/// Adds a byte that says whether there is a value, and the value's bytes.
///
/// # Errors
/// `Memory` where there was none for them, or where a list or a text in it has 2^32 items or more;
/// a part of the bytes may be there then.
pub fn append_option<V: Drop, F: FormOf<V>>(
    option: &Option<V>,
    out: &mut Seq<u8>,
) -> Result<(), Memory>
    ensures bytes { OnOk result (out.new ≡ out.old ++ (option_form F.form).spelling option.now) }
    ensures fits { OnOk result ((option_form F.form).fits option.now ≡ true) }
{
    match option {
        None => out.push(0),
        Some(value) => {
            out.push(1)?;
            F::append(value, out)
        }
    }
}

/// Takes a byte that says whether there is a value, and the value.
///
/// # Errors
/// `Malformed` where neither is spelled there, `Memory` where there was none for the value.
pub fn take_option<V: Drop, F: FormOf<V>>(
    alloc: Global,
    unread: &mut Unread<'_>,
) -> Result<Option<V>, Unreadable>
    ensures { IsReading ((option_form F.form).reading unread.old) result unread.new }
{
    match u8::take(alloc, unread)? {
        0 => Ok(None),
        1 => Ok(Some(F::take(alloc, unread)?)),
        _ => Err(Unreadable::Malformed),
    }
}

impl<T: Field> Field for Option<T> {
    ghost form = { option_form T.form };

    fn append(&self, out: &mut Seq<u8>) -> Result<(), Memory> {
        append_option::<T, OwnForm>(self, out)
    }

    fn take(alloc: Global, unread: &mut Unread<'_>) -> Result<Self, Unreadable> {
        take_option::<T, OwnForm>(alloc, unread)
    }

    ghost sound = { IsForm-option_form T.sound };

    ghost needs_bytes = { refl };
}
