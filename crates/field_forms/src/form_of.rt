//! `FormOf`, a form that stands apart from the type of its values.

ghost use Rattle.std.specs.Prelude.{◌≡◌, ◌++◌, true, OnOk};
ghost use Rattle.field_forms.specs.Forms.{Form, IsForm, NeedsBytes};
ghost use Rattle.field_forms.specs.Readings.{IsReading};

use crate::{Field, Unread, Unreadable};
use event_value::{Memory, Seq};
use std::alloc::Global;

/// A form of values of type `V`: for types of other crates, and where a type has a second form.
pub trait FormOf<V> {
    /// The form.
    ghost form: { Form V };

    /// Adds the bytes of a value at the end.
    ///
    /// # Errors
    /// `Memory` where there was none for them, or where a list or a text in it has 2^32 items or
    /// more; a part of the bytes may be there then.
    fn append(value: &V, out: &mut Seq<u8>) -> Result<(), Memory>
        ensures bytes { OnOk result (out.new ≡ out.old ++ form.spelling value.now) }
        ensures fits { OnOk result (form.fits value.now ≡ true) };

    /// Takes a value off the front of bytes.
    ///
    /// # Errors
    /// `Malformed` where no value is spelled there, `Memory` where there was none for it.
    fn take(alloc: Global, unread: &mut Unread<'_>) -> Result<V, Unreadable>
        ensures { IsReading (form.reading unread.old) result unread.new };

    /// The form is exact.
    ghost sound: { IsForm form };

    /// Each value has a byte at least.
    ghost needs_bytes: { NeedsBytes form };
}

/// The form that a type has by itself.
pub struct OwnForm;

impl<T: Field> FormOf<T> for OwnForm {
    ghost form = { T.form };

    fn append(value: &T, out: &mut Seq<u8>) -> Result<(), Memory> {
        value.append(out)
    }

    fn take(alloc: Global, unread: &mut Unread<'_>) -> Result<T, Unreadable> {
        T::take(alloc, unread)
    }

    ghost sound = { T.sound };

    ghost needs_bytes = { T.needs_bytes };
}
