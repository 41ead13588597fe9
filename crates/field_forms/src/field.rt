//! `Field`, the types that have a form.

ghost use Rattle.std.specs.Prelude.{◌≡◌, ◌++◌, true, OnOk};
ghost use Rattle.field_forms.specs.Forms.{Form, IsForm, NeedsBytes};
ghost use Rattle.field_forms.specs.Readings.{IsReading};

use crate::{Unread, Unreadable};
use event_value::{Memory, Seq};
use std::alloc::Global;

/// A type whose values have a form: bytes that spell them.
pub trait Field: Drop {
    /// The form.
    ghost form: { Form Self };

    /// Adds the bytes of a value at the end.
    ///
    /// # Errors
    /// `Memory` where there was none for them, or where a list or a text in it has 2^32 items or
    /// more; a part of the bytes may be there then.
    fn append(&self, out: &mut Seq<u8>) -> Result<(), Memory>
        ensures bytes { OnOk result (out.new ≡ out.old ++ form.spelling self.now) }
        ensures fits { OnOk result (form.fits self.now ≡ true) };

    /// Takes a value off the front of bytes.
    ///
    /// # Errors
    /// `Malformed` where no value is spelled there, `Memory` where there was none for it.
    fn take(alloc: Global, unread: &mut Unread<'_>) -> Result<Self, Unreadable>
        ensures { IsReading (form.reading unread.old) result unread.new };

    /// The form is exact.
    ghost sound: { IsForm form };

    /// Each value has a byte at least.
    ghost needs_bytes: { NeedsBytes form };
}
