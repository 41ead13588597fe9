//! Runs of bytes: the number of the bytes, and the bytes.

ghost use Rattle.std.specs.Prelude.{◌≡◌, ◌++◌, true, IfOk, OnOk, refl};
ghost use Rattle.field_forms.specs.FieldLaws.{IsForm-text_form};
ghost use Rattle.field_forms.specs.Fields.{text_form};
ghost use Rattle.field_forms.specs.Readings.{IsReading};

use crate::{Field, FormOf, Unread, Unreadable};
use event_value::{Memory, Seq};
use std::alloc::Global;

/// The form of a list of bytes as a run: that of a text.
pub struct RunForm;

impl FormOf<Seq<u8>> for RunForm {
    ghost form = { text_form };

    fn append(value: &Seq<u8>, out: &mut Seq<u8>) -> Result<(), Memory> {
        append_run(value.items(), out)
    }

    fn take(alloc: Global, unread: &mut Unread<'_>) -> Result<Seq<u8>, Unreadable> {
        let bytes = unread.part().ok_or(Unreadable::Malformed)?;
        Ok(copy_of(alloc, bytes)?)
    }

    ghost sound = { IsForm-text_form };

    ghost needs_bytes = { refl };
}

// The number of some bytes, and the bytes.
pub(crate) fn append_run(bytes: &[u8], out: &mut Seq<u8>) -> Result<(), Memory>
    ensures bytes { OnOk result (out.new ≡ out.old ++ text_form.spelling bytes.now) }
    ensures fits { OnOk result (text_form.fits bytes.now ≡ true) }
{
    let Ok(count) = u32::try_from(bytes.len()) else {
        return Err(Memory);
    };
    count.append(out)?;
    out.extend(bytes)
}

// A copy of bytes.
fn copy_of(alloc: Global, bytes: &[u8]) -> Result<Seq<u8>, Memory>
    ensures { IfOk result (λ copied. copied ≡ bytes.now) }
{
    Ok(Seq::from_vec(Vec::from_slice(alloc, bytes)?))
}
