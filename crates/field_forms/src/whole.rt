//! A value and its bytes as a whole: written into a list of its own, added to a list, and read.

ghost use Rattle.std.specs.Prelude.{◌≡◌, ◌++◌, true, IfOk, OnOk, OnErr};
ghost use Rattle.field_forms.specs.Spellings.{IsSpelling, IsWhole};

use crate::{FormOf, Unread, Unreadable};
use event_value::{Memory, Seq};
use std::alloc::Global;

/// The bytes of a value.
///
/// # Errors
/// `Memory` where there was none for them, or where a list or a text in it has 2^32 items or more.
pub fn encode_whole<V, F: FormOf<V>>(alloc: Global, value: &V) -> Result<Seq<u8>, Memory>
    ensures { IfOk result (λ bytes. IsSpelling F.form value.now bytes) }
{
    let mut bytes = Seq::empty(alloc);
    F::append(value, &mut bytes)?;
    Ok(bytes)
}

/// Adds the bytes of a value at the end, all or none, by way of a list of their own.
///
/// # Errors
/// `Memory` where there was none for them, or where a list or a text in it has 2^32 items or more;
/// the list is then as before.
pub fn put_whole<V, F: FormOf<V>>(out: &mut Seq<u8>, value: &V) -> Result<(), Memory>
    ensures ok { OnOk result (out.new ≡ out.old ++ F.form.spelling value.now) }
    ensures fits { OnOk result (F.form.fits value.now ≡ true) }
    ensures err { OnErr result (out.new ≡ out.old) }
{
    let bytes = encode_whole::<V, F>(out.allocator(), value)?;
    out.extend(bytes.items())
}

/// The value whose bytes these are, and none exactly where they are no value's.
///
/// # Errors
/// `Memory` where there was none for it.
pub fn decode_whole<V: Drop, F: FormOf<V>>(alloc: Global, bytes: &[u8]) -> Result<Option<V>, Memory>
    ensures { IfOk result (λ value. IsWhole F.form bytes.now value) }
{
    let mut unread = Unread::of(bytes);
    match F::take(alloc, &mut unread) {
        Ok(value) => {
            if unread.is_empty() {
                Ok(Some(value))
            } else {
                Ok(None)
            }
        }
        Err(Unreadable::Malformed) => Ok(None),
        Err(Unreadable::Memory) => Err(Memory),
    }
}
