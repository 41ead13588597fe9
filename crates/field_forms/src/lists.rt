//! Lists: the number of the items, and the items.

ghost use Rattle.std.specs.Prelude.{◌≡◌, ◌++◌, true, OnOk, refl};
ghost use Rattle.std.specs.List.{flat_map, list_all};
ghost use Rattle.field_forms.specs.Fields.{items_form};
ghost use Rattle.field_forms.specs.Forms.{items_reading};
ghost use Rattle.field_forms.specs.ListLaws.{IsForm-list_form};
ghost use Rattle.field_forms.specs.NumberLaws.{IsForm-u32_form};
ghost use Rattle.field_forms.specs.Readings.{IsReading};

use crate::{Field, FormOf, OwnForm, Unread, Unreadable};
use event_value::{Memory, Seq};
use std::alloc::Global;

/// Adds the number of the items of a list, and the bytes of each.
///
/// # Errors
/// `Memory` where there was none for them, or where there are 2^32 items or more; a part of the
/// bytes may be there then.
pub fn append_list<V: Drop, F: FormOf<V>>(list: &Seq<V>, out: &mut Seq<u8>) -> Result<(), Memory>
    ensures bytes { OnOk result (out.new ≡ out.old ++ (items_form F.form).spelling list.now) }
    ensures fits { OnOk result ((items_form F.form).fits list.now ≡ true) }
{
    let Ok(count) = u32::try_from(list.items().len()) else {
        return Err(Memory);
    };
    count.append(out)?;
    append_items::<V, F>(list.items(), out)
}

fn append_items<V: Drop, F: FormOf<V>>(items: &[V], out: &mut Seq<u8>) -> Result<(), Memory>
    ensures bytes { OnOk result (out.new ≡ out.old ++ flat_map F.form.spelling items.now) }
    ensures fits { OnOk result (list_all F.form.fits items.now ≡ true) }
{
    for item in items {
        F::append(item, out)?;
    }
    Ok(())
}

/// Takes as many items as the number in front of them says.
///
/// # Errors
/// `Malformed` where there are fewer, `Memory` where there was none for them.
pub fn take_list<V: Drop, F: FormOf<V>>(
    alloc: Global,
    unread: &mut Unread<'_>,
) -> Result<Seq<V>, Unreadable>
    ensures { IsReading ((items_form F.form).reading unread.old) result unread.new }
{
    let count = u32::take(alloc, unread)?;
    if unread.has(count) {
        take_items::<V, F>(alloc, count, unread)
    } else {
        Err(Unreadable::Malformed)
    }
}

// So many items, each off the front of what the one before it left.
fn take_items<V: Drop, F: FormOf<V>>(
    alloc: Global,
    count: u32,
    unread: &mut Unread<'_>,
) -> Result<Seq<V>, Unreadable>
    ensures { IsReading (items_reading F.form.reading count unread.old) result unread.new }
{
    let mut items = Seq::empty(alloc);
    for place in 0..count {
        items.push(F::take(alloc, unread)?)?;
    }
    Ok(items)
}

impl<T: Field> Field for Seq<T> {
    ghost form = { items_form T.form };

    fn append(&self, out: &mut Seq<u8>) -> Result<(), Memory> {
        append_list::<T, OwnForm>(self, out)
    }

    fn take(alloc: Global, unread: &mut Unread<'_>) -> Result<Self, Unreadable> {
        take_list::<T, OwnForm>(alloc, unread)
    }

    ghost sound = { IsForm-list_form IsForm-u32_form T.sound };

    ghost needs_bytes = { refl };
}
