//! `encode_batch` and `decode_batch`, a batch as bytes.

ghost use Rattle.std.specs.Prelude.{◌≡◌, ◌++◌, true, refl, IfOk, OnOk};
ghost use Rattle.checkpoint_bytes.specs.BatchLaws.{IsForm-numbered_form};
ghost use Rattle.checkpoint_bytes.specs.Batches.{IsDecoded, IsDecodedCoreless, batch_body, batch_form, coreless_form, without_core};
ghost use Rattle.field_forms.specs.Readings.{IsReading};
ghost use Rattle.field_forms.specs.Spellings.{IsSpelling};

use crate::rows::OutputForm;
use checkpoint_form::Batch;
use event_value::{Memory, Seq};
use field_forms::{
    Field, FormOf, RunForm, Unread, Unreadable, append_list, append_option, decode_whole,
    encode_whole, take_list, take_option,
};
use std::alloc::Global;
use tick_time::Moment;

/// The bytes of a batch.
///
/// # Errors
/// `Memory` where there was none for them, or where a list or a text in it has 2^32 items or more.
pub fn encode_batch(alloc: Global, batch: &Batch) -> Result<Seq<u8>, Memory>
    ensures { IfOk result (λ bytes. IsSpelling batch_form batch.now bytes) }
{
    encode_whole::<Batch, CoredForm>(alloc, batch)
}

/// The batch whose bytes these are, and none exactly where they are no batch's. A batch of form 1
/// is read without its core.
///
/// # Errors
/// `Memory` where there was none for it.
pub fn decode_batch(alloc: Global, bytes: &[u8]) -> Result<Option<Batch>, Memory>
    ensures { IfOk result (λ batch. IsDecoded bytes.now batch) }
{
    match decode_whole::<Batch, CoredForm>(alloc, bytes)? {
        Some(batch) => Ok(Some(batch)),
        None => decode_coreless(alloc, bytes),
    }
}

// The batch of form 1 whose bytes these are, without its core.
fn decode_coreless(alloc: Global, bytes: &[u8]) -> Result<Option<Batch>, Memory>
    ensures { IfOk result (λ batch. IsDecodedCoreless bytes.now batch) }
{
    match decode_whole::<Batch, CorelessForm>(alloc, bytes)? {
        Some(batch) => Ok(Some(without_its_core(batch))),
        None => Ok(None),
    }
}

// The batch without its core.
fn without_its_core(batch: Batch) -> Batch
    ensures { result ≡ without_core batch }
{
    Batch {
        core: None,
        ..batch
    }
}

// Form 2, of which the core counts.
struct CoredForm;

impl FormOf<Batch> for CoredForm {
    ghost form = { batch_form };

    fn append(batch: &Batch, out: &mut Seq<u8>) -> Result<(), Memory> {
        out.push(CORED)?;
        append_body(batch, out)
    }

    fn take(alloc: Global, unread: &mut Unread<'_>) -> Result<Batch, Unreadable> {
        let number = u8::take(alloc, unread)?;
        if number == CORED {
            take_body(alloc, unread)
        } else {
            Err(Unreadable::Malformed)
        }
    }

    ghost sound = { IsForm-numbered_form 2 };

    ghost needs_bytes = { refl };
}

// Form 1, of which the core counts as absent.
struct CorelessForm;

impl FormOf<Batch> for CorelessForm {
    ghost form = { coreless_form };

    fn append(batch: &Batch, out: &mut Seq<u8>) -> Result<(), Memory> {
        out.push(CORELESS)?;
        append_body(batch, out)
    }

    fn take(alloc: Global, unread: &mut Unread<'_>) -> Result<Batch, Unreadable> {
        let number = u8::take(alloc, unread)?;
        if number == CORELESS {
            take_body(alloc, unread)
        } else {
            Err(Unreadable::Malformed)
        }
    }

    ghost sound = { IsForm-numbered_form 1 };

    ghost needs_bytes = { refl };
}

// The number of the form of which the core counts.
const CORED: u8 = 2;

// The number of the form of which the core counts as absent.
const CORELESS: u8 = 1;

// What stands behind the number of the form.
fn append_body(batch: &Batch, out: &mut Seq<u8>) -> Result<(), Memory>
    ensures bytes { OnOk result (out.new ≡ out.old ++ batch_body.spelling batch.now) }
    ensures fits { OnOk result (batch_body.fits batch.now ≡ true) }
{
    batch.upto.append(out)?;
    append_list::<_, OutputForm>(&batch.outputs, out)?;
    batch.drops.append(out)?;
    batch.positions.append(out)?;
    append_option::<_, RunForm>(&batch.core, out)
}

fn take_body(alloc: Global, unread: &mut Unread<'_>) -> Result<Batch, Unreadable>
    ensures { IsReading (batch_body.reading unread.old) result unread.new }
{
    let upto = Moment::take(alloc, unread)?;
    let outputs = take_list::<_, OutputForm>(alloc, unread)?;
    let drops = Seq::take(alloc, unread)?;
    let positions = Seq::take(alloc, unread)?;
    let core = take_option::<_, RunForm>(alloc, unread)?;
    Ok(Batch {
        outputs,
        drops,
        positions,
        upto,
        core,
    })
}
