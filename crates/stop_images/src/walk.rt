//! A file in memory and its images, from call to call.

ghost use Rattle.std.specs.Prelude.{◌≡◌, ◌∷◌, [], IfOk, OnOk};
ghost use Rattle.block_disk.specs.Images.{file_by};
ghost use Rattle.stop_images.specs.Listed.{AddsFiles, IsTornOf, ListsNext};

use crate::tear::TornRange;
use block_disk::{Call, with_bytes_at};
use event_value::{Copies, Memory, Seq, Text};

/// A list of one file.
///
/// # Errors
/// `Memory` where there was none for the copy.
pub fn list_of(file: &Text) -> Result<Seq<Text>, Memory>
    ensures { IfOk result (λ list. list ≡ file.now ∷ []) }
{
    let mut list = Seq::empty(file.allocator());
    list.push(file.copy()?)?;
    Ok(list)
}

/// What a read gives after a call.
///
/// # Errors
/// `Memory` where there was none for the file.
pub fn file_after_call(file: &Text, call: &Call) -> Result<Text, Memory>
    ensures { IfOk result (λ new. new ≡ file_by call.now file.now) }
{
    match call {
        Call::Write { at, part, .. } => {
            let bytes = file.items();
            let front = (*at as usize).min(bytes.len());
            with_bytes_at(file.allocator(), bytes, front, part.items())
        }
        Call::Sync => file.copy(),
    }
}

/// The images after a call, from those before it and the file as it reads then: that file, and
/// behind a write each image before it with its range torn. `other` stands for any other byte.
///
/// # Errors
/// `Memory` where there was none for a file.
pub fn images_after_call(
    images: &[Text],
    call: &Call,
    file: &Text,
    other: u8,
) -> Result<Seq<Text>, Memory>
    ensures { IfOk result (ListsNext images.now call.now file.now) }
{
    match call {
        Call::Write { at, count, part } => {
            let (at, count) = (*at as usize, *count as usize);
            let new = part.items();
            let mut next = list_of(file)?;
            push_torn_images(
                &mut next,
                images,
                &TornRange {
                    at,
                    count,
                    new,
                    other,
                },
            )?;
            Ok(next)
        }
        Call::Sync => list_of(file),
    }
}

/// Adds each of these images with the range torn at each place.
fn push_torn_images(next: &mut Seq<Text>, images: &[Text], range: &TornRange) -> Result<(), Memory>
    ensures { OnOk result (
        AddsFiles (IsTornOf range.now.at range.now.count images.now) next.old next.new) }
{
    'images: for image in images {
        range.push_torn(next, image.items())?;
    }
    Ok(())
}
