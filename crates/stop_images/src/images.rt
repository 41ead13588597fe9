//! `images_since`, the list of images.

ghost use Rattle.std.specs.Prelude.{◌≤◌, ◌≡◌, ◌++◌, length, All, Contains, IfOk, OnOk};
ghost use Rattle.block_disk.specs.Images.{file_of, moment_of, IsImageSince};
ghost use Rattle.stop_images.specs.Listed.{history_of, AddsSince};

use crate::walk::{file_after_call, images_after_call, list_of};
use block_disk::{Call, MemDisk};
use event_value::{Copies, Memory, Seq, Text};
use std::alloc::Global;

/// Images that a stop may have left since a moment, by how many writes and syncs the disk had then
/// carried out. For each write that wasn't synced, of each place in its range: the new bytes before
/// it alone, or with other bytes behind; the old bytes before it and the new ones behind; other
/// bytes before it alone. `other` stands for any other byte.
///
/// # Errors
/// `Memory` where there was none for a file.
pub fn images_since(
    alloc: Global,
    disk: &MemDisk,
    since: usize,
    other: u8,
) -> Result<Seq<Text>, Memory>
    ensures images { IfOk result (All (IsImageSince disk.now.history since)) }
    ensures as_read { since ≤ moment_of disk.now.history
        → IfOk result (λ images. Contains images (file_of disk.now.history)) }
{
    images_of_calls(alloc, disk.first(), disk.calls(), since, other)
}

/// Adds copies of files to a list.
fn append(list: &mut Seq<Text>, files: &[Text]) -> Result<(), Memory>
    ensures { OnOk result (list.new ≡ list.old ++ files.now) }
{
    'files: for file in files {
        list.push(file.copy()?)?;
    }
    Ok(())
}

/// Adds copies of the images of a moment to a list, where it isn't before `since`.
fn append_since(
    listed: &mut Seq<Text>,
    images: &[Text],
    moment: usize,
    since: usize,
) -> Result<(), Memory>
    ensures { OnOk result (AddsSince since moment images.now listed.old listed.new) }
{
    if moment < since {
        return Ok(());
    }
    append(listed, images)
}

/// The images by what a file was first and the calls since, the oldest first.
fn images_of_calls(
    alloc: Global,
    first: &[u8],
    calls: &[Call],
    since: usize,
    other: u8,
) -> Result<Seq<Text>, Memory>
    ensures images { IfOk result (All (IsImageSince (history_of first.now calls.now) since)) }
    ensures as_read { since ≤ length calls.now
        → IfOk result (λ images. Contains images (file_of (history_of first.now calls.now))) }
{
    let mut file = Text::of(alloc, first)?;
    let mut images = list_of(&file)?;
    let mut listed = Seq::empty(alloc);
    let mut moment = 0;
    append_since(&mut listed, images.items(), moment, since)?;
    'calls: for call in calls {
        file = file_after_call(&file, call)?;
        images = images_after_call(images.items(), call, &file, other)?;
        moment += 1;
        append_since(&mut listed, images.items(), moment, since)?;
    }
    Ok(listed)
}
