//! `TornRange`, the range of a write that a stop may leave torn.

ghost use Rattle.std.specs.Prelude.{◌≤◌, length, IfOk, OnOk};
ghost use Rattle.block_disk.specs.Stops.{TornWrite};
ghost use Rattle.stop_images.specs.Listed.{AddsFiles};

use block_disk::with_bytes_at;
use event_value::{Memory, Seq, Text};
use std::alloc::Global;

/// How the bytes of a range stand before and behind the place where it is torn.
#[derive(Clone, Copy)]
enum Tear {
    /// The new bytes, then the old ones.
    NewThenOld,
    /// The new bytes, then others.
    NewThenOther,
    /// The old bytes, then the new ones.
    OldThenNew,
    /// Other bytes, then the old ones.
    OtherThenOld,
}

const TEARS: [Tear; 4] = [
    Tear::NewThenOld,
    Tear::NewThenOther,
    Tear::OldThenNew,
    Tear::OtherThenOld,
];

/// The range of a write: where it begins, how many bytes it has, what was put there, and the byte
/// that stands for any other.
#[derive(Clone, Copy)]
pub struct TornRange<'a> {
    pub at: usize,
    pub count: usize,
    pub new: &'a [u8],
    pub other: u8,
}

/// The byte at a place, or another where there is none.
fn byte_at(bytes: &[u8], place: usize, other: u8) -> u8 {
    match bytes.get(place) {
        Some(byte) => *byte,
        None => other,
    }
}

impl<'a> TornRange<'a> {
    /// A byte of the range torn at a place.
    fn torn_byte(&self, old: &[u8], tear: Tear, cut: usize, place: usize) -> u8 {
        let is_new = match tear {
            Tear::NewThenOld | Tear::NewThenOther => place < cut,
            Tear::OldThenNew => place >= cut,
            Tear::OtherThenOld => false,
        };
        if is_new {
            return byte_at(self.new, place, self.other);
        }
        match tear {
            Tear::OldThenNew => byte_at(old, place, self.other),
            _ => self.other,
        }
    }

    /// How many bytes of the range torn at a place are not the old ones behind it.
    fn end(&self, tear: Tear, cut: usize) -> usize
        ensures { result ≤ self.now.count }
    {
        match tear {
            Tear::NewThenOld | Tear::OtherThenOld => cut.min(self.count),
            Tear::NewThenOther | Tear::OldThenNew => self.count,
        }
    }

    /// These bytes.
    fn torn_bytes(&self, alloc: Global, old: &[u8], tear: Tear, cut: usize) -> Result<Text, Memory>
        ensures { IfOk result (λ bytes. length bytes ≤ self.now.count) }
    {
        let mut bytes = Text::empty(alloc);
        'places: for place in 0..self.end(tear, cut) {
            bytes.push(self.torn_byte(old, tear, cut, place))?;
        }
        Ok(bytes)
    }

    /// Adds the images of a file with the range torn at one place.
    fn push_torn_at(&self, images: &mut Seq<Text>, old: &[u8], cut: usize) -> Result<(), Memory>
        requires { self.now.at ≤ length old.now }
        ensures { OnOk result (
            AddsFiles (TornWrite self.now.at self.now.count old.now) images.old images.new) }
    {
        let alloc = images.allocator();
        'tears: for tear in &TEARS {
            let bytes = self.torn_bytes(alloc, &old[self.at..], *tear, cut)?;
            images.push(with_bytes_at(alloc, old, self.at, bytes.items())?)?;
        }
        Ok(())
    }

    /// Adds the images of a file with the range torn at each place; the file itself where it ends
    /// before the range.
    ///
    /// # Errors
    /// `Memory` where there was none for a file.
    pub fn push_torn(&self, images: &mut Seq<Text>, old: &[u8]) -> Result<(), Memory>
        ensures { OnOk result (
            AddsFiles (TornWrite self.now.at self.now.count old.now) images.old images.new) }
    {
        if self.at > old.len() {
            images.push(Text::of(images.allocator(), old)?)?;
            return Ok(());
        }
        'cuts: for cut in 0..self.count.saturating_add(1) {
            self.push_torn_at(images, old, cut)?;
        }
        Ok(())
    }
}
