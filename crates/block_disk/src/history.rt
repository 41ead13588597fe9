//! `History`, a file with the calls that made it.

ghost use Rattle.std.specs.Prelude.{◌≤◌, ◌≡◌, Some, length, IfOk, OnOk, OnErr};
ghost use Rattle.block_disk.specs.Stops.{put, TornWrite, Follows};
ghost use Rattle.block_disk.specs.Stops.{NoFurtherImage, OnlyAsRead, Elapses};
ghost use Rattle.block_disk.specs.Images.{file_of, fresh_history, history_after, moment_of};
ghost use Rattle.block_disk.specs.Images.{IsImage, IsImageSince};

use crate::{Call, with_bytes_at};
use event_value::{Copies, Memory, Seq, Text};
use std::marker::Model;

/// A file as it was first, and the calls since. Its bytes as they are now are kept beside them.
#[derive(Drop)]
pub struct History {
    first: Text,
    calls: Seq<Call>,
    content: Text,
}

impl Model for History {
    ghost use Rattle.std.specs.Prelude.{◌≡◌};
    ghost use Rattle.block_disk.specs.Images.{FileHistory, file_of};

    ghost Value = { FileHistory };

    ghost view = { λ h. record { first = h.first; calls = h.calls } };

    ghost invariant = { λ h. h.content ≡ file_of (record { first = h.first; calls = h.calls }) };
}

impl History {
    /// A file before the first call.
    ///
    /// # Errors
    /// `Memory` where there was none for a copy.
    pub fn of(first: Text) -> Result<Self, Memory>
        ensures { IfOk result (λ history. history ≡ fresh_history first) }
    {
        Ok(History {
            content: first.copy()?,
            calls: Seq::empty(first.allocator()),
            first,
        })
    }

    /// The bytes as they are now.
    pub fn content(&self) -> &[u8]
        ensures { result.now ≡ file_of self.now }
    {
        self.content.items()
    }

    /// The bytes before the first call.
    pub fn first(&self) -> &[u8]
        ensures { result.now ≡ self.now.first }
    {
        self.first.items()
    }

    /// The calls, the oldest first.
    pub fn calls(&self) -> &[Call]
        ensures { result.now ≡ self.now.calls }
    {
        self.calls.items()
    }

    /// Puts a part of the bytes of a write at their place, and keeps the call.
    ///
    /// # Errors
    /// `Memory` where there was none; all is then as before.
    pub fn put(&mut self, at: u64, count: u64, part: &[u8]) -> Result<(), Memory>
        requires below { at ≤ length (file_of self.old) }
        requires within { length part.now ≤ count }
        ensures ok { OnOk result (
            self.new ≡ history_after (Call.Write at count part.now) self.old) }
        ensures err { OnErr result (self.new ≡ self.old) }
        ensures written { OnOk result (file_of self.new ≡ put at part.now (file_of self.old)) }
        ensures torn { TornWrite at count (file_of self.old) (file_of self.new) }
        ensures stop { Follows (TornWrite at count) (IsImage self.old) (IsImage self.new) }
        ensures time { Elapses (moment_of self.old) (moment_of self.new)
            (IsImageSince self.old) (IsImageSince self.new) (IsImage self.new) }
    {
        let alloc = self.content.allocator();
        let content = with_bytes_at(alloc, self.content.items(), at as usize, part)?;
        let part = Text::of(alloc, part)?;
        self.calls.push(Call::Write { at, count, part })?;
        self.content = content;
        Ok(())
    }

    /// Keeps a sync.
    ///
    /// # Errors
    /// `Memory` where there was none; all is then as before.
    pub fn sync(&mut self) -> Result<(), Memory>
        ensures ok { OnOk result (self.new ≡ history_after Call.Sync self.old) }
        ensures err { OnErr result (self.new ≡ self.old) }
        ensures content { file_of self.new ≡ file_of self.old }
        ensures durable { OnOk result (OnlyAsRead (Some (file_of self.old)) (IsImage self.new)) }
        ensures stop { NoFurtherImage (IsImage self.old) (IsImage self.new) }
        ensures time { Elapses (moment_of self.old) (moment_of self.new)
            (IsImageSince self.old) (IsImageSince self.new) (IsImage self.new) }
    {
        self.calls.push(Call::Sync)?;
        Ok(())
    }
}
