//! `Text`, the bytes of a text.

ghost use Rattle.std.specs.Prelude.{◌≡◌, [], ◌∷◌, ◌++◌, IfOk, OnOk, OnErr};

use crate::{Copies, Seq};
use std::alloc::Global;
use std::marker::Model;
use tick_time::Memory;

/// A text, as the bytes that it was read from. Contracts see it as the list of its bytes.
/// Texts are ordered by their bytes.
#[derive(Drop, PartialEq, Eq, PartialOrd, Ord)]
pub struct Text {
    bytes: Seq<u8>,
}

impl Model for Text {
    ghost use Rattle.std.specs.Prelude.{List, ℕ};

    ghost Value = { List ℕ };

    ghost view = { λ t. t.bytes };

    ghost inverse = { λ b. record { bytes = b } };
}

impl Text {
    /// The text with no bytes. It takes no memory.
    pub fn empty(alloc: Global) -> Self
        ensures { result ≡ [] }
    {
        Text {
            bytes: Seq::empty(alloc),
        }
    }

    /// The text of these bytes. It takes no memory.
    pub fn from_vec(bytes: Vec<u8>) -> Self
        ensures { result ≡ bytes.items }
    {
        Text {
            bytes: Seq::from_vec(bytes),
        }
    }

    /// The text of a copy of these bytes.
    ///
    /// # Errors
    /// `Memory` where there was none for the copy.
    pub fn of(alloc: Global, items: &[u8]) -> Result<Self, Memory>
        ensures { IfOk result (λ text. text ≡ items.now) }
    {
        Ok(Text {
            bytes: Seq::from_vec(Vec::from_slice(alloc, items)?),
        })
    }

    /// Adds a byte at the end.
    ///
    /// # Errors
    /// `Memory` where the text could not grow; the text is then as before.
    pub fn push(&mut self, item: u8) -> Result<(), Memory>
        ensures ok { OnOk result (self.new ≡ self.old ++ item ∷ []) }
        ensures err { OnErr result (self.new ≡ self.old) }
    {
        self.bytes.push(item)
    }

    /// Adds bytes at the end.
    ///
    /// # Errors
    /// `Memory` where the text could not grow; the text is then as before.
    pub fn extend(&mut self, items: &[u8]) -> Result<(), Memory>
        ensures ok { OnOk result (self.new ≡ self.old ++ items.now) }
        ensures err { OnErr result (self.new ≡ self.old) }
    {
        self.bytes.extend(items)
    }

    /// The allocator that the text keeps.
    pub fn allocator(&self) -> Global {
        self.bytes.allocator()
    }

    /// The bytes in order. It takes no memory.
    pub fn items(&self) -> &[u8]
        ensures { result.now ≡ self.now }
    {
        self.bytes.items()
    }
}

impl Copies for Text {
    fn copy(&self) -> Result<Self, Memory> {
        Text::of(self.allocator(), self.items())
    }
}
