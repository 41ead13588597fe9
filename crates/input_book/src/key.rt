//! Keys within a table of the document.

ghost use Rattle.std.specs.Prelude.{◌≡◌, IfOk};
ghost use Rattle.input_book.specs.Key.{key_text};

use event_value::{Memory, Text};
use std::alloc::Global;
use value_text::push_number;

// The key of what stands in a table.
#[derive(Clone, Copy)]
pub enum Key<'a> {
    // A member.
    Member(&'a str),
    // An entry of the list that a member is, by its index.
    Entry(&'a str, usize),
}

impl Key<'_> {
    // The key as it is told.
    pub fn text(self, alloc: Global) -> Result<Text, Memory>
        ensures { IfOk result (λ text. text ≡ key_text self.entry) }
    {
        match self {
            Key::Member(name) => Text::of(alloc, name.as_bytes()),
            Key::Entry(list, index) => {
                let mut text = Text::of(alloc, list.as_bytes())?;
                text.push(b'[')?;
                push_number(&mut text, index as u64)?;
                text.push(b']')?;
                Ok(text)
            }
        }
    }
}
