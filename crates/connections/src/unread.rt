//! `Unread`, what is left to read of a text.

ghost use Rattle.std.specs.Prelude.{◌≡◌, take, drop, length, min};

use event_value::Text;
use std::marker::Model;

/// What is left to read of a text. Contracts see it as that list of bytes.
#[derive(Drop)]
pub struct Unread {
    text: Text,
    at: usize,
}

impl Model for Unread {
    ghost use Rattle.std.specs.Prelude.{List, ℕ, drop, length, ◌≤◌};

    ghost Value = { List ℕ };

    ghost view = { λ u. drop u.at u.text };

    ghost invariant = { λ u. u.at ≤ length u.text };
}

impl Unread {
    /// All of a text.
    pub fn of(text: Text) -> Self
        ensures { result ≡ text }
    {
        Unread { text, at: 0 }
    }

    /// Takes a prefix away, as much as there is and as fits.
    pub fn read(&mut self, into: &mut [u8]) -> usize
        ensures count { result ≡ min (length self.old) (length into.old) }
        ensures left { self.new ≡ drop result self.old }
        ensures bytes { take result into.new ≡ take result self.old }
    {
        let left = &self.text.items()[self.at..];
        let count = left.len().min(into.len());
        into[..count].copy_from_slice(&left[..count]);
        self.at += count;
        count
    }
}
