//! Parts that say the same, and lists with further items behind them.

ghost use Rattle.std.specs.Prelude.{◌≡◌, ◌↔◌, IsTrue};
ghost use Rattle.input_extension.specs.Extension.{IsGrown};

use event_value::{Column, Policy, Text};
use input_types::{SegmentName, SnapshotName};

// A part of a document, compared by what it says.
pub trait Same {
    fn is_same(&self, other: &Self) -> bool
        ensures { IsTrue result ↔ (self.now ≡ other.now) };
}

impl Same for Text {
    fn is_same(&self, other: &Self) -> bool {
        self.items() == other.items()
    }
}

impl Same for Column {
    fn is_same(&self, other: &Self) -> bool {
        self.kind == other.kind
            && self.name.is_same(&other.name)
            && are_same(self.path.items(), other.path.items())
    }
}

impl Same for SegmentName {
    fn is_same(&self, other: &Self) -> bool {
        self.through == other.through && self.file.is_same(&other.file)
    }
}

impl Same for SnapshotName {
    fn is_same(&self, other: &Self) -> bool {
        self.effective == other.effective && self.file.is_same(&other.file)
    }
}

impl Same for Policy {
    fn is_same(&self, other: &Self) -> bool {
        self.late == other.late
            && self.disorder == other.disorder
            && self.adjust == other.adjust
            && self.skew == other.skew
    }
}

// Whether the new list is the old one with further items behind it.
pub fn is_grown<T: Same>(old: &[T], new: &[T]) -> bool
    ensures { IsTrue result ↔ IsGrown old.now new.now }
{
    for (index, item) in old.iter().enumerate() {
        match new.get(index) {
            Some(other) if item.is_same(other) => {}
            _ => return false,
        }
    }
    true
}

// Whether two lists are the same.
pub fn are_same<T: Same>(one: &[T], other: &[T]) -> bool
    ensures { IsTrue result ↔ (one.now ≡ other.now) }
{
    one.len() == other.len() && is_grown(one, other)
}
