//! `SubstreamMarks`, one mark for each substream that has a kept record.

ghost use Rattle.std.specs.Prelude.{◌≡◌, [], OnOk, OnErr};
ghost use Rattle.time_policy.specs.SubstreamMarks.{SetsMark, mark_in};

use event_value::{Memory, Seq, Value};
use std::alloc::Global;
use std::collections::BTreeMap;
use std::marker::Model;
use tick_time::Moment;

/// The marks of substreams by their keys. Contracts see the list of both, in order of the keys.
#[derive(Drop)]
pub struct SubstreamMarks {
    marks: BTreeMap<Vec<Value>, Moment>,
}

impl Model for SubstreamMarks {
    ghost use Rattle.time_policy.specs.SubstreamMarks.{Marks, marks_of};

    ghost Value = { Marks };

    ghost view = { λ s. marks_of s.marks };
}

impl SubstreamMarks {
    /// No marks. It takes no memory.
    pub fn none(alloc: Global) -> Self
        ensures { result ≡ [] }
    {
        SubstreamMarks {
            marks: BTreeMap::new(alloc),
        }
    }

    /// The mark of a substream that has one. It takes no memory.
    pub fn mark(&self, key: &[Value]) -> Option<Moment>
        ensures { result ≡ mark_in self.now key.now }
    {
        self.marks.get(key).copied()
    }

    /// Sets the mark of a substream. Only a new one takes memory.
    ///
    /// # Errors
    /// `Memory` where there was none; the marks are then as before.
    pub fn set(&mut self, alloc: Global, key: &[Value], mark: Moment) -> Result<(), Memory>
        ensures ok { OnOk result (SetsMark key.now mark self.old self.new) }
        ensures err { OnErr result (self.new ≡ self.old) }
    {
        match self.marks.get_mut(key) {
            Some(known) => {
                *known = mark;
                Ok(())
            }
            None => self.add(Seq::of(alloc, key)?.into_vec(), mark),
        }
    }

    fn add(&mut self, key: Vec<Value>, mark: Moment) -> Result<(), Memory>
        ensures ok { OnOk result (SetsMark key.items mark self.old self.new) }
        ensures err { OnErr result (self.new ≡ self.old) }
    {
        self.marks.insert(key, mark)?;
        Ok(())
    }
}
