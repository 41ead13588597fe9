//! Streams that go on.

ghost use Rattle.std.specs.Prelude.{◌≡◌, ◌⊎◌, ◌↔◌, IsTrue, length};
ghost use Rattle.std.specs.List.{AllZip};
ghost use Rattle.input_extension.specs.Extension.{IsPartitionKept, IsStreamExtension, IsStreamKept, StaysEnded};
ghost use Rattle.input_extension.specs.Refusals.{IsStreamRefused};
ghost use Rattle.input_extension.specs.declared.extend_err.ExtendErr.TheVariants.{AfterEnd, Memory};

use crate::ExtendErr;
use crate::extend_err::changed;
use crate::same::{Same, are_same, is_grown};
use crate::source::Source;
use event_value::{Copies, Text};
use input_types::{Partition, Stream};
use tick_time::Moment;

// Whether each partition has the segments that it had, and perhaps further ones.
fn are_kept(old: &[Partition], new: &[Partition]) -> bool
    ensures { IsTrue result ↔ AllZip IsPartitionKept old.now new.now }
{
    if old.len() != new.len() {
        return false;
    }
    for (index, partition) in old.iter().enumerate() {
        if !is_grown(partition.segments.items(), new[index].segments.items()) {
            return false;
        }
    }
    true
}

// Whether a partition that has ended has no further segment, and is still ended.
fn stays_ended(old: &Partition, new: &Partition) -> bool
    ensures { IsTrue result ↔ StaysEnded old.now new.now }
{
    !old.ended || new.ended && new.segments.items().len() == old.segments.items().len()
}

// The same of each partition of as many.
fn all_stay_ended(old: &[Partition], new: &[Partition]) -> bool
    requires { length new.now ≡ length old.now }
    ensures { IsTrue result ↔ AllZip StaysEnded old.now new.now }
{
    for (index, partition) in old.iter().enumerate() {
        if !stays_ended(partition, &new[index]) {
            return false;
        }
    }
    true
}

// Whether all that a stream had is there as it was.
fn is_kept(old: &Stream, new: &Stream) -> bool
    ensures { IsTrue result ↔ IsStreamKept old.now new.now }
{
    old.format == new.format
        && old.name.is_same(&new.name)
        && are_same(old.columns.items(), new.columns.items())
        && are_kept(old.partitions.items(), new.partitions.items())
}

// The refusal of a stream with a partition that goes on behind its end.
fn after_end(name: &Text) -> ExtendErr
    ensures { (result ≡ Memory) ⊎ (result ≡ AfterEnd name.now) }
{
    match name.copy() {
        Ok(name) => ExtendErr::AfterEnd(name),
        Err(memory) => memory.into(),
    }
}

impl Source for Stream {
    ghost called = { λ stream. stream.name };

    ghost Extends = { λ w old new. IsStreamExtension old new };

    ghost Refused = { λ w old new e. IsStreamRefused old new e };

    fn name(&self) -> &Text {
        &self.name
    }

    fn extends(&self, new: &Self, _w: Moment) -> Result<(), ExtendErr> {
        if !is_kept(self, new) {
            return Err(changed(&self.name));
        }
        if !all_stay_ended(self.partitions.items(), new.partitions.items()) {
            return Err(after_end(&self.name));
        }
        Ok(())
    }
}
