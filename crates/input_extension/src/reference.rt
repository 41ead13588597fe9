//! References that go on.

ghost use Rattle.std.specs.Prelude.{◌≡◌, ◌↔◌, IsTrue};
ghost use Rattle.input_extension.specs.Extension.{IsReferenceExtension, IsReferenceKept};
ghost use Rattle.input_extension.specs.Refusals.{IsReferenceRefused, first_early};

use crate::ExtendErr;
use crate::extend_err::changed;
use crate::same::{Same, are_same, is_grown};
use crate::source::Source;
use event_value::Text;
use input_types::{Reference, SnapshotName};
use tick_time::Moment;

// Whether all that a reference had is there as it was.
fn is_kept(old: &Reference, new: &Reference) -> bool
    ensures { IsTrue result ↔ IsReferenceKept old.now new.now }
{
    old.format == new.format
        && old.name.is_same(&new.name)
        && are_same(old.columns.items(), new.columns.items())
        && is_grown(old.snapshots.items(), new.snapshots.items())
}

// From when on the first of these snapshots is in force that is so below a moment.
fn first_early(snapshots: &[SnapshotName], w: Moment) -> Option<Moment>
    ensures { result ≡ first_early w snapshots.now }
{
    for snapshot in snapshots {
        if snapshot.effective < w {
            return Some(snapshot.effective);
        }
    }
    None
}

impl Source for Reference {
    ghost called = { λ reference. reference.name };

    ghost Extends = { λ w old new. IsReferenceExtension w old new };

    ghost Refused = { λ w old new e. IsReferenceRefused w old new e };

    fn name(&self) -> &Text {
        &self.name
    }

    fn extends(&self, new: &Self, w: Moment) -> Result<(), ExtendErr> {
        if !is_kept(self, new) {
            return Err(changed(&self.name));
        }
        let (_, further) = new.snapshots.items().split_at(self.snapshots.items().len());
        match first_early(further, w) {
            Some(effective) => Err(ExtendErr::SnapshotTooEarly { effective, w }),
            None => Ok(()),
        }
    }
}
