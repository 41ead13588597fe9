//! Sources of a document, walked side by side with those of another.

ghost use Rattle.std.specs.Prelude.{◌≡◌, ℕ, List, OnOk, IfErr};
ghost use Rattle.std.specs.List.{AllZip};
ghost use Rattle.input_extension.specs.Refusals.{IsDue, IsFirstRefused};
ghost use Rattle.input_extension.specs.declared.extend_err.ExtendErr.{ExtendErr};

use crate::ExtendErr;
use crate::extend_err::changed;
use event_value::Text;
use tick_time::Moment;

// A stream or a reference.
pub trait Source {
    ghost called: { Self → List ℕ };

    ghost Extends: { ℕ → Self → Self → Type 0 };

    ghost Refused: { ℕ → Self → Self → ExtendErr → Type 0 };

    // The name in queries.
    fn name(&self) -> &Text
        ensures { result.now ≡ called self.now };

    // Whether the source goes on as the new one, where rows are kept below a moment.
    fn extends(&self, new: &Self, w: Moment) -> Result<(), ExtendErr>
        ensures ok { OnOk result (Extends w self.now new.now) }
        ensures err { IfErr result (IsDue (Refused w self.now new.now)) };
}

// Whether each source goes on as the new one at its place, and none is new.
pub fn extend_all<S: Source>(old: &[S], new: &[S], w: Moment) -> Result<(), ExtendErr>
    ensures ok { OnOk result (AllZip (S.Extends w) old.now new.now) }
    ensures err { IfErr result (IsDue
        (IsFirstRefused S.called (S.Extends w) (S.Refused w) old.now new.now)) }
{
    for (index, source) in old.iter().enumerate() {
        match new.get(index) {
            Some(next) => source.extends(next, w)?,
            None => return Err(changed(source.name())),
        }
    }
    match new.get(old.len()) {
        Some(added) => Err(changed(added.name())),
        None => Ok(()),
    }
}
