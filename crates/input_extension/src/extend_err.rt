//! Why an inputs document doesn't go on from another.

ghost use Rattle.std.specs.Prelude.{◌≡◌, ◌⊎◌};
ghost use Rattle.input_extension.specs.declared.extend_err.ExtendErr.TheVariants.{Changed, Memory};

use event_value::{Copies, Text};
use tick_time::Moment;

/// The first part of a document that doesn't go on from the one before it. Streams are walked
/// first, then references, then the policies; at one source the causes are tested in this order.
#[derive(Drop, PartialEq, Eq)]
pub enum ExtendErr {
    /// The source of this name isn't there as it was, or is new; `policy` for the policies.
    Changed(Text),
    /// A partition of the stream of this name had ended, and has a further segment or goes on.
    AfterEnd(Text),
    /// A new snapshot is in force from a moment that is below the one up to which rows are kept.
    SnapshotTooEarly {
        /// From when on the snapshot is in force.
        effective: Moment,
        /// The moment below which rows are kept.
        w: Moment,
    },
    /// There was no memory.
    Memory,
}

impl From<event_value::Memory> for ExtendErr {
    ghost from_gives = { λ _ e. e ≡ Memory };

    fn from(_: event_value::Memory) -> Self {
        ExtendErr::Memory
    }
}

// The refusal of a source that has changed, by its name.
pub fn changed(name: &Text) -> ExtendErr
    ensures { (result ≡ Memory) ⊎ (result ≡ Changed name.now) }
{
    match name.copy() {
        Ok(name) => ExtendErr::Changed(name),
        Err(memory) => memory.into(),
    }
}
