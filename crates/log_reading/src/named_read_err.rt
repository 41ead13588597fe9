//! `NamedReadErr`, why one of several files can't be read.

ghost use Rattle.std.specs.Prelude.{◌≡◌};
ghost use Rattle.log_reading.specs.declared.named_read_err.NamedReadErr.TheVariants.{Memory as no_memory};

use event_value::Text;

/// Why one of several files can't be read.
#[derive(Drop)]
pub enum NamedReadErr {
    /// The file of this name can't be read.
    Fault(Text),
    /// There was no memory.
    Memory,
}

impl From<event_value::Memory> for NamedReadErr {
    ghost from_gives = { λ _ error. error ≡ no_memory };

    fn from(_: event_value::Memory) -> Self {
        NamedReadErr::Memory
    }
}
