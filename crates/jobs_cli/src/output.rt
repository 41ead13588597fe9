//! A writer of the system as a sink. What it has taken isn't known to a contract.

ghost use Rattle.std.specs.Prelude.{◌≤◌, None};
ghost use Rattle.outside.specs.Faults.{HasRisen};

use outside::{Sink, SinkErr};
use std::io::Write;

/// A sink over a writer, such as standard output.
#[derive(Drop)]
pub struct Output<W: Write> {
    writer: W,
    faults: u64,
}

impl<W: Write> Output<W> {
    /// The sink over this writer.
    pub fn of(writer: W) -> Self {
        Output { writer, faults: 0 }
    }
}

impl<W: Write> Sink for Output<W> {
    ghost written = { λ _. None };

    ghost faults = { λ o. o.faults };

    fn write(&mut self, bytes: &[u8]) -> Result<usize, SinkErr> {
        match self.writer.write(bytes) {
            Ok(count) if count > 0 || bytes.is_empty() => Ok(count),
            _ => {
                self.faults = self.faults.saturating_add(1);
                Err(SinkErr::Fault)
            }
        }
    }
}
