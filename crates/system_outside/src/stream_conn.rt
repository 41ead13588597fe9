//! `StreamConn`, a connection over a stream. What is read and written isn't known to a contract.

ghost use Rattle.std.specs.Prelude.{◌≡◌, ◌≤◌, None};
ghost use Rattle.outside.specs.Faults.{HasRisen};

use connections::{Conn, ConnErr};
use std::io::{Read, Write};

/// A connection over a stream, such as one of TCP.
#[derive(Drop)]
pub struct StreamConn<S> {
    stream: S,
    faults: u64,
}

impl<S> StreamConn<S> {
    /// The connection over this stream.
    pub fn of(stream: S) -> Self {
        StreamConn { stream, faults: 0 }
    }

    // Counts a fault.
    fn fault(&mut self) -> ConnErr
        ensures fault { result ≡ ConnErr.Fault }
        ensures never_falls { self.old.faults ≤ self.new.faults }
        ensures risen { HasRisen self.old.faults self.new.faults }
    {
        self.faults = self.faults.saturating_add(1);
        ConnErr::Fault
    }
}

impl<S: Read + Write> Conn for StreamConn<S> {
    ghost left = { λ _. None };

    ghost written = { λ _. None };

    ghost faults = { λ c. c.faults };

    fn read(&mut self, into: &mut [u8]) -> Result<usize, ConnErr> {
        match self.stream.read(into) {
            Ok(count) => Ok(count),
            Err(_) => Err(self.fault()),
        }
    }

    fn write(&mut self, bytes: &[u8]) -> Result<usize, ConnErr> {
        match self.stream.write(bytes) {
            Ok(count) if count > 0 || bytes.is_empty() => Ok(count),
            _ => Err(self.fault()),
        }
    }
}
