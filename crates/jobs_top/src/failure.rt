//! `Failure`, why a command has no text.

ghost use Rattle.std.specs.Prelude.{◌≡◌};
ghost use Rattle.jobs_top.specs.Failures.{failure_of_read, no_memory, status_of};

use crate::Status;
use event_value::{Memory, Text};
use input_book::InputErr;
use log_reading::NamedReadErr;
use query_parse::ParseErr;
use query_type::TypeErr;

/// Why a command has no text.
#[derive(Drop)]
pub enum Failure {
    /// The query has this refusal as a text.
    Query(ParseErr),
    /// The inputs document has this refusal.
    Inputs(InputErr),
    /// The query has this refusal over the inputs.
    Plan(TypeErr),
    /// The file of this name can't be read.
    Read(Text),
    /// There was no memory.
    Memory,
}

impl From<Memory> for Failure {
    ghost from_gives = { λ _ failure. failure ≡ no_memory };

    fn from(_: Memory) -> Self {
        Failure::Memory
    }
}

impl From<NamedReadErr> for Failure {
    ghost from_gives = { λ error failure. failure ≡ failure_of_read error };

    fn from(error: NamedReadErr) -> Self {
        match error {
            NamedReadErr::Fault(name) => Failure::Read(name),
            NamedReadErr::Memory => Failure::Memory,
        }
    }
}

impl Failure {
    /// The status of the call.
    pub fn status(&self) -> Status
        ensures { result ≡ status_of self.now }
    {
        match self {
            Failure::Query(_) | Failure::Inputs(_) | Failure::Plan(_) => Status::Refused,
            Failure::Read(_) => Status::ReadFault,
            Failure::Memory => Status::Memory,
        }
    }
}
