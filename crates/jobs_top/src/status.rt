//! `Status`, how a call of the program ended.

ghost use Rattle.std.specs.Prelude.{◌≡◌};
ghost use Rattle.jobs_top.specs.Statuses.{status_number};

/// How a call of the program ended.
#[derive(Clone, Copy, PartialEq, Eq)]
pub enum Status {
    /// The command was carried out, and its text written.
    Done,
    /// The words are no command.
    Usage,
    /// The query has a refusal.
    Refused,
    /// A file could not be read.
    ReadFault,
    /// The text could not be written.
    OutFault,
    /// There was no memory.
    Memory,
}

impl Status {
    /// The number that the process ends with. It takes no memory.
    pub fn number(self) -> u8
        ensures { result ≡ status_number self }
    {
        match self {
            Status::Done => 0,
            Status::Usage => 2,
            Status::Refused => 3,
            Status::ReadFault => 5,
            Status::OutFault => 9,
            Status::Memory => 11,
        }
    }
}
