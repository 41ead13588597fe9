//! What a run reads and writes: files by name and a sink, each a trait with a written meaning.
//! `read_file` reads a file up to a limit; `write_all` writes all bytes, or a prefix of them.
//! What matters: clause `content` of `read_file`, clauses `ok` and `err` of `write_all`, and of both
//! `cause`: a fault is answered only where the count of faults has risen in the call.
//! The meaning: specs/KnownFiles.antt, specs/Segment.antt, specs/Written.antt, specs/Faults.antt.
//! `MemFiles` and `MemSink` are files and a sink in memory, of which chosen calls fail.
//! The adapters over real files and standard output are left to the program.
#![tactic(auto)]

mod failures;
mod files;
mod held_file;
mod mem_files;
mod mem_sink;
mod reading;
mod segment;
mod sink;
mod unread;
mod writing;

pub use files::{FileErr, Files};
pub use held_file::HeldFile;
pub use mem_files::MemFiles;
pub use mem_sink::MemSink;
pub use reading::read_file;
pub use segment::{ReadErr, Segment};
pub use sink::{Sink, SinkErr};
pub use writing::write_all;
