//! The log of the streams that a plan uses, read from files and fed to a core; and the snapshots of
//! the references that it names.
//! `read_batch` asks for the files of all places, by stream, partition and segment, and holds one of
//! them at a time. Each partition counts as ended, whatever the document says.
//! What matters: `read_batch`, clause `batch` (where the files tell what they hold), `asked` and
//! `cause`. The meaning: specs/Batch.antt (what all rows are), specs/Log.antt (the log that the files
//! hold), specs/Asking.antt (which files are asked for), over query_meaning's specs/Streams.antt.
//! `read_references` asks for the files of the snapshots, by reference, in order. What they hold:
//! specs/References.antt.
//! It prints no text: job_core makes the rows, preview_text puts them together.
#![tactic(auto)]

mod ended;
mod files;
mod items;
mod lanes;
mod named_read_err;
mod named_reading;
mod reading;
mod reference_rows;
mod references;

pub use named_read_err::NamedReadErr;
pub use named_reading::read_named;
pub use reading::read_batch;
pub use references::read_references;
