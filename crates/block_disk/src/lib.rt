//! One file on a disk: what a read gives, and what a stop of the machine may leave of it.
//! `Disk` is a trait with a written meaning; an image is a file that a stop may leave.
//! What matters: clauses `written`, `torn` and `stop` of `write_at`, `durable` of `sync`, and of
//! each call `time`, which speaks of a stop inside it, and `cause`, by which a fault has a reason.
//! The meaning: specs/Stops.antt; that of a disk in memory: specs/Images.antt, specs/MemDisk.antt.
//! `MemDisk` is a disk in memory that keeps its calls, and of which chosen calls fail.
//! The adapter over a real file is system_disk's; a list of images for tests is stop_images'.
#![tactic(auto)]

mod call;
mod disk;
mod history;
mod mem_disk;
mod put;

pub use call::Call;
pub use disk::{Disk, DiskErr};
pub use mem_disk::MemDisk;
pub use put::with_bytes_at;
