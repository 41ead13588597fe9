//! Which images a stop may leave of a disk in memory, listed, so that tests can walk them.
//! `images_since` lists them for every moment since one of the disk's own clock: each write that
//! wasn't synced is left out, whole, or torn at each place, with each length.
//! What matters: clauses `images` and `as_read` of `images_since`: what is listed is an image, and
//! the file as it reads is listed. That each tear is listed no clause says: disk_rows has rows.
//! The meaning: specs/Images.antt of block_disk; specs/Listed.antt.
#![tactic(auto)]

mod images;
mod tear;
mod walk;

pub use images::images_since;
