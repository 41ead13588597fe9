//! A file of the system as a disk: `SystemDisk::open` gives the `Disk` of a path.
//! What matters: clauses `never_falls` and `cause` of each call. What a file of the system holds no
//! contract can know, so `content` tells nothing here; disk_rows tries it over a real file.
//! A sync asks the system to bring all to the disk, and a file that is opened is brought there
//! first, with its name in its folder.
//! The meaning of the calls is block_disk's.
#![tactic(auto)]

mod opening;
mod system_disk;

pub use system_disk::SystemDisk;
