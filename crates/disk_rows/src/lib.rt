//! Files on disks, worked out by hand. Tests alone.
//! What matters: calls.rt (what a disk in memory gives where chosen calls fail), images.rt (what a
//! stop may leave of it, byte by byte), files.rt (a file of the system).
//! It gives no function: those that it calls are those of block_disk, stop_images and system_disk.
#![tactic(auto)]

#[cfg(test)]
mod calls;
#[cfg(test)]
mod files;
#[cfg(test)]
mod images;
