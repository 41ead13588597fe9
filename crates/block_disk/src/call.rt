//! `Call`, what a disk in memory keeps of a call.

use event_value::Text;

/// A call that a disk in memory has carried out.
#[derive(Drop)]
pub enum Call {
    /// So many bytes were to be put at a place; this part of them is what a read gives.
    Write { at: u64, count: u64, part: Text },
    /// All was brought to the disk.
    Sync,
}
