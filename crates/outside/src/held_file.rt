//! `HeldFile`, a file in memory.

use event_value::Text;

/// A file in memory: its name and its bytes.
#[derive(Drop)]
pub struct HeldFile {
    pub name: Text,
    pub bytes: Text,
}
