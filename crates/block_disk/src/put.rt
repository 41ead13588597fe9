//! `with_bytes_at`, a file with bytes put at a place.

ghost use Rattle.std.specs.Prelude.{◌≤◌, ◌≡◌, length, IfOk};
ghost use Rattle.block_disk.specs.Stops.{put};

use event_value::{Memory, Text};
use std::alloc::Global;

/// The file with these bytes put at a place, over what is there and past the end.
///
/// # Errors
/// `Memory` where there was none for the new file.
pub fn with_bytes_at(alloc: Global, file: &[u8], at: usize, bytes: &[u8]) -> Result<Text, Memory>
    requires { at ≤ length file.now }
    ensures { IfOk result (λ new. new ≡ put at bytes.now file.now) }
{
    let mut new = Text::of(alloc, &file[..at])?;
    new.extend(bytes)?;
    if bytes.len() < file.len() - at {
        new.extend(&file[at + bytes.len()..])?;
    }
    Ok(new)
}
