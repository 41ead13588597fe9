//! `open_settled`, which opens a file that is on the disk as it reads.

use std::fs::{self, File, OpenOptions};
use std::io;
use std::rt::Files;

/// Opens a file, or makes it, and brings it to the disk with its name in its folder. A link is
/// followed.
///
/// # Errors
/// As the system has them.
pub fn open_settled<R: Files<File = File> + AllocGlobal>(
    runtime: &R,
    path: &str,
) -> io::Result<File> {
    let file = OpenOptions::new()
        .read(true)
        .write(true)
        .create(true)
        .open(runtime, path)?;
    file.sync_all()?;
    sync_folder(runtime, path)?;
    Ok(file)
}

/// Brings the names in the folder of a file to the disk.
fn sync_folder<R: Files<File = File> + AllocGlobal>(runtime: &R, path: &str) -> io::Result<()> {
    let mut folder = fs::canonicalize(runtime, path)?;
    folder.pop();
    File::open(runtime, folder.as_path())?.sync_all()
}
