//! `SystemDisk`, a file of the system as a disk.

ghost use Rattle.std.specs.Prelude.{◌≤◌, ◌≡◌, None, Ok, IfOk, IsErr};
ghost use Rattle.outside.specs.Faults.{HasRisen};
ghost use Rattle.system_disk.specs.UnknownLaws.{nothing_known};

use crate::opening::open_settled;
use block_disk::{Disk, DiskErr};
use std::fs::File;
use std::io;
use std::os::unix::fs::FileExt;
use std::rt::Files;

/// A file of the system as a disk. After a sync that failed the system may have let go of what was
/// written, and a later sync would not tell: the file is given up, and each call answers a fault.
#[derive(Drop)]
pub struct SystemDisk {
    file: Option<File>,
    faults: u64,
}

impl SystemDisk {
    /// The file of a path, which is made where it isn't there. Where it can't be opened or brought
    /// to the disk, each call answers a fault.
    pub fn open<R: Files<File = File> + AllocGlobal>(runtime: &R, path: &str) -> Self {
        SystemDisk {
            file: open_settled(runtime, path).ok(),
            faults: 0,
        }
    }

    /// An answer of the system, of which a failure is counted.
    fn counted<T: Drop>(&mut self, answer: io::Result<T>) -> Result<T, DiskErr>
        ensures ok { IfOk answer (λ value. result ≡ Ok value) }
        ensures never_falls { self.old.faults ≤ self.new.faults }
        ensures cause { IsErr result → HasRisen self.old.faults self.new.faults }
    {
        match answer {
            Ok(value) => Ok(value),
            Err(_) => {
                self.faults = self.faults.saturating_add(1);
                Err(DiskErr::Fault)
            }
        }
    }
}

/// The open file.
///
/// # Errors
/// `NotFound` where there is none.
fn opened(file: &Option<File>) -> io::Result<&File> {
    match file {
        Some(file) => Ok(file),
        None => Err(io::ErrorKind::NotFound.into()),
    }
}

/// How many bytes the file has.
fn length(file: &Option<File>) -> io::Result<u64> {
    Ok(opened(file)?.metadata()?.len())
}

/// Fills `into` from a place on.
fn read_at(file: &Option<File>, at: u64, into: &mut [u8]) -> io::Result<()> {
    opened(file)?.read_exact_at(into, at)
}

/// Puts bytes at a place.
fn write_at(file: &Option<File>, at: u64, bytes: &[u8]) -> io::Result<()> {
    opened(file)?.write_all_at(bytes, at)
}

/// Brings the bytes and the length of the file to the disk.
fn sync(file: &Option<File>) -> io::Result<()> {
    opened(file)?.sync_data()
}

impl Disk for SystemDisk {
    ghost content = { λ _. None };

    ghost may_leave = { λ _ _. ⊥ };

    ghost moment = { λ _. 0 };

    ghost left_since = { λ _ _ _. ⊥ };

    ghost faults = { λ d. d.faults };

    ghost counts_now = { λ _ _ _ _ left. left };

    ghost only_now = { λ _ _ left. left };

    ghost since_earlier = { λ _ _ _ _ _ left. left };

    ghost as_it_reads = { λ _ c known. nothing_known c known };

    fn len(&mut self) -> Result<u64, DiskErr> {
        let answer = length(&self.file);
        self.counted(answer)
    }

    fn read(&mut self, at: u64, into: &mut [u8]) -> Result<(), DiskErr> {
        let answer = read_at(&self.file, at, into);
        self.counted(answer)
    }

    fn write_at(&mut self, at: u64, bytes: &[u8]) -> Result<(), DiskErr> {
        let answer = write_at(&self.file, at, bytes);
        self.counted(answer)
    }

    fn sync(&mut self) -> Result<(), DiskErr> {
        let answer = sync(&self.file);
        if answer.is_err() {
            self.file = None;
        }
        self.counted(answer)
    }
}
