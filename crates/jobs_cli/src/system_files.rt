//! The files of the system. What they hold isn't known to a contract.

ghost use Rattle.std.specs.Prelude.{◌≡◌, ◌≤◌, None};
ghost use Rattle.outside.specs.Faults.{HasRisen};

use outside::{FileErr, Files};
use std::io::Read;
use std::{fs, rt};

/// Files by their paths, one of which is read at a time.
#[derive(Drop)]
pub struct SystemFiles<'a, R: rt::Files> {
    runtime: &'a R,
    present: Option<R::File>,
    faults: u64,
}

impl<'a, R: rt::Files> SystemFiles<'a, R> {
    /// The files of this runtime.
    pub fn of(runtime: &'a R) -> Self {
        SystemFiles {
            runtime,
            present: None,
            faults: 0,
        }
    }

    /// Counts a fault.
    fn fault(&mut self) -> FileErr
        ensures fault { result ≡ FileErr.Fault }
        ensures never_falls { self.old.faults ≤ self.new.faults }
        ensures risen { HasRisen self.old.faults self.new.faults }
    {
        self.faults = self.faults.saturating_add(1);
        FileErr::Fault
    }
}

impl<'a, R: rt::Files> Files for SystemFiles<'a, R> {
    ghost known = { λ _. None };

    ghost faults = { λ f. f.faults };

    fn begin(&mut self, name: &[u8]) -> Result<(), FileErr> {
        self.present = None;
        let Ok(path) = std::str::from_utf8(name) else {
            return Err(self.fault());
        };
        match fs::open(self.runtime, path) {
            Ok(file) => {
                self.present = Some(file);
                Ok(())
            }
            Err(_) => Err(self.fault()),
        }
    }

    fn read(&mut self, into: &mut [u8]) -> Result<usize, FileErr> {
        let Some(file) = &mut self.present else {
            return Ok(0);
        };
        match file.read(into) {
            Ok(count) => Ok(count),
            Err(_) => Err(self.fault()),
        }
    }
}
