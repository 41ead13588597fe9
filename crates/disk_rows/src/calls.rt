//! Tests on a disk in memory of which chosen calls fail.

use block_disk::{Disk, DiskErr, MemDisk};
use event_value::{Memory, Seq, Text};
use std::alloc::Global;
use std::test::Fail;

/// A disk with these bytes that fails at the calls of these numbers.
pub fn disk_of(alloc: Global, bytes: &[u8], failing: &[u64]) -> Result<MemDisk, Memory> {
    let numbers = Seq::from_vec(Vec::from_slice(alloc, failing)?);
    MemDisk::failing_at(Text::of(alloc, bytes)?, numbers)
}

/// Whether bytes within the file are written at a place, or the disk answers that they aren't.
pub fn writes(disk: &mut MemDisk, at: usize, bytes: &[u8]) -> bool {
    at <= disk.bytes().len() && disk.write_at(at as u64, bytes).is_ok()
}

/// Whether a read of so many bytes from a place on gives these.
fn reads(disk: &mut MemDisk, at: usize, into: &mut [u8], wanted: &[u8]) -> bool {
    let length = disk.bytes().len();
    if at > length || into.len() > length - at {
        return false;
    }
    disk.read(at as u64, into).is_ok() && *into == *wanted
}

#[test]
fn a_write_covers_its_range_alone(rt: HostRuntime) -> Result<(), Fail> {
    let table: [(&str, usize, &str, &str); 6] = [
        ("", 0, "", ""),
        ("", 0, "xy", "xy"),
        ("abcde", 0, "xy", "xycde"),
        ("abcde", 3, "xy", "abcxy"),
        ("abcde", 4, "xy", "abcdxy"),
        ("abcde", 5, "xy", "abcdexy"),
    ];
    for &(before, at, bytes, after) in &table {
        let mut disk = disk_of(rt.alloc(), before.as_bytes(), &[])?;
        assert!(rt; writes(&mut disk, at, bytes.as_bytes()), "{before} {at}");
        assert!(rt; disk.bytes() == after.as_bytes(), "{before} {at}");
        assert!(rt; disk.len() == Ok(after.len() as u64), "{before} {at}");
    }
    Ok(())
}

#[test]
fn a_read_gives_the_bytes_from_its_place_on(rt: HostRuntime) -> Result<(), Fail> {
    let mut disk = MemDisk::of(Text::of(rt.alloc(), b"abcde")?)?;
    let table: [(usize, &str); 4] = [(0, "abc"), (1, "bcd"), (2, "cde"), (0, "abc")];
    for &(at, wanted) in &table {
        let mut piece = [0; 3];
        assert!(rt; reads(&mut disk, at, &mut piece, wanted.as_bytes()), "{at}");
    }
    let mut whole = [0; 5];
    assert!(rt; reads(&mut disk, 0, &mut whole, b"abcde"));
    assert!(rt; reads(&mut disk, 5, &mut [], b""));
    Ok(())
}

/// The answers to a write of "wxyz" over "abcde" at 3, a sync, a read of three bytes and a length,
/// and the file after them.
#[derive(Clone, Copy)]
struct Row {
    failing: &'static [u64],
    answers: [bool; 4],
    file: &'static str,
}

const ROWS: [Row; 7] = [
    Row {
        failing: &[],
        answers: [true, true, true, true],
        file: "abcwxyz",
    },
    Row {
        failing: &[0],
        answers: [false, true, true, true],
        file: "abcwx",
    },
    Row {
        failing: &[1],
        answers: [true, false, true, true],
        file: "abcwxyz",
    },
    Row {
        failing: &[2],
        answers: [true, true, false, true],
        file: "abcwxyz",
    },
    Row {
        failing: &[3],
        answers: [true, true, true, false],
        file: "abcwxyz",
    },
    Row {
        failing: &[4],
        answers: [true, true, true, true],
        file: "abcwxyz",
    },
    Row {
        failing: &[0, 1, 2, 3],
        answers: [false, false, false, false],
        file: "abcwx",
    },
];

#[test]
fn the_calls_of_the_list_fail_and_no_others(rt: HostRuntime) -> Result<(), Fail> {
    for row in &ROWS {
        let mut disk = disk_of(rt.alloc(), b"abcde", row.failing)?;
        assert!(rt;
            writes(&mut disk, 3, b"wxyz") == row.answers[0],
            "{}",
            row.file
        );
        assert!(rt; disk.sync().is_ok() == row.answers[1], "{}", row.file);
        assert!(rt;
            reads(&mut disk, 0, &mut [0; 3], b"abc") == row.answers[2],
            "{}",
            row.file
        );
        let length = disk.len();
        assert!(rt; length.is_ok() == row.answers[3], "{}", row.file);
        assert!(rt;
            length.is_err() || length == Ok(row.file.len() as u64),
            "{}",
            row.file
        );
        assert!(rt; disk.bytes() == row.file.as_bytes(), "{}", row.file);
    }
    Ok(())
}

#[test]
fn a_failing_call_says_so(rt: HostRuntime) -> Result<(), Fail> {
    let mut disk = disk_of(rt.alloc(), b"ab", &[0, 1])?;
    assert!(rt; disk.len() == Err(DiskErr::Fault));
    assert!(rt; disk.sync() == Err(DiskErr::Fault));
    assert!(rt; disk.sync() == Ok(()));
    Ok(())
}
