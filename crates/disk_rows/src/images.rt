//! Tests on what a stop may leave of a disk in memory.

use crate::calls::{disk_of, writes};
use block_disk::{Disk, MemDisk};
use event_value::{Memory, Text};
use std::alloc::Global;
use std::test::Fail;
use stop_images::images_since;

/// Whether a list has a file.
fn has(images: &[Text], file: &str) -> bool {
    images.iter().any(|image| image.items() == file.as_bytes())
}

/// Whether the images since a moment are these and no others, where '?' stands for any other byte.
fn leaves(alloc: Global, disk: &MemDisk, since: usize, wanted: &[&str]) -> Result<bool, Memory> {
    let images = images_since(alloc, disk, since, b'?')?;
    let listed = images.items();
    let all = wanted.iter().all(|file| has(listed, file));
    let only = listed.iter().all(|image| wanted
        .iter()
        .any(|file| image.items() == file.as_bytes()));
    Ok(all && only)
}

/// What a stop may leave of "ab" after a write of "xy" at 1.
const PAST_THE_END: [&str; 8] = ["ab", "a?", "ax", "a??", "ab?", "ax?", "aby", "axy"];

/// What a stop may leave of "abc" after a write of "x" at 1.
const ONE_BYTE: [&str; 3] = ["abc", "a?c", "axc"];

#[test]
fn a_write_is_torn_at_each_place(rt: HostRuntime) -> Result<(), Fail> {
    let alloc = rt.alloc();
    let mut disk = disk_of(alloc, b"ab", &[])?;
    assert!(rt; leaves(alloc, &disk, 0, &["ab"])?);
    assert!(rt; writes(&mut disk, 1, b"xy"));
    assert!(rt; leaves(alloc, &disk, 0, &PAST_THE_END)?);
    assert!(rt; leaves(alloc, &disk, 1, &PAST_THE_END)?);
    assert!(rt; leaves(alloc, &disk, 2, &[])?);
    let mut other = disk_of(alloc, b"abc", &[])?;
    assert!(rt; writes(&mut other, 1, b"x"));
    assert!(rt; leaves(alloc, &other, 0, &ONE_BYTE)?);
    Ok(())
}

#[test]
fn a_sync_leaves_what_is_read(rt: HostRuntime) -> Result<(), Fail> {
    let alloc = rt.alloc();
    let mut disk = disk_of(alloc, b"abc", &[1])?;
    assert!(rt; writes(&mut disk, 1, b"x"));
    assert!(rt; disk.sync().is_err());
    assert!(rt; leaves(alloc, &disk, 1, &ONE_BYTE)?);
    assert!(rt; disk.sync().is_ok());
    assert!(rt; leaves(alloc, &disk, 2, &["axc"])?);
    assert!(rt; leaves(alloc, &disk, 1, &ONE_BYTE)?);
    assert!(rt; writes(&mut disk, 0, b"y"));
    assert!(rt; leaves(alloc, &disk, 2, &["axc", "?xc", "yxc"])?);
    assert!(rt; leaves(alloc, &disk, 0, &["abc", "a?c", "axc", "?xc", "yxc"])?);
    Ok(())
}

#[test]
fn a_failing_write_counts_as_written(rt: HostRuntime) -> Result<(), Fail> {
    let alloc = rt.alloc();
    let mut disk = disk_of(alloc, b"ab", &[0])?;
    assert!(rt; !writes(&mut disk, 1, b"xy"));
    assert!(rt; disk.bytes() == b"ax".as_slice());
    assert!(rt; leaves(alloc, &disk, 0, &["ab", "a?", "ax", "a??", "ab?", "ax?"])?);
    assert!(rt; disk.sync().is_ok());
    assert!(rt; leaves(alloc, &disk, 2, &["ax"])?);
    Ok(())
}

#[test]
fn two_writes_are_torn_apart(rt: HostRuntime) -> Result<(), Fail> {
    let alloc = rt.alloc();
    let mut disk = disk_of(alloc, b"a", &[])?;
    assert!(rt; writes(&mut disk, 1, b"b"));
    assert!(rt; writes(&mut disk, 0, b"c"));
    let wanted = ["a", "a?", "ab", "?", "??", "?b", "c", "c?", "cb"];
    assert!(rt; leaves(alloc, &disk, 2, &wanted)?);
    Ok(())
}
