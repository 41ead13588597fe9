//! A test on a file of the system.

use block_disk::{Disk, DiskErr};
use std::fs;
use std::test::Fail;
use system_disk::SystemDisk;

#[test]
fn a_file_of_the_system_is_a_disk(rt: HostRuntime) -> Result<(), Fail> {
    let mut disk = SystemDisk::open(&rt, "held");
    assert!(rt; disk.len() == Ok(0));
    assert!(rt; disk.write_at(0, b"abcde") == Ok(()));
    assert!(rt; disk.write_at(4, b"xy") == Ok(()));
    assert!(rt; disk.sync() == Ok(()));
    assert!(rt; disk.len() == Ok(6));
    let mut piece = [0; 3];
    assert!(rt; disk.read(3, &mut piece) == Ok(()));
    assert!(rt; piece == *b"dxy");
    assert!(rt; disk.read(4, &mut piece) == Err(DiskErr::Fault));
    drop(disk);
    assert!(rt; fs::read(&rt, "held")?.as_slice() == b"abcdxy".as_slice());
    let mut again = SystemDisk::open(&rt, "held");
    assert!(rt; again.len() == Ok(6));
    let mut missing = SystemDisk::open(&rt, "none/held");
    assert!(rt; missing.len() == Err(DiskErr::Fault));
    assert!(rt; missing.sync() == Err(DiskErr::Fault));
    Ok(())
}
