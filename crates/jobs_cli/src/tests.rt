//! The adapters over real files.

use crate::output::Output;
use crate::system_files::SystemFiles;
use outside::{ReadErr, Segment, read_file, write_all};
use std::fs;
use std::test::Fail;

#[test]
fn written_bytes_are_read_and_a_missing_file_is_a_fault(rt: HostRuntime) -> Result<(), Fail> {
    let alloc = rt.alloc();
    let mut out = Output::of(fs::create(&rt, "held.txt")?);
    assert!(rt; write_all(&mut out, b"ab\n").is_ok());
    assert!(rt; write_all(&mut out, b"cd").is_ok());
    let mut files = SystemFiles::of(&rt);
    match read_file(alloc, &mut files, b"held.txt", 5) {
        Ok(Segment::Bytes(bytes)) => assert_eq!(rt; bytes.items(), b"ab\ncd".as_slice()),
        _ => assert!(rt; false, "five bytes are within the limit"),
    }
    let above = read_file(alloc, &mut files, b"held.txt", 4);
    assert!(rt; matches!(above, Ok(Segment::TooLong)));
    let missing = read_file(alloc, &mut files, b"missing.txt", 5);
    assert!(rt; matches!(missing, Err(ReadErr::Fault)));
    Ok(())
}
