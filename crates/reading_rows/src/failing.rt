//! Tests on files and a sink of which chosen calls fail.

ghost use Rattle.std.specs.Prelude.{Some};

use event_value::{Copies, Memory, Seq, Text};
use outside::{
    FileErr, Files, HeldFile, MemFiles, MemSink, ReadErr, Segment, Sink, SinkErr, read_file,
    write_all,
};
use std::alloc::Global;
use std::test::Fail;

/// What a table says of a file that was read.
#[derive(Clone, Copy, Debug, PartialEq, Eq)]
enum Read {
    Count(usize),
    TooLong,
    Fault,
    Memory,
}

impl Read {
    /// What a table says of this answer.
    fn of(answer: &Result<Segment, ReadErr>) -> Read {
        match answer {
            Ok(Segment::Bytes(bytes)) => Read::Count(bytes.items().len()),
            Ok(Segment::TooLong) => Read::TooLong,
            Err(ReadErr::Fault) => Read::Fault,
            Err(ReadErr::Memory) => Read::Memory,
        }
    }
}

/// The numbers of the calls that fail.
fn numbers(alloc: Global, failing: &[u64]) -> Result<Seq<u64>, Memory> {
    Ok(Seq::from_vec(Vec::from_slice(alloc, failing)?))
}

/// A file of so many bytes.
fn file(alloc: Global, name: &str, count: usize) -> Result<HeldFile, Memory> {
    let mut bytes = Text::empty(alloc);
    for _ in 0..count {
        bytes.push(b'x')?;
    }
    let name = Text::of(alloc, name.as_bytes())?;
    Ok(HeldFile { name, bytes })
}

/// The names of files, and their lengths.
const SIZES: [(&str, usize); 3] = [("empty", 0), ("five", 5), ("long", 20_000)];

/// Files `empty`, `five` and `long` of 0, 5 and 20,000 bytes.
fn three_files(alloc: Global, failing: &[u64]) -> Result<MemFiles, Memory> {
    let mut held = Seq::empty(alloc);
    for &(name, count) in &SIZES {
        held.push(file(alloc, name, count)?)?;
    }
    Ok(MemFiles::failing_at(alloc, held, numbers(alloc, failing)?))
}

#[test]
fn files_are_read_up_to_the_limit(rt: HostRuntime) -> Result<(), Fail> {
    let alloc = rt.alloc();
    let table: [(&str, u32, &[u64], Read); 12] = [
        ("empty", 0, &[], Read::Count(0)),
        ("five", 6, &[], Read::Count(5)),
        ("five", 5, &[], Read::Count(5)),
        ("five", 4, &[], Read::TooLong),
        ("five", 0, &[], Read::TooLong),
        ("long", 20_000, &[], Read::Count(20_000)),
        ("long", 19_999, &[], Read::TooLong),
        ("long", 0, &[], Read::TooLong),
        ("none", 5, &[], Read::Fault),
        ("five", 5, &[0], Read::Fault),
        ("five", 5, &[2], Read::Fault),
        ("five", 5, &[3], Read::Count(5)),
    ];
    for &(name, limit, failing, wanted) in &table {
        let mut files = three_files(alloc, failing)?;
        let answer = read_file(alloc, &mut files, name.as_bytes(), limit);
        assert!(rt; Read::of(&answer) == wanted, "{name} {limit}");
    }
    Ok(())
}

/// A sink that takes two bytes at a time.
#[derive(Drop)]
struct Pairs {
    inner: MemSink,
}

impl Sink for Pairs {
    ghost written = { λ p. Some p.inner.written };

    ghost faults = { λ p. p.inner.failing.faults };

    fn write(&mut self, bytes: &[u8]) -> Result<usize, SinkErr> {
        let count = bytes.len().min(2);
        self.inner.write(&bytes[..count])
    }
}

#[test]
fn bytes_are_written_or_a_prefix_of_them(rt: HostRuntime) -> Result<(), Fail> {
    let alloc = rt.alloc();
    let table: [(&str, &[u64], Option<SinkErr>, &str); 6] = [
        ("", &[], None, ""),
        ("abcde", &[], None, "abcde"),
        ("abcde", &[3], None, "abcde"),
        ("abcde", &[0], Some(SinkErr::Fault), ""),
        ("abcde", &[1], Some(SinkErr::Fault), "ab"),
        ("abcde", &[2], Some(SinkErr::Fault), "abcd"),
    ];
    for &(bytes, failing, error, wanted) in &table {
        let inner = MemSink::failing_at(alloc, numbers(alloc, failing)?);
        let mut sink = Pairs { inner };
        let answer = write_all(&mut sink, bytes.as_bytes());
        assert!(rt; answer.err() == error, "{bytes}");
        assert_eq!(rt; sink.inner.bytes(), wanted.as_bytes(), "{bytes}");
    }
    Ok(())
}

#[test]
fn a_sink_keeps_what_was_written_before(rt: HostRuntime) -> Result<(), Fail> {
    let mut sink = MemSink::of(rt.alloc());
    assert!(rt; write_all(&mut sink, b"one,") == Ok(()));
    assert!(rt; write_all(&mut sink, b"two") == Ok(()));
    assert_eq!(rt; sink.bytes(), b"one,two".as_slice());
    Ok(())
}

#[test]
fn a_call_that_fails_passes_nothing_over(rt: HostRuntime) -> Result<(), Fail> {
    let mut files = three_files(rt.alloc(), &[1])?;
    let mut piece = [0; 3];
    assert!(rt; files.begin(b"five") == Ok(()));
    assert!(rt; files.read(&mut piece) == Err(FileErr::Fault));
    assert!(rt; files.read(&mut piece) == Ok(3));
    assert!(rt; files.read(&mut piece) == Ok(2));
    assert!(rt; files.read(&mut piece) == Ok(0));
    Ok(())
}

#[test]
fn a_segment_and_a_cause_are_copied(rt: HostRuntime) -> Result<(), Fail> {
    let alloc = rt.alloc();
    let mut files = three_files(alloc, &[])?;
    let segment = read_file(alloc, &mut files, b"five", 5).map_err(|_| Fail::from("unread"))?;
    let copied = segment.copy()?;
    assert!(rt; Read::of(&Ok(copied)) == Read::Count(5));
    assert!(rt; Read::of(&Ok(Segment::TooLong.copy()?)) == Read::TooLong);
    assert!(rt; ReadErr::Fault.copy()? == ReadErr::Fault);
    Ok(())
}
