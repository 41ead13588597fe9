//! Tests on a connection in memory of which chosen calls fail: what is read, and what is written.

ghost use Rattle.std.specs.Prelude.{Some};

use crate::parts::numbers;
use connections::{Conn, ConnErr, MemConn, write_all};
use event_value::{Memory, Text};
use std::alloc::Global;
use std::test::Fail;

/// A connection of these bytes, of which these calls fail.
fn conn(alloc: Global, bytes: &str, failing: &[u64]) -> Result<MemConn, Memory> {
    let bytes = Text::of(alloc, bytes.as_bytes())?;
    Ok(MemConn::failing_at(bytes, numbers(alloc, failing)?))
}

#[test]
fn a_connection_is_read_and_a_call_that_fails_passes_nothing_over(
    rt: HostRuntime,
) -> Result<(), Fail> {
    let table: [(&[u64], [Result<usize, ConnErr>; 5], &str); 4] = [
        (&[], [Ok(2), Ok(2), Ok(1), Ok(0), Ok(0)], "abcde"),
        (
            &[1],
            [Ok(2), Err(ConnErr::Fault), Ok(2), Ok(1), Ok(0)],
            "abcde",
        ),
        (
            &[0, 2],
            [
                Err(ConnErr::Fault),
                Ok(2),
                Err(ConnErr::Fault),
                Ok(2),
                Ok(1),
            ],
            "abcde",
        ),
        (
            &[4, 2],
            [
                Ok(2),
                Ok(2),
                Err(ConnErr::Fault),
                Ok(1),
                Err(ConnErr::Fault),
            ],
            "abcde",
        ),
    ];
    for &(failing, answers, wanted) in &table {
        let mut conn = conn(rt.alloc(), "abcde", failing)?;
        let mut read = Text::empty(rt.alloc());
        let mut piece = [0; 2];
        for &answer in &answers {
            let count = conn.read(&mut piece);
            assert!(rt; count == answer, "{wanted}");
            read.extend(&piece[..count.unwrap_or(0)])?;
        }
        assert!(rt; read.items() == wanted.as_bytes());
    }
    Ok(())
}

/// A connection that takes two bytes at a time.
#[derive(Drop)]
struct Pairs {
    inner: MemConn,
}

impl Conn for Pairs {
    ghost left = { λ p. Some p.inner.left };

    ghost written = { λ p. Some p.inner.written };

    ghost faults = { λ p. p.inner.failing.faults };

    fn read(&mut self, into: &mut [u8]) -> Result<usize, ConnErr> {
        self.inner.read(into)
    }

    fn write(&mut self, bytes: &[u8]) -> Result<usize, ConnErr> {
        let count = bytes.len().min(2);
        self.inner.write(&bytes[..count])
    }
}

#[test]
fn bytes_are_written_on_a_connection_or_a_prefix_of_them(rt: HostRuntime) -> Result<(), Fail> {
    let table: [(&str, &[u64], Option<ConnErr>, &str); 6] = [
        ("", &[], None, ""),
        ("abcde", &[], None, "abcde"),
        ("abcde", &[3], None, "abcde"),
        ("abcde", &[0], Some(ConnErr::Fault), ""),
        ("abcde", &[1], Some(ConnErr::Fault), "ab"),
        ("abcde", &[2], Some(ConnErr::Fault), "abcd"),
    ];
    for &(bytes, failing, error, wanted) in &table {
        let inner = conn(rt.alloc(), "", failing)?;
        let mut pairs = Pairs { inner };
        let answer = write_all(&mut pairs, bytes.as_bytes());
        assert!(rt; answer.err() == error, "{bytes}");
        assert_eq!(rt; pairs.inner.bytes(), wanted.as_bytes(), "{bytes}");
    }
    Ok(())
}
