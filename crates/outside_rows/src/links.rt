//! Tests on a link in memory of which chosen calls fail, and on one that tells nothing.

use crate::parts::numbers;
use connections::{ComingConn, Conn, ConnErr, Link, LinkErr, MemLink, Untold, write_all};
use event_value::{Memory, Seq, Text};
use std::alloc::Global;
use std::test::Fail;

/// A link of connections of these bytes, of which these calls fail, and these of each connection.
fn link(alloc: Global, coming: &[(&str, &[u64])], failing: &[u64]) -> Result<MemLink, Memory> {
    let mut conns = Seq::empty(alloc);
    for &(bytes, failing) in coming {
        let bytes = Text::of(alloc, bytes.as_bytes())?;
        let failing = numbers(alloc, failing)?;
        conns.push(ComingConn { bytes, failing })?;
    }
    Ok(MemLink::failing_at(alloc, conns, numbers(alloc, failing)?))
}

/// What a turn over a link came to.
#[derive(Clone, Copy, PartialEq, Eq)]
enum Turn {
    Answered,
    ConnFault,
    LinkFault,
    Memory,
}

/// Takes a connection, writes what was read from it, and gives it back.
fn echo<L: Link>(link: &mut L) -> Turn {
    let mut conn = match link.accept() {
        Ok(conn) => conn,
        Err(LinkErr::Fault) => return Turn::LinkFault,
        Err(LinkErr::Memory) => return Turn::Memory,
    };
    let mut piece = [0; 8];
    let turn = match conn.read(&mut piece) {
        Ok(count) => match write_all(&mut conn, &piece[..count]) {
            Ok(()) => Turn::Answered,
            Err(ConnErr::Fault) => Turn::ConnFault,
        },
        Err(ConnErr::Fault) => Turn::ConnFault,
    };
    link.give_back(conn);
    turn
}

/// Whether four turns over a link come to these.
fn turns_are<L: Link>(link: &mut L, wanted: &[Turn; 4]) -> bool {
    let mut same = true;
    for &turn in wanted {
        same = same && echo(link) == turn;
    }
    same
}

/// Whether these texts were served.
fn has_served(link: &MemLink, wanted: &[&str]) -> bool {
    let served = link.served();
    let mut same = served.len() == wanted.len();
    for (text, &bytes) in served.iter().zip(wanted) {
        same = same && text.items() == bytes.as_bytes();
    }
    same
}

/// The connections of a link, which calls of it fail, what its turns come to, and what was served.
type Row<'a> = (
    &'a [(&'a str, &'a [u64])],
    &'a [u64],
    [Turn; 4],
    &'a [&'a str],
);

const ANSWERED: Turn = Turn::Answered;

const CONN_FAULT: Turn = Turn::ConnFault;

const LINK_FAULT: Turn = Turn::LinkFault;

const ROWS: [Row<'static>; 6] = [
    (
        &[],
        &[],
        [LINK_FAULT, LINK_FAULT, LINK_FAULT, LINK_FAULT],
        &[],
    ),
    (
        &[("ab", &[]), ("c", &[])],
        &[],
        [ANSWERED, ANSWERED, LINK_FAULT, LINK_FAULT],
        &["ab", "c"],
    ),
    (
        &[("ab", &[]), ("c", &[])],
        &[0],
        [LINK_FAULT, ANSWERED, ANSWERED, LINK_FAULT],
        &["ab", "c"],
    ),
    (
        &[("ab", &[]), ("c", &[])],
        &[1, 3],
        [ANSWERED, LINK_FAULT, ANSWERED, LINK_FAULT],
        &["ab", "c"],
    ),
    (
        &[("ab", &[]), ("c", &[])],
        &[1, 2, 3],
        [ANSWERED, LINK_FAULT, LINK_FAULT, LINK_FAULT],
        &["ab"],
    ),
    (
        &[("ab", &[0]), ("c", &[1]), ("d", &[2])],
        &[],
        [CONN_FAULT, CONN_FAULT, ANSWERED, LINK_FAULT],
        &["", "", "d"],
    ),
];

#[test]
fn a_link_hands_out_its_connections_in_order(rt: HostRuntime) -> Result<(), Fail> {
    for &(coming, failing, turns, served) in &ROWS {
        let mut link = link(rt.alloc(), coming, failing)?;
        assert!(rt; turns_are(&mut link, &turns));
        assert!(rt; has_served(&link, served));
    }
    Ok(())
}

#[test]
fn a_link_that_tells_nothing_does_the_same(rt: HostRuntime) -> Result<(), Fail> {
    for &(coming, failing, turns, served) in &ROWS {
        let inner = link(rt.alloc(), coming, failing)?;
        let mut untold = Untold { inner };
        assert!(rt; turns_are(&mut untold, &turns));
        assert!(rt; has_served(&untold.inner, served));
    }
    Ok(())
}

#[test]
fn a_link_counts_its_calls_to_listen(rt: HostRuntime) -> Result<(), Fail> {
    let mut link = link(rt.alloc(), &[("ab", &[])], &[1, 2])?;
    assert!(rt; link.listen(8080) == Ok(()));
    assert!(rt; link.listen(8080) == Err(LinkErr::Fault));
    assert!(rt; echo(&mut link) == Turn::LinkFault);
    assert!(rt; echo(&mut link) == Turn::Answered);
    Ok(())
}
