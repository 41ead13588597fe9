//! Tests on the clock and the sockets of the system.

ghost use Rattle.std.specs.Prelude.{true};

use clock_gate::Clock;
use connections::{Conn, Link, LinkErr, write_all};
use event_value::{Memory, Text};
use std::alloc::Global;
use std::io::{Read, Write};
use std::net::{Ipv4Addr, Shutdown, TcpStream};
use std::test::Fail;
use system_outside::{SystemClock, TcpLink};

#[test]
fn the_system_gives_a_moment_of_our_time(rt: HostRuntime) -> Result<(), Fail> {
    let ticks = SystemClock::of(&rt).now().count();
    assert!(rt; ticks > 15_778_368_000_000_000, "{ticks} is before 2020");
    assert!(rt; ticks < 325_036_800_000_000_000, "{ticks} is past 2999");
    Ok(())
}

/// The first of these ports at which the link listens.
fn listen_at<L: Link>(link: &mut L, first: u16, last: u16) -> Option<u16> {
    for port in first..=last {
        if link.listen(port) == Ok(()) {
            return Some(port);
        }
    }
    None
}

/// All that is read from a connection; a text that can't be is `None`.
fn read_all<C: Conn>(alloc: Global, conn: &mut C) -> Result<Option<Text>, Memory> {
    let mut text = Text::empty(alloc);
    let mut piece = [0; 3];
    for _ in 0..1000 {
        match conn.read(&mut piece) {
            Ok(0) => return Ok(Some(text)),
            Ok(count) => text.extend(&piece[..count])?,
            Err(_) => return Ok(None),
        }
    }
    Ok(None)
}

/// Takes a connection, reads it to its end, answers, and gives it back; says what was read.
fn answer<L: Link>(alloc: Global, link: &mut L, bytes: &[u8]) -> Result<Option<Text>, Memory> {
    let Ok(mut conn) = link.accept() else {
        return Ok(None);
    };
    let read = read_all(alloc, &mut conn);
    let written = write_all(&mut conn, bytes);
    link.give_back(conn);
    match written {
        Ok(()) => read,
        Err(_) => Ok(None),
    }
}

#[test]
fn a_connection_over_tcp_is_read_and_answered(rt: HostRuntime) -> Result<(), Fail> {
    let mut link = TcpLink::of(&rt);
    assert!(rt;
        answer(rt.alloc(), &mut link, b"")?.is_none(),
        "it doesn't listen yet"
    );
    let Some(port) = listen_at(&mut link, 47_100, 47_400) else {
        return Err(Fail::new("no port is free"));
    };
    let mut other = TcpLink::of(&rt);
    assert!(rt;
        other.listen(port) == Err(LinkErr::Fault),
        "the port is taken"
    );
    let mut client = TcpStream::connect(&rt, (Ipv4Addr::LOCALHOST, port))?;
    client.write_all(b"what is it")?;
    client.shutdown(Shutdown::Write)?;
    let read = answer(rt.alloc(), &mut link, b"it is this")?;
    assert!(rt; read.is_some_and(|text| text.items() == b"what is it".as_slice()));
    let mut reply = Vec::new(rt.alloc());
    client.read_to_end(&mut reply)?;
    assert_eq!(rt; reply.as_slice(), b"it is this".as_slice());
    Ok(())
}
