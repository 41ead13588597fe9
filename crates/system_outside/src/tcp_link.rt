//! `TcpLink`, a TCP listener at 127.0.0.1. Which connections come isn't known to a contract.

ghost use Rattle.std.specs.Prelude.{◌≡◌, ◌≤◌, true, None};
ghost use Rattle.outside.specs.Faults.{HasRisen};

use crate::StreamConn;
use connections::{Link, LinkErr};
use std::net::{Ipv4Addr, OpenListener, SocketAddr};
use std::rt::Net;

/// A listener at a port of 127.0.0.1. A connection that is given back is closed.
#[derive(Drop)]
pub struct TcpLink<'a, R: Net> {
    runtime: &'a R,
    listener: Option<R::Listener>,
    faults: u64,
}

impl<'a, R: Net> TcpLink<'a, R> {
    /// A link of this runtime that doesn't listen yet.
    pub fn of(runtime: &'a R) -> Self {
        TcpLink {
            runtime,
            listener: None,
            faults: 0,
        }
    }

    // Counts a fault.
    fn fault(&mut self) -> LinkErr
        ensures fault { result ≡ LinkErr.Fault }
        ensures never_falls { self.old.faults ≤ self.new.faults }
        ensures risen { HasRisen self.old.faults self.new.faults }
    {
        self.faults = self.faults.saturating_add(1);
        LinkErr::Fault
    }
}

impl<'a, R: Net> Link for TcpLink<'a, R> {
    type Conn = StreamConn<R::Stream>;

    ghost coming = { λ _. None };

    ghost served = { λ _. None };

    ghost room = { λ _. true };

    ghost faults = { λ l. l.faults };

    fn listen(&mut self, port: u16) -> Result<(), LinkErr> {
        self.listener = None;
        match self
            .runtime
            .bind(SocketAddr::from((Ipv4Addr::LOCALHOST, port)))
        {
            Ok(listener) => {
                self.listener = Some(listener);
                Ok(())
            }
            Err(_) => Err(self.fault()),
        }
    }

    fn accept(&mut self) -> Result<StreamConn<R::Stream>, LinkErr> {
        let Some(listener) = &self.listener else {
            return Err(self.fault());
        };
        match listener.accept() {
            Ok((stream, _)) => Ok(StreamConn::of(stream)),
            Err(_) => Err(self.fault()),
        }
    }

    fn give_back(&mut self, _conn: StreamConn<R::Stream>) {}
}
