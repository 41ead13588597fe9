//! `MemLink`, a link in memory.

ghost use Rattle.std.specs.Prelude.{◌≤◌, ◌≡◌, ◌↔◌, [], ◌∷◌, ◌++◌, true, Some, option_map};
ghost use Rattle.std.specs.Prelude.{IfOk, IfSome, OnOk, IsErr, IsErrOf};
ghost use Rattle.outside.specs.Faults.{HasRisen};
ghost use Rattle.outside.specs.FailingCalls.{IsDue, IsNextCall};
ghost use Rattle.connections.specs.Connections.{coming_after_accept, HandsOutFirst, ServesOne};
ghost use Rattle.connections.specs.MemLink.{IsFresh, bytes_of, HasCause, IsFirstOf};

use crate::{ComingConn, Link, LinkErr, MemConn};
use event_value::{Seq, Text};
use memory_parts::Failures;
use std::alloc::Global;
use std::collections::VecDeque;
use std::marker::Model;

/// A link in memory: it hands out the connections of a list, and fails where none is left.
#[derive(Drop)]
pub struct MemLink {
    coming: VecDeque<ComingConn>,
    served: Vec<Text>,
    failures: Failures,
}

impl Model for MemLink {
    ghost use Rattle.std.specs.Prelude.{nat_lt, vec_len, vec_capacity};
    ghost use Rattle.connections.specs.MemLink.{LinkInMemory};

    ghost Value = { LinkInMemory };

    ghost view = { λ l. record {
      coming = l.coming.items;
      served = l.served.items;
      room = nat_lt (vec_len l.served) (vec_capacity l.served);
      failing = l.failures;
    } };
}

impl MemLink {
    /// A link of which a call fails where no connection is left alone. It takes no memory.
    pub fn of(alloc: Global, coming: Seq<ComingConn>) -> Self
        ensures { IsFresh coming [] result }
    {
        MemLink::failing_at(alloc, coming, Seq::empty(alloc))
    }

    /// A link that fails at the calls of these numbers too, counted from 0. `give_back` isn't
    /// counted, since it doesn't fail. It takes no memory.
    pub fn failing_at(alloc: Global, coming: Seq<ComingConn>, numbers: Seq<u64>) -> Self
        ensures { IsFresh coming numbers result }
    {
        MemLink {
            coming: VecDeque::from_vec(coming.into_vec()),
            served: Vec::new(alloc),
            failures: Failures::at(numbers),
        }
    }

    /// What was written on each connection that was given back, in order.
    pub fn served(&self) -> &[Text]
        ensures { result.now ≡ self.now.served }
    {
        self.served.as_slice()
    }
}

impl Link for MemLink {
    type Conn = MemConn;

    ghost coming = { λ l. Some (bytes_of l.coming) };

    ghost served = { λ l. Some l.served };

    ghost room = { λ l. l.room };

    ghost faults = { λ l. l.failing.faults };

    fn listen(&mut self, _port: u16) -> Result<(), LinkErr>
        ensures coming { Some (bytes_of self.new.coming) ≡ Some (bytes_of self.old.coming) }
        ensures served { Some self.new.served ≡ Some self.old.served }
        ensures never_falls { self.old.failing.faults ≤ self.new.failing.faults }
        ensures cause { IsErrOf result LinkErr.Fault
            → HasRisen self.old.failing.faults self.new.failing.faults }

        // Which calls fail: those that are to. All else stays.
        ensures fault { IsErr result ↔ IsDue self.old.failing }
        ensures counts { IsNextCall self.old.failing self.new.failing }
        ensures rest { self.new ≡ record self.old { failing = self.new.failing } }
    {
        if self.failures.next_fails() {
            return Err(LinkErr::Fault);
        }
        Ok(())
    }

    fn accept(&mut self) -> Result<MemConn, LinkErr>
        ensures coming { Some (bytes_of self.new.coming)
            ≡ option_map (coming_after_accept result) (Some (bytes_of self.old.coming)) }
        ensures conn { IfOk result (λ conn. IfSome (Some (bytes_of self.old.coming))
            (HandsOutFirst (Some conn.left) (Some conn.written))) }
        ensures served { Some self.new.served ≡ Some self.old.served }
        ensures room { OnOk result (self.new.room ≡ true) }
        ensures never_falls { self.old.failing.faults ≤ self.new.failing.faults }
        ensures cause { IsErrOf result LinkErr.Fault
            → HasRisen self.old.failing.faults self.new.failing.faults }

        // Which calls fail: those that are to, and where no connection is left. Every other takes
        // the first one, with the calls of it that fail, where there is memory.
        ensures due { IsDue self.old.failing → IsErr result }
        ensures fault { IsErrOf result LinkErr.Fault → HasCause self.old }
        ensures counts { IsNextCall self.old.failing self.new.failing }
        ensures first { IfOk result (IsFirstOf self.old.coming) }
        ensures rest { self.new.coming ≡ coming_after_accept result self.old.coming }
    {
        if self.failures.next_fails() {
            return Err(LinkErr::Fault);
        }
        self.served.reserve(1)?;
        let Some(first) = self.coming.pop_front() else {
            self.failures.count_fault();
            return Err(LinkErr::Fault);
        };
        Ok(MemConn::failing_at(first.bytes, first.failing))
    }

    fn give_back(&mut self, conn: MemConn)
        requires room { self.old.room ≡ true }
        ensures served { ServesOne (Some conn.written)
            (Some self.old.served) (Some self.new.served) }
        ensures coming { Some (bytes_of self.new.coming) ≡ Some (bytes_of self.old.coming) }
        ensures never_falls { self.old.failing.faults ≤ self.new.failing.faults }

        // What stays besides: the connections that are to come, and which calls fail.
        ensures rest { (self.new.coming ≡ self.old.coming) × (self.new.failing ≡ self.old.failing) }
    {
        self.served.push_reserved(conn.into_written());
    }
}
