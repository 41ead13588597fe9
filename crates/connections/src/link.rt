//! `Link`, which hands out connections and takes them back.

ghost use Rattle.std.specs.Prelude.{◌≤◌, ◌≡◌, ℕ, List, Bool, true, Option, option_map};
ghost use Rattle.std.specs.Prelude.{IfOk, IfSome, OnOk, IsErrOf};
ghost use Rattle.outside.specs.Faults.{HasRisen};
ghost use Rattle.connections.specs.Connections.{coming_after_accept, HandsOutFirst, ServesOne};

use crate::Conn;
use std::alloc::AllocError;

/// Why a link gives nothing.
#[derive(Clone, Copy, PartialEq, Eq)]
pub enum LinkErr {
    /// The outside failed. The link's count of faults has risen.
    Fault,
    /// There was no memory.
    Memory,
}

impl From<AllocError> for LinkErr {
    ghost use Rattle.std.specs.Prelude.{◌≡◌};
    ghost use Rattle.connections.specs.declared.link.LinkErr.TheVariants.{Memory as no_memory};

    ghost from_gives = { λ _ error. error ≡ no_memory };

    fn from(_: AllocError) -> Self {
        LinkErr::Memory
    }
}

/// A link, from which connections come one after another.
pub trait Link {
    /// A connection of the link.
    type Conn: Conn;

    /// The bytes of each connection that is still to be handed out, in order, where they are known.
    ghost coming: { Self → Option (List (List ℕ)) };

    /// The bytes written on each connection that was given back, in order, where they are known.
    ghost served: { Self → Option (List (List ℕ)) };

    /// Whether a connection can be given back.
    ghost room: { Self → Bool };

    /// How often a call has failed, at most the last count of 64 bits.
    ghost faults: { Self → ℕ };

    /// Begins to listen at a port.
    ///
    /// # Errors
    /// `Fault` where the outside failed; `Memory`.
    fn listen(&mut self, port: u16) -> Result<(), LinkErr>
        ensures coming { coming self.new ≡ coming self.old }
        ensures served { served self.new ≡ served self.old }
        ensures never_falls { faults self.old ≤ faults self.new }
        ensures cause { IsErrOf result LinkErr.Fault
            → HasRisen (faults self.old) (faults self.new) };

    /// Takes the next connection.
    ///
    /// # Errors
    /// `Fault` where the outside failed, as where none is left; `Memory`. None is then taken.
    fn accept(&mut self) -> Result<Self::Conn, LinkErr>
        ensures coming { coming self.new
            ≡ option_map (coming_after_accept result) (coming self.old) }
        ensures conn { IfOk result (λ conn. IfSome (coming self.old)
            (HandsOutFirst (Self.Conn.left conn) (Self.Conn.written conn))) }
        ensures served { served self.new ≡ served self.old }
        ensures room { OnOk result (room self.new ≡ true) }
        ensures never_falls { faults self.old ≤ faults self.new }
        ensures cause { IsErrOf result LinkErr.Fault
            → HasRisen (faults self.old) (faults self.new) };

    /// Takes a connection back and ends it. It takes no memory.
    fn give_back(&mut self, conn: Self::Conn)
        requires room { room self.old ≡ true }
        ensures served { ServesOne (Self.Conn.written conn) (served self.old) (served self.new) }
        ensures coming { coming self.new ≡ coming self.old }
        ensures never_falls { faults self.old ≤ faults self.new };
}
