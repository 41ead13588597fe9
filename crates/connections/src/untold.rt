//! `Untold`, a link or a connection that tells nothing.

ghost use Rattle.std.specs.Prelude.{◌<◌, ◌≤◌, ◌≡◌, true, None, option_map, length};
ghost use Rattle.std.specs.Prelude.{IfOk, IfSome, OnOk, IsErrOf};
ghost use Rattle.outside.specs.Faults.{HasRisen};

use crate::{Conn, ConnErr, Link, LinkErr};

/// A link or a connection that does what another one does, and of which contracts know only what
/// they know of one over the system.
#[derive(Drop)]
pub struct Untold<T> {
    pub inner: T,
}

impl<C: Conn> Conn for Untold<C> {
    ghost left = { λ _. None };

    ghost written = { λ _. None };

    ghost faults = { λ u. C.faults u.inner };

    fn read(&mut self, into: &mut [u8]) -> Result<usize, ConnErr> {
        self.inner.read(into)
    }

    fn write(&mut self, bytes: &[u8]) -> Result<usize, ConnErr> {
        self.inner.write(bytes)
    }
}

impl<L: Link> Link for Untold<L> {
    type Conn = Untold<L::Conn>;

    ghost coming = { λ _. None };

    ghost served = { λ _. None };

    ghost room = { λ u. L.room u.inner };

    ghost faults = { λ u. L.faults u.inner };

    fn listen(&mut self, port: u16) -> Result<(), LinkErr> {
        self.inner.listen(port)
    }

    fn accept(&mut self) -> Result<Untold<L::Conn>, LinkErr> {
        let inner = self.inner.accept()?;
        Ok(Untold { inner })
    }

    fn give_back(&mut self, conn: Untold<L::Conn>) {
        self.inner.give_back(conn.inner);
    }
}
