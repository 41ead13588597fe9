//! What a run answers to the outside: connections that are taken from a link, one after another.
//! A `Link` listens, hands out connections and takes them back; a `Conn` is read and written.
//! What matters: clauses `left` and `bytes` of `Conn::read` and `written` of `Conn::write`, clauses
//! `coming` and `conn` of `Link::accept` and `served` of `Link::give_back`; `write_all` writes all
//! bytes or a prefix of them.
//! The meaning: specs/ConnBytes.antt, specs/Connections.antt; specs/Faults.antt of outside.
//! `MemLink` and `MemConn` are in memory, and chosen calls of them fail; `Untold` tells nothing.
//! A link over sockets is left to the crate of the adapters.
#![tactic(auto)]

mod coming_conn;
mod conn;
mod link;
mod mem_conn;
mod mem_link;
mod unread;
mod untold;
mod writing;

pub use coming_conn::ComingConn;
pub use conn::{Conn, ConnErr};
pub use link::{Link, LinkErr};
pub use mem_conn::MemConn;
pub use mem_link::MemLink;
pub use untold::Untold;
pub use writing::write_all;
