//! The system as the outside: its clock, and connections over TCP from this machine.
//! `SystemClock` gives the system's time; `TcpLink` listens at 127.0.0.1 and hands out
//! `StreamConn`s.
//! What matters: each is proved against its trait, and the moment of a time is `moment_of_time`.
//! The meaning of a time: specs/SystemTime.antt. No contract says what the system gives or takes.
//! Files and standard output are adapters of the program.
#![tactic(auto)]

mod stream_conn;
mod system_clock;
mod tcp_link;

pub use stream_conn::StreamConn;
pub use system_clock::SystemClock;
pub use tcp_link::TcpLink;
