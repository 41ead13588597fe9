//! Clocks, links and connections whose calls are worked out by hand. Tests alone.
//! What matters: clocks.rt (which moments a clock gives), pieces.rt (what is read from a connection
//! and written on it), links.rt (which connections a link hands out, and what was served),
//! system.rt (the clock and the sockets of the system); in memory, chosen calls fail.
//! It gives no function: those that it calls are of clock_gate, connections and system_outside.
#![tactic(auto)]

#[cfg(test)]
mod clocks;
#[cfg(test)]
mod links;
#[cfg(test)]
mod parts;
#[cfg(test)]
mod pieces;
#[cfg(test)]
mod system;
