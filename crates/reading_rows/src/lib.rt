//! What is read from files and written to a sink, worked out by hand. Tests alone.
//! What matters: failing.rt (files and a sink of which chosen calls fail), references.rt (the rows
//! of a reference's file, and which snapshot is in force when).
//! It gives no function: those that it calls are outside's and log_reading's.
#![tactic(auto)]

#[cfg(test)]
mod failing;
#[cfg(test)]
mod references;
