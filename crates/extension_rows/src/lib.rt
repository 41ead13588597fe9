//! Which inputs documents go on from which, and why others don't, worked out by hand. Tests alone.
//! What matters: the tables in pairs/streams.rt, pairs/references.rt and pairs/walk.rt, each line with
//! an old document, a new one and the answer.
//! It gives no function: those that it calls are input_book's and input_extension's.
#![tactic(auto)]

#[cfg(test)]
mod pairs;
