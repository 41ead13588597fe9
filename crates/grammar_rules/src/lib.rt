//! Grammars over tokens as values, and readers that read them.
//! A grammar says which lists of tokens are whole, with their tree, and which are beginnings of such lists;
//! both are kept by every way to join grammars (specs/Rules.antt). A rule of a larger grammar is one.
//! What matters: `Fits` in specs/Laws.antt, a reader that reads a grammar within limits, with the first
//! token that doesn't fit, and whether it would fit without the limits; the proofs say that each
//! way to join grammars keeps it.
//! It knows no query: query_grammar does.
#![tactic(auto)]

mod stop;

pub use stop::Stop;
