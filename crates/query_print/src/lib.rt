//! The canonical text of a query: `print` writes a tree as a text.
//! Keywords stand in upper case, and one space stands between words but where none does; names stand in
//! brackets only where they need them; parentheses, optional words and signs stand as they were.
//! What matters: `print`, clause `text`. The meaning: specs/Words.antt (how words are written),
//! specs/Expressions.antt and specs/Scripts.antt (the words of a tree).
//! It reads no text: query_parse does.
#![tactic(auto)]

mod behind;
mod canonical;
mod expressions;
mod names;
mod part;
mod parts;
mod scripts;
mod selects;
mod sources;
mod symbols;
mod writer;
mod written;

pub use canonical::print;
