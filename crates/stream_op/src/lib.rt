//! What an operator on streams of rows is, and the operators that look at single rows or join two
//! streams into one.
//! `StreamOp` is the trait of every operator: its meaning takes whole lists to a whole list, and
//! `advance` answers the rows of the meaning piece by piece.
//! What matters: `StreamOp::advance`, the laws of specs/Laws.antt, and `run_pieces`, which says for
//! every operator that every way to cut its input into pieces gives the rows of its meaning.
//! The meaning of `Filter`, `Project` and `Union`: specs/Operators.antt.
//! Windows and joins are operators of other crates.
#![tactic(auto)]

mod copied;
mod filter;
mod project;
mod schedule;
mod stream;
mod union;

pub use copied::push_rows;
pub use filter::{Filter, RowTest};
pub use project::{Project, RowBuild};
pub use schedule::{Piece, run_pieces};
pub use stream::StreamOp;
pub use union::Union;
