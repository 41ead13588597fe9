//! The text of a query: its tokens, and the tree that it stands for by the grammar.
//! `tokens` gives the tokens, `parse` the tree; a refusal names its place.
//! What matters: `parse`, clauses `ok`, `err` and `only`: its answer is the one that is due for the
//! text; the laws say that for each text one answer is due, and no other.
//! The meaning: query_grammar's specs/Queries.antt (trees, and the first token that doesn't fit)
//! over its grammar, and query_tokens' specs/Tokens.antt (what a token is).
//! It knows no inputs and no kinds: query_type does.
#![tactic(auto)]

mod groups;
mod query;
mod selects;
mod sources;
mod statements;

pub use query::parse;
pub use query_grammar::{each_text_has_an_answer, no_text_has_two_answers};
pub use query_tokens::{MAX_TEXT, ParseErr, Token, TokenKind, tokens};
pub use sources::MAX_TOKENS;
pub use statements::MAX_NESTING;
