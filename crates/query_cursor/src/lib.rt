//! The tokens that are left of a query, and the lowest lines of its grammar: words and signs, names,
//! paths, types, and what numbers and texts stand for.
//! `Parser` is seen as the list of lexemes that are left; each method reads one line of the grammar
//! off its front, as the reader of that line in query_grammar does, or stops at a lexeme.
//! What matters: `Parser::path` and `Parser::cast_type`, clauses `ok` and `err`.
//! It reads no expressions: expression_reader does.
#![tactic(auto)]

mod cursor;
mod leaves;
mod names;
mod words;

pub use cursor::Parser;
pub use leaves::{name_of, number_of, text_content};
pub use words::{cast_word, prod_sign, rel_of, sum_sign};
