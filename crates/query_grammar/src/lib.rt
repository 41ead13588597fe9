//! The grammar of queries: which tokens stand for which tree, and which begin a query.
//! Each line of it is a `Grammar` over the tokens of query_tokens, with a node of query_tree.
//! What matters: `IsDue` in specs/Queries.antt, the answer that is due for a text, and laws.rt: for
//! each text one answer is due, and no other.
//! The meaning: specs/ExpressionGrammar.antt and specs/StatementGrammar.antt, a definition a line;
//! specs/Reading.antt has for each line its reader, which query_parse follows.
//! It runs nothing: query_parse reads texts.
#![tactic(auto)]

mod laws;

pub use laws::{each_text_has_an_answer, no_text_has_two_answers};
