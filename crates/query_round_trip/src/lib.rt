//! That the canonical text of a query is that query again: the law of print over the grammar.
//! What matters: `canonical_text_is_read_again`, over specs/Rereading.antt.
//! The proofs go rule by rule: proofs/Printings.antt says what each way to join rules keeps,
//! proofs/RelexedTokens.antt that a canonical text has the tokens that it was written for.
#![tactic(auto)]

mod laws;

pub use laws::canonical_text_is_read_again;
