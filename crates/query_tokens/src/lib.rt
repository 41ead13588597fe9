//! The tokens of a query's text, and what they are to its grammar.
//! `tokens` gives the tokens, each as long as its form allows; `lexemes` gives each its symbol.
//! What matters: `tokens`, clauses `ok` and `err`: the tokens of the text, or the first refusal.
//! The meaning: specs/Tokens.antt over specs/Steps.antt (the forms of tokens), and
//! specs/Symbols.antt and specs/Lexemes.antt (keywords, signs, and the name Timestamp).
//! It knows no grammar: query_parse does.
#![tactic(auto)]

mod bytes;
mod lexeme;
mod lexer;
mod names;
mod numbers;
mod parse_err;
mod step;
mod symbol;
mod texts;
mod token;

pub use bytes::{is_word_byte, is_word_start};
pub use lexeme::{Lexeme, lexemes};
pub use lexer::{MAX_TEXT, tokens};
pub use numbers::{MAX_DECIMALS, decimals_of, digits_len, millionths, value_from};
pub use parse_err::ParseErr;
pub use symbol::{Symbol, fixed_text, is_same_word, symbol_at};
pub use token::{Token, TokenKind};
