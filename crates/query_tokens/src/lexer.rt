//! `tokens`, the tokens of a text.

ghost use Rattle.std.specs.Prelude.{◌≡◌, ◌≤◌, Ok, IfOk, IfErr, OnOk, length};
ghost use Rattle.query_tokens.specs.Bytes.{max_text};
ghost use Rattle.query_tokens.specs.Tokens.{tokens_of, tokens_from, AscendWithin, IsOfTokens, IsRefusal};

use crate::parse_err::ParseErr;
use crate::step::{Step, next_step};
use crate::token::Token;
use event_value::Seq;
use std::alloc::Global;

/// The greatest length of a query.
pub const MAX_TEXT: usize = 65_536;

/// The tokens of a text, in order.
///
/// # Errors
/// `TooLong`, `Utf8` and `Token` by the text, the first of them that is due; `Memory`.
pub fn tokens(alloc: Global, text: &[u8]) -> Result<Seq<Token>, ParseErr>
    ensures ok { IfOk result (λ tokens. tokens_of text.now ≡ Ok tokens) }
    ensures ascend { IfOk result (AscendWithin 0 (length text.now)) }
    ensures short { OnOk result (length text.now ≤ max_text) }
    ensures err { IfErr result (IsRefusal (tokens_of text.now)) }
    ensures of_tokens { IfErr result IsOfTokens }
{
    if text.len() > MAX_TEXT {
        return Err(ParseErr::TooLong);
    }
    match std::str::from_utf8(text) {
        Ok(_) => tokens_of_utf8(alloc, text),
        Err(error) => Err(ParseErr::Utf8(error.valid_up_to() as u32)),
    }
}

fn tokens_of_utf8(alloc: Global, text: &[u8]) -> Result<Seq<Token>, ParseErr>
    requires { length text.now ≤ max_text }
    ensures ok { IfOk result (λ tokens. tokens_from 0 0 text.now ≡ Ok tokens) }
    ensures ascend { IfOk result (AscendWithin 0 (length text.now)) }
    ensures err { IfErr result (IsRefusal (tokens_from 0 0 text.now)) }
    ensures of_tokens { IfErr result IsOfTokens }
{
    let mut tokens = Seq::empty(alloc);
    let mut rest = text;
    while !rest.is_empty() {
        let start = text.len() - rest.len();
        match next_step(rest) {
            Step::Skip(size) => rest = rest.split_at(size).1,
            Step::Token(kind, size) => {
                let end = start + size;
                tokens.push(Token {
                    kind,
                    start: start as u32,
                    end: end as u32,
                })?;
                rest = rest.split_at(size).1;
            }
            Step::Stuck => return Err(ParseErr::Token(start as u32)),
        }
    }
    Ok(tokens)
}
