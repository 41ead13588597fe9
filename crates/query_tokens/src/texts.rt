//! The forms of texts and signs.

ghost use Rattle.std.specs.Prelude.{◌≡◌, ◌<◌, ◌+◌, false, IfSome, length};
ghost use Rattle.query_tokens.specs.Steps.{text_step, end_quote_from, sign_step, IsStepWithin};

use crate::bytes::{first_or_zero, is_long_sign, is_short_sign};
use crate::step::Step;
use crate::token::TokenKind;

/// The step of a text that begins with a quote, behind the quote.
#[tactic(auto, unfolding(crate::specs::Steps::text_step))]
pub fn next_text(rest: &[u8]) -> Step
    ensures step { result ≡ text_step rest.now }
    ensures within { IsStepWithin (length rest.now + 1) result }
{
    match end_quote(rest) {
        Some(size) => Step::Token(TokenKind::Text, size + 2),
        None => Step::Stuck,
    }
}

/// How many bytes stand before the first quote that isn't one of two in a row.
fn end_quote(text: &[u8]) -> Option<usize>
    ensures place { result ≡ end_quote_from false 0 text.now }
    ensures within { IfSome result (λ size. size < length text.now) }
{
    let mut rest = text;
    let mut second = false;
    while let [first, after @ ..] = rest {
        if second {
            second = false;
        } else if *first == b'\'' {
            if first_or_zero(after) != b'\'' {
                return Some(text.len() - rest.len());
            }
            second = true;
        }
        rest = after;
    }
    None
}

/// The step of a text that begins with a sign, or with no token.
#[tactic(auto, unfolding(crate::specs::Steps::sign_step))]
pub fn next_sign(first: u8, rest: &[u8]) -> Step
    ensures step { result ≡ sign_step first rest.now }
    ensures within { IsStepWithin (length rest.now + 1) result }
{
    if is_long_sign(first, first_or_zero(rest)) {
        Step::Token(TokenKind::Sign, 2)
    } else if is_short_sign(first) {
        Step::Token(TokenKind::Sign, 1)
    } else {
        Step::Stuck
    }
}
