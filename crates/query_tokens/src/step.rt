//! `next_step`, what a text begins with.

ghost use Rattle.std.specs.Prelude.{◌≡◌, ◌≤◌, ◌<◌, ◌+◌, ◌∷◌, IfSome, length};
ghost use Rattle.std.specs.List.{prefix_len};
ghost use Rattle.query_tokens.specs.Bytes.{is_in_line};
ghost use Rattle.query_tokens.specs.Steps.{step_of, plain_step, block_comment_step, line_comment_step, comment_end_from, IsStepWithin};

use crate::bytes::{first_or_zero, is_blank, is_digit, is_in_line, is_word_start};
use crate::names::{next_bracketed, next_word};
use crate::numbers::next_number;
use crate::texts::{next_sign, next_text};
use crate::token::TokenKind;

/// The next step through a text.
#[derive(Clone, Copy, PartialEq, Eq)]
pub enum Step {
    /// So many bytes separate tokens.
    Skip(usize),
    /// The next token has so many bytes.
    Token(TokenKind, usize),
    /// No token begins here.
    Stuck,
}

/// The step that a text begins with.
pub fn next_step(text: &[u8]) -> Step
    ensures step { result ≡ step_of text.now }
    ensures within { IsStepWithin (length text.now) result }
{
    let Some((first, rest)) = text.split_first() else {
        return Step::Stuck;
    };
    match (*first, first_or_zero(rest)) {
        (b'-', b'-') => line_comment(rest.split_at(1).1),
        (b'/', b'*') => block_comment(rest.split_at(1).1),
        _ => plain(*first, rest, text),
    }
}

/// The step of a text with this first byte, which begins no comment.
fn plain(first: u8, rest: &[u8], text: &[u8]) -> Step
    requires { text.now ≡ first ∷ rest.now }
    ensures step { result ≡ plain_step first rest.now }
    ensures within { IsStepWithin (length text.now) result }
{
    if is_blank(first) {
        Step::Skip(1)
    } else if is_word_start(first) {
        next_word(text)
    } else if is_digit(first) {
        next_number(text)
    } else if first == b'\'' {
        next_text(rest)
    } else if first == b'[' {
        next_bracketed(rest)
    } else {
        next_sign(first, rest)
    }
}

/// A comment to the end of the line, behind its first two bytes.
#[tactic(auto, unfolding(crate::specs::Steps::line_comment_step))]
fn line_comment(rest: &[u8]) -> Step
    ensures step { result ≡ line_comment_step rest.now }
    ensures within { IsStepWithin (length rest.now + 2) result }
{
    Step::Skip(2 + line_len(rest))
}

/// How many bytes stand before the end of the line.
fn line_len(text: &[u8]) -> usize
    ensures size { result ≡ prefix_len is_in_line text.now }
    ensures within { result ≤ length text.now }
{
    text.iter().take_while(|byte| is_in_line(**byte)).count()
}

/// A comment to `*/`, behind its first two bytes.
#[tactic(auto, unfolding(crate::specs::Steps::block_comment_step))]
fn block_comment(rest: &[u8]) -> Step
    ensures step { result ≡ block_comment_step rest.now }
    ensures within { IsStepWithin (length rest.now + 2) result }
{
    match comment_end(rest) {
        Some(size) => Step::Skip(size + 4),
        None => Step::Stuck,
    }
}

/// How many bytes stand before the first `*/`.
fn comment_end(text: &[u8]) -> Option<usize>
    ensures place { result ≡ comment_end_from 0 text.now }
    ensures within { IfSome result (λ size. size + 2 ≤ length text.now) }
{
    let mut rest = text;
    while let [first, after @ ..] = rest {
        if *first == b'*' && after.first() == Some(&b'/') {
            return Some(text.len() - rest.len());
        }
        rest = after;
    }
    None
}
