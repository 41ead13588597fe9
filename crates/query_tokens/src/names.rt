//! The forms of words and of names in brackets.

ghost use Rattle.std.specs.Prelude.{◌≡◌, ◌≤◌, ◌<◌, ◌+◌, IsTrue, length, slice_index};
ghost use Rattle.std.specs.List.{prefix_len};
ghost use Rattle.query_tokens.specs.Bytes.{is_word_start, is_word_byte};
ghost use Rattle.query_tokens.specs.Steps.{word_step, bracketed_step, name_end_from, IsStepWithin};

use crate::bytes::{ends_name, first_or_zero, is_word_byte};
use crate::step::Step;
use crate::token::TokenKind;

/// The greatest length of a name.
pub const MAX_NAME: usize = 64;

/// The step of a text that begins with a word.
#[tactic(auto, unfolding(crate::specs::Steps::word_step))]
pub fn next_word(text: &[u8]) -> Step
    requires { IsTrue (is_word_start (slice_index text.now 0)) }
    ensures step { result ≡ word_step text.now }
    ensures within { IsStepWithin (length text.now) result }
{
    let size = word_len(text);
    if size <= MAX_NAME {
        Step::Token(TokenKind::Word, size)
    } else {
        Step::Stuck
    }
}

/// How many bytes of a word a text begins with.
fn word_len(text: &[u8]) -> usize
    ensures size { result ≡ prefix_len is_word_byte text.now }
    ensures within { result ≤ length text.now }
{
    text.iter().take_while(|byte| is_word_byte(**byte)).count()
}

/// The step of a text that begins with a bracket, behind the bracket.
#[tactic(auto, unfolding(crate::specs::Steps::bracketed_step))]
pub fn next_bracketed(rest: &[u8]) -> Step
    ensures step { result ≡ bracketed_step rest.now }
    ensures within { IsStepWithin (length rest.now + 1) result }
{
    let size = name_end(rest);
    if (1..=MAX_NAME).contains(&size) && rest.get(size) == Some(&b']') {
        Step::Token(TokenKind::Bracketed, size + 2)
    } else {
        Step::Stuck
    }
}

/// How many bytes stand before the first one that ends a name in brackets.
fn name_end(text: &[u8]) -> usize
    ensures place { result ≡ name_end_from 0 text.now }
    ensures within { result ≤ length text.now }
{
    let mut rest = text;
    while let [first, after @ ..] = rest {
        if ends_name(*first, first_or_zero(after)) {
            break;
        }
        rest = after;
    }
    text.len() - rest.len()
}
