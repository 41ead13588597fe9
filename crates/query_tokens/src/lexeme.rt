//! `lexemes`, the tokens of a text as its grammar sees them.

ghost use Rattle.std.specs.Prelude.{◌≡◌, ◌≤◌, IfOk, length};
ghost use Rattle.query_tokens.specs.Bytes.{max_text};
ghost use Rattle.query_tokens.specs.Tokens.{AscendWithin};
ghost use Rattle.query_tokens.specs.Symbols.{symbol_number};
ghost use Rattle.query_tokens.specs.Lexemes.{bytes_of, end_of, lexemes_of, symbol_behind, before_next, behind_point};

use crate::symbol::{Symbol, is_same_word, symbol_at};
use crate::token::Token;
use event_value::{Memory, Seq};
use std::alloc::Global;
use std::marker::Model;

/// A token as the grammar sees it: its symbol, its bytes and the place of the first of them.
#[derive(Drop)]
pub struct Lexeme<'a> {
    symbol: Symbol,
    bytes: &'a [u8],
    place: u32,
}

impl<'a> Model for Lexeme<'a> {
    ghost use Rattle.grammar_rules.specs.Lexemes.{Lexeme as seen};
    ghost use Rattle.query_tokens.specs.Symbols.{symbol_number};

    ghost Value = { seen };

    ghost view = { λ l. record { symbol = symbol_number l.symbol; bytes = l.bytes.now; place = l.place } };
}

impl<'a> Lexeme<'a> {
    /// The symbol.
    pub fn symbol(&self) -> Symbol
        ensures { symbol_number result ≡ self.now.symbol }
    {
        self.symbol
    }

    /// The bytes; of the end of the text there are none.
    pub fn bytes(&self) -> &'a [u8]
        ensures { result.now ≡ self.now.bytes }
    {
        self.bytes
    }

    /// The place of the first byte.
    pub fn place(&self) -> u32
        ensures { result ≡ self.now.place }
    {
        self.place
    }
}

/// What the tokens so far say about the next one.
#[derive(Clone, Copy, PartialEq, Eq)]
pub enum Before {
    Other,
    /// The last token is the word System.
    System,
    /// The last token is the name System in brackets.
    SystemName,
    /// The last tokens are the word System and a point.
    Point,
    /// The last tokens are the name System in brackets and a point.
    NamePoint,
}

/// The tokens of a text as its grammar sees them, with the end of the text as the last.
///
/// # Errors
/// `Memory` where there was none for the list.
#[tactic(auto, unfolding(crate::specs::Lexemes::lexemes_behind))]
pub fn lexemes<'a>(
    alloc: Global,
    text: &'a [u8],
    tokens: &[Token],
) -> Result<Seq<Lexeme<'a>>, Memory>
    requires within { AscendWithin 0 (length text.now) tokens.now }
    requires short { length text.now ≤ max_text }
    ensures { IfOk result (λ list. list ≡ lexemes_of text.now tokens.now) }
{
    let mut list = Seq::empty(alloc);
    let mut before = Before::Other;
    let mut left = tokens;
    while let Some((token, after)) = left.split_first() {
        let bytes = bytes_of(text, token);
        let symbol = symbol_behind(before, symbol_at(token.kind, bytes), bytes);
        let place = token.start;
        list.push(Lexeme {
            symbol,
            bytes,
            place,
        })?;
        before = before_next(before, symbol, bytes);
        left = after;
    }
    list.push(end_of(text))?;
    Ok(list)
}

fn end_of(text: &[u8]) -> Lexeme<'_>
    requires { length text.now ≤ max_text }
    ensures { result ≡ end_of text.now }
{
    Lexeme {
        symbol: Symbol::EndOfText,
        bytes: &[],
        place: text.len() as u32,
    }
}

fn bytes_of<'a>(text: &'a [u8], token: &Token) -> &'a [u8]
    requires in_order { token.now.start ≤ token.now.end }
    requires within { token.now.end ≤ length text.now }
    ensures { result.now ≡ bytes_of text.now token.now }
{
    &text[token.start as usize..token.end as usize]
}

/// The symbol of a token behind others.
fn symbol_behind(before: Before, symbol: Symbol, bytes: &[u8]) -> Symbol
    ensures { result ≡ symbol_behind before symbol bytes.now }
{
    let is_point = matches!(before, Before::Point);
    let is_name_point = matches!(before, Before::Point | Before::NamePoint);
    if symbol.is(Symbol::Timestamp) && is_point {
        Symbol::Stamp
    } else if symbol.is(Symbol::Bracketed) && is_name_point && is_same_word(bytes, b"[Timestamp]") {
        Symbol::Stamp
    } else {
        symbol
    }
}

/// What the tokens up to and with one say about the next.
fn before_next(before: Before, symbol: Symbol, bytes: &[u8]) -> Before
    ensures { result ≡ before_next before symbol bytes.now }
{
    if symbol.is(Symbol::Word) && is_same_word(bytes, b"System") {
        Before::System
    } else if symbol.is(Symbol::Bracketed) && is_same_word(bytes, b"[System]") {
        Before::SystemName
    } else if symbol.is(Symbol::Point) {
        behind_point(before)
    } else {
        Before::Other
    }
}

fn behind_point(before: Before) -> Before
    ensures { result ≡ behind_point before }
{
    match before {
        Before::System => Before::Point,
        Before::SystemName => Before::NamePoint,
        _ => Before::Other,
    }
}
