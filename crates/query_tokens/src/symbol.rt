//! `Symbol`, what a token is to the grammar.

ghost use Rattle.std.specs.Prelude.{◌≡◌};
ghost use Rattle.query_tokens.specs.Symbols.{symbol_of, is_symbol, fixed_text, fixed_among, keywords, signs, is_same_word};

use crate::token::TokenKind;

/// What a token is to the grammar: a keyword, a token of another form, or a sign.
#[derive(Clone, Copy, PartialEq, Eq)]
pub enum Symbol {
    /// The end of the text counts as one more token.
    EndOfText,
    With,
    As,
    Union,
    Select,
    Into,
    From,
    Where,
    Group,
    By,
    Having,
    Timestamp,
    Over,
    Inner,
    Left,
    Outer,
    Join,
    On,
    Partition,
    Or,
    And,
    Not,
    Between,
    In,
    Like,
    Is,
    Null,
    Case,
    When,
    Then,
    Else,
    End,
    Cast,
    TryCast,
    Distinct,
    /// A word that isn't a keyword.
    Word,
    /// A name in brackets.
    Bracketed,
    /// The name Timestamp behind the name System and a point.
    Stamp,
    Number,
    Text,
    Open,
    Close,
    Comma,
    Point,
    Semicolon,
    Star,
    Plus,
    Minus,
    Slash,
    Percent,
    Equal,
    /// `<>` or `!=`.
    Unequal,
    Less,
    LessEqual,
    Greater,
    GreaterEqual,
}

const KEYWORDS: [Symbol; 34] = [
    Symbol::With,
    Symbol::As,
    Symbol::Union,
    Symbol::Select,
    Symbol::Into,
    Symbol::From,
    Symbol::Where,
    Symbol::Group,
    Symbol::By,
    Symbol::Having,
    Symbol::Timestamp,
    Symbol::Over,
    Symbol::Inner,
    Symbol::Left,
    Symbol::Outer,
    Symbol::Join,
    Symbol::On,
    Symbol::Partition,
    Symbol::Or,
    Symbol::And,
    Symbol::Not,
    Symbol::Between,
    Symbol::In,
    Symbol::Like,
    Symbol::Is,
    Symbol::Null,
    Symbol::Case,
    Symbol::When,
    Symbol::Then,
    Symbol::Else,
    Symbol::End,
    Symbol::Cast,
    Symbol::TryCast,
    Symbol::Distinct,
];

const SIGNS: [Symbol; 15] = [
    Symbol::Open,
    Symbol::Close,
    Symbol::Comma,
    Symbol::Point,
    Symbol::Semicolon,
    Symbol::Star,
    Symbol::Plus,
    Symbol::Minus,
    Symbol::Slash,
    Symbol::Percent,
    Symbol::Equal,
    Symbol::Less,
    Symbol::LessEqual,
    Symbol::Greater,
    Symbol::GreaterEqual,
];

impl Symbol {
    /// Whether it is this symbol.
    pub fn is(self, symbol: Symbol) -> bool
        ensures { result ≡ is_symbol self symbol }
    {
        self == symbol
    }
}

/// The symbol of a token of this kind with these bytes.
pub fn symbol_at(kind: TokenKind, text: &[u8]) -> Symbol
    ensures { result ≡ symbol_of kind text.now }
{
    match kind {
        TokenKind::Word => fixed_among(&KEYWORDS, text, Symbol::Word),
        TokenKind::Bracketed => Symbol::Bracketed,
        TokenKind::Number => Symbol::Number,
        TokenKind::Text => Symbol::Text,
        TokenKind::Sign => fixed_among(&SIGNS, text, Symbol::Unequal),
    }
}

/// The first of these symbols whose text this is, or another symbol where it is the text of none.
#[tactic(auto, unfolding(crate::specs::Symbols::fixed_among))]
fn fixed_among(symbols: &[Symbol], text: &[u8], other: Symbol) -> Symbol
    ensures { result ≡ fixed_among symbols.now text.now other }
{
    for symbol in symbols {
        if is_same_word(fixed_text(*symbol), text) {
            return *symbol;
        }
    }
    other
}

/// Whether two words are equal, without ASCII case.
pub fn is_same_word(first: &[u8], second: &[u8]) -> bool
    ensures { result ≡ is_same_word first.now second.now }
{
    first.eq_ignore_ascii_case(second)
}

/// The canonical text of a keyword or a sign; of another symbol the empty text.
pub fn fixed_text(symbol: Symbol) -> &'static [u8]
    ensures { result.now ≡ fixed_text symbol }
{
    match symbol {
        Symbol::With => b"WITH",
        Symbol::As => b"AS",
        Symbol::Union => b"UNION",
        Symbol::Select => b"SELECT",
        Symbol::Into => b"INTO",
        Symbol::From => b"FROM",
        Symbol::Where => b"WHERE",
        Symbol::Group => b"GROUP",
        Symbol::By => b"BY",
        Symbol::Having => b"HAVING",
        Symbol::Timestamp => b"TIMESTAMP",
        Symbol::Over => b"OVER",
        Symbol::Inner => b"INNER",
        Symbol::Left => b"LEFT",
        Symbol::Outer => b"OUTER",
        Symbol::Join => b"JOIN",
        Symbol::On => b"ON",
        Symbol::Partition => b"PARTITION",
        Symbol::Or => b"OR",
        Symbol::And => b"AND",
        Symbol::Not => b"NOT",
        Symbol::Between => b"BETWEEN",
        Symbol::In => b"IN",
        Symbol::Like => b"LIKE",
        Symbol::Is => b"IS",
        Symbol::Null => b"NULL",
        Symbol::Case => b"CASE",
        Symbol::When => b"WHEN",
        Symbol::Then => b"THEN",
        Symbol::Else => b"ELSE",
        Symbol::End => b"END",
        Symbol::Cast => b"CAST",
        Symbol::TryCast => b"TRY_CAST",
        Symbol::Distinct => b"DISTINCT",
        Symbol::Open => b"(",
        Symbol::Close => b")",
        Symbol::Comma => b",",
        Symbol::Point => b".",
        Symbol::Semicolon => b";",
        Symbol::Star => b"*",
        Symbol::Plus => b"+",
        Symbol::Minus => b"-",
        Symbol::Slash => b"/",
        Symbol::Percent => b"%",
        Symbol::Equal => b"=",
        Symbol::Unequal => b"<>",
        Symbol::Less => b"<",
        Symbol::LessEqual => b"<=",
        Symbol::Greater => b">",
        Symbol::GreaterEqual => b">=",
        _ => b"",
    }
}
