//! `Behind`, what the words of a text are to the next one.

ghost use Rattle.std.specs.Prelude.{◌≡◌};
ghost use Rattle.query_print.specs.Words.{behind_point, behind_fixed, behind_name, is_tight_behind, is_tight_sign, is_tight_fixed, is_called, is_behind_stamp_point};

use query_tokens::{Symbol, is_same_word};

/// What the last words are to the next one.
#[derive(Clone, Copy, PartialEq, Eq)]
pub enum Behind {
    /// There are none.
    Start,
    /// An opening parenthesis.
    Open,
    /// A point.
    Point,
    /// The name System and a point.
    StampPoint,
    /// The name System.
    System,
    /// Another name, CAST or TRY_CAST.
    Called,
    Other,
}

/// What a keyword or a sign behind others is to the next word.
pub fn behind_fixed(last: Behind, symbol: Symbol) -> Behind
    ensures { result ≡ behind_fixed last symbol }
{
    if symbol.is(Symbol::Open) {
        Behind::Open
    } else if symbol.is(Symbol::Point) {
        behind_point(last)
    } else if symbol.is(Symbol::Cast) || symbol.is(Symbol::TryCast) {
        Behind::Called
    } else {
        Behind::Other
    }
}

fn behind_point(last: Behind) -> Behind
    ensures { result ≡ behind_point last }
{
    match last {
        Behind::System => Behind::StampPoint,
        _ => Behind::Point,
    }
}

/// What a name is to the next word.
pub fn behind_name(name: &[u8]) -> Behind
    ensures { result ≡ behind_name name.now }
{
    if is_same_word(name, b"System") {
        Behind::System
    } else {
        Behind::Called
    }
}

/// Whether no space stands before a keyword or a sign.
pub fn is_tight_fixed(last: Behind, symbol: Symbol) -> bool
    ensures { result ≡ is_tight_fixed last symbol }
{
    is_tight_behind(last) || is_tight_sign(symbol) || (symbol.is(Symbol::Open) && is_called(last))
}

/// Whether no space stands before any word.
pub fn is_tight_behind(last: Behind) -> bool
    ensures { result ≡ is_tight_behind last }
{
    matches!(
        last,
        Behind::Start | Behind::Open | Behind::Point | Behind::StampPoint
    )
}

fn is_tight_sign(symbol: Symbol) -> bool
    ensures { result ≡ is_tight_sign symbol }
{
    symbol.is(Symbol::Comma)
        || symbol.is(Symbol::Close)
        || symbol.is(Symbol::Point)
        || symbol.is(Symbol::Semicolon)
}

fn is_called(last: Behind) -> bool
    ensures { result ≡ is_called last }
{
    matches!(last, Behind::System | Behind::Called)
}

/// Whether the last words are the name System and a point.
pub fn is_behind_stamp_point(last: Behind) -> bool
    ensures { result ≡ is_behind_stamp_point last }
{
    matches!(last, Behind::StampPoint)
}
