//! The signs and words of operators.

ghost use Rattle.std.specs.Prelude.{◌≡◌};
ghost use Rattle.query_print.specs.Expressions.{rel_symbol, sum_symbol, prod_symbol, cast_symbol};

use query_tokens::Symbol;
use query_tree::{CastWord, ProdSign, Rel, SumSign};

pub fn rel_symbol(rel: Rel) -> Symbol
    ensures { result ≡ rel_symbol rel }
{
    match rel {
        Rel::Eq => Symbol::Equal,
        Rel::Ne => Symbol::Unequal,
        Rel::Lt => Symbol::Less,
        Rel::Le => Symbol::LessEqual,
        Rel::Gt => Symbol::Greater,
        Rel::Ge => Symbol::GreaterEqual,
    }
}

pub fn sum_symbol(sign: SumSign) -> Symbol
    ensures { result ≡ sum_symbol sign }
{
    match sign {
        SumSign::Plus => Symbol::Plus,
        SumSign::Minus => Symbol::Minus,
    }
}

pub fn prod_symbol(sign: ProdSign) -> Symbol
    ensures { result ≡ prod_symbol sign }
{
    match sign {
        ProdSign::Star => Symbol::Star,
        ProdSign::Slash => Symbol::Slash,
        ProdSign::Percent => Symbol::Percent,
    }
}

pub fn cast_symbol(word: CastWord) -> Symbol
    ensures { result ≡ cast_symbol word }
{
    match word {
        CastWord::Cast => Symbol::Cast,
        CastWord::TryCast => Symbol::TryCast,
    }
}
