//! What words and signs stand for, and which of them begin a part of the grammar.

ghost use Rattle.std.specs.Prelude.{◌≡◌};
ghost use Rattle.grammar_rules.specs.Lexemes.{begins_with};
ghost use Rattle.query_grammar.specs.Lists.{name_symbols};
ghost use Rattle.query_grammar.specs.ExpressionGrammar.{rel_of, sum_sign, prod_sign, cast_word, rel_symbols, sum_symbols, prod_symbols, cast_symbols};
ghost use Rattle.query_grammar.specs.Reading.{expr_symbols, args_symbols, negatable_symbols, rest_symbols, alias_symbols, side_symbols, join_symbols};

use crate::cursor::Parser;
use query_tokens::{Lexeme, Symbol};
use query_tree::{CastWord, ProdSign, Rel, SumSign};

/// The comparison of a sign.
pub fn rel_of(lexeme: &Lexeme<'_>) -> Rel
    ensures { result ≡ rel_of lexeme.now }
{
    let sign = lexeme.symbol();
    if sign.is(Symbol::Equal) {
        Rel::Eq
    } else if sign.is(Symbol::Unequal) {
        Rel::Ne
    } else if sign.is(Symbol::Less) {
        Rel::Lt
    } else if sign.is(Symbol::LessEqual) {
        Rel::Le
    } else if sign.is(Symbol::Greater) {
        Rel::Gt
    } else {
        Rel::Ge
    }
}

/// The sign before a further part of a sum.
pub fn sum_sign(lexeme: &Lexeme<'_>) -> SumSign
    ensures { result ≡ sum_sign lexeme.now }
{
    if lexeme.symbol().is(Symbol::Plus) {
        SumSign::Plus
    } else {
        SumSign::Minus
    }
}

/// The sign before a further part of a product.
pub fn prod_sign(lexeme: &Lexeme<'_>) -> ProdSign
    ensures { result ≡ prod_sign lexeme.now }
{
    let sign = lexeme.symbol();
    if sign.is(Symbol::Star) {
        ProdSign::Star
    } else if sign.is(Symbol::Slash) {
        ProdSign::Slash
    } else {
        ProdSign::Percent
    }
}

/// The word of a cast.
pub fn cast_word(lexeme: &Lexeme<'_>) -> CastWord
    ensures { result ≡ cast_word lexeme.now }
{
    if lexeme.symbol().is(Symbol::Cast) {
        CastWord::Cast
    } else {
        CastWord::TryCast
    }
}

impl<'t, 'l> Parser<'t, 'l> {
    pub fn begins_name(&self) -> bool
        ensures { result ≡ begins_with name_symbols self.now }
    {
        self.is_one_of(&[Symbol::Word, Symbol::Bracketed])
    }

    pub fn begins_cast(&self) -> bool
        ensures { result ≡ begins_with cast_symbols self.now }
    {
        self.is_one_of(&[Symbol::Cast, Symbol::TryCast])
    }

    pub fn begins_sum_more(&self) -> bool
        ensures { result ≡ begins_with sum_symbols self.now }
    {
        self.is_one_of(&[Symbol::Plus, Symbol::Minus])
    }

    pub fn begins_prod_more(&self) -> bool
        ensures { result ≡ begins_with prod_symbols self.now }
    {
        self.is_one_of(&[Symbol::Star, Symbol::Slash, Symbol::Percent])
    }

    pub fn begins_compare(&self) -> bool
        ensures { result ≡ begins_with rel_symbols self.now }
    {
        self.is_one_of(&[
            Symbol::Equal,
            Symbol::Unequal,
            Symbol::Less,
            Symbol::LessEqual,
            Symbol::Greater,
            Symbol::GreaterEqual,
        ])
    }

    pub fn begins_negatable(&self) -> bool
        ensures { result ≡ begins_with negatable_symbols self.now }
    {
        self.is_one_of(&[Symbol::Not, Symbol::Between, Symbol::In, Symbol::Like])
    }

    /// Whether what may follow a sum follows.
    pub fn begins_rest(&self) -> bool
        ensures { result ≡ begins_with rest_symbols self.now }
    {
        self.is_one_of(&[
            Symbol::Equal,
            Symbol::Unequal,
            Symbol::Less,
            Symbol::LessEqual,
            Symbol::Greater,
            Symbol::GreaterEqual,
            Symbol::Not,
            Symbol::Between,
            Symbol::In,
            Symbol::Like,
            Symbol::Is,
        ])
    }

    pub fn begins_expr(&self) -> bool
        ensures { result ≡ begins_with expr_symbols self.now }
    {
        self.is_one_of(&[
            Symbol::Not,
            Symbol::Minus,
            Symbol::Number,
            Symbol::Text,
            Symbol::Null,
            Symbol::Word,
            Symbol::Bracketed,
            Symbol::Cast,
            Symbol::TryCast,
            Symbol::Case,
            Symbol::Open,
        ])
    }

    pub fn begins_arguments(&self) -> bool
        ensures { result ≡ begins_with args_symbols self.now }
    {
        self.is_one_of(&[
            Symbol::Star,
            Symbol::Distinct,
            Symbol::Not,
            Symbol::Minus,
            Symbol::Number,
            Symbol::Text,
            Symbol::Null,
            Symbol::Word,
            Symbol::Bracketed,
            Symbol::Cast,
            Symbol::TryCast,
            Symbol::Case,
            Symbol::Open,
        ])
    }

    pub fn begins_alias(&self) -> bool
        ensures { result ≡ begins_with alias_symbols self.now }
    {
        self.is_one_of(&[Symbol::As, Symbol::Word, Symbol::Bracketed])
    }

    pub fn begins_side(&self) -> bool
        ensures { result ≡ begins_with side_symbols self.now }
    {
        self.is_one_of(&[Symbol::Inner, Symbol::Left])
    }

    pub fn begins_join(&self) -> bool
        ensures { result ≡ begins_with join_symbols self.now }
    {
        self.is_one_of(&[Symbol::Inner, Symbol::Left, Symbol::Join])
    }
}
