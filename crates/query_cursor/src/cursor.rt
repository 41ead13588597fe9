//! `Parser`, the tokens that are left, and how single ones are taken.

ghost use Rattle.std.specs.Prelude.{◌≡◌, ◌<◌, Ok, Err, IfOk, IfErr, OnOk, drop};
ghost use Rattle.grammar_rules.specs.Lexemes.{among, begins_with, first_place};
ghost use Rattle.grammar_rules.specs.Readers.{read_token, read_open};
ghost use Rattle.query_tokens.specs.Symbols.{symbol_number};
ghost use Rattle.query_grammar.specs.Lists.{set_of, one};
ghost use Rattle.query_grammar.specs.Reading.{read_fixed, read_flagged};

use grammar_rules::Stop;
use query_tokens::{Lexeme, Symbol};
use std::alloc::Global;
use std::marker::Model;

/// What is left of a text's tokens, its end as the last. After a refusal other than for want of
/// memory, the first of them is the one at which reading stopped.
#[derive(Drop)]
pub struct Parser<'t, 'l> {
    alloc: Global,
    lexemes: &'l [Lexeme<'t>],
}

impl<'t, 'l> Model for Parser<'t, 'l> {
    ghost use Rattle.std.specs.Prelude.{List};
    ghost use Rattle.grammar_rules.specs.Lexemes.{Lexeme as seen};

    ghost Value = { List seen };

    ghost view = { λ p. p.lexemes.now };
}

impl<'t, 'l> Parser<'t, 'l> {
    /// A parser before these tokens.
    pub fn of(alloc: Global, lexemes: &'l [Lexeme<'t>]) -> Self
        ensures { result ≡ lexemes.now }
    {
        Parser { alloc, lexemes }
    }

    /// The allocator.
    pub fn alloc(&self) -> Global {
        self.alloc
    }

    /// The tokens that are left.
    pub fn left(&self) -> &'l [Lexeme<'t>]
        ensures { result.now ≡ self.now }
    {
        self.lexemes
    }

    /// Goes back to tokens that were left before.
    pub fn go_back(&mut self, lexemes: &'l [Lexeme<'t>])
        ensures { self.new ≡ lexemes.now }
    {
        self.lexemes = lexemes;
    }

    /// The place of the next token.
    pub fn place(&self) -> u32
        ensures { result ≡ first_place self.now }
    {
        match self.lexemes.first() {
            Some(lexeme) => lexeme.place(),
            None => 0,
        }
    }

    /// Whether the next token has one of these symbols.
    #[tactic(auto, using(query_grammar::proofs::Sets::among_absent))]
    pub fn is_one_of(&self, symbols: &[Symbol]) -> bool
        ensures { result ≡ begins_with (set_of symbols.now) self.now }
    {
        match self.lexemes.first() {
            Some(lexeme) => is_among(symbols, lexeme.symbol()),
            None => false,
        }
    }

    /// Whether the next token has this symbol.
    pub fn is(&self, symbol: Symbol) -> bool
        ensures { result ≡ begins_with (one symbol) self.now }
    {
        self.is_one_of(&[symbol])
    }

    /// Takes the next token where it has one of these symbols.
    #[tactic(auto, using(query_grammar::proofs::Sets::among_absent))]
    pub fn take(&mut self, symbols: &[Symbol]) -> Result<&'l Lexeme<'t>, Stop>
        ensures ok { IfOk result (λ t. read_token (set_of symbols.now) self.old ≡ Ok (t.now, self.new)) }
        ensures err { IfErr result (λ stop. read_token (set_of symbols.now) self.old ≡ Err (stop, self.new)) }
    {
        match self.lexemes {
            [] => Err(Stop::Expected),
            [lexeme, left @ ..] => {
                if is_among(symbols, lexeme.symbol()) {
                    self.lexemes = left;
                    Ok(lexeme)
                } else {
                    Err(Stop::Expected)
                }
            }
        }
    }

    /// Takes the next token where it has this symbol.
    pub fn expect(&mut self, symbol: Symbol) -> Result<&'l Lexeme<'t>, Stop>
        ensures ok { IfOk result (λ t. read_fixed symbol self.old ≡ Ok (t.now, self.new)) }
        ensures err { IfErr result (λ stop. read_fixed symbol self.old ≡ Err (stop, self.new)) }
    {
        self.take(&[symbol])
    }

    /// Takes a token that may be absent, and answers whether it is there.
    pub fn flag(&mut self, symbol: Symbol) -> bool
        ensures { read_flagged symbol self.old ≡ Ok (result, self.new) }
    {
        match self.lexemes {
            [lexeme, left @ ..] if lexeme.symbol().is(symbol) => {
                self.lexemes = left;
                true
            }
            _ => false,
        }
    }

    /// Takes a token that opens, where so many openings are left.
    pub fn open(&mut self, symbol: Symbol, left: u32) -> Result<&'l Lexeme<'t>, Stop>
        ensures ok { IfOk result (λ t. read_open left (one symbol) self.old ≡ Ok (t.now, self.new)) }
        ensures err { IfErr result (λ stop. read_open left (one symbol) self.old ≡ Err (stop, self.new)) }
        ensures left { OnOk result (0 < left) }
    {
        if left > 0 {
            self.expect(symbol)
        } else if self.is(symbol) {
            Err(Stop::Deep)
        } else {
            Err(Stop::Expected)
        }
    }
}

/// Whether a symbol is one of these.
fn is_among(symbols: &[Symbol], symbol: Symbol) -> bool
    ensures { result ≡ among (set_of symbols.now) (symbol_number symbol) }
{
    let mut rest = symbols;
    'others: while let [one, others @ ..] = rest {
        if one.is(symbol) {
            return true;
        }
        rest = others;
    }
    false
}
