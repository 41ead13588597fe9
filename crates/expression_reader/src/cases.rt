//! Casts and CASE, a method for each line of the grammar.

ghost use Rattle.std.specs.Prelude.{◌≡◌, ◌<◌, Ok, IfOk, IfErr};
ghost use Rattle.grammar_rules.specs.Readers.{IsStop, read_perhaps};
ghost use Rattle.query_tokens.specs.declared.symbol.Symbol.TheVariants as symbol;
ghost use Rattle.query_grammar.specs.Lists.{one};
ghost use Rattle.query_grammar.specs.Reading.{readers, expr_symbols, read_cast, read_case, read_when, read_whens, read_case_end, read_else};

use crate::expressions::inner_expr;
use grammar_rules::{Stop, read_or_stop};
use query_cursor::{Parser, cast_word};
use query_tokens::Symbol;
use query_tree::{Call, Case, Expr, Primary, When};
use sqlite_items::{Boxed, Items};

/// `(CAST | TRY_CAST) "(" expr AS type ")"`
#[cycle(reading)]
#[tactic(auto, unfolding(query_grammar::specs::Reading::read_cast))]
pub fn cast(parser: &mut Parser<'_, '_>, left: u32) -> Result<Primary, Stop>
    ensures ok { IfOk result
        (λ primary. read_cast (readers left) parser.old ≡ Ok (primary, parser.new)) }
    ensures err { IfErr result (IsStop (read_cast (readers left) parser.old) parser.new) }
{
    let word = read_or_stop!(parser.take(&[Symbol::Cast, Symbol::TryCast]));
    read_or_stop!(parser.open(Symbol::Open, left));
    let inner = read_or_stop!(inner_expr(parser, left));
    let kind = read_or_stop!(parser.cast_type(left - 1));
    Ok(Primary::Call(Call::Cast(word.place(), cast_word(word), inner, kind)))
}

/// `CASE [expr] when {when} [ELSE expr] END`
#[cycle(reading)]
#[tactic(auto, unfolding(query_grammar::specs::Reading::read_case))]
pub fn case(parser: &mut Parser<'_, '_>, left: u32) -> Result<Primary, Stop>
    ensures ok { IfOk result
        (λ primary. read_case (readers left) parser.old ≡ Ok (primary, parser.new)) }
    ensures err { IfErr result (IsStop (read_case (readers left) parser.old) parser.new) }
{
    let word = read_or_stop!(parser.open(Symbol::Case, left));
    let subject = read_or_stop!(subject(parser, left));
    let first = read_or_stop!(when(parser, left));
    let more = read_or_stop!(whens(parser, left));
    let otherwise = read_or_stop!(case_end(parser, left));
    Ok(Primary::Case(Case {
        place: word.place(),
        subject,
        first,
        more,
        otherwise,
    }))
}

#[cycle(reading)]
pub fn subject(parser: &mut Parser<'_, '_>, left: u32) -> Result<Option<Boxed<Expr>>, Stop>
    requires { 0 < left }
    ensures ok { IfOk result
        (λ subject. read_perhaps expr_symbols (readers left).expr parser.old
        ≡ Ok (subject, parser.new)) }
    ensures err { IfErr result
        (IsStop (read_perhaps expr_symbols (readers left).expr parser.old) parser.new) }
{
    if parser.begins_expr() {
        Ok(Some(inner_expr(parser, left)?))
    } else {
        Ok(None)
    }
}

/// `WHEN expr THEN expr`
#[cycle(reading)]
#[tactic(auto, unfolding(query_grammar::specs::Reading::read_when))]
pub fn when(parser: &mut Parser<'_, '_>, left: u32) -> Result<When, Stop>
    requires { 0 < left }
    ensures ok { IfOk result (λ part. read_when (readers left) parser.old ≡ Ok (part, parser.new)) }
    ensures err { IfErr result (IsStop (read_when (readers left) parser.old) parser.new) }
{
    let word = parser.expect(Symbol::When)?;
    let when = inner_expr(parser, left)?;
    parser.expect(Symbol::Then)?;
    let then = inner_expr(parser, left)?;
    Ok(When {
        place: word.place(),
        when,
        then,
    })
}

#[cycle(reading)]
#[tactic(auto, unfolding(query_grammar::specs::Reading::read_whens))]
pub fn whens(parser: &mut Parser<'_, '_>, left: u32) -> Result<Items<When>, Stop>
    requires { 0 < left }
    ensures ok { IfOk result
        (λ more. read_whens (readers left) parser.old ≡ Ok (more, parser.new)) }
    ensures err { IfErr result (IsStop (read_whens (readers left) parser.old) parser.new) }
{
    let mut more = Items::new(parser.alloc());
    'whens: while parser.is(Symbol::When) {
        more.push(when(parser, left)?)?;
    }
    Ok(more)
}

/// `[ELSE expr] END`
#[cycle(reading)]
#[tactic(auto, unfolding(query_grammar::specs::Reading::read_case_end))]
pub fn case_end(parser: &mut Parser<'_, '_>, left: u32) -> Result<Option<Boxed<Expr>>, Stop>
    requires { 0 < left }
    ensures ok { IfOk result
        (λ otherwise. read_case_end (readers left) parser.old ≡ Ok (otherwise, parser.new)) }
    ensures err { IfErr result (IsStop (read_case_end (readers left) parser.old) parser.new) }
{
    let otherwise = perhaps_else(parser, left)?;
    parser.expect(Symbol::End)?;
    Ok(otherwise)
}

#[cycle(reading)]
#[tactic(auto, unfolding(query_grammar::specs::Reading::read_else))]
pub fn perhaps_else(parser: &mut Parser<'_, '_>, left: u32) -> Result<Option<Boxed<Expr>>, Stop>
    requires { 0 < left }
    ensures ok { IfOk result
        (λ otherwise. read_perhaps (one symbol.Else) (read_else (readers left)) parser.old
        ≡ Ok (otherwise, parser.new)) }
    ensures err { IfErr result
        (IsStop (read_perhaps (one symbol.Else) (read_else (readers left)) parser.old) parser.new) }
{
    if parser.is(Symbol::Else) {
        parser.expect(Symbol::Else)?;
        Ok(Some(inner_expr(parser, left)?))
    } else {
        Ok(None)
    }
}
