//! Expressions, a method for each line of the grammar down to what a comparison is made of.

ghost use Rattle.std.specs.Prelude.{◌≡◌, ◌<◌, Ok, IfOk, IfErr};
ghost use Rattle.grammar_rules.specs.Readers.{IsStop, read_repeated};
ghost use Rattle.query_tokens.specs.declared.symbol.Symbol.TheVariants as symbol;
ghost use Rattle.query_grammar.specs.Lists.{one};
ghost use Rattle.query_grammar.specs.Reading.{readers, read_expr, read_or_more, read_conjunction, read_and_more, read_not, read_negation};

use crate::conditions::pred;
use grammar_rules::{Stop, read_or_stop};
use query_cursor::Parser;
use query_tokens::Symbol;
use query_tree::{And, Expr, Not};
use sqlite_items::{Boxed, Items};

/// `and {OR and}`, where so many openings are left.
#[cycle(reading)]
#[tactic(auto, unfolding(query_grammar::specs::Reading::read_disjunction))]
pub fn expr(parser: &mut Parser<'_, '_>, left: u32) -> Result<Expr, Stop>
    ensures ok { IfOk result (λ expr. read_expr left parser.old ≡ Ok (expr, parser.new)) }
    ensures err { IfErr result (IsStop (read_expr left parser.old) parser.new) }
{
    let place = parser.place();
    let first = read_or_stop!(conjunction(parser, left));
    let more = read_or_stop!(ors(parser, left), first);
    Ok(Expr { place, first, more })
}

#[cycle(reading)]
pub fn ors(parser: &mut Parser<'_, '_>, left: u32) -> Result<Items<And>, Stop>
    ensures ok { IfOk result
        (λ more. read_repeated (one symbol.Or) (read_or_more (readers left)) parser.old
        ≡ Ok (more, parser.new)) }
    ensures err { IfErr result
        (IsStop (read_repeated (one symbol.Or) (read_or_more (readers left)) parser.old)
        parser.new) }
{
    let mut more = Items::new(parser.alloc());
    'ors: while parser.is(Symbol::Or) {
        more.push(or_more(parser, left)?)?;
    }
    Ok(more)
}

#[cycle(reading)]
#[tactic(auto, unfolding(query_grammar::specs::Reading::read_or_more))]
pub fn or_more(parser: &mut Parser<'_, '_>, left: u32) -> Result<And, Stop>
    ensures ok { IfOk result
        (λ part. read_or_more (readers left) parser.old ≡ Ok (part, parser.new)) }
    ensures err { IfErr result (IsStop (read_or_more (readers left) parser.old) parser.new) }
{
    read_or_stop!(parser.expect(Symbol::Or));
    conjunction(parser, left)
}

/// `not {AND not}`
#[cycle(reading)]
#[tactic(auto, unfolding(query_grammar::specs::Reading::read_conjunction))]
pub fn conjunction(parser: &mut Parser<'_, '_>, left: u32) -> Result<And, Stop>
    ensures ok { IfOk result
        (λ part. read_conjunction (readers left) parser.old ≡ Ok (part, parser.new)) }
    ensures err { IfErr result (IsStop (read_conjunction (readers left) parser.old) parser.new) }
{
    let place = parser.place();
    let first = read_or_stop!(not(parser, left));
    let more = read_or_stop!(ands(parser, left), first);
    Ok(And { place, first, more })
}

#[cycle(reading)]
pub fn ands(parser: &mut Parser<'_, '_>, left: u32) -> Result<Items<Not>, Stop>
    ensures ok { IfOk result
        (λ more. read_repeated (one symbol.And) (read_and_more (readers left)) parser.old
        ≡ Ok (more, parser.new)) }
    ensures err { IfErr result
        (IsStop (read_repeated (one symbol.And) (read_and_more (readers left)) parser.old)
        parser.new) }
{
    let mut more = Items::new(parser.alloc());
    'ands: while parser.is(Symbol::And) {
        more.push(and_more(parser, left)?)?;
    }
    Ok(more)
}

#[cycle(reading)]
#[tactic(auto, unfolding(query_grammar::specs::Reading::read_and_more))]
pub fn and_more(parser: &mut Parser<'_, '_>, left: u32) -> Result<Not, Stop>
    ensures ok { IfOk result
        (λ part. read_and_more (readers left) parser.old ≡ Ok (part, parser.new)) }
    ensures err { IfErr result (IsStop (read_and_more (readers left) parser.old) parser.new) }
{
    read_or_stop!(parser.expect(Symbol::And));
    not(parser, left)
}

/// `NOT not | pred`
#[cycle(reading)]
#[tactic(auto, unfolding(query_grammar::specs::Reading::read_not))]
pub fn not(parser: &mut Parser<'_, '_>, left: u32) -> Result<Not, Stop>
    ensures ok { IfOk result (λ part. read_not (readers left) parser.old ≡ Ok (part, parser.new)) }
    ensures err { IfErr result (IsStop (read_not (readers left) parser.old) parser.new) }
{
    if parser.is(Symbol::Not) {
        negation(parser, left)
    } else {
        Ok(Not::Pred(read_or_stop!(pred(parser, left))))
    }
}

#[cycle(reading)]
#[tactic(auto, unfolding(query_grammar::specs::Reading::read_negation))]
pub fn negation(parser: &mut Parser<'_, '_>, left: u32) -> Result<Not, Stop>
    ensures ok { IfOk result
        (λ part. read_negation (readers left) parser.old ≡ Ok (part, parser.new)) }
    ensures err { IfErr result (IsStop (read_negation (readers left) parser.old) parser.new) }
{
    let word = read_or_stop!(parser.open(Symbol::Not, left));
    let inner = read_or_stop!(inner_not(parser, left));
    Ok(Not::Negation(word.place(), inner))
}

/// What stands behind a NOT.
#[cycle(reading)]
#[tactic(auto, using(query_grammar::proofs::InnerReaders::inner_not))]
pub fn inner_not(parser: &mut Parser<'_, '_>, left: u32) -> Result<Boxed<Not>, Stop>
    requires { 0 < left }
    ensures ok { IfOk result (λ inner. (readers left).not parser.old ≡ Ok (inner, parser.new)) }
    ensures err { IfErr result (IsStop ((readers left).not parser.old) parser.new) }
{
    let inner = read_or_stop!(not(parser, left - 1));
    Ok(Boxed::new(parser.alloc(), inner)?)
}

/// An expression inside an opening.
#[cycle(reading)]
#[tactic(auto, using(query_grammar::proofs::InnerReaders::inner_expr))]
pub fn inner_expr(parser: &mut Parser<'_, '_>, left: u32) -> Result<Boxed<Expr>, Stop>
    requires { 0 < left }
    ensures ok { IfOk result (λ inner. (readers left).expr parser.old ≡ Ok (inner, parser.new)) }
    ensures err { IfErr result (IsStop ((readers left).expr parser.old) parser.new) }
{
    let inner = read_or_stop!(expr(parser, left - 1));
    Ok(Boxed::new(parser.alloc(), inner)?)
}
