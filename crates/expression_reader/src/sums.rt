//! Sums and products, a method for each line of the grammar.

ghost use Rattle.std.specs.Prelude.{◌≡◌, ◌<◌, Ok, IfOk, IfErr};
ghost use Rattle.grammar_rules.specs.Readers.{IsStop, read_repeated};
ghost use Rattle.query_tokens.specs.declared.symbol.Symbol.TheVariants as symbol;
ghost use Rattle.query_grammar.specs.ExpressionGrammar.{sum_symbols, prod_symbols};
ghost use Rattle.query_grammar.specs.Reading.{readers, read_sum, read_sum_more, read_prod, read_prod_more, read_unary, read_minus};

use crate::primaries::primary;
use grammar_rules::{Stop, read_or_stop};
use query_cursor::{Parser, prod_sign, sum_sign};
use query_tokens::Symbol;
use query_tree::{Prod, ProdMore, Sum, SumMore, Unary};
use sqlite_items::{Boxed, Items};

/// `prod {("+" | "-") prod}`
#[cycle(reading)]
#[tactic(auto, unfolding(query_grammar::specs::Reading::read_sum))]
pub fn sum(parser: &mut Parser<'_, '_>, left: u32) -> Result<Sum, Stop>
    ensures ok { IfOk result (λ sum. read_sum (readers left) parser.old ≡ Ok (sum, parser.new)) }
    ensures err { IfErr result (IsStop (read_sum (readers left) parser.old) parser.new) }
{
    let place = parser.place();
    let first = read_or_stop!(prod(parser, left));
    let more = read_or_stop!(sums(parser, left), first);
    Ok(Sum { place, first, more })
}

#[cycle(reading)]
pub fn sums(parser: &mut Parser<'_, '_>, left: u32) -> Result<Items<SumMore>, Stop>
    ensures ok { IfOk result
        (λ more. read_repeated sum_symbols (read_sum_more (readers left)) parser.old
        ≡ Ok (more, parser.new)) }
    ensures err { IfErr result
        (IsStop (read_repeated sum_symbols (read_sum_more (readers left)) parser.old) parser.new) }
{
    let mut more = Items::new(parser.alloc());
    'sums: while parser.begins_sum_more() {
        more.push(sum_more(parser, left)?)?;
    }
    Ok(more)
}

#[cycle(reading)]
#[tactic(auto, unfolding(query_grammar::specs::Reading::read_sum_more))]
pub fn sum_more(parser: &mut Parser<'_, '_>, left: u32) -> Result<SumMore, Stop>
    ensures ok { IfOk result
        (λ part. read_sum_more (readers left) parser.old ≡ Ok (part, parser.new)) }
    ensures err { IfErr result (IsStop (read_sum_more (readers left) parser.old) parser.new) }
{
    let sign = read_or_stop!(parser.take(&[Symbol::Plus, Symbol::Minus]));
    let prod = read_or_stop!(prod(parser, left));
    Ok(SumMore {
        place: sign.place(),
        sign: sum_sign(sign),
        prod,
    })
}

/// `unary {("*" | "/" | "%") unary}`
#[cycle(reading)]
#[tactic(auto, unfolding(query_grammar::specs::Reading::read_prod))]
pub fn prod(parser: &mut Parser<'_, '_>, left: u32) -> Result<Prod, Stop>
    ensures ok { IfOk result (λ prod. read_prod (readers left) parser.old ≡ Ok (prod, parser.new)) }
    ensures err { IfErr result (IsStop (read_prod (readers left) parser.old) parser.new) }
{
    let place = parser.place();
    let first = read_or_stop!(unary(parser, left));
    let more = read_or_stop!(prods(parser, left), first);
    Ok(Prod { place, first, more })
}

#[cycle(reading)]
pub fn prods(parser: &mut Parser<'_, '_>, left: u32) -> Result<Items<ProdMore>, Stop>
    ensures ok { IfOk result
        (λ more. read_repeated prod_symbols (read_prod_more (readers left)) parser.old
        ≡ Ok (more, parser.new)) }
    ensures err { IfErr result
        (IsStop (read_repeated prod_symbols (read_prod_more (readers left)) parser.old)
        parser.new) }
{
    let mut more = Items::new(parser.alloc());
    'prods: while parser.begins_prod_more() {
        more.push(prod_more(parser, left)?)?;
    }
    Ok(more)
}

#[cycle(reading)]
#[tactic(auto, unfolding(query_grammar::specs::Reading::read_prod_more))]
pub fn prod_more(parser: &mut Parser<'_, '_>, left: u32) -> Result<ProdMore, Stop>
    ensures ok { IfOk result
        (λ part. read_prod_more (readers left) parser.old ≡ Ok (part, parser.new)) }
    ensures err { IfErr result (IsStop (read_prod_more (readers left) parser.old) parser.new) }
{
    let sign = read_or_stop!(parser.take(&[Symbol::Star, Symbol::Slash, Symbol::Percent]));
    let unary = read_or_stop!(unary(parser, left));
    Ok(ProdMore {
        place: sign.place(),
        sign: prod_sign(sign),
        unary,
    })
}

/// `"-" unary | primary`
#[cycle(reading)]
#[tactic(auto, unfolding(query_grammar::specs::Reading::read_unary))]
pub fn unary(parser: &mut Parser<'_, '_>, left: u32) -> Result<Unary, Stop>
    ensures ok { IfOk result
        (λ unary. read_unary (readers left) parser.old ≡ Ok (unary, parser.new)) }
    ensures err { IfErr result (IsStop (read_unary (readers left) parser.old) parser.new) }
{
    if parser.is(Symbol::Minus) {
        minus(parser, left)
    } else {
        Ok(Unary::Primary(read_or_stop!(primary(parser, left))))
    }
}

#[cycle(reading)]
#[tactic(auto, unfolding(query_grammar::specs::Reading::read_minus))]
pub fn minus(parser: &mut Parser<'_, '_>, left: u32) -> Result<Unary, Stop>
    ensures ok { IfOk result
        (λ unary. read_minus (readers left) parser.old ≡ Ok (unary, parser.new)) }
    ensures err { IfErr result (IsStop (read_minus (readers left) parser.old) parser.new) }
{
    let sign = read_or_stop!(parser.open(Symbol::Minus, left));
    let inner = read_or_stop!(inner_unary(parser, left));
    Ok(Unary::Minus(sign.place(), inner))
}

/// What stands behind a minus.
#[cycle(reading)]
#[tactic(auto, using(query_grammar::proofs::InnerReaders::inner_unary))]
pub fn inner_unary(parser: &mut Parser<'_, '_>, left: u32) -> Result<Boxed<Unary>, Stop>
    requires { 0 < left }
    ensures ok { IfOk result (λ inner. (readers left).unary parser.old ≡ Ok (inner, parser.new)) }
    ensures err { IfErr result (IsStop ((readers left).unary parser.old) parser.new) }
{
    let inner = read_or_stop!(unary(parser, left - 1));
    Ok(Boxed::new(parser.alloc(), inner)?)
}
