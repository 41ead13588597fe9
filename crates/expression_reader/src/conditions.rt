//! Comparisons and the other conditions, a method for each line of the grammar.

ghost use Rattle.std.specs.Prelude.{◌≡◌, Ok, IfOk, IfErr};
ghost use Rattle.grammar_rules.specs.Readers.{IsStop, mapped, to_left, to_right, read_perhaps};
ghost use Rattle.query_tokens.specs.declared.symbol.Symbol.TheVariants as symbol;
ghost use Rattle.query_grammar.specs.Lists.{one};
ghost use Rattle.query_grammar.specs.Reading.{readers, rest_symbols, negatable_rest, read_pred, read_pred_rest, read_compare, read_negatable, read_negatable_parts, read_between, read_in_list, read_like, read_is_null};

use crate::expressions::inner_expr;
use crate::primaries::more_exprs;
use crate::sums::sum;
use grammar_rules::{Stop, read_or_stop};
use query_cursor::{Parser, rel_of};
use query_tokens::Symbol;
use query_tree::{Pred, PredRest};

/// `sum [rest]`
#[cycle(reading)]
#[tactic(auto, unfolding(query_grammar::specs::Reading::read_pred))]
pub fn pred(parser: &mut Parser<'_, '_>, left: u32) -> Result<Pred, Stop>
    ensures ok { IfOk result (λ pred. read_pred (readers left) parser.old ≡ Ok (pred, parser.new)) }
    ensures err { IfErr result (IsStop (read_pred (readers left) parser.old) parser.new) }
{
    let place = parser.place();
    let sum = read_or_stop!(sum(parser, left));
    let rest = read_or_stop!(perhaps_rest(parser, left), sum);
    Ok(Pred { place, sum, rest })
}

#[cycle(reading)]
pub fn perhaps_rest(parser: &mut Parser<'_, '_>, left: u32) -> Result<Option<PredRest>, Stop>
    ensures ok { IfOk result
        (λ rest. read_perhaps rest_symbols (read_pred_rest (readers left)) parser.old
        ≡ Ok (rest, parser.new)) }
    ensures err { IfErr result
        (IsStop (read_perhaps rest_symbols (read_pred_rest (readers left)) parser.old) parser.new) }
{
    if parser.begins_rest() {
        Ok(Some(read_or_stop!(pred_rest(parser, left))))
    } else {
        Ok(None)
    }
}

#[cycle(reading)]
#[tactic(auto, unfolding(query_grammar::specs::Reading::read_pred_rest))]
pub fn pred_rest(parser: &mut Parser<'_, '_>, left: u32) -> Result<PredRest, Stop>
    ensures ok { IfOk result
        (λ rest. read_pred_rest (readers left) parser.old ≡ Ok (rest, parser.new)) }
    ensures err { IfErr result (IsStop (read_pred_rest (readers left) parser.old) parser.new) }
{
    if parser.begins_compare() {
        compare(parser, left)
    } else if parser.begins_negatable() {
        negatable(parser, left)
    } else {
        is_null(parser)
    }
}

/// `rel sum`
#[cycle(reading)]
#[tactic(auto, unfolding(query_grammar::specs::Reading::read_compare))]
pub fn compare(parser: &mut Parser<'_, '_>, left: u32) -> Result<PredRest, Stop>
    ensures ok { IfOk result
        (λ rest. read_compare (readers left) parser.old ≡ Ok (rest, parser.new)) }
    ensures err { IfErr result (IsStop (read_compare (readers left) parser.old) parser.new) }
{
    let sign = read_or_stop!(parser.take(&[
        Symbol::Equal,
        Symbol::Unequal,
        Symbol::Less,
        Symbol::LessEqual,
        Symbol::Greater,
        Symbol::GreaterEqual,
    ]));
    let sum = read_or_stop!(sum(parser, left));
    Ok(PredRest::Compare(sign.place(), rel_of(sign), sum))
}

/// `[NOT] (BETWEEN .. | IN .. | LIKE ..)`
#[cycle(reading)]
#[tactic(auto, unfolding(query_grammar::specs::Reading::read_negatable))]
pub fn negatable(parser: &mut Parser<'_, '_>, left: u32) -> Result<PredRest, Stop>
    ensures ok { IfOk result
        (λ rest. read_negatable (readers left) parser.old ≡ Ok (rest, parser.new)) }
    ensures err { IfErr result (IsStop (read_negatable (readers left) parser.old) parser.new) }
{
    let place = parser.place();
    let not = parser.flag(Symbol::Not);
    negatable_rest(parser, place, not, left)
}

#[cycle(reading)]
#[tactic(auto, unfolding(query_grammar::specs::Reading::read_negatable_parts))]
pub fn negatable_rest(
    parser: &mut Parser<'_, '_>,
    place: u32,
    not: bool,
    left: u32,
) -> Result<PredRest, Stop>
    ensures ok { IfOk result
        (λ rest. negatable_rest place not (read_negatable_parts (readers left) parser.old)
        ≡ Ok (rest, parser.new)) }
    ensures err { IfErr result
        (IsStop (negatable_rest place not (read_negatable_parts (readers left) parser.old))
        parser.new) }
{
    if parser.is(Symbol::Between) {
        between(parser, place, not, left)
    } else if parser.is(Symbol::In) {
        in_list(parser, place, not, left)
    } else {
        like(parser, place, not, left)
    }
}

/// `BETWEEN sum AND sum`
#[cycle(reading)]
#[tactic(auto, unfolding(query_grammar::specs::Reading::read_between))]
pub fn between(
    parser: &mut Parser<'_, '_>,
    place: u32,
    not: bool,
    left: u32,
) -> Result<PredRest, Stop>
    ensures ok { IfOk result
        (λ rest. negatable_rest place not (mapped to_left (read_between (readers left) parser.old))
        ≡ Ok (rest, parser.new)) }
    ensures err { IfErr result
        (IsStop (negatable_rest place not (mapped to_left (read_between (readers left) parser.old)))
        parser.new) }
{
    read_or_stop!(parser.expect(Symbol::Between));
    let low = read_or_stop!(sum(parser, left));
    read_or_stop!(parser.expect(Symbol::And), low);
    let high = read_or_stop!(sum(parser, left), low);
    Ok(PredRest::Between(place, not, low, high))
}

/// `IN "(" expr {"," expr} ")"`
#[cycle(reading)]
#[tactic(auto, unfolding(query_grammar::specs::Reading::read_in_list, query_grammar::specs::Reading::read_exprs))]
pub fn in_list(
    parser: &mut Parser<'_, '_>,
    place: u32,
    not: bool,
    left: u32,
) -> Result<PredRest, Stop>
    ensures ok { IfOk result
        (λ rest. negatable_rest place not
        (mapped to_right (mapped to_left (read_in_list (readers left) parser.old)))
        ≡ Ok (rest, parser.new)) }
    ensures err { IfErr result
        (IsStop (negatable_rest place not
        (mapped to_right (mapped to_left (read_in_list (readers left) parser.old))))
        parser.new) }
{
    read_or_stop!(parser.expect(Symbol::In));
    read_or_stop!(parser.open(Symbol::Open, left));
    let first = read_or_stop!(inner_expr(parser, left));
    let more = read_or_stop!(more_exprs(parser, left));
    read_or_stop!(parser.expect(Symbol::Close));
    Ok(PredRest::In(place, not, first, more))
}

/// `LIKE sum`
#[cycle(reading)]
#[tactic(auto, unfolding(query_grammar::specs::Reading::read_like))]
pub fn like(parser: &mut Parser<'_, '_>, place: u32, not: bool, left: u32) -> Result<PredRest, Stop>
    ensures ok { IfOk result
        (λ rest. negatable_rest place not
        (mapped to_right (mapped to_right (read_like (readers left) parser.old)))
        ≡ Ok (rest, parser.new)) }
    ensures err { IfErr result
        (IsStop (negatable_rest place not
        (mapped to_right (mapped to_right (read_like (readers left) parser.old))))
        parser.new) }
{
    read_or_stop!(parser.expect(Symbol::Like));
    let sum = read_or_stop!(sum(parser, left));
    Ok(PredRest::Like(place, not, sum))
}

/// `IS [NOT] NULL`
#[tactic(auto, unfolding(query_grammar::specs::Reading::read_is_null))]
pub fn is_null(parser: &mut Parser<'_, '_>) -> Result<PredRest, Stop>
    ensures ok { IfOk result (λ rest. read_is_null parser.old ≡ Ok (rest, parser.new)) }
    ensures err { IfErr result (IsStop (read_is_null parser.old) parser.new) }
{
    let word = read_or_stop!(parser.expect(Symbol::Is));
    let not = parser.flag(Symbol::Not);
    read_or_stop!(parser.expect(Symbol::Null));
    Ok(PredRest::IsNull(word.place(), not))
}
