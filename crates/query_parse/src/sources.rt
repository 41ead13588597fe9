//! Sources and joins, a method for each line of the grammar.

ghost use Rattle.std.specs.Prelude.{◌≡◌, ◌+◌, Ok, IfOk, IfErr, nat_le};
ghost use Rattle.grammar_rules.specs.Readers.{IsStop, read_perhaps};
ghost use Rattle.query_tokens.specs.declared.symbol.Symbol.TheVariants as symbol;
ghost use Rattle.query_grammar.specs.Lists.{one};
ghost use Rattle.query_grammar.specs.Queries.{limits_of, max_tokens};
ghost use Rattle.query_grammar.specs.Reading.{alias_symbols, side_symbols, read_expr, read_whole_expr, read_alias, read_over, read_stamp, read_source, read_side, read_on, read_join, read_joins};

use event_value::Seq;
use expression_reader::expr;
use grammar_rules::{Stop, read_or_stop};
use query_cursor::Parser;
use query_tokens::Symbol;
use query_tree::{Alias, Expr, Join, Over, Side, Source, Stamp};
use sqlite_items::Boxed;

/// How many tokens an expression that stands in no other may have.
pub const MAX_TOKENS: usize = 1_024;

/// Whether so many tokens, of which so many are left, are no more than those of an expression.
fn is_within(start: usize, left: usize) -> bool
    ensures { result ≡ nat_le start (left + max_tokens) }
{
    start.saturating_sub(MAX_TOKENS) <= left
}

/// An expression, whatever its length. Large parts wait in boxes for what stands behind them.
fn boxed_expr(parser: &mut Parser<'_, '_>, nesting: u32) -> Result<Boxed<Expr>, Stop>
    ensures ok { IfOk result (λ expr. read_expr nesting parser.old ≡ Ok (expr, parser.new)) }
    ensures err { IfErr result (IsStop (read_expr nesting parser.old) parser.new) }
{
    let expr = read_or_stop!(expr(parser, nesting));
    Ok(Boxed::new(parser.alloc(), expr)?)
}

/// An expression that stands in no other.
#[tactic(auto, unfolding(query_grammar::specs::Reading::read_whole_expr))]
pub fn whole_expr(parser: &mut Parser<'_, '_>, nesting: u32) -> Result<Boxed<Expr>, Stop>
    ensures ok { IfOk result
        (λ expr. read_whole_expr (limits_of nesting) parser.old ≡ Ok (expr, parser.new)) }
    ensures err { IfErr result
        (IsStop (read_whole_expr (limits_of nesting) parser.old) parser.new) }
{
    let start = parser.left();
    match boxed_expr(parser, nesting) {
        Ok(expr) if is_within(start.len(), parser.left().len()) => Ok(expr),
        Err(Stop::Memory) => Err(Stop::Memory),
        Err(stop) if is_within(start.len(), parser.left().len()) => Err(stop),
        _ => {
            parser.go_back(start.split_at(MAX_TOKENS).1);
            Err(Stop::Deep)
        }
    }
}

/// `[AS] name`
#[tactic(auto, unfolding(query_grammar::specs::Reading::read_alias))]
pub fn alias(parser: &mut Parser<'_, '_>) -> Result<Alias, Stop>
    ensures ok { IfOk result (λ alias. read_alias parser.old ≡ Ok (alias, parser.new)) }
    ensures err { IfErr result (IsStop (read_alias parser.old) parser.new) }
{
    let place = parser.place();
    let written = parser.flag(Symbol::As);
    let name = read_or_stop!(parser.name());
    Ok(Alias {
        place,
        written,
        name,
    })
}

pub fn perhaps_alias(parser: &mut Parser<'_, '_>) -> Result<Option<Alias>, Stop>
    ensures ok { IfOk result
        (λ alias. read_perhaps alias_symbols read_alias parser.old ≡ Ok (alias, parser.new)) }
    ensures err { IfErr result
        (IsStop (read_perhaps alias_symbols read_alias parser.old) parser.new) }
{
    if parser.begins_alias() {
        Ok(Some(read_or_stop!(alias(parser))))
    } else {
        Ok(None)
    }
}

/// `OVER column {"," column}`
#[tactic(auto, unfolding(query_grammar::specs::Reading::read_over, query_grammar::specs::Reading::read_paths))]
pub fn over(parser: &mut Parser<'_, '_>) -> Result<Over, Stop>
    ensures ok { IfOk result (λ over. read_over parser.old ≡ Ok (over, parser.new)) }
    ensures err { IfErr result (IsStop (read_over parser.old) parser.new) }
{
    let word = read_or_stop!(parser.expect(Symbol::Over));
    let first = read_or_stop!(parser.path());
    let more = read_or_stop!(parser.more_paths());
    Ok(Over {
        place: word.place(),
        first,
        more,
    })
}

pub fn perhaps_over(parser: &mut Parser<'_, '_>) -> Result<Option<Over>, Stop>
    ensures ok { IfOk result
        (λ part. read_perhaps (one symbol.Over) read_over parser.old ≡ Ok (part, parser.new)) }
    ensures err { IfErr result
        (IsStop (read_perhaps (one symbol.Over) read_over parser.old) parser.new) }
{
    if parser.is(Symbol::Over) {
        Ok(Some(read_or_stop!(over(parser))))
    } else {
        Ok(None)
    }
}

/// `TIMESTAMP BY expr [OVER ..]`
#[tactic(auto, unfolding(query_grammar::specs::Reading::read_stamp))]
pub fn stamp(parser: &mut Parser<'_, '_>, nesting: u32) -> Result<Stamp, Stop>
    ensures ok { IfOk result
        (λ stamp. read_stamp (limits_of nesting) parser.old ≡ Ok (stamp, parser.new)) }
    ensures err { IfErr result (IsStop (read_stamp (limits_of nesting) parser.old) parser.new) }
{
    let word = read_or_stop!(parser.expect(Symbol::Timestamp));
    read_or_stop!(parser.expect(Symbol::By));
    let expr = read_or_stop!(whole_expr(parser, nesting));
    let over = read_or_stop!(perhaps_over(parser));
    Ok(Stamp {
        place: word.place(),
        expr: expr.into_inner(),
        over,
    })
}

pub fn perhaps_stamp(parser: &mut Parser<'_, '_>, nesting: u32) -> Result<Option<Stamp>, Stop>
    ensures ok { IfOk result
        (λ part. read_perhaps (one symbol.Timestamp) (read_stamp (limits_of nesting)) parser.old
        ≡ Ok (part, parser.new)) }
    ensures err { IfErr result
        (IsStop (read_perhaps (one symbol.Timestamp) (read_stamp (limits_of nesting)) parser.old)
        parser.new) }
{
    if parser.is(Symbol::Timestamp) {
        Ok(Some(read_or_stop!(stamp(parser, nesting))))
    } else {
        Ok(None)
    }
}

/// `name [[AS] name] [TIMESTAMP BY ..]`
#[tactic(auto, unfolding(query_grammar::specs::Reading::read_source))]
pub fn source(parser: &mut Parser<'_, '_>, nesting: u32) -> Result<Boxed<Source>, Stop>
    ensures ok { IfOk result
        (λ source. read_source (limits_of nesting) parser.old ≡ Ok (source, parser.new)) }
    ensures err { IfErr result (IsStop (read_source (limits_of nesting) parser.old) parser.new) }
{
    let name = read_or_stop!(parser.name());
    let alias = read_or_stop!(perhaps_alias(parser));
    let stamp = read_or_stop!(perhaps_stamp(parser, nesting));
    let source = Source {
        place: name.place,
        name,
        alias,
        stamp,
    };
    Ok(Boxed::new(parser.alloc(), source)?)
}

/// `INNER | LEFT [OUTER]`
#[tactic(auto, unfolding(query_grammar::specs::Reading::read_side))]
pub fn side(parser: &mut Parser<'_, '_>) -> Result<Side, Stop>
    ensures ok { IfOk result (λ side. read_side parser.old ≡ Ok (side, parser.new)) }
    ensures err { IfErr result (IsStop (read_side parser.old) parser.new) }
{
    if parser.is(Symbol::Inner) {
        let word = read_or_stop!(parser.expect(Symbol::Inner));
        return Ok(Side::Inner(word.place()));
    }
    let word = read_or_stop!(parser.expect(Symbol::Left));
    let outer = parser.flag(Symbol::Outer);
    Ok(Side::Left(word.place(), outer))
}

pub fn perhaps_side(parser: &mut Parser<'_, '_>) -> Result<Option<Side>, Stop>
    ensures ok { IfOk result
        (λ part. read_perhaps side_symbols read_side parser.old ≡ Ok (part, parser.new)) }
    ensures err { IfErr result
        (IsStop (read_perhaps side_symbols read_side parser.old) parser.new) }
{
    if parser.begins_side() {
        Ok(Some(read_or_stop!(side(parser))))
    } else {
        Ok(None)
    }
}

/// `[INNER | LEFT [OUTER]] JOIN source ON expr`
#[tactic(auto, unfolding(query_grammar::specs::Reading::read_join))]
pub fn join(parser: &mut Parser<'_, '_>, nesting: u32) -> Result<Join, Stop>
    ensures ok { IfOk result
        (λ join. read_join (limits_of nesting) parser.old ≡ Ok (join, parser.new)) }
    ensures err { IfErr result (IsStop (read_join (limits_of nesting) parser.old) parser.new) }
{
    let place = parser.place();
    let side = read_or_stop!(perhaps_side(parser));
    let word = read_or_stop!(parser.expect(Symbol::Join));
    let source = read_or_stop!(source(parser, nesting));
    let on = read_or_stop!(on(parser, nesting));
    Ok(Join {
        place,
        side,
        join_place: word.place(),
        source: source.into_inner(),
        on: on.into_inner(),
    })
}

/// `ON expr`
#[tactic(auto, unfolding(query_grammar::specs::Reading::read_on))]
pub fn on(parser: &mut Parser<'_, '_>, nesting: u32) -> Result<Boxed<Expr>, Stop>
    ensures ok { IfOk result (λ on. read_on (limits_of nesting) parser.old ≡ Ok (on, parser.new)) }
    ensures err { IfErr result (IsStop (read_on (limits_of nesting) parser.old) parser.new) }
{
    read_or_stop!(parser.expect(Symbol::On));
    whole_expr(parser, nesting)
}

#[tactic(auto, unfolding(query_grammar::specs::Reading::read_joins))]
pub fn joins(parser: &mut Parser<'_, '_>, nesting: u32) -> Result<Seq<Join>, Stop>
    ensures ok { IfOk result
        (λ joins. read_joins (limits_of nesting) parser.old ≡ Ok (joins, parser.new)) }
    ensures err { IfErr result (IsStop (read_joins (limits_of nesting) parser.old) parser.new) }
{
    let mut joins = Seq::empty(parser.alloc());
    'joins: while parser.begins_join() {
        joins.push(join(parser, nesting)?)?;
    }
    Ok(joins)
}
