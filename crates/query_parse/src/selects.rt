//! Selects with their items and conditions, a method for each line of the grammar.

ghost use Rattle.std.specs.Prelude.{◌≡◌, Ok, IfOk, IfErr};
ghost use Rattle.grammar_rules.specs.Readers.{IsStop, read_perhaps};
ghost use Rattle.query_tokens.specs.declared.symbol.Symbol.TheVariants as symbol;
ghost use Rattle.query_grammar.specs.Lists.{one};
ghost use Rattle.query_grammar.specs.Queries.{limits_of};
ghost use Rattle.query_grammar.specs.Reading.{read_next, read_others, read_select, read_select_items, read_item, read_tail, read_condition, read_having};

use crate::groups::perhaps_group_by;
use crate::sources::{joins, perhaps_alias, source, whole_expr};
use event_value::Seq;
use grammar_rules::{Stop, read_or_stop};
use query_cursor::Parser;
use query_tokens::Symbol;
use query_tree::{Expr, Having, Item, Select, SelectItems, Tail};
use sqlite_items::Boxed;

/// `SELECT items tail`
#[tactic(auto, unfolding(query_grammar::specs::Reading::read_select))]
pub fn select(parser: &mut Parser<'_, '_>, nesting: u32) -> Result<Boxed<Select>, Stop>
    ensures ok { IfOk result
        (λ select. read_select (limits_of nesting) parser.old ≡ Ok (select, parser.new)) }
    ensures err { IfErr result (IsStop (read_select (limits_of nesting) parser.old) parser.new) }
{
    let word = read_or_stop!(parser.expect(Symbol::Select));
    let items = read_or_stop!(select_items(parser, nesting));
    let tail = read_or_stop!(tail(parser, nesting));
    let select = Select {
        place: word.place(),
        items: items.into_inner(),
        tail: tail.into_inner(),
    };
    Ok(Boxed::new(parser.alloc(), select)?)
}

/// `"*" | item {"," item}`
#[tactic(auto, unfolding(query_grammar::specs::Reading::read_select_items, query_grammar::specs::Reading::read_items))]
pub fn select_items(parser: &mut Parser<'_, '_>, nesting: u32) -> Result<Boxed<SelectItems>, Stop>
    ensures ok { IfOk result
        (λ items. read_select_items (limits_of nesting) parser.old ≡ Ok (items, parser.new)) }
    ensures err { IfErr result
        (IsStop (read_select_items (limits_of nesting) parser.old) parser.new) }
{
    let place = parser.place();
    if parser.is(Symbol::Star) {
        read_or_stop!(parser.expect(Symbol::Star));
        return Ok(Boxed::new(parser.alloc(), SelectItems::Star(place))?);
    }
    let first = read_or_stop!(item(parser, nesting));
    let more = read_or_stop!(more_items(parser, nesting));
    let items = SelectItems::Listed(place, first.into_inner(), more);
    Ok(Boxed::new(parser.alloc(), items)?)
}

/// `expr [[AS] name]`
#[tactic(auto, unfolding(query_grammar::specs::Reading::read_item))]
pub fn item(parser: &mut Parser<'_, '_>, nesting: u32) -> Result<Boxed<Item>, Stop>
    ensures ok { IfOk result
        (λ item. read_item (limits_of nesting) parser.old ≡ Ok (item, parser.new)) }
    ensures err { IfErr result (IsStop (read_item (limits_of nesting) parser.old) parser.new) }
{
    let place = parser.place();
    let expr = read_or_stop!(whole_expr(parser, nesting));
    let alias = read_or_stop!(perhaps_alias(parser));
    let item = Item {
        place,
        expr: expr.into_inner(),
        alias,
    };
    Ok(Boxed::new(parser.alloc(), item)?)
}

pub fn more_items(parser: &mut Parser<'_, '_>, nesting: u32) -> Result<Seq<Item>, Stop>
    ensures ok { IfOk result
        (λ more. read_others (read_item (limits_of nesting)) parser.old ≡ Ok (more, parser.new)) }
    ensures err { IfErr result
        (IsStop (read_others (read_item (limits_of nesting)) parser.old) parser.new) }
{
    let mut more = Seq::empty(parser.alloc());
    'items: while parser.is(Symbol::Comma) {
        more.push(next_item(parser, nesting)?)?;
    }
    Ok(more)
}

pub fn next_item(parser: &mut Parser<'_, '_>, nesting: u32) -> Result<Item, Stop>
    ensures ok { IfOk result
        (λ item. read_next (read_item (limits_of nesting)) parser.old ≡ Ok (item, parser.new)) }
    ensures err { IfErr result
        (IsStop (read_next (read_item (limits_of nesting)) parser.old) parser.new) }
{
    read_or_stop!(parser.expect(Symbol::Comma));
    Ok(read_or_stop!(item(parser, nesting)).into_inner())
}

/// A part that may be absent, without its box.
pub fn unboxed<T>(part: Option<Boxed<T>>) -> Option<T>
    ensures { result ≡ part }
{
    match part {
        Some(part) => Some(part.into_inner()),
        None => None,
    }
}

/// `FROM source {join} [WHERE ..] [GROUP BY ..] [HAVING ..]`
#[tactic(auto, unfolding(query_grammar::specs::Reading::read_tail))]
pub fn tail(parser: &mut Parser<'_, '_>, nesting: u32) -> Result<Boxed<Tail>, Stop>
    ensures ok { IfOk result
        (λ tail. read_tail (limits_of nesting) parser.old ≡ Ok (tail, parser.new)) }
    ensures err { IfErr result (IsStop (read_tail (limits_of nesting) parser.old) parser.new) }
{
    let word = read_or_stop!(parser.expect(Symbol::From));
    let source = read_or_stop!(source(parser, nesting));
    let joins = read_or_stop!(joins(parser, nesting));
    let condition = read_or_stop!(perhaps_condition(parser, nesting));
    let groups = read_or_stop!(perhaps_group_by(parser, nesting));
    let having = read_or_stop!(perhaps_having(parser, nesting));
    let tail = Tail {
        place: word.place(),
        source: source.into_inner(),
        joins,
        condition: unboxed(condition),
        groups: unboxed(groups),
        having,
    };
    Ok(Boxed::new(parser.alloc(), tail)?)
}

/// `WHERE expr`
#[tactic(auto, unfolding(query_grammar::specs::Reading::read_condition))]
pub fn condition(parser: &mut Parser<'_, '_>, nesting: u32) -> Result<Boxed<Expr>, Stop>
    ensures ok { IfOk result
        (λ condition. read_condition (limits_of nesting) parser.old ≡ Ok (condition, parser.new)) }
    ensures err { IfErr result (IsStop (read_condition (limits_of nesting) parser.old) parser.new) }
{
    read_or_stop!(parser.expect(Symbol::Where));
    whole_expr(parser, nesting)
}

pub fn perhaps_condition(
    parser: &mut Parser<'_, '_>,
    nesting: u32,
) -> Result<Option<Boxed<Expr>>, Stop>
    ensures ok { IfOk result
        (λ part. read_perhaps (one symbol.Where) (read_condition (limits_of nesting)) parser.old
        ≡ Ok (part, parser.new)) }
    ensures err { IfErr result
        (IsStop (read_perhaps (one symbol.Where) (read_condition (limits_of nesting)) parser.old)
        parser.new) }
{
    if parser.is(Symbol::Where) {
        Ok(Some(read_or_stop!(condition(parser, nesting))))
    } else {
        Ok(None)
    }
}

/// `HAVING expr`
#[tactic(auto, unfolding(query_grammar::specs::Reading::read_having))]
pub fn having(parser: &mut Parser<'_, '_>, nesting: u32) -> Result<Having, Stop>
    ensures ok { IfOk result
        (λ having. read_having (limits_of nesting) parser.old ≡ Ok (having, parser.new)) }
    ensures err { IfErr result (IsStop (read_having (limits_of nesting) parser.old) parser.new) }
{
    let word = read_or_stop!(parser.expect(Symbol::Having));
    let condition = read_or_stop!(whole_expr(parser, nesting));
    Ok(Having {
        place: word.place(),
        condition: condition.into_inner(),
    })
}

pub fn perhaps_having(parser: &mut Parser<'_, '_>, nesting: u32) -> Result<Option<Having>, Stop>
    ensures ok { IfOk result
        (λ part. read_perhaps (one symbol.Having) (read_having (limits_of nesting)) parser.old
        ≡ Ok (part, parser.new)) }
    ensures err { IfErr result
        (IsStop (read_perhaps (one symbol.Having) (read_having (limits_of nesting)) parser.old)
        parser.new) }
{
    if parser.is(Symbol::Having) {
        Ok(Some(read_or_stop!(having(parser, nesting))))
    } else {
        Ok(None)
    }
}
