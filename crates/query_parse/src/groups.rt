//! GROUP BY, a method for each line of the grammar.

ghost use Rattle.std.specs.Prelude.{◌≡◌, Ok, IfOk, IfErr};
ghost use Rattle.grammar_rules.specs.Readers.{IsStop, read_perhaps};
ghost use Rattle.query_tokens.specs.declared.symbol.Symbol.TheVariants as symbol;
ghost use Rattle.query_grammar.specs.Lists.{one};
ghost use Rattle.query_grammar.specs.Queries.{limits_of};
ghost use Rattle.query_grammar.specs.Reading.{read_next, read_others, read_group_by, read_group, read_partition};

use crate::sources::whole_expr;
use event_value::Seq;
use grammar_rules::{Stop, read_or_stop};
use query_cursor::Parser;
use query_tokens::Symbol;
use query_tree::{Group, GroupBy, Partition};
use sqlite_items::Boxed;

pub fn perhaps_group_by(
    parser: &mut Parser<'_, '_>,
    nesting: u32,
) -> Result<Option<Boxed<GroupBy>>, Stop>
    ensures ok { IfOk result
        (λ part. read_perhaps (one symbol.Group) (read_group_by (limits_of nesting)) parser.old
        ≡ Ok (part, parser.new)) }
    ensures err { IfErr result
        (IsStop (read_perhaps (one symbol.Group) (read_group_by (limits_of nesting)) parser.old)
        parser.new) }
{
    if parser.is(Symbol::Group) {
        Ok(Some(read_or_stop!(group_by(parser, nesting))))
    } else {
        Ok(None)
    }
}

/// `GROUP BY group {"," group}`
#[tactic(auto, unfolding(query_grammar::specs::Reading::read_group_by, query_grammar::specs::Reading::read_groups))]
pub fn group_by(parser: &mut Parser<'_, '_>, nesting: u32) -> Result<Boxed<GroupBy>, Stop>
    ensures ok { IfOk result
        (λ groups. read_group_by (limits_of nesting) parser.old ≡ Ok (groups, parser.new)) }
    ensures err { IfErr result (IsStop (read_group_by (limits_of nesting) parser.old) parser.new) }
{
    let word = read_or_stop!(parser.expect(Symbol::Group));
    read_or_stop!(parser.expect(Symbol::By));
    let first = read_or_stop!(group(parser, nesting));
    let more = read_or_stop!(more_groups(parser, nesting));
    let groups = GroupBy {
        place: word.place(),
        first: first.into_inner(),
        more,
    };
    Ok(Boxed::new(parser.alloc(), groups)?)
}

/// `expr [OVER ( .. )]`
#[tactic(auto, unfolding(query_grammar::specs::Reading::read_group))]
pub fn group(parser: &mut Parser<'_, '_>, nesting: u32) -> Result<Boxed<Group>, Stop>
    ensures ok { IfOk result
        (λ group. read_group (limits_of nesting) parser.old ≡ Ok (group, parser.new)) }
    ensures err { IfErr result (IsStop (read_group (limits_of nesting) parser.old) parser.new) }
{
    let place = parser.place();
    let expr = read_or_stop!(whole_expr(parser, nesting));
    let partition = read_or_stop!(perhaps_partition(parser, nesting));
    let group = Group {
        place,
        expr: expr.into_inner(),
        partition,
    };
    Ok(Boxed::new(parser.alloc(), group)?)
}

pub fn more_groups(parser: &mut Parser<'_, '_>, nesting: u32) -> Result<Seq<Group>, Stop>
    ensures ok { IfOk result
        (λ more. read_others (read_group (limits_of nesting)) parser.old ≡ Ok (more, parser.new)) }
    ensures err { IfErr result
        (IsStop (read_others (read_group (limits_of nesting)) parser.old) parser.new) }
{
    let mut more = Seq::empty(parser.alloc());
    'groups: while parser.is(Symbol::Comma) {
        more.push(next_group(parser, nesting)?)?;
    }
    Ok(more)
}

pub fn next_group(parser: &mut Parser<'_, '_>, nesting: u32) -> Result<Group, Stop>
    ensures ok { IfOk result
        (λ group. read_next (read_group (limits_of nesting)) parser.old ≡ Ok (group, parser.new)) }
    ensures err { IfErr result
        (IsStop (read_next (read_group (limits_of nesting)) parser.old) parser.new) }
{
    read_or_stop!(parser.expect(Symbol::Comma));
    Ok(read_or_stop!(group(parser, nesting)).into_inner())
}

pub fn perhaps_partition(
    parser: &mut Parser<'_, '_>,
    nesting: u32,
) -> Result<Option<Partition>, Stop>
    ensures ok { IfOk result
        (λ part. read_perhaps (one symbol.Over) (read_partition (limits_of nesting)) parser.old
        ≡ Ok (part, parser.new)) }
    ensures err { IfErr result
        (IsStop (read_perhaps (one symbol.Over) (read_partition (limits_of nesting)) parser.old)
        parser.new) }
{
    if parser.is(Symbol::Over) {
        Ok(Some(read_or_stop!(partition(parser, nesting))))
    } else {
        Ok(None)
    }
}

/// `OVER "(" PARTITION BY column {"," column} ")"`
#[tactic(auto, unfolding(query_grammar::specs::Reading::read_partition, query_grammar::specs::Reading::read_paths))]
pub fn partition(parser: &mut Parser<'_, '_>, nesting: u32) -> Result<Partition, Stop>
    ensures ok { IfOk result
        (λ partition. read_partition (limits_of nesting) parser.old ≡ Ok (partition, parser.new)) }
    ensures err { IfErr result (IsStop (read_partition (limits_of nesting) parser.old) parser.new) }
{
    let word = read_or_stop!(parser.expect(Symbol::Over));
    read_or_stop!(parser.open(Symbol::Open, nesting));
    read_or_stop!(parser.expect(Symbol::Partition));
    read_or_stop!(parser.expect(Symbol::By));
    let first = read_or_stop!(parser.path());
    let more = read_or_stop!(parser.more_paths());
    read_or_stop!(parser.expect(Symbol::Close));
    Ok(Partition {
        place: word.place(),
        first,
        more,
    })
}
