//! Statements and WITH, a method for each line of the grammar.

ghost use Rattle.std.specs.Prelude.{◌≡◌, ◌<◌, Ok, IfOk, IfErr};
ghost use Rattle.grammar_rules.specs.Readers.{IsStop, mapped, read_perhaps};
ghost use Rattle.query_tokens.specs.declared.symbol.Symbol.TheVariants as symbol;
ghost use Rattle.query_grammar.specs.Lists.{one};
ghost use Rattle.query_grammar.specs.StatementGrammar.{stmt_behind, stmts_behind};
ghost use Rattle.query_grammar.specs.Queries.{limits_of, query_limits};
ghost use Rattle.query_grammar.specs.Reading.{read_next, read_others, read_union, read_unions, read_union_more, read_def, read_with, read_stmt, read_semicolon, read_closed, read_closeds, read_statements, read_script};

use crate::selects::{select, select_items, tail, unboxed};
use event_value::Seq;
use grammar_rules::{Stop, read_or_stop};
use query_cursor::Parser;
use query_tokens::Symbol;
use query_tree::{Def, MoreStmt, Script, Select, Stmt, Union, With};
use sqlite_items::Boxed;

/// How many openings may be open at once.
pub const MAX_NESTING: u32 = 64;

/// A statement with the semicolon before it.
fn stmt_behind(before: Option<u32>, stmt: Boxed<Stmt>) -> MoreStmt
    ensures { result ≡ stmt_behind before stmt }
{
    MoreStmt {
        place: before.unwrap_or(stmt.get().place),
        semicolon: before.is_some(),
        stmt: stmt.into_inner(),
    }
}

/// `select {UNION select}`
#[tactic(auto, unfolding(query_grammar::specs::Reading::read_union))]
pub fn union(parser: &mut Parser<'_, '_>, nesting: u32) -> Result<Boxed<Union>, Stop>
    ensures ok { IfOk result
        (λ union. read_union (limits_of nesting) parser.old ≡ Ok (union, parser.new)) }
    ensures err { IfErr result (IsStop (read_union (limits_of nesting) parser.old) parser.new) }
{
    let first = read_or_stop!(select(parser, nesting));
    let more = read_or_stop!(unions(parser, nesting));
    let union = Union {
        place: first.get().place,
        first: first.into_inner(),
        more,
    };
    Ok(Boxed::new(parser.alloc(), union)?)
}

#[tactic(auto, unfolding(query_grammar::specs::Reading::read_unions))]
pub fn unions(parser: &mut Parser<'_, '_>, nesting: u32) -> Result<Seq<Select>, Stop>
    ensures ok { IfOk result
        (λ more. read_unions (limits_of nesting) parser.old ≡ Ok (more, parser.new)) }
    ensures err { IfErr result (IsStop (read_unions (limits_of nesting) parser.old) parser.new) }
{
    let mut more = Seq::empty(parser.alloc());
    'unions: while parser.is(Symbol::Union) {
        more.push(union_more(parser, nesting)?)?;
    }
    Ok(more)
}

#[tactic(auto, unfolding(query_grammar::specs::Reading::read_union_more))]
pub fn union_more(parser: &mut Parser<'_, '_>, nesting: u32) -> Result<Select, Stop>
    ensures ok { IfOk result
        (λ select. read_union_more (limits_of nesting) parser.old ≡ Ok (select, parser.new)) }
    ensures err { IfErr result
        (IsStop (read_union_more (limits_of nesting) parser.old) parser.new) }
{
    read_or_stop!(parser.expect(Symbol::Union));
    Ok(read_or_stop!(select(parser, nesting)).into_inner())
}

/// `name AS "(" union ")"`
#[tactic(auto, unfolding(query_grammar::specs::Reading::read_def))]
pub fn def(parser: &mut Parser<'_, '_>, nesting: u32) -> Result<Boxed<Def>, Stop>
    ensures ok { IfOk result
        (λ def. read_def (limits_of nesting) parser.old ≡ Ok (def, parser.new)) }
    ensures err { IfErr result (IsStop (read_def (limits_of nesting) parser.old) parser.new) }
{
    let name = read_or_stop!(parser.name());
    read_or_stop!(parser.expect(Symbol::As));
    read_or_stop!(parser.open(Symbol::Open, nesting));
    let union = read_or_stop!(union(parser, nesting - 1));
    read_or_stop!(parser.expect(Symbol::Close));
    let def = Def {
        place: name.place,
        name,
        union: union.into_inner(),
    };
    Ok(Boxed::new(parser.alloc(), def)?)
}

pub fn more_defs(parser: &mut Parser<'_, '_>, nesting: u32) -> Result<Seq<Def>, Stop>
    ensures ok { IfOk result
        (λ more. read_others (read_def (limits_of nesting)) parser.old ≡ Ok (more, parser.new)) }
    ensures err { IfErr result
        (IsStop (read_others (read_def (limits_of nesting)) parser.old) parser.new) }
{
    let mut more = Seq::empty(parser.alloc());
    'defs: while parser.is(Symbol::Comma) {
        more.push(next_def(parser, nesting)?)?;
    }
    Ok(more)
}

pub fn next_def(parser: &mut Parser<'_, '_>, nesting: u32) -> Result<Def, Stop>
    ensures ok { IfOk result
        (λ def. read_next (read_def (limits_of nesting)) parser.old ≡ Ok (def, parser.new)) }
    ensures err { IfErr result
        (IsStop (read_next (read_def (limits_of nesting)) parser.old) parser.new) }
{
    read_or_stop!(parser.expect(Symbol::Comma));
    Ok(read_or_stop!(def(parser, nesting)).into_inner())
}

/// `WITH def {"," def}`
#[tactic(auto, unfolding(query_grammar::specs::Reading::read_with, query_grammar::specs::Reading::read_defs))]
pub fn with(parser: &mut Parser<'_, '_>, nesting: u32) -> Result<Boxed<With>, Stop>
    ensures ok { IfOk result
        (λ with. read_with (limits_of nesting) parser.old ≡ Ok (with, parser.new)) }
    ensures err { IfErr result (IsStop (read_with (limits_of nesting) parser.old) parser.new) }
{
    let word = read_or_stop!(parser.expect(Symbol::With));
    let first = read_or_stop!(def(parser, nesting));
    let more = read_or_stop!(more_defs(parser, nesting));
    let with = With {
        place: word.place(),
        first: first.into_inner(),
        more,
    };
    Ok(Boxed::new(parser.alloc(), with)?)
}

pub fn perhaps_with(parser: &mut Parser<'_, '_>, nesting: u32) -> Result<Option<Boxed<With>>, Stop>
    ensures ok { IfOk result
        (λ part. read_perhaps (one symbol.With) (read_with (limits_of nesting)) parser.old
        ≡ Ok (part, parser.new)) }
    ensures err { IfErr result
        (IsStop (read_perhaps (one symbol.With) (read_with (limits_of nesting)) parser.old)
        parser.new) }
{
    if parser.is(Symbol::With) {
        Ok(Some(read_or_stop!(with(parser, nesting))))
    } else {
        Ok(None)
    }
}

/// `SELECT items INTO name tail {UNION select}`
#[tactic(auto, unfolding(query_grammar::specs::Reading::read_stmt))]
pub fn stmt(parser: &mut Parser<'_, '_>, nesting: u32) -> Result<Boxed<Stmt>, Stop>
    ensures ok { IfOk result
        (λ stmt. read_stmt (limits_of nesting) parser.old ≡ Ok (stmt, parser.new)) }
    ensures err { IfErr result (IsStop (read_stmt (limits_of nesting) parser.old) parser.new) }
{
    let word = read_or_stop!(parser.expect(Symbol::Select));
    let items = read_or_stop!(select_items(parser, nesting));
    read_or_stop!(parser.expect(Symbol::Into));
    let output = read_or_stop!(parser.name());
    let tail = read_or_stop!(tail(parser, nesting));
    let more = read_or_stop!(unions(parser, nesting));
    let stmt = Stmt {
        place: word.place(),
        items: items.into_inner(),
        output,
        tail: tail.into_inner(),
        more,
    };
    Ok(Boxed::new(parser.alloc(), stmt)?)
}

#[tactic(auto, unfolding(query_grammar::specs::Reading::read_semicolon))]
pub fn semicolon(parser: &mut Parser<'_, '_>) -> Result<u32, Stop>
    ensures ok { IfOk result (λ place. read_semicolon parser.old ≡ Ok (place, parser.new)) }
    ensures err { IfErr result (IsStop (read_semicolon parser.old) parser.new) }
{
    let sign = read_or_stop!(parser.expect(Symbol::Semicolon));
    Ok(sign.place())
}

pub fn perhaps_semicolon(parser: &mut Parser<'_, '_>) -> Result<Option<u32>, Stop>
    ensures ok { IfOk result
        (λ place. read_perhaps (one symbol.Semicolon) read_semicolon parser.old
        ≡ Ok (place, parser.new)) }
    ensures err { IfErr result
        (IsStop (read_perhaps (one symbol.Semicolon) read_semicolon parser.old) parser.new) }
{
    if parser.is(Symbol::Semicolon) {
        Ok(Some(read_or_stop!(semicolon(parser))))
    } else {
        Ok(None)
    }
}

/// A statement, and the place of the semicolon that may stand behind it.
#[tactic(auto, unfolding(query_grammar::specs::Reading::read_closed))]
pub fn closed(parser: &mut Parser<'_, '_>, nesting: u32) -> Result<(Boxed<Stmt>, Option<u32>), Stop>
    ensures ok { IfOk result
        (λ closed. read_closed (limits_of nesting) parser.old ≡ Ok (closed, parser.new)) }
    ensures err { IfErr result (IsStop (read_closed (limits_of nesting) parser.old) parser.new) }
{
    let stmt = read_or_stop!(stmt(parser, nesting));
    let semicolon = read_or_stop!(perhaps_semicolon(parser));
    Ok((stmt, semicolon))
}

/// The statements behind one, each with the semicolon before it, and the last semicolon.
pub fn more_stmts(
    parser: &mut Parser<'_, '_>,
    nesting: u32,
    before: Option<u32>,
) -> Result<(Seq<MoreStmt>, Option<u32>), Stop>
    ensures ok { IfOk result
        (λ read. mapped (stmts_behind before) (read_closeds (limits_of nesting) parser.old)
        ≡ Ok (read, parser.new)) }
    ensures err { IfErr result (IsStop (read_closeds (limits_of nesting) parser.old) parser.new) }
{
    let mut more = Seq::empty(parser.alloc());
    let mut last = before;
    'closeds: while parser.is(Symbol::Select) {
        let (stmt, semicolon) = closed(parser, nesting)?;
        more.push(stmt_behind(last, stmt))?;
        last = semicolon;
    }
    Ok((more, last))
}

/// `[WITH def {"," def}] stmt {[";"] stmt} [";"]`
#[tactic(auto, using(crate::proofs::StmtLemmas::script_ok), unfolding(query_grammar::specs::Reading::read_statements))]
pub fn statements(parser: &mut Parser<'_, '_>, nesting: u32) -> Result<Boxed<Script>, Stop>
    ensures ok { IfOk result
        (λ script. read_statements (limits_of nesting) parser.old ≡ Ok (script, parser.new)) }
    ensures err { IfErr result
        (IsStop (read_statements (limits_of nesting) parser.old) parser.new) }
{
    let place = parser.place();
    let with = read_or_stop!(perhaps_with(parser, nesting));
    let (first, semicolon) = read_or_stop!(closed(parser, nesting));
    let (more, last) = read_or_stop!(more_stmts(parser, nesting, semicolon));
    let script = Script {
        place,
        with: unboxed(with),
        first: first.into_inner(),
        more,
        semicolon: last.is_some(),
    };
    Ok(Boxed::new(parser.alloc(), script)?)
}

/// A whole query, and then the end of the text.
pub fn script(parser: &mut Parser<'_, '_>) -> Result<Boxed<Script>, Stop>
    ensures ok { IfOk result
        (λ script. read_script query_limits parser.old ≡ Ok (script, parser.new)) }
    ensures err { IfErr result (IsStop (read_script query_limits parser.old) parser.new) }
{
    let script = read_or_stop!(statements(parser, MAX_NESTING));
    read_or_stop!(parser.expect(Symbol::EndOfText));
    Ok(script)
}
