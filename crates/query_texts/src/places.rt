//! Places and flags of a copy, which its canonical text doesn't show.

use query_parse::parse;
use query_tree::{Alias, Args, Call, Expr, Not, Primary, Script, SelectItems, Side, Tail, Unary};
use std::alloc::Global;
use std::process::Abort;
use std::test::Fail;
use tree_copies::CopyTree;

const QUERY: &str = "\
WITH w AS (SELECT a FROM s UNION SELECT b FROM s), v AS (SELECT * FROM w)
SELECT CASE k WHEN 1 THEN 2 ELSE 3 END, TRY_CAST(c AS nvarchar(max)) AS d INTO o
FROM s t TIMESTAMP BY x OVER k, y.z LEFT OUTER JOIN u AS m ON NOT e
WHERE f(DISTINCT i) GROUP BY g OVER (PARTITION BY h.j) HAVING n
UNION SELECT * FROM v;";

/// A copy of the query; the tree that was read is gone by then.
fn copy_of_query(alloc: Global) -> Option<Script> {
    let script = parse(alloc, QUERY.as_bytes()).ok()?;
    script.copy(alloc).ok()
}

#[test]
fn a_copy_keeps_places_and_flags(rt: HostRuntime) -> Result<(), Fail> {
    match copy_of_query(rt.alloc()) {
        Some(script) => check(&rt, &script),
        None => assert!(rt; false, "no copy"),
    }
    Ok(())
}

/// Asserts the places and flags of a copy.
fn check(rt: &impl Abort, script: &Script) {
    let tail = &script.first.tail;
    assert!(rt; script.semicolon && script.more.items().is_empty());
    assert!(rt; places_of_definitions(script) == Some([0, 0, 5, 11, 33, 51]));
    assert!(rt; places_of_statement(script) == Some([74, 155, 293]));
    assert!(rt; places_of_case(script) == Some([81, 81, 86, 88, 93, 100, 107]));
    assert!(rt; places_of_cast(script) == Some([114, 114, 123, 128, 137, 143]));
    assert!(rt; places_of_source(tail) == Some([160, 162, 164, 177, 179, 187]));
    assert!(rt; places_of_join(tail) == Some([191, 202, 207, 209, 217, 221]));
    assert!(rt; places_of_groups(tail) == Some([243, 252, 254, 273, 278, 285]));
    assert!(rt; places_of_condition(tail) == Some([229, 229, 231, 240]));
    assert!(rt; side_of_join(tail) == Some(Side::Left(191, true)));
    assert!(rt; tail.source.alias.as_ref().map(is_written) == Some(false));
}

/// The places of the script, of WITH, and of the definitions with their selects.
fn places_of_definitions(script: &Script) -> Option<[u32; 6]> {
    let with = script.with.as_ref()?;
    let first = &with.first;
    let select = first.union.more.items().first()?;
    let more = with.more.items().first()?;
    Some([
        script.place,
        with.place,
        first.place,
        first.union.place,
        select.place,
        more.place,
    ])
}

/// The places of the statement, of what stands behind its items, and of the second select.
fn places_of_statement(script: &Script) -> Option<[u32; 3]> {
    let stmt = &script.first;
    let select = stmt.more.items().first()?;
    Some([stmt.place, stmt.tail.place, select.place])
}

/// The places of the CASE, of its parts, and of the item that it begins.
fn places_of_case(script: &Script) -> Option<[u32; 7]> {
    let SelectItems::Listed(place, item, _) = &script.first.items else {
        return None;
    };
    let Primary::Case(case) = primary_of(&item.expr)? else {
        return None;
    };
    let subject = case.subject.as_ref()?;
    let otherwise = case.otherwise.as_ref()?;
    Some([
        *place,
        case.place,
        subject.get().place,
        case.first.place,
        case.first.when.get().place,
        case.first.then.get().place,
        otherwise.get().place,
    ])
}

/// The places of the cast, of its parts, and of the item with its name.
fn places_of_cast(script: &Script) -> Option<[u32; 6]> {
    let SelectItems::Listed(_, _, more) = &script.first.items else {
        return None;
    };
    let item = more.items().first()?;
    let alias = item.alias.as_ref()?;
    let Primary::Call(Call::Cast(place, _, inner, kind)) = primary_of(&item.expr)? else {
        return None;
    };
    let size = kind.size.as_ref()?;
    Some([
        item.place,
        *place,
        inner.get().place,
        kind.place,
        size.place,
        alias.place,
    ])
}

/// The places of the source, of its name, and of the time of its records.
fn places_of_source(tail: &Tail) -> Option<[u32; 6]> {
    let source = &tail.source;
    let alias = source.alias.as_ref()?;
    let stamp = source.stamp.as_ref()?;
    let over = stamp.over.as_ref()?;
    let column = over.more.items().first()?;
    Some([
        source.place,
        alias.place,
        stamp.place,
        stamp.expr.place,
        over.place,
        column.place,
    ])
}

/// The places of the join, of its source, and of its condition.
fn places_of_join(tail: &Tail) -> Option<[u32; 6]> {
    let join = tail.joins.items().first()?;
    let alias = join.source.alias.as_ref()?;
    let Not::Negation(place, inner) = &join.on.first.first else {
        return None;
    };
    let Not::Pred(pred) = inner.get() else {
        return None;
    };
    Some([
        join.place,
        join.join_place,
        join.source.place,
        alias.place,
        *place,
        pred.place,
    ])
}

/// Which rows the join has.
fn side_of_join(tail: &Tail) -> Option<Side> {
    tail.joins.items().first()?.side
}

/// The places of the groups, of their parts, and of HAVING.
fn places_of_groups(tail: &Tail) -> Option<[u32; 6]> {
    let groups = tail.groups.as_ref()?;
    let partition = groups.first.partition.as_ref()?;
    let having = tail.having.as_ref()?;
    Some([
        groups.place,
        groups.first.place,
        partition.place,
        partition.first.place,
        having.place,
        having.condition.place,
    ])
}

/// The places of the condition and of the call in it.
fn places_of_condition(tail: &Tail) -> Option<[u32; 4]> {
    let condition = tail.condition.as_ref()?;
    let Primary::Call(Call::Function(place, _, Some(args))) = primary_of(condition)? else {
        return None;
    };
    let Args::Listed(list_place, true, first, _) = args else {
        return None;
    };
    Some([condition.place, *place, *list_place, first.get().place])
}

/// Whether AS stands before a name.
fn is_written(alias: &Alias) -> bool {
    alias.written
}

/// The primary with which an expression begins, where no NOT and no minus stands before it.
fn primary_of(expr: &Expr) -> Option<&Primary> {
    let Not::Pred(pred) = &expr.first.first else {
        return None;
    };
    match &pred.sum.first.first {
        Unary::Primary(primary) => Some(primary),
        Unary::Minus(..) => None,
    }
}
