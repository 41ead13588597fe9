//! Queries that are read, and what numbers and texts stand for.

use crate::answers::is_read;
use query_parse::parse;
use query_tree::{Expr, Item, Not, Number, Primary, Script, SelectItems, Unary};
use std::alloc::Global;
use std::process::Abort;
use std::test::Fail;

/// Asserts that each line of a table that isn't empty is read.
fn check_lines(rt: &impl Abort, alloc: Global, cases: &str) {
    for line in cases.lines() {
        if !line.is_empty() {
            assert!(rt; is_read(alloc, line.as_bytes()), "{line}");
        }
    }
}

#[test]
fn each_form_is_read(rt: HostRuntime) -> Result<(), Fail> {
    check_lines(&rt, rt.alloc(), FORMS);
    Ok(())
}

const FORMS: &str = "
select  a as x into out from src where a!=1
SELECT * INTO o FROM s;
SELECT a INTO o FROM s SELECT b INTO p FROM s
SELECT a INTO o FROM s; SELECT b INTO p FROM s;
WITH w AS (SELECT a FROM s UNION SELECT b FROM s), v AS (SELECT * FROM w) SELECT a INTO o FROM v
SELECT a INTO o FROM s UNION SELECT b FROM t
SELECT a b, c AS d INTO o FROM s t TIMESTAMP BY a + 1 OVER b.c, d
SELECT a INTO o FROM s AS t JOIN u ON a = b INNER JOIN v ON c = d LEFT OUTER JOIN w ON e = f
SELECT COUNT(*) INTO o FROM s WHERE a = 1 GROUP BY f(a, 1), b OVER (PARTITION BY c, d.e) HAVING g
SELECT a OR b AND NOT c = d INTO o FROM s
SELECT a BETWEEN 1 AND 2 AND b NOT BETWEEN 3 AND 4 INTO o FROM s
SELECT a IN (1, 2), b NOT IN (c), d LIKE 'x', e NOT LIKE f INTO o FROM s
SELECT a IS NULL, b IS NOT NULL, NULL INTO o FROM s
SELECT a < b, a <= b, a > b, a >= b, a <> b, a = b INTO o FROM s
SELECT a + b - c * d / e % - f INTO o FROM s
SELECT (a), f(), f(DISTINCT a, b), x.g(1) INTO o FROM s
SELECT CASE WHEN a THEN b END, CASE a WHEN b THEN c WHEN d THEN e ELSE f END INTO o FROM s
SELECT CAST(a AS bigint), TRY_CAST(b AS nvarchar(max)) INTO o FROM s
SELECT System.Timestamp, system . timestamp(), [System].[Timestamp] INTO o FROM s
SELECT [select], s.[from] INTO [into] FROM [a b] AS [c]
";

/// The first item of a script.
fn first_item(script: &Script) -> Option<&Item> {
    match &script.first.items {
        SelectItems::Listed(_, item, _) => Some(item),
        SelectItems::Star(_) => None,
    }
}

/// The primary with which an expression begins, if no NOT and no minus stands before it.
fn first_primary(expr: &Expr) -> Option<&Primary> {
    match &expr.first.first {
        Not::Pred(pred) => match &pred.sum.first.first {
            Unary::Primary(primary) => Some(primary),
            Unary::Minus(..) => None,
        },
        Not::Negation(..) => None,
    }
}

/// Whether the first item of a query is this number at 7.
fn is_number(alloc: Global, text: &str, wanted: Number) -> bool {
    match parse(alloc, text.as_bytes()) {
        Ok(script) => match first_item(&script).and_then(|item| first_primary(&item.expr)) {
            Some(Primary::Number(place, number)) => *place == 7 && *number == wanted,
            _ => false,
        },
        Err(_) => false,
    }
}

/// Whether the first item of a query is this text at 7.
fn is_text(alloc: Global, text: &str, wanted: &str) -> bool {
    match parse(alloc, text.as_bytes()) {
        Ok(script) => match first_item(&script).and_then(|item| first_primary(&item.expr)) {
            Some(Primary::Text(place, found)) => *place == 7 && found.items() == wanted.as_bytes(),
            _ => false,
        },
        Err(_) => false,
    }
}

#[test]
fn numbers_and_texts_have_their_values(rt: HostRuntime) -> Result<(), Fail> {
    let alloc = rt.alloc();
    assert!(rt; is_number(alloc, "SELECT 007 INTO o FROM s", Number::Whole(7)));
    assert!(rt;
        is_number(
            alloc,
            "SELECT 1.50 INTO o FROM s",
            Number::Decimal(1_500_000)
        )
    );
    assert!(rt; is_text(alloc, "SELECT 'it''s' INTO o FROM s", "it's"));
    assert!(rt; is_text(alloc, "SELECT '' INTO o FROM s", ""));
    Ok(())
}
