//! Queries in their canonical text, each printed as it is from a copy of its tree.

use event_value::{Memory, Text};
use query_parse::{ParseErr, parse};
use query_print::print;
use query_tree::Script;
use std::alloc::Global;
use std::process::Abort;
use std::test::Fail;
use tree_copies::CopyTree;

/// The text of a copy of a query; the first tree is gone by then.
fn text_of_copy(alloc: Global, script: Script) -> Result<Text, Memory> {
    let copied = script.copy(alloc)?;
    drop(script);
    print(alloc, &copied)
}

/// Asserts that a copy of the query prints the text that the query itself has.
fn check(rt: &impl Abort, alloc: Global, query: &str) {
    match parse(alloc, query.as_bytes()) {
        Ok(script) => match text_of_copy(alloc, script) {
            Ok(text) => assert!(rt; text.items() == query.as_bytes(), "another text: {query}"),
            Err(_) => assert!(rt; false, "no memory: {query}"),
        },
        Err(ParseErr::Memory) => assert!(rt; false, "no memory: {query}"),
        Err(_) => assert!(rt; false, "no query: {query}"),
    }
}

/// Asserts each line of a table that isn't empty.
fn check_lines(rt: &impl Abort, alloc: Global, cases: &str) {
    for line in cases.lines() {
        if !line.is_empty() {
            check(rt, alloc, line);
        }
    }
}

#[test]
fn a_query_with_every_clause_prints_the_same_from_a_copy(rt: HostRuntime) -> Result<(), Fail> {
    check(&rt, rt.alloc(), WHOLE);
    Ok(())
}

const WHOLE: &str = "WITH w AS (SELECT a FROM s UNION SELECT b AS a FROM s), \
v AS (SELECT * FROM w) \
SELECT k, COUNT(*) AS n, CASE WHEN a = 1 THEN 'one' ELSE 'more' END word, \
CAST(a AS nvarchar(max)) INTO o \
FROM s AS l TIMESTAMP BY t OVER k, p.q \
LEFT OUTER JOIN u ON l.a = u.a AND DATEDIFF(second, l, u) BETWEEN 0 AND 5 \
JOIN v ON NOT l.b IS NULL \
WHERE a <> 2 OR b IN (1, - 2, 3) \
GROUP BY k, TumblingWindow(second, 5) OVER (PARTITION BY p.q, r) HAVING COUNT(*) > 1 \
UNION SELECT * FROM v; \
SELECT a INTO p FROM w;";

#[test]
fn statements_print_the_same_from_a_copy(rt: HostRuntime) -> Result<(), Fail> {
    check_lines(&rt, rt.alloc(), STATEMENTS);
    Ok(())
}

const STATEMENTS: &str = "
SELECT a INTO o FROM s
SELECT a, b c, d AS e INTO o FROM s;
SELECT * INTO o FROM s SELECT b INTO p FROM t
SELECT a INTO o FROM s; SELECT b INTO p FROM t;
WITH w AS (SELECT a FROM s) SELECT a INTO o FROM w
WITH w AS (SELECT a FROM s), v AS (SELECT * FROM w UNION SELECT b FROM s) SELECT a INTO o FROM v
SELECT a INTO o FROM s UNION SELECT b FROM t UNION SELECT c FROM u
SELECT a INTO o FROM s t TIMESTAMP BY a + 1
SELECT a INTO o FROM s AS t TIMESTAMP BY a OVER b.c, d
SELECT a INTO o FROM s JOIN u ON a = b INNER JOIN v ON c = d LEFT JOIN w ON e = f
SELECT a INTO o FROM s LEFT OUTER JOIN w AS x ON e = f WHERE a = 1
SELECT COUNT(*) INTO o FROM s GROUP BY f(a, 1), b OVER (PARTITION BY c, d.e) HAVING g
";

#[test]
fn expressions_print_the_same_from_a_copy(rt: HostRuntime) -> Result<(), Fail> {
    check_lines(&rt, rt.alloc(), EXPRESSIONS);
    Ok(())
}

const EXPRESSIONS: &str = "
SELECT a OR b AND NOT NOT c = d OR e INTO o FROM s
SELECT a BETWEEN 1 AND 2 AND b NOT BETWEEN 3 AND 4 INTO o FROM s
SELECT a IN (1, 2), b NOT IN (c), d LIKE 'x', e NOT LIKE f INTO o FROM s
SELECT a IS NULL, b IS NOT NULL, NULL INTO o FROM s
SELECT a < b, a <= b, a > b, a >= b, a <> b, a = b INTO o FROM s
SELECT a + b - c * d / e % - f, - - 1.5 INTO o FROM s
SELECT (a), f(), f(DISTINCT a, b), x.g(1), f(*) INTO o FROM s
SELECT CASE WHEN a THEN b END, CASE a WHEN b THEN c WHEN d THEN e ELSE f END INTO o FROM s
SELECT CAST(a AS bigint), TRY_CAST(b AS nvarchar(max)), 'it''s' INTO o FROM s
SELECT System.Timestamp(), s.[from] INTO [into] FROM [a b] AS [c d]
";
