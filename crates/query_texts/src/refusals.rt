//! Queries that don't fit the grammar: a caret stands before the token where they are refused.

use query_parse::{ParseErr, parse};
use std::alloc::Global;
use std::process::Abort;
use std::test::Fail;

/// The place at which a text is refused by Expected.
fn expected_at(alloc: Global, text: &[u8]) -> Option<usize> {
    match parse(alloc, text) {
        Err(ParseErr::Expected(place)) => Some(place as usize),
        _ => None,
    }
}

/// Whether a query is refused by Expected where the caret stands.
fn is_refused_there(alloc: Global, front: &str, back: &str) -> bool {
    match format!(in alloc; "{front}{back}") {
        Ok(text) => match expected_at(alloc, text.as_bytes()) {
            Some(place) => place == front.len(),
            None => false,
        },
        Err(_) => false,
    }
}

/// Asserts each line of a table.
fn check_lines(rt: &impl Abort, alloc: Global, cases: &str) {
    for line in cases.lines() {
        if let Some((front, back)) = line.split_once("^") {
            assert!(rt; is_refused_there(alloc, front, back), "{line}");
        }
    }
}

#[test]
fn a_script_is_refused_at_its_place(rt: HostRuntime) -> Result<(), Fail> {
    check_lines(&rt, rt.alloc(), SCRIPTS);
    Ok(())
}

const SCRIPTS: &str = "
^
^a
^; SELECT a INTO o FROM s
WITH ^SELECT a INTO o FROM s
WITH w ^SELECT a INTO o FROM s
WITH w AS ^SELECT a
WITH w AS (^)
WITH w AS (SELECT a ^INTO o FROM s)
WITH w AS (SELECT a FROM s^
WITH w AS (SELECT a FROM s)^
WITH w AS (SELECT a FROM s) ^FROM s
WITH w AS (SELECT a FROM s), ^SELECT a INTO o FROM s
WITH w AS (SELECT a FROM s UNION ^a)
SELECT a INTO o FROM s;^;
SELECT a INTO o FROM s ^WITH w AS (SELECT a FROM s)
SELECT a INTO o FROM s; ^a
SELECT a ^FROM s
SELECT a INTO ^FROM s
SELECT a INTO o ^s
SELECT a INTO o^
SELECT a INTO o FROM s UNION ^FROM s
SELECT a INTO o FROM s UNION SELECT a ^INTO p FROM s
";

#[test]
fn a_source_is_refused_at_its_place(rt: HostRuntime) -> Result<(), Fail> {
    check_lines(&rt, rt.alloc(), SOURCES);
    Ok(())
}

const SOURCES: &str = "
SELECT a INTO o FROM ^WHERE a = 1
SELECT a INTO o FROM ^'s'
SELECT a INTO o FROM s AS ^WHERE a = 1
SELECT a INTO o FROM s t ^u
SELECT a INTO o FROM s TIMESTAMP ^a
SELECT a INTO o FROM s TIMESTAMP BY ^OVER a
SELECT a INTO o FROM s TIMESTAMP BY a ^AS t
SELECT a INTO o FROM s TIMESTAMP BY a ^b
SELECT a INTO o FROM s TIMESTAMP BY a OVER ^1
SELECT a INTO o FROM s TIMESTAMP BY a OVER b, ^,
SELECT a INTO o FROM s INNER ^t
SELECT a INTO o FROM s LEFT ^t
SELECT a INTO o FROM s ^OUTER JOIN t ON a = b
SELECT a INTO o FROM s JOIN ^ON a = b
SELECT a INTO o FROM s JOIN t ^WHERE a = b
SELECT a INTO o FROM s JOIN t ON ^JOIN
SELECT a INTO o FROM s JOIN t ON a = b ^ON
";

#[test]
fn a_select_is_refused_at_its_place(rt: HostRuntime) -> Result<(), Fail> {
    check_lines(&rt, rt.alloc(), SELECTS);
    Ok(())
}

const SELECTS: &str = "
SELECT a b ^c INTO out FROM src
SELECT ^INTO o FROM s
SELECT ^, a INTO o FROM s
SELECT a, ^* INTO o FROM s
SELECT *^, a INTO o FROM s
SELECT * ^AS b INTO o FROM s
SELECT a AS ^1 INTO o FROM s
SELECT a AS b ^c INTO o FROM s
SELECT ^FROM s
SELECT a INTO o FROM s WHERE ^GROUP BY a
SELECT a INTO o FROM s WHERE a = 1 ^WHERE a = 1
SELECT a INTO o FROM s HAVING a = 1 ^WHERE a = 1
SELECT a INTO o FROM s GROUP ^a
SELECT a INTO o FROM s GROUP BY ^,
SELECT a INTO o FROM s GROUP BY a, ^HAVING a = 1
SELECT a INTO o FROM s GROUP BY a ^b
SELECT a INTO o FROM s GROUP BY a OVER ^a
SELECT a INTO o FROM s GROUP BY a OVER (^a)
SELECT a INTO o FROM s GROUP BY a OVER (PARTITION ^a)
SELECT a INTO o FROM s GROUP BY a OVER (PARTITION BY ^1)
SELECT a INTO o FROM s GROUP BY a OVER (PARTITION BY b, c^
SELECT a INTO o FROM s HAVING ^;
";

#[test]
fn a_condition_is_refused_at_its_place(rt: HostRuntime) -> Result<(), Fail> {
    check_lines(&rt, rt.alloc(), CONDITIONS);
    Ok(())
}

const CONDITIONS: &str = "
SELECT a OR ^INTO
SELECT a AND ^OR b
SELECT NOT ^INTO
SELECT a = ^= b
SELECT a = b ^= c
SELECT a < ^> b
SELECT a BETWEEN 1 ^OR 2
SELECT a BETWEEN 1 AND ^INTO
SELECT a BETWEEN 1 AND 2 ^BETWEEN
SELECT a NOT ^= 1
SELECT a NOT ^NULL
SELECT a IN ^1
SELECT a IN (^)
SELECT a IN (1 ^2)
SELECT a IN (1, ^)
SELECT a LIKE ^INTO
SELECT a IS ^1
SELECT a IS NOT ^1
SELECT a IS NULL ^IS NULL
SELECT NOT a = 1 AND NOT ^AND
";

#[test]
fn an_expression_is_refused_at_its_place(rt: HostRuntime) -> Result<(), Fail> {
    check_lines(&rt, rt.alloc(), EXPRESSIONS);
    Ok(())
}

const EXPRESSIONS: &str = "
SELECT a + ^* b
SELECT a * ^/ b
SELECT a % ^INTO
SELECT - ^+ a
SELECT (^)
SELECT (a ^INTO
SELECT a.^1
SELECT a.b^.c
SELECT s.^Timestamp
SELECT ^timestamp
SELECT f(^,)
SELECT f(a ^b)
SELECT f(a, ^)
SELECT f(DISTINCT ^)
SELECT f(DISTINCT ^*)
SELECT f(*^, a)
SELECT s.f^
SELECT CASE ^END
SELECT CASE a ^THEN
SELECT CASE WHEN a ^WHEN
SELECT CASE WHEN a THEN b ELSE ^END
SELECT CASE WHEN a THEN b ELSE c ^WHEN
SELECT CASE WHEN a THEN b ^INTO
SELECT CAST ^a
SELECT CAST(^)
SELECT CAST(a^, b)
SELECT CAST(a AS ^1)
SELECT CAST(a AS ^[b])
SELECT CAST(a AS nvarchar(^1))
SELECT CAST(a AS nvarchar(max^
SELECT TRY_CAST(a AS bigint ^b
SELECT (a^, b)
SELECT CASE a ^b WHEN c THEN d END
";
