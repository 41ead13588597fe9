//! Queries and their canonical texts; a canonical text is printed as it is.

use query_parse::parse;
use query_print::print;
use std::alloc::Global;
use std::process::Abort;
use std::test::Fail;

/// Whether a query is read and printed so.
fn is_printed(alloc: Global, query: &str, text: &str) -> bool {
    match parse(alloc, query.as_bytes()) {
        Ok(script) => match print(alloc, &script) {
            Ok(printed) => printed.items() == text.as_bytes(),
            Err(_) => false,
        },
        Err(_) => false,
    }
}

/// Asserts that a query has this canonical text, and the text itself.
fn check(rt: &impl Abort, alloc: Global, query: &str, text: &str) {
    assert!(rt; is_printed(alloc, query, text), "{query}");
    assert!(rt; is_printed(alloc, text, text), "{text}");
}

/// Asserts each line of a table: a query and its canonical text.
fn check_lines(rt: &impl Abort, alloc: Global, cases: &str) {
    for line in cases.lines() {
        if let Some((query, text)) = line.split_once(" => ") {
            check(rt, alloc, query, text);
        }
    }
}

#[test]
fn statements_are_spaced(rt: HostRuntime) -> Result<(), Fail> {
    check_lines(&rt, rt.alloc(), STATEMENTS);
    check(
        &rt,
        rt.alloc(),
        "select a--x\ninto o from s",
        "SELECT a INTO o FROM s",
    );
    Ok(())
}

const STATEMENTS: &str = "
select a into o from s => SELECT a INTO o FROM s
select  a as x into out from src where a!=1 => SELECT a AS x INTO out FROM src WHERE a <> 1
SELECT a INTO o FROM s ; => SELECT a INTO o FROM s;
select a into o from s select b into p from t => SELECT a INTO o FROM s SELECT b INTO p FROM t
select a into o from s;select b into p from t; => SELECT a INTO o FROM s; SELECT b INTO p FROM t;
select * into o from s => SELECT * INTO o FROM s
select a,b , c into o from s => SELECT a, b, c INTO o FROM s
select a x into o from s => SELECT a x INTO o FROM s
select/* b */a into o from s => SELECT a INTO o FROM s
";

#[test]
fn names_keep_the_brackets_that_they_need(rt: HostRuntime) -> Result<(), Fail> {
    check_lines(&rt, rt.alloc(), NAMES);
    Ok(())
}

const NAMES: &str = "
select a as [x] into [o] from [s] => SELECT a AS x INTO o FROM s
select [a b] into [o p] from [1s] => SELECT [a b] INTO [o p] FROM [1s]
select [select] into [From] from [ab] => SELECT [select] INTO [From] FROM ab
select [timestamp] into o from s => SELECT [timestamp] INTO o FROM s
select s . a into o from s => SELECT s.a INTO o FROM s
select [s].[a b] into o from s => SELECT s.[a b] INTO o FROM s
select system . timestamp() into o from s => SELECT system.timestamp() INTO o FROM s
select System.Timestamp into o from s => SELECT System.Timestamp INTO o FROM s
select [System].[TIMESTAMP] into o from s => SELECT System.TIMESTAMP INTO o FROM s
select s.[Timestamp] into o from s => SELECT s.[Timestamp] INTO o FROM s
";

#[test]
fn numbers_and_texts_have_one_form(rt: HostRuntime) -> Result<(), Fail> {
    check_lines(&rt, rt.alloc(), NUMBERS);
    Ok(())
}

const NUMBERS: &str = "
select 007 into o from s => SELECT 7 INTO o FROM s
select 000 into o from s => SELECT 0 INTO o FROM s
select 1.50 into o from s => SELECT 1.5 INTO o FROM s
select 1.0 into o from s => SELECT 1.0 INTO o FROM s
select 000.500000 into o from s => SELECT 0.5 INTO o FROM s
select 10.000000 into o from s => SELECT 10.0 INTO o FROM s
select 0.000001 into o from s => SELECT 0.000001 INTO o FROM s
select 020.0500 into o from s => SELECT 20.05 INTO o FROM s
select 0.0 into o from s => SELECT 0.0 INTO o FROM s
select 70 into o from s => SELECT 70 INTO o FROM s
select 9223372036854775807 into o from s => SELECT 9223372036854775807 INTO o FROM s
select 'it''s' into o from s => SELECT 'it''s' INTO o FROM s
select '' into o from s => SELECT '' INTO o FROM s
select 'a--b/*c' into o from s => SELECT 'a--b/*c' INTO o FROM s
select null into o from s => SELECT NULL INTO o FROM s
";

#[test]
fn operators_are_spaced(rt: HostRuntime) -> Result<(), Fail> {
    check_lines(&rt, rt.alloc(), OPERATORS);
    Ok(())
}

const OPERATORS: &str = "
select (a) into o from s => SELECT (a) INTO o FROM s
select ((a)) into o from s => SELECT ((a)) INTO o FROM s
select ( a+b )*c into o from s => SELECT (a + b) * c INTO o FROM s
select a+b-c into o from s => SELECT a + b - c INTO o FROM s
select a*b/c%d into o from s => SELECT a * b / c % d INTO o FROM s
select -a into o from s => SELECT - a INTO o FROM s
select - -a into o from s => SELECT - - a INTO o FROM s
select -(a) into o from s => SELECT - (a) INTO o FROM s
select a - -b into o from s => SELECT a - - b INTO o FROM s
";

#[test]
fn conditions_are_spaced(rt: HostRuntime) -> Result<(), Fail> {
    check_lines(&rt, rt.alloc(), CONDITIONS);
    Ok(())
}

const CONDITIONS: &str = "
select a into o from s where a=1 => SELECT a INTO o FROM s WHERE a = 1
select a into o from s where a<b => SELECT a INTO o FROM s WHERE a < b
select a into o from s where a<=b => SELECT a INTO o FROM s WHERE a <= b
select a into o from s where a>b => SELECT a INTO o FROM s WHERE a > b
select a into o from s where a>=b => SELECT a INTO o FROM s WHERE a >= b
select a into o from s where a<>b => SELECT a INTO o FROM s WHERE a <> b
select a into o from s where a between 1 and 2 => SELECT a INTO o FROM s WHERE a BETWEEN 1 AND 2
select a into o from s where a not between 1 and 2 => SELECT a INTO o FROM s WHERE a NOT BETWEEN 1 AND 2
select a into o from s where a in(1,2) => SELECT a INTO o FROM s WHERE a IN (1, 2)
select a into o from s where a not in ( 1 ) => SELECT a INTO o FROM s WHERE a NOT IN (1)
select a into o from s where a like 'x%' => SELECT a INTO o FROM s WHERE a LIKE 'x%'
select a into o from s where a not like 'x' => SELECT a INTO o FROM s WHERE a NOT LIKE 'x'
select a into o from s where a is null => SELECT a INTO o FROM s WHERE a IS NULL
select a into o from s where a is not null => SELECT a INTO o FROM s WHERE a IS NOT NULL
select a into o from s where not a=1 => SELECT a INTO o FROM s WHERE NOT a = 1
select a into o from s where not not(a=1) => SELECT a INTO o FROM s WHERE NOT NOT (a = 1)
select a into o from s where a=1 and b=2 or c=3 => SELECT a INTO o FROM s WHERE a = 1 AND b = 2 OR c = 3
";

#[test]
fn calls_and_cases_are_spaced(rt: HostRuntime) -> Result<(), Fail> {
    check_lines(&rt, rt.alloc(), CALLS);
    Ok(())
}

const CALLS: &str = "
select f( ) into o from s => SELECT f() INTO o FROM s
select count ( * ) into o from s => SELECT count(*) INTO o FROM s
select Count( distinct a ) into o from s => SELECT Count(DISTINCT a) INTO o FROM s
select f(a,b ,c) into o from s => SELECT f(a, b, c) INTO o FROM s
select s.f(a) into o from s => SELECT s.f(a) INTO o FROM s
select [a b](c) into o from s => SELECT [a b](c) INTO o FROM s
select cast(a as bigint) into o from s => SELECT CAST(a AS bigint) INTO o FROM s
select try_cast( a as nvarchar( max ) ) into o from s => SELECT TRY_CAST(a AS nvarchar(max)) INTO o FROM s
select case when a=1 then 'x' end into o from s => SELECT CASE WHEN a = 1 THEN 'x' END INTO o FROM s
select case a when 1 then 2 when 3 then 4 else 5 end into o from s => SELECT CASE a WHEN 1 THEN 2 WHEN 3 THEN 4 ELSE 5 END INTO o FROM s
";

#[test]
fn sources_and_groups_are_spaced(rt: HostRuntime) -> Result<(), Fail> {
    check_lines(&rt, rt.alloc(), SOURCES);
    Ok(())
}

const SOURCES: &str = "
select a into o from s t => SELECT a INTO o FROM s t
select a into o from s as t => SELECT a INTO o FROM s AS t
select a into o from s timestamp by x => SELECT a INTO o FROM s TIMESTAMP BY x
select a into o from s timestamp by x over d,e => SELECT a INTO o FROM s TIMESTAMP BY x OVER d, e
select a into o from s join t on s.a=t.a => SELECT a INTO o FROM s JOIN t ON s.a = t.a
select a into o from s inner join t u on a=b => SELECT a INTO o FROM s INNER JOIN t u ON a = b
select a into o from s left join t on a=b => SELECT a INTO o FROM s LEFT JOIN t ON a = b
select a into o from s left outer join t as u on a=b => SELECT a INTO o FROM s LEFT OUTER JOIN t AS u ON a = b
select a into o from s group by a,f(second,5) => SELECT a INTO o FROM s GROUP BY a, f(second, 5)
select a into o from s group by f(a) over(partition by d,e) => SELECT a INTO o FROM s GROUP BY f(a) OVER (PARTITION BY d, e)
select a into o from s group by a having count(*)>1 => SELECT a INTO o FROM s GROUP BY a HAVING count(*) > 1
select a into o from s union select b from t => SELECT a INTO o FROM s UNION SELECT b FROM t
with q as(select a from s) select a into o from q => WITH q AS (SELECT a FROM s) SELECT a INTO o FROM q
with q as (select a from s union select b from t),r as (select * from q)select a into o from r => WITH q AS (SELECT a FROM s UNION SELECT b FROM t), r AS (SELECT * FROM q) SELECT a INTO o FROM r
";
