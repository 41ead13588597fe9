//! Names of sources, columns and outputs that are unknown, that two things have, or that stand twice.

use crate::answers::{ONE, TWO, check_lines};
use std::test::Fail;

#[test]
fn an_unknown_source_is_refused_at_its_name(rt: HostRuntime) -> Result<(), Fail> {
    check_lines(&rt, rt.alloc(), TWO, SOURCES)
}

const SOURCES: &str = "
SELECT a INTO out FROM ^nosuch => UnknownSource
SELECT z INTO out FROM ^nosuch => UnknownSource
SELECT a INTO out FROM ^SRC => UnknownSource
WITH x AS (SELECT a FROM ^y), y AS (SELECT a FROM src) SELECT a INTO out FROM x => UnknownSource
SELECT a INTO out FROM src UNION SELECT a FROM ^other => UnknownSource
SELECT COUNT(*) AS n INTO out FROM ^nosuch GROUP BY z, TumblingWindow(second, 5) => UnknownSource
";

#[test]
fn an_unknown_column_is_refused_at_its_name(rt: HostRuntime) -> Result<(), Fail> {
    check_lines(&rt, rt.alloc(), TWO, COLUMNS)
}

const COLUMNS: &str = "
SELECT ^A INTO out FROM src => UnknownColumn
SELECT ^src.z INTO out FROM src => UnknownColumn
SELECT ^src.a INTO out FROM src AS s => UnknownColumn
SELECT a INTO out FROM src WHERE ^z > 1 => UnknownColumn
SELECT FOO(^z) INTO out FROM src => UnknownColumn
SELECT a INTO out FROM src WHERE SUM(^z) > 1 => UnknownColumn
SELECT a INTO out FROM src TIMESTAMP BY ^a2 => UnknownColumn
SELECT a INTO out FROM src TIMESTAMP BY t OVER ^z => UnknownColumn
SELECT a INTO out FROM src TIMESTAMP BY t OVER ^System.Timestamp => UnknownColumn
SELECT SUM(^z) INTO out FROM src GROUP BY TumblingWindow(second, 5) => UnknownColumn
SELECT b INTO out FROM src GROUP BY ^z, b, TumblingWindow(second, 5) => UnknownColumn
SELECT DATEADD(foo, ^z, t) INTO out FROM src => UnknownColumn
WITH x AS (SELECT a AS z FROM src) SELECT ^a INTO out FROM x => UnknownColumn
";

#[test]
fn one_stream_has_its_names_alone(rt: HostRuntime) -> Result<(), Fail> {
    check_lines(&rt, rt.alloc(), ONE, ONE_STREAM)
}

const ONE_STREAM: &str = "
SELECT a, b INTO out FROM src => Source Project
SELECT a INTO out FROM ^dst => UnknownSource
SELECT ^z INTO out FROM src => UnknownColumn
";

#[test]
fn a_column_of_two_sources_is_refused(rt: HostRuntime) -> Result<(), Fail> {
    check_lines(&rt, rt.alloc(), TWO, AMBIGUOUS)
}

const AMBIGUOUS: &str = "
SELECT ^a INTO out FROM src JOIN dst ON src.a = dst.a => Ambiguous
SELECT b, ^t INTO out FROM src JOIN dst ON 1 = 1 => Ambiguous
SELECT LEN(b) + ^a INTO out FROM src LEFT JOIN ref ON 1 = 1 => Ambiguous
SELECT src.a, ^a INTO out FROM src JOIN dst ON 1 = 1 => Ambiguous
WITH x AS (SELECT a FROM src) SELECT ^a INTO out FROM x JOIN src ON 1 = 1 => Ambiguous
";

#[test]
fn a_name_stands_once(rt: HostRuntime) -> Result<(), Fail> {
    check_lines(&rt, rt.alloc(), TWO, NAMES)
}

const NAMES: &str = "
SELECT a, ^a INTO out FROM src => NameTwice
SELECT a AS x, b AS ^x INTO out FROM src => NameTwice
SELECT a AS Column2, ^1 INTO out FROM src => NameTwice
SELECT a INTO out FROM src; SELECT b INTO ^out FROM src => NameTwice
WITH x AS (SELECT a FROM src), ^x AS (SELECT a FROM src) SELECT a INTO out FROM x => NameTwice
WITH ^src AS (SELECT a FROM src) SELECT a INTO out FROM src => NameTwice
WITH ^ref AS (SELECT a FROM src) SELECT a INTO out FROM ref => NameTwice
SELECT ^* INTO out FROM src JOIN dst ON 1 = 1 => NameTwice
";

#[test]
fn a_stream_has_one_stamp(rt: HostRuntime) -> Result<(), Fail> {
    check_lines(&rt, rt.alloc(), TWO, STAMPS)
}

const STAMPS: &str = "
SELECT a INTO out FROM src TIMESTAMP BY t UNION SELECT a FROM ^src => StampTwice
SELECT a INTO out FROM src UNION SELECT a FROM ^src TIMESTAMP BY t => StampTwice
SELECT a INTO out FROM src TIMESTAMP BY t OVER b UNION SELECT a FROM ^src TIMESTAMP BY t => StampTwice
SELECT a INTO out FROM src TIMESTAMP BY t OVER b UNION SELECT a FROM ^src TIMESTAMP BY t OVER k => StampTwice
WITH x AS (SELECT a FROM src TIMESTAMP BY t) SELECT a INTO out FROM x UNION SELECT a FROM ^src => StampTwice
SELECT a INTO one FROM src TIMESTAMP BY t; SELECT a INTO two FROM ^src TIMESTAMP BY DATEADD(day, 1, t) => StampTwice
SELECT a INTO out FROM src TIMESTAMP BY t UNION SELECT a FROM ^src TIMESTAMP BY z => StampTwice
";
