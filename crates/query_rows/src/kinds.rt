//! Parts whose kinds don't fit, each at the smallest expression whose parts don't.

use crate::answers::{TWO, check_lines};
use std::test::Fail;

#[test]
fn the_parts_of_an_item_do_not_fit(rt: HostRuntime) -> Result<(), Fail> {
    check_lines(&rt, rt.alloc(), TWO, ITEMS)
}

const ITEMS: &str = "
SELECT ^a + b INTO out FROM src => Kind
SELECT ^a + t AS x INTO out FROM src => Kind
SELECT ^c % 2 AS x INTO out FROM src => Kind
SELECT ^-b AS x INTO out FROM src => Kind
SELECT ^a > 1 AS x INTO out FROM src => Kind
SELECT ^(a > 1) + 1 AS x INTO out FROM src => Kind
SELECT ^CASE WHEN a THEN 1 END AS x INTO out FROM src => Kind
SELECT ^CASE WHEN a > 1 THEN 1 ELSE 'x' END AS x INTO out FROM src => Kind
SELECT ^CASE a WHEN 'x' THEN 1 END AS x INTO out FROM src => Kind
SELECT ^COALESCE(a, b) AS x INTO out FROM src => Kind
SELECT ^COALESCE() AS x INTO out FROM src => Kind
SELECT ^LEN(a) AS x INTO out FROM src => Kind
SELECT ^LEN(b, b) AS x INTO out FROM src => Kind
SELECT ^CONCAT() AS x INTO out FROM src => Kind
SELECT ^SUBSTRING(b, 1) AS x INTO out FROM src => Kind
SELECT ^DATEADD(foo, 1, t) AS x INTO out FROM src => Kind
SELECT ^DATEADD((day), 1, t) AS x INTO out FROM src => Kind
SELECT ^DATEDIFF(day, a, t) AS x INTO out FROM src => Kind
SELECT ^YEAR(a) AS x INTO out FROM src => Kind
SELECT ^CAST(c AS bit) AS x INTO out FROM src => Kind
SELECT ^CAST(t AS bigint) AS x INTO out FROM src => Kind
SELECT ^CAST(a AS datetime) AS x INTO out FROM src => Kind
SELECT ^System.Timestamp(a) AS x INTO out FROM src => Kind
SELECT ^SUM(a > 1) AS x INTO out FROM src => Kind
";

#[test]
fn the_parts_of_a_clause_do_not_fit(rt: HostRuntime) -> Result<(), Fail> {
    check_lines(&rt, rt.alloc(), TWO, CLAUSES)
}

const CLAUSES: &str = "
SELECT a INTO out FROM src WHERE ^a = b => Kind
SELECT a INTO out FROM src WHERE ^a = t => Kind
SELECT a INTO out FROM src WHERE ^k = c => Kind
SELECT a INTO out FROM src WHERE ^a => Kind
SELECT a INTO out FROM src WHERE ^a AND b IS NULL => Kind
SELECT a INTO out FROM src WHERE ^NOT a => Kind
SELECT a INTO out FROM src WHERE ^b LIKE a => Kind
SELECT a INTO out FROM src WHERE ^b LIKE ('x') => Kind
SELECT a INTO out FROM src WHERE ^b LIKE NULL => Kind
SELECT a INTO out FROM src WHERE ^a LIKE 'x' => Kind
SELECT a INTO out FROM src WHERE ^a IN (1, 'x') => Kind
SELECT a INTO out FROM src WHERE ^a BETWEEN 1 AND 'x' => Kind
SELECT a INTO out FROM src TIMESTAMP BY ^a => Kind
SELECT a INTO out FROM src TIMESTAMP BY ^t IS NULL => Kind
SELECT ^SUM(b) AS x INTO out FROM src GROUP BY TumblingWindow(second, 5) => Kind
SELECT ^AVG(t) AS x INTO out FROM src GROUP BY TumblingWindow(second, 5) => Kind
SELECT ^SUM(a, a) AS x INTO out FROM src GROUP BY TumblingWindow(second, 5) => Kind
SELECT COUNT(*) AS n INTO out FROM src GROUP BY ^a > 1, TumblingWindow(second, 5) => Kind
SELECT COUNT(*) AS n INTO out FROM src GROUP BY TumblingWindow(second, 5) HAVING ^COUNT(*) => Kind
SELECT a INTO out FROM src UNION ^SELECT b FROM src => Kind
SELECT a INTO out FROM src UNION ^SELECT c FROM src => Kind
SELECT a INTO out FROM src UNION ^SELECT a, b FROM src => Kind
SELECT a, b INTO out FROM src UNION ^SELECT a FROM src => Kind
";

#[test]
fn of_several_faults_the_least_place_counts(rt: HostRuntime) -> Result<(), Fail> {
    check_lines(&rt, rt.alloc(), TWO, SEVERAL)
}

const SEVERAL: &str = "
SELECT z, y INTO out FROM ^nosuch2 UNION SELECT q FROM src => UnknownSource
SELECT ^a + b AS x INTO out FROM src WHERE z > 1 => Kind
SELECT ^z + b AS x INTO out FROM src WHERE a => UnknownColumn
SELECT a, ^SUM(a) INTO out FROM src WHERE b => Aggregate
";
