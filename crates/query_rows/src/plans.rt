//! Queries that have a plan, with its steps.

use crate::answers::{TWO, check_lines};
use std::test::Fail;

#[test]
fn items_and_conditions_are_planned(rt: HostRuntime) -> Result<(), Fail> {
    check_lines(&rt, rt.alloc(), TWO, ITEMS)
}

const ITEMS: &str = "
SELECT a INTO out FROM src => Source Project
SELECT a / 2 AS h, CASE WHEN b IS NULL THEN 'none' ELSE b END AS c INTO out FROM src WHERE a > 0 => Source Filter Project
SELECT * INTO out FROM src => Source Project
SELECT src.a, b x INTO out FROM src => Source Project
SELECT s.a INTO out FROM src AS s => Source Project
SELECT a + c AS s INTO out FROM src => Source Project
SELECT NULL + NULL AS n INTO out FROM src => Source Project
SELECT NULL % NULL AS n INTO out FROM src => Source Project
SELECT -a AS n, -c AS m INTO out FROM src => Source Project
SELECT a INTO out FROM src WHERE a = c AND k = a OR b IS NOT NULL => Source Filter Project
SELECT a INTO out FROM src WHERE a BETWEEN 1 AND 2.5 => Source Filter Project
SELECT a INTO out FROM src WHERE a NOT IN (1, 2.5, NULL) => Source Filter Project
SELECT a INTO out FROM src WHERE b LIKE 'x%' => Source Filter Project
SELECT a INTO out FROM src WHERE NOT b NOT LIKE 'x%' => Source Filter Project
SELECT CASE a WHEN 1 THEN 'x' WHEN 2.5 THEN 'y' END AS v INTO out FROM src => Source Project
SELECT CASE WHEN a > 1 THEN a ELSE 2.5 END AS v INTO out FROM src => Source Project
SELECT COALESCE(a, c, NULL) AS v INTO out FROM src => Source Project
SELECT LEN(b), UPPER(b), SUBSTRING(b, 1, 2), CONCAT(b, 'x', NULL) INTO out FROM src => Source Project
SELECT DATEADD(day, 1, t), DATEDIFF(mi, t, t), DATEPART(YEAR, t), year(t) INTO out FROM src => Source Project
SELECT CAST(a AS nvarchar(max)), TRY_CAST(b AS DATETIME), CAST(c AS bigint), CAST(k AS bigint) INTO out FROM src => Source Project
SELECT System.Timestamp() AS w, system.timestamp AS x INTO out FROM src => Source Project
";

#[test]
fn stamps_unions_and_statements_are_planned(rt: HostRuntime) -> Result<(), Fail> {
    check_lines(&rt, rt.alloc(), TWO, STATEMENTS)
}

const STATEMENTS: &str = "
SELECT a INTO out FROM src TIMESTAMP BY t => Source Project
SELECT a INTO out FROM src TIMESTAMP BY DATEADD(day, 1, src.t) OVER b, src.k => Source Project
SELECT a INTO out FROM src TIMESTAMP BY NULL => Source Project
SELECT a INTO out FROM src UNION SELECT a FROM src => Source Project Project Union
SELECT a, b INTO out FROM src UNION SELECT a, d FROM dst => Source Source Project Project Union
SELECT NULL AS n INTO out FROM src UNION SELECT b FROM src => Source Project Project Union
WITH x AS (SELECT a AS z FROM src) SELECT z INTO out FROM x => Source Project Project
SELECT a INTO one FROM src; SELECT b INTO two FROM src; => Source Project Project
SELECT a INTO out FROM src TIMESTAMP BY t OVER b UNION SELECT a FROM src s TIMESTAMP BY (s.t) OVER s.b => Source Project Project Union
";

#[test]
fn groups_are_planned(rt: HostRuntime) -> Result<(), Fail> {
    check_lines(&rt, rt.alloc(), TWO, GROUPS)
}

const GROUPS: &str = "
SELECT b, COUNT(*) AS n, SUM(a) AS s INTO out FROM src GROUP BY b, TumblingWindow(second, 60) => Source Project Grid Project
SELECT b, COUNT(*) AS n INTO out FROM src GROUP BY b, TumblingWindow(second, 60) HAVING COUNT(*) > 1 => Source Project Grid Filter Project
SELECT b, COUNT(*) AS n INTO out FROM src GROUP BY b, 'a', TumblingWindow(second, 60) HAVING b LIKE 'a' => Source Project Grid Filter Project
SELECT 'a' AS x INTO out FROM src WHERE b LIKE 'a' GROUP BY 'a', TumblingWindow(second, 60) => Source Filter Project Grid Project
SELECT AVG(c) AS m INTO out FROM src WHERE a > 0 GROUP BY HoppingWindow(minute, 10, 5) => Source Filter Project Grid Project
SELECT MIN(b), MAX(t), COUNT(DISTINCT k) INTO out FROM src GROUP BY TumblingWindow(Duration(hour, 1)) => Source Project Grid Project
SELECT COUNT(a) INTO out FROM src GROUP BY HoppingWindow(Duration(hour, 1), Hop(minute, 5)) => Source Project Grid Project
SELECT a, COUNT(*) AS n INTO out FROM src GROUP BY a, SnapshotWindow() => Source Project Snapshot Project
SELECT COUNT(*) AS n INTO out FROM src GROUP BY System.Timestamp() => Source Project Snapshot Project
SELECT COUNT(*) AS n INTO out FROM src GROUP BY System.Timestamp => Source Project Snapshot Project
SELECT a + 1 + SUM(a) AS v INTO out FROM src GROUP BY a + 1, TumblingWindow(day, 7) => Source Project Grid Project
SELECT src.a AS v INTO out FROM src GROUP BY (a), tumblingwindow(DD, 1) => Source Project Grid Project
SELECT System.Timestamp() AS w, 5 AS five INTO out FROM src GROUP BY TumblingWindow(ms, 1) => Source Project Grid Project
SELECT COUNT(*) AS n INTO out FROM src GROUP BY HoppingWindow(second, 1000, 1) => Source Project Grid Project
";
