//! Aggregates, group expressions and windows where they may not stand.

use crate::answers::{TWO, check_lines};
use std::test::Fail;

#[test]
fn an_aggregate_without_groups_is_refused(rt: HostRuntime) -> Result<(), Fail> {
    check_lines(&rt, rt.alloc(), TWO, AGGREGATES)
}

const AGGREGATES: &str = "
SELECT ^SUM(a) INTO out FROM src => Aggregate
SELECT ^COUNT(*) INTO out FROM src => Aggregate
SELECT a INTO out FROM src WHERE ^COUNT(*) > 1 => Aggregate
SELECT COUNT(*) AS n INTO out FROM src WHERE ^MIN(a) > 1 GROUP BY TumblingWindow(second, 5) => Aggregate
SELECT SUM(^COUNT(*)) INTO out FROM src GROUP BY TumblingWindow(second, 5) => Aggregate
SELECT COUNT(*) AS n INTO out FROM src GROUP BY ^MAX(a), TumblingWindow(second, 5) => Aggregate
SELECT a INTO out FROM src TIMESTAMP BY ^MAX(t) => Aggregate
SELECT 1 + ^COUNT(DISTINCT a) AS x INTO out FROM src => Aggregate
";

#[test]
fn what_is_no_group_is_refused(rt: HostRuntime) -> Result<(), Fail> {
    check_lines(&rt, rt.alloc(), TWO, NOT_GROUPED)
}

const NOT_GROUPED: &str = "
SELECT ^a INTO out FROM src GROUP BY TumblingWindow(second, 5) => NotGrouped
SELECT ^a + 'x' AS v INTO out FROM src GROUP BY b, TumblingWindow(second, 5) => NotGrouped
SELECT ^* INTO out FROM src GROUP BY a, TumblingWindow(second, 5) => NotGrouped
SELECT COUNT(*) AS n INTO out FROM src GROUP BY a, TumblingWindow(second, 5) HAVING ^b = 'x' => NotGrouped
SELECT ^a INTO out FROM src GROUP BY a + 1, TumblingWindow(second, 5) => NotGrouped
SELECT 1 + ^a AS v INTO out FROM src GROUP BY a + 1, TumblingWindow(second, 5) => NotGrouped
SELECT SUM(a) + ^src.c AS v INTO out FROM src GROUP BY a, SnapshotWindow() => NotGrouped
";

#[test]
fn a_window_has_its_form(rt: HostRuntime) -> Result<(), Fail> {
    check_lines(&rt, rt.alloc(), TWO, WINDOWS)
}

const WINDOWS: &str = "
SELECT COUNT(*) AS n INTO out FROM src ^GROUP BY a => Window
SELECT COUNT(*) AS n INTO out FROM src ^GROUP BY TumblingWindow(second, 5), SnapshotWindow() => Window
SELECT COUNT(*) AS n INTO out FROM src ^GROUP BY System.Timestamp(), TumblingWindow(second, 5) => Window
SELECT COUNT(*) AS n INTO out FROM src GROUP BY ^HoppingWindow(second, 5, 10) => Window
SELECT COUNT(*) AS n INTO out FROM src GROUP BY ^TumblingWindow(day, 8) => Window
SELECT COUNT(*) AS n INTO out FROM src GROUP BY ^HoppingWindow(second, 1001, 1) => Window
SELECT COUNT(*) AS n INTO out FROM src GROUP BY ^TumblingWindow(second, 0) => Window
SELECT COUNT(*) AS n INTO out FROM src GROUP BY ^TumblingWindow(month, 1) => Window
SELECT COUNT(*) AS n INTO out FROM src GROUP BY ^TumblingWindow(second) => Window
SELECT COUNT(*) AS n INTO out FROM src GROUP BY ^TumblingWindow(second, a) => Window
SELECT COUNT(*) AS n INTO out FROM src GROUP BY ^TumblingWindow(second, -5) => Window
SELECT COUNT(*) AS n INTO out FROM src GROUP BY ^TumblingWindow(second, 1.5) => Window
SELECT COUNT(*) AS n INTO out FROM src GROUP BY ^HoppingWindow(Duration(second, 10), 5) => Window
SELECT COUNT(*) AS n INTO out FROM src GROUP BY ^TumblingWindow(second, 10, Offset(second, a)) => Window
SELECT COUNT(*) AS n INTO out FROM src GROUP BY ^SnapshotWindow(second) => Window
SELECT COUNT(*) AS n INTO out FROM src GROUP BY ^TumblingWindow(*) => Window
SELECT COUNT(*) AS n INTO out FROM src GROUP BY ^HoppingWindow(second, 10, 0) => Window
";
