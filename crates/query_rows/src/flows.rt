//! Sliding and session windows: their steps, what they take of each row, and where they are
//! refused.

use crate::answers::{TWO, check_lines};
use crate::plan_texts::check_plans;
use std::test::Fail;

#[test]
fn a_window_takes_parts_then_keys_then_arguments(rt: HostRuntime) -> Result<(), Fail> {
    check_plans(&rt, rt.alloc(), STEPS)
}

// Columns of src: a is 0, b is 1, c is 2, t is 3, k is 4. A second has 10,000,000 ticks.
const STEPS: &str = "
SELECT COUNT(*) AS n, SUM(a) AS s INTO out FROM src GROUP BY SlidingWindow(second, 10) => Source Project 0 Sliding 100000000 keys 0 Count Sum 0 Project 0 1
SELECT b, MAX(t) AS last INTO out FROM src GROUP BY b, slidingwindow(ms, 1) => Source Project 1 3 Sliding 10000 keys 1 Max 1 Project 0 1
SELECT COUNT(*) AS n INTO out FROM src GROUP BY SessionWindow(minute, 5, 10) => Source Project Session 3000000000 6000000000 parts 0 keys 0 Count Project 0
SELECT COUNT(*) AS n INTO out FROM src GROUP BY SESSIONWINDOW(hour, 2, 1) => Source Project Session 72000000000 36000000000 parts 0 keys 0 Count Project 0
SELECT b, SUM(a) AS s, COUNT(c) AS n INTO out FROM src GROUP BY b, SessionWindow(second, 1, 2) OVER (PARTITION BY k) => Source Project 4 1 0 2 Session 10000000 20000000 parts 1 keys 1 Sum 2 Count 3 Project 0 1 2
SELECT b, AVG(c) AS m INTO out FROM src GROUP BY SessionWindow(second, 1, 2) OVER (PARTITION BY k, src.t), b => Source Project 4 3 1 2 Session 10000000 20000000 parts 2 keys 1 Avg 3 Project 0 1
SELECT k, COUNT(DISTINCT a) AS n INTO out FROM src GROUP BY k, SessionWindow(second, 1, 2) OVER (PARTITION BY k) => Source Project 4 4 0 Session 10000000 20000000 parts 1 keys 1 CountDistinct 2 Project 0 1
SELECT COUNT(*) AS n INTO out FROM src GROUP BY SessionWindow(day, 7, 7) OVER (PARTITION BY b, b) => Source Project 1 1 Session 6048000000000 6048000000000 parts 2 keys 0 Count Project 0
";

#[test]
fn sessions_stand_where_other_windows_do(rt: HostRuntime) -> Result<(), Fail> {
    check_lines(&rt, rt.alloc(), TWO, PLACES)
}

const PLACES: &str = "
SELECT b, COUNT(*) AS n INTO out FROM src WHERE a > 0 GROUP BY b, SlidingWindow(day, 7) HAVING COUNT(*) > 1 => Source Filter Project Sliding Filter Project
SELECT COUNT(*) AS n INTO out FROM src GROUP BY SessionWindow(minute, 5, 10) UNION SELECT a FROM src => Source Project Session Project Project Union
WITH x AS (SELECT b, COUNT(*) AS n FROM src GROUP BY b, SessionWindow(minute, 5, 10) OVER (PARTITION BY b)) SELECT n INTO out FROM x WHERE n > 1 => Source Project Session Project Filter Project
WITH x AS (SELECT a AS z FROM src) SELECT COUNT(*) AS n INTO out FROM x GROUP BY SessionWindow(minute, 5, 10) OVER (PARTITION BY x.z) => Source Project Project Session Project
SELECT ^k INTO out FROM src GROUP BY SessionWindow(minute, 5, 10) OVER (PARTITION BY k) => NotGrouped
SELECT ^SlidingWindow(second, z) AS w INTO out FROM src => Unsupported
SELECT a INTO out FROM src WHERE ^SessionWindow(minute, 5, 10) IS NULL => Unsupported
SELECT COUNT(*) AS n INTO out FROM src GROUP BY (^SlidingWindow(second, 5)), SnapshotWindow() => Unsupported
SELECT COUNT(*) AS n INTO out FROM src ^GROUP BY SlidingWindow(second, 5), SessionWindow(minute, 5, 10) => Window
";

#[test]
fn their_lengths_are_above_0_and_within_7_days(rt: HostRuntime) -> Result<(), Fail> {
    check_lines(&rt, rt.alloc(), TWO, LENGTHS)
}

const LENGTHS: &str = "
SELECT COUNT(*) AS n INTO out FROM src GROUP BY ^SlidingWindow(second, 0) => Window
SELECT COUNT(*) AS n INTO out FROM src GROUP BY ^SlidingWindow(second, -5) => Window
SELECT COUNT(*) AS n INTO out FROM src GROUP BY ^SlidingWindow(day, 8) => Window
SELECT COUNT(*) AS n INTO out FROM src GROUP BY ^SlidingWindow(Duration(second, 5)) => Window
SELECT COUNT(*) AS n INTO out FROM src GROUP BY ^SlidingWindow(second, 5, Offset(second, 1)) => Window
SELECT COUNT(*) AS n INTO out FROM src GROUP BY ^SessionWindow(minute, 0, 10) => Window
SELECT COUNT(*) AS n INTO out FROM src GROUP BY ^SessionWindow(minute, 5, 0) OVER (PARTITION BY z) => Window
SELECT COUNT(*) AS n INTO out FROM src GROUP BY ^SessionWindow(day, 8, 1) => Window
SELECT COUNT(*) AS n INTO out FROM src GROUP BY ^SessionWindow(day, 1, 8) => Window
SELECT COUNT(*) AS n INTO out FROM src GROUP BY ^SessionWindow(minute, 5) => Window
SELECT COUNT(*) AS n INTO out FROM src GROUP BY ^SessionWindow(Duration(minute, 5), 10) => Window
SELECT COUNT(*) AS n INTO out FROM src GROUP BY ^SessionWindow(month, 1, 1) => Window
SELECT COUNT(*) AS n INTO out FROM src GROUP BY ^SessionWindow(*) => Window
";

#[test]
fn over_belongs_to_a_session(rt: HostRuntime) -> Result<(), Fail> {
    check_lines(&rt, rt.alloc(), TWO, OVER)
}

const OVER: &str = "
SELECT COUNT(*) AS n INTO out FROM src GROUP BY ^TumblingWindow(second, 5) OVER (PARTITION BY b) => Unsupported
SELECT COUNT(*) AS n INTO out FROM src GROUP BY ^SlidingWindow(second, 5) OVER (PARTITION BY z) => Unsupported
SELECT COUNT(*) AS n INTO out FROM src GROUP BY ^a OVER (PARTITION BY b), SessionWindow(minute, 5, 10) => Unsupported
SELECT COUNT(*) AS n INTO out FROM src GROUP BY SessionWindow(minute, 5, 10) OVER (PARTITION BY ^z) => UnknownColumn
SELECT COUNT(*) AS n INTO out FROM src GROUP BY SessionWindow(minute, 5, 10) OVER (PARTITION BY b, ^dst.a) => UnknownColumn
SELECT COUNT(*) AS n INTO out FROM src GROUP BY SessionWindow(minute, 5, 10) OVER (PARTITION BY ^System.Timestamp) => UnknownColumn
SELECT COUNT(*) AS n INTO out FROM ^nosuch GROUP BY SessionWindow(minute, 5, 10) OVER (PARTITION BY z) => UnknownSource
";
