//! Constructs that aren't built, each at its place.

use crate::answers::{TWO, check_lines};
use std::test::Fail;

#[test]
fn a_window_that_is_not_built_is_refused(rt: HostRuntime) -> Result<(), Fail> {
    check_lines(&rt, rt.alloc(), TWO, WINDOWS)
}

const WINDOWS: &str = "
SELECT ^TumblingWindow(second, z) AS w INTO out FROM src => Unsupported
SELECT a INTO out FROM src WHERE ^SnapshotWindow() IS NULL => Unsupported
SELECT COUNT(*) AS n INTO out FROM src GROUP BY (^TumblingWindow(second, 5)), SnapshotWindow() => Unsupported
SELECT COUNT(*) AS n INTO out FROM src GROUP BY ^a OVER (PARTITION BY b), SnapshotWindow() => Unsupported
SELECT COUNT(*) AS n INTO out FROM src GROUP BY TumblingWindow(second, 10, ^Offset(second, 1)) => Unsupported
SELECT COUNT(*) AS n INTO out FROM src GROUP BY HoppingWindow(Duration(second, 10), Hop(second, 5), ^Offset(second, -1)) => Unsupported
SELECT ^SUM(*) AS x INTO out FROM src GROUP BY TumblingWindow(second, 5) => Unsupported
";

#[test]
fn what_is_not_built_is_refused(rt: HostRuntime) -> Result<(), Fail> {
    check_lines(&rt, rt.alloc(), TWO, OTHERS)
}

const OTHERS: &str = "
SELECT a INTO out FROM src ^HAVING a > 1 => Unsupported
SELECT name INTO out FROM ^ref => Unsupported
WITH x AS (SELECT a, t FROM src) SELECT a INTO out FROM x ^TIMESTAMP BY t => Unsupported
SELECT a INTO out FROM src TIMESTAMP BY ^System.Timestamp() => Unsupported
SELECT ^FOO(a) AS x INTO out FROM src => Unsupported
SELECT ^src.LEN(b) AS x INTO out FROM src => Unsupported
SELECT ^LEN(*) AS x INTO out FROM src => Unsupported
SELECT ^SUM(DISTINCT z) AS x INTO out FROM src => Unsupported
SELECT CAST(a AS ^varchar) AS x INTO out FROM src => Unsupported
SELECT CAST(b AS ^nvarchar) AS x INTO out FROM src => Unsupported
SELECT a INTO ^[o u t] FROM src => Unsupported
SELECT ^LAG(a) AS x INTO out FROM src => Unsupported
";
