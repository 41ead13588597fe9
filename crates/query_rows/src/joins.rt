//! Joins: their steps, their bounds and conditions, and where they are refused.

use crate::answers::{TWO, check_lines};
use crate::plan_texts::check_plans;
use std::test::Fail;

#[test]
fn each_join_takes_the_rows_so_far_on(rt: HostRuntime) -> Result<(), Fail> {
    check_plans(&rt, rt.alloc(), PLANS)
}

// Columns of src: a is 0, b is 1, c is 2, t is 3, k is 4; of dst: a, d, t; of ref: a, name; of
// zones: zone. Among the references zones is the first. A second has 10,000,000 ticks.
const PLANS: &str = "
SELECT l.a, r.b INTO out FROM src l LEFT JOIN src r ON DATEDIFF(second, l, r) BETWEEN 0 AND 10 AND l.a = r.a => Source Join 0 0 0 100000000 left 0 = 5 Project 0 6
SELECT b, d INTO out FROM src JOIN dst ON DATEDIFF(minute, src, dst) BETWEEN -1 AND 2 => Source Source Join 0 1 -600000000 1200000000 inner # 0 = # 0 Project 1 6
SELECT b, d INTO out FROM src JOIN dst ON DATEDIFF(second, dst, src) BETWEEN -1 AND 5 => Source Source Join 0 1 -50000000 10000000 inner # 0 = # 0 Project 1 6
SELECT b, d INTO out FROM dst LEFT OUTER JOIN src ON DATEDIFF(day, src, dst) BETWEEN -7 AND 7 => Source Source Join 1 0 -6048000000000 6048000000000 left # 0 = # 0 Project 4 1
SELECT b INTO out FROM src INNER JOIN dst s ON src.a = s.a AND datediff(MS, src, s) BETWEEN 0 AND 0 AND b = d => Source Source Join 0 1 0 0 inner 0 = 5 and 1 = 6 Project 1
SELECT b, name INTO out FROM src JOIN ref ON src.a = ref.a => reference 1 Source Lookup 0 0 inner 0 = 5 Project 1 6
SELECT b INTO out FROM src LEFT JOIN ref ON b = name AND src.a = ref.a LEFT JOIN zones z ON b = zone => reference 0 reference 1 Source Lookup 0 1 left 1 = 6 and 0 = 5 Lookup 1 0 left 1 = 7 Project 1
SELECT b INTO out FROM src JOIN ref p ON src.a = p.a JOIN ref q ON p.a = q.a => reference 1 Source Lookup 0 0 inner 0 = 5 Lookup 1 0 inner 5 = 7 Project 1
SELECT d, name INTO out FROM src JOIN dst ON DATEDIFF(hour, src, dst) BETWEEN 1 AND 2 JOIN ref ON ref.a = dst.a => reference 1 Source Source Join 0 1 36000000000 72000000000 inner # 0 = # 0 Lookup 2 0 inner 8 = 5 Project 6 9
SELECT d, name INTO out FROM src JOIN ref ON b = name JOIN dst ON DATEDIFF(second, src, dst) BETWEEN 0 AND 1 AND c = dst.a WHERE d = b => reference 1 Source Source Lookup 0 0 inner 1 = 6 Join 2 1 0 10000000 inner 2 = 7 Filter Project 8 6
SELECT b, COUNT(*) AS n INTO out FROM src JOIN dst ON DATEDIFF(second, src, dst) BETWEEN 0 AND 5 GROUP BY b, TumblingWindow(minute, 1) => Source Source Join 0 1 0 50000000 inner # 0 = # 0 Project 1 Grid Project 0 1
WITH x AS (SELECT a AS z FROM dst) SELECT b, z INTO out FROM src JOIN x ON DATEDIFF(ss, src, x) BETWEEN 0 AND 1 AND a = z => Source Source Project 0 Join 0 2 0 10000000 inner 0 = 5 Project 1 5
WITH x AS (SELECT b FROM src JOIN ref ON src.a = ref.a) SELECT b INTO out FROM x UNION SELECT d FROM dst JOIN x ON DATEDIFF(ss, dst, x) BETWEEN 0 AND 1 => reference 1 Source Source Lookup 0 0 inner 0 = 5 Project 1 Project 0 Join 1 3 0 10000000 inner # 0 = # 0 Project 1 Union
";

#[test]
fn a_join_of_streams_has_one_bound(rt: HostRuntime) -> Result<(), Fail> {
    check_lines(&rt, rt.alloc(), TWO, BOUNDS)
}

const BOUNDS: &str = "
SELECT b INTO out FROM src ^JOIN dst ON src.a = dst.a => Bound
SELECT b INTO out FROM src LEFT OUTER ^JOIN dst ON z = 1 => Bound
SELECT b INTO out FROM src ^JOIN dst ON DATEDIFF(second, src, dst) BETWEEN 0 AND 1 AND DATEDIFF(second, src, dst) BETWEEN 0 AND 9 => Bound
SELECT b INTO out FROM src ^JOIN dst ON DATEDIFF(second, src, dst) BETWEEN 0 AND 1 OR b = d => Bound
SELECT b INTO out FROM src ^JOIN dst ON DATEDIFF(second, src, dst) NOT BETWEEN 0 AND 1 => Bound
SELECT b INTO out FROM src ^JOIN dst ON NOT DATEDIFF(second, src, dst) BETWEEN 0 AND 1 => Bound
SELECT b INTO out FROM src ^JOIN dst ON (DATEDIFF(second, src, dst) BETWEEN 0 AND 1) => Bound
SELECT b INTO out FROM src ^JOIN dst ON (DATEDIFF(second, src, dst)) BETWEEN 0 AND 1 => Bound
SELECT b INTO out FROM src ^JOIN dst ON DATEDIFF(month, src, dst) BETWEEN 0 AND 1 => Bound
SELECT b INTO out FROM src ^JOIN dst ON DATEDIFF(second, src, dst) BETWEEN 2 AND 1 => Bound
SELECT b INTO out FROM src ^JOIN dst ON DATEDIFF(second, dst, src) BETWEEN 2 AND 1 => Bound
SELECT b INTO out FROM src ^JOIN dst ON DATEDIFF(day, src, dst) BETWEEN 0 AND 8 => Bound
SELECT b INTO out FROM src ^JOIN dst ON DATEDIFF(day, src, dst) BETWEEN -8 AND 0 => Bound
SELECT b INTO out FROM src ^JOIN dst ON DATEDIFF(second, src, dst) BETWEEN 0 AND 1.5 => Bound
SELECT b INTO out FROM src ^JOIN dst ON DATEDIFF(second, src, dst) BETWEEN 0 AND (1) => Bound
SELECT b INTO out FROM src ^JOIN dst ON DATEDIFF(second, src, dst) BETWEEN - -1 AND 1 => Bound
SELECT b INTO out FROM src ^JOIN dst ON DATEDIFF(second, src, dst) BETWEEN 0 AND 1 + 1 => Bound
SELECT b INTO out FROM src ^JOIN dst ON DATEDIFF(second, src, dst) BETWEEN 0 AND src.a => Bound
SELECT b INTO out FROM src ^JOIN dst ON DATEDIFF(second, src, dst) <= 1 => Bound
SELECT b INTO out FROM src ^JOIN dst ON DATEDIFF(second, src, src) BETWEEN 0 AND 1 => Bound
SELECT b INTO out FROM src ^JOIN dst ON DATEDIFF(second, SRC, dst) BETWEEN 0 AND 1 => Bound
SELECT b INTO out FROM src s ^JOIN dst ON DATEDIFF(second, src, dst) BETWEEN 0 AND 1 => Bound
SELECT b INTO out FROM src ^JOIN dst ON DATEDIFF(second, src.t, dst.t) BETWEEN 0 AND 1 => Bound
SELECT b INTO out FROM src ^JOIN dst ON System.DATEDIFF(second, src, dst) BETWEEN 0 AND 1 => Bound
SELECT b INTO out FROM src ^JOIN dst ON DATEDIFF(DISTINCT second, src, dst) BETWEEN 0 AND 1 => Bound
SELECT b INTO out FROM src ^JOIN dst ON DATEDIFF(second, src) BETWEEN 0 AND 1 => Bound
";

#[test]
fn a_condition_sees_the_sources_before_it(rt: HostRuntime) -> Result<(), Fail> {
    check_lines(&rt, rt.alloc(), TWO, CONDITIONS)
}

const CONDITIONS: &str = "
SELECT b INTO out FROM src JOIN dst ON ^src.a AND DATEDIFF(second, src, dst) BETWEEN 0 AND 1 => Kind
SELECT b INTO out FROM src JOIN dst ON ^DATEDIFF(second, src, dst) BETWEEN 0 AND 1 AND src.a => Kind
SELECT b INTO out FROM src JOIN dst ON ^DATEDIFF(second, src, dst) BETWEEN 0 AND 1 AND src.a AND b = d => Kind
SELECT b INTO out FROM src JOIN dst ON DATEDIFF(second, src, dst) BETWEEN 0 AND 1 AND ^b = c => Kind
SELECT b INTO out FROM src JOIN ref ON ^src.a => Kind
SELECT b INTO out FROM src JOIN ref ON ^SUM(src.a) = 1 => Aggregate
SELECT b INTO out FROM src JOIN ref ON DATEDIFF(second, ^src, ref) BETWEEN 0 AND 1 => UnknownColumn
SELECT b INTO out FROM src JOIN dst ON DATEDIFF(second, src, dst) BETWEEN 0 AND 1 AND ^z = 1 => UnknownColumn
SELECT b INTO out FROM src JOIN dst ON DATEDIFF(second, src, dst) BETWEEN 0 AND 1 AND DATEDIFF(month, ^src, dst) = 0 => UnknownColumn
SELECT b INTO out FROM src JOIN dst ON DATEDIFF(second, src, dst) BETWEEN 0 AND 1 AND b = ^name JOIN ref ON src.a = ref.a => UnknownColumn
SELECT b INTO out FROM src JOIN dst ON DATEDIFF(second, src, dst) BETWEEN 0 AND 1 AND ^a = 1 => Ambiguous
SELECT b INTO out FROM src JOIN ref ON ^a = 1 => Ambiguous
SELECT ^t INTO out FROM src JOIN ref ON t IS NULL JOIN dst ON DATEDIFF(second, src, dst) BETWEEN 0 AND 1 => Ambiguous
SELECT b INTO out FROM src JOIN ref ON t IS NULL JOIN dst ON DATEDIFF(second, src, dst) BETWEEN 0 AND 1 => Source Source Lookup Join Project
SELECT b INTO out FROM src JOIN ref ON t IS NULL JOIN dst ON DATEDIFF(second, src, dst) BETWEEN 0 AND 1 AND ^t IS NULL => Ambiguous
SELECT b INTO out FROM src JOIN dst ON DATEDIFF(second, src, dst) BETWEEN 0 AND 1 WHERE ^a > 1 => Ambiguous
";

#[test]
fn the_sources_of_a_join_are_known_and_few(rt: HostRuntime) -> Result<(), Fail> {
    check_lines(&rt, rt.alloc(), TWO, SOURCES)
}

const SOURCES: &str = "
SELECT b INTO out FROM src JOIN ^nosuch ON z = 1 => UnknownSource
SELECT b INTO out FROM src JOIN ^nosuch ON 1 = 1 JOIN dst ON 1 = 1 => UnknownSource
SELECT b INTO out FROM ^nosuch JOIN src ON DATEDIFF(second, nosuch, src) BETWEEN 0 AND 1 => UnknownSource
SELECT name INTO out FROM ^ref JOIN src ON DATEDIFF(second, ref, src) BETWEEN 0 AND 1 => Unsupported
SELECT 1 AS x INTO out FROM src JOIN ^src ON DATEDIFF(second, src, src) BETWEEN 0 AND 1 => NameTwice
SELECT 1 AS x INTO out FROM src l JOIN dst AS ^l ON DATEDIFF(second, l, l) BETWEEN 0 AND 1 => NameTwice
SELECT b INTO out FROM src JOIN ref ^TIMESTAMP BY t ON 1 = 1 => Unsupported
SELECT l.b INTO out FROM src l TIMESTAMP BY t JOIN ^src r ON DATEDIFF(second, l, r) BETWEEN 0 AND 1 => StampTwice
SELECT b INTO out FROM src JOIN dst ON DATEDIFF(second, src, dst) BETWEEN 0 AND 1 ^LEFT JOIN dst e ON DATEDIFF(second, src, e) BETWEEN 0 AND 1 => Unsupported
SELECT b INTO out FROM src JOIN dst ON DATEDIFF(second, src, dst) BETWEEN 0 AND 1 ^INNER JOIN dst e ON 1 = 1 => Unsupported
SELECT b INTO out FROM src JOIN dst ON DATEDIFF(second, src, dst) BETWEEN 0 AND 1 ^JOIN dst e ON 1 = 1 => Bound
SELECT b INTO out FROM src JOIN dst ON DATEDIFF(second, src, dst) BETWEEN 0 AND 1 JOIN ref ON 1 = 1 ^JOIN dst e ON DATEDIFF(second, src, e) BETWEEN 0 AND 1 => Unsupported
SELECT b INTO out FROM src JOIN ref p ON 1 = 1 JOIN ref q ON 1 = 1 JOIN ref r ON 1 = 1 JOIN ref s ON 1 = 1 => Source Lookup Lookup Lookup Lookup Project
SELECT b INTO out FROM src JOIN ref p ON 1 = 1 JOIN ref q ON 1 = 1 JOIN ref r ON 1 = 1 JOIN ref s ON 1 = 1 ^LEFT JOIN ref u ON z = 1 => TooMany
";
