//! What a reference has, and its snapshots.

use super::{check, check_lines};
use std::test::Fail;
use tick_time::END;

const STREAM: &str =
    "stream = [{name = 's', format = 'csv', columns = [{name = 'a', kind = 'bit'}], partition = [{}]}]\n";

#[test]
fn a_reference_has_what_it_had(rt: HostRuntime) -> Result<(), Fail> {
    let alloc = rt.alloc();
    let front = format!(in alloc; "{STREAM}reference = [{{snapshots = [], name = ")?;
    check_lines(&rt, alloc, front.as_str(), "}]", REFERENCES)
}

const REFERENCES: &str = "
'r', format = 'csv', columns = [{name = 'k', kind = 'bit'}] -> 'r', format = 'csv', columns = [{name = 'k', kind = 'bit'}] => Extends
'r', format = 'csv', columns = [{name = 'k', kind = 'bit'}] -> 'q', format = 'csv', columns = [{name = 'k', kind = 'bit'}] => Changed r
'r', format = 'csv', columns = [{name = 'k', kind = 'bit'}] -> 'r', format = 'json', columns = [{name = 'k', kind = 'bit'}] => Changed r
'r', format = 'csv', columns = [{name = 'k', kind = 'bit'}] -> 'r', format = 'csv', columns = [{name = 'k', kind = 'fixed'}] => Changed r
'r', format = 'csv', columns = [{name = 'k', kind = 'bit'}] -> 'r', format = 'csv', columns = [{name = 'k', kind = 'bit'}, {name = 'l', kind = 'bit'}] => Changed r
";

#[test]
fn snapshots_are_appended_from_the_kept_moment_on(rt: HostRuntime) -> Result<(), Fail> {
    let alloc = rt.alloc();
    let front = format!(in alloc;
        "{STREAM}reference = [{{name = 'r', format = 'csv', columns = [{{name = 'k', kind = 'bit'}}], snapshots = ["
    )?;
    check_lines(&rt, alloc, front.as_str(), "]}]", SNAPSHOTS)
}

const SNAPSHOTS: &str = "
 -> {file = 'f', effective = '1970-01-01T00:00:11Z'} => SnapshotTooEarly 110000000 120000000
 -> {file = 'f', effective = '1970-01-01T00:00:11.9999999Z'} => SnapshotTooEarly 119999999 120000000
 -> {file = 'f', effective = '1970-01-01T00:00:12Z'} => Extends
{file = 'f', effective = '1970-01-01T00:00:11Z'} -> {file = 'f', effective = '1970-01-01T00:00:11Z'} => Extends
{file = 'f', effective = '1970-01-01T00:00:11Z'} -> {file = 'f', effective = '1970-01-01T00:00:11Z'}, {file = 'f', effective = '1970-01-01T00:00:12Z'} => Extends
{file = 'f', effective = '1970-01-01T00:00:13Z'} -> {file = 'f', effective = '1970-01-01T00:00:13Z'}, {file = 'g', effective = '1970-01-01T00:00:14Z'}, {file = 'h', effective = '1970-01-01T00:00:15Z'} => Extends
{file = 'f', effective = '1970-01-01T00:00:01Z'} -> {file = 'f', effective = '1970-01-01T00:00:01Z'}, {file = 'g', effective = '1970-01-01T00:00:02Z'}, {file = 'h', effective = '1970-01-01T00:00:11Z'} => SnapshotTooEarly 20000000 120000000
{file = 'f', effective = '1970-01-01T00:00:13Z'} ->  => Changed r
{file = 'f', effective = '1970-01-01T00:00:13Z'} -> {file = 'f', effective = '1970-01-01T00:00:14Z'} => Changed r
{file = 'f', effective = '1970-01-01T00:00:13Z'} -> {file = 'g', effective = '1970-01-01T00:00:13Z'} => Changed r
{file = 'f', effective = '1970-01-01T00:00:13Z'} -> {file = 'g', effective = '1970-01-01T00:00:12Z'}, {file = 'f', effective = '1970-01-01T00:00:13Z'} => Changed r
{file = 'f', effective = '1970-01-01T00:00:11Z'} -> {file = 'f', effective = '1970-01-01T00:00:10Z'}, {file = 'g', effective = '1970-01-01T00:00:11Z'} => Changed r
{file = 'f', effective = '1970-01-01T00:00:13Z'}, {file = 'g', effective = '1970-01-01T00:00:14Z'} -> {file = 'f', effective = '1970-01-01T00:00:13Z'} => Changed r
";

/// A kept moment in ticks, from when on a new snapshot is in force, and the answer.
const KEPT: [(i64, &str, &str); 5] = [
    (0, "1970-01-01", "Extends"),
    (1, "1970-01-01", "SnapshotTooEarly 0 1"),
    (
        17_040_672_120_000_000,
        "2024-01-01T00:00:11Z",
        "SnapshotTooEarly 17040672110000000 17040672120000000",
    ),
    (17_040_672_120_000_000, "2024-01-01T00:00:12Z", "Extends"),
    (
        END,
        "2999-12-31T23:59:59.9999999Z",
        "SnapshotTooEarly 325036799999999999 2534023008000000000",
    ),
];

#[test]
fn a_snapshot_below_the_kept_moment_is_too_early(rt: HostRuntime) -> Result<(), Fail> {
    let alloc = rt.alloc();
    for &(w, effective, wanted) in &KEPT {
        let reference = "name = 'r', format = 'csv', columns = [{name = 'k', kind = 'bit'}]";
        let old = format!(in alloc; "{STREAM}reference = [{{{reference}, snapshots = []}}]")?;
        let new = format!(in alloc;
            "{STREAM}reference = [{{{reference}, snapshots = [{{file = 'f', effective = '{effective}'}}]}}]"
        )?;
        check(&rt, alloc, (old.as_str(), new.as_str()), w, wanted)?;
    }
    Ok(())
}
