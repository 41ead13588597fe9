//! Policies, the order of sources, and the first of several causes.

use super::{W, check, check_lines};
use std::alloc::Global;
use std::string::String;
use std::test::Fail;

const STREAM: &str =
    "stream = [{name = 's', format = 'csv', columns = [{name = 'a', kind = 'bit'}], partition = [{}]}]";

#[test]
fn policies_stay(rt: HostRuntime) -> Result<(), Fail> {
    let alloc = rt.alloc();
    let back = format!(in alloc; "}}\n{STREAM}")?;
    check_lines(&rt, alloc, "policy = {", back.as_str(), POLICIES)
}

const POLICIES: &str = "
 ->  => Extends
 -> late_seconds = 5, disorder_seconds = 0, action = 'adjust', skew_seconds = 300 => Extends
 -> late_seconds = 6 => Changed policy
 -> disorder_seconds = 1 => Changed policy
 -> action = 'drop' => Changed policy
 -> skew_seconds = 299 => Changed policy
skew_seconds = 1 ->  => Changed policy
";

/// The names of sources before and after, and the answer.
const ORDERS: [(&[&str], &[&str], &str); 8] = [
    (&["a", "b"], &["a", "b"], "Extends"),
    (&["a", "b"], &["b", "a"], "Changed a"),
    (&["a", "b", "c"], &["a", "c", "b"], "Changed b"),
    (&["a"], &["a", "b"], "Changed b"),
    (&["a", "b"], &["a"], "Changed b"),
    (&["a", "b"], &["b"], "Changed a"),
    (&["a", "b", "c"], &["a", "c"], "Changed b"),
    (&["a", "b"], &["c", "a", "b"], "Changed a"),
];

/// A list of sources of these names, alike but for them.
fn sources(alloc: Global, names: &[&str], rest: &str) -> Result<String, Fail> {
    let mut list = String::new(alloc);
    for name in names {
        let source = format!(in alloc;
            "{{name = '{name}', format = 'csv', columns = [{{name = 'k', kind = 'bit'}}], {rest}}}, "
        )?;
        list.push_str(source.as_str())?;
    }
    Ok(list)
}

#[test]
fn streams_keep_their_order(rt: HostRuntime) -> Result<(), Fail> {
    let alloc = rt.alloc();
    for &(before, after, wanted) in &ORDERS {
        let old = sources(alloc, before, "partition = [{}]")?;
        let new = sources(alloc, after, "partition = [{}]")?;
        let old = format!(in alloc; "stream = [{old}]")?;
        let new = format!(in alloc; "stream = [{new}]")?;
        check(&rt, alloc, (old.as_str(), new.as_str()), W, wanted)?;
    }
    Ok(())
}

#[test]
fn references_keep_their_order(rt: HostRuntime) -> Result<(), Fail> {
    let alloc = rt.alloc();
    for &(before, after, wanted) in &ORDERS {
        let old = sources(alloc, before, "snapshots = []")?;
        let new = sources(alloc, after, "snapshots = []")?;
        let old = format!(in alloc; "{STREAM}\nreference = [{old}]")?;
        let new = format!(in alloc; "{STREAM}\nreference = [{new}]")?;
        check(&rt, alloc, (old.as_str(), new.as_str()), W, wanted)?;
    }
    let one = sources(alloc, &["a"], "snapshots = []")?;
    let new = format!(in alloc; "{STREAM}\nreference = [{one}]")?;
    check(&rt, alloc, (STREAM, new.as_str()), W, "Changed a")?;
    check(&rt, alloc, (new.as_str(), STREAM), W, "Changed a")
}

/// What is said of two sources.
type Two = (&'static str, &'static str);

/// What the partitions of two streams, the snapshots of two references and the policies say in the new
/// document, and the answer. In the old one the second partition has ended, and the first reference has
/// a snapshot in the second second.
const CAUSES: [(Two, Two, &str, &str); 9] = [
    (("", ENDED), (SECOND, ""), "", "Extends"),
    (("", ENDED), (SECOND, ""), LATE, "Changed policy"),
    (("", ENDED), (SECOND, SECOND), LATE, TOO_EARLY),
    (("", ENDED), ("", SECOND), LATE, "Changed r"),
    (("", ENDED), (THEN_THIRD, ""), LATE, TOO_EARLY_THIRD),
    (("", ""), ("", SECOND), LATE, "AfterEnd b"),
    ((ENDED, ""), ("", SECOND), LATE, "AfterEnd b"),
    ((MORE, ENDED), (SECOND, ""), "", "Extends"),
    ((MORE, MORE), (THEN_THIRD, SECOND), LATE, "AfterEnd b"),
];

const ENDED: &str = "ended = true";

const MORE: &str = "segments = [{file = 'f', through = '2024-01-01'}]";

const LATE: &str = "late_seconds = 6";

const SECOND: &str = "{file = 'f', effective = '1970-01-01T00:00:02Z'}";

const THEN_THIRD: &str =
    "{file = 'f', effective = '1970-01-01T00:00:02Z'}, {file = 'g', effective = '1970-01-01T00:00:03Z'}";

const TOO_EARLY: &str = "SnapshotTooEarly 20000000 120000000";

const TOO_EARLY_THIRD: &str = "SnapshotTooEarly 30000000 120000000";

/// A document with these partitions, snapshots and policies.
fn document(
    alloc: Global,
    partitions: (&str, &str),
    snapshots: (&str, &str),
    policy: &str,
) -> Result<String, Fail> {
    let (first, second) = partitions;
    let (third, fourth) = snapshots;
    let columns = "format = 'csv', columns = [{name = 'k', kind = 'bit'}]";
    let streams = format!(in alloc;
        "stream = [{{name = 'a', {columns}, partition = [{{{first}}}]}}, {{name = 'b', {columns}, partition = [{{{second}}}]}}]"
    )?;
    Ok(format!(in alloc;
        "policy = {{{policy}}}\n{streams}\nreference = [{{name = 'r', {columns}, snapshots = [{third}]}}, {{name = 'q', {columns}, snapshots = [{fourth}]}}]"
    )?)
}

#[test]
fn the_first_cause_of_the_walk_is_told(rt: HostRuntime) -> Result<(), Fail> {
    let alloc = rt.alloc();
    let old = document(alloc, ("", ENDED), (SECOND, ""), "")?;
    for &(partitions, snapshots, policy, wanted) in &CAUSES {
        let new = document(alloc, partitions, snapshots, policy)?;
        check(&rt, alloc, (old.as_str(), new.as_str()), W, wanted)?;
    }
    Ok(())
}
