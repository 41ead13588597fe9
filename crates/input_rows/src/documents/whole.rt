//! What accepted documents give.

use event_value::{Column, Copies, Format, Kind, Policy};
use input_book::read_inputs;
use input_types::{Inputs, SegmentName, SnapshotName};
use std::alloc::Global;
use std::process::Abort;
use std::test::Fail;

const SECOND: i64 = 10_000_000;

/// The inputs of a document that is accepted.
fn inputs_of(rt: &impl Abort, alloc: Global, document: &str) -> Inputs {
    match read_inputs(alloc, document.as_bytes()) {
        Ok(inputs) => inputs,
        Err(_) => panic!(rt; "{document}"),
    }
}

/// Asserts the name, kind and path of a column.
fn check_column(rt: &impl Abort, column: &Column, name: &str, kind: Kind, path: &[&str]) {
    assert_eq!(rt; column.name.items(), name.as_bytes());
    assert!(rt; column.kind == kind, "{name}");
    assert_eq!(rt; column.path.items().len(), path.len(), "{name}");
    for (found, wanted) in column.path.items().iter().zip(path) {
        assert_eq!(rt; found.items(), wanted.as_bytes(), "{name}");
    }
}

/// Asserts the file of a segment, and the ticks up to which it goes.
fn check_segment(rt: &impl Abort, segment: &SegmentName, file: &str, through: i64) {
    assert_eq!(rt; segment.file.items(), file.as_bytes());
    assert_eq!(rt; segment.through.ticks(), through, "{file}");
}

/// Asserts the file of a snapshot, and the ticks from which it is in force.
fn check_snapshot(rt: &impl Abort, snapshot: &SnapshotName, file: &str, effective: i64) {
    assert_eq!(rt; snapshot.file.items(), file.as_bytes());
    assert_eq!(rt; snapshot.effective.ticks(), effective, "{file}");
}

/// A document that leaves out whatever has a default.
const SHORT: &str = "[[stream]]
name = \"src\"
format = \"json\"
columns = [{name = \"a\", kind = \"bigint\"}, {name = \"b\", kind = \"nvarchar(max)\"}]
[[stream.partition]]
ended = true
segments = [{file = \"a.json\", through = \"2024-01-01T00:00:01Z\"}]
";

#[test]
fn a_document_with_every_default(rt: HostRuntime) -> Result<(), Fail> {
    let inputs = inputs_of(&rt, rt.alloc(), SHORT);
    let policy = Policy {
        late: 5 * SECOND,
        disorder: 0,
        adjust: true,
        skew: 300 * SECOND,
    };
    assert!(rt; inputs.policy == policy);
    assert!(rt; inputs.references.items().is_empty());
    let [stream] = inputs.streams.items() else {
        panic!(&rt; "one stream");
    };
    assert_eq!(rt; stream.name.items(), b"src".as_slice());
    assert!(rt; stream.format == Format::Json);
    let [a, b] = stream.columns.items() else {
        panic!(&rt; "two columns");
    };
    check_column(&rt, a, "a", Kind::Big, &["a"]);
    check_column(&rt, b, "b", Kind::Text, &["b"]);
    let [partition] = stream.partitions.items() else {
        panic!(&rt; "one partition");
    };
    assert!(rt; partition.ended);
    let [segment] = partition.segments.items() else {
        panic!(&rt; "one segment");
    };
    check_segment(&rt, segment, "a.json", 17_040_672_010_000_000);
    Ok(())
}

/// A document with every key of policies, streams and partitions.
const FULL: &str =
    "policy = {late_seconds = 1, disorder_seconds = 2, action = 'drop', skew_seconds = 3}
[[stream]]
name = 's'
format = 'csv'
delimiter = ';'
columns = [{name = 'a', kind = 'bit', path = ['x', '']}, {name = 'b', kind = 'fixed'}, {name = 'c', kind = 'datetime'}]
[[stream.partition]]
[[stream.partition]]
segments = [{file = 'f', through = '1970-01-01T00:00:01Z'}, {file = 'g', through = '2999-12-31T23:59:59.9999999Z'}]
";

#[test]
fn a_document_with_every_key(rt: HostRuntime) -> Result<(), Fail> {
    let inputs = inputs_of(&rt, rt.alloc(), FULL).copy()?;
    let policy = Policy {
        late: SECOND,
        disorder: 2 * SECOND,
        adjust: false,
        skew: 3 * SECOND,
    };
    assert!(rt; inputs.policy == policy);
    let [stream] = inputs.streams.items() else {
        panic!(&rt; "one stream");
    };
    assert!(rt; stream.format == Format::Csv(b';'));
    let [a, b, c] = stream.columns.items() else {
        panic!(&rt; "three columns");
    };
    check_column(&rt, a, "a", Kind::Bit, &["x", ""]);
    check_column(&rt, b, "b", Kind::Fixed, &["b"]);
    check_column(&rt, c, "c", Kind::Moment, &["c"]);
    let [first, second] = stream.partitions.items() else {
        panic!(&rt; "two partitions");
    };
    assert!(rt; !first.ended && first.segments.items().is_empty());
    let [f, g] = second.segments.items() else {
        panic!(&rt; "two segments");
    };
    check_segment(&rt, f, "f", SECOND);
    check_segment(&rt, g, "g", 325_036_799_999_999_999);
    Ok(())
}

/// A document with a reference.
const TARIFF: &str = "[[stream]]
name = 's'
format = 'json'
columns = [{name = 'a', kind = 'bigint'}]
partition = [{}]
[[reference]]
name = 'tariff'
format = 'csv'
delimiter = ';'
columns = [{name = 'k', kind = 'bigint'}, {name = 'price', kind = 'fixed'}]
snapshots = [{file = 'old.csv', effective = '1970-01-01T00:00:01Z'}, {file = 'new.csv', effective = '1970-01-01T00:00:02Z'}]
";

#[test]
fn a_document_with_a_reference(rt: HostRuntime) -> Result<(), Fail> {
    let inputs = inputs_of(&rt, rt.alloc(), TARIFF).copy()?;
    let [reference] = inputs.references.items() else {
        panic!(&rt; "one reference");
    };
    assert_eq!(rt; reference.name.items(), b"tariff".as_slice());
    assert!(rt; reference.format == Format::Csv(b';'));
    let [k, price] = reference.columns.items() else {
        panic!(&rt; "two columns");
    };
    check_column(&rt, k, "k", Kind::Big, &["k"]);
    check_column(&rt, price, "price", Kind::Fixed, &["price"]);
    let [old, new] = reference.snapshots.items() else {
        panic!(&rt; "two snapshots");
    };
    check_snapshot(&rt, old, "old.csv", SECOND);
    check_snapshot(&rt, new, "new.csv", 2 * SECOND);
    Ok(())
}
