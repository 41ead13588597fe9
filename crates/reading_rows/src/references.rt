//! The reading of references: the rows of a file, and which snapshot is in force when.

ghost use Rattle.std.specs.Prelude.{IfOk};
ghost use Rattle.input_book.specs.Laws.{IsWellFormed};

use event_value::{Copies, Memory, Seq, Stamped, Text, Value};
use input_book::{InputErr, read_inputs};
use input_types::Inputs;
use log_reading::{NamedReadErr, read_references};
use outside::{HeldFile, MemFiles};
use query_plan::{Cond, Expr};
use std::alloc::Global;
use std::test::Fail;
use stream_joins::{JoinCond, ReferenceJoin, ReferenceSpec, Versions};
use stream_op::StreamOp;
use tick_time::Moment;

/// The inputs of a document, well formed where it is accepted.
fn inputs(alloc: Global, document: &str) -> Result<Inputs, InputErr>
    ensures { IfOk result IsWellFormed }
{
    let inputs = read_inputs(alloc, document.as_bytes())?;
    Ok(inputs)
}

/// The snapshots of the references of these numbers; none where the document is refused.
fn versions_in(
    alloc: Global,
    document: &str,
    held: Seq<HeldFile>,
    numbers: &[u16],
) -> Result<Seq<Versions>, NamedReadErr> {
    let mut files = MemFiles::of(alloc, held);
    match inputs(alloc, document) {
        Ok(inputs) => read_references(alloc, &mut files, &inputs, numbers),
        Err(_) => Ok(Seq::empty(alloc)),
    }
}

/// The rows that are in force at moment 0, as a row without values meets them.
fn rows_met(alloc: Global, versions: Versions) -> Result<Seq<Stamped>, Memory> {
    let all = Cond::IsNull(Expr::Lit(Value::Null));
    let spec = ReferenceSpec {
        matches: JoinCond::of(alloc, &all)?,
        versions,
        outer: false,
        width: 1,
    };
    let mut left = Seq::empty(alloc);
    let values = Seq::empty(alloc);
    left.push(Stamped {
        time: Moment::zero(),
        values,
    })?;
    let join = ReferenceJoin::<JoinCond>::begin(alloc, &spec)?;
    let (_, rows) = join.advance(alloc, left.items(), &[], Moment::of_count(1))?;
    Ok(rows)
}

/// The keys of the rows of a file of a reference, each met at moment 0.
fn are_keys(rows: &[Stamped], keys: &[i64]) -> bool {
    rows.len() == keys.len()
        && rows.iter().zip(keys).all(|(row, key)| {
            row.time == Moment::zero()
                && matches!(row.values.items(), [Value::Big(found)] if found == key)
        })
}

/// A file of these bytes, or one of a record and blank lines that is too long.
fn file(alloc: Global, bytes: Option<&[u8]>) -> Result<HeldFile, Memory> {
    let name = Text::of(alloc, b"f")?;
    let bytes = match bytes {
        Some(bytes) => Text::of(alloc, bytes)?,
        None => {
            let mut long = Vec::from_slice(alloc, b"{\"k\": 1}\n")?;
            long.resize(4_194_305, b'\n')?;
            Text::from_vec(long)
        }
    };
    Ok(HeldFile { name, bytes })
}

/// A reference of a column `k` of whole numbers, whose one snapshot is a file of JSON lines.
const JSON: &str =
    "stream = [{name = 's', format = 'json', columns = [{name = 'k', kind = 'bigint'}], partition = [{}]}]
reference = [
  {name = 'r', format = 'json', columns = [{name = 'k', kind = 'bigint'}], snapshots = [
    {file = 'f', effective = '1970-01-01'},
  ]},
]";

/// One whose file has fields between semicolons.
const CSV: &str =
    "stream = [{name = 's', format = 'json', columns = [{name = 'k', kind = 'bigint'}], partition = [{}]}]
reference = [
  {name = 'r', format = 'csv', delimiter = ';', columns = [{name = 'k', kind = 'bigint'}], snapshots = [
    {file = 'f', effective = '1970-01-01'},
  ]},
]";

/// Whether these are the keys of the rows of the file of a document's reference.
fn has_keys(
    alloc: Global,
    document: &str,
    bytes: Option<&[u8]>,
    keys: &[i64],
) -> Result<bool, Memory> {
    let mut held = Seq::empty(alloc);
    held.push(file(alloc, bytes)?)?;
    let Ok(versions) = versions_in(alloc, document, held, &[0]) else {
        return Ok(false);
    };
    let [versions] = versions.items() else {
        return Ok(false);
    };
    let rows = rows_met(alloc, versions.copy()?)?;
    Ok(are_keys(rows.items(), keys))
}

#[test]
fn good_records_are_rows_and_bad_ones_are_left_out(rt: HostRuntime) -> Result<(), Fail> {
    let alloc = rt.alloc();
    let lines = b"{\"k\": 1}\n{\"k\": \"x\"}\n[]\n{\"k\": 3, \"z\": 0}\n";
    let records = b"k;z\n1;a\nx;b\n3\n4;d\n";
    assert!(rt; has_keys(alloc, JSON, Some(lines), &[1, 3])?);
    assert!(rt; has_keys(alloc, CSV, Some(records), &[1, 4])?);
    assert!(rt; has_keys(alloc, CSV, Some(b""), &[])?);
    assert!(rt; has_keys(alloc, JSON, None, &[])?);
    Ok(())
}

/// A reference of two snapshots behind one of none.
const DOCUMENT: &str =
    "stream = [{name = 's', format = 'json', columns = [{name = 'k', kind = 'bigint'}], partition = [{}]}]
reference = [
  {name = 'q', format = 'json', columns = [{name = 'k', kind = 'bigint'}], snapshots = []},
  {name = 'r', format = 'csv', columns = [{name = 'k', kind = 'bigint'}], snapshots = [
    {file = 'old', effective = '1970-01-01T00:00:01Z'}, {file = 'new', effective = '1970-01-01T00:00:02Z'},
  ]},
]";

/// The files of both snapshots.
fn files(alloc: Global) -> Result<Seq<HeldFile>, Memory> {
    let mut held = Seq::empty(alloc);
    for name in &["old", "new"] {
        let name = Text::of(alloc, name.as_bytes())?;
        let bytes = Text::of(alloc, b"k\n1\n")?;
        held.push(HeldFile { name, bytes })?;
    }
    Ok(held)
}

/// The places of the snapshots in force at seconds 0, 1 and 3.
fn places(versions: &Versions) -> [Option<u32>; 3] {
    [
        versions.in_force(Moment::zero()),
        versions.in_force(Moment::of_count(10_000_000)),
        versions.in_force(Moment::of_count(30_000_000)),
    ]
}

#[test]
fn each_reference_has_its_snapshots(rt: HostRuntime) -> Result<(), Fail> {
    let held = files(rt.alloc())?;
    let Ok(versions) = versions_in(rt.alloc(), DOCUMENT, held, &[1, 0, 7]) else {
        panic!(&rt; "the files can be read");
    };
    let [tariff, empty, absent] = versions.items() else {
        panic!(&rt; "three references");
    };
    assert!(rt; places(tariff) == [None, Some(0), Some(1)]);
    assert!(rt; places(empty) == [None, None, None]);
    assert!(rt; places(absent) == [None, None, None]);
    Ok(())
}
