//! Each key of the tables of references and snapshots, their names, limits and moments.

use super::{check, check_lines};
use event_value::Text;
use std::test::Fail;

const STREAM: &str =
    "stream = [{name = 's', format = 'csv', columns = [{name = 'a', kind = 'bit'}], partition = [{}]}]\n";

#[test]
fn the_list_of_references(rt: HostRuntime) -> Result<(), Fail> {
    let alloc = rt.alloc();
    let front = format!(in alloc; "{STREAM}reference = ")?;
    check_lines(&rt, alloc, front.as_str(), "", LISTS)?;
    check_lines(
        &rt,
        alloc,
        "reference = ",
        "\nstream = []",
        "1 => Range stream",
    )
}

const LISTS: &str = "
1 => Shape reference
{} => Shape reference
[] => Inputs
[1] => Shape reference[0]
[{}] => Missing reference[0].name
";

#[test]
fn keys_of_references(rt: HostRuntime) -> Result<(), Fail> {
    let alloc = rt.alloc();
    let front = format!(in alloc; "{STREAM}reference = [{{")?;
    check_lines(&rt, alloc, front.as_str(), "}]", REFERENCES)
}

const REFERENCES: &str = "
zz = 1, partition = 1 => Unknown reference[0].partition
snapshots = 1 => Missing reference[0].name
name = 1 => Shape reference[0].name
name = '' => Range reference[0].name
name = 'r' => Missing reference[0].format
name = 'r', format = 'avro' => Range reference[0].format
name = 'r', format = 'json' => Missing reference[0].columns
name = 'r', format = 'json', delimiter = ',' => Range reference[0].delimiter
name = 'r', format = 'json', columns = [] => Range reference[0].columns
name = 'r', format = 'json', columns = [{name = 'a'}] => Missing reference[0].columns[0].kind
name = 'r', format = 'csv', columns = [{name = 'a', kind = 'bit'}] => Missing reference[0].snapshots
name = 'r', format = 'csv', columns = [{name = 'a', kind = 'bit'}], snapshots = 1 => Shape reference[0].snapshots
name = 'r', format = 'csv', columns = [{name = 'a', kind = 'bit'}], snapshots = [1] => Shape reference[0].snapshots[0]
name = 'r', format = 'csv', columns = [{name = 'a', kind = 'bit'}], snapshots = [] => Inputs
name = 'r', format = 'csv', delimiter = ';', columns = [{name = 'a', kind = 'bit'}], snapshots = [] => Inputs
name = 's', format = 'csv', columns = [{name = 'a', kind = 'bit'}], snapshots = [] => Twice s
name = 'r', format = 'csv', columns = [{name = 'a', kind = 'bit'}, {name = 'a', kind = 'bit'}], snapshots = [] => Twice a
";

#[test]
fn keys_and_moments_of_snapshots(rt: HostRuntime) -> Result<(), Fail> {
    let alloc = rt.alloc();
    let front = format!(in alloc;
        "{STREAM}reference = [{{name = 'r', format = 'csv', columns = [{{name = 'a', kind = 'bit'}}], snapshots = ["
    )?;
    check_lines(&rt, alloc, front.as_str(), "]}]", SNAPSHOTS)
}

const SNAPSHOTS: &str = "
{} => Missing reference[0].snapshots[0].file
{file = 'f', through = 1} => Unknown reference[0].snapshots[0].through
{file = 1} => Shape reference[0].snapshots[0].file
{file = ''} => Range reference[0].snapshots[0].file
{file = 'f'} => Missing reference[0].snapshots[0].effective
{file = 'f', effective = 1} => Shape reference[0].snapshots[0].effective
{file = 'f', effective = '3000-01-01'} => Range reference[0].snapshots[0].effective
{file = 'f', effective = '1970-01-01'} => Inputs
{file = 'f', effective = '2024-01-01'}, {file = 'f', effective = '2024-01-02'} => Inputs
{file = 'f', effective = '2024-01-01'}, {file = 'g', effective = '2024-01-01'} => EffectiveOrder reference[0].snapshots[1].effective
{file = 'f', effective = '2024-01-02'}, {file = 'g', effective = '2024-01-01'} => EffectiveOrder reference[0].snapshots[1].effective
{file = 'f', effective = '1970-01-01'}, {file = 'g', effective = '1970-01-01'} => EffectiveOrder reference[0].snapshots[1].effective
]}, {name = 'r', format = 'json', columns = [{name = 'a', kind = 'bit'}], snapshots = [ => Twice r
{file = 'f', effective = '2024-01-02'}]}, {name = 'q', format = 'json', columns = [{name = 'a', kind = 'bit'}], snapshots = [{file = 'g', effective = '2024-01-01'} => Inputs
]}, {name = 'q', format = 'json', columns = [{name = 'a', kind = 'bit'}], snapshots = [{file = 'f', effective = '2024-01-02'}, {file = 'g', effective = '2024-01-01'} => EffectiveOrder reference[1].snapshots[1].effective
{file = 'f', effective = '2024-01-02'}, {file = 'g', effective = '2024-01-01'}]}, {name = 's', format = 'json', columns = [{name = 'a', kind = 'bit'}], snapshots = [ => Twice s
";

#[test]
fn the_order_of_segments_is_looked_at_before_that_of_snapshots(
    rt: HostRuntime,
) -> Result<(), Fail> {
    let segments =
        "stream = [{name = 's', format = 'csv', columns = [{name = 'a', kind = 'bit'}], partition = [{segments = [{file = 'f', through = '2024-01-02'}, {file = 'g', through = '2024-01-01'}]}]}]";
    let document = format!(in rt.alloc();
        "{segments}\nreference = [{{name = 'r', format = 'csv', columns = [{{name = 'a', kind = 'bit'}}], snapshots = [{{file = 'f', effective = '2024-01-01'}}, {{file = 'f', effective = '2024-01-01'}}]}}]"
    )?;
    let wanted = "ThroughOrder stream[0].partition[0].segments[1].through";
    check(&rt, rt.alloc(), document.as_bytes(), wanted)
}

/// A front, a piece, how often it stands, a back, and what the document is answered with.
type Case = (
    &'static str,
    &'static str,
    usize,
    &'static str,
    &'static str,
);

const REFERENCE: &str =
    "{name = 'r', format = 'csv', columns = [{name = 'a', kind = 'bit'}], snapshots = []}, ";

const COLUMN: &str = "{name = 'a', kind = 'bit'}, ";

const SNAPSHOT: &str = "{file = 'f', effective = '2024-01-01'}, ";

const COLUMNS: &str = "{name = 'r', format = 'csv', columns = [";

const FIRST: &str =
    "{name = 'r', format = 'csv', columns = [{name = 'a', kind = 'bit'}], snapshots = [";

const FURTHER: &str =
    "{name = 'q', format = 'csv', columns = [{name = 'a', kind = 'bit'}], snapshots = [{file = 'f', effective = '2024-01-01'}, \
    {file = 'f', effective = '2024-01-02'}]}, {name = 'r', format = 'csv', columns = [{name = 'a', kind = 'bit'}], snapshots = [";

#[test]
fn lengths_of_lists_of_references(rt: HostRuntime) -> Result<(), Fail> {
    let cases: [Case; 8] = [
        ("", REFERENCE, 4, "", "Twice r"),
        ("", REFERENCE, 5, "", "TooMany reference"),
        (COLUMNS, COLUMN, 64, "], snapshots = []}", "Twice a"),
        (
            COLUMNS,
            COLUMN,
            65,
            "], snapshots = []}",
            "TooMany reference[0].columns",
        ),
        (
            FIRST,
            SNAPSHOT,
            64,
            "]}",
            "EffectiveOrder reference[0].snapshots[1].effective",
        ),
        (FIRST, SNAPSHOT, 65, "]}", "TooMany reference[0].snapshots"),
        (
            FURTHER,
            SNAPSHOT,
            62,
            "]}",
            "EffectiveOrder reference[1].snapshots[1].effective",
        ),
        (
            FURTHER,
            SNAPSHOT,
            63,
            "]}",
            "TooMany reference[1].snapshots",
        ),
    ];
    for &(front, piece, count, back, wanted) in &cases {
        let mut document = Text::of(rt.alloc(), STREAM.as_bytes())?;
        document.extend(b"reference = [")?;
        document.extend(front.as_bytes())?;
        for _ in 0..count {
            document.extend(piece.as_bytes())?;
        }
        document.extend(back.as_bytes())?;
        document.extend(b"]")?;
        check(&rt, rt.alloc(), document.items(), wanted)?;
    }
    Ok(())
}
