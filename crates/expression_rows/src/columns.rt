//! The streams of the tests: `s` has one row, `m` has three, all at the start of 2 January 1970.

use event_value::{Column, Format, Kind, Memory, Policy, Seq, Stamped, Text, Value};
use input_types::{Inputs, Stream};
use std::alloc::Global;
use tick_time::Moment;

/// A value as a table holds it.
#[derive(Clone, Copy)]
enum Cell {
    Null,
    Bit(bool),
    Big(i64),
    /// Millionths.
    Fixed(i64),
    Text(&'static str),
    /// Ticks since 1970.
    Ticks(i64),
}

use Cell::{Big, Bit, Fixed, Null, Ticks};

// Ticks of a day, and those up to noon of 29 February 2024, which are 19,782 days and a half.
const DAY: i64 = 864_000_000_000;

const NOON: i64 = 17_092_080_000_000_000;

// Ticks up to the start of 2 January 1970.
const START: u64 = 864_000_000_000;

/// The columns of `s`.
const VALUES: [(&str, Kind, Cell); 20] = [
    ("seven", Kind::Big, Big(7)),
    ("minus", Kind::Big, Big(-7)),
    ("zero", Kind::Big, Big(0)),
    ("most", Kind::Big, Big(i64::MAX)),
    ("least", Kind::Big, Big(i64::MIN)),
    ("no_big", Kind::Big, Null),
    ("half", Kind::Fixed, Fixed(500_000)),
    ("tiny", Kind::Fixed, Fixed(1)),
    ("top", Kind::Fixed, Fixed(i64::MAX)),
    ("bottom", Kind::Fixed, Fixed(i64::MIN)),
    ("no_fixed", Kind::Fixed, Null),
    ("word", Kind::Text, Cell::Text("sensor")),
    ("city", Kind::Text, Cell::Text("Zürich")),
    ("blank", Kind::Text, Cell::Text("")),
    ("no_text", Kind::Text, Null),
    ("noon", Kind::Moment, Ticks(NOON)),
    ("no_time", Kind::Moment, Null),
    ("yes", Kind::Bit, Bit(true)),
    ("no", Kind::Bit, Bit(false)),
    ("no_bit", Kind::Bit, Null),
];

/// The columns of `m`, each with its values row by row.
const LISTS: [(&str, Kind, [Cell; 3]); 16] = [
    ("thirds", Kind::Big, [Big(1), Big(2), Big(2)]),
    ("below", Kind::Big, [Big(-1), Big(-2), Big(-2)]),
    ("gaps", Kind::Big, [Big(5), Null, Big(8)]),
    ("nothing", Kind::Big, [Null, Null, Null]),
    (
        "ends",
        Kind::Big,
        [Big(i64::MAX), Big(i64::MAX), Big(i64::MIN)],
    ),
    ("too_high", Kind::Big, [Big(i64::MAX), Big(1), Null]),
    ("too_low", Kind::Big, [Big(i64::MIN), Big(-1), Null]),
    (
        "cents",
        Kind::Fixed,
        [Fixed(100_000), Fixed(200_000), Fixed(250_000)],
    ),
    ("tiny", Kind::Fixed, [Fixed(1), Fixed(1), Fixed(0)]),
    ("top", Kind::Fixed, [Fixed(i64::MAX), Fixed(1), Null]),
    (
        "words",
        Kind::Text,
        [Cell::Text("b"), Cell::Text("Z"), Cell::Text("é")],
    ),
    ("key", Kind::Text, [Null, Cell::Text("x"), Null]),
    ("times", Kind::Moment, [Ticks(NOON), Null, Ticks(DAY)]),
    ("bits", Kind::Bit, [Bit(true), Bit(false), Bit(true)]),
    ("no_fixed", Kind::Fixed, [Null, Null, Null]),
    ("no_text", Kind::Text, [Null, Null, Null]),
];

/// The value of a cell.
fn value(alloc: Global, cell: Cell) -> Result<Value, Memory> {
    match cell {
        Cell::Null => Ok(Value::Null),
        Cell::Bit(bit) => Ok(Value::Bit(bit)),
        Cell::Big(number) => Ok(Value::Big(number)),
        Cell::Fixed(millionths) => Ok(Value::Fixed(millionths)),
        Cell::Text(text) => Ok(Value::Text(Text::of(alloc, text.as_bytes())?)),
        Cell::Ticks(ticks) => match Moment::of_ticks(ticks) {
            None => Ok(Value::Null),
            Some(moment) => Ok(Value::Moment(moment)),
        },
    }
}

/// A column of a kind under a name.
fn column(alloc: Global, name: &str, kind: Kind) -> Result<Column, Memory> {
    Ok(Column {
        name: Text::of(alloc, name.as_bytes())?,
        kind,
        path: Seq::empty(alloc),
    })
}

/// The columns of `s`.
fn value_columns(alloc: Global) -> Result<Seq<Column>, Memory> {
    let mut columns = Seq::empty(alloc);
    for (name, kind, _) in &VALUES {
        columns.push(column(alloc, name, *kind)?)?;
    }
    Ok(columns)
}

/// The columns of `m`.
fn list_columns(alloc: Global) -> Result<Seq<Column>, Memory> {
    let mut columns = Seq::empty(alloc);
    for (name, kind, _) in &LISTS {
        columns.push(column(alloc, name, *kind)?)?;
    }
    Ok(columns)
}

/// A stream of these columns, without files.
fn stream(alloc: Global, name: &str, columns: Seq<Column>) -> Result<Stream, Memory> {
    Ok(Stream {
        name: Text::of(alloc, name.as_bytes())?,
        format: Format::Json,
        columns,
        partitions: Seq::empty(alloc),
    })
}

/// The streams `s` and `m`.
pub fn inputs(alloc: Global) -> Result<Inputs, Memory> {
    let mut streams = Seq::empty(alloc);
    streams.push(stream(alloc, "s", value_columns(alloc)?)?)?;
    streams.push(stream(alloc, "m", list_columns(alloc)?)?)?;
    Ok(Inputs {
        streams,
        references: Seq::empty(alloc),
        policy: Policy {
            late: 0,
            disorder: 0,
            adjust: true,
            skew: 0,
        },
    })
}

/// A row at the start of 2 January 1970.
fn row(values: Seq<Value>) -> Stamped {
    Stamped {
        time: Moment::of_count(START),
        values,
    }
}

/// The row of `s`.
fn value_row(alloc: Global) -> Result<Stamped, Memory> {
    let mut values = Seq::empty(alloc);
    for (_, _, cell) in &VALUES {
        values.push(value(alloc, *cell)?)?;
    }
    Ok(row(values))
}

/// A row of `m`, by its number from 0.
fn list_row(alloc: Global, number: usize) -> Result<Stamped, Memory> {
    let mut values = Seq::empty(alloc);
    for (_, _, cells) in &LISTS {
        let cell = cells.get(number).copied().unwrap_or(Null);
        values.push(value(alloc, cell)?)?;
    }
    Ok(row(values))
}

/// A moment behind all rows.
pub fn end_of_rows() -> Moment {
    Moment::of_count(2 * START)
}

/// The rows of the stream of a number, which is 0 for `s`.
pub fn rows(alloc: Global, stream: u16) -> Result<Seq<Stamped>, Memory> {
    let mut rows = Seq::empty(alloc);
    if stream == 0 {
        rows.push(value_row(alloc)?)?;
    } else {
        for number in 0..3 {
            rows.push(list_row(alloc, number)?)?;
        }
    }
    Ok(rows)
}
