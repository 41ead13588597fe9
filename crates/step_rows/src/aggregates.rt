//! Tests of the aggregates on settled values.

use event_value::{AggKind, Aggregate, Memory, Seq, Stamped, Text, Value};
use row_groups::{Tallies, key_of};
use std::alloc::Global;
use std::test::Fail;
use tick_time::Moment;

/// A value as a table holds it.
#[derive(Clone, Copy)]
enum Cell {
    Null,
    Big(i64),
    Fixed(i64),
    Bytes(&'static [u8]),
}

use Cell::{Big, Bytes, Fixed, Null};

/// An aggregate, the values of a column, and what it comes to.
type Case = (AggKind, &'static [Cell], Cell);

/// The value of a cell.
fn value_of(alloc: Global, cell: Cell) -> Result<Value, Memory> {
    match cell {
        Cell::Null => Ok(Value::Null),
        Cell::Big(number) => Ok(Value::Big(number)),
        Cell::Fixed(number) => Ok(Value::Fixed(number)),
        Cell::Bytes(bytes) => Ok(Value::Text(Text::of(alloc, bytes)?)),
    }
}

/// A row whose second column has this value.
fn row_of(alloc: Global, cell: Cell) -> Result<Stamped, Memory> {
    let mut values = Seq::empty(alloc);
    values.push(Value::Bit(true))?;
    values.push(value_of(alloc, cell)?)?;
    let time = Moment::zero();
    Ok(Stamped { time, values })
}

/// An aggregate of rows with these values.
fn aggregate_of(alloc: Global, aggregate: Aggregate, cells: &[Cell]) -> Result<Seq<Value>, Memory> {
    let mut tallies = Tallies::start(alloc, &[aggregate])?;
    for cell in cells {
        let row = row_of(alloc, *cell)?;
        tallies.add(&row)?;
    }
    let mut found = Seq::empty(alloc);
    tallies.push_values(&mut found)?;
    Ok(found)
}

/// Whether an aggregate of this column, or without one, comes to this.
fn gives(alloc: Global, column: Option<u16>, case: &Case) -> Result<bool, Memory> {
    let (kind, cells, wanted) = *case;
    let found = aggregate_of(alloc, Aggregate { kind, column }, cells)?;
    let wanted = value_of(alloc, wanted)?;
    Ok(found.items().len() == 1 && found.items().first() == Some(&wanted))
}

/// Whether all cases come out so.
fn all_give(alloc: Global, column: Option<u16>, cases: &[Case]) -> Result<bool, Memory> {
    for case in cases {
        if !gives(alloc, column, case)? {
            return Ok(false);
        }
    }
    Ok(true)
}

const SOME: &[Cell] = &[Big(2), Null, Big(-5), Big(2)];

const NONE: &[Cell] = &[Null, Null];

const TEXTS: &[Cell] = &[Bytes(b"b"), Bytes(b"B\xff"), Bytes(b"b\x00")];

#[test]
fn null_is_no_value(rt: HostRuntime) -> Result<(), Fail> {
    let cases: &[Case] = &[
        (AggKind::Count, SOME, Big(3)),
        (AggKind::CountDistinct, SOME, Big(2)),
        (AggKind::Sum, SOME, Big(-1)),
        (AggKind::Min, SOME, Big(-5)),
        (AggKind::Max, SOME, Big(2)),
    ];
    assert!(rt; all_give(rt.alloc(), Some(1), cases)?);
    Ok(())
}

#[test]
fn without_values_a_count_is_0_and_the_others_are_null(rt: HostRuntime) -> Result<(), Fail> {
    let cases: &[Case] = &[
        (AggKind::Count, NONE, Big(0)),
        (AggKind::CountDistinct, NONE, Big(0)),
        (AggKind::Sum, NONE, Null),
        (AggKind::Avg, NONE, Null),
        (AggKind::Min, NONE, Null),
        (AggKind::Max, NONE, Null),
    ];
    assert!(rt; all_give(rt.alloc(), Some(1), cases)?);
    assert!(rt; all_give(rt.alloc(), Some(2), &[(AggKind::Count, SOME, Big(0))])?);
    Ok(())
}

#[test]
fn without_a_column_rows_are_counted(rt: HostRuntime) -> Result<(), Fail> {
    let cases: &[Case] = &[
        (AggKind::Count, SOME, Big(4)),
        (AggKind::CountDistinct, SOME, Big(0)),
        (AggKind::Sum, SOME, Null),
    ];
    assert!(rt; all_give(rt.alloc(), None, cases)?);
    Ok(())
}

#[test]
fn a_mean_is_cut_toward_zero(rt: HostRuntime) -> Result<(), Fail> {
    let cases: &[Case] = &[
        (AggKind::Avg, &[Big(1), Big(2), Big(2)], Fixed(1_666_666)),
        (
            AggKind::Avg,
            &[Big(-1), Big(-2), Big(-2)],
            Fixed(-1_666_666),
        ),
        (AggKind::Avg, &[Fixed(-1), Fixed(-2)], Fixed(-1)),
        (AggKind::Avg, &[Big(9_223_372_036_855)], Null),
    ];
    assert!(rt; all_give(rt.alloc(), Some(1), cases)?);
    Ok(())
}

#[test]
fn a_sum_that_does_not_fit_is_null(rt: HostRuntime) -> Result<(), Fail> {
    let cases: &[Case] = &[
        (AggKind::Sum, &[Big(i64::MAX), Big(1)], Null),
        (
            AggKind::Sum,
            &[Big(i64::MAX), Big(1), Big(-1)],
            Big(i64::MAX),
        ),
        (AggKind::Sum, &[Big(1), Fixed(1)], Null),
        (
            AggKind::Sum,
            &[Fixed(250_000), Fixed(-500_000)],
            Fixed(-250_000),
        ),
        (AggKind::Sum, &[Bytes(b"1")], Null),
    ];
    assert!(rt; all_give(rt.alloc(), Some(1), cases)?);
    Ok(())
}

#[test]
fn texts_are_ordered_by_their_bytes(rt: HostRuntime) -> Result<(), Fail> {
    let cases: &[Case] = &[
        (AggKind::Min, TEXTS, Bytes(b"B\xff")),
        (AggKind::Max, TEXTS, Bytes(b"b\x00")),
        (AggKind::CountDistinct, TEXTS, Big(3)),
    ];
    assert!(rt; all_give(rt.alloc(), Some(1), cases)?);
    Ok(())
}

/// Whether the first so many columns of a row are these, the second of which is a bit.
fn has_key(alloc: Global, count: u16, wanted: &[Value]) -> Result<bool, Memory> {
    let row = row_of(alloc, Big(1))?;
    let key = key_of(alloc, count, row.values.items())?;
    Ok(key.items() == wanted)
}

#[test]
fn a_key_is_the_first_columns(rt: HostRuntime) -> Result<(), Fail> {
    let all = [Value::Bit(true), Value::Big(1), Value::Null];
    assert!(rt; has_key(rt.alloc(), 1, &all[..1])?);
    assert!(rt; has_key(rt.alloc(), 3, &all)?);
    Ok(())
}
