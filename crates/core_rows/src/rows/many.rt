//! More rows than one piece holds.

use super::{Row, gives_over};
use crate::parts::moment;
use crate::plans::{COUNT, Spelt};
use event_value::{Memory, Seq, Stamped, Value};
use std::alloc::Global;
use std::test::Fail;

/// A reading of device 1 in each of the seconds 1 to 70,000.
fn many_readings(alloc: Global) -> Result<Seq<Stamped>, Memory> {
    let mut rows = Seq::empty(alloc);
    for second in 0..70_000 {
        let mut values = Seq::empty(alloc);
        values.push(Value::Big(1))?;
        let time = moment(second + 1);
        rows.push(Stamped { time, values })?;
    }
    Ok(rows)
}

// The pieces of 32,768 rows end within a window.
#[test]
fn many_rows_are_taken_piece_by_piece(rt: HostRuntime) -> Result<(), Fail> {
    let steps = [Spelt::Source(0), Spelt::Grid(0, 10_000, 10_000, 1, COUNT)];
    let values = [Some(1), Some(10_000)];
    let wanted: [Row; 7] = [
        (10_000, &values),
        (20_000, &values),
        (30_000, &values),
        (40_000, &values),
        (50_000, &values),
        (60_000, &values),
        (70_000, &values),
    ];
    let rows = many_readings(rt.alloc())?;
    assert!(rt; gives_over(rt.alloc(), &steps, &[1], rows, &[&wanted])?);
    Ok(())
}
