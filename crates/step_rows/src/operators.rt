//! Tests of the operators on settled rows, in one piece and in many.
//!
//! A row is written as its time and a number that tells rows of one time apart.

ghost use Rattle.std.specs.Prelude.{◌≡◌, [], ◌∷◌, nat_lt, true};

use crate::marks::{Mark, have_marks, moment, rows_of};
use event_value::{Copies, Memory, Seq, Stamped, Value};
use std::alloc::Global;
use std::test::Fail;
use stream_op::{Filter, Project, RowBuild, RowTest, StreamOp, Union};
use tick_time::Moment;

/// The next left rows, the next right rows, and below which time both are then complete.
type Cut<'a> = (&'a [Mark], &'a [Mark], u64);

/// Passes the rows below a moment.
#[derive(Drop)]
struct Before {
    limit: Moment,
}

impl Copies for Before {
    fn copy(&self) -> Result<Self, Memory> {
        Ok(Before { limit: self.limit })
    }
}

impl RowTest for Before {
    ghost passes = { λ test row. nat_lt row.time test.limit };

    fn test(&self, alloc: Global, row: &Stamped) -> Result<bool, Memory> {
        Ok(row.time < self.limit)
    }
}

/// Gives each row one value.
#[derive(Drop)]
struct Always {
    number: i64,
}

impl Copies for Always {
    fn copy(&self) -> Result<Self, Memory> {
        Ok(Always {
            number: self.number,
        })
    }
}

impl RowBuild for Always {
    ghost use Rattle.event_value.specs.declared.value.Value.TheVariants.{Big};

    ghost built = { λ build row. Big build.number ∷ [] };

    fn build(&self, alloc: Global, row: &Stamped) -> Result<Seq<Value>, Memory> {
        let mut values = Seq::empty(alloc);
        values.push(Value::Big(self.number))?;
        Ok(values)
    }
}

/// The answers of an operator on one input, behind each other.
fn answers<O: StreamOp + Drop>(
    alloc: Global,
    spec: &O::Spec,
    cuts: &[Cut],
) -> Result<Seq<Stamped>, Memory>
    requires { O.fits spec.now }
{
    let mut operator = O::begin(alloc, spec)?;
    let mut rows = Seq::empty(alloc);
    for (left, _, upto) in cuts {
        let left = rows_of(alloc, left)?;
        let (next, more) = operator.advance(alloc, left.items(), &[], moment(*upto))?;
        operator = next;
        stream_op::push_rows(&mut rows, more.items())?;
    }
    Ok(rows)
}

/// The answers of a union, behind each other.
fn united(alloc: Global, cuts: &[Cut]) -> Result<Seq<Stamped>, Memory> {
    let mut operator = Union::begin(alloc, &())?;
    let mut rows = Seq::empty(alloc);
    for (left, right, upto) in cuts {
        let left = rows_of(alloc, left)?;
        let right = rows_of(alloc, right)?;
        let (next, more) = operator.advance(alloc, left.items(), right.items(), moment(*upto))?;
        operator = next;
        stream_op::push_rows(&mut rows, more.items())?;
    }
    Ok(rows)
}

const ROWS: &[Mark] = &[(1, 1), (2, 2), (2, 3), (5, 4)];

/// Ways to cut the rows: in one piece, row by row, and with empty pieces.
const WAYS: [&[Cut]; 3] = [
    &[(ROWS, &[], 9)],
    &[
        (&[(1, 1)], &[], 2),
        (&[(2, 2)], &[], 2),
        (&[(2, 3)], &[], 5),
        (&[(5, 4)], &[], 6),
    ],
    &[
        (&[], &[], 0),
        (&[(1, 1), (2, 2), (2, 3)], &[], 3),
        (&[], &[], 3),
        (&[(5, 4)], &[], 9),
        (&[], &[], 20),
    ],
];

#[test]
fn a_filter_keeps_the_rows_that_pass(rt: HostRuntime) -> Result<(), Fail> {
    let test = Before { limit: moment(5) };
    for &way in &WAYS {
        let rows = answers::<Filter<Before>>(rt.alloc(), &test, way)?;
        assert!(rt; have_marks(rows.items(), &[(1, 1), (2, 2), (2, 3)]));
    }
    Ok(())
}

#[test]
fn a_project_keeps_the_times(rt: HostRuntime) -> Result<(), Fail> {
    let build = Always { number: 7 };
    for &way in &WAYS {
        let rows = answers::<Project<Always>>(rt.alloc(), &build, way)?;
        assert!(rt; have_marks(rows.items(), &[(1, 7), (2, 7), (2, 7), (5, 7)]));
    }
    Ok(())
}

#[test]
fn a_union_has_left_rows_first(rt: HostRuntime) -> Result<(), Fail> {
    let right: &[Mark] = &[(0, 10), (2, 11), (5, 12), (5, 13)];
    let ways: [&[Cut]; 3] = [
        &[(ROWS, right, 9)],
        &[
            (&[(1, 1)], &[(0, 10)], 2),
            (&[], &[], 2),
            (&[(2, 2), (2, 3)], &[(2, 11)], 5),
            (&[(5, 4)], &[(5, 12), (5, 13)], 6),
        ],
        &[
            (&[], &right[..1], 1),
            (&ROWS[..3], &right[1..2], 5),
            (&ROWS[3..], &right[2..], 9),
        ],
    ];
    let wanted = [
        (0, 10),
        (1, 1),
        (2, 2),
        (2, 3),
        (2, 11),
        (5, 4),
        (5, 12),
        (5, 13),
    ];
    for &way in &ways {
        let rows = united(rt.alloc(), way)?;
        assert!(rt; have_marks(rows.items(), &wanted));
    }
    Ok(())
}
