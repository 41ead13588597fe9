//! Operations on numbers and moments.

use super::Spelt::{self, Big, Bit, Fixed, Moment, Null, Text};
use super::{One, Two, first_wrong_of_one, first_wrong_of_two};
use query_plan::Op;
use std::test::Fail;
use tick_time::Part;

const WHOLE_NUMBERS: [Two; 17] = [
    (Op::Add, Big(2), Big(3), Big(5)),
    (Op::Sub, Big(2), Big(3), Big(-1)),
    (Op::Mul, Big(-4), Big(5), Big(-20)),
    (Op::Div, Big(7), Big(2), Big(3)),
    (Op::Div, Big(7), Big(-2), Big(-3)),
    (Op::Div, Big(-7), Big(2), Big(-3)),
    (Op::Rem, Big(7), Big(-2), Big(1)),
    (Op::Rem, Big(-7), Big(2), Big(-1)),
    (Op::Div, Big(i64::MIN), Big(-1), Null),
    (Op::Rem, Big(i64::MIN), Big(-1), Big(0)),
    (Op::Div, Big(1), Big(0), Null),
    (Op::Rem, Big(1), Big(0), Null),
    (Op::Add, Big(i64::MAX), Big(1), Null),
    (Op::Add, Big(i64::MAX), Big(0), Big(i64::MAX)),
    (Op::Sub, Big(i64::MIN), Big(1), Null),
    (Op::Mul, Big(i64::MIN), Big(-1), Null),
    (Op::Mul, Big(3_037_000_500), Big(3_037_000_500), Null),
];

#[test]
fn whole_numbers_truncate_and_never_wrap(rt: HostRuntime) -> Result<(), Fail> {
    assert!(rt; first_wrong_of_two(rt.alloc(), &WHOLE_NUMBERS)? == None);
    Ok(())
}

const DECIMALS: [Two; 15] = [
    (
        Op::Mul,
        Fixed(1_500_000),
        Fixed(2_500_000),
        Fixed(3_750_000),
    ),
    (
        Op::Mul,
        Fixed(1_000_001),
        Fixed(1_000_001),
        Fixed(1_000_002),
    ),
    (Op::Mul, Fixed(1), Fixed(999_999), Fixed(0)),
    (Op::Mul, Fixed(-1), Fixed(500_000), Fixed(0)),
    (Op::Mul, Fixed(i64::MAX), Fixed(2_000_000), Null),
    (Op::Div, Fixed(1_000_000), Fixed(3_000_000), Fixed(333_333)),
    (Op::Div, Big(1), Fixed(3_000_000), Fixed(333_333)),
    (Op::Div, Fixed(-1_000_000), Big(3), Fixed(-333_333)),
    (Op::Div, Fixed(1), Fixed(0), Null),
    (Op::Add, Big(1), Fixed(500_000), Fixed(1_500_000)),
    (Op::Sub, Fixed(500_000), Big(1), Fixed(-500_000)),
    (Op::Add, Big(9_223_372_036_855), Fixed(-1), Null),
    (
        Op::Add,
        Big(9_223_372_036_854),
        Fixed(775_807),
        Fixed(i64::MAX),
    ),
    (Op::Add, Fixed(i64::MAX), Fixed(1), Null),
    (Op::Rem, Fixed(7), Fixed(2), Null),
];

#[test]
fn decimals_are_millionths_cut_off(rt: HostRuntime) -> Result<(), Fail> {
    assert!(rt; first_wrong_of_two(rt.alloc(), &DECIMALS)? == None);
    Ok(())
}

// 31 January 1970, which is 30 days behind the moment zero, and 28 February 1970, which is 58.
const LAST_OF_JANUARY: Spelt = Moment(25_920_000_000_000);

const LAST_OF_FEBRUARY: Spelt = Moment(50_112_000_000_000);

const DATES: [Two; 12] = [
    (
        Op::DateAdd(Part::Month),
        Big(1),
        LAST_OF_JANUARY,
        LAST_OF_FEBRUARY,
    ),
    (
        Op::DateAdd(Part::Day),
        Big(28),
        LAST_OF_JANUARY,
        LAST_OF_FEBRUARY,
    ),
    (Op::DateAdd(Part::Day), Big(-31), LAST_OF_JANUARY, Null),
    (Op::DateAdd(Part::Second), Big(i64::MAX), Moment(0), Null),
    (Op::DateAdd(Part::Second), Fixed(1), Moment(0), Null),
    (Op::DateAdd(Part::Second), Big(1), Null, Null),
    (
        Op::DateAdd(Part::Second),
        Big(1),
        Moment(5),
        Moment(10_000_005),
    ),
    (
        Op::DateDiff(Part::Day),
        Moment(863_999_999_999),
        Moment(864_000_000_000),
        Big(1),
    ),
    (
        Op::DateDiff(Part::Day),
        Moment(864_000_000_000),
        Moment(863_999_999_999),
        Big(-1),
    ),
    (
        Op::DateDiff(Part::Month),
        LAST_OF_JANUARY,
        LAST_OF_FEBRUARY,
        Big(1),
    ),
    (Op::DateDiff(Part::Day), Moment(0), Null, Null),
    (Op::DateDiff(Part::Day), Moment(0), Big(1), Null),
];

#[test]
fn dates_are_moved_and_compared_by_parts(rt: HostRuntime) -> Result<(), Fail> {
    assert!(rt; first_wrong_of_two(rt.alloc(), &DATES)? == None);
    Ok(())
}

const WRONG_KINDS: [Two; 9] = [
    (Op::Add, Null, Big(1), Null),
    (Op::Add, Big(1), Null, Null),
    (Op::Mul, Fixed(1), Null, Null),
    (Op::Add, Bit(true), Big(1), Null),
    (Op::Add, Moment(1), Big(1), Null),
    (Op::Add, Text("1"), Big(1), Null),
    (Op::Neg, Big(1), Big(1), Null),
    (Op::Len, Text("a"), Text("b"), Null),
    (Op::DatePart(Part::Day), Moment(0), Moment(0), Null),
];

#[test]
fn a_value_that_an_operation_does_not_take_gives_null(rt: HostRuntime) -> Result<(), Fail> {
    assert!(rt; first_wrong_of_two(rt.alloc(), &WRONG_KINDS)? == None);
    Ok(())
}

const OF_NUMBERS: [One; 13] = [
    (Op::Neg, Big(5), Big(-5)),
    (Op::Neg, Big(i64::MIN), Null),
    (Op::Neg, Fixed(-1), Fixed(1)),
    (Op::Neg, Bit(true), Null),
    (Op::Abs, Big(-5), Big(5)),
    (Op::Abs, Big(i64::MIN), Null),
    (Op::Abs, Fixed(i64::MIN), Null),
    (Op::Abs, Fixed(-250_000), Fixed(250_000)),
    (Op::Abs, Null, Null),
    (Op::Add, Big(1), Null),
    (Op::DatePart(Part::Year), Moment(0), Big(1970)),
    (Op::DatePart(Part::Day), LAST_OF_JANUARY, Big(31)),
    (Op::DatePart(Part::Day), Big(1), Null),
];

#[test]
fn numbers_and_dates_alone(rt: HostRuntime) -> Result<(), Fail> {
    assert!(rt; first_wrong_of_one(rt.alloc(), &OF_NUMBERS)? == None);
    Ok(())
}
