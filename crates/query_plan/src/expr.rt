//! Expressions and conditions of a plan, over the columns of a row.

use event_value::{Copies, Kind, Text, Value};
use sqlite_items::{Boxed, Items};
use tick_time::{Memory, Part};

/// An operation on the values of its operands.
#[derive(Clone, Copy, PartialEq, Eq)]
pub enum Op {
    /// The sum of two numbers.
    Add,
    /// The difference of two numbers.
    Sub,
    /// The product of two numbers.
    Mul,
    /// The quotient of two numbers, toward zero.
    Div,
    /// The remainder of two whole numbers, with the dividend's sign.
    Rem,
    /// A number with the other sign.
    Neg,
    /// A number without its sign.
    Abs,
    /// A moment with so many parts added.
    DateAdd(Part),
    /// The boundaries of a part between two moments.
    DateDiff(Part),
    /// A part of a moment.
    DatePart(Part),
    /// The number of a text's characters.
    Len,
    /// A text with its ASCII letters in lower case.
    Lower,
    /// A text with its ASCII letters in upper case.
    Upper,
    /// The characters of a text from a place on, so many.
    Substring,
    /// Texts one behind the other.
    Concat,
    /// The first value that isn't Null.
    Coalesce,
}

impl Copies for Op {
    fn copy(&self) -> Result<Self, Memory> {
        Ok(*self)
    }
}

/// A relation of two values of comparable kinds.
#[derive(Clone, Copy, PartialEq, Eq)]
pub enum Rel {
    /// `=`
    Eq,
    /// `<>`
    Ne,
    /// `<`
    Lt,
    /// `<=`
    Le,
    /// `>`
    Gt,
    /// `>=`
    Ge,
}

impl Copies for Rel {
    fn copy(&self) -> Result<Self, Memory> {
        Ok(*self)
    }
}

/// An expression: it has a value over the values of a row and its time.
#[cycle(expr)]
#[derive(Drop)]
pub enum Expr {
    /// A value.
    Lit(Value),
    /// The value of the column at this place, counted from 0.
    Col(u16),
    /// The time of the row.
    Stamp,
    /// The value as one of another kind.
    Cast(Boxed<Expr>, Kind),
    /// An operation on its operands.
    Apply(Op, Items<Expr>),
    /// The value of the first branch whose condition is true, or else the other one.
    Choose(Items<Branch>, Option<Boxed<Expr>>),
}

/// A branch of a choice.
#[cycle(expr)]
#[derive(Drop)]
pub struct Branch {
    /// The branch is taken where this is true.
    pub cond: Cond,
    /// The value that it gives.
    pub value: Expr,
}

/// A condition: it is true, false or unknown over the values of a row and its time.
#[cycle(expr)]
#[derive(Drop)]
pub enum Cond {
    /// Two values in a relation.
    Compare(Rel, Expr, Expr),
    /// Both conditions.
    And(Boxed<Cond>, Boxed<Cond>),
    /// One of two conditions.
    Or(Boxed<Cond>, Boxed<Cond>),
    /// The opposite of a condition.
    Not(Boxed<Cond>),
    /// The value is Null.
    IsNull(Expr),
    /// The text fits the pattern, in which `%` stands for any characters and `_` for one.
    Like(Expr, Text),
    /// The value equals one of the values.
    OneOf(Expr, Items<Expr>),
}
