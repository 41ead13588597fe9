//! The functions that names call.

ghost use Rattle.std.specs.Prelude.{◌≡◌};
ghost use Rattle.query_readings.specs.Functions as spec;

use crate::reading::Face;
use event_value::AggKind;
use query_forms::Form;
use query_plan::Op;
use query_tree::{Name, Path};
use tick_time::{Part, is_name, part_of};

/// A function whose first argument is the word of a part.
#[derive(Clone, Copy)]
pub enum DateOperation {
    Add,
    Diff,
    Field,
}

/// What a call calls.
#[derive(Clone, Copy)]
pub enum Function {
    /// An aggregate over the rows of a group.
    Aggregate(AggKind),
    /// An operation on its arguments.
    Operation(Op),
    /// An operation by the part that its first argument names.
    Dated(DateOperation),
    /// A window.
    Window,
    /// The time of a row.
    Time,
    /// None that there is.
    Unknown,
}

#[tactic(auto, unfolding(crate::specs::Functions::is_window_name))]
fn is_window_name(word: &[u8]) -> bool
    ensures { result ≡ spec.is_window_name word.now }
{
    is_name(b"TumblingWindow", word)
        || is_name(b"HoppingWindow", word)
        || is_name(b"SlidingWindow", word)
        || is_name(b"SessionWindow", word)
        || is_name(b"SnapshotWindow", word)
}

#[tactic(auto, unfolding(crate::specs::Functions::aggregate_named))]
fn aggregate_named(word: &[u8]) -> Option<AggKind>
    ensures { result ≡ spec.aggregate_named word.now }
{
    if is_name(b"COUNT", word) {
        Some(AggKind::Count)
    } else if is_name(b"SUM", word) {
        Some(AggKind::Sum)
    } else if is_name(b"AVG", word) {
        Some(AggKind::Avg)
    } else if is_name(b"MIN", word) {
        Some(AggKind::Min)
    } else if is_name(b"MAX", word) {
        Some(AggKind::Max)
    } else {
        None
    }
}

#[tactic(auto, unfolding(crate::specs::Functions::text_operation_named))]
fn text_operation_named(word: &[u8]) -> Option<Op>
    ensures { result ≡ spec.text_operation_named word.now }
{
    if is_name(b"LEN", word) {
        Some(Op::Len)
    } else if is_name(b"LOWER", word) {
        Some(Op::Lower)
    } else if is_name(b"UPPER", word) {
        Some(Op::Upper)
    } else if is_name(b"SUBSTRING", word) {
        Some(Op::Substring)
    } else if is_name(b"CONCAT", word) {
        Some(Op::Concat)
    } else {
        None
    }
}

#[tactic(auto, unfolding(crate::specs::Functions::other_operation_named))]
fn other_operation_named(word: &[u8]) -> Option<Op>
    ensures { result ≡ spec.other_operation_named word.now }
{
    if is_name(b"ABS", word) {
        Some(Op::Abs)
    } else if is_name(b"COALESCE", word) {
        Some(Op::Coalesce)
    } else if is_name(b"YEAR", word) {
        Some(Op::DatePart(Part::Year))
    } else if is_name(b"MONTH", word) {
        Some(Op::DatePart(Part::Month))
    } else if is_name(b"DAY", word) {
        Some(Op::DatePart(Part::Day))
    } else {
        None
    }
}

#[tactic(auto, unfolding(crate::specs::Functions::date_operation_named))]
fn date_operation_named(word: &[u8]) -> Option<DateOperation>
    ensures { result ≡ spec.date_operation_named word.now }
{
    if is_name(b"DATEADD", word) {
        Some(DateOperation::Add)
    } else if is_name(b"DATEDIFF", word) {
        Some(DateOperation::Diff)
    } else if is_name(b"DATEPART", word) {
        Some(DateOperation::Field)
    } else {
        None
    }
}

#[tactic(auto, unfolding(crate::specs::Functions::function_named))]
fn function_named(word: &[u8]) -> Function
    ensures { result ≡ spec.function_named word.now }
{
    if let Some(kind) = aggregate_named(word) {
        return Function::Aggregate(kind);
    }
    if let Some(op) = text_operation_named(word) {
        return Function::Operation(op);
    }
    if let Some(op) = other_operation_named(word) {
        return Function::Operation(op);
    }
    if let Some(operation) = date_operation_named(word) {
        return Function::Dated(operation);
    }
    if is_window_name(word) {
        return Function::Window;
    }
    Function::Unknown
}

fn is_time_name(first: &Name, second: &Name) -> bool
    ensures { result ≡ spec.is_time_name first.now second.now }
{
    is_name(b"System", first.text.items()) && is_name(b"Timestamp", second.text.items())
}

/// Whether a path names the time of a row.
#[tactic(auto, unfolding(crate::specs::Functions::is_time))]
pub fn is_time(path: &Path) -> bool
    ensures { result ≡ spec.is_time path.now }
{
    match &path.second {
        None => false,
        Some(second) => is_time_name(&path.first, second),
    }
}

/// The function that a path names.
#[tactic(auto, unfolding(crate::specs::Functions::function_of))]
pub fn function_of(path: &Path) -> Function
    ensures { result ≡ spec.function_of path.now }
{
    match &path.second {
        None => function_named(path.first.text.items()),
        Some(second) => {
            if is_time_name(&path.first, second) {
                Function::Time
            } else {
                Function::Unknown
            }
        }
    }
}

fn date_op(operation: DateOperation, part: Part) -> Op
    ensures { result ≡ spec.date_op operation part }
{
    match operation {
        DateOperation::Add => Op::DateAdd(part),
        DateOperation::Diff => Op::DateDiff(part),
        DateOperation::Field => Op::DatePart(part),
    }
}

/// The form of an operation whose first argument is written so.
#[tactic(auto, unfolding(crate::specs::Functions::date_form))]
pub fn date_form(operation: DateOperation, face: &Face) -> Form
    ensures { result ≡ spec.date_form operation face.now }
{
    match face {
        Face::Word(name) => match part_of(name.items()) {
            None => Form::Unfit,
            Some(part) => Form::Apply(date_op(operation, part)),
        },
        Face::Qualified(_) => Form::Unfit,
        Face::Literal => Form::Unfit,
        Face::Other => Form::Unfit,
    }
}

/// The form of a LIKE whose pattern is written so.
#[tactic(auto, unfolding(crate::specs::Functions::like_form))]
pub fn like_form(negated: bool, face: &Face) -> Form
    ensures { result ≡ spec.like_form negated face.now }
{
    match face {
        Face::Literal => Form::Like(negated),
        Face::Word(_) => Form::Unfit,
        Face::Qualified(_) => Form::Unfit,
        Face::Other => Form::Unfit,
    }
}
