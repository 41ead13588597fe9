//! What TIMESTAMP BY and OVER are over the values of a record.

ghost use Rattle.std.specs.Prelude.{◌≡◌, IfOk};
ghost use Rattle.query_meaning.specs.Streams as spec;

use event_value::{Memory, Seq, Value};
use expr_eval::{column, eval};
use query_plan::StreamUse;
use std::alloc::Global;
use tick_time::Moment;

/// The stamp of a record with these values: what TIMESTAMP BY is over them, where it is a moment.
///
/// # Errors
/// `Memory` where there was none.
pub fn stamp_of(alloc: Global, used: &StreamUse, values: &[Value]) -> Result<Option<Moment>, Memory>
    ensures { IfOk result (λ stamp. stamp ≡ spec.stamp_of used.now.stamp values.now) }
{
    match &used.stamp {
        None => Ok(None),
        Some(expr) => {
            let value = eval(alloc, expr, values, Moment::zero())?;
            Ok(moment_in(&value))
        }
    }
}

// The moment that a value is, if it is one.
fn moment_in(value: &Value) -> Option<Moment>
    ensures { result ≡ spec.moment_in value.now }
{
    match value {
        Value::Moment(moment) => Some(*moment),
        _ => None,
    }
}

/// The substream of a record with these values: the values of the OVER columns.
///
/// # Errors
/// `Memory` where there was none.
pub fn substream_of(alloc: Global, used: &StreamUse, values: &[Value]) -> Result<Seq<Value>, Memory>
    ensures { IfOk result (λ key. key ≡ spec.substream_of used.now.over values.now) }
{
    let mut key = Seq::empty(alloc);
    let over = used.over.items();
    for place in over {
        key.push(column(values, *place)?)?;
    }
    Ok(key)
}
