//! The columns of rows, and the keys that their first columns are.

ghost use Rattle.std.specs.Prelude.{◌≡◌, IfOk};
ghost use Rattle.row_groups.specs.Columns.{known_value};
ghost use Rattle.row_groups.specs.Keys as spec;

use event_value::{Copies, Memory, Seq, Value};
use std::alloc::Global;
use std::cmp::Ordering;

/// The values of the first columns, Null where there are none.
///
/// # Errors
/// `Memory` where there was none for a copy.
pub fn key_of(alloc: Global, count: u16, values: &[Value]) -> Result<Seq<Value>, Memory>
    ensures { IfOk result (λ key. key ≡ spec.key_of count values.now) }
{
    let mut key = Seq::empty(alloc);
    for column in 0..count {
        key.push(copy_at(values, column)?)?;
    }
    Ok(key)
}

fn copy_at(values: &[Value], column: u16) -> Result<Value, Memory>
    ensures { IfOk result (λ value. value ≡ spec.value_at column values.now) }
{
    match values.get(column as usize) {
        Some(value) => value.copy(),
        None => Ok(Value::Null),
    }
}

/// The order of keys: by the first values that differ. It takes no memory.
pub fn order_keys(a: &[Value], b: &[Value]) -> Ordering
    ensures { result ≡ spec.key_order a.now b.now }
{
    a.cmp(b)
}
