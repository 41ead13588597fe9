//! `put_in_order`, which orders a list by time.

ghost use Rattle.std.specs.Prelude.{◌≡◌, IfOk};
ghost use Rattle.row_order.specs.InOrder.{in_order};

use crate::Timed;
use event_value::{Memory, Seq};

/// The list in order of time. Elements of equal time keep their order.
///
/// # Errors
/// `Memory` where there was none to sort with.
pub fn put_in_order<T: Timed + Drop>(rows: Seq<T>) -> Result<Seq<T>, Memory>
    ensures { IfOk result (λ ordered. ordered ≡ in_order T.time_of rows) }
{
    let mut rows = rows.into_vec();
    rows.sort_by_key(|row| row.ticks())?;
    Ok(Seq::from_vec(rows))
}
