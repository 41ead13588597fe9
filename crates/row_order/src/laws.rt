//! The laws of lists in order of time.

ghost use Rattle.std.specs.Prelude.{List};
ghost use Rattle.row_order.specs.InOrder.{in_order};
ghost use Rattle.row_order.specs.Laws.{IsOnlyStableOrder, StretchesJoin};

use crate::Timed;

/// A list that was put in order never goes back in time, and has at each time what the list had
/// there, in the same order; and it is the only such list.
pub fn order_is_stable<T: Timed>()
    ensures { (rows : List T) → IsOnlyStableOrder T.time_of rows (in_order T.time_of rows) }
{}

/// What a list in order has below a time, and then what it has from there to below a later one, is
/// what it has below the later one; with what is from there on it is the whole list.
pub fn stretches_join<T: Timed>()
    ensures { (rows : List T) → StretchesJoin T.time_of rows }
{}
