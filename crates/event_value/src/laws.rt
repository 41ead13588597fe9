//! The laws of the order of values.

ghost use Rattle.event_value.specs.Laws.{IsOrderOfValues};

/// The order of values is total, and values that it calls equal are equal.
pub fn order_is_total()
    ensures { IsOrderOfValues }
{}
