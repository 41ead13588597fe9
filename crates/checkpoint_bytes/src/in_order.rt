//! Whether the lists of a core's lanes are in order.

ghost use Rattle.std.specs.Prelude.{◌≡◌};
ghost use Rattle.std.specs.declared.cmp.Ordering as answers;
ghost use Rattle.checkpoint_bytes.specs.Cores as spec;

use crate::{CoreForm, LaneForm, Waiting};
use event_value::KeyMark;
use row_groups::order_keys;
use std::cmp::Ordering;

/// Whether the lists of each lane are in order, nothing twice.
pub fn is_core_in_order(core: &CoreForm) -> bool
    ensures { result ≡ spec.is_core_in_order core.now }
{
    for lane in core.lanes.items() {
        if !is_lane_in_order(lane) {
            return false;
        }
    }
    true
}

// Whether the lists of a lane are in order, nothing twice.
fn is_lane_in_order(lane: &LaneForm) -> bool
    ensures { result ≡ spec.is_lane_in_order lane.now }
{
    is_rising(lane.marks.items()) && is_rising(lane.waiting.items())
}

// Items with an order.
trait Ranked {
    // The order.
    ghost order: { Self → Self → answers.Ordering };

    // How an item stands to another.
    fn rank(&self, other: &Self) -> Ordering
        ensures { result ≡ order self.now other.now };
}

impl Ranked for KeyMark {
    ghost order = { spec.mark_order };

    fn rank(&self, other: &Self) -> Ordering {
        order_keys(self.key.items(), other.key.items())
    }
}

impl Ranked for Waiting {
    ghost order = { spec.waiting_order };

    fn rank(&self, other: &Self) -> Ordering {
        self.time
            .cmp(&other.time)
            .then(self.segment.cmp(&other.segment))
            .then(self.index.cmp(&other.index))
    }
}

// Whether each item is below the one behind it.
fn is_rising<T: Ranked>(items: &[T]) -> bool
    ensures { result ≡ spec.is_rising T.order items.now }
{
    match items {
        [] => true,
        [first, others @ ..] => is_rising_behind(first, others),
    }
}

// Whether each item is below the one behind it, the first of them behind another.
fn is_rising_behind<T: Ranked>(first: &T, others: &[T]) -> bool
    ensures { result ≡ spec.is_rising_behind T.order first.now others.now }
{
    let mut before = first;
    for item in others {
        if !before.rank(item).is_lt() {
            return false;
        }
        before = item;
    }
    true
}
