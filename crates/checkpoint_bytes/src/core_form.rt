//! `CoreForm`, what a run keeps to go on without the events before, and its parts.

ghost use Rattle.std.specs.Prelude.{refl};
ghost use Rattle.checkpoint_bytes.specs.CoreLaws.{IsForm-any_core_form, IsForm-any_lane_form, IsForm-waiting_form};
ghost use Rattle.checkpoint_bytes.specs.Cores.{any_core_form, any_lane_form, waiting_form};

use event_value::{KeyMark, Memory, Seq, Value};
use field_forms::{Field, FormOf, RunForm, Unread, Unreadable, append_list, take_list};
use std::alloc::Global;
use tick_time::Moment;

/// An event that waits for the moments below its time to be final.
#[derive(Drop)]
pub struct Waiting {
    /// The time after the policies.
    pub time: Moment,
    /// The number of the segment in the partition.
    pub segment: u32,
    /// The number of the item in the segment.
    pub index: u32,
    /// The values of the columns, in order.
    pub values: Seq<Value>,
}

/// What is kept of a lane.
#[derive(Drop)]
pub struct LaneForm {
    /// The arrival time of its last entry.
    pub arrival: Moment,
    /// Its watermark.
    pub watermark: Moment,
    /// The marks of its substreams, in order of key, each key once.
    pub marks: Seq<KeyMark>,
    /// Its waiting events, in order of time, then of segment and index, each place once.
    pub waiting: Seq<Waiting>,
}

/// What a run keeps to go on behind the places up to which its lanes were read.
#[derive(Drop)]
pub struct CoreForm {
    /// Each lane.
    pub lanes: Seq<LaneForm>,
    /// What each step of the plan keeps, as bytes of its own.
    pub steps: Seq<Seq<u8>>,
    /// The rows below this moment were given.
    pub upto: Moment,
}

impl Field for Waiting {
    ghost form = { waiting_form };

    fn append(&self, out: &mut Seq<u8>) -> Result<(), Memory> {
        self.time.append(out)?;
        self.segment.append(out)?;
        self.index.append(out)?;
        self.values.append(out)
    }

    fn take(alloc: Global, unread: &mut Unread<'_>) -> Result<Self, Unreadable> {
        let time = Moment::take(alloc, unread)?;
        let segment = u32::take(alloc, unread)?;
        let index = u32::take(alloc, unread)?;
        let values = Seq::take(alloc, unread)?;
        Ok(Waiting {
            time,
            segment,
            index,
            values,
        })
    }

    ghost sound = { IsForm-waiting_form };

    ghost needs_bytes = { refl };
}

// Lanes with their lists in any order.
pub(crate) struct AnyLane;

impl FormOf<LaneForm> for AnyLane {
    ghost form = { any_lane_form };

    fn append(lane: &LaneForm, out: &mut Seq<u8>) -> Result<(), Memory> {
        lane.arrival.append(out)?;
        lane.watermark.append(out)?;
        lane.marks.append(out)?;
        lane.waiting.append(out)
    }

    fn take(alloc: Global, unread: &mut Unread<'_>) -> Result<LaneForm, Unreadable> {
        let arrival = Moment::take(alloc, unread)?;
        let watermark = Moment::take(alloc, unread)?;
        let marks = Seq::take(alloc, unread)?;
        let waiting = Seq::take(alloc, unread)?;
        Ok(LaneForm {
            arrival,
            watermark,
            marks,
            waiting,
        })
    }

    ghost sound = { IsForm-any_lane_form };

    ghost needs_bytes = { refl };
}

// Cores with the lists of their lanes in any order.
pub(crate) struct AnyCore;

impl FormOf<CoreForm> for AnyCore {
    ghost form = { any_core_form };

    fn append(core: &CoreForm, out: &mut Seq<u8>) -> Result<(), Memory> {
        append_list::<_, AnyLane>(&core.lanes, out)?;
        append_list::<_, RunForm>(&core.steps, out)?;
        core.upto.append(out)
    }

    fn take(alloc: Global, unread: &mut Unread<'_>) -> Result<CoreForm, Unreadable> {
        let lanes = take_list::<_, AnyLane>(alloc, unread)?;
        let steps = take_list::<_, RunForm>(alloc, unread)?;
        let upto = Moment::take(alloc, unread)?;
        Ok(CoreForm { lanes, steps, upto })
    }

    ghost sound = { IsForm-any_core_form };

    ghost needs_bytes = { refl };
}
