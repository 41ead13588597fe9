//! `Core`, the core of a running job.

ghost use Rattle.std.specs.Prelude.{◌≡◌, ◌<◌, ◌-◌, ◌^◌, ℕ, List, Some, IsTrue, IfOk, length, map, min};
ghost use Rattle.std.specs.Prelude.{slice_get};
ghost use Rattle.input_book.specs.Laws.{IsWellFormed};
ghost use Rattle.job_core.specs.Fresh.{fresh_heard, lane_counts, lane_kinds};
ghost use Rattle.job_core.specs.Heard.{LaneHeard, place_of};
ghost use Rattle.query_meaning.specs.Ready.{ready_plan};

use crate::Lane;
use crate::batches::{gathered, printed_outputs};
use crate::lanes::{feed_lane, fresh_lanes, least_watermark, places, release_lanes};
use checkpoint_form::Batch;
use event_value::{Item, Memory, Policy, Position, Seq};
use input_types::Inputs;
use query_meaning::{Pipeline, ReadyPlan, ready_plan};
use query_plan::Plan;
use std::alloc::Global;
use stream_joins::Versions;
use tick_time::Moment;

/// The core of a running job: its lanes, and the operators of its plan.
#[derive(Drop)]
pub struct Core {
    plan: ReadyPlan,
    policy: Policy,
    start: Moment,
    counts: Seq<usize>,
    lanes: Seq<Lane>,
    pipeline: Pipeline,
}

/// A core without its lanes.
#[derive(Drop)]
pub struct Rest {
    plan: ReadyPlan,
    policy: Policy,
    start: Moment,
    counts: Seq<usize>,
    pipeline: Pipeline,
}

impl Rest {
    ghost use Rattle.job_core.specs.Core.{with_lanes};

    /// The core of these lanes. It takes no memory.
    ///
    /// The lanes are those that were taken out of it, in order, whatever they have heard since.
    pub fn put_lanes(self, lanes: Seq<Lane>) -> Core
        ensures { result ≡ with_lanes self lanes }
    {
        Core {
            plan: self.plan,
            policy: self.policy,
            start: self.start,
            counts: self.counts,
            lanes,
            pipeline: self.pipeline,
        }
    }
}

impl Core {
    ghost use Rattle.job_core.specs.Core.{CoreStands, IsCut, IsFedAt, IsSameCore};
    ghost use Rattle.job_core.specs.Core.{IsWatermarkAt, core_watermark, with_lanes};
    ghost use Rattle.job_core.specs.Lanes.{HasUnreadIn, kind_of};

    /// The core of a plan over these inputs that has heard nothing, with the snapshots of each
    /// reference that the plan names, in its order. It gives the rows from the start on.
    ///
    /// # Errors
    /// `Memory` where there was none for it.
    pub fn fresh(
        alloc: Global,
        plan: &Plan,
        inputs: &Inputs,
        versions: Seq<Versions>,
        start: Moment,
    ) -> Result<Core, Memory>
        requires { IsWellFormed inputs.now }
        ensures stands { IfOk result (λ core. CoreStands core (fresh_heard plan.now inputs.now) 0) }
        ensures plan { IfOk result (λ core. core.plan ≡ ready_plan plan.now inputs.now versions) }
        ensures policy { IfOk result (λ core. core.policy ≡ inputs.now.policy) }
        ensures start { IfOk result (λ core. core.start ≡ start) }
        ensures lanes { IfOk result (λ core. map kind_of core.lanes ≡ lane_kinds inputs.now plan.now.streams) }
        ensures counts { IfOk result (λ core. core.counts ≡ lane_counts inputs.now plan.now.streams) }
    {
        let ready = ready_plan(alloc, plan, inputs, versions.items())?;
        let pipeline = Pipeline::begin(alloc, &ready)?;
        let (counts, lanes) = fresh_lanes(alloc, plan.streams.items(), inputs)?;
        Ok(Core {
            plan: ready,
            policy: inputs.policy,
            start,
            counts,
            lanes,
            pipeline,
        })
    }

    /// The least of the lanes' watermarks: rows below it are final. It takes no memory.
    pub fn watermark(&self) -> Moment
        ensures { (heard : List LaneHeard) (w : ℕ) → CoreStands self.now heard w
            → result ≡ core_watermark self.now heard }
    {
        least_watermark(self.lanes.items())
    }

    /// The number of lanes, or the greatest number where there are more. It takes no memory.
    pub fn lanes(&self) -> u32
        ensures { result ≡ min (length self.now.lanes) (2 ^ 32 - 1) }
    {
        let count = self.lanes.items().len();
        if count < u32::MAX as usize {
            count as u32
        } else {
            u32::MAX
        }
    }

    /// The place before the next entry of a lane. It takes no memory.
    pub fn position(&self, lane: u32) -> Position
        requires { lane < length self.now.lanes }
        ensures { (heard : List LaneHeard) (w : ℕ) (h : LaneHeard) → CoreStands self.now heard w
            → slice_get heard lane ≡ Some h → result ≡ place_of h }
    {
        let lanes = self.lanes.items();
        let place = lane as usize;
        lanes[place].place()
    }

    /// The watermark of a lane. It takes no memory.
    pub fn lane_watermark(&self, lane: u32) -> Moment
        requires { lane < length self.now.lanes }
        ensures { (heard : List LaneHeard) (w : ℕ) (h : LaneHeard) → CoreStands self.now heard w
            → slice_get heard lane ≡ Some h → IsWatermarkAt self.now lane h result }
    {
        let lanes = self.lanes.items();
        let place = lane as usize;
        lanes[place].watermark()
    }

    /// Whether a lane has so many unread entries in the segment that it is in, whose items these
    /// are, its mark counted. It takes no memory.
    pub fn has_unread(&self, lane: u32, items: &[Item], n: u32) -> bool
        ensures { IsTrue result → HasUnreadIn self.now.lanes lane items.now n }
    {
        let lanes = self.lanes.items();
        let count = lanes.len();
        let place = lane as usize;
        if place < count {
            lanes[place].has_unread(items, n)
        } else {
            false
        }
    }

    /// Hears the next `n` entries of the segment that a lane is in, whose items these are. Lanes
    /// are counted in order of (stream, partition).
    ///
    /// # Errors
    /// `Memory` where there was none for the events and the dropped records.
    pub fn feed(self, alloc: Global, lane: u32, items: &[Item], n: u32) -> Result<Core, Memory>
        requires { HasUnreadIn self.lanes lane items.now n }
        ensures fed { IfOk result (λ core. IsFedAt self lane items.now n core) }
        ensures same { IfOk result (λ core. IsSameCore self core) }
    {
        let lanes = feed_lane(alloc, self.lanes, lane as usize, items, n)?;
        Ok(Core {
            plan: self.plan,
            policy: self.policy,
            start: self.start,
            counts: self.counts,
            lanes,
            pipeline: self.pipeline,
        })
    }

    /// Takes the lanes out, so that each can be fed by itself. It takes no memory.
    pub fn take_lanes(self) -> (Rest, Seq<Lane>)
        ensures { self ≡ with_lanes result.0 result.1 }
    {
        let rest = Rest {
            plan: self.plan,
            policy: self.policy,
            start: self.start,
            counts: self.counts,
            pipeline: self.pipeline,
        };
        (rest, self.lanes)
    }

    /// Gives the rows that are final since the last cut, and the dropped records since then.
    ///
    /// # Errors
    /// `Memory` where there was none for them.
    pub fn cut(self, alloc: Global, lanes: u32) -> Result<(Core, Batch), Memory>
        requires { lanes ≡ 1 }
        ensures cut { IfOk result (λ (core, batch). IsCut self core batch) }
        ensures same { IfOk result (λ (core, batch). IsSameCore self core) }
    {
        let upto = least_watermark(self.lanes.items());
        let positions = places(alloc, self.lanes.items())?;
        let (lanes, rows, drops) = release_lanes(alloc, self.lanes, upto)?;
        let streams = gathered(alloc, self.counts.items(), rows)?;
        let (pipeline, rows) = self
            .pipeline
            .advance(alloc, &self.plan, streams.items(), upto)?;
        let outputs = printed_outputs(alloc, self.start, self.plan.outputs.items(), rows.items())?;
        let core = Core {
            plan: self.plan,
            policy: self.policy,
            start: self.start,
            counts: self.counts,
            lanes,
            pipeline,
        };
        let batch = Batch {
            outputs,
            drops,
            positions,
            upto,
            core: None,
        };
        Ok((core, batch))
    }
}
