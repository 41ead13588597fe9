//! `Rules`, the policies of a lane, by which a record is judged.

ghost use Rattle.std.specs.Prelude.{◌≡◌, ◌≤ℤ◌, pos};
ghost use Rattle.time_policy.specs.PolicyState.{rules_of};
ghost use Rattle.time_policy.specs.Steps.{watermark_after_mark, watermark_after_record};
ghost use Rattle.time_policy.specs.Verdicts.{verdict_by_mark, verdict_by_rules, verdict_by_stamp};

use crate::Verdict;
use crate::moments::{before, later};
use event_value::{Policy, Rule};
use tick_time::Moment;

/// How far a stamp may be ahead of the arrival: five minutes, in ticks.
pub const EARLY: u64 = 3_000_000_000;

/// The policies of a lane. Lengths are in ticks.
#[derive(Clone, Copy)]
pub struct Rules {
    /// How far a stamp may be behind the arrival.
    pub late: u64,
    /// How far a stamp may be behind the greatest one before it.
    pub disorder: u64,
    /// Whether late and disordered records are adjusted; else they are dropped.
    pub adjust: bool,
    /// Whether the stream has TIMESTAMP BY.
    pub stamped: bool,
    /// Whether TIMESTAMP BY has OVER.
    pub over: bool,
}

impl Rules {
    /// The rules of a policy, for a stream with or without TIMESTAMP BY and OVER.
    pub fn of(policy: &Policy, stamped: bool, over: bool) -> Rules
        requires late { pos 0 ≤ℤ policy.now.late }
        requires disorder { pos 0 ≤ℤ policy.now.disorder }
        ensures { result ≡ rules_of policy.now stamped over }
    {
        Rules {
            late: policy.late as u64,
            disorder: policy.disorder as u64,
            adjust: policy.adjust,
            stamped,
            over,
        }
    }

    /// The verdict on a record that came at this arrival. Below the mark nothing is kept.
    pub fn verdict(&self, arrival: Moment, mark: Moment, stamp: Option<Moment>) -> Verdict
        ensures { result ≡ verdict_by_rules self.now arrival mark stamp }
    {
        if self.stamped {
            self.verdict_by_stamp(arrival, mark, stamp)
        } else {
            Verdict::Kept(arrival)
        }
    }

    fn verdict_by_stamp(&self, arrival: Moment, mark: Moment, stamp: Option<Moment>) -> Verdict
        ensures { result ≡ verdict_by_stamp self.now arrival mark stamp }
    {
        let Some(stamp) = stamp else {
            return Verdict::Dropped(Rule::NoTime);
        };
        let least = before(arrival, self.late);
        if stamp.count() > arrival.count() + EARLY {
            Verdict::Dropped(Rule::Early)
        } else if stamp.count() >= least.count() {
            self.verdict_by_mark(mark, stamp)
        } else if self.adjust {
            self.verdict_by_mark(mark, least)
        } else {
            Verdict::Dropped(Rule::Late)
        }
    }

    fn verdict_by_mark(&self, mark: Moment, time: Moment) -> Verdict
        ensures { result ≡ verdict_by_mark self.now mark time }
    {
        if time.count() >= mark.count() {
            Verdict::Kept(time)
        } else if self.adjust {
            Verdict::Kept(mark)
        } else {
            Verdict::Dropped(Rule::Disorder)
        }
    }

    /// The watermark after a record with this verdict, which came at this arrival.
    pub fn watermark_after_record(
        &self,
        watermark: Moment,
        arrival: Moment,
        verdict: &Verdict,
    ) -> Moment
        ensures { result ≡ watermark_after_record self.now watermark arrival verdict.now }
    {
        if !self.stamped {
            return later(watermark, arrival);
        }
        if self.over {
            return later(watermark, before(arrival, self.late));
        }
        match verdict {
            Verdict::Kept(time) => later(watermark, before(*time, self.disorder)),
            Verdict::Dropped(_) => watermark,
        }
    }

    /// The watermark after a mark at this moment, which came at this arrival.
    pub fn watermark_after_mark(
        &self,
        watermark: Moment,
        arrival: Moment,
        through: Moment,
    ) -> Moment
        ensures { result ≡ watermark_after_mark self.now watermark arrival through }
    {
        if !self.stamped {
            later(watermark, arrival)
        } else if self.over {
            later(watermark, before(arrival, self.late))
        } else {
            later(watermark, before(through, self.late))
        }
    }
}
