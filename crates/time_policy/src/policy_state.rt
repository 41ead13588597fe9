//! `PolicyState`, a lane's policies carried along its entries.

ghost use Rattle.std.specs.Prelude.{◌≡◌, ◌≤◌, ◌≤ℤ◌, pos, [], ◌∷◌, ◌++◌, List, Some, IfOk};
ghost use Rattle.time_policy.specs.Entry.{Entry, Good, Mark};
ghost use Rattle.time_policy.specs.PolicyState.{StandsFor, rules_of};
ghost use Rattle.time_policy.specs.Steps.{MarksAfterRecord, earliest_time_in};
ghost use Rattle.time_policy.specs.Verdicts.{verdict};

use crate::Verdict;
use crate::moments::{before, earlier, later};
use crate::rules::Rules;
use crate::substream_marks::SubstreamMarks;
use event_value::{Memory, Policy, Value};
use std::alloc::Global;
use std::marker::Model;
use tick_time::Moment;

/// The arrival, the watermark and the marks of a lane's substreams.
#[derive(Drop)]
pub struct PolicyState {
    rules: Rules,
    arrival: Moment,
    watermark: Moment,
    marks: SubstreamMarks,
}

impl Model for PolicyState {
    ghost use Rattle.time_policy.specs.PolicyState.{LaneState};

    ghost Value = { LaneState };

    ghost view = { λ s. record {
      rules = s.rules;
      arrival = s.arrival;
      watermark = s.watermark;
      marks = s.marks;
    } };
}

impl PolicyState {
    /// The state of a lane with no entries. It takes no memory.
    pub fn start(alloc: Global, policy: &Policy, stamped: bool, over: bool) -> PolicyState
        requires late { pos 0 ≤ℤ policy.now.late }
        requires disorder { pos 0 ≤ℤ policy.now.disorder }
        ensures rules { result.rules ≡ rules_of policy.now stamped over }
        ensures stands { StandsFor result [] }
    {
        PolicyState {
            rules: Rules::of(policy, stamped, over),
            arrival: Moment::zero(),
            watermark: Moment::zero(),
            marks: SubstreamMarks::none(alloc),
        }
    }

    /// The arrival of the lane's last entry. It takes no memory.
    pub fn arrival(&self) -> Moment
        ensures { result ≡ self.now.arrival }
    {
        self.arrival
    }

    /// The lane's watermark. It takes no memory.
    pub fn watermark(&self) -> Moment
        ensures { result ≡ self.now.watermark }
    {
        self.watermark
    }

    /// Takes a record of a segment that ends at `through`, and gives the verdict on it. Without
    /// TIMESTAMP BY the stamp isn't looked at, without OVER the key isn't.
    ///
    /// # Errors
    /// `Memory` where there was none for the mark of a new substream.
    pub fn take(
        self,
        alloc: Global,
        enqueued: Moment,
        through: Moment,
        stamp: Option<Moment>,
        key: &[Value],
    ) -> Result<(PolicyState, Verdict), Memory>
        // For every list of entries that the state stands for.
        ensures verdict { IfOk result (λ r. (front : List Entry) → StandsFor self front
            → verdict self.rules front (Good enqueued through stamp key.now) ≡ Some r.1) }
        ensures stands { IfOk result (λ r. (front : List Entry) → StandsFor self front
            → StandsFor r.0 (front ++ Good enqueued through stamp key.now ∷ [])) }

        // In every state.
        ensures rules { IfOk result (λ r. r.0.rules ≡ self.rules) }
        ensures arrival { IfOk result (λ r. self.arrival ≤ r.0.arrival) }
        ensures watermark { IfOk result (λ r. self.watermark ≤ r.0.watermark) }
    {
        let rules = self.rules;
        let arrival = later(self.arrival(), earlier(enqueued, through));
        let earliest = self.earliest_time(key);
        let verdict = rules.verdict(arrival, earliest, stamp);
        let watermark = rules.watermark_after_record(self.watermark(), arrival, &verdict);
        let marks = marks_after_record(alloc, &rules, self.marks, key, earliest, &verdict)?;
        let next = PolicyState {
            rules,
            arrival,
            watermark,
            marks,
        };
        Ok((next, verdict))
    }

    /// Takes the mark at the end of a segment. It takes no memory.
    pub fn mark(self, through: Moment) -> PolicyState
        // For every list of entries that the state stands for.
        ensures stands { (front : List Entry) → StandsFor self front
            → StandsFor result (front ++ Mark through ∷ []) }

        // In every state.
        ensures rules { result.rules ≡ self.rules }
        ensures arrival { self.arrival ≤ result.arrival }
        ensures watermark { self.watermark ≤ result.watermark }
    {
        let rules = self.rules;
        let arrival = later(self.arrival(), through);
        let watermark = rules.watermark_after_mark(self.watermark(), arrival, through);
        PolicyState {
            rules,
            arrival,
            watermark,
            marks: self.marks,
        }
    }

    /// The time below which no record of this substream is kept.
    fn earliest_time(&self, key: &[Value]) -> Moment
        ensures { result ≡ earliest_time_in self.now key.now }
    {
        if self.rules.over {
            self.marks.mark(key).unwrap_or(Moment::zero())
        } else {
            self.watermark
        }
    }
}

/// The marks after a record of this substream with this verdict.
fn marks_after_record(
    alloc: Global,
    rules: &Rules,
    marks: SubstreamMarks,
    key: &[Value],
    earliest: Moment,
    verdict: &Verdict,
) -> Result<SubstreamMarks, Memory>
    ensures { IfOk result (λ after.
        MarksAfterRecord rules.now key.now earliest verdict.now marks after) }
{
    let mut marks = marks;
    match verdict {
        Verdict::Kept(time) if rules.over => {
            marks.set(alloc, key, later(earliest, before(*time, rules.disorder)))?;
            Ok(marks)
        }
        _ => Ok(marks),
    }
}
