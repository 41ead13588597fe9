//! Copies of plans.

ghost use Rattle.std.specs.Prelude.{◌≡◌, IfOk};

use crate::{Expr, Output, Plan, Step, StreamUse};
use event_value::{Copies, CopiesIn, both, copies_in, copy_of_option};
use std::alloc::Global;
use tick_time::Memory;

impl Copies for Output {
    fn copy(&self) -> Result<Self, Memory> {
        let (name, names) = both(self.name.copy(), self.names.copy())?;
        Ok(Output {
            name,
            step: self.step,
            names,
        })
    }
}

impl Copies for StreamUse {
    fn copy(&self) -> Result<Self, Memory> {
        let stamp = copy_of_option(self.over.allocator(), &self.stamp);
        let (stamp, over) = both(stamp, self.over.copy())?;
        Ok(StreamUse {
            stream: self.stream,
            stamp,
            over,
        })
    }
}

impl Copies for Plan {
    fn copy(&self) -> Result<Self, Memory> {
        let steps = copies_in(self.steps.allocator(), self.steps.items());
        let (streams, references) = both(self.streams.copy(), self.references.copy())?;
        let (steps, outputs) = both(steps, self.outputs.copy())?;
        Ok(Plan {
            streams,
            references,
            steps,
            outputs,
        })
    }
}

impl CopiesIn for Expr {
    fn copy_in(&self, alloc: Global) -> Result<Self, Memory> {
        self.copy(alloc)
    }
}

impl CopiesIn for Step {
    fn copy_in(&self, alloc: Global) -> Result<Self, Memory> {
        self.copy(alloc)
    }
}

impl Step {
    /// A step that equals this one. Conditions keep no allocator, so it takes one.
    ///
    /// # Errors
    /// `Memory` where there was none for the copy.
    pub fn copy(&self, alloc: Global) -> Result<Step, Memory>
        ensures { IfOk result (λ copied. copied ≡ self.now) }
    {
        match self {
            Step::Source { index } => Ok(Step::Source { index: *index }),
            Step::Filter { from, cond } => Ok(Step::Filter {
                from: *from,
                cond: cond.copy(alloc)?,
            }),
            Step::Project { from, exprs } => Ok(Step::Project {
                from: *from,
                exprs: copies_in(alloc, exprs.items())?,
            }),
            Step::Union { first, second } => Ok(Step::Union {
                first: *first,
                second: *second,
            }),
            Step::Grid {
                from,
                size,
                hop,
                offset,
                keys,
                aggs,
            } => Ok(Step::Grid {
                from: *from,
                size: *size,
                hop: *hop,
                offset: *offset,
                keys: *keys,
                aggs: aggs.copy()?,
            }),
            Step::Snapshot { from, keys, aggs } => Ok(Step::Snapshot {
                from: *from,
                keys: *keys,
                aggs: aggs.copy()?,
            }),
            Step::Sliding {
                from,
                size,
                keys,
                aggs,
            } => Ok(Step::Sliding {
                from: *from,
                size: *size,
                keys: *keys,
                aggs: aggs.copy()?,
            }),
            Step::Session {
                from,
                timeout,
                most,
                parts,
                keys,
                aggs,
            } => Ok(Step::Session {
                from: *from,
                timeout: *timeout,
                most: *most,
                parts: *parts,
                keys: *keys,
                aggs: aggs.copy()?,
            }),
            Step::Join {
                left,
                right,
                low,
                high,
                cond,
                outer,
            } => Ok(Step::Join {
                left: *left,
                right: *right,
                low: *low,
                high: *high,
                cond: cond.copy(alloc)?,
                outer: *outer,
            }),
            Step::Lookup {
                left,
                reference,
                cond,
                outer,
            } => Ok(Step::Lookup {
                left: *left,
                reference: *reference,
                cond: cond.copy(alloc)?,
                outer: *outer,
            }),
        }
    }
}
