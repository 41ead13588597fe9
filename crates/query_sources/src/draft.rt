//! `Draft`, a plan while its script is read.

ghost use Rattle.std.specs.Prelude.{◌≡◌, ◌++◌, ◌∷◌, [], IfOk, OnOk};
ghost use Rattle.query_sources.specs.Drafts as spec;

use event_value::{Memory, Seq};
use query_forms::{Cause, Fault};
use query_plan::{Expr, Step};

/// What a mention of a stream says of the time of its records.
#[derive(Drop)]
pub enum Stamping {
    /// Nothing: a record's time is its arrival.
    Arrival,
    /// Its expression, and the columns behind OVER.
    By(Expr, Seq<u16>),
    /// An expression or a column that is refused.
    Refused,
}

/// A stream that is named in a script.
#[derive(Drop)]
pub struct Mention {
    /// The place of its name.
    pub place: u32,
    /// Its place among the streams of the inputs.
    pub stream: u16,
    /// What is said of the time of its records.
    pub stamping: Stamping,
}

/// A plan while its script is read.
#[derive(Drop)]
pub struct Draft {
    /// The faults so far.
    pub faults: Seq<Fault>,
    /// The streams that are named so far, in order of the text.
    pub mentions: Seq<Mention>,
    /// The steps so far.
    pub steps: Seq<Step>,
    /// The step whose rows go on.
    pub last: u16,
    /// How many steps the selects so far ask for, those that aren't built with them.
    pub count: usize,
}

impl Draft {
    /// Adds a fault at the end.
    pub fn note(&mut self, place: u32, cause: Cause) -> Result<(), Memory>
        ensures { OnOk result (self.new ≡ spec.noted_at place cause self.old) }
    {
        self.faults.push(Fault { place, cause })
    }

    /// Adds faults at the end.
    pub fn note_all(&mut self, faults: &[Fault]) -> Result<(), Memory>
        ensures { OnOk result (self.new ≡ spec.noted faults.now self.old) }
    {
        query_forms::push_faults(&mut self.faults, faults)
    }

    /// Adds a step at the end; its rows go on.
    pub fn go_on(&mut self, step: Step) -> Result<(), Memory>
        ensures { OnOk result (self.new ≡ spec.with_step step self.old) }
    {
        let number = number_of(self.steps.items().len())?;
        self.steps.push(step)?;
        self.last = number;
        Ok(())
    }

    /// Adds to the number of steps that are asked for; the select at this place is refused where it
    /// makes the first step above the limit.
    pub fn ask(&mut self, place: u32, count: usize) -> Result<(), Memory>
        ensures { OnOk result (self.new ≡ spec.asked place count self.old) }
    {
        let before = self.count;
        let Some(after) = before.checked_add(count) else {
            return Err(Memory);
        };
        self.count = after;
        if before <= MAX_STEPS && MAX_STEPS < after {
            return self.note(place, Cause::TooMany);
        }
        Ok(())
    }
}

// How many steps a plan may have.
const MAX_STEPS: usize = 32;

/// A count as a number of 16 bits; more things than that are never in memory.
pub fn number_of(count: usize) -> Result<u16, Memory>
    ensures { IfOk result (λ number. number ≡ count) }
{
    match u16::try_from(count) {
        Ok(number) => Ok(number),
        Err(_) => Err(Memory),
    }
}
