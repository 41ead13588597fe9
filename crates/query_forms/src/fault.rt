//! Faults of a query: which rule is broken, and where.

ghost use Rattle.std.specs.Prelude.{◌≡◌, ◌++◌, IfOk, OnOk};
ghost use Rattle.query_forms.specs.Faults as spec;

use event_value::{Copies, Memory, Seq};
use std::alloc::Global;

/// A rule that a part of a query can break. Rules are numbered from 1, in this order.
#[derive(Clone, Copy, PartialEq, Eq)]
pub enum Cause {
    /// No source has this name.
    UnknownSource,
    /// No source in reach has this column.
    UnknownColumn,
    /// Two sources in reach have this column.
    Ambiguous,
    /// The kinds of the parts don't fit.
    Kind,
    /// An aggregate stands where there are no groups.
    Aggregate,
    /// A column stands outside the group expressions.
    NotGrouped,
    /// The window is none that there is, or there isn't exactly one.
    Window,
    /// The bound in time of a join is none that there is.
    Bound,
    /// Two mentions of a stream have different stamps.
    StampTwice,
    /// A name stands twice.
    NameTwice,
    /// A limit is exceeded.
    TooMany,
    /// The construct isn't built.
    Unsupported,
}

/// A rule that is broken, and the place where.
#[derive(Clone, Copy, PartialEq, Eq)]
pub struct Fault {
    /// The first byte of the part that breaks it.
    pub place: u32,
    /// The rule.
    pub cause: Cause,
}

impl Copies for Fault {
    fn copy(&self) -> Result<Self, Memory> {
        Ok(*self)
    }
}

/// What is made of a part, or all the faults in it.
pub type Checked<A> = Result<A, Seq<Fault>>;

fn cause_number(cause: Cause) -> u8
    ensures { result ≡ spec.cause_number cause }
{
    match cause {
        Cause::UnknownSource => 1,
        Cause::UnknownColumn => 2,
        Cause::Ambiguous => 3,
        Cause::Kind => 4,
        Cause::Aggregate => 5,
        Cause::NotGrouped => 6,
        Cause::Window => 7,
        Cause::Bound => 8,
        Cause::StampTwice => 9,
        Cause::NameTwice => 10,
        Cause::TooMany => 11,
        Cause::Unsupported => 12,
    }
}

/// The part is refused by one rule.
///
/// # Errors
/// `Memory` where there was none for the fault.
pub fn refuse<A: Drop>(alloc: Global, place: u32, cause: Cause) -> Result<Checked<A>, Memory>
    ensures { IfOk result (λ checked. checked ≡ spec.refused place cause) }
{
    let mut faults = Seq::empty(alloc);
    faults.push(Fault { place, cause })?;
    Ok(Err(faults))
}

/// Adds faults at the end.
///
/// # Errors
/// `Memory` where there was none; some of them may then stand at the end.
pub fn push_faults(faults: &mut Seq<Fault>, more: &[Fault]) -> Result<(), Memory>
    ensures { OnOk result (faults.new ≡ faults.old ++ more.now) }
{
    for fault in more {
        faults.push(*fault)?;
    }
    Ok(())
}

fn earlier(first: Fault, second: Fault) -> Fault
    ensures { result ≡ spec.earlier first second }
{
    let is_before = second.place < first.place
        || (second.place == first.place && cause_number(second.cause) < cause_number(first.cause));
    if is_before { second } else { first }
}

/// The least of several faults: by place, and at one place by the number of the rule. It takes no
/// memory.
pub fn least(faults: &[Fault]) -> Option<Fault>
    ensures { result ≡ spec.least faults.now }
{
    let [first, rest @ ..] = faults else {
        return None;
    };
    let mut least = *first;
    for fault in rest {
        least = earlier(least, *fault);
    }
    Some(least)
}
