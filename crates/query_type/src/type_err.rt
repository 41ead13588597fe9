//! `TypeErr`, why a script has no plan.

ghost use Rattle.std.specs.Prelude.{◌≡◌};
ghost use Rattle.query_type.specs.Refusals.{err_of_fault, no_memory};

use event_value::Memory;
use query_forms::{Cause, Fault};

/// Why a script has no plan, each but the last with the place of the part that breaks the rule.
#[derive(Clone, Copy, PartialEq, Eq)]
pub enum TypeErr {
    /// No source has this name.
    UnknownSource(u32),
    /// No source in reach has this column.
    UnknownColumn(u32),
    /// Two sources in reach have this column.
    Ambiguous(u32),
    /// The kinds of the parts don't fit.
    Kind(u32),
    /// An aggregate stands where there are no groups.
    Aggregate(u32),
    /// A column stands outside the group expressions.
    NotGrouped(u32),
    /// The window is none that there is, or there isn't exactly one.
    Window(u32),
    /// The bound in time of a join is none that there is.
    Bound(u32),
    /// Two mentions of a stream have different stamps.
    StampTwice(u32),
    /// A name stands twice.
    NameTwice(u32),
    /// A limit is exceeded.
    TooMany(u32),
    /// The construct isn't built.
    Unsupported(u32),
    /// There was no memory.
    Memory,
}

impl From<Memory> for TypeErr {
    ghost from_gives = { λ _ e. e ≡ no_memory };

    fn from(_: Memory) -> TypeErr {
        TypeErr::Memory
    }
}

/// The refusal of a fault.
pub fn err_of_fault(fault: Fault) -> TypeErr
    ensures { result ≡ err_of_fault fault }
{
    let place = fault.place;
    match fault.cause {
        Cause::UnknownSource => TypeErr::UnknownSource(place),
        Cause::UnknownColumn => TypeErr::UnknownColumn(place),
        Cause::Ambiguous => TypeErr::Ambiguous(place),
        Cause::Kind => TypeErr::Kind(place),
        Cause::Aggregate => TypeErr::Aggregate(place),
        Cause::NotGrouped => TypeErr::NotGrouped(place),
        Cause::Window => TypeErr::Window(place),
        Cause::Bound => TypeErr::Bound(place),
        Cause::StampTwice => TypeErr::StampTwice(place),
        Cause::NameTwice => TypeErr::NameTwice(place),
        Cause::TooMany => TypeErr::TooMany(place),
        Cause::Unsupported => TypeErr::Unsupported(place),
    }
}
