//! The values that rows hold, and the lists, texts and records that every crate above speaks of.
//! `Seq` and `Text` are seen by contracts as lists; `Copies` makes equal values where there is memory.
//! What matters: `order`, clause of specs/Order.antt with its law in src/laws.rt.
//! It prints no value and reads no text: value_text does; the plan of a query stands in query_plan.
#![tactic(auto)]

mod aggregate;
mod copies;
mod kind;
mod laws;
mod policy;
mod record;
mod seq;
mod text;
mod value;

pub use aggregate::{AggKind, Aggregate};
pub use copies::{Copies, CopiesIn, both, copies_in, copy_of_option};
pub use kind::{Column, Columns, Format, Kind};
pub use laws::order_is_total;
pub use policy::Policy;
pub use record::{Dropped, Event, Item, KeyMark, Position, Rule, Stamped};
pub use seq::Seq;
pub use text::Text;
pub use tick_time::Memory;
pub use value::{Value, order};
