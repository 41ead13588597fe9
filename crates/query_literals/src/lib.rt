//! What stands in a query for itself, whatever the sources are: literals, units of time, and the bound
//! on the difference of two times that a condition of a join sets.
//! What matters: `literal_in`, `unit_in` (specs/Literals.antt), and `bound_of` (specs/Bounds.antt over
//! specs/Differences.antt).
//! It reads no scope: query_sources and query_windows say where a literal or a bound is asked for.
#![tactic(auto)]

mod bare;
mod bounds;
mod differences;
mod literals;

pub use bare::bare_primary;
pub use bounds::{Bound, bound_of};
pub use literals::{literal_in, unit_in, unit_of_path, whole_in, whole_of_number};
