//! Rows grouped by the values of their first columns, and the aggregates of groups.
//! `Tallies` are running aggregates: they take the rows of a group one by one, and give the values
//! of its aggregates. `key_of` gives the key of a row.
//! What matters: `Tallies::push_values`, clause of specs/Aggregates.antt, which says what each aggregate
//! is of the whole list of a group's rows; and the law of src/laws.rt, that sums are exact.
//! Every window cites these words: specs/Keys.antt, specs/Distinct.antt (a list in an order, of
//! what ties only one), specs/Groups.antt (items by their keys), and their lemmas of proofs/.
//! Which rows belong to a window is said by the crates above.
#![tactic(auto)]

mod different;
mod keys;
mod laws;
mod running;
mod sum;
mod tallies;
mod tally;

pub use different::Different;
pub use keys::{key_of, order_keys};
pub use laws::sums_are_exact;
pub use running::Running;
pub use sum::{Sum, Total};
pub use tallies::Tallies;
pub use tally::Tally;
