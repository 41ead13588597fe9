//! What stands behind FROM and JOIN: the sources that a select may name, its scope, the time of the
//! records of a stream; and the draft of a plan, which every rule of typing takes a step further.
//! `Draft` carries the faults, the mentions of streams and the steps so far; `mention_tail` and
//! `scope_of_tail` read the sources of a select, and `read_joins` its joins.
//! What matters: clauses `draft.new ≡ ..` of each call, over the functions of specs/Sources.antt,
//! specs/Joins.antt, specs/Known.antt, specs/Stamps.antt and
//! specs/Conditions.antt.
//! It reads no groups and no items: query_windows and query_type do.
#![tactic(auto)]

mod conditions;
mod draft;
mod join_conditions;
mod joins;
mod known;
mod names;
mod script_names;
mod sources;
mod stamps;

pub use conditions::{read_filter, value_of};
pub use draft::{Draft, Mention, Stamping, number_of};
pub use joins::read_joins;
pub use known::{
    KnownSource, Origin, References, ResultColumn, Streams, known_named, references_of, streams_of,
};
pub use names::note_repeats;
pub use script_names::names_of_script;
pub use sources::{mention_tail, scope_of_tail};
pub use stamps::{Columns, columns_listed, faults_of_mentions};
