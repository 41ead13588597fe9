//! The typed plan of a script over the inputs of a job, or its least fault at its place.
//! `plan` is the call: `TypeErr` names the rule that is broken, and where.
//! What matters: `plan`, clauses `ok` and `err`: the plan exactly where no rule is broken, and else the
//! fault of the least place and there of the least number.
//! The meaning: specs/Plans.antt, over specs/Selects.antt, specs/Unions.antt and specs/Items.antt;
//! sources are those of query_sources, groups those of query_windows, expressions those of
//! query_senses.
//! It runs nothing; Offset is refused as Unsupported.
#![tactic(auto)]

mod grouped;
mod items;
mod plans;
mod selects;
mod type_err;
mod unions;
mod uses;

pub use plans::plan;
pub use type_err::TypeErr;
