//! GROUP BY: windows with their lengths, group expressions, and the aggregate calls over them.
//! `read_groups` reads the groups of a select; `arguments_of` says what the window takes of a row.
//! What matters: clauses of `read_groups`, over specs/Groups.antt and specs/Windows.antt, and of
//! `arguments_of`, over specs/Aggregates.antt.
//! It gives no steps: query_type does.
#![tactic(auto)]

mod aggregates;
mod arguments;
mod groups;
mod lengths;
mod windows;

pub use aggregates::{Arguments, arguments_of, call_columns, calls_of_select};
pub use groups::{Grouping, read_groups};
pub use windows::Window;
