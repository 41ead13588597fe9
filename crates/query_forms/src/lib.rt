//! What an expression is that is made of parts: the forms of expressions, the kinds of values, and the
//! faults where the parts don't fit.
//! `shaped` gives the plan's expression with its kind, or the plan's condition, of a form over the
//! senses of its parts, or refuses the form at its place.
//! What matters: `shaped`'s clause, over specs/Senses.antt (which parts fit a form), specs/Kinds.antt
//! and specs/Faults.antt (which of several faults counts).
//! It knows no names: query_readings finds columns and functions.
#![tactic(auto)]

mod cases;
mod conditions;
mod fault;
mod form;
mod forms;
mod kinds;
mod operations;
mod pairs;
mod sense;

pub use fault::{Cause, Checked, Fault, least, push_faults, refuse};
pub use form::{Form, prod_form, rel_of, sum_form};
pub use forms::shaped;
pub use kinds::{is_number, is_of, is_same_kind};
pub use pairs::shaped_pair;
pub use sense::{Sense, Valued};
