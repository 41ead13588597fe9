//! The rows of plans, and cores that are fed and cut in many orders, worked out by hand. Tests
//! alone.
//! What matters: rows.rt (what the steps of a plan give; plans.rt builds a plan as a table spells
//! it), schedules.rt (when a core gives its rows; counts.rt has its plans).
//! It gives no function: those that it calls are query_meaning's and job_core's.
#![tactic(auto)]

#[cfg(test)]
mod counts;
#[cfg(test)]
mod parts;
#[cfg(test)]
mod plans;
#[cfg(test)]
mod rows;
#[cfg(test)]
mod schedules;
