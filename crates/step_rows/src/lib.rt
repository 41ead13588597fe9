//! Rows of streams step by step: their order in time, verdicts, aggregates, operators, windows and
//! flows. Tests alone.
//! Each table has a line for each case, worked out by hand; docs/INPUTS and docs/QUERY have the
//! rules.
//! What matters: verdicts.rt (which records a lane keeps, and when), and grids.rt, flows.rt and
//! flows/sessions.rt (the rows of windows).
//! It gives no function: those that it calls are those of the crates that it names.
#![tactic(auto)]

#[cfg(test)]
mod aggregates;
#[cfg(test)]
mod flows;
#[cfg(test)]
mod grids;
#[cfg(test)]
mod keyed;
#[cfg(test)]
mod marks;
#[cfg(test)]
mod operators;
#[cfg(test)]
mod row_orders;
#[cfg(test)]
mod verdicts;
