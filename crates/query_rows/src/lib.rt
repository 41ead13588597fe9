//! Queries from their text to their plan, as tests alone.
//! Each table has a line for each query, worked out by hand; docs/QUERY has the rules.
//! What matters: the tables in plans.rt, flows.rt, joins.rt, kinds.rt, names.rt, groups.rt,
//! limits.rt and unsupported.rt; plan_texts.rt shows plans as texts.
//! It gives no function: those that it calls are query_parse's and query_type's.
#![tactic(auto)]

#[cfg(test)]
mod answers;
#[cfg(test)]
mod flows;
#[cfg(test)]
mod groups;
#[cfg(test)]
mod joins;
#[cfg(test)]
mod kinds;
#[cfg(test)]
mod limits;
#[cfg(test)]
mod names;
#[cfg(test)]
mod plan_texts;
#[cfg(test)]
mod plans;
#[cfg(test)]
mod sizes;
#[cfg(test)]
mod unsupported;
