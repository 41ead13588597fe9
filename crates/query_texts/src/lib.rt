//! Queries as texts: read, refused at their place, printed, also from a copy of their tree; and
//! readings of small trees. Tests alone.
//! Each table has a line for each query, worked out by hand; docs/QUERY has the rules.
//! What matters: the tables in tokens.rt, forms.rt, refusals.rt, limits.rt and canonical.rt; of
//! copies, the tables in copies.rt and places.rt; readings.rt has the trees.
//! It gives no function: those that it calls are query_tokens', query_parse's, query_print's,
//! tree_copies' and query_senses'.
#![tactic(auto)]

#[cfg(test)]
mod answers;
#[cfg(test)]
mod canonical;
#[cfg(test)]
mod copies;
#[cfg(test)]
mod forms;
#[cfg(test)]
mod limits;
#[cfg(test)]
mod places;
#[cfg(test)]
mod readings;
#[cfg(test)]
mod refusals;
#[cfg(test)]
mod tokens;
