//! What the text of an expression gives, from its tokens to its printed value, worked out by hand.
//! Tests alone.
//! What matters: a table for each subject, a row of it an expression and its printed value over
//! the columns of columns.rt; answers.rt reads, plans and carries out the query of a row.
//! A row on numbers goes to whole_numbers.rt or decimals.rt, on texts to texts.rt, on moments to
//! dates.rt or date_parts.rt, on conditions to comparisons.rt, logic.rt, lists.rt or patterns.rt,
//! on branches to choices.rt, on casts to text_casts.rt or casts.rt, over several rows to
//! aggregates.rt.
//! It gives no function: those that it calls are query_parse's, query_type's and query_meaning's.
#![tactic(auto)]

#[cfg(test)]
mod aggregates;
#[cfg(test)]
mod answers;
#[cfg(test)]
mod casts;
#[cfg(test)]
mod choices;
#[cfg(test)]
mod columns;
#[cfg(test)]
mod comparisons;
#[cfg(test)]
mod date_parts;
#[cfg(test)]
mod dates;
#[cfg(test)]
mod decimals;
#[cfg(test)]
mod lists;
#[cfg(test)]
mod logic;
#[cfg(test)]
mod patterns;
#[cfg(test)]
mod text_casts;
#[cfg(test)]
mod texts;
#[cfg(test)]
mod whole_numbers;
