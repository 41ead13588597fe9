//! The program over files and a sink in memory, by rows worked out by hand. Tests alone.
//! A case is a query, an inputs document and the files of its segments.
//! What matters: first.rt (the first rows), windows.rt, flows.rt, joins.rt, references.rt, lanes.rt,
//! columns.rt, documents.rt (what is refused), limits.rt, statuses.rt; examples.rt prints the folders
//! of examples/.
//! It gives no function: the one that it calls is jobs_top's `top`.
#![tactic(auto)]

#[cfg(test)]
mod cases;
#[cfg(test)]
mod columns;
#[cfg(test)]
mod documents;
#[cfg(test)]
mod examples;
#[cfg(test)]
mod first;
#[cfg(test)]
mod flows;
#[cfg(test)]
mod joins;
#[cfg(test)]
mod lanes;
#[cfg(test)]
mod limits;
#[cfg(test)]
mod references;
#[cfg(test)]
mod statuses;
#[cfg(test)]
mod windows;
