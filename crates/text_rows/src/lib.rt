//! Moments, words, sums of dates, printed values and casts, as tests alone.
//! Each table has a line for each case, worked out by hand; docs/INPUTS has the rules.
//! What matters: the tables in moments.rt, words.rt, date_arithmetic.rt, printed.rt and casts.rt;
//! cell.rt has the values that they hold.
//! It gives no function: those that it calls are tick_time's and event_value's.
#![tactic(auto)]

#[cfg(test)]
mod casts;
#[cfg(test)]
mod cell;
#[cfg(test)]
mod date_arithmetic;
#[cfg(test)]
mod moments;
#[cfg(test)]
mod printed;
#[cfg(test)]
mod words;
