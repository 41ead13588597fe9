//! Fields, batches and cores as bytes, by rows worked out by hand. Tests alone.
//! What matters: batches.rt has the batch of docs/FORMATS, byte by byte, and cores.rt a core; both
//! are cut at every byte, and every bit of them is turned.
//! It gives no function: those that it calls are field_forms' and checkpoint_bytes'.
#![tactic(auto)]

#[cfg(test)]
mod batches;
#[cfg(test)]
mod cores;
#[cfg(test)]
mod fields;
#[cfg(test)]
mod lengths;
