//! What a run asks of the outside besides files: the present moment, and leave to go on.
//! `Clock` gives moments, and may tell which it gave; `Gate` is passed by workers before they work.
//! What matters: clause `given` of `Clock::now`, and clause `moment` of `MemClock::now`.
//! The meaning: specs/Given.antt, specs/MemClock.antt.
//! `MemClock` is a clock in memory over a fixed list of moments, and `NoGate` lets all pass.
//! The system's clock is left to the crate of the adapters.
#![tactic(auto)]

mod clock;
mod gate;
mod mem_clock;

pub use clock::Clock;
pub use gate::{Gate, NoGate};
pub use mem_clock::MemClock;
