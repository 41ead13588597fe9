//! Tests on a clock in memory, and on a gate that lets all pass.

use clock_gate::{Clock, Gate, MemClock, NoGate};
use event_value::{Memory, Seq};
use std::alloc::Global;
use std::test::Fail;
use tick_time::{LIMIT, Moment};

/// A clock of the moments 3, 1 and the last one below `LIMIT`.
fn three_moments(alloc: Global) -> Result<MemClock, Memory> {
    let mut moments = Seq::empty(alloc);
    moments.push(Moment::of_count(3))?;
    moments.push(Moment::of_count(1))?;
    moments.push(Moment::of_count(LIMIT as u64 - 1))?;
    Ok(MemClock::of(moments))
}

#[test]
fn a_clock_gives_its_moments_and_then_the_last_one_again(rt: HostRuntime) -> Result<(), Fail> {
    let mut clock = three_moments(rt.alloc())?;
    let wanted = [
        3,
        1,
        325_036_799_999_999_999,
        325_036_799_999_999_999,
        325_036_799_999_999_999,
    ];
    for &ticks in &wanted {
        assert!(rt; clock.now().count() == ticks, "{ticks}");
    }
    Ok(())
}

#[test]
fn a_clock_of_one_moment_stands_still(rt: HostRuntime) -> Result<(), Fail> {
    let mut moments = Seq::empty(rt.alloc());
    moments.push(Moment::of_count(7))?;
    let mut clock = MemClock::of(moments);
    for _ in 0..3 {
        assert!(rt; clock.now().count() == 7);
    }
    Ok(())
}

/// Lets workers pass a gate.
fn pass_all<G: Gate>(gate: &G, workers: &[u32]) {
    for &worker in workers {
        gate.pass(worker);
    }
}

#[test]
fn a_gate_lets_every_worker_pass(_rt: HostRuntime) {
    pass_all(&NoGate, &[0, 1, 33, u32::MAX]);
}
