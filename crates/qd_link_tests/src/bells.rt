//! Bells of one tower, with threads: nobody who waits misses the last ring, and a shut wakes its link.

ghost use Rattle.std.specs.Prelude.{◌≤◌};
ghost use Rattle.std.specs.Arc.{arc_value};
ghost use Rattle.qd_bell.specs.Places.{place_count};

use qd_bell::{Bell, RealBell, Rung, Tower};
use std::alloc::{AllocError, Global};
use std::process::Abort;
use std::sync::atomic::AtomicU64;
use std::sync::atomic::Ordering::SeqCst;
use std::sync::{Arc, Wait};
use std::test::Fail;
use std::thread::{Threads, join, yield_now};

/// How many rings each of four threads makes.
const RINGS: u64 = 250_000;

/// What the threads share: how many rings were begun, and how many sides saw the last one.
#[derive(Drop)]
struct Counts {
    begun: AtomicU64,
    there: AtomicU64,
}

/// Waits until its link is shut. Whether it saw the last ring before.
fn wait_on<R: Wait>(rt: &R, mut bell: RealBell, counts: &Counts) -> bool {
    let mut is_there = false;
    for _ in rt.forever() {
        if !is_there && counts.begun.load(SeqCst) == 4 * RINGS {
            is_there = true;
            counts.there.fetch_add(1, SeqCst);
        }
        if matches!(bell.wait(rt), Rung::Shut) {
            break;
        }
    }
    is_there
}

/// Rings often.
fn ring_often<R: Wait>(rt: &R, mut bell: RealBell, counts: &Counts) -> RealBell {
    for _ in 0..RINGS {
        counts.begun.fetch_add(1, SeqCst);
        bell.ring(rt);
    }
    bell
}

/// Rings by two bells at once.
fn ring_by_two<R: Threads + Wait + Sync>(
    rt: &R,
    one: RealBell,
    two: RealBell,
    counts: &Counts,
) -> (RealBell, RealBell) {
    join(
        rt,
        move || ring_often(rt, one, counts),
        move || ring_often(rt, two, counts),
    )
}

/// Leaves time to those that wait, until so many saw the last ring.
fn await_all(counts: &Counts, links: u64) {
    for _ in 0..100_000_000u64 {
        if counts.there.load(SeqCst) == links {
            return;
        }
        yield_now();
    }
}

/// The bells of two links that ring, two of each.
#[derive(Drop)]
struct Ringers {
    first: (RealBell, RealBell),
    second: (RealBell, RealBell),
}

/// Rings by four bells at once, and shuts both links once both have seen the last ring.
fn ring_and_shut<R: Threads + Wait + Sync>(rt: &R, ringers: Ringers, counts: &Counts) {
    let Ringers { first, second } = ringers;
    let (mut ones, _) = join(
        rt,
        move || ring_by_two(rt, first.0, first.1, counts),
        move || ring_by_two(rt, second.0, second.1, counts),
    );
    await_all(counts, 2);
    ones.0.shut(rt);
    ones.1.shut(rt);
}

/// Waits on two links at once. Whether each saw the last ring before it was shut.
fn wait_on_two<R: Threads + Wait + Sync>(
    rt: &R,
    one: RealBell,
    two: RealBell,
    counts: &Counts,
) -> (bool, bool) {
    join(
        rt,
        move || wait_on(rt, one, counts),
        move || wait_on(rt, two, counts),
    )
}

/// Whether each of two links that wait saw the last of the rings of four others.
fn reach_both<R: Threads + Wait + Sync>(
    rt: &R,
    waiting: (RealBell, RealBell),
    ringers: Ringers,
    counts: &Counts,
) -> (bool, bool) {
    let (saw, _) = join(
        rt,
        move || wait_on_two(rt, waiting.0, waiting.1, counts),
        move || ring_and_shut(rt, ringers, counts),
    );
    saw
}

/// A bell of each of two links.
fn two_bells(tower: &Arc<Tower>) -> Result<(RealBell, RealBell), AllocError>
    requires { 2 ≤ place_count (arc_value tower.now) }
{
    Ok((RealBell::new(tower, 0)?, RealBell::new(tower, 1)?))
}

/// Two links that wait, and two bells of each that ring.
fn new_bells(alloc: Global) -> Result<((RealBell, RealBell), Ringers), AllocError> {
    let tower = Arc::new(alloc, Tower::new(alloc, 2)?)?;
    let waiting = two_bells(&tower)?;
    let first = two_bells(&tower)?;
    let second = two_bells(&tower)?;
    Ok((waiting, Ringers { first, second }))
}

#[test]
fn each_link_sees_the_last_of_a_million_rings(rt: HostRuntime) -> Result<(), Fail> {
    let (waiting, ringers) = new_bells(rt.alloc())?;
    let counts = Counts {
        begun: AtomicU64::new(0),
        there: AtomicU64::new(0),
    };
    let (first, second) = reach_both(&rt, waiting, ringers, &counts);
    assert!(rt; first && second);
    Ok(())
}
