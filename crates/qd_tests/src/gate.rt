//! One state that two threads share.

ghost use Rattle.std.specs.Prelude.{◌≡◌};

use qd_gate::{Gate, GatePass, Machine};
use std::process::Abort;
use std::test::Fail;
use std::thread::{Threads, join};

/// It counts what it was asked.
#[derive(Drop)]
struct Counter {
    count: u64,
}

impl Machine for Counter {
    type Op = u8;

    type Reply = u64;

    ghost terms = { λ _. record { cap = 0; hcap = 0; base = 0 } };

    ghost may_ask = { λ _ _. Unit {0} };

    ghost legal = { λ _ _. Unit {0} };

    ghost stands = { λ _ _. Unit {0} };

    fn step(&mut self, _op: u8) -> u64 {
        self.count = self.count.wrapping_add(1);
        self.count
    }
}

/// Asks a thousand times, and tells how many turns it had.
fn turns(gate: &Gate<Counter>, mut pass: GatePass<Counter>) -> u64
    requires { pass.home ≡ gate.now }
{
    let mut turns: u64 = 0;
    for _ in 0..1000u32 {
        if gate.try_turn(&mut pass, 7).is_ok() {
            turns = turns.wrapping_add(1);
        }
    }
    turns
}

/// The turns of two threads with a pass each.
fn two_at_once<R: Threads + Sync>(
    rt: &R,
    gate: &Gate<Counter>,
    one: GatePass<Counter>,
    two: GatePass<Counter>,
) -> u64
    requires { (one.home ≡ gate.now) × (two.home ≡ gate.now) }
{
    let (first, second) = join(rt, || turns(gate, one), || turns(gate, two));
    first.wrapping_add(second)
}

#[test]
fn each_turn_of_two_threads_is_one_step(rt: HostRuntime) -> Result<(), Fail> {
    let (gate, mut pass) = Gate::new_at(rt.alloc(), Counter { count: 0 }, 0)?;
    let one = gate.split(&mut pass);
    let two = gate.split(&mut pass);
    let had = two_at_once(&rt, &gate, one, two);
    let next = had.wrapping_add(1);
    assert!(rt; matches!(gate.try_turn(&mut pass, 7), Ok(count) if count == next));
    Ok(())
}
