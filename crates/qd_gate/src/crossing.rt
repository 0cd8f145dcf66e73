//! A gate, its passes and the state behind it may cross threads, whatever the machine is.
use crate::gate::{Gate, GatePass};
use crate::machine::Machine;

fn may_be_sent<T: Send>(_value: &T) {}

fn may_be_shared<T: Sync>(_value: &T) {}

// Proved for each machine: a state, a gate and a pass may be sent to a thread, and threads may share a gate.
fn may_cross<M: Machine>(state: &M, gate: &Gate<M>, pass: &GatePass<M>) {
    may_be_sent(state);
    may_be_sent(gate);
    may_be_sent(pass);
    may_be_shared(gate);
}
