//! A row of states that one thread has.

ghost use Rattle.std.specs.Prelude.{◌≡◌, ◌<◌, Some, length, slice_get};
ghost use Rattle.qd_row.specs.Owns.{StepsAt};

use qd_gate::Machine;
use std::marker::Model;

/// A state for each stripe. Contracts see the states.
#[derive(Drop)]
pub struct OwnRow<M: Machine> {
    states: Vec<M>,
}

impl<M: Machine> Model for OwnRow<M> {
    ghost use Rattle.std.specs.Prelude.{List};

    ghost Value = { List M };

    ghost view = { λ r. r.states.items };
}

impl<M: Machine> OwnRow<M> {
    /// The row of these states.
    pub fn new(states: Vec<M>) -> OwnRow<M>
        ensures { result ≡ states.items }
    {
        OwnRow { states }
    }

    /// How many stripes there are.
    pub fn len(&self) -> usize
        ensures { result ≡ length self.now }
    {
        self.states.len()
    }

    /// Asks a stripe the op.
    pub fn step(&mut self, stripe: usize, op: M::Op) -> M::Reply
        requires stripe { stripe < length self.old }
        requires asked { (s : M) → slice_get self.old stripe ≡ Some s → M.may_ask (M.terms s) op }
        ensures { StepsAt M.terms M.stands M.legal self.old stripe op result self.new }
    {
        self.states[stripe].step(op)
    }
}
