//! A row of gates, and the passes of a client on it.

ghost use Rattle.std.specs.Prelude.{◌≡◌, ◌<◌, ℕ, [], Some, IfOk, OnOk, OnErr, length, slice_get};
ghost use Rattle.std.specs.List.{AllZip};
ghost use Rattle.qd_gate.specs.Passes.{Pass};
ghost use Rattle.qd_row.specs.Passes.{IsChild, IsSound};
ghost use Rattle.qd_row.specs.Rows.{homes, AddsFirst, TurnsAt, JoinsAll};

use qd_gate::{Gate, GatePass, Machine, NoMemory, NoTurn};
use std::alloc::Global;
use std::marker::Model;

/// A gate for each stripe. Contracts see which gates they are.
#[derive(Drop)]
pub struct Row<M: Machine> {
    gates: Vec<Gate<M>>,
}

impl<M: Machine> Model for Row<M> {
    ghost use Rattle.std.specs.Prelude.{List};
    ghost use Rattle.std.specs.Coded.{coded_list};
    ghost use Rattle.atomic_table.specs.Seated.{TableId, table_id_coded};

    ghost Value = { List TableId };

    ghost coded = { coded_list table_id_coded };

    ghost view = { λ r. r.gates.items };
}

/// A pass for each stripe. Contracts see the passes.
#[derive(Drop)]
pub struct RowPass<M: Machine> {
    passes: Vec<GatePass<M>>,
}

impl<M: Machine> Model for RowPass<M> {
    ghost use Rattle.std.specs.Prelude.{List};
    ghost use Rattle.qd_gate.specs.Passes.{Pass};

    ghost Value = { List (Pass M.Op M.Reply) };

    ghost view = { λ r. r.passes.items };
}

impl<M: Machine> RowPass<M> {
    /// Tells what is true of each pass. It changes nothing.
    pub fn look(&self)
        ensures { (i : ℕ) (p : Pass M.Op M.Reply) → slice_get self.now i ≡ Some p → IsSound M.legal p }
    {
        for i in 0..self.passes.len() {
            self.passes[i].look();
        }
    }
}

impl<M: Machine> Row<M> {
    /// A row without stripes, and the passes on it.
    pub fn empty(alloc: Global) -> (Row<M>, RowPass<M>)
        ensures gates { result.0 ≡ [] }
        ensures passes { result.1 ≡ [] }
    {
        let row = Row {
            gates: Vec::new(alloc),
        };
        let passes = RowPass {
            passes: Vec::new(alloc),
        };
        (row, passes)
    }

    /// One more stripe, whose gate has this state and a word that begins at 0, and the first pass on it. After want of memory all is as
    /// before, and the state is dropped.
    pub fn add(&mut self, alloc: Global, passes: &mut RowPass<M>, state: M) -> Result<(), NoMemory>
        requires empty { M.stands state [] × M.legal (M.terms state) [] }
        requires home { homes passes.old ≡ self.old }
        ensures home { homes passes.new ≡ self.new }
        ensures added { OnOk result (AddsFirst (M.terms state) passes.old passes.new) }
        ensures same { OnErr result (passes.new ≡ passes.old) }
    {
        self.gates.reserve(1)?;
        passes.passes.reserve(1)?;
        let (gate, pass) = Gate::new(alloc, state)?;
        let _ = self.gates.push(gate);
        let _ = passes.passes.push(pass);
        Ok(())
    }

    /// How many stripes there are.
    pub fn len(&self) -> usize
        ensures { result ≡ length self.now }
    {
        self.gates.len()
    }

    /// Asks a stripe the op, as one turn of its gate. It neither waits nor takes memory.
    pub fn try_turn(
        &self,
        passes: &mut RowPass<M>,
        stripe: usize,
        op: M::Op,
    ) -> Result<M::Reply, NoTurn<M::Op>>
        requires home { homes passes.old ≡ self.now }
        requires stripe { stripe < length self.now }
        requires asked { (p : Pass M.Op M.Reply) → slice_get passes.old stripe ≡ Some p → M.may_ask p.terms op }
        ensures { TurnsAt M.legal passes.old stripe op result passes.new }
    {
        let pass = &mut passes.passes[stripe];
        self.gates[stripe].try_turn(pass, op)
    }

    /// A further pass on each gate, which has seen as much and made no call. After want of memory all is as before.
    pub fn split(&self, alloc: Global, passes: &mut RowPass<M>) -> Result<RowPass<M>, NoMemory>
        requires { homes passes.old ≡ self.now }
        ensures same { passes.new ≡ passes.old }
        ensures fresh { IfOk result (λ r. AllZip IsChild passes.old r) }
    {
        let mut fresh = Vec::with_capacity(alloc, self.gates.len())?;
        for i in 0..self.gates.len() {
            let pass = &mut passes.passes[i];
            fresh.push(self.gates[i].split(pass))?;
        }
        Ok(RowPass { passes: fresh })
    }

    /// Each pass takes in the other one of its stripe, and has then seen what either had.
    pub fn join(&self, passes: &mut RowPass<M>, other: RowPass<M>)
        requires home { homes passes.old ≡ self.now }
        requires same { homes other ≡ self.now }
        ensures { JoinsAll M.legal passes.old other passes.new }
    {
        let mut others = other.passes;
        while let Some(pass) = others.pop() {
            let i = others.len();
            self.gates[i].join(&mut passes.passes[i], pass);
        }
    }
}
