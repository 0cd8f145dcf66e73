ghost use Rattle.std.specs.Prelude.{◌≡◌};
ghost use Rattle.qd_bell.specs.Ringing.{Rises, WaitTells, next_rung, one_more};

use crate::bell::{Bell, Rung};
use std::sync::Wait;

/// A bell in memory. A wait answers what the list has at its number, from 0, and Shut past the end of the list.
#[derive(Drop)]
pub struct ListBell {
    rungs: Vec<Rung>,
    waits: usize,
    shuts: u64,
    made: u64,
}

impl ListBell {
    /// A bell on which nobody waited yet.
    pub fn new(rungs: Vec<Rung>) -> ListBell
        ensures shuts { ⟦<ListBell as Bell>⟧.shuts result ≡ 0 }
        ensures made { ⟦<ListBell as Bell>⟧.made result ≡ 0 }
        ensures rungs { (result.rungs ≡ rungs) × (result.waits ≡ 0) }
    {
        ListBell {
            rungs,
            waits: 0,
            shuts: 0,
            made: 0,
        }
    }

    /// How many shuts it has seen.
    pub fn shuts(&self) -> u64
        ensures { result ≡ ⟦<ListBell as Bell>⟧.shuts self.now }
    {
        self.shuts
    }

    /// How many calls of `shut` were made on it.
    pub fn made(&self) -> u64
        ensures { result ≡ ⟦<ListBell as Bell>⟧.made self.now }
    {
        self.made
    }

    fn next(&self) -> Rung
        ensures { result ≡ next_rung self.now }
    {
        match self.rungs.get(self.waits) {
            Some(rung) => *rung,
            None => Rung::Shut,
        }
    }
}

impl Bell for ListBell {
    ghost shuts = { λ b. b.shuts };

    ghost made = { λ b. b.made };

    // It answers exactly what the list says.
    fn wait<R: Wait>(&mut self, _rt: &R) -> Rung
        ensures tells { WaitTells result self.old.shuts self.new.shuts }
        ensures made { self.new.made ≡ self.old.made }
        ensures listed { result ≡ next_rung self.old }
        ensures counted { self.new.waits ≡ one_more self.old.waits }
        ensures rungs { self.new.rungs ≡ self.old.rungs }
    {
        let rung = self.next();
        self.waits = self.waits.saturating_add(1);
        if matches!(&rung, Rung::Shut) {
            self.shuts = self.shuts.saturating_add(1);
        }
        rung
    }

    fn ring<R: Wait>(&mut self, _rt: &R) {}

    fn shut<R: Wait>(&mut self, _rt: &R) {
        self.shuts = self.shuts.saturating_add(1);
        self.made = self.made.saturating_add(1);
    }
}
