//! A listener of one key.
ghost use Rattle.std.specs.Prelude.{◌≡◌, ◌∷◌, [], List, length, slice_get, IfOk, OnErr, option_map};
ghost use Rattle.qd_scheme.specs.declared.key.Event.{Event};
ghost use Rattle.qd_flags.specs.Following.{StandsFor};
ghost use Rattle.qd_flags.specs.Listening.{shown_of, shown_by, floor_index, pair_of};

use crate::NoMemory;
use crate::commits::{Commits, Ingest};
use qd_scheme::{Cells, Event};
use std::alloc::Global;
use std::marker::Model;

/// Whether all events fed are a commit place, or some of them are held back.
#[derive(Clone, Copy, Debug, PartialEq, Eq)]
pub enum Shown {
    Committed,
    Held,
}

/// Is fed with the events of one key, and tells the map and the floor of their last commit place.
///
/// `feed` costs at most the logarithm of the map's size, and where it commits the commit's events times that. What is held back is kept
/// once. `entry` costs the logarithm of the map's size.
#[derive(Drop)]
pub struct Listener {
    commits: Commits,
}

impl Model for Listener {
    ghost use Rattle.qd_flags.specs.Following.{Following};

    ghost Value = { Following };

    ghost view = { λ l. l.commits.now };
}

impl Listener {
    /// A listener that was fed with nothing.
    pub fn new(alloc: Global) -> Result<Listener, NoMemory>
        ensures { IfOk result (λ listener. StandsFor listener []) }
    {
        Ok(Listener {
            commits: Commits::new(alloc),
        })
    }

    /// Feeds one event of the listener's key: `Committed` exactly where all events fed are now a commit place.
    pub fn feed(&mut self, e: &Event) -> Result<Shown, NoMemory>
        ensures fed { (past : List Event) → StandsFor self.old past → IfOk result (λ _. StandsFor self.new (e.now ∷ past)) }
        ensures shown { (past : List Event) → StandsFor self.old past → IfOk result (λ answer. answer ≡ shown_of (e.now ∷ past)) }
        ensures err { OnErr result (self.new ≡ self.old) }
    {
        self.commits.reserve(1)?;
        Ok(shown_by(self.commits.ingest(e)))
    }

    /// The floor of the last commit place, `None` before the first.
    pub fn floor(&self) -> Option<u64>
        ensures { result ≡ floor_index self.now.floor }
    {
        match self.commits.floor() {
            Some(floor) => Some(floor.index),
            None => None,
        }
    }

    /// How many entries the map of the last commit place has.
    pub fn len(&self) -> usize
        ensures { result ≡ length self.now.entries }
    {
        self.commits.len() as usize
    }

    /// The index and the cells at a place in falling order of index, from 0.
    pub fn entry(&self, i: usize) -> Option<(u64, Cells)>
        ensures { result ≡ option_map pair_of (slice_get self.now.entries i) }
    {
        match self.commits.nth(i) {
            Some(entry) => Some((entry.index, entry.cells)),
            None => None,
        }
    }
}

/// What a listener answers to an event that did this.
fn shown_by(answer: Ingest) -> Shown
    ensures { result ≡ shown_by answer }
{
    match answer {
        Ingest::Update | Ingest::Snapshot => Shown::Committed,
        Ingest::Ignored | Ingest::Held => Shown::Held,
    }
}
