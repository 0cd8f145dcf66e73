//! The events of one key from commit place to commit place.
ghost use Rattle.std.specs.Prelude.{◌≡◌, ◌+◌, ◌^◌, ◌<◌, ◌≤◌, ◌∷◌, [], List, length, slice_get, IsOk, OnOk, if◌then◌else◌};
ghost use Rattle.qd_scheme.specs.declared.key.Event.{Event};
ghost use Rattle.qd_entries.specs.Entries.{entry_at_or_below};
ghost use Rattle.qd_flags.specs.Bits.{is_pending, is_remove, is_begin, is_snip};
ghost use Rattle.qd_flags.specs.Shown.{ends};
ghost use Rattle.qd_flags.specs.Following.{StandsFor, nothing, answer_to, applied, all_applied, takes, forgotten, with_held, with_commit, end_of, next_end};

use crate::flags::Flags;
use qd_entries::{Entries, Entry};
use qd_scheme::Event;
use std::alloc::{AllocError, Global};
use std::marker::Model;

/// An index down to which a snapshot goes, and whether it was snipped there.
#[derive(Clone, Copy, Debug, PartialEq, Eq)]
pub struct Floor {
    pub index: u64,
    pub snipped: bool,
}

/// What an event did: it was ignored since no snapshot was begun, it is held back, or it made a commit, by whether the commit has a BEGIN.
#[derive(Clone, Copy, Debug, PartialEq, Eq)]
pub enum Ingest {
    Ignored,
    Held,
    Update,
    Snapshot,
}

/// What the events of one key show at their last commit place, and the events that are held back after it.
#[derive(Drop)]
pub struct Commits {
    entries: Entries,
    floor: Option<Floor>,
    // The events held back, or those of the last commit until the next event comes.
    events: Vec<Event>,
    committed: bool,
    begun: bool,
    end: Option<Floor>,
}

impl Model for Commits {
    ghost use Rattle.qd_flags.specs.Following.{Tracked};

    ghost Value = { Tracked };

    ghost use Rattle.qd_flags.specs.Commits.{tracked, HasRoom};

    ghost view = { tracked };

    ghost invariant = { HasRoom };
}

/// The event goes on with a transaction.
#[tactic(auto, unfolding(crate::specs::Bits::is_pending))]
pub fn is_tx_pending(e: &Event) -> bool
    ensures { result ≡ is_pending e.now }
{
    e.flags & Flags::TX_PENDING != 0
}

/// The event takes out what stands at its index.
#[tactic(auto, unfolding(crate::specs::Bits::is_remove))]
pub fn is_removal(e: &Event) -> bool
    ensures { result ≡ is_remove e.now }
{
    e.flags & Flags::REMOVE_EVENT != 0
}

/// The event begins a snapshot.
#[tactic(auto, unfolding(crate::specs::Bits::is_begin))]
pub fn begins_snapshot(e: &Event) -> bool
    ensures { result ≡ is_begin e.now }
{
    e.flags & Flags::SNAPSHOT_BEGIN != 0
}

/// The event is the last one of a snapshot.
#[tactic(auto, unfolding(crate::specs::Bits::is_end, crate::specs::Bits::is_snip))]
fn ends_snapshot(e: &Event) -> bool
    ensures { result ≡ ends e.now }
{
    let flags = e.flags;
    flags & Flags::SNAPSHOT_END != 0 || flags & Flags::SNAPSHOT_SNIP != 0
}

/// The event is the last one of a snapshot after which no more data comes.
#[tactic(auto, unfolding(crate::specs::Bits::is_snip))]
fn is_snipped(e: &Event) -> bool
    ensures { result ≡ is_snip e.now }
{
    e.flags & Flags::SNAPSHOT_SNIP != 0
}

/// The floor of an event that ends a snapshot.
fn end_at(e: &Event) -> Option<Floor>
    ensures { result ≡ end_of e.now }
{
    if !ends_snapshot(e) {
        return None;
    }
    Some(Floor {
        index: e.index,
        snipped: is_snipped(e),
    })
}

/// The first end at or after the last BEGIN, after one more event.
fn end_after(end: Option<Floor>, e: &Event) -> Option<Floor>
    ensures { result ≡ next_end end e.now }
{
    if begins_snapshot(e) {
        return end_at(e);
    }
    match end {
        Some(floor) => Some(floor),
        None => end_at(e),
    }
}

/// Applies an event at or above a floor.
fn apply(entries: &mut Entries, floor: u64, e: &Event)
    requires { 0 < entries.old.spare }
    ensures entries { entries.new.entries ≡ applied floor e.now entries.old.entries }
    ensures spare { entries.old.spare ≤ entries.new.spare + 1 }
{
    if floor > e.index {
        return;
    }
    if is_removal(e) {
        entries.remove(e.index);
        return;
    }
    entries.put(&Entry {
        index: e.index,
        cells: e.cells,
    });
}

/// Applies events at or above a floor, in order.
fn apply_all(entries: &mut Entries, floor: u64, events: &[Event])
    requires { length events.now ≤ entries.old.spare }
    ensures entries { entries.new.entries ≡ all_applied floor events.now entries.old.entries }
    ensures spare { entries.old.spare ≤ entries.new.spare + length events.now }
{
    for e in events {
        apply(entries, floor, e);
    }
}

impl Commits {
    /// No events came.
    pub fn new(alloc: Global) -> Commits
        ensures now { result.now ≡ nothing }
        ensures stands { StandsFor result.now [] }
    {
        Commits {
            entries: Entries::new(alloc),
            floor: None,
            events: Vec::new(alloc),
            committed: false,
            begun: false,
            end: None,
        }
    }

    /// The floor of the last commit place.
    pub fn floor(&self) -> Option<Floor>
        ensures { result ≡ self.now.now.floor }
    {
        self.floor
    }

    /// How many entries the map of the last commit place has.
    pub fn len(&self) -> u32
        ensures len { result ≡ length self.now.now.entries }
    {
        self.entries.len()
    }

    /// The entry at a place in falling order of index, from 0.
    pub fn nth(&self, place: usize) -> Option<Entry>
        ensures { result ≡ slice_get self.now.now.entries place }
    {
        self.entries.nth(place)
    }

    /// The entry with the greatest index at or below this one.
    pub fn at_or_below(&self, index: u64) -> Option<Entry>
        ensures { result ≡ entry_at_or_below index self.now.now.entries }
    {
        self.entries.at_or_below(index)
    }

    /// The events held back, in order.
    pub fn held(&self) -> &[Event]
        ensures held { result.now ≡ self.now.now.held }
        ensures few { length self.now.now.held < 2 ^ 32 }
    {
        if self.committed {
            return &self.events[..0];
        }
        let _few = self.entries.len();
        &self.events
    }

    /// The events of the commit that the last event made, without those before the last BEGIN among them; none where it made none.
    pub fn batch(&self) -> &[Event]
        ensures { result.now ≡ self.now.now.batch }
    {
        if self.committed {
            &self.events
        } else {
            &self.events[..0]
        }
    }

    /// How many events there is room for.
    fn spare(&self) -> u32
        ensures { result ≡ self.now.spare }
    {
        let held = self.held().len();
        let room = self.events.capacity().min(self.entries.spare() as usize);
        (room - held) as u32
    }

    /// Makes room for so many events. Memory is wanted only where there is too little room; after that there may be more than before.
    pub fn reserve(&mut self, events: u32) -> Result<(), AllocError>
        ensures ok { OnOk result (events ≤ self.new.spare) }
        ensures now { self.new.now ≡ self.old.now }
        ensures spare { self.old.spare ≤ self.new.spare }
        ensures fits { events ≤ self.old.spare → IsOk result }
    {
        if events <= self.spare() {
            return Ok(());
        }
        let held = self.held().len() as u32;
        let Some(entries) = held.checked_add(events) else {
            return Err(AllocError);
        };
        self.entries.reserve(entries)?;
        self.events.reserve(events as usize)
    }

    /// The state is that of no events; the room stays.
    pub fn clear(&mut self)
        ensures now { self.new.now ≡ nothing }
        ensures spare { self.old.spare ≤ self.new.spare }
    {
        self.entries.clear();
        self.events.clear();
        self.floor = None;
        self.committed = false;
        self.begun = false;
        self.end = None;
    }

    /// The events of the last commit are told no more.
    fn forget(&mut self)
        ensures now { self.new.now ≡ forgotten self.old.now }
        ensures spare { self.new.spare ≡ self.old.spare }
    {
        if self.committed {
            self.events.clear();
            self.committed = false;
        }
    }

    /// The event begins a snapshot, or one was begun before.
    fn takes(&self, e: &Event) -> bool
        ensures { result ≡ takes e.now self.now.now }
    {
        begins_snapshot(e) || self.begun || self.floor.is_some()
    }

    /// The event is held back.
    fn hold(&mut self, e: &Event)
        requires spare { 0 < self.old.spare }
        requires forgotten { self.old.now.batch ≡ [] }
        ensures now { self.new.now ≡ with_held e.now self.old.now }
        ensures spare { self.old.spare ≤ self.new.spare + 1 }
    {
        if begins_snapshot(e) {
            self.events.clear();
            self.begun = true;
        }
        self.committed = false;
        self.end = end_after(self.end, e);
        let _ = self.events.push(*e);
    }

    /// What is held back becomes a commit with this floor.
    fn commit(&mut self, floor: Floor) -> Ingest
        requires batch { self.old.now.batch ≡ [] }
        ensures now { self.new.now ≡ with_commit floor self.old.now }
        ensures answer { result ≡ (if self.old.now.begun then Ingest.Snapshot else Ingest.Update) }
        ensures spare { self.old.spare ≤ self.new.spare }
    {
        let begun = self.begun;
        if begun {
            self.entries.clear();
        }
        apply_all(&mut self.entries, floor.index, &self.events);
        self.floor = Some(floor);
        self.committed = true;
        self.begun = false;
        self.end = Some(floor);
        if begun {
            Ingest::Snapshot
        } else {
            Ingest::Update
        }
    }

    /// One more event comes. No memory is taken.
    pub fn ingest(&mut self, e: &Event) -> Ingest
        requires { 0 < self.old.spare }
        ensures stands { (past : List Event) → StandsFor self.old.now past → StandsFor self.new.now (e.now ∷ past) }
        ensures answer { (past : List Event) → StandsFor self.old.now past → result ≡ answer_to (e.now ∷ past) }
        ensures few { length self.new.now.held + length self.new.now.batch ≤ length self.old.now.held + 1 }
        ensures more { length self.new.now.entries + length self.new.now.held ≤ length self.old.now.entries + length self.old.now.held + 1 }
        ensures spare { self.old.spare ≤ self.new.spare + 1 }
    {
        self.forget();
        if !self.takes(e) {
            return Ingest::Ignored;
        }
        self.hold(e);
        if is_tx_pending(e) {
            return Ingest::Held;
        }
        match self.end {
            Some(floor) => self.commit(floor),
            None => Ingest::Held,
        }
    }
}
