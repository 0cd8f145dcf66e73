//! The state of one key.
ghost use Rattle.std.specs.Prelude.{◌≡◌, ◌+◌, ◌^◌, ◌<◌, ◌≤◌, ◌∷◌, [], List, length, IsOk, OnOk, IfOk, IfSome, Some, None, option_map, if◌then◌else◌};
ghost use Rattle.qd_scheme.specs.declared.key.Event.{Event};
ghost use Rattle.qd_entries.specs.Entries.{AllBelow, entry_at_or_below};
ghost use Rattle.qd_flags.specs.Bits.{is_begin};
ghost use Rattle.qd_flags.specs.Following.{answer_to, nothing};
ghost use Rattle.qd_flags.specs.Listening.{pair_of};
ghost use Rattle.qd_hist_key.specs.Keeping.{StandsFor, Fits, FewCells, floor_and_snip, snip_floor};

use qd_flags::{Commits, Ingest, NoMemory, begins_snapshot};
use qd_scheme::{Cells, Event};
use std::alloc::Global;
use std::marker::Model;

/// What is kept of the events of one key since it was last unwanted.
///
/// An event costs at most the logarithm of the number of entries kept, and where it makes a commit the commit's events times that. What is
/// held back is kept once.
#[derive(Drop)]
pub struct KeyState {
    commits: Commits,
    width: Option<u8>,
}

impl Model for KeyState {
    ghost use Rattle.qd_hist_key.specs.Kept.{Kept};

    ghost Value = { Kept };

    ghost use Rattle.qd_hist_key.specs.Inside.{kept, HasPast};

    ghost view = { kept };

    ghost invariant = { HasPast };
}

impl KeyState {
    /// No events came, and there is no room.
    pub fn new(alloc: Global) -> Result<KeyState, NoMemory>
        ensures stands { IfOk result (λ state. StandsFor state []) }
        ensures now { IfOk result (λ state. state.now ≡ nothing) }
        ensures width { IfOk result (λ state. state.width ≡ None) }
    {
        Ok(KeyState {
            commits: Commits::new(alloc),
            width: None,
        })
    }

    /// Makes room for so many events. Memory is wanted only where there is too little room; after that there may be more than before.
    pub fn reserve(&mut self, events: u32) -> Result<(), NoMemory>
        ensures ok { OnOk result (events ≤ self.new.spare) }
        ensures spare { self.old.spare ≤ self.new.spare }
        ensures now { self.new.now ≡ self.old.now }
        ensures width { self.new.width ≡ self.old.width }
        ensures fits { events ≤ self.old.spare → IsOk result }
    {
        self.commits.reserve(events)
    }

    /// One more event of the key. No memory is taken.
    pub fn ingest(&mut self, e: &Event) -> Ingest
        requires { 0 < self.old.spare }
        ensures stands { (past : List Event) → StandsFor self.old past → StandsFor self.new (e.now ∷ past) }
        ensures answer { (past : List Event) → StandsFor self.old past → result ≡ answer_to (e.now ∷ past) }
        ensures few { length self.new.now.held + length self.new.now.batch ≤ length self.old.now.held + 1 }
        ensures more { length self.new.now.entries + length self.new.now.held ≤ length self.old.now.entries + length self.old.now.held + 1 }
        ensures spare { self.old.spare ≤ self.new.spare + 1 }
    {
        see_fits(e);
        self.width = width_after(self.width, e);
        self.commits.ingest(e)
    }

    /// The floor of the last commit, and whether it was snipped there.
    pub fn floor(&self) -> Option<(u64, bool)>
        ensures floor { result ≡ option_map floor_and_snip self.now.now.floor }
        ensures low { IfSome self.now.now.floor (λ f. f.index < 2 ^ 64) }
    {
        match self.commits.floor() {
            Some(floor) => Some((floor.index, floor.snipped)),
            None => None,
        }
    }

    /// The floor of the last commit, if it was snipped there.
    pub fn snipped_to(&self) -> Option<u64>
        ensures { result ≡ snip_floor self.now.now.floor }
    {
        match self.commits.floor() {
            Some(floor) if floor.snipped => Some(floor.index),
            _ => None,
        }
    }

    /// How many entries the map of the last commit has.
    pub fn kept(&self) -> u32
        ensures len { result ≡ length self.now.now.entries }
        ensures low { AllBelow (2 ^ 64) self.now.now.entries }
    {
        self.commits.len()
    }

    /// How many events are held back.
    pub fn held(&self) -> u32
        ensures { result ≡ length self.now.now.held }
    {
        self.commits.held().len() as u32
    }

    /// The entry of the map with the greatest index at or below this one.
    pub fn sweep_from(&self, index: u64) -> Option<(u64, Cells)>
        ensures { result ≡ option_map pair_of (entry_at_or_below index self.now.now.entries) }
    {
        match self.commits.at_or_below(index) {
            Some(entry) => Some((entry.index, entry.cells)),
            None => None,
        }
    }

    /// The events of the commit that the last event made, without those before the last BEGIN among them; none where it made none.
    pub fn batch(&self) -> &[Event]
        ensures { result.now ≡ self.now.now.batch }
    {
        self.commits.batch()
    }

    /// How many cells the last BEGIN event has.
    pub fn width(&self) -> Option<u8>
        ensures width { result ≡ self.now.width }
        ensures few { FewCells self.now.width }
    {
        self.width
    }

    /// The state is that of no events; the room stays.
    pub fn clear(&mut self)
        ensures stands { StandsFor self.new [] }
        ensures now { self.new.now ≡ nothing }
        ensures spare { self.old.spare ≤ self.new.spare }
    {
        self.commits.clear();
        self.width = None;
    }
}

/// How many cells the last BEGIN event has, after one more event.
fn width_after(width: Option<u8>, e: &Event) -> Option<u8>
    ensures { result ≡ (if is_begin e.now then Some (length e.now.cells) else width) }
{
    if begins_snapshot(e) {
        Some(e.cells.values().len() as u8)
    } else {
        width
    }
}

/// An event has a u64 index and at most 16 cells. No work is done.
fn see_fits(e: &Event)
    ensures { Fits e.now }
{
    let _index = e.index;
    let _cells = e.cells.values();
}
