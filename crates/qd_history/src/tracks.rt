//! What is kept of each slot's key.

ghost use Rattle.std.specs.Prelude.{◌≡◌, ◌≤◌, ◌<◌, ◌+◌, ◌∷◌, [], ℕ, List, Some, false, nat_eq, max, length, option_map, vec_len, IfOk, IfSome, OnOk, if◌then◌else◌};
ghost use Rattle.std.specs.List.{sum_by};
ghost use Rattle.qd_scheme.specs.declared.key.Event.{Event};
ghost use Rattle.qd_flags.specs.Following.{answer_to};
ghost use Rattle.qd_hist_key.specs.Keeping.{StandsFor, floor_and_snip};
ghost use Rattle.qd_hist_stand.specs.Stripes.{no_track, size_of};
ghost use Rattle.qd_hist_stand.specs.Steps.{makes_commit};
ghost use Rattle.qd_table.specs.Tables.{key_at};
ghost use Rattle.qd_history.specs.Rooms.{KeepsOthers};
ghost use Rattle.qd_history.specs.Tracks.{no_tracks, track_at, track_size, IsSameTrack, wanted_slot};

use qd_flags::Ingest;
use qd_hist_key::KeyState;
use qd_scheme::{Event, Key};
use qd_table::SubTable;
use std::alloc::{AllocError, Global};
use std::marker::Model;

/// What is kept of one key: the state of its events, and the number of its last commit.
#[derive(Drop)]
pub(crate) struct Track {
    state: KeyState,
    number: u64,
}

impl Model for Track {
    ghost use Rattle.qd_hist_stand.specs.Stripes as stripes;

    ghost Value = { stripes.Track };

    ghost view = { λ t. record { state = t.state; number = t.number } };
}

impl Track {
    /// No events came.
    fn new(alloc: Global) -> Result<Track, AllocError>
        ensures { IfOk result (λ t. IsSameTrack no_track t) }
    {
        Ok(Track {
            state: KeyState::new(alloc)?,
            number: 0,
        })
    }

    /// The state of the key's events.
    pub(crate) fn state(&self) -> &KeyState
        ensures { result.now ≡ self.now.state }
    {
        &self.state
    }

    /// The number of the key's last commit.
    pub(crate) fn number(&self) -> u64
        ensures { result ≡ self.now.number }
    {
        self.number
    }

    /// How many events are kept and held back.
    fn size(&self) -> u64
        ensures { result ≡ size_of self.now.state }
    {
        u64::from(self.state.kept()) + u64::from(self.state.held())
    }

    /// One more event of the key, whose commit has this number if it makes one.
    fn ingest(&mut self, e: &Event, number: u64) -> Ingest
        requires { 0 < self.old.state.spare }
        ensures stands { (past : List Event) → StandsFor self.old.state past → StandsFor self.new.state (e.now ∷ past) }
        ensures answer { (past : List Event) → StandsFor self.old.state past → result ≡ answer_to (e.now ∷ past) }
        ensures few { length self.new.state.now.held + length self.new.state.now.batch ≤ length self.old.state.now.held + 1 }
        ensures more { size_of self.new.state ≤ size_of self.old.state + 1 }
        ensures number { self.new.number ≡ (if makes_commit result then number else self.old.number) }
        ensures spare { self.old.state.spare ≤ self.new.state.spare + 1 }
    {
        let answer = self.state.ingest(e);
        if makes_commit(answer) {
            self.number = number;
        }
        answer
    }
}

/// Whether an event that was answered so made a commit.
pub(crate) fn makes_commit(answer: Ingest) -> bool
    ensures { result ≡ makes_commit answer }
{
    match answer {
        Ingest::Ignored | Ingest::Held => false,
        Ingest::Update | Ingest::Snapshot => true,
    }
}

/// The slot of a key to which some agent is subscribed.
pub(crate) fn wanted_slot(table: &SubTable, key: &Key) -> Option<u32>
    ensures slot { result ≡ wanted_slot table.now key.now }
    ensures named { IfSome result (λ slot. key_at table.now slot ≡ Some key.now) }
{
    match table.slot_of(key) {
        Some(slot) if table.is_wanted(slot) => Some(slot),
        _ => None,
    }
}

/// What is kept of all keys, and how many events are kept and held back in all.
#[derive(Drop)]
pub(crate) struct Tracks {
    list: Vec<Track>,
    stock: u64,
}

impl Model for Tracks {
    ghost use Rattle.qd_history.specs.Tracks as specs;

    ghost Value = { specs.Tracks };

    ghost view = { λ t. record { list = t.list.items; stock = t.stock } };

    ghost invariant = { λ t. specs.IsStocked t.list.items t.stock };
}

impl Tracks {
    /// No slots.
    pub(crate) fn new(alloc: Global) -> Tracks
        ensures { result ≡ no_tracks }
    {
        Tracks {
            list: Vec::new(alloc),
            stock: 0,
        }
    }

    /// How many events are kept and held back in all.
    pub(crate) fn stock(&self) -> u64
        ensures { result ≡ self.now.stock }
    {
        self.stock
    }

    /// What is kept of a slot.
    pub(crate) fn at(&self, slot: u32) -> &Track
        requires { slot < length self.now.list }
        ensures { result.now ≡ track_at self.now.list slot }
    {
        &self.list[slot as usize]
    }

    /// Makes places for the slots below a number.
    pub(crate) fn reserve_slots(&mut self, alloc: Global, slots: u32) -> Result<(), AllocError>
        ensures same { (i : ℕ) → IsSameTrack (track_at self.old.list i) (track_at self.new.list i) }
        ensures stock { self.new.stock ≡ self.old.stock }
        ensures kept { length self.old.list ≤ length self.new.list }
        ensures most { length self.new.list ≤ max (length self.old.list) slots }
        ensures ok { OnOk result (slots ≤ length self.new.list) }
    {
        add_tracks(&mut self.list, alloc, slots as usize)
    }

    /// Makes room for so many events of a slot's key.
    pub(crate) fn reserve(&mut self, slot: u32, events: u32) -> Result<(), AllocError>
        requires { slot < length self.old.list }
        ensures kept { KeepsOthers slot self.old self.new }
        ensures ok { OnOk result (events ≤ (track_at self.new.list slot).state.spare) }
    {
        let track = &mut self.list[slot as usize];
        track.state.reserve(events)
    }

    /// One more event of a slot's key, whose commit has this number if it makes one.
    pub(crate) fn ingest(&mut self, slot: u32, e: &Event, number: u64) -> Ingest
        requires slot { slot < length self.old.list }
        requires room { 0 < (track_at self.old.list slot).state.spare }
        requires stock { self.old.stock < 262144 }
        ensures stands { (past : List Event) → StandsFor (track_at self.old.list slot).state past → StandsFor (track_at self.new.list slot).state (e.now ∷ past) }
        ensures answer { (past : List Event) → StandsFor (track_at self.old.list slot).state past → result ≡ answer_to (e.now ∷ past) }
        ensures few { length (track_at self.new.list slot).state.now.held + length (track_at self.new.list slot).state.now.batch ≤ length (track_at self.old.list slot).state.now.held + 1 }
        ensures number { (track_at self.new.list slot).number ≡ (if makes_commit result then number else (track_at self.old.list slot).number) }
        ensures spare { (track_at self.old.list slot).state.spare ≤ (track_at self.new.list slot).state.spare + 1 }
        ensures others { (i : ℕ) → nat_eq i slot ≡ false → track_at self.new.list i ≡ track_at self.old.list i }
        ensures stock { self.new.stock + track_size (track_at self.old.list slot) ≡ self.old.stock + track_size (track_at self.new.list slot) }
        ensures more { self.new.stock ≤ self.old.stock + 1 }
        ensures len { length self.new.list ≡ length self.old.list }
    {
        let track = &mut self.list[slot as usize];
        let before = track.size();
        let answer = track.ingest(e, number);
        let after = track.size();
        self.stock = self.stock - before + after;
        answer
    }

    /// Forgets all events of a slot's key.
    pub(crate) fn clear(&mut self, slot: u32)
        requires { slot < length self.old.list }
        ensures stands { StandsFor (track_at self.new.list slot).state [] }
        ensures number { (track_at self.new.list slot).number ≡ (track_at self.old.list slot).number }
        ensures others { (i : ℕ) → nat_eq i slot ≡ false → track_at self.new.list i ≡ track_at self.old.list i }
        ensures stock { self.new.stock + track_size (track_at self.old.list slot) ≡ self.old.stock }
        ensures len { length self.new.list ≡ length self.old.list }
    {
        let track = &mut self.list[slot as usize];
        let before = track.size();
        track.state.clear();
        self.stock -= before;
    }
}

/// Adds tracks up to a number of them.
fn add_tracks(list: &mut Vec<Track>, alloc: Global, slots: usize) -> Result<(), AllocError>
    ensures same { (i : ℕ) → IsSameTrack (track_at list.old.items i) (track_at list.new.items i) }
    ensures stock { sum_by track_size list.new.items ≡ sum_by track_size list.old.items }
    ensures kept { length list.old.items ≤ length list.new.items }
    ensures most { length list.new.items ≤ max (length list.old.items) slots }
    ensures ok { OnOk result (slots ≤ length list.new.items) }
{
    for _slot in list.len()..slots {
        list.push(Track::new(alloc)?)?;
    }
    Ok(())
}
