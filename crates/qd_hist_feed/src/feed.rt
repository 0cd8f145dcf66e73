//! The feed of an agent and a key.
ghost use Rattle.std.specs.Prelude.{◌≡◌, ℕ, ◌+◌, ◌-◌, ◌≤◌, ◌++◌, length, IsOk, OnOk};
ghost use Rattle.std.specs.VecDeque.{deque_capacity, deque_len};
ghost use Rattle.qd_hist_feed.specs.Feeding.{nothing, is_waiting, is_done, is_swept, number_for, owed_item, owed_items, with_commit, next_item, after_next, stage_after, end_of};

use crate::item::{share_item, sweep_item};
use qd_hist_key::KeyState;
use qd_hist_rules::{AgentFloor, HistItem};
use qd_scheme::{Cells, Event, Key};
use std::alloc::{AllocError, Global};
use std::collections::VecDeque;
use std::marker::Model;

/// How far an agent's snapshot of a key has come.
#[derive(Clone, Copy, Debug, PartialEq, Eq)]
pub enum Stage {
    /// It is not begun.
    Waiting,
    /// It is begun, and goes on with the entries at or below this index.
    Sweeping { place: u64 },
    /// It is ended.
    Ended,
}

impl Stage {
    /// The agent was given what stood at the index, so that a later event there is owed.
    fn is_swept(&self, index: u64) -> bool
        ensures { result ≡ is_swept self.now index }
    {
        match self {
            Stage::Waiting => false,
            Stage::Sweeping { place } => *place < index,
            Stage::Ended => true,
        }
    }

    /// Numbers are told once the snapshot is ended.
    fn number_for(&self, number: u64) -> Option<u64>
        ensures { result ≡ number_for self.now number }
    {
        match self {
            Stage::Ended => Some(number),
            _ => None,
        }
    }
}

/// What an agent is owed of a key, and how far its snapshot has come.
#[derive(Drop)]
pub struct Feed {
    stage: Stage,
    owed: VecDeque<HistItem>,
}

impl Model for Feed {
    ghost use Rattle.qd_hist_feed.specs.Feeding.{Spared};
    ghost use Rattle.qd_hist_feed.specs.Inside.{spared};

    ghost Value = { Spared };

    ghost view = { spared };
}

impl Feed {
    /// A feed whose snapshot is not begun.
    pub fn new(alloc: Global) -> Feed
        ensures { result.now ≡ nothing }
    {
        Feed {
            stage: Stage::Waiting,
            owed: VecDeque::new(alloc),
        }
    }

    /// How many items are owed.
    pub fn len(&self) -> usize
        ensures { result ≡ length self.now.now.owed }
    {
        self.owed.len()
    }

    /// The snapshot is not begun.
    pub fn is_waiting(&self) -> bool
        ensures { result ≡ is_waiting self.now.now.stage }
    {
        matches!(self.stage, Stage::Waiting)
    }

    /// The snapshot is ended, and nothing is owed.
    pub fn is_done(&self) -> bool
        ensures { result ≡ is_done self.now.now }
    {
        matches!(self.stage, Stage::Ended) && self.owed.len() == 0
    }

    /// Makes room for so many items more. Memory is wanted only where there is too little room; after that there may be more than before.
    pub fn reserve(&mut self, items: u32) -> Result<(), AllocError>
        ensures ok { OnOk result (items ≤ self.new.spare) }
        ensures now { self.new.now ≡ self.old.now }
        ensures spare { self.old.spare ≤ self.new.spare }
        ensures fits { items ≤ self.old.spare → IsOk result }
    {
        self.owed.reserve(items as usize)
    }

    /// What is owed is dropped, and the snapshot is to be begun anew. The room stays.
    pub fn restart(&mut self)
        ensures now { self.new.now ≡ nothing }
        ensures spare { self.new.spare ≡ self.old.spare + length self.old.now.owed }
    {
        self.stage = Stage::Waiting;
        self.owed.clear();
    }

    /// How many of a commit's events come to be owed, above the agent's floor, whatever the commit's number. The events are in order.
    pub fn share_of(&self, batch: &[Event], floor: u64) -> usize
        ensures share { (number : ℕ) → result ≡ length (owed_items self.now.now.stage floor number batch.now) }
        ensures within { result ≤ length batch.now }
    {
        let mut count = 0;
        for e in batch {
            if e.index >= floor && self.stage.is_swept(e.index) {
                count += 1;
            }
        }
        count
    }

    /// A commit that is no snapshot commit was made, of these events in order. No memory is taken.
    pub fn commit(&mut self, batch: &[Event], floor: u64, number: u64)
        requires { length (owed_items self.old.now.stage floor number batch.now) ≤ self.old.spare }
        ensures now { self.new.now ≡ with_commit self.old.now floor number batch.now }
        ensures spare { self.old.spare ≡ self.new.spare + length (owed_items self.old.now.stage floor number batch.now) }
    {
        let end = share_end(batch, floor);
        let stage = self.stage;
        owe(&mut self.owed, &stage, batch, floor, end, number);
    }

    /// The next item, if there is one: what is owed first, then what the sweep of the key's map gives. `number` is that of the key's last
    /// commit, and `floor` the agent's floor. No memory is taken.
    pub fn next(
        &mut self,
        key: &Key,
        state: &KeyState,
        floor: &AgentFloor,
        number: u64,
    ) -> Option<HistItem>
        ensures item { result ≡ next_item self.old.now key.now state.now floor.now number }
        ensures left { self.new.now ≡ after_next self.old.now state.now floor.now }
        ensures fewer { length self.new.now.owed ≡ length self.old.now.owed - 1 }
        ensures spare { self.new.spare + length self.new.now.owed ≡ self.old.spare + length self.old.now.owed }
    {
        if let Some(item) = self.owed.pop_front() {
            return Some(item);
        }
        let (place, begin) = match self.stage {
            Stage::Ended => return None,
            Stage::Waiting => (u64::MAX, true),
            Stage::Sweeping { place } => (place, false),
        };
        let found = state.sweep_from(place);
        self.stage = stage_after(floor.index, &found);
        Some(sweep_item(begin, key, floor, state.width(), number, &found))
    }
}

/// The stage that a sweep leaves, by the entry that it found at or below its place.
fn stage_after(floor: u64, found: &Option<(u64, Cells)>) -> Stage
    ensures { result ≡ stage_after floor found.now }
{
    match found {
        None => Stage::Ended,
        Some(entry) => {
            if floor < entry.0 {
                Stage::Sweeping { place: entry.0 - 1 }
            } else {
                Stage::Ended
            }
        }
    }
}

/// How many events there are up to the last one at or above the floor.
fn share_end(batch: &[Event], floor: u64) -> usize
    ensures { result ≡ end_of floor batch.now }
{
    let mut end = 0;
    for (i, e) in batch.iter().enumerate() {
        if e.index >= floor {
            end = i + 1;
        }
    }
    end
}

/// Owes those of a commit's events that are swept. The last event of the share is the one before `end`.
fn owe(
    owed: &mut VecDeque<HistItem>,
    stage: &Stage,
    batch: &[Event],
    floor: u64,
    end: usize,
    number: u64,
)
    requires end { end ≡ end_of floor batch.now }
    requires room { deque_len owed.old + length (owed_items stage.now floor number batch.now) ≤ deque_capacity owed.old }
    ensures items { owed.new.items ≡ owed.old.items ++ owed_items stage.now floor number batch.now }
    ensures capacity { deque_capacity owed.new ≡ deque_capacity owed.old }
    ensures len { deque_len owed.new ≡ deque_len owed.old + length (owed_items stage.now floor number batch.now) }
{
    let number = stage.number_for(number);
    for (i, e) in batch.iter().enumerate() {
        owe_one(owed, stage, floor, number, i + 1 < end, e);
    }
}

/// Owes an event, if it is of the share and swept.
fn owe_one(
    owed: &mut VecDeque<HistItem>,
    stage: &Stage,
    floor: u64,
    number: Option<u64>,
    pending: bool,
    e: &Event,
)
    requires { deque_len owed.old + length (owed_item stage.now floor number pending e.now) ≤ deque_capacity owed.old }
    ensures items { owed.new.items ≡ owed.old.items ++ owed_item stage.now floor number pending e.now }
    ensures capacity { deque_capacity owed.new ≡ deque_capacity owed.old }
    ensures len { deque_len owed.new ≡ deque_len owed.old + length (owed_item stage.now floor number pending e.now) }
{
    if e.index >= floor && stage.is_swept(e.index) {
        let _ = owed.push_back(share_item(number, pending, e));
    }
}
