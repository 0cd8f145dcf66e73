//! The stripe.

ghost use Rattle.std.specs.Prelude.{◌≡◌, ◌≤◌, ◌<◌, ◌+◌, ◌^◌, ◌⊎◌, ◌∷◌, ◌++◌, [], ℕ, List, Some, None, true, length, nat_lt, vec_len, IfOk, IfErr, OnOk, IfSome, IfNone};
ghost use Rattle.qd_scheme.specs.declared.key.Event.{Event};
ghost use Rattle.qd_buffer.specs.Filled.{with_items};
ghost use Rattle.qd_gate.specs.Logs.{entry};
ghost use Rattle.qd_slots.specs.Holds.{is_subscribed};
ghost use Rattle.qd_table.specs.Tables.{slots_in, slot_for, key_at, hold_for, room_for, wants_for, fault_of};
ghost use Rattle.qd_table.specs.Steps.{IsCause};
ghost use Rattle.qd_hist_rules.specs.Legal.{HistoryEntry, terms_of, IsLegal};
ghost use Rattle.qd_hist_rules.specs.Asking.{MayAsk};
ghost use Rattle.qd_hist_stand.specs.Stripes.{Shown, Stands, side_at, terms_in};
ghost use Rattle.qd_hist_stand.specs.Steps.{IsPut, IsSubscribing, IsDropped, IsGiven, IsTurned, IsTelling, IsRoomier};
ghost use Rattle.qd_history.specs.Rooms.{CanPut, HasPlaces};
ghost use Rattle.qd_history.specs.Steps.{SubscribesAll, Adds, RemovesAt, RemovesAll, EndsAll, PutsAll, Puts, Takes, IsIdle, StepsTo, items_of};
ghost use Rattle.qd_history.specs.Steps as steps;
ghost use Rattle.qd_history.specs.Sound.{HasSlots};

use crate::rooms::{make_room, reserve_tally, wanted_count};
use crate::sides::{Side, empty_sides, floor_of, follow_all, reserve_side};
use crate::tracks::{Tracks, makes_commit, wanted_slot};
use qd_buffer::Buffer;
use qd_gate::{Machine, NoMemory};
use qd_hist_rules::{HistItem, HistoryReply};
use qd_scheme::{AgentNo, Event, Key, WatcherNo};
use qd_sub::{Op, Sub, Want};
use qd_table::{SubFault, SubTable};
use std::alloc::Global;
use std::marker::Model;

/// So many events may be kept and held back.
const MOST_STOCK: u64 = 262_144;

/// So many commits may be numbered.
const MOST_COMMITS: u64 = 1 << 63;

/// One part of the history: subscriptions, what is kept of each wanted key, and how far each agent has come with it.
///
/// A key has a slot of the table while it is held, and all else is kept by slots. Only `new`, an Add and a Put take memory.
#[derive(Drop)]
pub struct HistoryStripe {
    alloc: Global,
    table: SubTable,
    tracks: Tracks,
    sides: Vec<Side>,
    // How many events of a Put there are of each slot, while room is made for them.
    tally: Vec<u32>,
    // The number of the last commit of any key.
    count: u64,
    hcap: u16,
    base: u64,
}

impl Model for HistoryStripe {
    ghost use Rattle.std.specs.Prelude.{vec_len};
    ghost use Rattle.qd_hist_stand.specs.Stripes.{Shown};
    ghost use Rattle.qd_history.specs.Sound.{IsSound};

    ghost Value = { Shown };

    ghost view = { λ s. record { table = s.table; tracks = s.tracks.list; sides = s.sides.items; count = s.count; stock = s.tracks.stock; hcap = s.hcap; base = s.base } };

    ghost invariant = { λ s. IsSound (record { table = s.table; tracks = s.tracks.list; sides = s.sides.items; count = s.count; stock = s.tracks.stock; hcap = s.hcap; base = s.base }) (vec_len s.tally) };
}

/// An item that was given, and the slot of its key.
#[derive(Clone, Copy)]
struct Gift {
    slot: u32,
    item: HistItem,
}

impl HistoryStripe {
    /// A stripe without subscriptions, where at most `hcap` events are owed to an agent. Keys are hashed with the seed 0.
    pub fn new(alloc: Global, hcap: u16) -> Result<HistoryStripe, NoMemory>
        requires few { (1 ≤ hcap) × (hcap ≤ 4096) }
        ensures stands { IfOk result (λ s. Stands s []) }
        ensures terms { IfOk result (λ s. terms_in s ≡ terms_of hcap 0) }
    {
        HistoryStripe::with_seed(alloc, hcap, 0)
    }

    /// The same, with keys hashed with a seed, on which no answer depends.
    pub fn with_seed(alloc: Global, hcap: u16, seed: u64) -> Result<HistoryStripe, NoMemory>
        requires few { (1 ≤ hcap) × (hcap ≤ 4096) }
        ensures stands { IfOk result (λ s. Stands s []) }
        ensures terms { IfOk result (λ s. terms_in s ≡ terms_of hcap 0) }
    {
        HistoryStripe::seeded(alloc, hcap, 0, seed)
    }

    /// A stripe without subscriptions that numbers its commits on from `commits`. Keys are hashed with the seed 0.
    pub fn starting(alloc: Global, hcap: u16, commits: u64) -> Result<HistoryStripe, NoMemory>
        requires few { (1 ≤ hcap) × (hcap ≤ 4096) }
        requires low { commits ≤ 2 ^ 63 }
        ensures stands { IfOk result (λ s. Stands s []) }
        ensures terms { IfOk result (λ s. terms_in s ≡ terms_of hcap commits) }
    {
        HistoryStripe::seeded(alloc, hcap, commits, 0)
    }

    fn seeded(alloc: Global, hcap: u16, commits: u64, seed: u64) -> Result<HistoryStripe, NoMemory>
        requires few { (1 ≤ hcap) × (hcap ≤ 4096) }
        requires low { commits ≤ 2 ^ 63 }
        ensures stands { IfOk result (λ s. Stands s []) }
        ensures terms { IfOk result (λ s. terms_in s ≡ terms_of hcap commits) }
    {
        let table = SubTable::with_seed(alloc, seed)?;
        let sides = empty_sides(alloc)?;
        Ok(HistoryStripe {
            alloc,
            table,
            tracks: Tracks::new(alloc),
            sides,
            tally: Vec::new(alloc),
            count: commits,
            hcap,
            base: commits,
        })
    }

    /// Makes places for all slots of the table, and for all that an agent may have of them.
    fn reserve(&mut self, agent: AgentNo) -> Result<(), NoMemory>
        ensures table { self.new.table ≡ self.old.table }
        ensures same { IsRoomier self.old self.new }
        ensures room { OnOk result (HasSlots self.new agent) }
    {
        let slots = self.table.slots();
        let agent = agent.get();
        reserve_tally(&mut self.tally, slots as usize)?;
        self.tracks.reserve_slots(self.alloc, slots)?;
        reserve_side(&mut self.sides, self.alloc, agent, slots)
    }

    /// Judges an Add, and makes room for it and for all that the agent may have of its keys.
    fn admit(&mut self, agent: AgentNo, subs: &[Sub]) -> Result<(), SubFault>
        requires { length subs.now ≤ 4096 }
        ensures same { IsRoomier self.old self.new }
        ensures allowed { OnOk result (fault_of self.old.table agent subs.now ≡ None) }
        ensures subscriptions { OnOk result (length subs.now ≤ room_for self.new.table agent) }
        ensures room { OnOk result (HasSlots self.new agent) }
        ensures refused { IfErr result (λ fault. IsCause self.old.table agent subs.now fault) }
    {
        self.table.admit(agent, subs)?;
        match self.reserve(agent) {
            Err(_) => Err(SubFault::NoMemory),
            Ok(()) => Ok(()),
        }
    }

    /// Subscribes an agent to a key, whose snapshot is then to be begun by the new limit.
    fn subscribe(&mut self, agent: AgentNo, key: &Key, limit: u64) -> u32
        requires subscriptions { 0 < room_for self.old.table agent }
        requires room { HasSlots self.old agent }
        ensures subscribed { IsSubscribing self.old agent key.now limit result self.new }
        ensures room { HasSlots self.new agent }
    {
        let number = agent.get();
        let slot = self.table.subscribe(agent, key, limit);
        let floor = floor_of(&self.table, self.tracks.at(slot).state(), agent, slot);
        let side = &mut self.sides[number as usize];
        side.restart(slot, floor);
        slot
    }

    fn subscribe_all(&mut self, agent: AgentNo, subs: &[Sub])
        requires subscriptions { length subs.now ≤ room_for self.old.table agent }
        requires room { HasSlots self.old agent }
        ensures { SubscribesAll self.old agent subs.now self.new }
    {
        for sub in subs {
            self.subscribe(agent, &sub.key, sub.limit);
        }
    }

    fn add(&mut self, agent: AgentNo, subs: &[Sub]) -> HistoryReply
        requires { length subs.now ≤ 4096 }
        ensures { Adds self.old agent subs.now result self.new }
    {
        match self.admit(agent, subs) {
            Err(SubFault::TooManyKeys) => HistoryReply::TooManyKeys,
            Err(SubFault::TooManySubs) => HistoryReply::TooManySubs,
            Err(SubFault::NoMemory) => HistoryReply::NoMemory,
            Ok(()) => {
                self.subscribe_all(agent, subs);
                HistoryReply::Done
            }
        }
    }

    /// Ends an agent's subscription to a slot. Of a key without an agent nothing is kept.
    fn end(&mut self, agent: AgentNo, slot: u32)
        requires { is_subscribed (hold_for self.old.table agent slot) ≡ true }
        ensures { IsDropped self.old agent slot self.new }
    {
        let _slots = self.table.slots();
        let number = agent.get();
        let side = &mut self.sides[number as usize];
        side.restart(slot, None);
        if self.table.end(agent, slot, false) {
            self.tracks.clear(slot);
        }
    }

    fn remove_one(&mut self, agent: AgentNo, key: &Key)
        ensures { RemovesAt (slot_for self.old.table key.now) self.old agent key.now self.new }
    {
        if let Some(slot) = self.table.slot_of(key) {
            if self.table.is_subscribed(agent, slot) {
                self.end(agent, slot);
            }
        }
    }

    fn remove(&mut self, agent: AgentNo, keys: &[Key])
        ensures { RemovesAll self.old agent keys.now self.new }
    {
        for key in keys {
            self.remove_one(agent, key);
        }
    }

    fn close(&mut self, agent: AgentNo)
        ensures { (n : ℕ) × EndsAll n self.old agent self.new }
    {
        while let Some(slot) = self.table.first_slot(agent) {
            self.end(agent, slot);
        }
    }

    /// Puts one event, for which there is room.
    fn put(&mut self, e: &Event)
        requires { CanPut self.old (e.now ∷ []) }
        ensures put { IsPut self.old e.now self.new }
        ensures rest { (es : List Event) → CanPut self.old (e.now ∷ es) → CanPut self.new es }
    {
        match wanted_slot(&self.table, &e.key) {
            None => {}
            Some(slot) => {
                let answer = self.tracks.ingest(slot, e, self.count + 1);
                if makes_commit(answer) {
                    self.count += 1;
                    let track = self.tracks.at(slot);
                    follow_all(&mut self.sides, &self.table, slot, answer, track, self.hcap);
                }
            }
        }
    }

    fn put_all(&mut self, items: &[Event])
        requires { CanPut self.old items.now }
        ensures { PutsAll self.old items.now self.new }
    {
        for e in items {
            self.put(e);
        }
    }

    /// Makes room for the events of a Put.
    fn make_room(&mut self, items: &[Event]) -> Result<(), NoMemory>
        requires { length items.now ≤ 4096 }
        ensures table { self.new.table ≡ self.old.table }
        ensures same { IsRoomier self.old self.new }
        ensures room { OnOk result (HasPlaces self.new.hcap self.new.table self.new.tracks self.new.sides items.now) }
    {
        make_room(
            &self.table,
            &mut self.tally,
            &mut self.tracks,
            &mut self.sides,
            self.hcap,
            items,
        )
    }

    fn put_items(&mut self, items: &[Event]) -> HistoryReply
        requires { length items.now ≤ 4096 }
        ensures { Puts self.old items.now result self.new }
    {
        let wanted = wanted_count(&self.table, items);
        if self.tracks.stock() + wanted > MOST_STOCK {
            return HistoryReply::HistoryFull;
        }
        if self.count + items.len() as u64 > MOST_COMMITS {
            return HistoryReply::Spent;
        }
        match self.make_room(items) {
            Err(_) => HistoryReply::NoMemory,
            Ok(()) => {
                self.put_all(items);
                HistoryReply::Done
            }
        }
    }

    /// Gives an agent the next item of the slot that is due first.
    fn give(&mut self, agent: AgentNo) -> Option<Gift>
        ensures given { IfSome result (λ gift. IsGiven self.old agent gift.slot gift.item self.new) }
        ensures idle { IfNone result (IsIdle self.old agent × (self.old ≡ self.new)) }
    {
        let number = agent.get();
        let slot = self.sides[number as usize].front()?;
        let key = self.table.key_at(slot)?;
        let state = self.tracks.at(slot).state();
        let floor = floor_of(&self.table, state, agent, slot)?;
        if self.sides[number as usize].is_done(slot) {
            return None;
        }
        // The indexes that are kept are below 2^64, as the laws of a gift ask.
        let _ = state.kept();
        let side = &mut self.sides[number as usize];
        match side.next(slot, &key, self.tracks.at(slot), &floor) {
            None => unreachable!(),
            Some(item) => Some(Gift { slot, item }),
        }
    }

    /// A slot that had its turn comes last, if it is due.
    fn turn(&mut self, agent: AgentNo, slot: u32)
        ensures { IsTurned self.old agent slot self.new }
    {
        let number = agent.get();
        let side = &mut self.sides[number as usize];
        side.turn(slot);
    }

    fn take(&mut self, agent: AgentNo, most: u16, out: &mut Buffer<HistItem>)
        requires some { 0 < most }
        requires empty { out.old.items ≡ [] }
        requires room { most ≤ out.old.room }
        ensures { (gs : List steps.Gift) × (out.new ≡ with_items out.old (items_of gs)) × Takes self.old agent most gs self.new }
    {
        let mut last = None;
        for _i in 0..most {
            match self.give(agent) {
                None => return,
                Some(gift) => {
                    out.push(gift.item);
                    last = Some(gift.slot);
                }
            }
        }
        if let Some(slot) = last {
            self.turn(agent, slot);
        }
    }

    fn watch(&mut self, watcher: WatcherNo, most: u16, out: &mut Buffer<Want>)
        requires empty { out.old.items ≡ [] }
        requires room { most ≤ out.old.room }
        ensures told { out.new ≡ with_items out.old (wants_for self.old.table watcher most) }
        ensures left { IsTelling self.old watcher most self.new }
    {
        // A watcher's number is below 8, as the table's laws ask.
        let _ = watcher.get();
        self.table.watch(watcher, most, out);
    }

    fn apply(&mut self, op: Op<Event, HistItem>) -> HistoryReply
        requires { MayAsk (terms_in self.old) op }
        ensures { StepsTo self.old op result self.new }
    {
        match op {
            Op::Add { agent, subs } => self.add(agent, subs.as_slice()),
            Op::Remove { agent, keys } => {
                self.remove(agent, keys.as_slice());
                HistoryReply::Done
            }
            Op::Close { agent } => {
                self.close(agent);
                HistoryReply::Done
            }
            Op::Put { items } => self.put_items(items.as_slice()),
            Op::Take {
                agent,
                max,
                mut out,
            } => {
                self.take(agent, max, &mut out);
                HistoryReply::Items(out)
            }
            Op::Watch {
                watcher,
                max,
                mut out,
            } => {
                self.watch(watcher, max, &mut out);
                HistoryReply::Wants(out)
            }
        }
    }

    /// Answers one op. Whoever asks, the stripe then stands for each legal log for which it stood with the new entry, and that log is legal.
    pub fn step(&mut self, op: Op<Event, HistItem>) -> HistoryReply
        requires { MayAsk (terms_in self.old) op }
        ensures terms { terms_in self.new ≡ terms_in self.old }
        ensures entered { (log : List HistoryEntry) (who : ℕ) → Stands self.old log → IsLegal (terms_in self.old) log
            → Stands self.new (log ++ entry who op result ∷ []) × IsLegal (terms_in self.old) (log ++ entry who op result ∷ []) }
    {
        self.apply(op)
    }
}

impl Machine for HistoryStripe {
    type Op = Op<Event, HistItem>;

    type Reply = HistoryReply;

    ghost use Rattle.qd_hist_rules.specs.Asking.{MayAsk};
    ghost use Rattle.qd_hist_rules.specs.Legal.{IsLegal};
    ghost use Rattle.qd_hist_stand.specs.Stripes.{Stands, terms_in};

    ghost terms = { terms_in };

    ghost may_ask = { MayAsk };

    ghost legal = { IsLegal };

    ghost stands = { Stands };

    fn step(&mut self, op: Op<Event, HistItem>) -> HistoryReply {
        self.apply(op)
    }
}
