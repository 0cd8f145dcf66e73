//! One part of the stream.
ghost use Rattle.std.specs.Prelude.{◌≡◌, ◌<◌, ◌≤◌, ◌∷◌, ◌++◌, [], true, length, map, take, slice_get, IfOk, MatchBool, ℕ, List};
ghost use Rattle.qd_buffer.specs.Filled.{with_items};
ghost use Rattle.qd_gate.specs.Logs.{entry};
ghost use Rattle.qd_slots.specs.Holds.{is_subscribed};
ghost use Rattle.qd_table.specs.Tables.{Table, slot_for, hold_for, slots_in, room_for, queue_of, wants_for};
ghost use Rattle.qd_table.specs.Steps.{IsLetGo, TellsAll};
ghost use Rattle.qd_stream.specs.Items.{key_of_item};
ghost use Rattle.qd_stream.specs.Outboxes.{owes_slot};
ghost use Rattle.qd_stream.specs.Boxes.{box_at};
ghost use Rattle.qd_stream.specs.Legal.{StreamEntry, terms_of, IsLegal};
ghost use Rattle.qd_stream.specs.Asking.{MayAsk};
ghost use Rattle.qd_stream.specs.Stripes.{Shown, Stands};
ghost use Rattle.qd_stream.specs.Steps.{SubscribesAll, Adds, IsEndedAt, EndsAll, DropsAll, IsClosed, RemovesAt, RemovesAll, PutsAt, PutsAll, IsPushed, IsSettled, Gives, GivesItem, GivesAll, StepsTo};

use crate::boxes::Boxes;
use crate::item::StreamItem;
use qd_buffer::Buffer;
use qd_gate::{Machine, NoMemory};
use qd_scheme::{AgentNo, Key, Keyed, WatcherNo};
use qd_sub::{Op, Reply, Sub, Want};
use qd_table::{SubFault, SubTable};
use std::alloc::Global;
use std::marker::Model;

/// One part of the stream: subscriptions, and of each agent the items that wait and the losses that it was not told of.
#[derive(Drop)]
pub struct StreamStripe {
    table: SubTable,
    boxes: Boxes,
}

impl Model for StreamStripe {
    ghost use Rattle.qd_stream.specs.Stripes as specs;

    ghost Value = { specs.Shown };

    ghost view = { λ s. record { table = s.table; boxes = s.boxes } };

    ghost invariant = { λ s. specs.IsReady (record { table = s.table; boxes = s.boxes }) };
}

impl StreamStripe {
    /// A stripe without subscriptions, where at most `cap` items wait for an agent. Keys are hashed with the seed 0.
    pub fn new(alloc: Global, cap: u16) -> Result<StreamStripe, NoMemory>
        ensures { IfOk result (λ s. Stands s [] × (s.boxes.cap ≡ cap)) }
    {
        StreamStripe::with_seed(alloc, cap, 0)
    }

    /// A stripe without subscriptions, where at most `cap` items wait for an agent. Keys are hashed with a seed, on which no answer
    /// depends.
    pub fn with_seed(alloc: Global, cap: u16, seed: u64) -> Result<StreamStripe, NoMemory>
        ensures { IfOk result (λ s. Stands s [] × (s.boxes.cap ≡ cap)) }
    {
        Ok(StreamStripe {
            table: SubTable::with_seed(alloc, seed)?,
            boxes: Boxes::new(alloc, cap)?,
        })
    }

    fn add(&mut self, agent: AgentNo, subs: &[Sub]) -> Reply<StreamItem>
        requires { length subs.now ≤ 4096 }
        ensures added { Adds self.old agent subs.now result self.new }
    {
        match self.table.admit(agent, subs) {
            Err(SubFault::TooManyKeys) => Reply::TooManyKeys,
            Err(SubFault::TooManySubs) => Reply::TooManySubs,
            Err(SubFault::NoMemory) => Reply::NoMemory,
            Ok(()) => match self.boxes.reserve(agent.get(), self.table.slots()) {
                Err(_) => Reply::NoMemory,
                Ok(()) => {
                    subscribe_all(&mut self.table, agent, subs);
                    Reply::Done
                }
            },
        }
    }

    // Ends a subscription. The pair stays held where something of it is owed.
    fn end(&mut self, agent: AgentNo, slot: u32)
        requires { is_subscribed (hold_for self.old.table agent slot) ≡ true }
        ensures { IsEndedAt self.old agent slot self.new }
    {
        let keep = self.boxes.owes(agent.get(), slot);
        let _unwanted = self.table.end(agent, slot, keep);
    }

    fn remove_one(&mut self, agent: AgentNo, key: &Key)
        ensures { RemovesAt (slot_for self.old.table key.now) self.old agent self.new }
    {
        if let Some(slot) = self.table.slot_of(key) {
            if self.table.is_subscribed(agent, slot) {
                self.end(agent, slot);
            }
        }
    }

    fn remove(&mut self, agent: AgentNo, keys: &[Key])
        ensures { RemovesAll self.old agent keys.now self.new }
    {
        for key in keys {
            self.remove_one(agent, key);
        }
    }

    fn end_all(&mut self, agent: AgentNo)
        ensures { (n : ℕ) × EndsAll n self.old agent self.new }
    {
        while let Some(slot) = self.table.first_slot(agent) {
            self.end(agent, slot);
        }
    }

    fn drop_all(&mut self, agent: AgentNo)
        ensures { (n : ℕ) × DropsAll n self.old agent self.new }
    {
        while let Some(_item) = self.give(agent) {}
    }

    fn close(&mut self, agent: AgentNo)
        ensures { IsClosed self.old agent self.new }
    {
        self.end_all(agent);
        self.drop_all(agent);
    }

    fn put(&mut self, item: &StreamItem)
        ensures { PutsAt (slot_for self.old.table (key_of_item item.now)) self.old item.now self.new }
    {
        if let Some(slot) = self.table.slot_of(&item.key()) {
            push_all(&self.table, &mut self.boxes, slot, item);
        }
    }

    fn put_all(&mut self, items: &[StreamItem])
        ensures { PutsAll self.old items.now self.new }
    {
        for item in items {
            self.put(item);
        }
    }

    // Lets a pair go of which no more is owed. A subscription stays.
    fn settle(&mut self, agent: AgentNo, slot: u32)
        ensures boxes { self.new.boxes ≡ self.old.boxes }
        ensures table { MatchBool (owes_slot (box_at self.old.boxes agent) slot) (self.old.table ≡ self.new.table) (IsLetGo self.old.table agent slot self.new.table) }
    {
        if !self.boxes.owes(agent.get(), slot) {
            self.table.let_go_at(agent, slot);
        }
    }

    // Gives the item that waits longest.
    fn give_item(&mut self, agent: AgentNo) -> Option<StreamItem>
        ensures { GivesItem (slice_get (box_at self.old.boxes agent).items 0) self.old agent result self.new }
    {
        match self.boxes.pop_item(agent.get()) {
            None => None,
            Some(waiting) => {
                self.settle(agent, waiting.slot);
                Some(waiting.item)
            }
        }
    }

    // Gives the report of the first loss, or else the item that waits longest.
    fn give(&mut self, agent: AgentNo) -> Option<StreamItem>
        ensures { Gives self.old agent result self.new }
    {
        match self.boxes.pop_loss(agent.get()) {
            None => self.give_item(agent),
            Some(loss) => {
                let key = self.table.key_at(loss.slot);
                self.settle(agent, loss.slot);
                match key {
                    None => None,
                    Some(key) => Some(StreamItem::Lost(key, loss.count)),
                }
            }
        }
    }

    fn take(&mut self, agent: AgentNo, most: u16, out: &mut Buffer<StreamItem>)
        requires empty { out.old.items ≡ [] }
        requires room { most ≤ out.old.room }
        ensures given { (items : List StreamItem) × (out.new ≡ with_items out.old items) × GivesAll most self.old agent items self.new }
    {
        for _i in 0..most {
            match self.give(agent) {
                None => break,
                Some(item) => out.push(item),
            }
        }
    }

    fn watch(&mut self, watcher: WatcherNo, most: u16, out: &mut Buffer<Want>)
        requires empty { out.old.items ≡ [] }
        requires room { most ≤ out.old.room }
        ensures watcher { watcher < 8 }
        ensures wants { out.new ≡ with_items out.old (wants_for self.old.table watcher most) }
        ensures told { TellsAll self.old.table watcher (take most (queue_of self.old.table watcher)) self.new.table }
        ensures boxes { self.new.boxes ≡ self.old.boxes }
    {
        let number = watcher.get();
        prove!(number < 8);
        self.table.watch(watcher, most, out);
    }

    fn apply(&mut self, op: Op<StreamItem, StreamItem>) -> Reply<StreamItem>
        requires { MayAsk (terms_of self.old.boxes.cap) op }
        ensures step { StepsTo self.old op result self.new }
    {
        match op {
            Op::Add { agent, subs } => self.add(agent, subs.as_slice()),
            Op::Remove { agent, keys } => {
                self.remove(agent, keys.as_slice());
                Reply::Done
            }
            Op::Close { agent } => {
                self.close(agent);
                Reply::Done
            }
            Op::Put { items } => {
                self.put_all(items.as_slice());
                Reply::Done
            }
            Op::Take {
                agent,
                max,
                mut out,
            } => {
                self.take(agent, max, &mut out);
                Reply::Items(out)
            }
            Op::Watch {
                watcher,
                max,
                mut out,
            } => {
                self.watch(watcher, max, &mut out);
                Reply::Wants(out)
            }
        }
    }

    /// Answers one op. Whoever asks, the stripe then stands for each legal log for which it stood with the new entry, and that log is legal.
    pub fn step(&mut self, op: Op<StreamItem, StreamItem>) -> Reply<StreamItem>
        requires { MayAsk (terms_of self.old.boxes.cap) op }
        ensures cap { self.new.boxes.cap ≡ self.old.boxes.cap }
        ensures entered { (log : List StreamEntry) (who : ℕ) → Stands self.old log → IsLegal (terms_of self.old.boxes.cap) log
            → Stands self.new (log ++ entry who op result ∷ []) × IsLegal (terms_of self.old.boxes.cap) (log ++ entry who op result ∷ []) }
    {
        self.apply(op)
    }
}

// One subscription after another. There is room for all.
fn subscribe_all(table: &mut SubTable, agent: AgentNo, subs: &[Sub])
    requires { length subs.now ≤ room_for table.old agent }
    ensures { SubscribesAll table.old agent (map (λ s. s.key) subs.now) table.new }
{
    for sub in subs {
        let _slot = table.subscribe(agent, &sub.key, 0);
    }
}

// The item waits for each agent that is subscribed to its slot.
fn push_all(table: &SubTable, boxes: &mut Boxes, slot: u32, item: &StreamItem)
    requires agents { length boxes.old.list ≡ 128 }
    requires room { (a : ℕ) → is_subscribed (hold_for table.now a slot) ≡ true → slot < (box_at boxes.old a).slots }
    ensures { IsPushed table.now boxes.old (record { slot = slot; item = item.now }) boxes.new }
{
    let mut from = 0;
    while let Some(agent) = table.next_agent(slot, from) {
        boxes.push(agent, slot, item);
        from = agent + 1;
    }
}

impl Machine for StreamStripe {
    type Op = Op<StreamItem, StreamItem>;

    type Reply = Reply<StreamItem>;

    ghost use Rattle.qd_stream.specs.Asking.{MayAsk};
    ghost use Rattle.qd_stream.specs.Legal.{terms_of, IsLegal};
    ghost use Rattle.qd_stream.specs.Stripes.{Stands};

    ghost terms = { λ s. terms_of s.boxes.cap };

    ghost may_ask = { MayAsk };

    ghost legal = { IsLegal };

    ghost stands = { Stands };

    fn step(&mut self, op: Op<StreamItem, StreamItem>) -> Reply<StreamItem> {
        self.apply(op)
    }
}
