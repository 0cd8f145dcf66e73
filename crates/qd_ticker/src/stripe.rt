//! The stripe.

ghost use Rattle.std.specs.Prelude.{◌≡◌, ◌+◌, ◌≤◌, ◌<◌, ◌∷◌, ◌++◌, [], true, length, map, IfOk, IfErr, OnOk, ℕ, List, Some, None};
ghost use Rattle.qd_buffer.specs.Filled.{with_items};
ghost use Rattle.qd_gate.specs.Logs.{entry};
ghost use Rattle.qd_sub.specs.Acts.{Unsubscribed, Closed, Came};
ghost use Rattle.qd_sub.specs.Subscriptions.{keys_of};
ghost use Rattle.qd_sub.specs.Logs.{ends_of};
ghost use Rattle.qd_slots.specs.Holds.{is_subscribed};
ghost use Rattle.qd_table.specs.Tables.{hold_for, room_for, wants_for, fault_of};
ghost use Rattle.qd_table.specs.Steps.{IsCause};
ghost use Rattle.qd_ticker.specs.Legal.{TickerEntry, no_terms, IsLegal};
ghost use Rattle.qd_ticker.specs.Asking.{MayAsk};
ghost use Rattle.qd_ticker.specs.Stripes.{Stands};
ghost use Rattle.qd_ticker.specs.Steps.{IsPut, IsAdded, IsDropped, IsGiven, IsRoomier, HasRoom, IsTelling, Leads, Takes, Adds, Answers, add_acts};

use crate::lasts::{drop_last, has_last, last_of, reserve_lasts, set_last};
use crate::queues::{drop_slot, empty_queues, pop_slot, queue_for_all, queue_slot, reserve_queue};
use qd_buffer::Buffer;
use qd_gate::{Machine, NoMemory};
use qd_pend::PendQueue;
use qd_scheme::{AgentNo, Key, Record, WatcherNo};
use qd_sub::{Op, Reply, Sub, Want};
use qd_table::{SubFault, SubTable};
use std::alloc::{AllocError, Global};
use std::marker::Model;

/// One part of the ticker: subscriptions, the last record of each wanted key, and which keys are pending for whom.
///
/// A key has a slot of the table while it is held, and all else is kept by slots. Only `new` and an Add take memory.
#[derive(Drop)]
pub struct TickerStripe {
    table: SubTable,
    lasts: Vec<Option<Record>>,
    queues: Vec<PendQueue>,
}

impl Model for TickerStripe {
    ghost use Rattle.qd_ticker.specs.Stripes.{Shown};
    ghost use Rattle.qd_ticker.specs.Sound.{IsSound};

    ghost Value = { Shown };

    ghost view = { λ s. record { table = s.table; lasts = s.lasts.items; queues = s.queues.items } };

    ghost invariant = { λ s. IsSound s.table s.lasts.items s.queues.items };
}

impl TickerStripe {
    /// A stripe without subscriptions. Keys are hashed with the seed 0.
    pub fn new(alloc: Global) -> Result<TickerStripe, NoMemory>
        ensures { IfOk result (λ s. Stands s []) }
    {
        TickerStripe::with_seed(alloc, 0)
    }

    /// A stripe without subscriptions. Keys are hashed with a seed, on which no answer depends.
    pub fn with_seed(alloc: Global, seed: u64) -> Result<TickerStripe, NoMemory>
        ensures { IfOk result (λ s. Stands s []) }
    {
        let table = SubTable::with_seed(alloc, seed)?;
        let queues = empty_queues(alloc)?;
        Ok(TickerStripe {
            table,
            lasts: Vec::new(alloc),
            queues,
        })
    }

    /// Keeps a record as the last one of its key, which becomes pending for each of its agents.
    fn put(&mut self, latest: &Record)
        ensures { IsPut self.old latest.now self.new }
    {
        if let Some(slot) = self.table.slot_of(&latest.key) {
            if queue_for_all(&mut self.queues, &self.table, slot) {
                set_last(&mut self.lasts, slot, latest);
            }
        }
    }

    /// Subscribes an agent to a key, and tells its slot.
    fn subscribe(&mut self, agent: AgentNo, key: &Key) -> u32
        requires subscriptions { 0 < room_for self.old.table agent }
        requires room { HasRoom self.old agent }
        ensures { IsAdded self.old agent key.now result self.new }
    {
        let number = agent.get();
        let was = self.table.limit_of(agent, key).is_some();
        let slot = self.table.subscribe(agent, key, 0);
        if !was && has_last(&self.lasts, slot) {
            queue_slot(&mut self.queues, number, slot);
        }
        slot
    }

    /// Ends an agent's subscription to a slot.
    fn end(&mut self, agent: AgentNo, slot: u32)
        requires { is_subscribed (hold_for self.old.table agent slot) ≡ true }
        ensures { IsDropped self.old agent slot self.new }
    {
        drop_slot(&mut self.queues, agent.get(), slot);
        if self.table.end(agent, slot, false) {
            drop_last(&mut self.lasts, slot);
        }
    }

    /// The last record of an agent's first pending key, which is then pending no more.
    fn take_first(&mut self, agent: AgentNo) -> Option<Record>
        ensures { IsGiven self.old agent result self.new }
    {
        match pop_slot(&mut self.queues, agent.get()) {
            None => None,
            Some(slot) => last_of(&self.lasts, slot),
        }
    }

    fn put_all(&mut self, items: &[Record])
        ensures { Leads self.old (λ now. map (λ r. Came r.key r) items.now) self.new }
    {
        for latest in items {
            self.put(latest);
        }
    }

    /// Judges an Add, and makes room for it and for all that the agent may have pending.
    fn admit(&mut self, agent: AgentNo, subs: &[Sub]) -> Result<(), SubFault>
        requires { length subs.now ≤ 4096 }
        ensures same { IsRoomier self.old self.new }
        ensures allowed { OnOk result (fault_of self.old.table agent subs.now ≡ None) }
        ensures subscriptions { OnOk result (length subs.now ≤ room_for self.new.table agent) }
        ensures room { OnOk result (HasRoom self.new agent) }
        ensures refused { IfErr result (λ fault. IsCause self.old.table agent subs.now fault) }
    {
        self.table.admit(agent, subs)?;
        match self.reserve(agent) {
            Err(_) => Err(SubFault::NoMemory),
            Ok(()) => Ok(()),
        }
    }

    /// Makes room for all slots of the table, and for all that the agent may have pending.
    fn reserve(&mut self, agent: AgentNo) -> Result<(), AllocError>
        ensures table { self.new.table ≡ self.old.table }
        ensures same { IsRoomier self.old self.new }
        ensures room { OnOk result (HasRoom self.new agent) }
    {
        let slots = self.table.slots();
        reserve_lasts(&mut self.lasts, slots)?;
        reserve_queue(&mut self.queues, agent.get(), slots)
    }

    fn subscribe_all(&mut self, agent: AgentNo, subs: &[Sub])
        requires subscriptions { length subs.now ≤ room_for self.old.table agent }
        requires room { HasRoom self.old agent }
        ensures { Leads self.old (λ now. add_acts agent subs.now) self.new }
    {
        for sub in subs {
            self.subscribe(agent, &sub.key);
        }
    }

    fn add(&mut self, agent: AgentNo, subs: &[Sub]) -> Reply<Record>
        requires { length subs.now ≤ 4096 }
        ensures { Adds self.old agent subs.now result self.new }
    {
        match self.admit(agent, subs) {
            Err(SubFault::TooManyKeys) => Reply::TooManyKeys,
            Err(SubFault::TooManySubs) => Reply::TooManySubs,
            Err(SubFault::NoMemory) => Reply::NoMemory,
            Ok(()) => {
                self.subscribe_all(agent, subs);
                Reply::Done
            }
        }
    }

    fn remove_one(&mut self, agent: AgentNo, key: &Key)
        ensures { Leads self.old (λ now. ends_of agent now (key.now ∷ [])) self.new }
    {
        if let Some(slot) = self.table.slot_of(key) {
            if self.table.is_subscribed(agent, slot) {
                self.end(agent, slot);
            }
        }
    }

    fn remove(&mut self, agent: AgentNo, keys: &[Key])
        ensures { Leads self.old (λ now. ends_of agent now keys.now) self.new }
    {
        for key in keys {
            self.remove_one(agent, key);
        }
    }

    fn close(&mut self, agent: AgentNo)
        ensures { Leads self.old (λ now. map (Unsubscribed agent) (keys_of agent now) ++ Closed agent ∷ []) self.new }
    {
        while let Some(slot) = self.table.first_slot(agent) {
            self.end(agent, slot);
        }
    }

    fn take(&mut self, agent: AgentNo, most: u16, out: &mut Buffer<Record>)
        requires empty { out.old.items ≡ [] }
        requires room { most ≤ out.old.room }
        ensures { Takes self.old agent most out.old out.new self.new }
    {
        for _i in 0..most {
            match self.take_first(agent) {
                None => return,
                Some(latest) => out.push(latest),
            }
        }
    }

    fn watch(&mut self, watcher: WatcherNo, most: u16, out: &mut Buffer<Want>)
        requires empty { out.old.items ≡ [] }
        requires room { most ≤ out.old.room }
        ensures told { out.new ≡ with_items out.old (wants_for self.old.table watcher most) }
        ensures left { IsTelling self.old watcher most self.new }
    {
        // A watcher's number is below 8, as the table's laws ask.
        let _ = watcher.get();
        self.table.watch(watcher, most, out);
    }

    fn apply(&mut self, op: Op<Record, Record>) -> Reply<Record>
        requires { MayAsk no_terms op }
        ensures step { Answers self.old op result self.new }
    {
        match op {
            Op::Add { agent, subs } => self.add(agent, subs.as_slice()),
            Op::Remove { agent, keys } => {
                self.remove(agent, keys.as_slice());
                Reply::Done
            }
            Op::Close { agent } => {
                self.close(agent);
                Reply::Done
            }
            Op::Put { items } => {
                self.put_all(items.as_slice());
                Reply::Done
            }
            Op::Take {
                agent,
                max,
                mut out,
            } => {
                self.take(agent, max, &mut out);
                Reply::Items(out)
            }
            Op::Watch {
                watcher,
                max,
                mut out,
            } => {
                self.watch(watcher, max, &mut out);
                Reply::Wants(out)
            }
        }
    }

    /// Answers one op. Whoever asks, the stripe then stands for each legal log for which it stood with the new entry, and that log is legal.
    pub fn step(&mut self, op: Op<Record, Record>) -> Reply<Record>
        requires { MayAsk no_terms op }
        ensures entered { (log : List TickerEntry) (who : ℕ) → Stands self.old log → IsLegal no_terms log
            → Stands self.new (log ++ entry who op result ∷ []) × IsLegal no_terms (log ++ entry who op result ∷ []) }
    {
        self.apply(op)
    }
}

impl Machine for TickerStripe {
    type Op = Op<Record, Record>;

    type Reply = Reply<Record>;

    ghost use Rattle.qd_ticker.specs.Asking.{MayAsk};
    ghost use Rattle.qd_ticker.specs.Legal.{no_terms, IsLegal};
    ghost use Rattle.qd_ticker.specs.Stripes.{Stands};

    ghost terms = { λ s. no_terms };

    ghost may_ask = { MayAsk };

    ghost legal = { IsLegal };

    ghost stands = { Stands };

    fn step(&mut self, op: Op<Record, Record>) -> Reply<Record> {
        self.apply(op)
    }
}
