//! The subscriptions, the held pairs and the watchers of a stripe.

ghost use Rattle.std.specs.Prelude.{◌≡◌, ◌≤◌, ◌<◌, ℕ, true, false, not, if◌then◌else◌, length, is_some, Some, None, IfOk, OnOk, IfErr, IfSome, IfNone};
ghost use Rattle.qd_pend.specs.Slots.{first_in, next_in};
ghost use Rattle.qd_slots.specs.Holds.{is_subscribed, is_kept};
ghost use Rattle.qd_table.specs.Tables.{no_table, slots_in, keys_in, pairs_in, key_at, slot_for, hold_for, limit_for, order_of, total_for, is_wanted_slot, queue_of, room_for, want_for, fault_of};
ghost use Rattle.qd_table.specs.declared.table.SubFault.TheVariants.{NoMemory};
ghost use Rattle.qd_table.specs.Sound.{IsSound};
ghost use Rattle.qd_table.specs.Steps.{IsSame, IsSubscribed, IsEnded, IsLetGo, IsTold, IsNextAgent, IsCause};

use crate::judge::judge;
use crate::parts::{free_unused, keep_if, reserve, slot_or_new};
use indexmap::IndexSet;
use qd_scheme::{AgentNo, Key, SeededState, WatcherNo};
use qd_slots::{Holds, Kept, Names, View, Watchers};
use qd_sub::{Sub, Want};
use std::alloc::{AllocError, Global};
use std::marker::Model;

/// An Add has at most so many items.
const MOST_SUBS: usize = 4096;

/// Why an agent may not subscribe. All is then as before.
#[derive(Clone, Copy, Debug, PartialEq, Eq)]
pub enum SubFault {
    /// More than 16,384 keys would be held.
    TooManyKeys,
    /// More than 262,144 pairs of an agent and a key would be held.
    TooManySubs,
    NoMemory,
}

/// Who is subscribed to what, which pairs and keys are held, and what the watchers are to be told.
///
/// A held key has a slot: a small number by which a collector keeps what else it knows of the key. The slot is the
/// key's while an agent is subscribed to it, while a pair of it is kept, or while a watcher knows a total of it.
/// Only `new`, `admit` and `add` take memory.
#[derive(Drop)]
pub struct SubTable {
    names: Names,
    // How many keys have a slot.
    named: u32,
    holds: Holds,
    kept: Kept,
    watchers: Watchers,
    // Keys that an Add named so far; empty between calls.
    seen: IndexSet<Key, SeededState>,
    // This agent can be subscribed so often without memory.
    agent: u8,
    room: u32,
}

impl Model for SubTable {
    ghost use Rattle.qd_table.specs.Tables.{Table};
    ghost use Rattle.qd_table.specs.Stored.{table_of, IsStored};
    ghost use Rattle.qd_table.specs.Judging.{IsReady};

    ghost Value = { Table };

    ghost view = { λ s. table_of (record { names = s.names; named = s.named; holdings = s.holds; kept = s.kept; viewings = s.watchers; agent = s.agent; room = s.room }) };

    ghost invariant = { λ s. (IsStored (record { names = s.names; named = s.named; holdings = s.holds; kept = s.kept; viewings = s.watchers; agent = s.agent; room = s.room })) × (IsReady s.seen) };
}

impl SubTable {
    /// No subscriptions, and no watcher knows anything. Keys are hashed with the seed 0.
    pub fn new(alloc: Global) -> Result<SubTable, AllocError>
        ensures { IfOk result (λ s. s ≡ no_table) }
    {
        SubTable::with_seed(alloc, 0)
    }

    /// No subscriptions, and no watcher knows anything. Keys are hashed with a seed, on which no answer depends.
    pub fn with_seed(alloc: Global, seed: u64) -> Result<SubTable, AllocError>
        ensures { IfOk result (λ s. s ≡ no_table) }
    {
        let names = Names::with_seed(alloc, seed)?;
        let holds = Holds::new(alloc)?;
        let kept = Kept::new(alloc)?;
        let watchers = Watchers::new(alloc)?;
        let seen = IndexSet::with_capacity_and_hasher(alloc, MOST_SUBS, SeededState::new(seed))?;
        Ok(SubTable {
            names,
            named: 0,
            holds,
            kept,
            watchers,
            seen,
            agent: 0,
            room: 0,
        })
    }

    /// Judges whether an agent may subscribe to these, and makes room for it. Nothing but the room changes.
    pub fn admit(&mut self, agent: AgentNo, subs: &[Sub]) -> Result<(), SubFault>
        requires { length subs.now ≤ 4096 }
        ensures same { IsSame self.old self.new }
        ensures allowed { OnOk result (fault_of self.old agent subs.now ≡ None) }
        ensures room { OnOk result (length subs.now ≤ room_for self.new agent) }
        ensures refused { IfErr result (λ fault. IsCause self.old agent subs.now fault) }
    {
        let agent = agent.get();
        let judged = judge(
            &self.names,
            self.named,
            &self.holds,
            &mut self.seen,
            agent,
            subs,
        );
        match judged {
            Err(fault) => Err(fault),
            Ok(()) => self.make_room(agent, subs.len() as u32),
        }
    }

    /// Makes room to subscribe an agent so often. Whatever the answer, nothing but the room changes.
    fn make_room(&mut self, agent: u8, more: u32) -> Result<(), SubFault>
        requires agent { agent < 128 }
        requires more { more ≤ 4096 }
        requires keys { length (keys_in self.old) ≤ 16384 }
        requires pairs { pairs_in self.old ≤ 262144 }
        ensures same { IsSame self.old self.new }
        ensures room { OnOk result (more ≤ room_for self.new agent) }
        ensures refused { IfErr result (λ fault. fault ≡ NoMemory) }
    {
        let reserved = reserve(
            &mut self.names,
            &mut self.holds,
            &mut self.kept,
            &mut self.watchers,
            agent,
            more,
        );
        let _pairs = self.holds.pairs();
        match reserved {
            Err(_) => Err(SubFault::NoMemory),
            Ok(()) => {
                self.agent = agent;
                self.room = more;
                Ok(())
            }
        }
    }

    /// Subscribes an agent to a key, or gives its subscription another limit. The slot of the key is told.
    pub fn subscribe(&mut self, agent: AgentNo, key: &Key, limit: u64) -> u32
        requires room { 0 < room_for self.old agent }
        ensures { IsSubscribed self.old agent key.now limit result self.new }
    {
        let agent = agent.get();
        let slot = slot_or_new(&mut self.names, &mut self.named, key);
        self.kept.remove(agent, slot);
        self.holds.subscribe(agent, slot, limit);
        let total = self.holds.total_of(slot);
        self.watchers.see(slot, total);
        self.room -= 1;
        slot
    }

    /// The slot of a key; none where the key is not held.
    pub fn slot_of(&self, key: &Key) -> Option<u32>
        ensures slot { result ≡ slot_for self.now key.now }
        ensures within { IfSome result (λ slot. slot < slots_in self.now) }
        ensures named { IfSome result (λ slot. key_at self.now slot ≡ Some key.now) }
    {
        self.names.slot_of(key)
    }

    /// The key of a slot; none where the slot is vacant.
    pub fn key_at(&self, slot: u32) -> Option<Key>
        ensures { result ≡ key_at self.now slot }
    {
        self.names.name_at(slot)
    }

    /// A number above all slots. Only `admit` and `add` raise it, and nothing lowers it.
    pub fn slots(&self) -> u32
        ensures slots { result ≡ slots_in self.now }
        ensures sound { IsSound self.now }
    {
        self.names.slots()
    }

    /// Whether an agent is subscribed to a slot.
    pub fn is_subscribed(&self, agent: AgentNo, slot: u32) -> bool
        ensures { result ≡ is_subscribed (hold_for self.now agent slot) }
    {
        if slot >= self.names.slots() {
            return false;
        }
        self.holds.hold_of(agent.get(), slot).is_subscribed()
    }

    /// The limit of an agent's subscription to a slot.
    pub fn limit_at(&self, agent: AgentNo, slot: u32) -> Option<u64>
        ensures { result ≡ limit_for self.now agent slot }
    {
        if slot >= self.names.slots() {
            return None;
        }
        self.holds.limit_of(agent.get(), slot)
    }

    /// Whether some agent is subscribed to a slot.
    pub fn is_wanted(&self, slot: u32) -> bool
        ensures { result ≡ is_wanted_slot self.now slot }
    {
        if slot >= self.names.slots() {
            return false;
        }
        self.holds.is_wanted(slot)
    }

    /// The least limit of the agents that are subscribed to a slot.
    pub fn total_at(&self, slot: u32) -> Option<u64>
        ensures { result ≡ total_for self.now slot }
    {
        if slot >= self.names.slots() {
            return None;
        }
        self.holds.total_of(slot)
    }

    /// The least agent from a number on that is subscribed to a slot.
    pub fn next_agent(&self, slot: u32, from: u8) -> Option<u8>
        ensures next { IfSome result (λ b. IsNextAgent self.now slot from b) }
        ensures none { IfNone result ((c : ℕ) → from ≤ c → is_subscribed (hold_for self.now c slot) ≡ false) }
    {
        if slot >= self.names.slots() {
            return None;
        }
        self.holds.next_agent(slot, from)
    }

    /// The slot whose subscription by the agent began first.
    pub fn first_slot(&self, agent: AgentNo) -> Option<u32>
        ensures first { result ≡ first_in (order_of self.now agent) }
        ensures subscribed { IfSome result (λ slot. is_subscribed (hold_for self.now agent slot) ≡ true) }
        ensures sound { IsSound self.now }
    {
        self.holds.first_of(agent.get())
    }

    /// Ends an agent's subscription to a slot; with `keep` the pair stays held. Says whether the slot's key became unwanted.
    pub fn end(&mut self, agent: AgentNo, slot: u32, keep: bool) -> bool
        requires { is_subscribed (hold_for self.old agent slot) ≡ true }
        ensures unwanted { result ≡ not (is_wanted_slot self.new slot) }
        ensures ended { IsEnded self.old agent slot keep self.new }
    {
        let agent = agent.get();
        self.holds.end(agent, slot, keep);
        keep_if(&mut self.kept, agent, slot, keep);
        let total = self.holds.total_of(slot);
        self.watchers.see(slot, total);
        free_unused(
            &mut self.names,
            &mut self.named,
            &self.holds,
            &self.watchers,
            slot,
        );
        total.is_none()
    }

    /// A slot that the agent keeps without a subscription.
    pub fn first_kept(&self, agent: AgentNo) -> Option<u32>
        ensures kept { IfSome result (λ slot. is_kept (hold_for self.now agent slot) ≡ true) }
        ensures none { IfNone result ((slot : ℕ) → is_kept (hold_for self.now agent slot) ≡ false) }
        ensures sound { IsSound self.now }
    {
        self.kept.first_of(agent.get())
    }

    /// Lets go of what the agent kept of a slot. A subscription stays.
    pub fn let_go_at(&mut self, agent: AgentNo, slot: u32)
        ensures { IsLetGo self.old agent slot self.new }
    {
        if slot >= self.names.slots() {
            return;
        }
        let agent = agent.get();
        self.kept.remove(agent, slot);
        self.holds.let_go(agent, slot);
        free_unused(
            &mut self.names,
            &mut self.named,
            &self.holds,
            &self.watchers,
            slot,
        );
    }

    /// What a watcher is to be told of a slot.
    pub fn want_at(&self, watcher: WatcherNo, slot: u32) -> Option<Want>
        ensures { result ≡ want_for self.now watcher slot }
    {
        match self.names.name_at(slot) {
            None => None,
            Some(key) => {
                let view = self.watchers.view_of(watcher.get(), slot);
                let total = to_tell(view, self.holds.total_of(slot));
                Some(Want { key, total })
            }
        }
    }

    /// The first slot that differs for a watcher.
    pub fn first_differing(&self, watcher: WatcherNo) -> Option<u32>
        ensures first { result ≡ first_in (queue_of self.now watcher) }
        ensures within { watcher < 8 }
        ensures sound { IsSound self.now }
    {
        self.watchers.first(watcher.get())
    }

    /// The slot that differs for a watcher right after this one; none after the last.
    pub fn next_differing(&self, watcher: WatcherNo, slot: u32) -> Option<u32>
        ensures { result ≡ next_in (queue_of self.now watcher) slot }
    {
        self.watchers.next_after(watcher.get(), slot)
    }

    /// A watcher was told what it is to be told of a slot.
    pub fn tell(&mut self, watcher: WatcherNo, slot: u32)
        requires { is_some (key_at self.old slot) ≡ true }
        ensures { IsTold self.old watcher slot self.new }
    {
        let watcher = watcher.get();
        let total = self.holds.total_of(slot);
        let told = to_tell(self.watchers.view_of(watcher, slot), total);
        self.watchers.tell(watcher, slot, told, total);
        free_unused(
            &mut self.names,
            &mut self.named,
            &self.holds,
            &self.watchers,
            slot,
        );
    }
}

/// What a watcher that knows this is to be told of a slot with this total.
fn to_tell(view: View, total: Option<u64>) -> Option<u64>
    ensures { result ≡ (if view.outdated then None else total) }
{
    if view.outdated { None } else { total }
}
