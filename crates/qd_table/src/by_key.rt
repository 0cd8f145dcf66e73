//! The calls of a table by keys.

ghost use Rattle.std.specs.Prelude.{◌≡◌, ◌≤◌, ◌<◌, ℕ, true, false, not, length, Some, None, OnOk, OnErr, IfErr};
ghost use Rattle.std.specs.Prelude.{Bool};
ghost use Rattle.qd_scheme.specs.declared.key.Key.{Key};
ghost use Rattle.qd_scheme.specs.declared.key.Record.{Record};
ghost use Rattle.qd_sub.specs.Acts.{Moment};
ghost use Rattle.qd_slots.specs.Holds.{is_subscribed, is_kept};
ghost use Rattle.qd_table.specs.Tables.{slot_for, hold_for, limit_by, total_by, order_of, bits_from, bit_at, agent_bits, first_key, becomes_unwanted, room_for, fault_of};
ghost use Rattle.qd_table.specs.Bits.{SaysSubscribed};
ghost use Rattle.qd_table.specs.Steps.{IsSame, IsAdded, IsClosed, IsRemoved, IsLetGoBy, IsCause, SubscribesAll, EndsAll, LetsGo};

use crate::table::{SubFault, SubTable};
use qd_scheme::{AgentNo, Key};
use qd_sub::Sub;

impl SubTable {
    /// Subscribes an agent to all of these in order, or to none.
    pub fn add(&mut self, agent: AgentNo, subs: &[Sub]) -> Result<(), SubFault>
        requires { length subs.now ≤ 4096 }
        ensures added { OnOk result (IsAdded self.old agent subs.now self.new) }
        ensures same { OnErr result (IsSame self.old self.new) }
        ensures refused { IfErr result (λ fault. IsCause self.old agent subs.now fault) }
    {
        self.admit(agent, subs)?;
        self.subscribe_all(agent, subs);
        Ok(())
    }

    /// Ends an agent's subscription to a key, if it has one; with `keep` the pair stays held. Says whether the key became unwanted.
    pub fn remove(&mut self, agent: AgentNo, key: &Key, keep: bool) -> bool
        ensures unwanted { result ≡ becomes_unwanted self.old self.new key.now }
        ensures removed { IsRemoved self.old agent key.now keep self.new }
    {
        match self.slot_of(key) {
            None => false,
            Some(slot) => {
                let _slots = self.slots();
                if !self.is_subscribed(agent, slot) {
                    return false;
                }
                self.end(agent, slot, keep)
            }
        }
    }

    /// Lets go of what the agent kept of a key. A subscription stays.
    pub fn let_go(&mut self, agent: AgentNo, key: &Key)
        ensures { IsLetGoBy self.old agent key.now self.new }
    {
        match self.slot_of(key) {
            None => {}
            Some(slot) => self.let_go_at(agent, slot),
        }
    }

    /// Ends all subscriptions of an agent in the order in which they began, and lets go of what it kept.
    pub fn close(&mut self, agent: AgentNo)
        ensures { IsClosed self.old agent self.new }
    {
        self.end_all(agent);
        self.let_all_go(agent);
    }

    /// The key whose subscription by the agent began first.
    pub fn first_of(&self, agent: AgentNo) -> Option<Key>
        ensures { result ≡ first_key self.now agent }
    {
        match self.first_slot(agent) {
            None => None,
            Some(slot) => self.key_at(slot),
        }
    }

    /// The limit of an agent's subscription to a key.
    pub fn limit_of(&self, agent: AgentNo, key: &Key) -> Option<u64>
        ensures { result ≡ limit_by self.now agent key.now }
    {
        match self.slot_of(key) {
            None => None,
            Some(slot) => self.limit_at(agent, slot),
        }
    }

    /// The agents that are subscribed to a key, one bit each, agent 0 in the lowest place.
    pub fn agents_of(&self, key: &Key) -> u128
        ensures bits { result ≡ agent_bits self.now key.now }
        ensures subscribed { (keeps : ℕ → Key → Bool) (now : Moment Record Record) → SaysSubscribed self.now key.now result keeps now }
    {
        match self.slot_of(key) {
            None => 0,
            Some(slot) => self.agent_bits(slot),
        }
    }

    /// The least limit of the agents that are subscribed to a key.
    pub fn total(&self, key: &Key) -> Option<u64>
        ensures { result ≡ total_by self.now key.now }
    {
        match self.slot_of(key) {
            None => None,
            Some(slot) => self.total_at(slot),
        }
    }

    /// Subscribes an agent to all of these in order. There is room.
    fn subscribe_all(&mut self, agent: AgentNo, subs: &[Sub])
        requires { length subs.now ≤ room_for self.old agent }
        ensures { SubscribesAll self.old agent subs.now self.new }
    {
        for sub in subs {
            self.subscribe(agent, &sub.key, sub.limit);
        }
    }

    /// Ends all subscriptions of an agent.
    fn end_all(&mut self, agent: AgentNo)
        ensures { EndsAll self.old agent (order_of self.old agent) self.new }
    {
        while let Some(slot) = self.first_slot(agent) {
            self.end(agent, slot, false);
        }
    }

    /// Lets go of all that an agent kept.
    fn let_all_go(&mut self, agent: AgentNo)
        ensures { LetsGo self.old agent self.new }
    {
        while let Some(slot) = self.first_kept(agent) {
            self.let_go_at(agent, slot);
        }
    }

    /// The agents of a slot, one bit each.
    fn agent_bits(&self, slot: u32) -> u128
        ensures { result ≡ bits_from self.now slot 0 128 }
    {
        let mut bits = 0;
        for i in 0..128u8 {
            bits = 2 * bits + self.agent_bit(127 - i, slot);
        }
        bits
    }

    fn agent_bit(&self, agent: u8, slot: u32) -> u128
        requires { agent ≤ 127 }
        ensures { result ≡ bit_at self.now slot agent }
    {
        match AgentNo::of(agent) {
            None => unreachable!(),
            Some(agent) => {
                if self.is_subscribed(agent, slot) {
                    1
                } else {
                    0
                }
            }
        }
    }
}
