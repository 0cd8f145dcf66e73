//! The body lines of one message.
ghost use Rattle.std.specs.Prelude.{◌≡◌, ◌<◌, ◌≤◌, true, false};
ghost use Rattle.qd_grammar.specs.declared.item.Item.TheVariants as items;
ghost use Rattle.qd_path.specs.declared.kind.Kind.TheVariants as kinds;
ghost use Rattle.qd_path.specs.Groups.{size, is_full, no_group, kind_of};
ghost use Rattle.qd_calls.specs.Joining.{Joins, joined_of};

use crate::kind::{
    is_adding, is_feeding, is_index, is_limiting, is_losing, is_putting, is_removing, is_streaming,
};
use qd_grammar::{Item, Message};
use qd_scheme::{Event, Key, Record};
use qd_stream::StreamItem;
use qd_sub::Sub;
use std::alloc::Global;
use std::marker::Model;

/// The most body lines of a group.
const MOST: usize = 4096;

/// What became of a body line.
#[derive(Clone, Copy, Debug, PartialEq, Eq, Drop)]
pub enum Joined {
    Joined,
    Foreign,
    NoMemory,
}

/// The body lines of one message, for the call that they lead to.
#[derive(Drop)]
pub struct OpenGroup {
    pub subs: Vec<Sub>,
    pub keys: Vec<Key>,
    pub records: Vec<Record>,
    pub items: Vec<StreamItem>,
    pub events: Vec<Event>,
}

impl Model for OpenGroup {
    ghost use Rattle.std.specs.Prelude.{◌<◌, ◌^◌, All};
    ghost use Rattle.qd_stream.specs.Items.{weight};
    ghost use Rattle.qd_path.specs.Groups.{Group};

    ghost Value = { Group };

    ghost view = { λ g. record { subs = g.subs.items; keys = g.keys.items; records = g.records.items; items = g.items.items; events = g.events.items } };

    ghost invariant = { λ g. All (λ i. 0 < weight i) g.items.items × All (λ s. s.limit < 2 ^ 63) g.subs.items × All (λ e. e.index < 2 ^ 63) g.events.items };
}

impl OpenGroup {
    /// No body line.
    pub fn new(alloc: Global) -> OpenGroup
        ensures { result ≡ no_group }
    {
        OpenGroup {
            subs: Vec::new(alloc),
            keys: Vec::new(alloc),
            records: Vec::new(alloc),
            items: Vec::new(alloc),
            events: Vec::new(alloc),
        }
    }

    /// Lets its lines go; the room stays.
    pub fn clear(&mut self)
        ensures { self.new ≡ no_group }
    {
        self.subs.clear();
        self.keys.clear();
        self.records.clear();
        self.items.clear();
        self.events.clear();
    }

    /// Whether it has no line.
    pub fn is_empty(&self) -> bool
        ensures yes { result ≡ true → size self.now ≡ 0 }
        ensures no { result ≡ false → 0 < size self.now }
    {
        self.subs.is_empty()
            && self.keys.is_empty()
            && self.records.is_empty()
            && self.items.is_empty()
            && self.events.is_empty()
    }

    /// Whether it has 4096 lines, after which it ends.
    pub fn is_full(&self) -> bool
        requires { size self.now ≤ 4096 }
        ensures { result ≡ is_full self.now }
    {
        let lines = self.subs.len() + self.keys.len() + self.records.len();
        lines + self.items.len() + self.events.len() == MOST
    }

    /// A body line of a message joins.
    pub fn join(&mut self, message: Option<Message>, item: &Item) -> Joined
        requires { kind_of item.now ≡ kinds.Body }
        ensures { Joins message item.now result self.old self.new }
    {
        match item {
            Item::Rec(r) => self.join_record(message, r),
            Item::Lost(key, count) => self.join_lost(message, key, *count),
            Item::Sub(key) => self.join_key(message, key),
            Item::Ev(event) => self.join_event(message, event),
            Item::HistSub(sub) => self.join_sub(message, sub),
            _ => unreachable!(),
        }
    }

    fn join_record(&mut self, message: Option<Message>, r: &Record) -> Joined
        ensures { Joins message (items.Rec r.now) result self.old self.new }
    {
        if is_streaming(message) {
            return told_of(self.items.push(StreamItem::Rec(*r)));
        }
        if !is_putting(message) {
            return Joined::Foreign;
        }
        told_of(self.records.push(*r))
    }

    fn join_lost(&mut self, message: Option<Message>, key: &Key, count: u64) -> Joined
        ensures { Joins message (items.Lost key.now count) result self.old self.new }
    {
        if !is_losing(message) || count == 0 {
            return Joined::Foreign;
        }
        told_of(self.items.push(StreamItem::Lost(*key, count)))
    }

    fn join_event(&mut self, message: Option<Message>, event: &Event) -> Joined
        ensures { Joins message (items.Ev event.now) result self.old self.new }
    {
        if !is_feeding(message) || !is_index(event.index) {
            return Joined::Foreign;
        }
        told_of(self.events.push(*event))
    }

    fn join_sub(&mut self, message: Option<Message>, sub: &Sub) -> Joined
        ensures { Joins message (items.HistSub sub.now) result self.old self.new }
    {
        if !is_limiting(message) || !is_index(sub.limit) {
            return Joined::Foreign;
        }
        told_of(self.subs.push(*sub))
    }

    fn join_key(&mut self, message: Option<Message>, key: &Key) -> Joined
        ensures { Joins message (items.Sub key.now) result self.old self.new }
    {
        if is_adding(message) {
            return told_of(
                self.subs.push(Sub {
                    key: *key,
                    limit: 0,
                }),
            );
        }
        if !is_removing(message) {
            return Joined::Foreign;
        }
        told_of(self.keys.push(*key))
    }
}

fn told_of<E: Drop>(pushed: Result<(), E>) -> Joined
    ensures { result ≡ joined_of pushed }
{
    match pushed {
        Ok(()) => Joined::Joined,
        Err(_) => Joined::NoMemory,
    }
}
