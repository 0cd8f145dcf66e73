//! The listeners of a stripe's history.

ghost use Rattle.std.specs.Prelude.{◌≡◌, ◌≢◌, ◌<◌, ◌∷◌, [], ℕ, List, true, false, IfOk, IfSome, length, map};
ghost use Rattle.qd_scheme.specs.declared.key.Event.{Event};
ghost use Rattle.qd_flags.specs.Following.{StandsFor};
ghost use Rattle.qd_tape.specs.Scripts.{fed_key};
ghost use Rattle.qd_load.specs.Counting.{AreFed, HearsAt, IsFed, IsFedAt, NoneMissed, entries_in, entries_of, stopped};
ghost use Rattle.qd_load.specs.Given.{of_key, with_items, with_reply};

use qd_flags::Listener;
use qd_hist_rules::{HistItem, HistoryReply};
use qd_scheme::{Event, Key, Sym};
use std::alloc::{AllocError, Global};
use std::marker::Model;

/// The listener of a key.
#[derive(Drop)]
pub struct Shelf {
    key: Key,
    listener: Listener,
}

impl Model for Shelf {
    ghost use Rattle.qd_load.specs.Counting.{Shelf as Seen};

    ghost Value = { Seen };

    ghost view = { λ s. record { key = s.key; listener = s.listener } };
}

/// The listeners of the keys of a script, and whether an event was missed for want of memory.
#[derive(Drop)]
pub struct Views {
    shelves: Vec<Shelf>,
    missed: bool,
}

impl Model for Views {
    ghost use Rattle.qd_load.specs.Counting.{Views as Seen};

    ghost Value = { Seen };

    ghost view = { λ v. record { shelves = v.shelves.items; missed = v.missed } };
}

impl Shelf {
    /// Hears an event where it is of its key. False where memory was wanted.
    fn hear(&mut self, event: &Event) -> bool
        ensures key { self.new.key ≡ self.old.key }
        ensures fed { (past : List Event) → result ≡ true → StandsFor self.old.listener (of_key self.old.key past) → StandsFor self.new.listener (of_key self.old.key (event.now ∷ past)) }
    {
        if !self.key.is_same(&event.key) {
            return true;
        }
        self.listener.feed(event).is_ok()
    }
}

/// The one at a place hears an event.
fn hear_one(shelves: &mut Vec<Shelf>, i: usize, event: &Event) -> bool
    requires { i < length shelves.old.items }
    ensures { HearsAt shelves.old.items i event.now result shelves.new.items }
{
    shelves[i].hear(event)
}

/// All hear an event, up to one that wants memory: then the answer is false.
fn hear_all(shelves: &mut Vec<Shelf>, event: &Event) -> bool
    ensures keys { map (λ s. s.key) shelves.new.items ≡ map (λ s. s.key) shelves.old.items }
    ensures fed { (past : List Event) → result ≡ true → AreFed shelves.old.items past → AreFed shelves.new.items (event.now ∷ past) }
{
    for i in 0..shelves.len() {
        if !hear_one(shelves, i, event) {
            return false;
        }
    }
    true
}

impl Views {
    /// One event more.
    fn hear(&mut self, event: &Event)
        ensures { (past : List Event) → IsFed self.old past → IsFed self.new (event.now ∷ past) }
    {
        if !hear_all(&mut self.shelves, event) {
            self.missed = true;
        }
    }

    /// The events of items that were given.
    pub fn hear_items(&mut self, items: &[HistItem])
        ensures { (past : List Event) → IsFed self.old past → IsFed self.new (with_items items.now past) }
    {
        for item in items {
            self.hear(&item.event);
        }
    }
}

/// How many entries the maps of these listeners have.
fn count_entries(shelves: &[Shelf]) -> u64
    ensures { result ≡ stopped (entries_of shelves.now) }
{
    let mut all: u64 = 0;
    for shelf in shelves {
        all = all.saturating_add(shelf.listener.len() as u64);
    }
    all
}

/// How many entries the maps of all these listeners have; none where an event was missed.
pub fn entries_in(views: &[Views]) -> Option<u64>
    ensures none_missed { IfSome result (λ _. NoneMissed views.now) }
    ensures entries { IfSome result (λ n. n ≡ stopped (entries_in views.now)) }
{
    let mut all: u64 = 0;
    for view in views {
        if view.missed {
            return None;
        }
        all = all.saturating_add(count_entries(view.shelves.as_slice()));
    }
    Some(all)
}

/// The events that a reply of a stripe gave are heard.
pub fn hear_at(views: &mut Vec<Views>, stripe: u8, reply: &HistoryReply)
    requires { stripe < length views.old.items }
    ensures here { (past : List Event) → IsFedAt views.old.items stripe past → IsFedAt views.new.items stripe (with_reply reply.now past) }
    ensures len { length views.new.items ≡ length views.old.items }
    ensures others { (i : ℕ) (past : List Event) → i ≢ stripe → IsFedAt views.old.items i past → IsFedAt views.new.items i past }
{
    if let HistoryReply::Items(given) = reply {
        views[usize::from(stripe)].hear_items(given.as_slice());
    }
}

/// The key of a digit.
fn key_of(digit: u8) -> Key
    requires { digit < 10 }
    ensures { result ≡ fed_key 2 digit }
{
    match Sym::of(&[b'S', b'0' + digit]) {
        Ok(sym) => Key { rec: 2, sym },
        Err(_) => unreachable!(),
    }
}

/// A listener for each key of the script, which heard nothing.
fn no_view(alloc: Global) -> Result<Views, AllocError>
    ensures { IfOk result (λ v. IsFed v []) }
{
    let mut shelves = Vec::with_capacity(alloc, 10)?;
    for digit in 0..10u8 {
        shelves.push(Shelf {
            key: key_of(digit),
            listener: Listener::new(alloc)?,
        })?;
    }
    Ok(Views {
        shelves,
        missed: false,
    })
}

/// For each stripe.
pub fn no_views(alloc: Global, stripes: u8) -> Result<Vec<Views>, AllocError>
    ensures len { IfOk result (λ views. length views.items ≡ stripes) }
    ensures none { IfOk result (λ views. (i : ℕ) → i < stripes → IsFedAt views.items i []) }
{
    let mut views = Vec::with_capacity(alloc, usize::from(stripes))?;
    for _ in 0..stripes {
        views.push(no_view(alloc)?)?;
    }
    Ok(views)
}
