//! What the stripes of a collector give to a TAKE.
ghost use Rattle.std.specs.Prelude.{◌≡◌, ◌≤◌, ◌<◌, ◌-◌, ◌+◌, ◌++◌, [], IfOk, length, map};
ghost use Rattle.qd_path.specs.Lists.{Lists, AreOf};
ghost use Rattle.qd_replay.specs.Taking.{HasItems, HasEvents, GiveUpTo, TookNext};

use qd_buffer::Buffer;
use qd_calls::{ask_history, ask_stream, ask_ticker};
use qd_grammar::Collector;
use qd_hist_rules::HistoryReply;
use qd_history::HistItem;
use qd_hub::Hub;
use qd_replies::{Events, Items, Printer, Records};
use qd_scheme::{AgentNo, Record};
use qd_stream::StreamItem;
use qd_sub::{Op, Reply};
use std::alloc::{AllocError, Global};
use std::marker::Model;

/// The most items of a TAKE.
const MOST: u16 = 4096;

/// What a TAKE is given in: a buffer for all items, and one for those of a single stripe.
#[derive(Drop)]
pub struct Room<T: Copy> {
    all: Buffer<T>,
    part: Buffer<T>,
}

impl<T: Copy> Model for Room<T> {
    ghost use Rattle.std.specs.Prelude.{◌≡◌, List};
    ghost use Rattle.qd_replay.specs.Running.{empty};

    ghost Value = { List T };

    ghost view = { λ r. r.all.items };

    ghost invariant = { λ r. (r.all.room ≡ 4096) × (r.part ≡ empty) };
}

impl<T: Copy> Room<T> {
    /// Nothing came yet.
    pub fn new(alloc: Global) -> Result<Room<T>, AllocError>
        ensures { IfOk result (λ r. r ≡ []) }
    {
        Ok(Room {
            all: Buffer::with_room(alloc, MOST)?,
            part: Buffer::with_room(alloc, MOST)?,
        })
    }

    /// Lets the items go.
    pub fn clear(&mut self)
        ensures { self.new ≡ [] }
    {
        self.all.clear();
    }

    /// All items that came.
    pub fn items(&self) -> &[T]
        ensures { result.now ≡ self.now }
    {
        self.all.as_slice()
    }
}

/// A collector, as it gives items to agents.
pub trait Giver<H: Hub>: Printer {
    ghost use Rattle.std.specs.Prelude.{◌≡◌, ◌≤◌, ◌<◌, length, map};
    ghost use Rattle.qd_grammar.specs.declared.item.Collector.{Collector};
    ghost use Rattle.qd_path.specs.Lists.{Lists, AreOf};
    ghost use Rattle.qd_replay.specs.Running.{empty};
    ghost use Rattle.qd_replay.specs.Taking.{Gives};

    ghost giver: { Collector };

    fn collector() -> Collector
        ensures { result ≡ giver };

    /// Asks a stripe of a hub that is alone for at most `max` items.
    fn ask(
        hub: &mut H,
        stripe: u8,
        agent: AgentNo,
        max: u16,
        out: Buffer<Self::Given>,
    ) -> Buffer<Self::Given>
        requires alone { H.is_alone hub.old }
        requires stripe { stripe < H.stripes hub.old }
        requires low { 1 ≤ max }
        requires high { max ≤ 4096 }
        requires out { out ≡ empty }
        ensures same { (H.home hub.new ≡ H.home hub.old) × (H.stripes hub.new ≡ H.stripes hub.old) }
        ensures alone { H.is_alone hub.new }
        ensures room { result.room ≡ 4096 }
        ensures few { length result.items ≤ max }
        ensures gives { (l : Lists) → AreOf (H.stripes hub.old) (H.ticker hub.old) (H.stream hub.old) (H.history hub.old) l
            → (m : Lists) × AreOf (H.stripes hub.old) (H.ticker hub.new) (H.stream hub.new) (H.history hub.new) m
            × Gives (H.stripes hub.old) giver agent stripe max (map Self.shown result.items) l m };
}

/// The items of a reply to a Take.
fn items_of<T: Copy>(reply: Reply<T>) -> Buffer<T>
    requires { HasItems reply }
    ensures { reply ≡ Reply.Items result }
{
    match reply {
        Reply::Items(items) => items,
        _ => unreachable!(),
    }
}

fn events_of(reply: HistoryReply) -> Buffer<HistItem>
    requires { HasEvents reply }
    ensures { reply ≡ HistoryReply.Items result }
{
    match reply {
        HistoryReply::Items(items) => items,
        _ => unreachable!(),
    }
}

/// The call by which an agent takes at most `max` items.
fn take<P: Copy, T: Copy>(agent: AgentNo, max: u16, out: Buffer<T>) -> Op<P, T>
    ensures { result ≡ Op.Take agent max out }
{
    Op::Take { agent, max, out }
}

impl<H: Hub> Giver<H> for Records {
    ghost use Rattle.std.specs.Prelude.{◌≡◌, ◌≤◌, ◌<◌, length, map};
    ghost use Rattle.qd_grammar.specs.declared.item.Collector.TheVariants.{Ticker};
    ghost use Rattle.qd_path.specs.Lists.{Lists, AreOf};
    ghost use Rattle.qd_path.specs.Texts.{ticker_item};
    ghost use Rattle.qd_replay.specs.Running.{empty};
    ghost use Rattle.qd_replay.specs.Taking.{Gives};

    ghost giver = { Ticker };

    fn collector() -> Collector {
        Collector::Ticker
    }

    fn ask(hub: &mut H, stripe: u8, agent: AgentNo, max: u16, out: Buffer<Record>) -> Buffer<Record>
        requires alone { H.is_alone hub.old }
        requires stripe { stripe < H.stripes hub.old }
        requires low { 1 ≤ max }
        requires high { max ≤ 4096 }
        requires out { out ≡ empty }
        ensures same { (H.home hub.new ≡ H.home hub.old) × (H.stripes hub.new ≡ H.stripes hub.old) }
        ensures alone { H.is_alone hub.new }
        ensures room { result.room ≡ 4096 }
        ensures few { length result.items ≤ max }
        ensures gives { (l : Lists) → AreOf (H.stripes hub.old) (H.ticker hub.old) (H.stream hub.old) (H.history hub.old) l
            → (m : Lists) × AreOf (H.stripes hub.old) (H.ticker hub.new) (H.stream hub.new) (H.history hub.new) m
            × Gives (H.stripes hub.old) Ticker agent stripe max (map ticker_item result.items) l m }
    {
        match ask_ticker(hub, stripe, take(agent, max, out)) {
            Ok(reply) => items_of(reply),
            // A hub that is alone always answers.
            Err(_) => unreachable!(),
        }
    }
}

impl<H: Hub> Giver<H> for Items {
    ghost use Rattle.std.specs.Prelude.{◌≡◌, ◌≤◌, ◌<◌, length, map};
    ghost use Rattle.qd_grammar.specs.declared.item.Collector.TheVariants.{Stream};
    ghost use Rattle.qd_path.specs.Lists.{Lists, AreOf};
    ghost use Rattle.qd_path.specs.Texts.{stream_item};
    ghost use Rattle.qd_replay.specs.Running.{empty};
    ghost use Rattle.qd_replay.specs.Taking.{Gives};

    ghost giver = { Stream };

    fn collector() -> Collector {
        Collector::Stream
    }

    fn ask(
        hub: &mut H,
        stripe: u8,
        agent: AgentNo,
        max: u16,
        out: Buffer<StreamItem>,
    ) -> Buffer<StreamItem>
        requires alone { H.is_alone hub.old }
        requires stripe { stripe < H.stripes hub.old }
        requires low { 1 ≤ max }
        requires high { max ≤ 4096 }
        requires out { out ≡ empty }
        ensures same { (H.home hub.new ≡ H.home hub.old) × (H.stripes hub.new ≡ H.stripes hub.old) }
        ensures alone { H.is_alone hub.new }
        ensures room { result.room ≡ 4096 }
        ensures few { length result.items ≤ max }
        ensures gives { (l : Lists) → AreOf (H.stripes hub.old) (H.ticker hub.old) (H.stream hub.old) (H.history hub.old) l
            → (m : Lists) × AreOf (H.stripes hub.old) (H.ticker hub.new) (H.stream hub.new) (H.history hub.new) m
            × Gives (H.stripes hub.old) Stream agent stripe max (map stream_item result.items) l m }
    {
        match ask_stream(hub, stripe, take(agent, max, out)) {
            Ok(reply) => items_of(reply),
            // A hub that is alone always answers.
            Err(_) => unreachable!(),
        }
    }
}

impl<H: Hub> Giver<H> for Events {
    ghost use Rattle.std.specs.Prelude.{◌≡◌, ◌≤◌, ◌<◌, length, map};
    ghost use Rattle.qd_grammar.specs.declared.item.Collector.TheVariants.{History};
    ghost use Rattle.qd_path.specs.Lists.{Lists, AreOf};
    ghost use Rattle.qd_path.specs.Texts.{history_item};
    ghost use Rattle.qd_replay.specs.Running.{empty};
    ghost use Rattle.qd_replay.specs.Taking.{Gives};

    ghost giver = { History };

    fn collector() -> Collector {
        Collector::History
    }

    fn ask(
        hub: &mut H,
        stripe: u8,
        agent: AgentNo,
        max: u16,
        out: Buffer<HistItem>,
    ) -> Buffer<HistItem>
        requires alone { H.is_alone hub.old }
        requires stripe { stripe < H.stripes hub.old }
        requires low { 1 ≤ max }
        requires high { max ≤ 4096 }
        requires out { out ≡ empty }
        ensures same { (H.home hub.new ≡ H.home hub.old) × (H.stripes hub.new ≡ H.stripes hub.old) }
        ensures alone { H.is_alone hub.new }
        ensures room { result.room ≡ 4096 }
        ensures few { length result.items ≤ max }
        ensures gives { (l : Lists) → AreOf (H.stripes hub.old) (H.ticker hub.old) (H.stream hub.old) (H.history hub.old) l
            → (m : Lists) × AreOf (H.stripes hub.old) (H.ticker hub.new) (H.stream hub.new) (H.history hub.new) m
            × Gives (H.stripes hub.old) History agent stripe max (map history_item result.items) l m }
    {
        match ask_history(hub, stripe, take(agent, max, out)) {
            Ok(reply) => events_of(reply),
            // A hub that is alone always answers.
            Err(_) => unreachable!(),
        }
    }
}

/// Moves items behind others.
fn append<T: Copy>(all: &mut Buffer<T>, part: &[T])
    requires { length all.old.items + length part.now ≤ all.old.room }
    ensures items { all.new.items ≡ all.old.items ++ part.now }
    ensures room { all.new.room ≡ all.old.room }
{
    for item in part {
        all.push(*item);
    }
}

/// Asks the next stripe for what is still to be given.
fn take_next<H: Hub, G: Giver<H>>(
    hub: &mut H,
    stripe: u8,
    agent: AgentNo,
    max: u16,
    room: Room<G::Given>,
) -> Room<G::Given>
    requires alone { H.is_alone hub.old }
    requires stripe { stripe < H.stripes hub.old }
    requires high { max ≤ 4096 }
    requires few { length room ≤ max }
    ensures same { (H.home hub.new ≡ H.home hub.old) × (H.stripes hub.new ≡ H.stripes hub.old) }
    ensures alone { H.is_alone hub.new }
    ensures few { length result ≤ max }
    ensures takes { (l : Lists) → AreOf (H.stripes hub.old) (H.ticker hub.old) (H.stream hub.old) (H.history hub.old) l
        → (m : Lists) × AreOf (H.stripes hub.old) (H.ticker hub.new) (H.stream hub.new) (H.history hub.new) m
        × TookNext (H.stripes hub.old) G.giver agent stripe (max - length room) (map G.shown room) (map G.shown result) l m }
{
    let Room { mut all, mut part } = room;
    let left = max - all.as_slice().len() as u16;
    if left == 0 {
        return Room { all, part };
    }
    if all.as_slice().is_empty() {
        all = G::ask(hub, stripe, agent, left, all);
        return Room { all, part };
    }
    part = G::ask(hub, stripe, agent, left, part);
    append(&mut all, part.as_slice());
    part.clear();
    Room { all, part }
}

/// Asks the stripes of a collector, one after the other, until `max` items came.
pub fn take_all<H: Hub, G: Giver<H>>(
    hub: &mut H,
    agent: AgentNo,
    max: u16,
    mut room: Room<G::Given>,
) -> Room<G::Given>
    requires alone { H.is_alone hub.old }
    requires high { max ≤ 4096 }
    requires new { room ≡ [] }
    ensures same { (H.home hub.new ≡ H.home hub.old) × (H.stripes hub.new ≡ H.stripes hub.old) }
    ensures alone { H.is_alone hub.new }
    ensures few { length result ≤ max }
    ensures takes { (l : Lists) → AreOf (H.stripes hub.old) (H.ticker hub.old) (H.stream hub.old) (H.history hub.old) l
        → (m : Lists) × AreOf (H.stripes hub.old) (H.ticker hub.new) (H.stream hub.new) (H.history hub.new) m
        × GiveUpTo (H.stripes hub.old) G.giver agent max (H.stripes hub.old) (map G.shown result) l m }
{
    for stripe in 0..hub.stripes() {
        room = take_next::<H, G>(hub, stripe, agent, max, room);
    }
    room
}
