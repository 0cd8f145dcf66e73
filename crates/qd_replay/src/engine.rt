//! What a script's items ask for is done.
ghost use Rattle.std.specs.Prelude.{◌≡◌, ◌<◌, ◌≤◌, [], true, false, IfOk};
ghost use Rattle.qd_outside.specs.Buffering.{Prints, Drains};
ghost use Rattle.qd_grammar.specs.declared.item.Item.TheVariants.{Protocol, End};
ghost use Rattle.qd_path.specs.Groups.{size};
ghost use Rattle.qd_path.specs.Lists.{Lists, AreOf};
ghost use Rattle.qd_path.specs.Texts.{line_of};
ghost use Rattle.qd_replay.specs.Scripts.{Script, start, is_taking};
ghost use Rattle.qd_replay.specs.Steps.{Calls, Given, ActsItself, Hears, ended_by};

use crate::due::{Refusal, make_all};
use crate::given::{Giver, Room, take_all};
use crate::printing::Printing;
use qd_calls::Reading;
use qd_grammar::{Collector, Item};
use qd_history::HistItem;
use qd_hub::Hub;
use qd_items::RunEnd;
use qd_outside::Sink;
use qd_path::Asked;
use qd_replies::{Events, Items, Records};
use qd_scheme::{AgentNo, Record, Scheme};
use qd_stream::StreamItem;
use std::alloc::{AllocError, Global};
use std::marker::Model;

/// Does what the items of a script ask for, one after the other.
#[derive(Drop)]
pub struct Engine {
    reading: Reading,
    link: AgentNo,
    due: Vec<Asked>,
    records: Option<Room<Record>>,
    items: Option<Room<StreamItem>>,
    events: Option<Room<HistItem>>,
    printing: Printing,
}

impl Model for Engine {
    ghost use Rattle.qd_replay.specs.Steps.{Kept};

    ghost Value = { Kept };

    ghost view = { λ e. record { script = record { place = e.reading; link = e.link }; held = e.printing } };
}

/// A TAKE asks for 1 to 4096 items.
fn is_taking(n: u64) -> bool
    ensures taking { result ≡ is_taking n }
    ensures low { result ≡ true → 1 ≤ n }
    ensures high { result ≡ true → n ≤ 4096 }
{
    n > 0 && n <= 4096
}

/// The end of a run whose call was refused.
fn ended_by(refusal: Refusal, line: u64) -> RunEnd
    ensures { result ≡ ended_by line refusal }
{
    match refusal {
        Refusal::TooMany(limit) => RunEnd::Refused { line, limit },
        Refusal::Spent => RunEnd::Spent,
        Refusal::NoMemory => RunEnd::NoMemory,
    }
}

/// The agent of a link.
fn agent_of(n: u8) -> AgentNo
    requires { n ≤ 127 }
    ensures { result ≡ n }
{
    match AgentNo::of(n) {
        Some(agent) => agent,
        None => unreachable!(),
    }
}

/// Lets the calls go that are left of those that were due; mostly there are none.
fn clear_due(due: &mut Vec<Asked>)
    ensures { due.new.items ≡ [] }
{
    if !due.is_empty() {
        due.clear();
    }
}

/// What a TAKE is given in: that of an earlier one, where there is one.
fn room_of<T: Copy>(alloc: Global, slot: &mut Option<Room<T>>) -> Result<Room<T>, AllocError>
    ensures { IfOk result (λ r. r ≡ []) }
{
    match slot.take() {
        Some(mut room) => {
            room.clear();
            Ok(room)
        }
        None => Room::new(alloc),
    }
}

/// Asks the stripes of a collector for at most `n` items for a link, and prints them.
fn give<H: Hub, G: Giver<H>, K: Sink>(
    alloc: Global,
    scheme: &Scheme,
    hub: &mut H,
    link: AgentNo,
    n: u16,
    slot: &mut Option<Room<G::Given>>,
    printing: &mut Printing,
    sink: &mut K,
) -> Option<RunEnd>
    requires alone { H.is_alone hub.old }
    requires high { n ≤ 4096 }
    ensures same { (H.home hub.new ≡ H.home hub.old) × (H.stripes hub.new ≡ H.stripes hub.old) }
    ensures alone { H.is_alone hub.new }
    ensures gives { (l : Lists) → AreOf (H.stripes hub.old) (H.ticker hub.old) (H.stream hub.old) (H.history hub.old) l
        → (m : Lists) × AreOf (H.stripes hub.old) (H.ticker hub.new) (H.stream hub.new) (H.history hub.new) m
        × Given (record { defs = scheme.now; stripes = H.stripes hub.old }) G.giver link n result printing.old l (record { written = K.written sink.old; faults = K.faults sink.old }) printing.new m (record { written = K.written sink.new; faults = K.faults sink.new }) }
{
    let room = match room_of(alloc, slot) {
        Err(_) => return Some(RunEnd::NoMemory),
        Ok(room) => room,
    };
    let room = take_all::<H, G>(hub, link, n, room);
    let shown = printing.reply::<G, K>(scheme, link.get(), G::collector(), room.items(), sink);
    *slot = Some(room);
    if !shown {
        return Some(RunEnd::WriteFault);
    }
    None
}

impl Engine {
    /// Before the first item: no head, link 0, no group, nothing printed.
    pub fn new(alloc: Global) -> Result<Engine, AllocError>
        ensures { IfOk result (λ e. e ≡ record { script = start; held = [] }) }
    {
        Ok(Engine {
            reading: Reading::new(alloc),
            link: agent_of(0),
            due: Vec::new(alloc),
            records: None,
            items: None,
            events: None,
            printing: Printing::new(alloc)?,
        })
    }

    /// Makes the calls of the group that an item ends. None where they were granted.
    fn call<H: Hub>(&mut self, alloc: Global, hub: &mut H, item: &Item) -> Option<Refusal>
        requires alone { H.is_alone hub.old }
        requires few { size self.old.script.place.group < 4096 }
        ensures same { (H.home hub.new ≡ H.home hub.old) × (H.stripes hub.new ≡ H.stripes hub.old) }
        ensures alone { H.is_alone hub.new }
        ensures held { self.new.held ≡ self.old.held }
        ensures calls { (l : Lists) → AreOf (H.stripes hub.old) (H.ticker hub.old) (H.stream hub.old) (H.history hub.old) l
            → (m : Lists) × AreOf (H.stripes hub.old) (H.ticker hub.new) (H.stream hub.new) (H.history hub.new) m
            × Calls (H.stripes hub.old) item.now result self.old.script self.new.script l m }
    {
        clear_due(&mut self.due);
        let heard = self
            .reading
            .hear(alloc, hub.stripes(), self.link, item, &mut self.due);
        if heard.is_err() {
            return Some(Refusal::NoMemory);
        }
        make_all(hub, &mut self.due)
    }

    /// Prints the first line of a text.
    fn greet<K: Sink>(&mut self, scheme: &Scheme, sink: &mut K) -> bool
        ensures printed { Prints result (line_of scheme.now Protocol) self.old.held self.new.held (K.written sink.old) (K.written sink.new) (K.faults sink.old) (K.faults sink.new) }
        ensures script { self.new.script ≡ self.old.script }
    {
        self.printing.say(scheme, &Item::Protocol, sink)
    }

    /// Prints the last line of a text.
    fn close<K: Sink>(&mut self, scheme: &Scheme, sink: &mut K) -> bool
        ensures printed { Prints result (line_of scheme.now End) self.old.held self.new.held (K.written sink.old) (K.written sink.new) (K.faults sink.old) (K.faults sink.new) }
        ensures script { self.new.script ≡ self.old.script }
    {
        self.printing.say(scheme, &Item::End, sink)
    }

    /// A TAKE.
    fn take<H: Hub, K: Sink>(
        &mut self,
        alloc: Global,
        scheme: &Scheme,
        hub: &mut H,
        collector: Collector,
        n: u16,
        sink: &mut K,
    ) -> Option<RunEnd>
        requires alone { H.is_alone hub.old }
        requires high { n ≤ 4096 }
        ensures same { (H.home hub.new ≡ H.home hub.old) × (H.stripes hub.new ≡ H.stripes hub.old) }
        ensures alone { H.is_alone hub.new }
        ensures script { self.new.script ≡ self.old.script }
        ensures gives { (l : Lists) → AreOf (H.stripes hub.old) (H.ticker hub.old) (H.stream hub.old) (H.history hub.old) l
            → (m : Lists) × AreOf (H.stripes hub.old) (H.ticker hub.new) (H.stream hub.new) (H.history hub.new) m
            × Given (record { defs = scheme.now; stripes = H.stripes hub.old }) collector self.old.script.link n result self.old.held l (record { written = K.written sink.old; faults = K.faults sink.old }) self.new.held m (record { written = K.written sink.new; faults = K.faults sink.new }) }
    {
        let link = self.link;
        let to = &mut self.printing;
        match collector {
            Collector::Ticker => {
                give::<H, Records, K>(alloc, scheme, hub, link, n, &mut self.records, to, sink)
            }
            Collector::Stream => {
                give::<H, Items, K>(alloc, scheme, hub, link, n, &mut self.items, to, sink)
            }
            Collector::History => {
                give::<H, Events, K>(alloc, scheme, hub, link, n, &mut self.events, to, sink)
            }
        }
    }

    /// A LINK. False where there is no such link.
    fn go_to(&mut self, n: u64) -> bool
        ensures far { result ≡ false → 127 < n }
        ensures went { result ≡ true → (n ≤ 127) × (self.new.script.link ≡ n) × (self.new.script.place ≡ self.old.script.place) × (self.new.held ≡ self.old.held) }
        ensures stayed { result ≡ false → self.new ≡ self.old }
    {
        if n > 127 {
            return false;
        }
        self.link = agent_of(n as u8);
        true
    }

    /// What an item does itself, behind the calls of the group that it ends.
    #[tactic(auto, using(crate::proofs::Halts::bad_step))]
    fn act<H: Hub, K: Sink>(
        &mut self,
        alloc: Global,
        scheme: &Scheme,
        hub: &mut H,
        item: &Item,
        line: u64,
        sink: &mut K,
    ) -> Option<RunEnd>
        requires alone { H.is_alone hub.old }
        ensures same { (H.home hub.new ≡ H.home hub.old) × (H.stripes hub.new ≡ H.stripes hub.old) }
        ensures alone { H.is_alone hub.new }
        ensures acts { (l : Lists) → AreOf (H.stripes hub.old) (H.ticker hub.old) (H.stream hub.old) (H.history hub.old) l
            → (m : Lists) × AreOf (H.stripes hub.old) (H.ticker hub.new) (H.stream hub.new) (H.history hub.new) m
            × ((s : Script) → ActsItself (record { defs = scheme.now; stripes = H.stripes hub.old }) item.now line result s self.old l (record { written = K.written sink.old; faults = K.faults sink.old }) self.new m (record { written = K.written sink.new; faults = K.faults sink.new })) }
    {
        match item {
            Item::Protocol => {
                if !self.greet(scheme, sink) {
                    return Some(RunEnd::WriteFault);
                }
                None
            }
            Item::End => {
                if !self.close(scheme, sink) {
                    return Some(RunEnd::WriteFault);
                }
                Some(RunEnd::Done)
            }
            Item::Link(n) => {
                if !self.go_to(*n) {
                    return Some(RunEnd::BadStep { line });
                }
                None
            }
            Item::Take(collector, n) => {
                if !is_taking(*n) {
                    return Some(RunEnd::BadStep { line });
                }
                self.take(alloc, scheme, hub, *collector, *n as u16, sink)
            }
            Item::Node(_, _) | Item::At(_, _) | Item::Pump(_) | Item::Move(_, _, _) => {
                Some(RunEnd::BadStep { line })
            }
            _ => None,
        }
    }

    /// Does what the next item of the script asks for. None where the script goes on.
    pub fn hear<H: Hub, K: Sink>(
        &mut self,
        alloc: Global,
        scheme: &Scheme,
        hub: &mut H,
        item: &Item,
        line: u64,
        sink: &mut K,
    ) -> Option<RunEnd>
        requires alone { H.is_alone hub.old }
        requires few { size self.old.script.place.group < 4096 }
        ensures same { (H.home hub.new ≡ H.home hub.old) × (H.stripes hub.new ≡ H.stripes hub.old) }
        ensures alone { H.is_alone hub.new }
        ensures hears { (l : Lists) → AreOf (H.stripes hub.old) (H.ticker hub.old) (H.stream hub.old) (H.history hub.old) l
            → (m : Lists) × AreOf (H.stripes hub.old) (H.ticker hub.new) (H.stream hub.new) (H.history hub.new) m
            × Hears (record { defs = scheme.now; stripes = H.stripes hub.old }) item.now line result self.old l (record { written = K.written sink.old; faults = K.faults sink.old }) self.new m (record { written = K.written sink.new; faults = K.faults sink.new }) }
    {
        if let Some(refusal) = self.call(alloc, hub, item) {
            return Some(ended_by(refusal, line));
        }
        self.act(alloc, scheme, hub, item, line, sink)
    }

    /// Writes all that was printed.
    pub fn drain<K: Sink>(&mut self, sink: &mut K) -> bool
        ensures script { self.new.script ≡ self.old.script }
        ensures drains { Drains result self.old.held self.new.held (K.written sink.old) (K.written sink.new) (K.flushed sink.new) (K.faults sink.old) (K.faults sink.new) }
    {
        self.printing.drain(sink)
    }
}
