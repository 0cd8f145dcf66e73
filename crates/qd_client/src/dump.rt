//! `dump`: keys are subscribed to, and what comes is printed.

ghost use Rattle.std.specs.Prelude.{◌≡◌, ◌<◌, ◌≤◌, ◌+◌, [], Some, None, nat_eq, length};
ghost use Rattle.qd_path.specs.Texts.{number_of, head_before};
ghost use Rattle.qd_client.specs.Dumps.{AreFirstParts, AreFlushed, Ask, Dumps, IsDecided, Leaves, World};
ghost use Rattle.qd_client.specs.Rules.{is_given};

use crate::asking::{ask, send_end};
use crate::ends::{DumpEnd, Halt};
use crate::hearer::Hearer;
use crate::printing::add_line;
use crate::through::write_through;
use qd_decimal::Line;
use qd_items::Items;
use qd_outside::{Sink, Source};
use qd_scheme::Scheme;
use qd_sub::Sub;
use qd_text::{Collector, Item, Message, Mode};
use std::alloc::Global;

/// One who dumps: how many items it wants and was given, the message of the last head, and that of the last item.
#[derive(Drop)]
struct Dumping {
    count: u64,
    given: u64,
    message: Option<Message>,
    last: Option<Message>,
}

impl Hearer for Dumping {
    ghost use Rattle.std.specs.Prelude.{ℕ, ◌≡◌, ◌<◌, length};
    ghost use Rattle.qd_client.specs.Rules.{dump_rule, given_of, last_message, message_of};

    ghost rule = { λ d. dump_rule d.count };

    ghost heard = { λ d items. (d.given ≡ length (given_of items)) × (d.message ≡ message_of items) × (d.last ≡ last_message (given_of items)) };

    ghost is_open = { λ d. d.given < d.count };

    fn hear(&mut self, scheme: &Scheme, item: &Item, line: &mut Line) -> bool {
        line.clear();
        if let Item::Head(message) = item {
            self.message = Some(*message);
            return false;
        }
        if !is_given(item) {
            return false;
        }
        match self.message {
            None => false,
            Some(message) => self.show(scheme, message, item, line),
        }
    }
}

impl Dumping {
    ghost use Rattle.qd_client.specs.Rules.{shown_text};

    /// Before the first item.
    fn new(count: u64) -> Dumping
        ensures { result ≡ record { count = count; given = 0; message = None; last = None } }
    {
        Dumping {
            count,
            given: 0,
            message: None,
            last: None,
        }
    }

    /// Puts the line of an item, behind its head where the item before it has another, in place of an empty line. True where
    /// this is the last item that is wanted.
    fn show(&mut self, scheme: &Scheme, message: Message, item: &Item, line: &mut Line) -> bool
        requires open { self.old.given < self.old.count }
        requires line { line.old ≡ [] }
        ensures text { line.new ≡ shown_text scheme.now self.old.last message item.now }
        ensures dumping { self.new ≡ record { count = self.old.count; given = self.old.given + 1; message = self.old.message; last = Some message } }
        ensures over { result ≡ nat_eq (self.old.given + 1) self.old.count }
    {
        add_head(scheme, self.last, message, line);
        add_line(scheme, item, line);
        self.last = Some(message);
        self.given += 1;
        self.given == self.count
    }
}

/// Puts a head in place of an empty line, unless the item before has the same message.
fn add_head(scheme: &Scheme, last: Option<Message>, message: Message, line: &mut Line)
    requires { line.old ≡ [] }
    ensures head { line.new ≡ head_before scheme.now last message }
    ensures short { length line.new ≤ 1001 }
{
    if let Some(last) = last {
        if number_of(last) == number_of(message) {
            return;
        }
    }
    add_line(scheme, &Item::Head(message), line);
}

/// A message's number.
fn number_of(message: Message) -> u8
    ensures { result ≡ number_of message }
{
    match message {
        Message::TickerData => 0,
        Message::StreamData => 1,
        Message::HistoryData => 2,
        Message::StreamLost => 3,
        Message::TickerAdd => 4,
        Message::StreamAdd => 5,
        Message::HistoryAdd => 6,
        Message::TickerRemove => 7,
        Message::StreamRemove => 8,
        Message::HistoryRemove => 9,
    }
}

/// A record, an event or a Lost item: what a collector gives.
fn is_given(item: &Item) -> bool
    ensures { result ≡ is_given item.now }
{
    match item {
        Item::Rec(_) => true,
        Item::Ev(_) => true,
        Item::Lost(_, _) => true,
        _ => false,
    }
}

/// Subscribes to each of the wants at a collector, and prints the records, events and Lost items that come, with their heads:
/// as many as `count`, or fewer where the server's `==END` comes before. Then it sends `==END`. Items of every collector are
/// printed. What came is written before each read and before END is sent.
pub fn dump_over<S: Source, K: Sink, O: Sink>(
    alloc: Global,
    scheme: &Scheme,
    collector: Collector,
    wants: &Vec<Sub>,
    count: u64,
    source: &mut S,
    sink: &mut K,
    out: &mut O,
) -> DumpEnd
    requires { 0 < count }
    // The dump ends with a cause, and what was sent and what was written is told.
    ensures dumps { Dumps scheme.now (record { collector = collector; wants = wants.now.items; count = count }) (record { left = S.left source.old; reads = S.faults source.old; sent = K.written sink.old; sends = K.faults sink.old; written = O.written out.old; writes = O.faults out.old })
        result (record { left = S.left source.new; reads = S.faults source.new; sent = K.written sink.new; sends = K.faults sink.new; written = O.written out.new; writes = O.faults out.new }) }
    ensures flushed { AreFlushed result (K.flushed sink.new) (O.flushed out.new) }
    // At each end first parts are sent and written of what would be where it is done.
    ensures first { AreFirstParts scheme.now (record { collector = collector; wants = wants.now.items; count = count }) (record { left = S.left source.old; reads = S.faults source.old; sent = K.written sink.old; sends = K.faults sink.old; written = O.written out.old; writes = O.faults out.old })
        (record { left = S.left source.new; reads = S.faults source.new; sent = K.written sink.new; sends = K.faults sink.new; written = O.written out.new; writes = O.faults out.new }) }
    // Where no fault was counted the text decides the end, and what is sent and written; but for want of memory.
    ensures decided { IsDecided scheme.now (record { collector = collector; wants = wants.now.items; count = count }) (record { left = S.left source.old; reads = S.faults source.old; sent = K.written sink.old; sends = K.faults sink.old; written = O.written out.old; writes = O.faults out.old })
        result (record { left = S.left source.new; reads = S.faults source.new; sent = K.written sink.new; sends = K.faults sink.new; written = O.written out.new; writes = O.faults out.new }) }
    ensures kept { S.kept source.new ≡ S.kept source.old }
{
    let mut items = match Items::new(alloc, Mode::Up) {
        Err(_) => return DumpEnd::NoMemory,
        Ok(items) => items,
    };
    if !ask(alloc, scheme, collector, wants, sink) {
        return DumpEnd::LinkFault;
    }
    let mut dumping = Dumping::new(count);
    match write_through(alloc, scheme, &mut dumping, &mut items, source, out) {
        None => DumpEnd::WriteFault,
        Some(halt) => leave(scheme, halt, sink),
    }
}

/// Sends END where the dump is done.
fn leave<K: Sink>(scheme: &Scheme, halt: Halt, sink: &mut K) -> DumpEnd
    ensures { Leaves scheme.now halt result (K.written sink.old) (K.written sink.new) (K.flushed sink.old) (K.flushed sink.new) (K.faults sink.old) (K.faults sink.new) }
{
    match halt.dump_end() {
        DumpEnd::Done => {
            if !send_end(scheme, sink) {
                return DumpEnd::LinkFault;
            }
            DumpEnd::Done
        }
        end => end,
    }
}
