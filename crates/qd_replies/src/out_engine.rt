//! Replies to bytes: an engine that asks the stripes, one after the other.

ghost use Rattle.std.specs.Prelude.{◌≡◌, ◌<◌, ◌*◌, ℕ, List, Option, Some, None, [], IfOk, length, map};
ghost use Rattle.qd_grammar.specs.declared.item.Collector.TheVariants.{Ticker, Stream, History};
ghost use Rattle.qd_path.specs.Lists.{Lists, AreOf};
ghost use Rattle.qd_path.specs.Made.{Made};
ghost use Rattle.qd_path.specs.Texts.{reply_items};
ghost use Rattle.qd_scheme.specs.Stripes.{IsStripeCount};
ghost use Rattle.qd_replies.specs.declared.ends.OutFault.{OutFault};
ghost use Rattle.qd_replies.specs.declared.ends.OutTurn.TheVariants as turns;
ghost use Rattle.qd_replies.specs.Asked.{IsInLent, Writes, plain_of, empty};
ghost use Rattle.qd_replies.specs.Outs.{IsWhole, Outcome, OutKept, IsInRound, OutStands, OutSteps, StandsForNothing, IsAnswered, IsFree, out_beginning, collector_at, stripe_at};
ghost use Rattle.qd_replies.specs.Tools.{tools_ready, turn_by, place_by, quiet_by, fault_in};

use crate::buffers::{MOST, keep, op_of, take_back};
use crate::ends::{OutFault, OutTurn};
use crate::output::Output;
use crate::printers::{Events, HistoryWants, Items, Printer, Records, StreamWants, TickerWants};
use qd_buffer::Buffer;
use qd_calls::{ask_history, ask_stream, ask_ticker};
use qd_gate::NoTurn;
use qd_history::{HistItem, HistoryReply};
use qd_hub::Hub;
use qd_outside::Sink;
use qd_path::Side;
use qd_scheme::{Event, NoMemory, Record, Scheme};
use qd_stream::StreamItem;
use qd_sub::{Reply, Want};
use std::alloc::Global;
use std::marker::Model;

/// What one stripe answered.
#[derive(Clone, Copy, Debug)]
pub enum Answer {
    /// So many items, whose text is written and flushed.
    Gave(u16),
    /// Items, whose text could not be written.
    Unwritten,
    Busy { first: u64, then: u64 },
    Spent,
}

/// Writes the text of what a stripe gave, and flushes it.
fn write_given<P: Printer, K: Sink>(
    output: &mut Output,
    scheme: &Scheme,
    given: &[P::Given],
    sink: &mut K,
) -> Answer
    requires held { output.old ≡ [] }
    requires few { length given.now < 65536 }
    ensures held { IsWhole result → output.new ≡ [] }
    ensures written { Writes scheme.now (map P.shown given.now) result (K.flushed sink.new) (K.written sink.old) (K.written sink.new) (K.faults sink.old) (K.faults sink.new) }
{
    if given.is_empty() {
        return Answer::Gave(0);
    }
    if !output.reply::<P, K>(scheme, given, sink) {
        return Answer::Unwritten;
    }
    if !output.drain(sink) {
        return Answer::Unwritten;
    }
    Answer::Gave(given.len() as u16)
}

/// Writes the text of a reply, and keeps its buffer.
fn write_reply<P: Printer, W: Printer<Given = Want>, K: Sink>(
    reply: Reply<P::Given>,
    given: &mut Option<Buffer<P::Given>>,
    wants: &mut Option<Buffer<Want>>,
    output: &mut Output,
    scheme: &Scheme,
    sink: &mut K,
) -> Answer
    requires lent { IsInLent reply given.old wants.old }
    requires held { output.old ≡ [] }
    ensures given { given.new ≡ Some empty }
    ensures wants { wants.new ≡ Some empty }
    ensures held { IsWhole result → output.new ≡ [] }
    ensures written { Writes scheme.now (reply_items P.shown W.shown reply) result (K.flushed sink.new) (K.written sink.old) (K.written sink.new) (K.faults sink.old) (K.faults sink.new) }
{
    match reply {
        Reply::Items(items) => {
            let answer = write_given::<P, K>(output, scheme, items.as_slice(), sink);
            keep(given, items);
            answer
        }
        Reply::Wants(items) => {
            let answer = write_given::<W, K>(output, scheme, items.as_slice(), sink);
            keep(wants, items);
            answer
        }
        _ => unreachable!(),
    }
}

/// A reply of the history as one of the others.
fn plain(reply: HistoryReply) -> Reply<HistItem>
    ensures { result ≡ plain_of reply }
{
    match reply {
        HistoryReply::Items(items) => Reply::Items(items),
        HistoryReply::Wants(wants) => Reply::Wants(wants),
        _ => Reply::NoMemory,
    }
}

/// Asks a stripe of the ticker, and writes what it gives.
fn give_ticker<H: Hub, K: Sink>(
    side: Side,
    hub: &mut H,
    stripe: u8,
    given: &mut Option<Buffer<Record>>,
    wants: &mut Option<Buffer<Want>>,
    output: &mut Output,
    scheme: &Scheme,
    sink: &mut K,
) -> Answer
    requires stripe { stripe < H.stripes hub.old }
    requires given { given.old ≡ Some empty }
    requires wants { wants.old ≡ Some empty }
    requires held { output.old ≡ [] }
    ensures same { (H.home hub.new ≡ H.home hub.old) × (H.stripes hub.new ≡ H.stripes hub.old) }
    ensures alone { H.is_alone hub.old → H.is_alone hub.new × IsAnswered result }
    ensures given { given.new ≡ Some empty }
    ensures wants { wants.new ≡ Some empty }
    ensures held { IsWhole result → output.new ≡ [] }
    ensures outcome { (l : Lists) → AreOf (H.stripes hub.old) (H.ticker hub.old) (H.stream hub.old) (H.history hub.old) l
        → (m : Lists) × AreOf (H.stripes hub.old) (H.ticker hub.new) (H.stream hub.new) (H.history hub.new) m
        × Outcome scheme.now (H.stripes hub.old) side Ticker stripe result l m (K.flushed sink.new) (record { written = K.written sink.old; faults = K.faults sink.old }) (record { written = K.written sink.new; faults = K.faults sink.new }) }
{
    let op = op_of::<Record, Record>(side, given, wants);
    match ask_ticker(hub, stripe, op) {
        Ok(reply) => write_reply::<Records, TickerWants, K>(
            reply, given, wants, output, scheme, sink,
        ),
        Err(NoTurn::Busy { first, then, op }) => {
            take_back(op, given, wants);
            Answer::Busy { first, then }
        }
        Err(NoTurn::Spent { word: _, op }) => {
            take_back(op, given, wants);
            Answer::Spent
        }
    }
}

/// Asks a stripe of the stream, and writes what it gives.
fn give_stream<H: Hub, K: Sink>(
    side: Side,
    hub: &mut H,
    stripe: u8,
    given: &mut Option<Buffer<StreamItem>>,
    wants: &mut Option<Buffer<Want>>,
    output: &mut Output,
    scheme: &Scheme,
    sink: &mut K,
) -> Answer
    requires stripe { stripe < H.stripes hub.old }
    requires given { given.old ≡ Some empty }
    requires wants { wants.old ≡ Some empty }
    requires held { output.old ≡ [] }
    ensures same { (H.home hub.new ≡ H.home hub.old) × (H.stripes hub.new ≡ H.stripes hub.old) }
    ensures alone { H.is_alone hub.old → H.is_alone hub.new × IsAnswered result }
    ensures given { given.new ≡ Some empty }
    ensures wants { wants.new ≡ Some empty }
    ensures held { IsWhole result → output.new ≡ [] }
    ensures outcome { (l : Lists) → AreOf (H.stripes hub.old) (H.ticker hub.old) (H.stream hub.old) (H.history hub.old) l
        → (m : Lists) × AreOf (H.stripes hub.old) (H.ticker hub.new) (H.stream hub.new) (H.history hub.new) m
        × Outcome scheme.now (H.stripes hub.old) side Stream stripe result l m (K.flushed sink.new) (record { written = K.written sink.old; faults = K.faults sink.old }) (record { written = K.written sink.new; faults = K.faults sink.new }) }
{
    let op = op_of::<StreamItem, StreamItem>(side, given, wants);
    match ask_stream(hub, stripe, op) {
        Ok(reply) => write_reply::<Items, StreamWants, K>(
            reply, given, wants, output, scheme, sink,
        ),
        Err(NoTurn::Busy { first, then, op }) => {
            take_back(op, given, wants);
            Answer::Busy { first, then }
        }
        Err(NoTurn::Spent { word: _, op }) => {
            take_back(op, given, wants);
            Answer::Spent
        }
    }
}

/// Asks a stripe of the history, and writes what it gives.
fn give_history<H: Hub, K: Sink>(
    side: Side,
    hub: &mut H,
    stripe: u8,
    given: &mut Option<Buffer<HistItem>>,
    wants: &mut Option<Buffer<Want>>,
    output: &mut Output,
    scheme: &Scheme,
    sink: &mut K,
) -> Answer
    requires stripe { stripe < H.stripes hub.old }
    requires given { given.old ≡ Some empty }
    requires wants { wants.old ≡ Some empty }
    requires held { output.old ≡ [] }
    ensures same { (H.home hub.new ≡ H.home hub.old) × (H.stripes hub.new ≡ H.stripes hub.old) }
    ensures alone { H.is_alone hub.old → H.is_alone hub.new × IsAnswered result }
    ensures given { given.new ≡ Some empty }
    ensures wants { wants.new ≡ Some empty }
    ensures held { IsWhole result → output.new ≡ [] }
    ensures outcome { (l : Lists) → AreOf (H.stripes hub.old) (H.ticker hub.old) (H.stream hub.old) (H.history hub.old) l
        → (m : Lists) × AreOf (H.stripes hub.old) (H.ticker hub.new) (H.stream hub.new) (H.history hub.new) m
        × Outcome scheme.now (H.stripes hub.old) side History stripe result l m (K.flushed sink.new) (record { written = K.written sink.old; faults = K.faults sink.old }) (record { written = K.written sink.new; faults = K.faults sink.new }) }
{
    let op = op_of::<Event, HistItem>(side, given, wants);
    match ask_history(hub, stripe, op) {
        Ok(reply) => write_reply::<Events, HistoryWants, K>(
            plain(reply),
            given,
            wants,
            output,
            scheme,
            sink,
        ),
        Err(NoTurn::Busy { first, then, op }) => {
            take_back(op, given, wants);
            Answer::Busy { first, then }
        }
        Err(NoTurn::Spent { word: _, op }) => {
            take_back(op, given, wants);
            Answer::Spent
        }
    }
}

/// A buffer for each kind of item, what is printed, and a line that is used again and again.
#[derive(Drop)]
struct Tools {
    records: Option<Buffer<Record>>,
    items: Option<Buffer<StreamItem>>,
    events: Option<Buffer<HistItem>>,
    wants: Option<Buffer<Want>>,
    output: Output,
}

/// What is answered.
fn turn_by(n: u8, answer: Answer, quiet: u8) -> OutTurn
    requires count { IsStripeCount n }
    requires quiet { quiet < 3 * n }
    ensures turn { result ≡ turn_by n answer quiet }
    ensures free { IsAnswered answer → IsFree result }
    ensures whole { fault_in result ≡ None → IsWhole answer }
{
    match answer {
        Answer::Gave(count) => {
            if count > 0 {
                OutTurn::Went(count)
            } else if quiet + 1 == 3 * n {
                OutTurn::Idle
            } else {
                OutTurn::Went(0)
            }
        }
        Answer::Unwritten => OutTurn::Ended(OutFault::WriteFault),
        Answer::Busy { first, then } => OutTurn::Busy { first, then },
        Answer::Spent => OutTurn::Ended(OutFault::Spent),
    }
}

/// The place in the round behind an answer.
fn place_by(n: u8, answer: Answer, at: u8) -> u8
    requires count { IsStripeCount n }
    requires place { at < 3 * n }
    ensures place { result ≡ place_by n answer at }
    ensures within { result < 3 * n }
{
    match answer {
        Answer::Gave(_) if at + 1 == 3 * n => 0,
        Answer::Gave(_) => at + 1,
        _ => at,
    }
}

/// How many stripes in a row answered empty, behind an answer.
fn quiet_by(n: u8, answer: Answer, quiet: u8) -> u8
    requires count { IsStripeCount n }
    requires quiet { quiet < 3 * n }
    ensures quiet { result ≡ quiet_by n answer quiet }
    ensures within { result < 3 * n }
{
    match answer {
        Answer::Gave(count) if count > 0 || quiet + 1 == 3 * n => 0,
        Answer::Gave(_) => quiet + 1,
        _ => quiet,
    }
}

/// Asks the stripe at a place in the round.
fn give<H: Hub, K: Sink>(
    side: Side,
    hub: &mut H,
    n: u8,
    at: u8,
    tools: &mut Tools,
    scheme: &Scheme,
    sink: &mut K,
) -> Answer
    requires stripes { n ≡ H.stripes hub.old }
    requires count { IsStripeCount n }
    requires place { at < 3 * n }
    requires tools { tools.old ≡ tools_ready }
    ensures same { (H.home hub.new ≡ H.home hub.old) × (H.stripes hub.new ≡ H.stripes hub.old) }
    ensures alone { H.is_alone hub.old → H.is_alone hub.new × IsAnswered result }
    ensures tools { IsWhole result → tools.new ≡ tools_ready }
    ensures outcome { (l : Lists) → AreOf (H.stripes hub.old) (H.ticker hub.old) (H.stream hub.old) (H.history hub.old) l
        → (m : Lists) × AreOf (H.stripes hub.old) (H.ticker hub.new) (H.stream hub.new) (H.history hub.new) m
        × Outcome scheme.now n side (collector_at n at) (stripe_at n at) result l m (K.flushed sink.new) (record { written = K.written sink.old; faults = K.faults sink.old }) (record { written = K.written sink.new; faults = K.faults sink.new }) }
{
    if at < n {
        return give_ticker(
            side,
            hub,
            at,
            &mut tools.records,
            &mut tools.wants,
            &mut tools.output,
            scheme,
            sink,
        );
    }
    if at < n + n {
        return give_stream(
            side,
            hub,
            at - n,
            &mut tools.items,
            &mut tools.wants,
            &mut tools.output,
            scheme,
            sink,
        );
    }
    give_history(
        side,
        hub,
        at - (n + n),
        &mut tools.events,
        &mut tools.wants,
        &mut tools.output,
        scheme,
        sink,
    )
}

/// The fault that ends an engine with this answer.
fn fault_in(turn: OutTurn) -> Option<OutFault>
    ensures { result ≡ fault_in turn }
{
    match turn {
        OutTurn::Ended(fault) => Some(fault),
        _ => None,
    }
}

/// Asks the stripes of a hub round and round for what is due to the other end of a link, and writes it.
#[derive(Drop)]
pub struct OutEngine {
    side: Side,
    at: u8,
    quiet: u8,
    ended: Option<OutFault>,
    tools: Tools,
}

impl Model for OutEngine {
    ghost use Rattle.std.specs.Prelude.{◌≡◌, None};
    ghost use Rattle.qd_replies.specs.Outs.{OutKept};
    ghost use Rattle.qd_replies.specs.Tools.{tools_ready};

    ghost Value = { OutKept };

    ghost view = { λ e. record { side = e.side; at = e.at; quiet = e.quiet; ended = e.ended } };

    ghost invariant = { λ e. e.ended ≡ None → e.tools ≡ tools_ready };
}

impl OutEngine {
    /// Before the first call.
    pub fn new(alloc: Global, side: Side) -> Result<OutEngine, NoMemory>
        ensures made { IfOk result (λ e. e ≡ out_beginning side) }
        ensures stands { IfOk result StandsForNothing }
    {
        Ok(OutEngine {
            side,
            at: 0,
            quiet: 0,
            ended: None,
            tools: Tools {
                records: Some(Buffer::with_room(alloc, MOST)?),
                items: Some(Buffer::with_room(alloc, MOST)?),
                events: Some(Buffer::with_room(alloc, MOST)?),
                wants: Some(Buffer::with_room(alloc, MOST)?),
                output: Output::new(alloc)?,
            },
        })
    }

    /// Asks one stripe for at most 256 items, and writes the text of what it gives. After Ended the same fault is answered
    /// again, and nothing is called or written.
    pub fn step<H: Hub, K: Sink>(&mut self, scheme: &Scheme, hub: &mut H, sink: &mut K) -> OutTurn
        requires round { IsInRound (H.stripes hub.old) self.old }
        ensures round { IsInRound (H.stripes hub.new) self.new }
        ensures same { (H.home hub.new ≡ H.home hub.old) × (H.stripes hub.new ≡ H.stripes hub.old) × (self.new.side ≡ self.old.side) }
        // After a fault nothing happens any more.
        ensures again { (fault : OutFault) → self.old.ended ≡ Some fault → (result ≡ turns.Ended fault) × (self.new ≡ self.old) × (hub.new ≡ hub.old) × (sink.new ≡ sink.old) }
        // Over a hub that is alone each stripe answers.
        ensures alone { H.is_alone hub.old → H.is_alone hub.new × (self.old.ended ≡ None → IsFree result) }
        // For whatever calls the engine stands, and for whatever lists the hub.
        ensures step { (from : Option (List ℕ)) (past : List Made) (l : Lists) → self.old.ended ≡ None
            → OutStands scheme.now (H.stripes hub.old) from self.old past (K.written sink.old)
            → AreOf (H.stripes hub.old) (H.ticker hub.old) (H.stream hub.old) (H.history hub.old) l
            → (m : Lists) × AreOf (H.stripes hub.old) (H.ticker hub.new) (H.stream hub.new) (H.history hub.new) m
            × OutSteps scheme.now (H.stripes hub.old) from self.old result self.new past l m (K.flushed sink.new) (record { written = K.written sink.old; faults = K.faults sink.old }) (record { written = K.written sink.new; faults = K.faults sink.new }) }
    {
        if let Some(fault) = self.ended {
            return OutTurn::Ended(fault);
        }
        let n = hub.stripes();
        let answer = give(self.side, hub, n, self.at, &mut self.tools, scheme, sink);
        let turn = turn_by(n, answer, self.quiet);
        self.at = place_by(n, answer, self.at);
        self.quiet = quiet_by(n, answer, self.quiet);
        self.ended = fault_in(turn);
        turn
    }
}
