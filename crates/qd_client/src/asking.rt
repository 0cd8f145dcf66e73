//! What a dump sends: the subscription before all, and END where it is done.

ghost use Rattle.std.specs.Prelude.{◌≡◌, ◌++◌, ◌∷◌, [], length, drop};
ghost use Rattle.qd_grammar.specs.declared.item.Item.TheVariants.{End, Head};
ghost use Rattle.qd_outside.specs.Buffering.{Prints};
ghost use Rattle.qd_path.specs.Texts.{line_of};
ghost use Rattle.qd_client.specs.Asking.{add_of, asked, asking_of, Sends, wants_text};

use crate::printing::{add_line, say};
use qd_decimal::Line;
use qd_outside::{OutBuffer, Sink, write_all};
use qd_scheme::Scheme;
use qd_sub::Sub;
use qd_text::{Collector, Item, Message};
use std::alloc::Global;

/// The message that begins subscriptions.
fn add_of(collector: Collector) -> Message
    ensures { result ≡ add_of collector }
{
    match collector {
        Collector::Ticker => Message::TickerAdd,
        Collector::Stream => Message::StreamAdd,
        Collector::History => Message::HistoryAdd,
    }
}

/// The item that subscribes to a key.
fn asking_of(collector: Collector, want: &Sub) -> Item
    ensures { result ≡ asking_of collector want.now }
{
    match collector {
        Collector::History => Item::HistSub(*want),
        _ => Item::Sub(want.key),
    }
}

/// Sends a subscription to each of the wants, in order. False where a write failed.
pub(crate) fn ask<K: Sink>(
    alloc: Global,
    scheme: &Scheme,
    collector: Collector,
    wants: &[Sub],
    sink: &mut K,
) -> bool
    ensures { Sends result (asked scheme.now collector wants.now) (K.written sink.old) (K.written sink.new) (K.flushed sink.new) (K.faults sink.old) (K.faults sink.new) }
{
    let mut out = OutBuffer::new(alloc);
    let mut line = Line::new();
    if !say(scheme, &Item::Protocol, &mut line, &mut out, sink) {
        return false;
    }
    if !say_wants(scheme, collector, wants, &mut line, &mut out, sink) {
        return false;
    }
    if !say(scheme, &Item::Heartbeat, &mut line, &mut out, sink) {
        return false;
    }
    out.drain(sink)
}

/// Prints the head of the subscription, and a line for each want.
fn say_wants<K: Sink>(
    scheme: &Scheme,
    collector: Collector,
    wants: &[Sub],
    line: &mut Line,
    out: &mut OutBuffer,
    sink: &mut K,
) -> bool
    ensures { Prints result (line_of scheme.now (Head (add_of collector)) ++ wants_text scheme.now collector wants.now) out.old out.new (K.written sink.old) (K.written sink.new) (K.faults sink.old) (K.faults sink.new) }
{
    if !say(scheme, &Item::Head(add_of(collector)), line, out, sink) {
        return false;
    }
    for want in wants {
        if !say(scheme, &asking_of(collector, want), line, out, sink) {
            return false;
        }
    }
    true
}

/// Sends END. False where a write failed.
pub(crate) fn send_end<K: Sink>(scheme: &Scheme, sink: &mut K) -> bool
    ensures { Sends result (line_of scheme.now End) (K.written sink.old) (K.written sink.new) (K.flushed sink.new) (K.faults sink.old) (K.faults sink.new) }
{
    let mut line = Line::new();
    add_line(scheme, &Item::End, &mut line);
    if !write_all(sink, line.bytes()) {
        return false;
    }
    sink.flush()
}
