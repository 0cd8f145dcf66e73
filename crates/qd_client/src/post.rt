//! `post`: the items of a text are sent.

ghost use Rattle.std.specs.Prelude.{◌≡◌};
ghost use Rattle.qd_check.specs.Runs.{Outside};
ghost use Rattle.qd_client.specs.Posts.{AreFirstParts, IsDecided, IsFlushed, Posts};
ghost use Rattle.qd_client.specs.Rules.{is_step, is_time};

use crate::hearer::Hearer;
use crate::printing::add_line;
use crate::through::write_through;
use qd_decimal::Line;
use qd_items::{Items, RunEnd};
use qd_outside::{Sink, Source};
use qd_scheme::Scheme;
use qd_text::{Item, Mode};
use std::alloc::Global;

/// One who posts.
#[derive(Drop)]
struct Posting {}

impl Hearer for Posting {
    ghost use Rattle.qd_client.specs.Rules.{post_rule};

    ghost rule = { λ _. post_rule };

    ghost heard = { λ _ items. Unit {0} };

    ghost is_open = { λ _. Unit {0} };

    fn hear(&mut self, scheme: &Scheme, item: &Item, line: &mut Line) -> bool {
        line.clear();
        let step = is_step(item);
        if !step && !is_time(item) {
            add_line(scheme, item, line);
        }
        step
    }
}

/// An item asks for a step of a script.
fn is_step(item: &Item) -> bool
    ensures { result ≡ is_step item.now }
{
    match item {
        Item::Link(_) => true,
        Item::Take(_, _) => true,
        Item::Node(_, _) => true,
        Item::At(_, _) => true,
        Item::Pump(_) => true,
        Item::Move(_, _, _) => true,
        _ => false,
    }
}

/// An item tells a time.
fn is_time(item: &Item) -> bool
    ensures { result ≡ is_time item.now }
{
    match item {
        Item::Time(_) => true,
        _ => false,
    }
}

/// Sends the canonical line of each item of a text, END's last, but for TIME lines. A line that asks for a step of a script
/// (LINK, TAKE, NODE, AT, PUMP, MOVE) ends the run before it is sent. What was printed is sent before each read and at
/// each end.
pub fn post_over<S: Source, K: Sink>(
    alloc: Global,
    scheme: &Scheme,
    source: &mut S,
    sink: &mut K,
) -> RunEnd
    // The run ends with a cause, and what was sent is told.
    ensures posts { Posts scheme.now (record { left = S.left source.old; reads = S.faults source.old; written = K.written sink.old; writes = K.faults sink.old })
        result (record { left = S.left source.new; reads = S.faults source.new; written = K.written sink.new; writes = K.faults sink.new }) }
    ensures flushed { IsFlushed result (K.flushed sink.new) }
    // At each end a first part of what the text says is sent.
    ensures first { AreFirstParts scheme.now (record { left = S.left source.old; reads = S.faults source.old; written = K.written sink.old; writes = K.faults sink.old })
        (record { left = S.left source.new; reads = S.faults source.new; written = K.written sink.new; writes = K.faults sink.new }) }
    // Where no fault was counted the text decides the end and what is sent; but for want of memory.
    ensures decided { IsDecided scheme.now (record { left = S.left source.old; reads = S.faults source.old; written = K.written sink.old; writes = K.faults sink.old })
        result (record { left = S.left source.new; reads = S.faults source.new; written = K.written sink.new; writes = K.faults sink.new }) }
    ensures kept { S.kept source.new ≡ S.kept source.old }
{
    let mut items = match Items::new(alloc, Mode::File) {
        Err(_) => return RunEnd::NoMemory,
        Ok(items) => items,
    };
    match write_through(alloc, scheme, &mut Posting {}, &mut items, source, sink) {
        None => RunEnd::WriteFault,
        Some(halt) => halt.post_end(),
    }
}
