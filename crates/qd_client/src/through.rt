//! A text is read through, item by item, and what its items print is written.

ghost use Rattle.std.specs.Prelude.{◌≡◌, ◌++◌, [], true, false, List, Option};
ghost use Rattle.qd_check.specs.Runs.{Outside};
ghost use Rattle.qd_items.specs.Gives.{told};
ghost use Rattle.qd_items.specs.Judging.{Numbered};
ghost use Rattle.qd_items.specs.Standing.{opening};
ghost use Rattle.qd_items.specs.Steps.{Steps, WillRead};
ghost use Rattle.qd_outside.specs.Buffering.{Prints};
ghost use Rattle.qd_client.specs.Reading.{EndsAt, ReadsThrough, WritesThrough};

use crate::ends::Halt;
use crate::hearer::Hearer;
use qd_decimal::Line;
use qd_items::{Items, TextEnd, Turn};
use qd_outside::{OutBuffer, Sink, Source};
use qd_scheme::Scheme;
use qd_text::Item;
use std::alloc::Global;

/// Reads a text until an item ends the run or the text ends, and writes what its items print. None where a write failed.
pub(crate) fn write_through<H: Hearer, S: Source, K: Sink>(
    alloc: Global,
    scheme: &Scheme,
    hearer: &mut H,
    items: &mut Items,
    source: &mut S,
    sink: &mut K,
) -> Option<Halt>
    requires items { items.old ≡ opening (H.rule hearer.old).mode }
    requires heard { H.heard hearer.old [] }
    requires open { H.is_open hearer.old }
    ensures writes { WritesThrough (H.rule hearer.old) scheme.now (record { left = S.left source.old; reads = S.faults source.old; written = K.written sink.old; writes = K.faults sink.old })
        result (K.flushed sink.new) (record { left = S.left source.new; reads = S.faults source.new; written = K.written sink.new; writes = K.faults sink.new }) }
    ensures kept { S.kept source.new ≡ S.kept source.old }
{
    let mut out = OutBuffer::new(alloc);
    let halt = read_through(scheme, hearer, items, &mut out, source, sink)?;
    if !out.drain(sink) {
        return None;
    }
    Some(halt)
}

/// Reads a text until an item ends the run or the text ends, and prints what its items print.
fn read_through<H: Hearer, S: Source, K: Sink>(
    scheme: &Scheme,
    hearer: &mut H,
    items: &mut Items,
    out: &mut OutBuffer,
    source: &mut S,
    sink: &mut K,
) -> Option<Halt>
    requires items { items.old ≡ opening (H.rule hearer.old).mode }
    requires heard { H.heard hearer.old [] }
    requires open { H.is_open hearer.old }
    requires out { out.old ≡ [] }
    ensures reads { ReadsThrough (H.rule hearer.old) scheme.now (record { left = S.left source.old; reads = S.faults source.old; written = K.written sink.old; writes = K.faults sink.old })
        result out.new (record { left = S.left source.new; reads = S.faults source.new; written = K.written sink.new; writes = K.faults sink.new }) }
    ensures kept { S.kept source.new ≡ S.kept source.old }
{
    let mut line = Line::new();
    'items: loop {
        if !let_go(items, out, sink) {
            return None;
        }
        match read_on(scheme, items, out, source) {
            Turn::Went => {}
            Turn::Came => {
                let over = hearer.hear(scheme, items.item(), &mut line);
                if !out.print(sink, line.bytes()) {
                    return None;
                }
                if over {
                    return Some(Halt::Item { line: items.line() });
                }
            }
            Turn::Ended(end) => return print_end(scheme, hearer, end, out, sink),
        }
    }
}

/// Writes all that was printed where the next step reads, since a read may wait for long. False where a write failed.
fn let_go<K: Sink>(items: &mut Items, out: &mut OutBuffer, sink: &mut K) -> bool
    ensures same { items.new ≡ items.old }
    ensures empty { result ≡ true → WillRead items.old → out.new ≡ [] }
    ensures prints { Prints result [] out.old out.new (K.written sink.old) (K.written sink.new) (K.faults sink.old) (K.faults sink.new) }
{
    if !items.is_hungry() {
        return true;
    }
    out.drain(sink)
}

/// Takes the next step of the reading. Where it reads, nothing that was printed is held back.
fn read_on<S: Source>(scheme: &Scheme, items: &mut Items, out: &OutBuffer, source: &mut S) -> Turn
    requires written { WillRead items.old → out.now ≡ [] }
    ensures mode { items.new.mode ≡ items.old.mode }
    ensures kept { S.kept source.new ≡ S.kept source.old }
    ensures steps { Steps scheme.now items.old (told result items.new.item) items.new (S.left source.old) (S.left source.new) (S.faults source.old) (S.faults source.new) }
{
    items.step(scheme, source)
}

/// Prints what the end of a text prints: END is an item of it.
fn print_end<H: Hearer, K: Sink>(
    scheme: &Scheme,
    hearer: &mut H,
    end: TextEnd,
    out: &mut OutBuffer,
    sink: &mut K,
) -> Option<Halt>
    requires { H.is_open hearer.old }
    ensures { (items : List Numbered) → H.heard hearer.old items → EndsAt (H.rule hearer.old) scheme.now items end result out.old out.new (K.written sink.old) (K.written sink.new) (K.faults sink.old) (K.faults sink.new) }
{
    if let TextEnd::End = end {
        let mut line = Line::new();
        hearer.hear(scheme, &Item::End, &mut line);
        if !out.print(sink, line.bytes()) {
            return None;
        }
    }
    Some(Halt::Text(end))
}
