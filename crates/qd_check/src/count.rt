//! `check`: the number of items.

ghost use Rattle.std.specs.Prelude.{◌≡◌, ◌≤◌, ◌^◌, ◌++◌, [], true};
ghost use Rattle.qd_check.specs.Counting.{Counts, PrintsEnd};
ghost use Rattle.qd_check.specs.Printing.{check_text, count_line, end_count};
ghost use Rattle.qd_check.specs.Runs.{IsDecided, IsFlushed, Runs};
ghost use Rattle.qd_grammar.specs.declared.item.Mode.TheVariants.{File};
ghost use Rattle.qd_items.specs.Standing.{opening};

use crate::finish::finish;
use qd_decimal::{Line, write_count};
use qd_items::{Items, RunEnd, TextEnd};
use qd_outside::{OutBuffer, Sink, Source};
use qd_scheme::Scheme;
use qd_text::Mode;
use std::alloc::Global;

/// How many items stand before the end of a text, and its end.
#[derive(Clone, Copy)]
pub struct Counted {
    pub items: u64,
    pub end: TextEnd,
}

/// Reads a text, and prints `items N` where it is whole: the number of its items, control lines and END among them.
/// Nothing is printed at another end.
pub fn check<S: Source, K: Sink>(
    alloc: Global,
    scheme: &Scheme,
    source: &mut S,
    sink: &mut K,
) -> RunEnd
    ensures runs { Runs (check_text scheme.now) scheme.now (record { left = S.left source.old; reads = S.faults source.old; written = K.written sink.old; writes = K.faults sink.old })
        result (record { left = S.left source.new; reads = S.faults source.new; written = K.written sink.new; writes = K.faults sink.new }) }
    ensures flushed { IsFlushed result (K.flushed sink.new) }
    ensures decided { IsDecided (check_text scheme.now) scheme.now (record { left = S.left source.old; reads = S.faults source.old; written = K.written sink.old; writes = K.faults sink.old })
        result (record { left = S.left source.new; reads = S.faults source.new; written = K.written sink.new; writes = K.faults sink.new }) }
    ensures kept { S.kept source.new ≡ S.kept source.old }
{
    let mut out = OutBuffer::new(alloc);
    let mut items = match Items::new(alloc, Mode::File) {
        Err(_) => return finish(&mut out, sink, TextEnd::NoMemory),
        Ok(items) => items,
    };
    let counted = count_items(scheme, &mut items, source);
    match print_count(counted, &mut out, sink) {
        None => RunEnd::WriteFault,
        Some(end) => finish(&mut out, sink, end),
    }
}

/// Counts the items before the end.
fn count_items<S: Source>(scheme: &Scheme, items: &mut Items, source: &mut S) -> Counted
    requires items { items.old ≡ opening File }
    ensures counts { Counts scheme.now (S.left source.old) result.end result.items (S.left source.new) (S.faults source.old) (S.faults source.new) }
    ensures within { result.items ≤ 2 ^ 40 }
    ensures kept { S.kept source.new ≡ S.kept source.old }
{
    let mut count = 0;
    'items: loop {
        match items.advance(scheme, source) {
            None => count += 1,
            Some(end) => return Counted { items: count, end },
        }
    }
}

/// Prints the number of items, END among them, at the end of a whole text. None where a write failed.
fn print_count<K: Sink>(counted: Counted, out: &mut OutBuffer, sink: &mut K) -> Option<TextEnd>
    requires { counted.items ≤ 2 ^ 40 }
    ensures { PrintsEnd (end_count counted.end counted.items) counted.end result out.old out.new (K.written sink.old) (K.written sink.new) (K.faults sink.old) (K.faults sink.new) }
{
    if let TextEnd::End = counted.end {
        let mut line = Line::new();
        set_count(counted.items + 1, &mut line);
        if !out.print(sink, line.bytes()) {
            return None;
        }
    }
    Some(counted.end)
}

/// Writes the line that tells a number of items.
fn set_count(count: u64, line: &mut Line)
    requires { line.old ≡ [] }
    ensures { line.new ≡ count_line count }
{
    line.append(b"items ");
    write_count(count, line);
    line.push(b'\n');
}
