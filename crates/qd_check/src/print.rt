//! `fmt`: the canonical line of each item.

ghost use Rattle.std.specs.Prelude.{◌≡◌, ◌≤◌, ◌++◌, ◌∷◌, [], length, true};
ghost use Rattle.qd_check.specs.Counting.{PrintsEnd, PrintsLines};
ghost use Rattle.qd_check.specs.Printing.{end_line, fmt_text, line_of, most_gathered};
ghost use Rattle.qd_check.specs.Runs.{IsDecided, IsFlushed, Runs};
ghost use Rattle.qd_grammar.specs.declared.item.Mode.TheVariants.{File};
ghost use Rattle.qd_items.specs.Gives.{told};
ghost use Rattle.qd_items.specs.Standing.{opening};
ghost use Rattle.qd_items.specs.Steps.{Steps, WillRead};
ghost use Rattle.qd_outside.specs.Buffering.{Prints};

use crate::finish::finish;
use qd_decimal::Line;
use qd_items::{Items, RunEnd, TextEnd, Turn};
use qd_outside::{OutBuffer, Sink, Source};
use qd_scheme::Scheme;
use qd_text::{Item, Mode, write_item};
use std::alloc::Global;

// A canonical line has at most 1,000 bytes, so it and its LF fit behind these into the 4,096 bytes of a `Line`.
const MOST_GATHERED: usize = 3000;

/// Prints the canonical line of each item of a text as it is read, END's line last. Before each read the lines of all items
/// that were read stand written, so whoever feeds the source slowly sees each line at once. At an end before END the lines
/// before it stand written.
pub fn fmt<S: Source, K: Sink>(
    alloc: Global,
    scheme: &Scheme,
    source: &mut S,
    sink: &mut K,
) -> RunEnd
    ensures runs { Runs (fmt_text scheme.now) scheme.now (record { left = S.left source.old; reads = S.faults source.old; written = K.written sink.old; writes = K.faults sink.old })
        result (record { left = S.left source.new; reads = S.faults source.new; written = K.written sink.new; writes = K.faults sink.new }) }
    ensures flushed { IsFlushed result (K.flushed sink.new) }
    ensures decided { IsDecided (fmt_text scheme.now) scheme.now (record { left = S.left source.old; reads = S.faults source.old; written = K.written sink.old; writes = K.faults sink.old })
        result (record { left = S.left source.new; reads = S.faults source.new; written = K.written sink.new; writes = K.faults sink.new }) }
    ensures kept { S.kept source.new ≡ S.kept source.old }
{
    let mut out = OutBuffer::new(alloc);
    let mut items = match Items::new(alloc, Mode::File) {
        Err(_) => return finish(&mut out, sink, TextEnd::NoMemory),
        Ok(items) => items,
    };
    match print_lines(scheme, &mut items, &mut out, source, sink) {
        None => RunEnd::WriteFault,
        Some(end) => finish(&mut out, sink, end),
    }
}

/// Prints the lines up to the end. None where a write failed.
fn print_lines<S: Source, K: Sink>(
    scheme: &Scheme,
    items: &mut Items,
    out: &mut OutBuffer,
    source: &mut S,
    sink: &mut K,
) -> Option<TextEnd>
    requires items { items.old ≡ opening File }
    requires out { out.old ≡ [] }
    ensures prints { PrintsLines scheme.now (record { left = S.left source.old; reads = S.faults source.old; written = K.written sink.old; writes = K.faults sink.old })
        result out.new (record { left = S.left source.new; reads = S.faults source.new; written = K.written sink.new; writes = K.faults sink.new }) }
    ensures kept { S.kept source.new ≡ S.kept source.old }
{
    let mut lines = Line::new();
    'items: loop {
        if !let_go(items, &mut lines, out, sink) {
            return None;
        }
        match read_on(scheme, items, &lines, out, source) {
            Turn::Went => {}
            Turn::Came => {
                if !print_item(scheme, items.item(), &mut lines, out, sink) {
                    return None;
                }
            }
            Turn::Ended(end) => return print_end(scheme, end, &mut lines, out, sink),
        }
    }
}

/// Writes all that was printed where the next step reads, since a read may wait for long. False where a write failed.
#[tactic(auto, using(crate::proofs::FmtLaws::nothing_printed))]
fn let_go<K: Sink>(items: &mut Items, lines: &mut Line, out: &mut OutBuffer, sink: &mut K) -> bool
    ensures same { items.new ≡ items.old }
    ensures empty { result ≡ true → WillRead items.old → out.new ++ lines.new ≡ [] }
    ensures prints { Prints result [] (out.old ++ lines.old) (out.new ++ lines.new) (K.written sink.old) (K.written sink.new) (K.faults sink.old) (K.faults sink.new) }
{
    if !items.is_hungry() {
        return true;
    }
    write_out(lines, out, sink)
}

/// Writes all that was printed.
fn write_out<K: Sink>(gathered: &mut Line, out: &mut OutBuffer, sink: &mut K) -> bool
    ensures empty { result ≡ true → out.new ++ gathered.new ≡ [] }
    ensures prints { Prints result [] (out.old ++ gathered.old) (out.new ++ gathered.new) (K.written sink.old) (K.written sink.new) (K.faults sink.old) (K.faults sink.new) }
{
    if !out.print(sink, gathered.bytes()) {
        return false;
    }
    gathered.clear();
    out.drain(sink)
}

/// Takes the next step of the reading. Where it reads, nothing that was printed is held back.
fn read_on<S: Source>(
    scheme: &Scheme,
    items: &mut Items,
    lines: &Line,
    out: &OutBuffer,
    source: &mut S,
) -> Turn
    requires written { WillRead items.old → out.now ++ lines.now ≡ [] }
    ensures mode { items.new.mode ≡ items.old.mode }
    ensures kept { S.kept source.new ≡ S.kept source.old }
    ensures steps { Steps scheme.now items.old (told result items.new.item) items.new (S.left source.old) (S.left source.new) (S.faults source.old) (S.faults source.new) }
{
    items.step(scheme, source)
}

/// Prints what stands at the end of a text, behind the lines that are gathered. None where a write failed.
fn print_end<K: Sink>(
    scheme: &Scheme,
    end: TextEnd,
    lines: &mut Line,
    out: &mut OutBuffer,
    sink: &mut K,
) -> Option<TextEnd>
    ensures { PrintsEnd (end_line scheme.now end) end result (out.old ++ lines.old) out.new (K.written sink.old) (K.written sink.new) (K.faults sink.old) (K.faults sink.new) }
{
    if !print_last(scheme, end, lines, out, sink) {
        return None;
    }
    if !out.print(sink, lines.bytes()) {
        return None;
    }
    Some(end)
}

/// Prints END's line at the end of a whole text.
#[tactic(auto, using(crate::proofs::FmtLaws::nothing_printed))]
fn print_last<K: Sink>(
    scheme: &Scheme,
    end: TextEnd,
    lines: &mut Line,
    out: &mut OutBuffer,
    sink: &mut K,
) -> bool
    ensures { Prints result (end_line scheme.now end) (out.old ++ lines.old) (out.new ++ lines.new) (K.written sink.old) (K.written sink.new) (K.faults sink.old) (K.faults sink.new) }
{
    if let TextEnd::End = end {
        return print_item(scheme, &Item::End, lines, out, sink);
    }
    true
}

/// Prints the line of an item, behind the lines that are gathered.
#[tactic(auto, using(crate::proofs::Gathering::one_line, crate::proofs::Gathering::no_line))]
fn print_item<K: Sink>(
    scheme: &Scheme,
    item: &Item,
    lines: &mut Line,
    out: &mut OutBuffer,
    sink: &mut K,
) -> bool
    ensures { Prints result (line_of scheme.now item.now) (out.old ++ lines.old) (out.new ++ lines.new) (K.written sink.old) (K.written sink.new) (K.faults sink.old) (K.faults sink.new) }
{
    if !make_room(lines, out, sink) {
        return false;
    }
    add_line(scheme, item, lines);
    true
}

/// Gathered lines are printed where a further one might not fit behind them: one by one they would be copied twice.
#[inline]
#[tactic(auto, using(crate::proofs::Gathering::let_go, crate::proofs::FmtLaws::nothing_printed))]
fn make_room<K: Sink>(lines: &mut Line, out: &mut OutBuffer, sink: &mut K) -> bool
    ensures room { length lines.new ≤ most_gathered }
    ensures prints { Prints result [] (out.old ++ lines.old) (out.new ++ lines.new) (K.written sink.old) (K.written sink.new) (K.faults sink.old) (K.faults sink.new) }
{
    if lines.len() <= MOST_GATHERED {
        return true;
    }
    let printed = out.print(sink, lines.bytes());
    lines.clear();
    printed
}

/// Writes the line of an item behind others.
fn add_line(scheme: &Scheme, item: &Item, lines: &mut Line)
    requires { length lines.old ≤ most_gathered }
    ensures { lines.new ≡ lines.old ++ line_of scheme.now item.now }
{
    write_item(scheme, item, lines);
    lines.push(b'\n');
}
