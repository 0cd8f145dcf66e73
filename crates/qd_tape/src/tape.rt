//! Tapes.

ghost use Rattle.std.specs.Prelude.{◌≡◌, ◌≤◌, ◌+◌, ◌++◌, [], Some, None, true, false, length, if◌then◌else◌, IfOk};
ghost use Rattle.qd_check.specs.Printing.{line_of};
ghost use Rattle.qd_grammar.specs.declared.item.Item.TheVariants.{Time};
ghost use Rattle.qd_outside.specs.Buffering.{Prints};
ghost use Rattle.qd_tape.specs.declared.tape.Wrote.TheVariants.{Done, WriteFault};
ghost use Rattle.qd_tape.specs.Tapes.{has_time, is_later, is_timed, last_time, tape_after, tape_text};
ghost use Rattle.qd_tape.specs.Writing.{Tapes};

use qd_decimal::Line;
use qd_outside::{OutBuffer, Sink, write_all};
use qd_scheme::{NoMemory, Scheme};
use qd_text::{Item, write_item};
use std::alloc::Global;
use std::marker::Model;

/// The answer to an item.
#[derive(Clone, Copy)]
pub enum Wrote {
    Done,
    WriteFault,
}

/// A tape that is being written. It is seen as the last time that stands on it, and whether a write failed.
#[derive(Drop)]
pub struct TapeWriter {
    last: Option<u64>,
    failed: bool,
    lines: Box<Line>,
}

impl Model for TapeWriter {
    ghost use Rattle.qd_outside.specs.Buffering.{Prints};
    ghost use Rattle.qd_tape.specs.declared.tape.Wrote.TheVariants.{Done, WriteFault};
    ghost use Rattle.qd_tape.specs.Tapes.{Tape};

    ghost Value = { Tape };

    ghost view = { λ t. record { last = t.last; failed = t.failed } };
}

impl TapeWriter {
    /// A tape on which nothing stands.
    pub fn new(alloc: Global) -> Result<TapeWriter, NoMemory>
        ensures { IfOk result (λ tape. tape ≡ record { last = None; failed = false }) }
    {
        let lines = Box::new(alloc, Line::new())?;
        Ok(TapeWriter {
            last: None,
            failed: false,
            lines,
        })
    }

    /// Whether a write failed. Then the tape ends in the midst of an item, and takes no more.
    pub fn has_failed(&self) -> bool
        ensures { result ≡ self.now.failed }
    {
        self.failed
    }

    /// Writes an item that came at `ms` milliseconds: its line, and before it that of the time where none stands on the tape yet,
    /// or only earlier ones. So an item that came before the last time is kept as if it came at that time. The first line and the
    /// last one of a text, PROTOCOL and END, have no time. The lines are written at once and not flushed: whoever has the sink
    /// flushes it.
    pub fn item<K: Sink>(&mut self, scheme: &Scheme, ms: u64, item: &Item, sink: &mut K) -> Wrote
        requires sound { self.old.failed ≡ false }
        ensures kept { K.kept sink.new ≡ K.kept sink.old }
        ensures writes { Tapes result (tape_text scheme.now self.old.last ms item.now) (K.written sink.old) (K.written sink.new) (K.faults sink.old) (K.faults sink.new) }
        ensures tape { self.new ≡ tape_after result ms item.now self.old }
    {
        let timed = has_time(self.last, ms, item);
        set_lines(scheme, timed, ms, item, &mut self.lines);
        let written = write_all(sink, self.lines.bytes());
        self.keep(written, timed, ms);
        if !written {
            return Wrote::WriteFault;
        }
        Wrote::Done
    }

    /// The same by way of a buffer, which holds lines back and writes many of them at once. False where a write failed.
    pub fn print<K: Sink>(
        &mut self,
        scheme: &Scheme,
        ms: u64,
        item: &Item,
        out: &mut OutBuffer,
        sink: &mut K,
    ) -> bool
        requires sound { self.old.failed ≡ false }
        ensures kept { K.kept sink.new ≡ K.kept sink.old }
        ensures prints { Prints result (tape_text scheme.now self.old.last ms item.now) out.old out.new (K.written sink.old) (K.written sink.new) (K.faults sink.old) (K.faults sink.new) }
        ensures tape { self.new ≡ tape_after (if result then Done else WriteFault) ms item.now self.old }
    {
        let timed = has_time(self.last, ms, item);
        set_lines(scheme, timed, ms, item, &mut self.lines);
        let written = out.print(sink, self.lines.bytes());
        self.keep(written, timed, ms);
        written
    }

    /// Keeps whether an item was written, and its time where that was written before it.
    fn keep(&mut self, written: bool, timed: bool, ms: u64)
        ensures { self.new ≡ (if written then record { last = (if timed then Some ms else self.old.last); failed = self.old.failed } else record { last = self.old.last; failed = true }) }
    {
        if !written {
            self.failed = true;
            return;
        }
        if timed {
            self.last = Some(ms);
        }
    }
}

/// Whether an item came at some time.
fn is_timed(item: &Item) -> bool
    ensures { result ≡ is_timed item.now }
{
    match item {
        Item::Protocol | Item::End => false,
        _ => true,
    }
}

/// Whether a time is later than the last one.
fn is_later(last: Option<u64>, ms: u64) -> bool
    ensures { result ≡ is_later last ms }
{
    match last {
        None => true,
        Some(last) => last < ms,
    }
}

/// Whether an item's time stands before it.
fn has_time(last: Option<u64>, ms: u64, item: &Item) -> bool
    ensures { result ≡ has_time last ms item.now }
{
    is_timed(item) && is_later(last, ms)
}

/// The lines of an item, in place of what stood there.
fn set_lines(scheme: &Scheme, timed: bool, ms: u64, item: &Item, lines: &mut Line)
    ensures { lines.new ≡ (if timed then line_of scheme.now (Time ms) else []) ++ line_of scheme.now item.now }
{
    lines.clear();
    if timed {
        add_line(scheme, &Item::Time(ms), lines);
    }
    add_line(scheme, item, lines);
}

/// Writes the line of an item behind others.
pub fn add_line(scheme: &Scheme, item: &Item, lines: &mut Line)
    requires { length lines.old ≤ 3000 }
    ensures line { lines.new ≡ lines.old ++ line_of scheme.now item.now }
    ensures short { length lines.new ≤ length lines.old + 1001 }
{
    write_item(scheme, item, lines);
    lines.push(b'\n');
}
