//! What a run prints: lines, and replies with the mark of their link.
ghost use Rattle.std.specs.Prelude.{◌≡◌, ◌≤◌, ◌+◌, ◌++◌, [], IfOk, decimal, length, map};
ghost use Rattle.qd_outside.specs.Buffering.{Prints, Drains};
ghost use Rattle.qd_grammar.specs.Canonical.{collector_text};
ghost use Rattle.qd_path.specs.Texts.{line_of};
ghost use Rattle.qd_replay.specs.Replies.{mark, reply_text};

use qd_decimal::{Line, write_count};
use qd_grammar::{Collector, Item};
use qd_outside::Sink;
use qd_replies::{Output, Printer};
use qd_scheme::Scheme;
use std::alloc::{AllocError, Global};
use std::marker::Model;

/// What prints replies: what is held back, and a line for the mark before a reply.
#[derive(Drop)]
pub struct Printing {
    output: Output,
    line: Line,
}

impl Model for Printing {
    ghost use Rattle.std.specs.Prelude.{ℕ, List};

    ghost Value = { List ℕ };

    ghost view = { λ p. p.output };
}

fn collector_text(collector: Collector) -> &'static [u8]
    ensures text { result.now ≡ collector_text collector }
    ensures short { length result.now ≤ 7 }
{
    match collector {
        Collector::Ticker => b"TICKER",
        Collector::Stream => b"STREAM",
        Collector::History => b"HISTORY",
    }
}

/// Appends bytes.
fn put(bytes: &[u8], line: &mut Line)
    requires { length line.old + length bytes.now ≤ 4096 }
    ensures bytes { line.new ≡ line.old ++ bytes.now }
    ensures len { length line.new ≡ length line.old + length bytes.now }
{
    let _ = line.append(bytes);
}

/// Appends the digits of a count.
#[tactic(auto, using(crate::proofs::Texts::count_short))]
fn put_count(n: u64, line: &mut Line)
    requires { length line.old ≤ 4000 }
    ensures count { line.new ≡ line.old ++ decimal n }
    ensures short { length line.new ≤ length line.old + 20 }
{
    let _ = write_count(n, line);
}

/// The mark of a link, in place of what the line had.
fn fill_mark(link: u8, collector: Collector, line: &mut Line)
    ensures { line.new ≡ mark link collector }
{
    line.clear();
    put(b"#LINK\t", line);
    put_count(u64::from(link), line);
    put(b"\t", line);
    put(collector_text(collector), line);
    put(b"\n", line);
}

impl Printing {
    /// Nothing printed.
    pub fn new(alloc: Global) -> Result<Printing, AllocError>
        ensures { IfOk result (λ p. p ≡ []) }
    {
        Ok(Printing {
            output: Output::new(alloc)?,
            line: Line::new(),
        })
    }

    /// Prints the canonical line of an item.
    pub fn say<K: Sink>(&mut self, scheme: &Scheme, item: &Item, sink: &mut K) -> bool
        ensures { Prints result (line_of scheme.now item.now) self.old self.new (K.written sink.old) (K.written sink.new) (K.faults sink.old) (K.faults sink.new) }
    {
        self.output.say(scheme, item, sink)
    }

    /// Prints the mark before a reply.
    fn mark<K: Sink>(&mut self, link: u8, collector: Collector, sink: &mut K) -> bool
        ensures { Prints result (mark link collector) self.old self.new (K.written sink.old) (K.written sink.new) (K.faults sink.old) (K.faults sink.new) }
    {
        fill_mark(link, collector, &mut self.line);
        self.output.print(self.line.bytes(), sink)
    }

    /// Prints what a collector gave to a link.
    pub fn reply<G: Printer, K: Sink>(
        &mut self,
        scheme: &Scheme,
        link: u8,
        collector: Collector,
        items: &[G::Given],
        sink: &mut K,
    ) -> bool
        ensures { Prints result (reply_text scheme.now link collector (map G.shown items.now)) self.old self.new (K.written sink.old) (K.written sink.new) (K.faults sink.old) (K.faults sink.new) }
    {
        if !self.mark(link, collector, sink) {
            return false;
        }
        if !self.output.items::<G, K>(scheme, items, sink) {
            return false;
        }
        self.output.say(scheme, &Item::Heartbeat, sink)
    }

    /// Writes all that was printed.
    pub fn drain<K: Sink>(&mut self, sink: &mut K) -> bool
        ensures { Drains result self.old self.new (K.written sink.old) (K.written sink.new) (K.flushed sink.new) (K.faults sink.old) (K.faults sink.new) }
    {
        self.output.drain(sink)
    }
}
