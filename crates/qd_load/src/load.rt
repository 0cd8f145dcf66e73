//! `load`.

ghost use Rattle.std.specs.Prelude.{◌≡◌, ◌≤◌, ◌+◌, ◌++◌, ◌⊎◌, [], Err, decimal, length};
ghost use Rattle.qd_outside.specs.Causes.{Rose};
ghost use Rattle.qd_items.specs.declared.ends.RunEnd.TheVariants as ends;
ghost use Rattle.qd_replay.specs.Deciding.{IsSound};
ghost use Rattle.qd_replay.specs.Settings.{own_books};
ghost use Rattle.qd_scheme.specs.Builtin.{builtin_defs};
ghost use Rattle.qd_tape.specs.Scripts.{generated};
ghost use Rattle.qd_load.specs.Loads.{Loads, RunsCounted, Tells, WritesLine, setting, summary};

use crate::counting::Counting;
use crate::totals::Totals;
use qd_decimal::{Line, write_count};
use qd_hub::{Config, OwnHub};
use qd_items::RunEnd;
use qd_outside::{Sink, SoundSink, write_all};
use qd_replay::replay;
use qd_scheme::Scheme;
use qd_tape::ScriptSource;
use std::alloc::Global;

/// Runs the generated script of a start and a count of items on a hub that is made for it, with these sizes, and prints a line
/// that tells how many records the ticker gave, how many records the stream gave and told as lost, and how large the maps are
/// that the events given of the history show. No text is kept. The keys of the collectors are hashed by a seed, on which nothing
/// that is printed depends.
pub fn load_alone<K: Sink>(
    alloc: Global,
    seed: u64,
    scheme: &Scheme,
    config: Config,
    start: u32,
    count: u32,
    sink: &mut K,
) -> RunEnd
    requires scheme { scheme.now ≡ builtin_defs }
    requires count { count ≤ 600000 }
    // The script's calls are made, in one legal log of each stripe, and the numbers printed are those of what these gave.
    ensures loads { Loads config.stripes (own_books config) start count result (K.written sink.old) (K.written sink.new) (K.flushed sink.old) (K.flushed sink.new) (K.faults sink.old) (K.faults sink.new) }
    // Where no call of the script may be refused it is done, unless a fault is counted; but for want of memory.
    ensures decided { IsSound (setting config.stripes) (own_books config) (generated start count) → (Rose (K.faults sink.old) (K.faults sink.new) → ⊥) → (result ≡ ends.Done) ⊎ (result ≡ ends.NoMemory) }
{
    match run_counted(alloc, seed, scheme, config, start, count) {
        Err(end) => end,
        Ok(totals) => tell(totals, sink),
    }
}

/// Runs the script, and tells what was counted where it is done.
fn run_counted(
    alloc: Global,
    seed: u64,
    scheme: &Scheme,
    config: Config,
    start: u32,
    count: u32,
) -> Result<Totals, RunEnd>
    requires scheme { scheme.now ≡ builtin_defs }
    requires count { count ≤ 600000 }
    ensures runs { RunsCounted config.stripes (own_books config) start count result }
    ensures decided { IsSound (setting config.stripes) (own_books config) (generated start count) → (end : _) → result ≡ Err end → end ≡ ends.NoMemory }
{
    let hub = match OwnHub::with_seed(alloc, config, seed) {
        Err(_) => return Err(RunEnd::NoMemory),
        Ok(hub) => hub,
    };
    let mut hub = match Counting::new(alloc, hub) {
        Err(_) => return Err(RunEnd::NoMemory),
        Ok(hub) => hub,
    };
    let mut source = ScriptSource::new(scheme, start, count);
    let mut unheard = SoundSink::new();
    match replay(alloc, scheme, &mut hub, &mut source, &mut unheard) {
        RunEnd::Done => {}
        end => return Err(end),
    }
    match hub.totals() {
        None => Err(RunEnd::NoMemory),
        Some(totals) => Ok(totals),
    }
}

/// Appends bytes.
fn put(bytes: &[u8], line: &mut Line)
    requires { length line.old + length bytes.now ≤ 4096 }
    ensures bytes { line.new ≡ line.old ++ bytes.now }
    ensures len { length line.new ≡ length line.old + length bytes.now }
{
    let _ = line.append(bytes);
}

/// Appends the digits of a count.
#[tactic(auto, using(crate::proofs::Telling::count_short))]
fn put_count(n: u64, line: &mut Line)
    requires { length line.old ≤ 4000 }
    ensures count { line.new ≡ line.old ++ decimal n }
    ensures short { length line.new ≤ length line.old + 20 }
{
    let _ = write_count(n, line);
}

/// The line that tells the counts.
fn fill(totals: Totals, line: &mut Line)
    requires { line.old ≡ [] }
    ensures { line.new ≡ summary totals }
{
    put(b"ticker ", line);
    put_count(totals.records, line);
    put(b" stream ", line);
    put_count(totals.items, line);
    put(b" lost ", line);
    put_count(totals.lost, line);
    put(b" history ", line);
    put_count(totals.entries, line);
    put(b"\n", line);
}

/// Tells the counts.
fn tell<K: Sink>(totals: Totals, sink: &mut K) -> RunEnd
    ensures { Tells result (summary totals) (K.written sink.old) (K.written sink.new) (K.flushed sink.new) (K.faults sink.old) (K.faults sink.new) }
{
    let mut line = Line::new();
    fill(totals, &mut line);
    if !write_line(sink, line.bytes()) {
        return RunEnd::WriteFault;
    }
    RunEnd::Done
}

/// Writes a text and flushes it.
fn write_line<K: Sink>(sink: &mut K, text: &[u8]) -> bool
    ensures { WritesLine result text.now (K.written sink.old) (K.written sink.new) (K.flushed sink.new) (K.faults sink.old) (K.faults sink.new) }
{
    if !write_all(sink, text) {
        return false;
    }
    sink.flush()
}
