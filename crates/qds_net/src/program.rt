//! The program where it speaks with a server.

ghost use Rattle.std.specs.Prelude.{◌≡◌, ◌⊎◌, ◌<◌, map, string_bytes, List, ℕ, None, Some, Ok, Err};
ghost use Rattle.qd_items.specs.declared.ends.RunEnd.TheVariants.{BadStep};
ghost use Rattle.qd_scheme.specs.declared.defs.RecordDef.{RecordDef};
ghost use Rattle.qd_scheme_file.specs.declared.no_scheme.NoScheme.{NoScheme};
ghost use Rattle.qd_words.specs.NetAsking.{NetAsked, HasCount, asks_net, dumped, net_asked, posted};
ghost use Rattle.qd_words.specs.NetAsking.NetAsked.{Dump, Post};
ghost use Rattle.qds_tools.specs.declared.program_end.ProgramEnd.{ProgramEnd};
ghost use Rattle.qds_tools.specs.declared.program_end.ProgramEnd.TheVariants.{Usage, Refused, Ran};
ghost use Rattle.qds_tools.specs.Program.{IsScheme};
ghost use Rattle.qds_tools.specs.Statuses.{Reports};
ghost use Rattle.qds_net.specs.Causes.{HasCause, IsServed};
ghost use Rattle.qds_net.specs.Ends.{Ends, EndsOr, IsUnknown, LeadsTo, Leaves, scheme_asked};
ghost use Rattle.qds_net.specs.Worlds.{World, NoFault};

use crate::dumping::dump;
use crate::posting::post;
use qd_clock::Clock;
use qd_items::RunEnd;
use qd_job::Spawner;
use qd_net::Net;
use qd_outside::{Files, Sink, Source};
use qd_words::{DumpAsk, NetAsk, PostAsk, net_ask_of};
use qds_tools::{ProgramEnd, Status, report, scheme_of};
use std::alloc::Global;
use std::sync::Wait;
use std::thread::Threads;

/// The program over handed-in objects where the words ask for a command that speaks with a server: `post` reads a file or
/// `input`, `dump` prints to `out`; a line on a fault goes to `err`.
pub fn net_main<
    R: Threads + Wait + Copy + Send + Sync + 'static,
    F: Files,
    N: Net,
    P: Spawner,
    C: Clock,
    S: Source,
    K: Sink,
    E: Sink,
>(
    _rt: &R,
    alloc: Global,
    words: &Vec<String>,
    files: &mut F,
    net: &mut N,
    threads: &mut P,
    clock: &mut C,
    input: &mut S,
    out: &mut K,
    err: &mut E,
) -> Status
    // Words that ask for nothing are refused, and nothing is done but the line written; but for want of memory.
    ensures usage { asks_net (map string_bytes words.now.items) ≡ None → (files.new ≡ files.old) × (net.new ≡ net.old) × (threads.new ≡ threads.old) × (clock.new ≡ clock.old) × (input.new ≡ input.old) × (out.new ≡ out.old)
        × (Reports Usage result (E.written err.old) (E.written err.new) (E.flushed err.new) (E.faults err.old) (E.faults err.new) ⊎ (result ≡ 5)) }
    // What is asked ends in one of these ways, each with its cause, and the status and the line are those of the end.
    ensures run { (ask : NetAsked) → asks_net (map string_bytes words.now.items) ≡ Some ask → (end : ProgramEnd)
        × EndsOr ask end (record { files = F.told files.old; net = N.told net.old; jobs = P.told threads.old; moments = C.told clock.old; left = S.left input.old; reads = S.faults input.old; written = K.written out.old; flushed = K.flushed out.old; writes = K.faults out.old })
        (record { files = F.told files.new; net = N.told net.new; jobs = P.told threads.new; moments = C.told clock.new; left = S.left input.new; reads = S.faults input.new; written = K.written out.new; flushed = K.flushed out.new; writes = K.faults out.new })
        × Reports end result (E.written err.old) (E.written err.new) (E.flushed err.new) (E.faults err.old) (E.faults err.new) }
    // A scheme file that is refused is told, where no fault is counted, but for want of memory.
    ensures refused { (ask : NetAsked) (why : NoScheme) → asks_net (map string_bytes words.now.items) ≡ Some ask → IsScheme (scheme_asked ask) (F.told files.old) (Err why) → NoFault (record { files = F.told files.old; net = N.told net.old; jobs = P.told threads.old; moments = C.told clock.old; left = S.left input.old; reads = S.faults input.old; written = K.written out.old; flushed = K.flushed out.old; writes = K.faults out.old })
        (record { files = F.told files.new; net = N.told net.new; jobs = P.told threads.new; moments = C.told clock.new; left = S.left input.new; reads = S.faults input.new; written = K.written out.new; flushed = K.flushed out.new; writes = K.faults out.new })
        → Reports (Refused why) result (E.written err.old) (E.written err.new) (E.flushed err.new) (E.faults err.old) (E.faults err.new) ⊎ (result ≡ 5) }
    // A want that says no key by the scheme is a bad step of line 0, and nothing is dialled.
    ensures unknown { (ask : NetAsked) (defs : List RecordDef) → asks_net (map string_bytes words.now.items) ≡ Some ask → IsScheme (scheme_asked ask) (F.told files.old) (Ok defs) → IsUnknown ask defs → NoFault (record { files = F.told files.old; net = N.told net.old; jobs = P.told threads.old; moments = C.told clock.old; left = S.left input.old; reads = S.faults input.old; written = K.written out.old; flushed = K.flushed out.old; writes = K.faults out.old })
        (record { files = F.told files.new; net = N.told net.new; jobs = P.told threads.new; moments = C.told clock.new; left = S.left input.new; reads = S.faults input.new; written = K.written out.new; flushed = K.flushed out.new; writes = K.faults out.new })
        → (Reports (Ran (BadStep 0)) result (E.written err.old) (E.written err.new) (E.flushed err.new) (E.faults err.old) (E.faults err.new) × (N.told net.new ≡ N.told net.old)) ⊎ (result ≡ 5) }
    // Scheme and text alone decide how a run ends in which no fault is counted, what it sends and what it prints, but for want of memory.
    ensures decided { (ask : NetAsked) (defs : List RecordDef) (end : ProgramEnd) (sent printed : List ℕ) → asks_net (map string_bytes words.now.items) ≡ Some ask → IsScheme (scheme_asked ask) (F.told files.old) (Ok defs)
        → LeadsTo ask defs (record { files = F.told files.old; net = N.told net.old; jobs = P.told threads.old; moments = C.told clock.old; left = S.left input.old; reads = S.faults input.old; written = K.written out.old; flushed = K.flushed out.old; writes = K.faults out.old }) end sent printed → NoFault (record { files = F.told files.old; net = N.told net.old; jobs = P.told threads.old; moments = C.told clock.old; left = S.left input.old; reads = S.faults input.old; written = K.written out.old; flushed = K.flushed out.old; writes = K.faults out.old })
        (record { files = F.told files.new; net = N.told net.new; jobs = P.told threads.new; moments = C.told clock.new; left = S.left input.new; reads = S.faults input.new; written = K.written out.new; flushed = K.flushed out.new; writes = K.faults out.new })
        → (Reports end result (E.written err.old) (E.written err.new) (E.flushed err.new) (E.faults err.old) (E.faults err.new) × Leaves sent printed (record { files = F.told files.old; net = N.told net.old; jobs = P.told threads.old; moments = C.told clock.old; left = S.left input.old; reads = S.faults input.old; written = K.written out.old; flushed = K.flushed out.old; writes = K.faults out.old })
        (record { files = F.told files.new; net = N.told net.new; jobs = P.told threads.new; moments = C.told clock.new; left = S.left input.new; reads = S.faults input.new; written = K.written out.new; flushed = K.flushed out.new; writes = K.faults out.new })) ⊎ (result ≡ 5) }
    // A fault of the files, of standard input or output, or of the net ends it only where it was counted.
    ensures causes { HasCause result (record { files = F.told files.old; net = N.told net.old; jobs = P.told threads.old; moments = C.told clock.old; left = S.left input.old; reads = S.faults input.old; written = K.written out.old; flushed = K.flushed out.old; writes = K.faults out.old })
        (record { files = F.told files.new; net = N.told net.new; jobs = P.told threads.new; moments = C.told clock.new; left = S.left input.new; reads = S.faults input.new; written = K.written out.new; flushed = K.flushed out.new; writes = K.faults out.new }) }
    // At status 0 one connection was given, and what was sent over it is the last that the net tells.
    ensures served { (ask : NetAsked) → asks_net (map string_bytes words.now.items) ≡ Some ask → result ≡ 0 → IsServed (N.told net.old) (N.told net.new) }
{
    match net_ask_of(alloc, words) {
        Ok(Some(ask)) => {
            let end = run_asked(alloc, ask, files, net, input, out);
            report(end, err)
        }
        Ok(None) => report(ProgramEnd::Usage, err),
        Err(_) => report(ProgramEnd::Ran(RunEnd::NoMemory), err),
    }
}

/// Runs what is asked.
fn run_asked<F: Files, N: Net, S: Source, K: Sink>(
    alloc: Global,
    ask: NetAsk<'_>,
    files: &mut F,
    net: &mut N,
    input: &mut S,
    out: &mut K,
) -> ProgramEnd
    requires { HasCount ask }
    ensures { (o : World) → Ends (net_asked ask.entry) result (record o { files = F.told files.old; net = N.told net.old; left = S.left input.old; reads = S.faults input.old; written = K.written out.old; flushed = K.flushed out.old; writes = K.faults out.old })
        (record o { files = F.told files.new; net = N.told net.new; left = S.left input.new; reads = S.faults input.new; written = K.written out.new; flushed = K.flushed out.new; writes = K.faults out.new }) }
{
    match ask {
        NetAsk::Post(ask) => run_post(alloc, ask, files, net, input),
        NetAsk::Dump(ask) => run_dump(alloc, &ask, files, net, out),
    }
}

/// The scheme comes first, then the file, then the dial.
fn run_post<F: Files, N: Net, S: Source>(
    alloc: Global,
    ask: PostAsk<'_>,
    files: &mut F,
    net: &mut N,
    input: &mut S,
) -> ProgramEnd
    ensures { (o : World) → Ends (Post (posted ask.entry)) result (record o { files = F.told files.old; net = N.told net.old; left = S.left input.old; reads = S.faults input.old })
        (record o { files = F.told files.new; net = N.told net.new; left = S.left input.new; reads = S.faults input.new }) }
{
    match scheme_of(alloc, ask.scheme, files) {
        Ok(scheme) => post(alloc, ask, &scheme, files, net, input),
        Err(why) => ProgramEnd::Refused(why),
    }
}

/// The scheme comes first, then what is wanted, then the dial.
fn run_dump<F: Files, N: Net, K: Sink>(
    alloc: Global,
    ask: &DumpAsk<'_>,
    files: &mut F,
    net: &mut N,
    out: &mut K,
) -> ProgramEnd
    requires { 0 < ask.now.count }
    ensures { (o : World) → Ends (Dump (dumped ask.now)) result (record o { files = F.told files.old; net = N.told net.old; written = K.written out.old; flushed = K.flushed out.old; writes = K.faults out.old })
        (record o { files = F.told files.new; net = N.told net.new; written = K.written out.new; flushed = K.flushed out.new; writes = K.faults out.new }) }
{
    match scheme_of(alloc, ask.scheme, files) {
        Ok(scheme) => dump(alloc, ask, &scheme, net, out),
        Err(why) => ProgramEnd::Refused(why),
    }
}
