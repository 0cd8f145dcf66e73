//! A script is run.
ghost use Rattle.std.specs.Prelude.{◌≡◌, ◌<◌, ◌≤◌, ◌⊎◌, [], List, ℕ, Some, true, false};
ghost use Rattle.qd_grammar.specs.declared.item.Mode.TheVariants.{File};
ghost use Rattle.qd_items.specs.declared.ends.RunEnd.TheVariants as ends;
ghost use Rattle.qd_items.specs.Gives.{told};
ghost use Rattle.qd_items.specs.Standing.{opening};
ghost use Rattle.qd_items.specs.Steps.{Steps, WillRead};
ghost use Rattle.qd_outside.specs.Buffering.{Prints};
ghost use Rattle.qd_path.specs.Groups.{size};
ghost use Rattle.qd_path.specs.Lists.{Lists, AreOf};
ghost use Rattle.qd_replay.specs.Deciding.{IsSound, NoFault};
ghost use Rattle.qd_path.specs.Made.{Made};
ghost use Rattle.qd_replay.specs.Ends.{Ends, RunsOver, IsEnded, IsFlushed, Finishes, LastBy};
ghost use Rattle.qd_replay.specs.Scripts.{start};
ghost use Rattle.qd_replay.specs.Settings.{StandsForNothing, AreEmpty, books_of, own_books};
ghost use Rattle.qd_replay.specs.Steps.{is_write_fault};

use crate::engine::Engine;
use qd_grammar::{Item, Mode};
use qd_hub::{Config, Hub, OwnHub};
use qd_items::{Items, RunEnd, TextEnd, Turn};
use qd_outside::{OutBuffer, Sink, Source};
use qd_scheme::Scheme;
use std::alloc::Global;

/// Runs a script on a new hub that no other thread calls: makes the calls that its groups ask for, and prints the replies to its
/// TAKEs. A TAKE goes from stripe to stripe. All that was printed is written before each read, so that whoever writes the script
/// may wait for an answer, and before the run ends.
pub fn replay<H: Hub, S: Source, K: Sink>(
    alloc: Global,
    scheme: &Scheme,
    hub: &mut H,
    source: &mut S,
    sink: &mut K,
) -> RunEnd
    requires alone { H.is_alone hub.old }
    requires new { StandsForNothing (H.stripes hub.old) (H.ticker hub.old) (H.stream hub.old) (H.history hub.old) }
    ensures same { (H.home hub.new ≡ H.home hub.old) × (H.stripes hub.new ≡ H.stripes hub.old) × H.is_alone hub.new }
    // The run ends with a cause, and what is written is the text of what was done, in one legal log of each stripe.
    ensures ends { (l : Lists) → AreOf (H.stripes hub.old) (H.ticker hub.old) (H.stream hub.old) (H.history hub.old) l → AreEmpty (H.stripes hub.old) l
        → (m : Lists) × AreOf (H.stripes hub.old) (H.ticker hub.new) (H.stream hub.new) (H.history hub.new) m
        × RunsOver (record { defs = scheme.now; stripes = H.stripes hub.old }) l m result
        (record { left = S.left source.old; reads = S.faults source.old; written = K.written sink.old; writes = K.faults sink.old })
        (record { left = S.left source.new; reads = S.faults source.new; written = K.written sink.new; writes = K.faults sink.new }) }
    ensures flushed { IsFlushed result (K.flushed sink.new) }
    ensures kept { S.kept source.new ≡ S.kept source.old }
    // A sound script is done, where no fault is counted; but for want of memory.
    ensures decided { (l : Lists) (text : List ℕ) → AreOf (H.stripes hub.old) (H.ticker hub.old) (H.stream hub.old) (H.history hub.old) l → AreEmpty (H.stripes hub.old) l
        → S.left source.old ≡ Some text → IsSound (record { defs = scheme.now; stripes = H.stripes hub.old }) (books_of l) text
        → NoFault (S.faults source.old) (S.faults source.new) (K.faults sink.old) (K.faults sink.new)
        → (result ≡ RunEnd.Done) ⊎ (result ≡ RunEnd.NoMemory) }
{
    // What holds of all lists of a hub, it tells with the number of its stripes.
    let _ = hub.stripes();
    let mut engine = match Engine::new(alloc) {
        Err(_) => return not_begun(alloc, sink),
        Ok(engine) => engine,
    };
    let mut items = match Items::new(alloc, Mode::File) {
        Err(_) => return not_begun(alloc, sink),
        Ok(items) => items,
    };
    let end = run(alloc, scheme, &mut items, &mut engine, hub, source, sink);
    let _ = hub.stripes();
    finish(&mut engine, sink, end)
}

/// Runs a script on a hub that is made for it, with these sizes. The keys of the collectors are hashed by a seed, on which nothing
/// that is printed depends.
pub fn replay_alone<S: Source, K: Sink>(
    alloc: Global,
    seed: u64,
    scheme: &Scheme,
    config: Config,
    source: &mut S,
    sink: &mut K,
) -> RunEnd
    // The run ends with a cause, and what is written is the text of what was done, in one legal log of each stripe.
    ensures ends { (calls : List Made) × Ends (record { defs = scheme.now; stripes = config.stripes }) (own_books config) calls result
        (record { left = S.left source.old; reads = S.faults source.old; written = K.written sink.old; writes = K.faults sink.old })
        (record { left = S.left source.new; reads = S.faults source.new; written = K.written sink.new; writes = K.faults sink.new }) }
    ensures flushed { IsFlushed result (K.flushed sink.new) }
    ensures kept { S.kept source.new ≡ S.kept source.old }
    // A sound script is done, where no fault is counted; but for want of memory.
    ensures decided { (text : List ℕ) → S.left source.old ≡ Some text → IsSound (record { defs = scheme.now; stripes = config.stripes }) (own_books config) text
        → NoFault (S.faults source.old) (S.faults source.new) (K.faults sink.old) (K.faults sink.new)
        → (result ≡ RunEnd.Done) ⊎ (result ≡ RunEnd.NoMemory) }
{
    match OwnHub::with_seed(alloc, config, seed) {
        Err(_) => not_begun(alloc, sink),
        Ok(mut hub) => replay(alloc, scheme, &mut hub, source, sink),
    }
}

/// Ends a run that wants memory before its first read.
fn not_begun<K: Sink>(alloc: Global, sink: &mut K) -> RunEnd
    ensures { Finishes ends.NoMemory result [] (K.written sink.old) (K.written sink.new) (K.flushed sink.new) (K.faults sink.old) (K.faults sink.new) }
{
    let mut nothing = OutBuffer::new(alloc);
    if !nothing.drain(sink) {
        return RunEnd::WriteFault;
    }
    RunEnd::NoMemory
}

/// Does what each item asks for, until the run ends.
fn run<H: Hub, S: Source, K: Sink>(
    alloc: Global,
    scheme: &Scheme,
    items: &mut Items,
    engine: &mut Engine,
    hub: &mut H,
    source: &mut S,
    sink: &mut K,
) -> RunEnd
    requires alone { H.is_alone hub.old }
    requires new { StandsForNothing (H.stripes hub.old) (H.ticker hub.old) (H.stream hub.old) (H.history hub.old) }
    requires items { items.old ≡ opening File }
    requires engine { engine.old ≡ record { script = start; held = [] } }
    ensures same { (H.home hub.new ≡ H.home hub.old) × (H.stripes hub.new ≡ H.stripes hub.old) × H.is_alone hub.new }
    ensures ended { (l : Lists) → AreOf (H.stripes hub.old) (H.ticker hub.old) (H.stream hub.old) (H.history hub.old) l
        → (m : Lists) × AreOf (H.stripes hub.old) (H.ticker hub.new) (H.stream hub.new) (H.history hub.new) m
        × IsEnded (record { defs = scheme.now; stripes = H.stripes hub.old }) result
        (record { left = S.left source.old; reads = S.faults source.old; written = K.written sink.old; writes = K.faults sink.old })
        l m engine.new.held
        (record { left = S.left source.new; reads = S.faults source.new; written = K.written sink.new; writes = K.faults sink.new }) }
    ensures kept { S.kept source.new ≡ S.kept source.old }
{
    // What holds of all lists of a hub, it tells with the number of its stripes.
    let _ = hub.stripes();
    'items: loop {
        if !let_go(items, engine, sink) {
            return RunEnd::WriteFault;
        }
        match read_on(scheme, items, engine, source) {
            Turn::Went => {}
            Turn::Came => {
                let line = items.line();
                match engine.hear(alloc, scheme, hub, items.item(), line, sink) {
                    None => {}
                    Some(end) => return end,
                }
            }
            Turn::Ended(text_end) => {
                let line = items.line();
                return last(alloc, scheme, engine, hub, line, text_end, sink);
            }
        }
    }
}

/// Writes all that was printed where the next step reads, since a read may wait for long. False where a write failed.
#[tactic(auto, using(crate::proofs::Runs::nothing_let_go, crate::proofs::Runs::drained))]
fn let_go<K: Sink>(items: &mut Items, engine: &mut Engine, sink: &mut K) -> bool
    ensures same { items.new ≡ items.old }
    ensures script { engine.new.script ≡ engine.old.script }
    ensures hungry { result ≡ false → WillRead items.old }
    ensures empty { result ≡ true → WillRead items.old → engine.new.held ≡ [] }
    ensures prints { Prints result [] engine.old.held engine.new.held (K.written sink.old) (K.written sink.new) (K.faults sink.old) (K.faults sink.new) }
{
    if !items.is_hungry() {
        return true;
    }
    engine.drain(sink)
}

/// Takes the next step of the reading. Where it reads, nothing that was printed is held back.
fn read_on<S: Source>(scheme: &Scheme, items: &mut Items, engine: &Engine, source: &mut S) -> Turn
    requires written { WillRead items.old → engine.now.held ≡ [] }
    ensures mode { items.new.mode ≡ items.old.mode }
    ensures kept { S.kept source.new ≡ S.kept source.old }
    ensures steps { Steps scheme.now items.old (told result items.new.item) items.new (S.left source.old) (S.left source.new) (S.faults source.old) (S.faults source.new) }
{
    items.step(scheme, source)
}

/// The text ended: `==END` is heard, and any other end is that of the run.
fn last<H: Hub, K: Sink>(
    alloc: Global,
    scheme: &Scheme,
    engine: &mut Engine,
    hub: &mut H,
    line: u64,
    end: TextEnd,
    sink: &mut K,
) -> RunEnd
    requires alone { H.is_alone hub.old }
    requires few { size engine.old.script.place.group < 4096 }
    ensures same { (H.home hub.new ≡ H.home hub.old) × (H.stripes hub.new ≡ H.stripes hub.old) × H.is_alone hub.new }
    ensures last { (l : Lists) → AreOf (H.stripes hub.old) (H.ticker hub.old) (H.stream hub.old) (H.history hub.old) l
        → (m : Lists) × AreOf (H.stripes hub.old) (H.ticker hub.new) (H.stream hub.new) (H.history hub.new) m
        × LastBy (record { defs = scheme.now; stripes = H.stripes hub.old }) end line result engine.old l (record { written = K.written sink.old; faults = K.faults sink.old }) engine.new m (record { written = K.written sink.new; faults = K.faults sink.new }) }
{
    match end {
        TextEnd::End => match engine.hear(alloc, scheme, hub, &Item::End, line, sink) {
            Some(end) => end,
            // No run goes on behind its END.
            None => RunEnd::Done,
        },
        _ => end.run_end(),
    }
}

fn is_write_fault(end: RunEnd) -> bool
    ensures { result ≡ is_write_fault end }
{
    match end {
        RunEnd::WriteFault => true,
        _ => false,
    }
}

/// Writes what is held back, unless a write failed before.
fn finish<K: Sink>(engine: &mut Engine, sink: &mut K, end: RunEnd) -> RunEnd
    ensures { Finishes end result engine.old.held (K.written sink.old) (K.written sink.new) (K.flushed sink.new) (K.faults sink.old) (K.faults sink.new) }
{
    if is_write_fault(end) {
        return end;
    }
    if !engine.drain(sink) {
        return RunEnd::WriteFault;
    }
    end
}
