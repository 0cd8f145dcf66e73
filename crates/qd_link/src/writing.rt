//! The writing half of a link.

ghost use Rattle.std.specs.Prelude.{◌≡◌, ◌<◌, ◌+◌, ℕ, true, false, Some, None};
ghost use Rattle.qd_bell.specs.Ringing.{Rises};
ghost use Rattle.qd_link.specs.declared.ends.OutEnd.TheVariants as ends;
ghost use Rattle.qd_link.specs.LinkOuts.{IsWriting, LinkedOut, RestsBy, TellsShut, TellsShutOn, WritesOn, ending};
ghost use Rattle.qd_path.specs.Lists.{Lists, AreOf};
ghost use Rattle.qd_replies.specs.Outs.{IsInRound, Sunk};

use crate::ends::OutEnd;
use crate::lines::write_line;
use crate::patience::Patience;
use qd_bell::{Bell, Rung};
use qd_grammar::Item;
use qd_hub::Hub;
use qd_outside::Sink;
use qd_path::Side;
use qd_replies::{OutEngine, OutFault, OutTurn, exactly_idle};
use qd_scheme::Scheme;
use std::alloc::Global;
use std::sync::Wait;

/// Waits on the bell, and writes the last line where it was shut.
fn rest<R: Wait, K: Sink, B: Bell>(
    rt: &R,
    scheme: &Scheme,
    sink: &mut K,
    bell: &mut B,
) -> Option<OutEnd>
    ensures made { B.made bell.new ≡ B.made bell.old }
    ensures shuts { TellsShutOn result (B.shuts bell.old) (B.shuts bell.new) }
    ensures flushed { result ≡ Some ends.Shut → K.flushed sink.new ≡ true }
    ensures rests { RestsBy scheme.now result (record { written = K.written sink.old; faults = K.faults sink.old }) (record { written = K.written sink.new; faults = K.faults sink.new }) }
{
    match bell.wait(rt) {
        Rung::Ring => None,
        Rung::Shut => {
            if write_line(scheme, &Item::End, sink) {
                Some(OutEnd::Shut)
            } else {
                Some(OutEnd::WriteFault)
            }
        }
    }
}

/// Steps the engine of a link, and waits on the bell where nothing is due and the step is not the last one.
fn write_step<R: Wait, H: Hub, K: Sink, B: Bell>(
    rt: &R,
    scheme: &Scheme,
    hub: &mut H,
    engine: &mut OutEngine,
    sink: &mut K,
    bell: &mut B,
    patience: &mut Patience,
    is_last: bool,
) -> Option<OutEnd>
    requires round { IsInRound (H.stripes hub.old) engine.old }
    ensures round { IsInRound (H.stripes hub.new) engine.new }
    ensures same { (H.home hub.new ≡ H.home hub.old) × (H.stripes hub.new ≡ H.stripes hub.old) × (engine.new.side ≡ engine.old.side) }
    ensures made { B.made bell.new ≡ B.made bell.old }
    ensures shuts { TellsShutOn result (B.shuts bell.old) (B.shuts bell.new) }
    ensures flushed { result ≡ Some ends.Shut → K.flushed sink.new ≡ true }
    ensures writes { (count limit : ℕ) (l m : Lists) (o : Sunk) → count < limit → (is_last ≡ false → count + 1 < limit)
        → IsWriting scheme.now (H.stripes hub.old) engine.old count l m o (record { written = K.written sink.old; faults = K.faults sink.old })
        → AreOf (H.stripes hub.old) (H.ticker hub.old) (H.stream hub.old) (H.history hub.old) m
        → (r : Lists) × AreOf (H.stripes hub.old) (H.ticker hub.new) (H.stream hub.new) (H.history hub.new) r
        × WritesOn scheme.now (H.stripes hub.old) engine.old.side result engine.new count limit l r o (record { written = K.written sink.new; faults = K.faults sink.new }) }
{
    exactly_idle();
    match engine.step(scheme, hub, sink) {
        OutTurn::Went(_) => {
            patience.begin_anew();
            None
        }
        OutTurn::Idle => {
            patience.begin_anew();
            if is_last {
                return None;
            }
            rest(rt, scheme, sink, bell)
        }
        OutTurn::Busy { first: _, then: _ } => {
            patience.pause(rt);
            None
        }
        OutTurn::Ended(OutFault::WriteFault) => Some(OutEnd::WriteFault),
        OutTurn::Ended(OutFault::Spent) => Some(OutEnd::Spent),
    }
}

/// Steps the engine of a link until it ends, or so many steps were made.
fn write_on<R: Wait, H: Hub, K: Sink, B: Bell>(
    rt: &R,
    scheme: &Scheme,
    hub: &mut H,
    engine: &mut OutEngine,
    sink: &mut K,
    bell: &mut B,
    turns: u64,
) -> OutEnd
    requires round { IsInRound (H.stripes hub.old) engine.old }
    ensures same { (H.home hub.new ≡ H.home hub.old) × (H.stripes hub.new ≡ H.stripes hub.old) }
    ensures made { B.made bell.new ≡ B.made bell.old }
    ensures shuts { TellsShut result (B.shuts bell.old) (B.shuts bell.new) }
    ensures flushed { result ≡ ends.Shut → K.flushed sink.new ≡ true }
    ensures writes { (l m : Lists) (o : Sunk)
        → IsWriting scheme.now (H.stripes hub.old) engine.old 0 l m o (record { written = K.written sink.old; faults = K.faults sink.old })
        → AreOf (H.stripes hub.old) (H.ticker hub.old) (H.stream hub.old) (H.history hub.old) m
        → (r : Lists) × AreOf (H.stripes hub.old) (H.ticker hub.new) (H.stream hub.new) (H.history hub.new) r
        × LinkedOut scheme.now (H.stripes hub.old) engine.old.side result turns l r o (record { written = K.written sink.new; faults = K.faults sink.new }) }
{
    let mut patience = Patience::new();
    for turn in 0..turns {
        let is_last = turn + 1 == turns;
        if let Some(end) = write_step(rt, scheme, hub, engine, sink, bell, &mut patience, is_last) {
            return end;
        }
    }
    OutEnd::Turns
}

/// Writes what is due to the other end of a link, and waits on its bell where nothing is, until the bell is shut or so many steps were
/// made.
pub fn link_out<R: Wait, H: Hub, K: Sink, B: Bell>(
    rt: &R,
    alloc: Global,
    scheme: &Scheme,
    hub: &mut H,
    side: Side,
    sink: &mut K,
    bell: &mut B,
    turns: u64,
) -> OutEnd
    ensures same { (H.home hub.new ≡ H.home hub.old) × (H.stripes hub.new ≡ H.stripes hub.old) }
    ensures made { B.made bell.new ≡ B.made bell.old }
    ensures shuts { TellsShut result (B.shuts bell.old) (B.shuts bell.new) }
    ensures flushed { result ≡ ends.Shut → K.flushed sink.new ≡ true }
    // For whatever lists the hub stood, it stands for those with just the calls of this link.
    ensures linked { (l : Lists) → AreOf (H.stripes hub.old) (H.ticker hub.old) (H.stream hub.old) (H.history hub.old) l
        → (m : Lists) × AreOf (H.stripes hub.old) (H.ticker hub.new) (H.stream hub.new) (H.history hub.new) m
        × LinkedOut scheme.now (H.stripes hub.old) side result turns l m (record { written = K.written sink.old; faults = K.faults sink.old }) (record { written = K.written sink.new; faults = K.faults sink.new }) }
{
    // What holds of all lists of a hub, it tells with the number of its stripes.
    let _ = hub.stripes();
    let mut engine = match OutEngine::new(alloc, side) {
        Err(_) => return OutEnd::NoMemory,
        Ok(engine) => engine,
    };
    if !write_line(scheme, &Item::Protocol, sink) {
        return OutEnd::WriteFault;
    }
    write_on(rt, scheme, hub, &mut engine, sink, bell, turns)
}
