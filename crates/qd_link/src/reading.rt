//! The reading half of a link.

ghost use Rattle.std.specs.Prelude.{◌≡◌, None};
ghost use Rattle.qd_bell.specs.Ringing.{Rises, one_more};
ghost use Rattle.qd_link.specs.LinkIns.{IsReading, IsReadOut, ReadsOn, LinkedIn, IsLeft};
ghost use Rattle.qd_path.specs.Lists.{Lists, AreOf};
ghost use Rattle.qd_session.specs.Ins.{IsCutFor, Sourced, end_in};

use crate::closing::close_all;
use qd_bell::Bell;
use qd_hub::Hub;
use qd_outside::Source;
use qd_path::Side;
use qd_scheme::Scheme;
use qd_session::{InEnd, InEngine, InTurn};
use std::alloc::Global;
use std::sync::Wait;
use std::thread::yield_now;

/// The end that a turn came to. Where another caller had a turn, the processor is left to it.
fn end_after(turn: InTurn) -> Option<InEnd>
    ensures { result ≡ end_in turn }
{
    match turn {
        InTurn::Went => None,
        InTurn::Busy { first: _, then: _ } => {
            yield_now();
            None
        }
        InTurn::Ended(end) => Some(end),
    }
}

/// Whether another caller had a turn.
fn is_busy(turn: &InTurn) -> bool {
    matches!(turn, InTurn::Busy { first: _, then: _, })
}

/// Steps the engine of a link, and rings where the step made a call.
fn read_step<R: Wait, H: Hub, S: Source, B: Bell>(
    rt: &R,
    scheme: &Scheme,
    hub: &mut H,
    engine: &mut InEngine,
    source: &mut S,
    bell: &mut B,
) -> Option<InEnd>
    requires cut { IsCutFor (H.stripes hub.old) engine.old }
    ensures cut { result ≡ None → IsCutFor (H.stripes hub.new) engine.new }
    ensures same { (H.home hub.new ≡ H.home hub.old) × (H.stripes hub.new ≡ H.stripes hub.old) × (engine.new.side ≡ engine.old.side) }
    ensures kept { S.kept source.new ≡ S.kept source.old }
    ensures bell { (B.shuts bell.new ≡ B.shuts bell.old) × (B.made bell.new ≡ B.made bell.old) }
    ensures reads { (l m : Lists) (s : Sourced) → IsReading scheme.now (H.stripes hub.old) engine.old l m s (record { left = S.left source.old; faults = S.faults source.old })
        → AreOf (H.stripes hub.old) (H.ticker hub.old) (H.stream hub.old) (H.history hub.old) m
        → (o : Lists) × AreOf (H.stripes hub.old) (H.ticker hub.new) (H.stream hub.new) (H.history hub.new) o
        × ReadsOn scheme.now (H.stripes hub.old) engine.old.side result engine.new l o s (record { left = S.left source.new; faults = S.faults source.new }) }
{
    let calling = engine.is_calling();
    let turn = engine.step(scheme, hub, source);
    if calling && !is_busy(&turn) {
        bell.ring(rt);
    }
    end_after(turn)
}

/// Steps the engine of a link until it ends.
fn read_on<R: Wait, H: Hub, S: Source, B: Bell>(
    rt: &R,
    scheme: &Scheme,
    hub: &mut H,
    engine: &mut InEngine,
    source: &mut S,
    bell: &mut B,
) -> InEnd
    requires cut { IsCutFor (H.stripes hub.old) engine.old }
    ensures same { (H.home hub.new ≡ H.home hub.old) × (H.stripes hub.new ≡ H.stripes hub.old) }
    ensures kept { S.kept source.new ≡ S.kept source.old }
    ensures bell { (B.shuts bell.new ≡ B.shuts bell.old) × (B.made bell.new ≡ B.made bell.old) }
    ensures reads { (l m : Lists) (s : Sourced) → IsReading scheme.now (H.stripes hub.old) engine.old l m s (record { left = S.left source.old; faults = S.faults source.old })
        → AreOf (H.stripes hub.old) (H.ticker hub.old) (H.stream hub.old) (H.history hub.old) m
        → (o : Lists) × AreOf (H.stripes hub.old) (H.ticker hub.new) (H.stream hub.new) (H.history hub.new) o
        × IsReadOut scheme.now (H.stripes hub.old) engine.old.side result l o s (record { left = S.left source.new; faults = S.faults source.new }) }
{
    for _ in rt.forever() {
        if let Some(end) = read_step(rt, scheme, hub, engine, source, bell) {
            return end;
        }
    }
    unreachable!()
}

/// Reads a link to its end.
fn read_link<R: Wait, H: Hub, S: Source, B: Bell>(
    rt: &R,
    alloc: Global,
    scheme: &Scheme,
    hub: &mut H,
    side: &Side,
    source: &mut S,
    bell: &mut B,
) -> InEnd
    ensures same { (H.home hub.new ≡ H.home hub.old) × (H.stripes hub.new ≡ H.stripes hub.old) }
    ensures kept { S.kept source.new ≡ S.kept source.old }
    ensures bell { (B.shuts bell.new ≡ B.shuts bell.old) × (B.made bell.new ≡ B.made bell.old) }
    ensures reads { (l : Lists) → AreOf (H.stripes hub.old) (H.ticker hub.old) (H.stream hub.old) (H.history hub.old) l
        → (m : Lists) × AreOf (H.stripes hub.old) (H.ticker hub.new) (H.stream hub.new) (H.history hub.new) m
        × IsReadOut scheme.now (H.stripes hub.old) side.now result l m (record { left = S.left source.old; faults = S.faults source.old }) (record { left = S.left source.new; faults = S.faults source.new }) }
{
    // What holds of all lists of a hub, it tells with the number of its stripes.
    let _ = hub.stripes();
    let mut engine = match InEngine::new(alloc, *side) {
        Err(_) => return InEnd::NoMemory,
        Ok(engine) => engine,
    };
    read_on(rt, scheme, hub, &mut engine, source, bell)
}

/// Closes the agent of a peer below. For a peer above no call is made.
fn leave<R: Wait, H: Hub, B: Bell>(rt: &R, hub: &mut H, side: &Side, bell: &mut B)
    ensures same { (H.home hub.new ≡ H.home hub.old) × (H.stripes hub.new ≡ H.stripes hub.old) }
    ensures bell { (B.shuts bell.new ≡ B.shuts bell.old) × (B.made bell.new ≡ B.made bell.old) }
    ensures left { (l : Lists) → AreOf (H.stripes hub.old) (H.ticker hub.old) (H.stream hub.old) (H.history hub.old) l
        → (m : Lists) × AreOf (H.stripes hub.old) (H.ticker hub.new) (H.stream hub.new) (H.history hub.new) m × IsLeft (H.stripes hub.old) side.now l m }
{
    match side {
        Side::Down(agent) => close_all(rt, hub, *agent, bell),
        Side::Up(_) => {}
    }
}

/// Makes the calls that the bytes of a link ask for until its text ends, closes its agent on each stripe, and shuts its bell.
pub fn link_in<R: Wait, H: Hub, S: Source, B: Bell>(
    rt: &R,
    alloc: Global,
    scheme: &Scheme,
    hub: &mut H,
    side: Side,
    source: &mut S,
    bell: &mut B,
) -> InEnd
    ensures same { (H.home hub.new ≡ H.home hub.old) × (H.stripes hub.new ≡ H.stripes hub.old) }
    ensures kept { S.kept source.new ≡ S.kept source.old }
    ensures shut { Rises (B.shuts bell.old) (B.shuts bell.new) }
    ensures made { B.made bell.new ≡ one_more (B.made bell.old) }
    // For whatever lists the hub stood, it stands for those with just the calls of this link.
    ensures linked { (l : Lists) → AreOf (H.stripes hub.old) (H.ticker hub.old) (H.stream hub.old) (H.history hub.old) l
        → (m : Lists) × AreOf (H.stripes hub.old) (H.ticker hub.new) (H.stream hub.new) (H.history hub.new) m
        × LinkedIn scheme.now (H.stripes hub.old) side result l m (record { left = S.left source.old; faults = S.faults source.old }) (record { left = S.left source.new; faults = S.faults source.new }) }
{
    let end = read_link(rt, alloc, scheme, hub, &side, source, bell);
    leave(rt, hub, &side, bell);
    bell.shut(rt);
    end
}
