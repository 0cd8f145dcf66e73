//! Closing the agent of a link on each stripe.

ghost use Rattle.std.specs.Prelude.{◌≡◌, ◌<◌, ◌*◌, true, false, Option};
ghost use Rattle.qd_calls.specs.Dues.{IsDue};
ghost use Rattle.qd_link.specs.Closing.{AreClosed, ClosesOne, Tries, closing_call, fate_of};
ghost use Rattle.qd_path.specs.Lists.{Lists, AreOf};
ghost use Rattle.qd_scheme.specs.Stripes.{IsStripeCount};

use qd_bell::Bell;
use qd_calls::{Reaction, make};
use qd_hub::Hub;
use qd_path::{Asked, Call};
use qd_scheme::AgentNo;
use qd_sub::Op;
use std::sync::Wait;
use std::thread::yield_now;

/// What became of a Close.
#[derive(Clone, Copy, Debug)]
pub enum Tried {
    Closed,
    Spent,
    /// Another caller had a turn.
    Busy,
}

fn fate_of(reaction: Reaction) -> Tried
    ensures { result ≡ fate_of reaction }
{
    match reaction {
        Reaction::Busy {
            first: _,
            then: _,
            back: _,
        } => Tried::Busy,
        Reaction::Spent => Tried::Spent,
        _ => Tried::Closed,
    }
}

/// The Close of the stripe at a place: those of the ticker, of the stream and of the history, each rising.
fn closing_call(n: u8, at: u8, agent: AgentNo) -> Asked
    requires count { IsStripeCount n }
    requires place { at < 3 * n }
    ensures call { result ≡ closing_call n at agent }
    ensures due { IsDue n result }
{
    if at < n {
        return Asked {
            stripe: at,
            call: Call::Ticker(Op::Close { agent }),
        };
    }
    if at < n + n {
        return Asked {
            stripe: at - n,
            call: Call::Stream(Op::Close { agent }),
        };
    }
    Asked {
        stripe: at - (n + n),
        call: Call::History(Op::Close { agent }),
    }
}

/// Makes a closing call, unless another caller has a turn, and rings where it was made. True where it is not to be made again.
fn close_step<R: Wait, H: Hub, B: Bell>(rt: &R, hub: &mut H, asked: Asked, bell: &mut B) -> bool
    requires due { IsDue (H.stripes hub.old) asked }
    ensures same { (H.home hub.new ≡ H.home hub.old) × (H.stripes hub.new ≡ H.stripes hub.old) }
    ensures bell { (B.shuts bell.new ≡ B.shuts bell.old) × (B.made bell.new ≡ B.made bell.old) }
    ensures tries { (l : Lists) → AreOf (H.stripes hub.old) (H.ticker hub.old) (H.stream hub.old) (H.history hub.old) l
        → (m : Lists) × AreOf (H.stripes hub.old) (H.ticker hub.new) (H.stream hub.new) (H.history hub.new) m × Tries (H.stripes hub.old) asked result l m }
{
    match fate_of(make(hub, asked)) {
        Tried::Closed => {
            bell.ring(rt);
            true
        }
        Tried::Spent => true,
        Tried::Busy => false,
    }
}

/// Makes the closing call of a place, again while others have turns; a stripe that is spent is passed over.
fn close_one<R: Wait, H: Hub, B: Bell>(
    rt: &R,
    hub: &mut H,
    n: u8,
    at: u8,
    agent: AgentNo,
    bell: &mut B,
)
    requires stripes { n ≡ H.stripes hub.old }
    requires count { IsStripeCount n }
    requires place { at < 3 * n }
    ensures same { (H.home hub.new ≡ H.home hub.old) × (H.stripes hub.new ≡ H.stripes hub.old) }
    ensures bell { (B.shuts bell.new ≡ B.shuts bell.old) × (B.made bell.new ≡ B.made bell.old) }
    ensures closes { (l : Lists) → AreOf (H.stripes hub.old) (H.ticker hub.old) (H.stream hub.old) (H.history hub.old) l
        → (m : Lists) × AreOf (H.stripes hub.old) (H.ticker hub.new) (H.stream hub.new) (H.history hub.new) m × ClosesOne n (closing_call n at agent) l m }
{
    // What holds of all lists of a hub, it tells with the number of its stripes.
    let _ = hub.stripes();
    for _ in rt.forever() {
        if close_step(rt, hub, closing_call(n, at, agent), bell) {
            return;
        }
        yield_now();
    }
}

/// Closes an agent on each stripe.
pub fn close_all<R: Wait, H: Hub, B: Bell>(rt: &R, hub: &mut H, agent: AgentNo, bell: &mut B)
    ensures same { (H.home hub.new ≡ H.home hub.old) × (H.stripes hub.new ≡ H.stripes hub.old) }
    ensures bell { (B.shuts bell.new ≡ B.shuts bell.old) × (B.made bell.new ≡ B.made bell.old) }
    ensures closed { (l : Lists) → AreOf (H.stripes hub.old) (H.ticker hub.old) (H.stream hub.old) (H.history hub.old) l
        → (m : Lists) × AreOf (H.stripes hub.old) (H.ticker hub.new) (H.stream hub.new) (H.history hub.new) m × AreClosed (H.stripes hub.old) agent l m }
{
    let n = hub.stripes();
    for at in 0..3 * n {
        close_one(rt, hub, n, at, agent, bell);
    }
}
