//! One call of a hub, for whatever lists it stands.

ghost use Rattle.std.specs.Prelude.{◌≡◌, ◌<◌, IsOk, IfOk, IfErr};
ghost use Rattle.qd_gate.specs.declared.machine.Terms.{Terms};
ghost use Rattle.qd_ticker.specs.Asking as ticker;
ghost use Rattle.qd_ticker.specs.Legal as ticker_legal;
ghost use Rattle.qd_stream.specs.Asking as stream;
ghost use Rattle.qd_stream.specs.Legal as stream_legal;
ghost use Rattle.qd_stream.specs.Items.{key_of_item};
ghost use Rattle.qd_hist_rules.specs.Asking as history;
ghost use Rattle.qd_hist_rules.specs.Legal as history_legal;
ghost use Rattle.qd_hub.specs.Hubs.{IsOfStripe, GivesBack};
ghost use Rattle.qd_path.specs.Lists.{Lists, AreOf};
ghost use Rattle.qd_calls.specs.Turns.{IsAnswer, TickerTurn, StreamTurn, HistoryTurn};

use qd_gate::NoTurn;
use qd_hub::{HistoryOp, HistoryReply, Hub, StreamOp, StreamReply, TickerOp, TickerReply};

/// Asks a stripe of the ticker.
pub fn ask_ticker<H: Hub>(
    hub: &mut H,
    stripe: u8,
    op: TickerOp,
) -> Result<TickerReply, NoTurn<TickerOp>>
    requires stripe { stripe < H.stripes hub.old }
    requires asked { (terms : Terms) → ticker.MayAsk terms op }
    requires keys { IsOfStripe (λ r. r.key) (H.stripes hub.old) stripe op }
    ensures same { (H.home hub.new ≡ H.home hub.old) × (H.stripes hub.new ≡ H.stripes hub.old) }
    ensures alone { H.is_alone hub.old → H.is_alone hub.new × IsOk result }
    ensures lawful { IfOk result (λ reply. IsAnswer ticker_legal.IsLegal op reply) }
    ensures back { IfErr result (λ why. GivesBack op why) }
    ensures turn { (l : Lists) → AreOf (H.stripes hub.old) (H.ticker hub.old) (H.stream hub.old) (H.history hub.old) l
        → (m : Lists) × AreOf (H.stripes hub.old) (H.ticker hub.new) (H.stream hub.new) (H.history hub.new) m × TickerTurn (H.stripes hub.old) stripe op result l m }
{
    // What holds of all lists of a hub, it tells with the number of its stripes.
    let _ = hub.stripes();
    hub.try_ticker(stripe, op)
}

/// Asks a stripe of the stream.
pub fn ask_stream<H: Hub>(
    hub: &mut H,
    stripe: u8,
    op: StreamOp,
) -> Result<StreamReply, NoTurn<StreamOp>>
    requires stripe { stripe < H.stripes hub.old }
    requires asked { (terms : Terms) → stream.MayAsk terms op }
    requires keys { IsOfStripe key_of_item (H.stripes hub.old) stripe op }
    ensures same { (H.home hub.new ≡ H.home hub.old) × (H.stripes hub.new ≡ H.stripes hub.old) }
    ensures alone { H.is_alone hub.old → H.is_alone hub.new × IsOk result }
    ensures lawful { IfOk result (λ reply. IsAnswer stream_legal.IsLegal op reply) }
    ensures back { IfErr result (λ why. GivesBack op why) }
    ensures turn { (l : Lists) → AreOf (H.stripes hub.old) (H.ticker hub.old) (H.stream hub.old) (H.history hub.old) l
        → (m : Lists) × AreOf (H.stripes hub.old) (H.ticker hub.new) (H.stream hub.new) (H.history hub.new) m × StreamTurn (H.stripes hub.old) stripe op result l m }
{
    // What holds of all lists of a hub, it tells with the number of its stripes.
    let _ = hub.stripes();
    hub.try_stream(stripe, op)
}

/// Asks a stripe of the history.
pub fn ask_history<H: Hub>(
    hub: &mut H,
    stripe: u8,
    op: HistoryOp,
) -> Result<HistoryReply, NoTurn<HistoryOp>>
    requires stripe { stripe < H.stripes hub.old }
    requires asked { (terms : Terms) → history.MayAsk terms op }
    requires keys { IsOfStripe (λ e. e.key) (H.stripes hub.old) stripe op }
    ensures same { (H.home hub.new ≡ H.home hub.old) × (H.stripes hub.new ≡ H.stripes hub.old) }
    ensures alone { H.is_alone hub.old → H.is_alone hub.new × IsOk result }
    ensures lawful { IfOk result (λ reply. IsAnswer history_legal.IsLegal op reply) }
    ensures back { IfErr result (λ why. GivesBack op why) }
    ensures turn { (l : Lists) → AreOf (H.stripes hub.old) (H.ticker hub.old) (H.stream hub.old) (H.history hub.old) l
        → (m : Lists) × AreOf (H.stripes hub.old) (H.ticker hub.new) (H.stream hub.new) (H.history hub.new) m × HistoryTurn (H.stripes hub.old) stripe op result l m }
{
    // What holds of all lists of a hub, it tells with the number of its stripes.
    let _ = hub.stripes();
    hub.try_history(stripe, op)
}
