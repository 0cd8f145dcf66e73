//! What a hub does for its callers.

ghost use Rattle.std.specs.Prelude.{◌≡◌, ◌<◌, ℕ, IsOk, IfErr, Option};
ghost use Rattle.qd_gate.specs.declared.machine.Terms.{Terms};
ghost use Rattle.qd_scheme.specs.Stripes.{IsStripeCount};
ghost use Rattle.qd_stream.specs.Items.{key_of_item};
ghost use Rattle.qd_hub.specs.Hubs.{Home, TickerPass, StreamPass, HistoryPass, IsOfStripe, Asks, GivesBack, Leaves, LeavesOthers, HasLists, AreOf, AreOwn, Alike};

use qd_gate::{Machine, NoTurn};
use qd_hist_rules::{HistItem, HistoryReply};
use qd_history::HistoryStripe;
use qd_scheme::{Event, Record};
use qd_stream::{StreamItem, StreamStripe};
use qd_sub::{Op, Reply};
use qd_ticker::TickerStripe;

/// A call of the ticker: records are put and given.
pub type TickerOp = Op<Record, Record>;

/// A call of the stream: records and counts of lost ones are put and given.
pub type StreamOp = Op<StreamItem, StreamItem>;

/// A call of the history: events are put, and given with the number of the commit that they show.
pub type HistoryOp = Op<Event, HistItem>;

/// The ticker's reply.
pub type TickerReply = Reply<Record>;

/// The stream's reply.
pub type StreamReply = Reply<StreamItem>;

/// The three collectors, as one caller has them.
///
/// Each collector has as many stripes as `stripes` tells. A call names a stripe, and each key of its op is of that stripe
/// (`qd_scheme::stripe_of`). It is answered, as one entry of the stripe's log, or not had: then nothing was asked, and the op comes back.
/// A hub that is alone always answers.
pub trait Hub: Drop {
    // Whether no other thread calls it.
    ghost is_alone: { Self → Type 0 };

    // The gates that it shares; none where it is alone.
    ghost home: { Self → Option Home };

    ghost stripes: { Self → ℕ };

    // The terms of a stripe, the number with which its new entries stand, and the lists for which the hub stands there.
    ghost ticker_terms: { Self → ℕ → Terms };

    ghost ticker_number: { Self → ℕ → ℕ };

    ghost ticker: { Self → ℕ → TickerPass → Type 0 };

    ghost stream_terms: { Self → ℕ → Terms };

    ghost stream_number: { Self → ℕ → ℕ };

    ghost stream: { Self → ℕ → StreamPass → Type 0 };

    ghost history_terms: { Self → ℕ → Terms };

    ghost history_number: { Self → ℕ → ℕ };

    ghost history: { Self → ℕ → HistoryPass → Type 0 };

    /// How many stripes each collector has. It also tells that the hub stands for some lists on each of them, and what holds of all lists
    /// for which it stands.
    fn stripes(&self) -> u8
        ensures stripes { result ≡ stripes self.now }
        ensures count { IsStripeCount result }
        ensures lists { HasLists (stripes self.now) (ticker self.now) × HasLists (stripes self.now) (stream self.now) × HasLists (stripes self.now) (history self.now) }
        ensures ticker { AreOf ⟦<TickerStripe as Machine>⟧.legal (ticker_terms self.now) (ticker_number self.now) (ticker self.now) }
        ensures stream { AreOf ⟦<StreamStripe as Machine>⟧.legal (stream_terms self.now) (stream_number self.now) (stream self.now) }
        ensures history { AreOf ⟦<HistoryStripe as Machine>⟧.legal (history_terms self.now) (history_number self.now) (history self.now) }
        ensures own { is_alone self.now → AreOwn (ticker self.now) × AreOwn (stream self.now) × AreOwn (history self.now) };

    /// Asks a stripe of the ticker.
    fn try_ticker(&mut self, stripe: u8, op: TickerOp) -> Result<TickerReply, NoTurn<TickerOp>>
        requires stripe { stripe < stripes self.old }
        requires asked { ⟦<TickerStripe as Machine>⟧.may_ask (ticker_terms self.old stripe) op }
        requires keys { IsOfStripe (λ r. r.key) (stripes self.old) stripe op }
        ensures home { (home self.new ≡ home self.old) × (stripes self.new ≡ stripes self.old) }
        ensures terms { Alike (ticker_terms self.old) (ticker_terms self.new) × Alike (stream_terms self.old) (stream_terms self.new) × Alike (history_terms self.old) (history_terms self.new) }
        ensures numbers { Alike (ticker_number self.old) (ticker_number self.new) × Alike (stream_number self.old) (stream_number self.new) × Alike (history_number self.old) (history_number self.new) }
        ensures alone { is_alone self.old → is_alone self.new × IsOk result }
        ensures asked { Asks ⟦<TickerStripe as Machine>⟧.legal (ticker self.old stripe) (ticker self.new stripe) op result }
        ensures back { IfErr result (λ why. GivesBack op why) }
        ensures others { LeavesOthers stripe (ticker self.old) (ticker self.new) × Leaves (stream self.old) (stream self.new) × Leaves (history self.old) (history self.new) };

    /// Asks a stripe of the stream.
    fn try_stream(&mut self, stripe: u8, op: StreamOp) -> Result<StreamReply, NoTurn<StreamOp>>
        requires stripe { stripe < stripes self.old }
        requires asked { ⟦<StreamStripe as Machine>⟧.may_ask (stream_terms self.old stripe) op }
        requires keys { IsOfStripe (key_of_item) (stripes self.old) stripe op }
        ensures home { (home self.new ≡ home self.old) × (stripes self.new ≡ stripes self.old) }
        ensures terms { Alike (stream_terms self.old) (stream_terms self.new) × Alike (ticker_terms self.old) (ticker_terms self.new) × Alike (history_terms self.old) (history_terms self.new) }
        ensures numbers { Alike (stream_number self.old) (stream_number self.new) × Alike (ticker_number self.old) (ticker_number self.new) × Alike (history_number self.old) (history_number self.new) }
        ensures alone { is_alone self.old → is_alone self.new × IsOk result }
        ensures asked { Asks ⟦<StreamStripe as Machine>⟧.legal (stream self.old stripe) (stream self.new stripe) op result }
        ensures back { IfErr result (λ why. GivesBack op why) }
        ensures others { LeavesOthers stripe (stream self.old) (stream self.new) × Leaves (ticker self.old) (ticker self.new) × Leaves (history self.old) (history self.new) };

    /// Asks a stripe of the history.
    fn try_history(&mut self, stripe: u8, op: HistoryOp) -> Result<HistoryReply, NoTurn<HistoryOp>>
        requires stripe { stripe < stripes self.old }
        requires asked { ⟦<HistoryStripe as Machine>⟧.may_ask (history_terms self.old stripe) op }
        requires keys { IsOfStripe (λ e. e.key) (stripes self.old) stripe op }
        ensures home { (home self.new ≡ home self.old) × (stripes self.new ≡ stripes self.old) }
        ensures terms { Alike (history_terms self.old) (history_terms self.new) × Alike (ticker_terms self.old) (ticker_terms self.new) × Alike (stream_terms self.old) (stream_terms self.new) }
        ensures numbers { Alike (history_number self.old) (history_number self.new) × Alike (ticker_number self.old) (ticker_number self.new) × Alike (stream_number self.old) (stream_number self.new) }
        ensures alone { is_alone self.old → is_alone self.new × IsOk result }
        ensures asked { Asks ⟦<HistoryStripe as Machine>⟧.legal (history self.old stripe) (history self.new stripe) op result }
        ensures back { IfErr result (λ why. GivesBack op why) }
        ensures others { LeavesOthers stripe (history self.old) (history self.new) × Leaves (ticker self.old) (ticker self.new) × Leaves (stream self.old) (stream self.new) };
}
