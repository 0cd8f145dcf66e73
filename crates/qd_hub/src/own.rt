//! A hub of one thread.

ghost use Rattle.std.specs.Prelude.{◌≡◌, ◌<◌, [], ℕ, IfOk};
ghost use Rattle.qd_gate.specs.Passes.{Pass};
ghost use Rattle.qd_row.specs.Passes.{IsFirst};
ghost use Rattle.qd_ticker.specs.Legal.{no_terms};
ghost use Rattle.qd_hub.specs.Configs.{stream_terms, history_terms};

use crate::config::Config;
use crate::hub::{HistoryOp, Hub, StreamOp, StreamReply, TickerOp, TickerReply};
use crate::make::{history_states, stream_states, ticker_states};
use qd_gate::{Machine, NoMemory, NoTurn};
use qd_hist_rules::HistoryReply;
use qd_history::HistoryStripe;
use qd_row::OwnRow;
use qd_stream::StreamStripe;
use qd_ticker::TickerStripe;
use std::alloc::Global;
use std::marker::Model;

/// The collectors in the hands of one thread. It keeps no log.
#[derive(Drop)]
pub struct OwnHub {
    config: Config,
    ticker: OwnRow<TickerStripe>,
    stream: OwnRow<StreamStripe>,
    history: OwnRow<HistoryStripe>,
}

impl Model for OwnHub {
    ghost use Rattle.std.specs.Prelude.{◌≡◌, All, length};
    ghost use Rattle.qd_ticker.specs.Legal.{no_terms};
    ghost use Rattle.qd_hub.specs.Configs.{stream_terms, history_terms};
    ghost use Rattle.qd_hub.specs.Owns.{Own, HasOwn};

    ghost Value = { Own };

    ghost view = { λ h. record { sizes = h.config; ticker = h.ticker; stream = h.stream; history = h.history } };

    ghost invariant = { λ h. (length h.ticker ≡ h.config.stripes) × (length h.stream ≡ h.config.stripes) × (length h.history ≡ h.config.stripes)
        × All (λ s. ⟦<StreamStripe as Machine>⟧.terms s ≡ stream_terms h.config) h.stream
        × All (λ s. ⟦<HistoryStripe as Machine>⟧.terms s ≡ history_terms h.config) h.history
        × All (HasOwn ⟦<TickerStripe as Machine>⟧.legal ⟦<TickerStripe as Machine>⟧.stands no_terms) h.ticker
        × All (HasOwn ⟦<StreamStripe as Machine>⟧.legal ⟦<StreamStripe as Machine>⟧.stands (stream_terms h.config)) h.stream
        × All (HasOwn ⟦<HistoryStripe as Machine>⟧.legal ⟦<HistoryStripe as Machine>⟧.stands (history_terms h.config)) h.history };
}

impl OwnHub {
    /// It stands for the empty lists. Keys are hashed with the seed 0.
    pub fn new(alloc: Global, config: Config) -> Result<OwnHub, NoMemory>
        ensures sizes { IfOk result (λ h. h.sizes ≡ config) }
        ensures ticker { IfOk result (λ h. (i : ℕ) (p : Pass _ _) → i < config.stripes → IsFirst no_terms p → ⟦<OwnHub as Hub>⟧.ticker h i p) }
        ensures stream { IfOk result (λ h. (i : ℕ) (p : Pass _ _) → i < config.stripes → IsFirst (stream_terms config) p → ⟦<OwnHub as Hub>⟧.stream h i p) }
        ensures history { IfOk result (λ h. (i : ℕ) (p : Pass _ _) → i < config.stripes → IsFirst (history_terms config) p → ⟦<OwnHub as Hub>⟧.history h i p) }
    {
        OwnHub::with_seed(alloc, config, 0)
    }

    /// The same, with keys hashed with a seed, on which no answer depends.
    pub fn with_seed(alloc: Global, config: Config, seed: u64) -> Result<OwnHub, NoMemory>
        ensures sizes { IfOk result (λ h. h.sizes ≡ config) }
        ensures ticker { IfOk result (λ h. (i : ℕ) (p : Pass _ _) → i < config.stripes → IsFirst no_terms p → ⟦<OwnHub as Hub>⟧.ticker h i p) }
        ensures stream { IfOk result (λ h. (i : ℕ) (p : Pass _ _) → i < config.stripes → IsFirst (stream_terms config) p → ⟦<OwnHub as Hub>⟧.stream h i p) }
        ensures history { IfOk result (λ h. (i : ℕ) (p : Pass _ _) → i < config.stripes → IsFirst (history_terms config) p → ⟦<OwnHub as Hub>⟧.history h i p) }
    {
        let stripes = config.stripes();
        let ticker = OwnRow::new(ticker_states(alloc, stripes, seed)?);
        let stream = OwnRow::new(stream_states(alloc, stripes, config.cap(), seed)?);
        let history = OwnRow::new(history_states(alloc, stripes, config.hcap(), seed)?);
        Ok(OwnHub {
            config,
            ticker,
            stream,
            history,
        })
    }
}

impl Hub for OwnHub {
    ghost use Rattle.std.specs.Prelude.{◌≡◌, ℕ, None};
    ghost use Rattle.qd_ticker.specs.Legal.{no_terms};
    ghost use Rattle.qd_hub.specs.Configs.{stream_terms, history_terms};
    ghost use Rattle.qd_hub.specs.Owns.{ticker_at, stream_at, history_at};

    ghost is_alone = { λ _. Unit {0} };

    ghost home = { λ _. None };

    ghost stripes = { λ h. h.sizes.stripes };

    ghost ticker_terms = { λ _ _. no_terms };

    ghost ticker_number = { λ _ _. 0 };

    ghost ticker = { ticker_at };

    ghost stream_terms = { λ h _. stream_terms h.sizes };

    ghost stream_number = { λ _ _. 0 };

    ghost stream = { stream_at };

    ghost history_terms = { λ h _. history_terms h.sizes };

    ghost history_number = { λ _ _. 0 };

    ghost history = { history_at };

    fn stripes(&self) -> u8 {
        self.config.stripes()
    }

    fn try_ticker(&mut self, stripe: u8, op: TickerOp) -> Result<TickerReply, NoTurn<TickerOp>> {
        Ok(self.ticker.step(stripe as usize, op))
    }

    fn try_stream(&mut self, stripe: u8, op: StreamOp) -> Result<StreamReply, NoTurn<StreamOp>> {
        Ok(self.stream.step(stripe as usize, op))
    }

    fn try_history(
        &mut self,
        stripe: u8,
        op: HistoryOp,
    ) -> Result<HistoryReply, NoTurn<HistoryOp>> {
        Ok(self.history.step(stripe as usize, op))
    }
}
