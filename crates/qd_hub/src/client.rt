//! A hub that threads share, and its clients.

ghost use Rattle.std.specs.Prelude.{◌≡◌, IfOk};
ghost use Rattle.std.specs.List.{AllZip};
ghost use Rattle.qd_row.specs.Passes.{IsChild};
ghost use Rattle.qd_row.specs.Rows.{JoinsAll};
ghost use Rattle.qd_ticker.specs.Legal.{no_terms};
ghost use Rattle.qd_hub.specs.Configs.{stream_terms, history_terms};
ghost use Rattle.qd_hub.specs.Clients.{AreFirst};

use crate::config::Config;
use crate::hub::{HistoryOp, Hub, StreamOp, StreamReply, TickerOp, TickerReply};
use crate::make::{history_gates, stream_gates, ticker_gates};
use qd_gate::{Machine, NoMemory, NoTurn};
use qd_hist_rules::HistoryReply;
use qd_history::HistoryStripe;
use qd_row::{Row, RowPass};
use qd_stream::StreamStripe;
use qd_ticker::TickerStripe;
use std::alloc::Global;
use std::marker::Model;
use std::sync::Arc;

/// A gate for each stripe of each collector.
#[derive(Drop)]
pub struct Shared {
    ticker: Row<TickerStripe>,
    stream: Row<StreamStripe>,
    history: Row<HistoryStripe>,
}

impl Shared {
    /// New collectors of these sizes, and their first client.
    pub fn new(alloc: Global, config: Config) -> Result<HubClient, NoMemory>
        ensures sizes { IfOk result (λ c. c.sizes ≡ config) }
        ensures ticker { IfOk result (λ c. AreFirst c.home.ticker config.stripes no_terms c.ticker) }
        ensures stream { IfOk result (λ c. AreFirst c.home.stream config.stripes (stream_terms config) c.stream) }
        ensures history { IfOk result (λ c. AreFirst c.home.history config.stripes (history_terms config) c.history) }
    {
        let stripes = config.stripes();
        let (ticker, ticker_passes) = ticker_gates(alloc, stripes)?;
        let (stream, stream_passes) = stream_gates(alloc, stripes, config.cap())?;
        let (history, history_passes) = history_gates(alloc, stripes, config.hcap())?;
        let shared = Arc::new(
            alloc,
            Shared {
                ticker,
                stream,
                history,
            },
        )?;
        Ok(HubClient {
            shared,
            config,
            ticker: ticker_passes,
            stream: stream_passes,
            history: history_passes,
        })
    }
}

/// A caller of a shared hub, with a pass for each gate.
#[derive(Drop)]
pub struct HubClient {
    shared: Arc<Shared, Global>,
    config: Config,
    ticker: RowPass<TickerStripe>,
    stream: RowPass<StreamStripe>,
    history: RowPass<HistoryStripe>,
}

impl Model for HubClient {
    ghost use Rattle.std.specs.Prelude.{◌≡◌};
    ghost use Rattle.std.specs.Arc.{arc_value};
    ghost use Rattle.qd_ticker.specs.Legal.{no_terms};
    ghost use Rattle.qd_hub.specs.Configs.{stream_terms, history_terms};
    ghost use Rattle.qd_hub.specs.Clients.{Client, ArePasses};

    ghost Value = { Client };

    ghost view = { λ c. record {
      home = record { ticker = (arc_value c.shared).ticker; stream = (arc_value c.shared).stream; history = (arc_value c.shared).history };
      sizes = c.config;
      ticker = c.ticker;
      stream = c.stream;
      history = c.history;
    } };

    ghost invariant = { λ c. ArePasses (arc_value c.shared).ticker c.config.stripes no_terms c.ticker
        × ArePasses (arc_value c.shared).stream c.config.stripes (stream_terms c.config) c.stream
        × ArePasses (arc_value c.shared).history c.config.stripes (history_terms c.config) c.history };
}

impl HubClient {
    /// A client of the same hub, which has seen as much and made no call. After want of memory all is as before.
    pub fn split(&mut self, alloc: Global) -> Result<HubClient, NoMemory>
        ensures same { self.new ≡ self.old }
        ensures home { IfOk result (λ c. (c.home ≡ self.old.home) × (c.sizes ≡ self.old.sizes)) }
        ensures ticker { IfOk result (λ c. AllZip IsChild self.old.ticker c.ticker) }
        ensures stream { IfOk result (λ c. AllZip IsChild self.old.stream c.stream) }
        ensures history { IfOk result (λ c. AllZip IsChild self.old.history c.history) }
    {
        let shared = Arc::try_clone(&self.shared)?;
        let ticker = shared.ticker.split(alloc, &mut self.ticker)?;
        let stream = shared.stream.split(alloc, &mut self.stream)?;
        let history = shared.history.split(alloc, &mut self.history)?;
        Ok(HubClient {
            shared,
            config: self.config,
            ticker,
            stream,
            history,
        })
    }

    /// The client takes in the other one, and has then seen what either had.
    pub fn join(&mut self, other: HubClient)
        requires { other.home ≡ self.old.home }
        ensures home { (self.new.home ≡ self.old.home) × (self.new.sizes ≡ self.old.sizes) }
        ensures ticker { JoinsAll ⟦<TickerStripe as Machine>⟧.legal self.old.ticker other.ticker self.new.ticker }
        ensures stream { JoinsAll ⟦<StreamStripe as Machine>⟧.legal self.old.stream other.stream self.new.stream }
        ensures history { JoinsAll ⟦<HistoryStripe as Machine>⟧.legal self.old.history other.history self.new.history }
    {
        let HubClient {
            shared: _,
            config: _,
            ticker,
            stream,
            history,
        } = other;
        self.shared.ticker.join(&mut self.ticker, ticker);
        self.shared.stream.join(&mut self.stream, stream);
        self.shared.history.join(&mut self.history, history);
    }
}

impl Hub for HubClient {
    ghost use Rattle.std.specs.Prelude.{◌≡◌, ℕ, Some};
    ghost use Rattle.qd_ticker.specs.Legal.{no_terms};
    ghost use Rattle.qd_hub.specs.Configs.{stream_terms, history_terms};
    ghost use Rattle.qd_hub.specs.Clients.{number_at, IsPassAt};

    ghost is_alone = { λ _. ⊥ };

    ghost home = { λ c. Some c.home };

    ghost stripes = { λ c. c.sizes.stripes };

    ghost ticker_terms = { λ _ _. no_terms };

    ghost ticker_number = { λ c i. number_at c.ticker i };

    ghost ticker = { λ c i p. IsPassAt c.ticker i p };

    ghost stream_terms = { λ c _. stream_terms c.sizes };

    ghost stream_number = { λ c i. number_at c.stream i };

    ghost stream = { λ c i p. IsPassAt c.stream i p };

    ghost history_terms = { λ c _. history_terms c.sizes };

    ghost history_number = { λ c i. number_at c.history i };

    ghost history = { λ c i p. IsPassAt c.history i p };

    fn stripes(&self) -> u8 {
        self.ticker.look();
        self.stream.look();
        self.history.look();
        self.config.stripes()
    }

    fn try_ticker(&mut self, stripe: u8, op: TickerOp) -> Result<TickerReply, NoTurn<TickerOp>> {
        self.shared
            .ticker
            .try_turn(&mut self.ticker, stripe as usize, op)
    }

    fn try_stream(&mut self, stripe: u8, op: StreamOp) -> Result<StreamReply, NoTurn<StreamOp>> {
        self.shared
            .stream
            .try_turn(&mut self.stream, stripe as usize, op)
    }

    fn try_history(
        &mut self,
        stripe: u8,
        op: HistoryOp,
    ) -> Result<HistoryReply, NoTurn<HistoryOp>> {
        self.shared
            .history
            .try_turn(&mut self.history, stripe as usize, op)
    }
}
