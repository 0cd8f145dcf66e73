//! The writing half of a session: what a hub gives becomes the bytes that a peer reads.
//!
//! An [`OutEngine`] asks the stripes of a hub, one a step and round and round: those of the ticker, of the stream, and of the history.
//! The items that a stripe gives are written with their heads, and a heartbeat behind them, and flushed; of a reply without items
//! nothing is written. After [`OutTurn::Busy`] the same stripe comes next.
//!
//! Which bytes are written of replies is defined in `qd_path`; what an engine keeps and what a step of it does stands in `specs/Outs`,
//! and what holds of the calls of every engine in `specs/Laws`.
#![tactic(auto)]

mod buffers;
mod ends;
mod held;
mod laws;
mod out_engine;
mod output;
mod printers;
mod spelling;

pub use ends::{OutFault, OutTurn};
pub use held::Held;
pub use laws::{exactly_idle, fitting_items, round_places};
pub use out_engine::OutEngine;
pub use output::Output;
pub use printers::{Events, HistoryWants, Items, Printer, Records, StreamWants, TickerWants};
pub use spelling::fits;
