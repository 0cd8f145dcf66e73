//! The laws of what agents see, as contracts of functions that do nothing.

ghost use Rattle.qd_views.specs.Views.{HistoryLaw, HistoryNeverBack, StreamLaw, TickerLaw};

/// What an agent of a ticker is given of a key is part of what it is offered, and never goes back.
pub fn ticker_law()
    ensures { TickerLaw }
{}

/// What an agent of a stream is given of a key accounts for the items put for it, in order and without a gap.
pub fn stream_law()
    ensures { StreamLaw }
{}

/// Whenever what an agent of a history is given of a key shows whole, it is the map of one commit, and it never goes back.
pub fn history_law()
    ensures shows { HistoryLaw }
    ensures never_back { HistoryNeverBack }
{}
