//! The law of delivery, as the contract of a function that does nothing.

ghost use Rattle.qd_delivery.specs.Delivery.{HistoryDelivers, StreamDelivers, TickerDelivers};

/// A link whose bytes come, as far as they came, delivers every key.
pub fn bytes_deliver()
    ensures ticker { TickerDelivers }
    ensures stream { StreamDelivers }
    ensures history { HistoryDelivers }
{}
