//! Laws of the collectors' logs, each the contract of a function that does nothing.

ghost use Rattle.qd_ticker.specs.Legal as ticker_log;
ghost use Rattle.qd_stream.specs.Legal as stream_log;
ghost use Rattle.qd_stream.specs.Items.{key_of_item};
ghost use Rattle.qd_hist_rules.specs.Legal as history_log;
ghost use Rattle.qd_hist_rules.specs.Moments.{event_key};
ghost use Rattle.qd_hub.specs.OfStripe.{KeepsStripes};

/// Where each call of a legal log is of one stripe, a key of another stripe is never wanted, given or told.
pub fn keys_stay_in_their_stripe()
    ensures ticker { KeepsStripes ticker_log.IsLegal ticker_log.moment_of ticker_log.record_key }
    ensures stream { KeepsStripes stream_log.IsLegal stream_log.moment_of key_of_item }
    ensures history { KeepsStripes history_log.IsLegal history_log.moment_of event_key }
{}
