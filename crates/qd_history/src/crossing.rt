//! What may cross threads.
use crate::stripe::HistoryStripe;

fn may_be_sent<T: Send>(_value: &T) {}

// A stripe may be sent to another thread.
fn may_cross(stripe: &HistoryStripe) {
    may_be_sent(stripe);
}
