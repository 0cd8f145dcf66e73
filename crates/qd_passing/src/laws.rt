//! The law of what texts put, as the contract of a function that does nothing.

ghost use Rattle.qd_passing.specs.Passing.{EventsPut, ItemsPut, RecordsPut};
ghost use Rattle.qd_passing.specs.Replies.{EventsPass, ItemsPass, RecordsPass};

/// The calls of a text of a peer above put each record, item and event that its lines say, once and in order.
pub fn each_is_put()
    ensures records { RecordsPut }
    ensures items { ItemsPut }
    ensures events { EventsPut }
{}

/// What a link's bytes, as far as they came, put of each key is, in order, the first of what the replies gave that they were written for.
pub fn link_passes_on()
    ensures records { RecordsPass }
    ensures items { ItemsPass }
    ensures events { EventsPass }
{}
