//! Laws of a feed, each the contract of a function that does nothing.
ghost use Rattle.qd_hist_feed.specs.Laws.{QuietStands, UpdateStands, WaitingStands, RestartStands, GiftIsLawful, DueIsNotDone, OwedIsBehind};

/// The next item of a feed that stands for what happened is lawful, and the feed that is left stands for it.
pub fn gift_is_lawful()
    ensures gift { GiftIsLawful }
{}

/// A feed stands for each act: one that does not concern it, a commit, and, where its snapshot is to be begun, any act that gives nothing of the pair.
pub fn acts_stand()
    ensures quiet { QuietStands }
    ensures update { UpdateStands }
    ensures waiting { WaitingStands }
    ensures restart { RestartStands }
{}

/// A pair that fits is due just while its feed has something to give.
pub fn due_is_not_done()
    ensures due { DueIsNotDone }
{}

/// A feed owes no more events than its agent is behind on the key, and just as many once the snapshot is ended.
pub fn owed_is_behind()
    ensures behind { OwedIsBehind }
{}
