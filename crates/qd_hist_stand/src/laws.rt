//! Laws of a stripe, each the contract of a function that does nothing.
ghost use Rattle.qd_hist_stand.specs.Laws.{NewStands, RoomierStands, SubscribingStands, DroppedStands, ClosedStands, TellingStands, PutStands, GivenStands, TurnedStands, TakeIsLawful, FullIsTold, SpentIsTold, FaultIsTold};

/// A new stripe stands for no acts, and more room changes nothing.
pub fn room_stands()
    ensures start { NewStands }
    ensures roomier { RoomierStands }
{}

/// A stripe stands after a subscription, after the end of one, after a Close, and after a watcher was told.
pub fn subscriptions_stand()
    ensures subscribing { SubscribingStands }
    ensures dropped { DroppedStands }
    ensures closed { ClosedStands }
    ensures telling { TellingStands }
{}

/// A stripe stands after an event was put.
pub fn put_stands()
    ensures put { PutStands }
{}

/// A stripe stands after an item was given, which is lawful, and after a key that had its turn comes last; and a whole answer is lawful.
pub fn take_stands()
    ensures given { GivenStands }
    ensures turned { TurnedStands }
    ensures lawful { TakeIsLawful }
{}

/// What a stripe keeps tells which Puts and which Adds are refused.
pub fn refusals_are_told()
    ensures full { FullIsTold }
    ensures spent { SpentIsTold }
    ensures fault { FaultIsTold }
{}
