//! The laws of engines that write, as contracts of functions that do nothing.

ghost use Rattle.qd_replies.specs.Laws.{FitsItems, IsExactlyIdle, PlacesGoRound};

/// An engine is idle exactly where each stripe was asked since the later of the last answer with items and the last time that
/// it was idle, or since it was made where there was neither, and each answered without items.
pub fn exactly_idle()
    ensures { IsExactlyIdle }
{}

/// The place of the call that comes next is the number of calls so far, modulo the number of all stripes.
pub fn round_places()
    ensures { PlacesGoRound }
{}

/// An item is written exactly where some line spells it.
pub fn fitting_items()
    ensures { FitsItems }
{}
