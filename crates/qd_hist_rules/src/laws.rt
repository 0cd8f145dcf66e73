//! Laws of the history, each the contract of a function that does nothing.
ghost use Rattle.qd_hist_rules.specs.Laws.{WholeShowsOne, LegalIsLawful, OwedIsLawful, OwedMakesLast};
ghost use Rattle.qd_hist_rules.specs.Snapshots.{KeptIsLawful, SharedIsLawful, AtFloorIsLawful};

/// In a legal log each item that was given was lawful at its place.
pub fn legal_is_lawful()
    ensures lawful { LegalIsLawful }
{}

/// Whenever what an agent was given of a key shows a whole state, that is the map of one commit, cut at the floor shown, and no item had a greater number.
pub fn whole_shows_one()
    ensures shows { WholeShowsOne }
{}

/// After the end of a snapshot the next item owed may always be given.
pub fn owed_is_lawful()
    ensures owed { OwedIsLawful }
{}

/// After the end of a snapshot nothing is missing: what was given, and then what is owed, make the map of the last commit.
pub fn owed_makes_last()
    ensures makes { OwedMakesLast }
{}

/// Inside a snapshot these items may always be given: kept ones in falling order, events of the shares, and at last the item at the floor.
pub fn snapshot_is_lawful()
    ensures kept { KeptIsLawful }
    ensures shared { SharedIsLawful }
    ensures at_floor { AtFloorIsLawful }
{}
