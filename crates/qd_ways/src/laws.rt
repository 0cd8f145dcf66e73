//! The laws of links and paths, as contracts of functions that do nothing.

ghost use Rattle.qd_ways.specs.Links.{HistoryLink, HistoryLinkRises, StreamLink, TickerLink};
ghost use Rattle.qd_ways.specs.Paths.{HistoryPath, NeverBack, OriginsRise, OriginsStay, StreamPath, TickerPath};

/// What is put below a link that delivers a key stands for what was put above.
pub fn link_law()
    ensures ticker { TickerLink }
    ensures stream { StreamLink }
    ensures history { HistoryLink }
    ensures history_rises { HistoryLinkRises }
{}

/// What the agent at the end of a path is given stands for what was put at the root.
pub fn path_law()
    ensures ticker { TickerPath }
    ensures stream { StreamPath }
    ensures history { HistoryPath }
    ensures origins_rise { OriginsRise }
    ensures origins_stay { OriginsStay }
    ensures never_back { NeverBack }
{}
