//! The flags of indexed events, and what a list of events of one key shows.
//!
//! The flags are those of dxFeed's `IndexedEvent` documentation. Events are held back until a snapshot and its last transaction are
//! whole: until a *commit place*. A commit place shows a map from index to cells, and a floor. A [`Listener`] is fed with the events
//! of one key and tells the map of the last commit place.
#![tactic(auto)]

ghost use Rattle.qd_flags.specs.Laws.{SegmentShows, CutTwice, UpdateKeepsFloor, UpdateChangesByItsEvents};

mod commits;
mod flags;
mod listener;

pub use commits::{Commits, Floor, Ingest, begins_snapshot, is_removal, is_tx_pending};
pub use flags::Flags;
pub use listener::{Listener, Shown};
use std::alloc::AllocError;

/// Want of memory.
pub type NoMemory = AllocError;

/// Where a segment has a BEGIN, it shows what the whole list up to its end shows.
pub fn segment_law()
    ensures { SegmentShows }
{}

/// A map cut at f and then at a g that is no less is the map cut at g.
pub fn cut_law()
    ensures { CutTwice }
{}

/// A commit place without a BEGIN after the place before it keeps that one's floor and snip, and changes its map by its events alone.
pub fn update_law()
    ensures floor { UpdateKeepsFloor }
    ensures map { UpdateChangesByItsEvents }
{}
