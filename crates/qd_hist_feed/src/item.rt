//! The items that a feed gives.
ghost use Rattle.std.specs.Prelude.{◌≡◌, ◌≤◌, ℕ, None, Some};
ghost use Rattle.qd_hist_feed.specs.Feeding.{item_of, begin_flags, end_flags, kept_item, end_item, zeros, sweep_item};
ghost use Rattle.qd_hist_key.specs.Keeping.{FewCells};
ghost use Rattle.qd_hist_rules.specs.Agent.{passed};

use qd_flags::Flags;
use qd_hist_rules::{AgentFloor, HistItem};
use qd_scheme::{Cells, Event, Key};

/// The event as it is passed on: with its REMOVE_EVENT, with TX_PENDING or not, and with no other flag.
fn passed(pending: bool, e: &Event) -> Event
    ensures { result ≡ passed pending e.now }
{
    let removed = qd_flags::is_removal(e);
    let flags = match (pending, removed) {
        (false, false) => 0,
        (true, false) => Flags::TX_PENDING,
        (false, true) => Flags::REMOVE_EVENT,
        (true, true) => Flags::TX_PENDING | Flags::REMOVE_EVENT,
    };
    Event {
        key: e.key,
        index: e.index,
        flags,
        cells: e.cells,
    }
}

/// The item of a share's event, which is pending unless it is the last one.
pub fn share_item(number: Option<u64>, pending: bool, e: &Event) -> HistItem
    ensures { result ≡ item_of number pending e.now }
{
    HistItem {
        event: passed(pending, e),
        at: if pending { None } else { number },
    }
}

/// The flags of an item of a snapshot that goes on.
fn flags_of(begin: bool) -> u8
    ensures { result ≡ begin_flags begin }
{
    if begin { Flags::SNAPSHOT_BEGIN } else { 0 }
}

/// The flags of the item that ends a snapshot.
fn ending_flags(begin: bool, by_snip: bool, removed: bool) -> u8
    ensures { result ≡ end_flags begin by_snip removed }
{
    let end = if by_snip {
        Flags::SNAPSHOT_SNIP
    } else {
        Flags::SNAPSHOT_END
    };
    let begin = if begin { Flags::SNAPSHOT_BEGIN } else { 0 };
    let removed = if removed { Flags::REMOVE_EVENT } else { 0 };
    end + begin + removed
}

/// A kept entry.
fn kept_item(begin: bool, key: &Key, entry: &(u64, Cells)) -> HistItem
    ensures { result ≡ kept_item begin key.now entry.now }
{
    HistItem {
        event: Event {
            key: *key,
            index: entry.0,
            flags: flags_of(begin),
            cells: entry.1,
        },
        at: None,
    }
}

/// So many zeros.
fn zeros(width: Option<u8>) -> Cells
    requires { FewCells width }
    ensures { result ≡ zeros width }
{
    let mut cells = Cells::new();
    if let Some(width) = width {
        for _i in 0..width {
            cells.push(0);
        }
    }
    cells
}

/// The item that ends a snapshot: the entry at the floor, or the marker.
fn end_item(
    begin: bool,
    key: &Key,
    floor: &AgentFloor,
    width: Option<u8>,
    number: u64,
    cells: Option<Cells>,
) -> HistItem
    requires { FewCells width }
    ensures { result ≡ end_item begin key.now floor.now width number cells }
{
    let (removed, cells) = match cells {
        Some(cells) => (false, cells),
        None => (true, zeros(width)),
    };
    HistItem {
        event: Event {
            key: *key,
            index: floor.index,
            flags: ending_flags(begin, floor.by_snip, removed),
            cells,
        },
        at: Some(number),
    }
}

/// What a sweep gives, by the entry that it finds at or below its place.
pub fn sweep_item(
    begin: bool,
    key: &Key,
    floor: &AgentFloor,
    width: Option<u8>,
    number: u64,
    found: &Option<(u64, Cells)>,
) -> HistItem
    requires { FewCells width }
    ensures { result ≡ sweep_item begin key.now floor.now width number found.now }
{
    match found {
        None => end_item(begin, key, floor, width, number, None),
        Some(entry) => {
            if floor.index < entry.0 {
                return kept_item(begin, key, entry);
            }
            let cells = if entry.0 == floor.index {
                Some(entry.1)
            } else {
                None
            };
            end_item(begin, key, floor, width, number, cells)
        }
    }
}
