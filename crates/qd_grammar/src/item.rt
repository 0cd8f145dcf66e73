//! What a line says, and where it stands.

use qd_scheme::{Event, Key, Record};
use qd_sub::Sub;

/// What the body lines after a head speak of.
#[derive(Clone, Copy, Debug, PartialEq, Eq, Drop)]
pub enum Message {
    TickerData,
    StreamData,
    HistoryData,
    StreamLost,
    TickerAdd,
    StreamAdd,
    HistoryAdd,
    TickerRemove,
    StreamRemove,
    HistoryRemove,
}

/// One of the three collectors.
#[derive(Clone, Copy, Debug, PartialEq, Eq, Drop)]
pub enum Collector {
    Ticker,
    Stream,
    History,
}

/// A direction of a link: up to the parent, or down to the child.
#[derive(Clone, Copy, Debug, PartialEq, Eq, Drop)]
pub enum Way {
    Up,
    Down,
}

/// Who wrote the text: a peer below, a peer above, or the author of a file.
#[derive(Clone, Copy, Debug, PartialEq, Eq, Drop)]
pub enum Mode {
    Down,
    Up,
    File,
}

/// What one line says. A `Describe` names a record of the scheme by its number; the numbers of `Move` are a node, a way and a
/// count of bytes.
#[derive(Clone, Copy, Debug)]
pub enum Item {
    Protocol,
    Head(Message),
    Describe(u32),
    Rec(Record),
    Ev(Event),
    Sub(Key),
    HistSub(Sub),
    Lost(Key, u64),
    Heartbeat,
    End,
    Time(u64),
    Link(u64),
    Take(Collector, u64),
    Node(u64, u64),
    At(u64, u64),
    Pump(u64),
    Move(u64, Way, u64),
}
