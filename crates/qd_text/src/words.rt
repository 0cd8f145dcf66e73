//! The words of control lines.

ghost use Rattle.std.specs.Prelude.{◌≡◌, ◌≤◌, ◌+◌, length, IfOk};
ghost use Rattle.qd_grammar.specs.Fields.{word_at};
ghost use Rattle.qd_grammar.specs.Words.{heads, others, word_of, found, collectors_by_name, ways_by_name};
ghost use Rattle.qd_text.specs.Cursor.{left, seen};

use crate::cursor::{fault_at, part_end};
use qd_grammar::{Collector, Fault, Message, Way, Why, Word};

fn head_of(word: &[u8]) -> Option<Message>
    ensures { result ≡ found heads word.now }
{
    if word == b"==TICKER_DATA".as_slice() {
        Some(Message::TickerData)
    } else if word == b"==STREAM_DATA".as_slice() {
        Some(Message::StreamData)
    } else if word == b"==HISTORY_DATA".as_slice() {
        Some(Message::HistoryData)
    } else if word == b"==STREAM_LOST".as_slice() {
        Some(Message::StreamLost)
    } else if word == b"==TICKER_ADD_SUBSCRIPTION".as_slice() {
        Some(Message::TickerAdd)
    } else if word == b"==STREAM_ADD_SUBSCRIPTION".as_slice() {
        Some(Message::StreamAdd)
    } else if word == b"==HISTORY_ADD_SUBSCRIPTION".as_slice() {
        Some(Message::HistoryAdd)
    } else if word == b"==TICKER_REMOVE_SUBSCRIPTION".as_slice() {
        Some(Message::TickerRemove)
    } else if word == b"==STREAM_REMOVE_SUBSCRIPTION".as_slice() {
        Some(Message::StreamRemove)
    } else if word == b"==HISTORY_REMOVE_SUBSCRIPTION".as_slice() {
        Some(Message::HistoryRemove)
    } else {
        None
    }
}

fn other_of(word: &[u8]) -> Option<Word>
    ensures { result ≡ found others word.now }
{
    if word == b"==PROTOCOL".as_slice() {
        Some(Word::Protocol)
    } else if word == b"==HEARTBEAT".as_slice() {
        Some(Word::Heartbeat)
    } else if word == b"==END".as_slice() {
        Some(Word::End)
    } else if word == b"==TIME".as_slice() {
        Some(Word::Time)
    } else if word == b"==LINK".as_slice() {
        Some(Word::Link)
    } else if word == b"==TAKE".as_slice() {
        Some(Word::Take)
    } else if word == b"==NODE".as_slice() {
        Some(Word::Node)
    } else if word == b"==AT".as_slice() {
        Some(Word::At)
    } else if word == b"==PUMP".as_slice() {
        Some(Word::Pump)
    } else if word == b"==MOVE".as_slice() {
        Some(Word::Move)
    } else {
        None
    }
}

/// What a control word begins.
#[tactic(auto, unfolding(qd_grammar::specs::Words::word_of))]
pub fn word_of(word: &[u8]) -> Option<Word>
    ensures { result ≡ word_of word.now }
{
    match head_of(word) {
        Some(message) => Some(Word::Head(message)),
        None => other_of(word),
    }
}

fn collector_of(word: &[u8]) -> Option<Collector>
    ensures { result ≡ found collectors_by_name word.now }
{
    if word == b"TICKER".as_slice() {
        Some(Collector::Ticker)
    } else if word == b"STREAM".as_slice() {
        Some(Collector::Stream)
    } else if word == b"HISTORY".as_slice() {
        Some(Collector::History)
    } else {
        None
    }
}

fn way_of(word: &[u8]) -> Option<Way>
    ensures { result ≡ found ways_by_name word.now }
{
    if word == b"UP".as_slice() {
        Some(Way::Up)
    } else if word == b"DOWN".as_slice() {
        Some(Way::Down)
    } else {
        None
    }
}

/// The collector that the part at `at` names, and where the part behind it begins.
#[tactic(auto, unfolding(qd_grammar::specs::Fields::word_at))]
pub fn collector_at(line: &[u8], at: usize) -> Result<(Collector, usize), Fault>
    requires short { length line.now ≤ 4096 }
    requires within { at ≤ length line.now + 1 }
    ensures read { seen line.now (λ c. c) result ≡ word_at collectors_by_name (length line.now + 1) (left line.now at) }
    ensures order { IfOk result (λ read. read.1 ≤ length line.now + 1) }
{
    let to = part_end(line, at)?;
    match collector_of(&line[at..to]) {
        Some(collector) => Ok((collector, to + 1)),
        None => Err(fault_at(at, Why::Form)),
    }
}

/// The way, UP or DOWN, that the part at `at` names, and where the part behind it begins.
#[tactic(auto, unfolding(qd_grammar::specs::Fields::word_at))]
pub fn way_at(line: &[u8], at: usize) -> Result<(Way, usize), Fault>
    requires short { length line.now ≤ 4096 }
    requires within { at ≤ length line.now + 1 }
    ensures read { seen line.now (λ w. w) result ≡ word_at ways_by_name (length line.now + 1) (left line.now at) }
    ensures order { IfOk result (λ read. read.1 ≤ length line.now + 1) }
{
    let to = part_end(line, at)?;
    match way_of(&line[at..to]) {
        Some(way) => Ok((way, to + 1)),
        None => Err(fault_at(at, Why::Form)),
    }
}
