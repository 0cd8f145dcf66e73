//! Control lines.

ghost use Rattle.std.specs.Prelude.{◌≡◌, ◌≤◌, ◌+◌, length};
ghost use Rattle.qd_grammar.specs.Words.{is_subscription};
ghost use Rattle.qd_grammar.specs.Control.{alone, one_number, two_numbers, time_line, take_line, move_line, protocol_line, behind_word, may_come, control_line};
ghost use Rattle.qd_grammar.specs.Lines.{first_line};
ghost use Rattle.qd_text.specs.Cursor.{left, first_of, put_aside};

use crate::cursor::{fault_at, line_end, part_end};
use crate::fields::count_at;
use crate::words::{collector_at, way_at, word_of};
use qd_grammar::{Fault, Item, Message, Mode, State, Why, Word};

/// The largest number of a control line.
const MOST: u64 = 0x7fff_ffff_ffff_ffff;

#[tactic(auto, unfolding(qd_grammar::specs::Fields::word_at))]
fn protocol_line(line: &[u8], at: usize, out: &mut Item) -> Result<(), Fault>
    requires short { length line.now ≤ 4096 }
    requires within { at ≤ length line.now + 1 }
    ensures { put_aside result out.new ≡ protocol_line (length line.now + 1) (left line.now at) }
{
    let to = part_end(line, at)?;
    if &line[at..to] != b"1".as_slice() {
        return Err(fault_at(at, Why::Form));
    }
    line_end(line, to + 1)?;
    *out = Item::Protocol;
    Ok(())
}

fn head_line(line: &[u8], at: usize, message: Message, out: &mut Item) -> Result<(), Fault>
    requires short { length line.now ≤ 4096 }
    requires within { at ≤ length line.now + 1 }
    ensures { put_aside result out.new ≡ alone (Item.Head message) (length line.now + 1) (left line.now at) }
{
    line_end(line, at)?;
    *out = Item::Head(message);
    Ok(())
}

fn heartbeat_line(line: &[u8], at: usize, out: &mut Item) -> Result<(), Fault>
    requires short { length line.now ≤ 4096 }
    requires within { at ≤ length line.now + 1 }
    ensures { put_aside result out.new ≡ alone Item.Heartbeat (length line.now + 1) (left line.now at) }
{
    line_end(line, at)?;
    *out = Item::Heartbeat;
    Ok(())
}

fn end_line(line: &[u8], at: usize, out: &mut Item) -> Result<(), Fault>
    requires short { length line.now ≤ 4096 }
    requires within { at ≤ length line.now + 1 }
    ensures { put_aside result out.new ≡ alone Item.End (length line.now + 1) (left line.now at) }
{
    line_end(line, at)?;
    *out = Item::End;
    Ok(())
}

fn link_line(line: &[u8], at: usize, out: &mut Item) -> Result<(), Fault>
    requires short { length line.now ≤ 4096 }
    requires within { at ≤ length line.now + 1 }
    ensures { put_aside result out.new ≡ one_number Item.Link (length line.now + 1) (left line.now at) }
{
    let (n, next) = count_at(line, at, MOST)?;
    line_end(line, next)?;
    *out = Item::Link(n);
    Ok(())
}

fn pump_line(line: &[u8], at: usize, out: &mut Item) -> Result<(), Fault>
    requires short { length line.now ≤ 4096 }
    requires within { at ≤ length line.now + 1 }
    ensures { put_aside result out.new ≡ one_number Item.Pump (length line.now + 1) (left line.now at) }
{
    let (n, next) = count_at(line, at, MOST)?;
    line_end(line, next)?;
    *out = Item::Pump(n);
    Ok(())
}

fn node_line(line: &[u8], at: usize, out: &mut Item) -> Result<(), Fault>
    requires short { length line.now ≤ 4096 }
    requires within { at ≤ length line.now + 1 }
    ensures { put_aside result out.new ≡ two_numbers Item.Node (length line.now + 1) (left line.now at) }
{
    let (n, next) = count_at(line, at, MOST)?;
    let (m, next) = count_at(line, next, MOST)?;
    line_end(line, next)?;
    *out = Item::Node(n, m);
    Ok(())
}

fn at_line(line: &[u8], at: usize, out: &mut Item) -> Result<(), Fault>
    requires short { length line.now ≤ 4096 }
    requires within { at ≤ length line.now + 1 }
    ensures { put_aside result out.new ≡ two_numbers Item.At (length line.now + 1) (left line.now at) }
{
    let (n, next) = count_at(line, at, MOST)?;
    let (m, next) = count_at(line, next, MOST)?;
    line_end(line, next)?;
    *out = Item::At(n, m);
    Ok(())
}

fn time_line(line: &[u8], at: usize, state: &State, out: &mut Item) -> Result<(), Fault>
    requires short { length line.now ≤ 4096 }
    requires within { at ≤ length line.now + 1 }
    ensures { put_aside result out.new ≡ time_line state.now (length line.now + 1) (left line.now at) }
{
    let (ms, next) = count_at(line, at, MOST)?;
    if ms < state.time {
        return Err(fault_at(0, Why::Order));
    }
    line_end(line, next)?;
    *out = Item::Time(ms);
    Ok(())
}

fn take_line(line: &[u8], at: usize, out: &mut Item) -> Result<(), Fault>
    requires short { length line.now ≤ 4096 }
    requires within { at ≤ length line.now + 1 }
    ensures { put_aside result out.new ≡ take_line (length line.now + 1) (left line.now at) }
{
    let (collector, next) = collector_at(line, at)?;
    let (most, next) = count_at(line, next, MOST)?;
    line_end(line, next)?;
    *out = Item::Take(collector, most);
    Ok(())
}

fn move_line(line: &[u8], at: usize, out: &mut Item) -> Result<(), Fault>
    requires short { length line.now ≤ 4096 }
    requires within { at ≤ length line.now + 1 }
    ensures { put_aside result out.new ≡ move_line (length line.now + 1) (left line.now at) }
{
    let (n, next) = count_at(line, at, MOST)?;
    let (way, next) = way_at(line, next)?;
    let (bytes, next) = count_at(line, next, MOST)?;
    line_end(line, next)?;
    *out = Item::Move(n, way, bytes);
    Ok(())
}

/// What stands behind a word.
#[tactic(auto, unfolding(qd_grammar::specs::Control::behind_word))]
fn behind_word(
    line: &[u8],
    at: usize,
    word: Word,
    state: &State,
    out: &mut Item,
) -> Result<(), Fault>
    requires short { length line.now ≤ 4096 }
    requires within { at ≤ length line.now + 1 }
    ensures { put_aside result out.new ≡ behind_word word state.now (length line.now + 1) (left line.now at) }
{
    match word {
        Word::Protocol => protocol_line(line, at, out),
        Word::Head(message) => head_line(line, at, message, out),
        Word::Heartbeat => heartbeat_line(line, at, out),
        Word::End => end_line(line, at, out),
        Word::Time => time_line(line, at, state, out),
        Word::Link => link_line(line, at, out),
        Word::Take => take_line(line, at, out),
        Word::Node => node_line(line, at, out),
        Word::At => at_line(line, at, out),
        Word::Pump => pump_line(line, at, out),
        Word::Move => move_line(line, at, out),
    }
}

fn is_subscription(message: Message) -> bool
    ensures { result ≡ is_subscription message }
{
    match message {
        Message::TickerData | Message::StreamData | Message::HistoryData | Message::StreamLost =>
            false,
        _ => true,
    }
}

/// Whether a word may stand here.
fn may_come(mode: Mode, word: Word) -> Result<(), Fault>
    ensures { result ≡ may_come mode word }
{
    let order = fault_at(0, Why::Order);
    match word {
        Word::Protocol => Err(order),
        Word::Head(message) => {
            if mode == Mode::Up && is_subscription(message) {
                Err(order)
            } else {
                Ok(())
            }
        }
        Word::Heartbeat | Word::End => Ok(()),
        _ => {
            if mode == Mode::File {
                Ok(())
            } else {
                Err(fault_at(2, Why::Form))
            }
        }
    }
}

/// A control line behind PROTOCOL, whose first part ends at `end`.
pub fn control_line(
    line: &[u8],
    end: usize,
    mode: Mode,
    state: &State,
    out: &mut Item,
) -> Result<(), Fault>
    requires short { length line.now ≤ 4096 }
    requires within { end ≤ length line.now }
    ensures { put_aside result out.new ≡ control_line mode state.now (length line.now + 1) (first_of line.now end) (left line.now (end + 1)) }
{
    match word_of(&line[..end]) {
        None => Err(fault_at(2, Why::Form)),
        Some(word) => {
            may_come(mode, word)?;
            behind_word(line, end + 1, word, state, out)
        }
    }
}

/// The first line that counts: PROTOCOL alone.
pub fn first_line(line: &[u8], end: usize, out: &mut Item) -> Result<(), Fault>
    requires short { length line.now ≤ 4096 }
    requires within { end ≤ length line.now }
    ensures { put_aside result out.new ≡ first_line (length line.now + 1) (first_of line.now end) (left line.now (end + 1)) }
{
    if &line[..end] != b"==PROTOCOL".as_slice() {
        return Err(fault_at(0, Why::Order));
    }
    protocol_line(line, end + 1, out)
}
