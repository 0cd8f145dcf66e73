//! The reader: what a line is, in the state that the lines before it leave.

ghost use Rattle.std.specs.Prelude.{◌≡◌, ◌≤◌, ◌<◌, ◌+◌, ◌^◌, length};
ghost use Rattle.qd_grammar.specs.Lines.{first_state, is_skipped, is_control, is_description, item_of, answer_of, after};
ghost use Rattle.qd_text.specs.Cursor.{put_aside};
ghost use Rattle.qd_text.specs.Reading.{told, with_item, state_after};

use crate::body::body_line;
use crate::control::{control_line, first_line};
use crate::cursor::first_end;
use crate::describe::describe_line;
use qd_grammar::{Fault, Item, Mode, State, Why};
use qd_scheme::Scheme;
use std::marker::Model;
use thiserror::Error;

/// A line that is refused: its number and the place of the first wrong thing in it, both from 1, and the reason.
#[derive(Clone, Copy, Debug, PartialEq, Eq, Drop, Error)]
#[error("line {line}, place {place}: {why}")]
pub struct BadLine {
    pub line: u64,
    pub place: u32,
    pub why: Why,
}

/// Reads the lines of one text in order.
#[derive(Debug, Drop)]
pub struct Reader {
    mode: Mode,
    state: State,
    lines: u64,
}

impl Model for Reader {
    ghost use Rattle.qd_text.specs.Reading.{Reading};

    ghost Value = { Reading };

    ghost view = { λ r. record { mode = r.mode; state = r.state; lines = r.lines } };
}

impl Reader {
    /// Before the first line.
    pub fn new(mode: Mode) -> Reader
        ensures { result ≡ record { mode = mode; state = first_state; lines = 0 } }
    {
        Reader {
            mode,
            state: State {
                started: false,
                message: None,
                time: 0,
            },
            lines: 0,
        }
    }

    /// The number of lines that the reader was given.
    pub fn lines(&self) -> u64
        ensures { result ≡ self.now.lines }
    {
        self.lines
    }

    /// The item of a line, None where the line is skipped, or its fault. After a fault and after a skipped line only the
    /// number of lines is another one.
    pub fn item(&mut self, scheme: &Scheme, line: &[u8]) -> Result<Option<Item>, BadLine>
        requires short { length line.now ≤ 4096 }
        requires lines { self.old.lines < 2 ^ 63 }
        ensures answer { let answer = answer_of self.old.mode self.old.state scheme.now line.now in result ≡ told (self.old.lines + 1) answer }
        ensures state { let answer = answer_of self.old.mode self.old.state scheme.now line.now in self.new.state ≡ state_after answer self.old.state }
        ensures lines { self.new.lines ≡ self.old.lines + 1 }
        ensures mode { self.new.mode ≡ self.old.mode }
    {
        let mut item = Item::End;
        match self.read(scheme, line, &mut item) {
            Ok(true) => Ok(Some(item)),
            Ok(false) => Ok(None),
            Err(bad) => Err(bad),
        }
    }

    /// The same for a caller that has a place for the item: true where the line spells one, which stands there then. After
    /// another answer what stands there means nothing.
    pub fn read(&mut self, scheme: &Scheme, line: &[u8], item: &mut Item) -> Result<bool, BadLine>
        requires short { length line.now ≤ 4096 }
        requires lines { self.old.lines < 2 ^ 63 }
        ensures answer { let answer = answer_of self.old.mode self.old.state scheme.now line.now in with_item result item.new ≡ told (self.old.lines + 1) answer }
        ensures state { let answer = answer_of self.old.mode self.old.state scheme.now line.now in self.new.state ≡ state_after answer self.old.state }
        ensures lines { self.new.lines ≡ self.old.lines + 1 }
        ensures mode { self.new.mode ≡ self.old.mode }
    {
        self.lines += 1;
        if is_skipped(line) {
            return Ok(false);
        }
        match item_of(self.mode, &self.state, scheme, line, item) {
            Ok(()) => {
                note(&mut self.state, item);
                Ok(true)
            }
            Err(fault) => Err(BadLine {
                line: self.lines,
                place: fault.place,
                why: fault.why,
            }),
        }
    }
}

/// Goes on to the state behind an accepted line.
fn note(state: &mut State, item: &Item)
    ensures { state.new ≡ after item.now state.old }
{
    match item {
        Item::Protocol => state.started = true,
        Item::Head(message) => state.message = Some(*message),
        Item::Time(ms) => state.time = *ms,
        _ => {}
    }
}

/// Whether a line says nothing: an empty one, and one that begins with `#`.
pub fn is_skipped(line: &[u8]) -> bool
    ensures { result ≡ is_skipped line.now }
{
    line.is_empty() || line[0] == b'#'
}

/// Whether a line begins with `==`.
pub fn is_control(line: &[u8]) -> bool
    ensures { result ≡ is_control line.now }
{
    line.len() > 1 && line[0] == b'=' && line[1] == b'='
}

/// Whether a line begins with `=`, as descriptions and control lines do.
pub fn is_description(line: &[u8]) -> bool
    ensures { result ≡ is_description line.now }
{
    !line.is_empty() && line[0] == b'='
}

/// Puts an item aside.
fn set_aside(read: Result<Item, Fault>, out: &mut Item) -> Result<(), Fault>
    ensures { put_aside result out.new ≡ read }
{
    match read {
        Ok(item) => {
            *out = item;
            Ok(())
        }
        Err(fault) => Err(fault),
    }
}

/// The item, which is put aside, or the fault of a line that is not skipped. Body lines are most lines, and the way to them has
/// none of the values that the other lines need.
fn item_of(
    mode: Mode,
    state: &State,
    scheme: &Scheme,
    line: &[u8],
    out: &mut Item,
) -> Result<(), Fault>
    requires { length line.now ≤ 4096 }
    ensures { put_aside result out.new ≡ item_of mode state.now scheme.now line.now }
{
    if !state.started || is_description(line) {
        return any_item(mode, state, scheme, line, out);
    }
    body_line(line, scheme, state, out)
}

/// The same, line by line of the grammar.
fn any_item(
    mode: Mode,
    state: &State,
    scheme: &Scheme,
    line: &[u8],
    out: &mut Item,
) -> Result<(), Fault>
    requires { length line.now ≤ 4096 }
    ensures { put_aside result out.new ≡ item_of mode state.now scheme.now line.now }
{
    if !state.started {
        return first_line(line, first_end(line), out);
    }
    if is_control(line) {
        return control_line(line, first_end(line), mode, state, out);
    }
    if is_description(line) {
        return set_aside(describe_line(line, first_end(line), scheme), out);
    }
    body_line(line, scheme, state, out)
}
