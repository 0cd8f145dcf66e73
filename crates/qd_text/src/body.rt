//! Body lines: what a line says under each message.

ghost use Rattle.std.specs.Prelude.{◌≡◌, ◌≤◌, ◌<◌, ◌+◌, ◌||◌, not, length, [], Ok, IfOk, IfSome, IsTrue, All, Some, slice_get};
ghost use Rattle.qd_scheme.specs.Faults.{has_scale};
ghost use Rattle.qd_grammar.specs.declared.item.Item.TheVariants.{Rec, Ev};
ghost use Rattle.qd_grammar.specs.Fields.{cells_at, hist_at, record_at};
ghost use Rattle.qd_grammar.specs.Body.{kinds_of, kinds_at, key_at, record_line, event_line, sub_line, hist_sub_line, lost_line, message_line, body_line};
ghost use Rattle.qd_text.specs.Cursor.{left, seen, seen_with, put_aside};

use crate::cursor::{ends_part, fault_at, line_end, part_end};
use crate::fields::{cell_at, count_at, flags_at, loss_at, symbol_at, symbol_into};
use qd_grammar::{Fault, Item, Message, State, Why};
use qd_scheme::{Cells, Event, FieldDef, Key, Record, RecordDef, Scheme};
use qd_sub::Sub;

/// The largest index and limit.
const MOST: u64 = 0x7fff_ffff_ffff_ffff;

/// A record of the scheme.
#[tactic(auto, using(crate::proofs::Cells::def_there, crate::proofs::Cells::few_fields, crate::proofs::Cells::scaled_fields))]
pub fn def_of(scheme: &Scheme, rec: u32) -> &RecordDef
    requires { rec < length scheme.now }
    ensures at { slice_get scheme.now rec ≡ Some result.now }
    ensures few { length result.now.fields ≤ 16 }
    ensures scaled { All (λ field. IsTrue (has_scale field.kind)) result.now.fields }
{
    match scheme.def(rec) {
        Some(def) => def,
        None => unreachable!(),
    }
}

/// One cell for each field, in order.
#[tactic(auto, using(crate::proofs::Cells::cells_step, crate::proofs::Cells::cells_fail, crate::proofs::Cells::kinds_left, crate::proofs::Cells::scaled_field))]
fn cells_at(line: &[u8], at: usize, fields: &[FieldDef], cells: &mut Cells) -> Result<usize, Fault>
    requires none { cells.old ≡ [] }
    requires few { length fields.now ≤ 16 }
    requires scaled { All (λ field. IsTrue (has_scale field.kind)) fields.now }
    requires short { length line.now ≤ 4096 }
    requires within { at ≤ length line.now + 1 }
    ensures read { seen_with line.now cells.new result ≡ cells_at (kinds_of fields.now) (length line.now + 1) (left line.now at) }
    ensures order { IfOk result (λ next. next ≤ length line.now + 1) }
{
    let mut next = at;
    for field in fields {
        let (cell, after) = cell_at(line, next, field.kind)?;
        cells.push(cell);
        next = after;
    }
    Ok(next)
}

/// Whether a record is one of the history.
#[tactic(auto, unfolding(qd_grammar::specs::Fields::hist_at))]
fn hist_at(scheme: &Scheme, rec: u32) -> bool
    requires { rec < length scheme.now }
    ensures { result ≡ hist_at scheme.now rec }
{
    def_of(scheme, rec).hist
}

/// Whether a record may stand where history records alone may, or any.
fn may_stand(hist: bool, def: &RecordDef) -> bool
    ensures { result ≡ (not hist || def.now.hist) }
{
    !hist || def.hist
}

/// Where the parts behind the name of this record begin, where the line begins with it and it may stand there.
#[tactic(auto, using(crate::proofs::FrontNames::near_record, crate::proofs::FrontNames::near_known))]
fn near_record(line: &[u8], scheme: &Scheme, hist: bool, near: u32) -> Option<usize>
    ensures read { IfSome result (λ next. Ok (near, left line.now next) ≡ record_at hist scheme.now (length line.now + 1) (left line.now 0)) }
    ensures order { IfSome result (λ next. next ≤ length line.now + 1) }
    ensures known { IfSome result (λ next. near < length scheme.now) }
{
    match scheme.def(near) {
        None => None,
        Some(def) => {
            let name = def.name.bytes();
            if !may_stand(hist, def) {
                return None;
            }
            if !line.starts_with(name) {
                return None;
            }
            if !ends_part(line, name.len()) {
                return None;
            }
            Some(name.len() + 1)
        }
    }
}

/// The number of a record whose name the part is. `near` is the one to look at first, as that of the line before.
#[tactic(auto, unfolding(qd_grammar::specs::Fields::record_at))]
fn record_at(line: &[u8], scheme: &Scheme, hist: bool, near: u32) -> Result<(u32, usize), Fault>
    requires short { length line.now ≤ 4096 }
    ensures read { seen line.now (λ n. n) result ≡ record_at hist scheme.now (length line.now + 1) (left line.now 0) }
    ensures order { IfOk result (λ read. read.1 ≤ length line.now + 1) }
    ensures found { IfOk result (λ read. read.0 < length scheme.now) }
{
    if let Some(next) = near_record(line, scheme, hist, near) {
        return Ok((near, next));
    }
    let to = part_end(line, 0)?;
    match scheme.find(&line[..to]) {
        None => Err(fault_at(0, Why::UnknownRecord)),
        Some(rec) => {
            if hist && !hist_at(scheme, rec) {
                return Err(fault_at(0, Why::Form));
            }
            Ok((rec, to + 1))
        }
    }
}

/// The key that a body line begins with.
#[tactic(auto, unfolding(qd_grammar::specs::Body::key_at))]
fn key_at(line: &[u8], scheme: &Scheme, hist: bool, near: u32) -> Result<(Key, usize), Fault>
    requires short { length line.now ≤ 4096 }
    ensures read { seen line.now (λ k. k) result ≡ key_at hist scheme.now (length line.now + 1) (left line.now 0) }
    ensures order { IfOk result (λ read. read.1 ≤ length line.now + 1) }
    ensures found { IfOk result (λ read. read.0.rec < length scheme.now) }
{
    let (rec, next) = record_at(line, scheme, hist, near)?;
    let (sym, next) = symbol_at(line, next)?;
    Ok((Key { rec, sym }, next))
}

/// The same in place of another key, whose record is the one to look at first.
#[inline(always)]
#[tactic(auto, unfolding(qd_grammar::specs::Body::key_at))]
fn key_into(line: &[u8], scheme: &Scheme, hist: bool, key: &mut Key) -> Result<usize, Fault>
    requires short { length line.now ≤ 4096 }
    ensures read { seen_with line.now key.new result ≡ key_at hist scheme.now (length line.now + 1) (left line.now 0) }
    ensures order { IfOk result (λ next. next ≤ length line.now + 1) }
    ensures found { IfOk result (λ _. key.new.rec < length scheme.now) }
{
    let (rec, next) = record_at(line, scheme, hist, key.rec)?;
    key.rec = rec;
    let next = symbol_into(line, next, &mut key.sym)?;
    Ok(next)
}

/// The cells of a record's fields.
#[tactic(auto, using(crate::proofs::Cells::kinds_there))]
fn cells_of(
    line: &[u8],
    at: usize,
    scheme: &Scheme,
    rec: u32,
    cells: &mut Cells,
) -> Result<usize, Fault>
    requires none { cells.old ≡ [] }
    requires known { rec < length scheme.now }
    requires short { length line.now ≤ 4096 }
    requires within { at ≤ length line.now + 1 }
    ensures read { seen_with line.now cells.new result ≡ cells_at (kinds_at (slice_get scheme.now rec)) (length line.now + 1) (left line.now at) }
    ensures order { IfOk result (λ next. next ≤ length line.now + 1) }
{
    cells_at(line, at, def_of(scheme, rec).fields.as_slice(), cells)
}

/// A record.
#[tactic(auto, unfolding(qd_grammar::specs::Body::record_line))]
fn first_record(line: &[u8], scheme: &Scheme, out: &mut Item) -> Result<(), Fault>
    requires { length line.now ≤ 4096 }
    ensures { put_aside result out.new ≡ record_line scheme.now (length line.now + 1) (left line.now 0) }
{
    let (key, next) = key_at(line, scheme, false, 0)?;
    let mut cells = Cells::new();
    let next = cells_of(line, next, scheme, key.rec, &mut cells)?;
    line_end(line, next)?;
    *out = Item::Rec(Record { key, cells });
    Ok(())
}

/// A record in place of another one: most records follow one, and none of its large values is handed on.
#[tactic(auto, unfolding(qd_grammar::specs::Body::record_line))]
fn next_record(line: &[u8], scheme: &Scheme, last: &mut Record) -> Result<(), Fault>
    requires { length line.now ≤ 4096 }
    ensures { put_aside result (Rec last.new) ≡ record_line scheme.now (length line.now + 1) (left line.now 0) }
{
    let next = key_into(line, scheme, false, &mut last.key)?;
    last.cells = Cells::new();
    let next = cells_of(line, next, scheme, last.key.rec, &mut last.cells)?;
    line_end(line, next)?;
    Ok(())
}

fn record_line(line: &[u8], scheme: &Scheme, out: &mut Item) -> Result<(), Fault>
    requires { length line.now ≤ 4096 }
    ensures { put_aside result out.new ≡ record_line scheme.now (length line.now + 1) (left line.now 0) }
{
    match out {
        Item::Rec(last) => next_record(line, scheme, last),
        _ => first_record(line, scheme, out),
    }
}

/// An event.
#[tactic(auto, unfolding(qd_grammar::specs::Body::event_line))]
fn first_event(line: &[u8], scheme: &Scheme, out: &mut Item) -> Result<(), Fault>
    requires { length line.now ≤ 4096 }
    ensures { put_aside result out.new ≡ event_line scheme.now (length line.now + 1) (left line.now 0) }
{
    let (key, next) = key_at(line, scheme, true, 0)?;
    let (index, next) = count_at(line, next, MOST)?;
    let (flags, next) = flags_at(line, next)?;
    let mut cells = Cells::new();
    let next = cells_of(line, next, scheme, key.rec, &mut cells)?;
    line_end(line, next)?;
    *out = Item::Ev(Event {
        key,
        index,
        flags,
        cells,
    });
    Ok(())
}

/// An event in place of another one.
#[tactic(auto, unfolding(qd_grammar::specs::Body::event_line))]
fn next_event(line: &[u8], scheme: &Scheme, last: &mut Event) -> Result<(), Fault>
    requires { length line.now ≤ 4096 }
    ensures { put_aside result (Ev last.new) ≡ event_line scheme.now (length line.now + 1) (left line.now 0) }
{
    let next = key_into(line, scheme, true, &mut last.key)?;
    let (index, next) = count_at(line, next, MOST)?;
    let (flags, next) = flags_at(line, next)?;
    last.index = index;
    last.flags = flags;
    last.cells = Cells::new();
    let next = cells_of(line, next, scheme, last.key.rec, &mut last.cells)?;
    line_end(line, next)?;
    Ok(())
}

fn event_line(line: &[u8], scheme: &Scheme, out: &mut Item) -> Result<(), Fault>
    requires { length line.now ≤ 4096 }
    ensures { put_aside result out.new ≡ event_line scheme.now (length line.now + 1) (left line.now 0) }
{
    match out {
        Item::Ev(last) => next_event(line, scheme, last),
        _ => first_event(line, scheme, out),
    }
}

#[tactic(auto, unfolding(qd_grammar::specs::Body::sub_line))]
fn sub_line(line: &[u8], scheme: &Scheme, hist: bool, out: &mut Item) -> Result<(), Fault>
    requires { length line.now ≤ 4096 }
    ensures { put_aside result out.new ≡ sub_line hist scheme.now (length line.now + 1) (left line.now 0) }
{
    let (key, next) = key_at(line, scheme, hist, 0)?;
    line_end(line, next)?;
    *out = Item::Sub(key);
    Ok(())
}

#[tactic(auto, unfolding(qd_grammar::specs::Body::hist_sub_line))]
fn hist_sub_line(line: &[u8], scheme: &Scheme, out: &mut Item) -> Result<(), Fault>
    requires { length line.now ≤ 4096 }
    ensures { put_aside result out.new ≡ hist_sub_line scheme.now (length line.now + 1) (left line.now 0) }
{
    let (key, next) = key_at(line, scheme, true, 0)?;
    let (limit, next) = count_at(line, next, MOST)?;
    line_end(line, next)?;
    *out = Item::HistSub(Sub { key, limit });
    Ok(())
}

#[tactic(auto, unfolding(qd_grammar::specs::Body::lost_line))]
fn lost_line(line: &[u8], scheme: &Scheme, out: &mut Item) -> Result<(), Fault>
    requires { length line.now ≤ 4096 }
    ensures { put_aside result out.new ≡ lost_line scheme.now (length line.now + 1) (left line.now 0) }
{
    let (key, next) = key_at(line, scheme, false, 0)?;
    let (count, next) = loss_at(line, next)?;
    line_end(line, next)?;
    *out = Item::Lost(key, count);
    Ok(())
}

/// A line under a message.
fn message_line(line: &[u8], scheme: &Scheme, message: Message, out: &mut Item) -> Result<(), Fault>
    requires { length line.now ≤ 4096 }
    ensures { put_aside result out.new ≡ message_line scheme.now message (length line.now + 1) (left line.now 0) }
{
    match message {
        Message::TickerData | Message::StreamData => record_line(line, scheme, out),
        Message::HistoryData => event_line(line, scheme, out),
        Message::StreamLost => lost_line(line, scheme, out),
        Message::TickerAdd | Message::StreamAdd => sub_line(line, scheme, false, out),
        Message::TickerRemove | Message::StreamRemove => sub_line(line, scheme, false, out),
        Message::HistoryAdd => hist_sub_line(line, scheme, out),
        Message::HistoryRemove => sub_line(line, scheme, true, out),
    }
}

/// A body line, which belongs to the current message. Its item is put aside, so that no large value is handed on.
pub fn body_line(line: &[u8], scheme: &Scheme, state: &State, out: &mut Item) -> Result<(), Fault>
    requires { length line.now ≤ 4096 }
    ensures { put_aside result out.new ≡ body_line state.now scheme.now (length line.now + 1) (left line.now 0) }
{
    match state.message {
        None => Err(fault_at(0, Why::Order)),
        Some(message) => message_line(line, scheme, message, out),
    }
}
