//! The writer: the canonical line of an item.

ghost use Rattle.std.specs.Prelude.{◌≡◌, ◌≤◌, ◌+◌, ◌++◌, ◌∷◌, [], length, codes, decimal, nat_le, if◌then◌else◌, slice_get};
ghost use Rattle.qd_grammar.specs.declared.item.Item.TheVariants.{Rec, Ev, HistSub, Lost};
ghost use Rattle.qd_grammar.specs.Body.{kinds_at};
ghost use Rattle.qd_grammar.specs.Canonical.{behind, joined, cell_texts, head_text, collector_text, way_text, texts_of, canonical};

use crate::put::{put, put_cells, put_count, put_key, put_part};
use crate::put_description::put_description;
use qd_decimal::Line;
use qd_grammar::{Collector, Item, Message, Way};
use qd_scheme::{Event, Key, Record, Scheme};
use qd_sub::Sub;

fn head_text(message: Message) -> &'static [u8]
    ensures text { result.now ≡ head_text message }
    ensures short { length result.now ≤ 29 }
{
    match message {
        Message::TickerData => b"==TICKER_DATA",
        Message::StreamData => b"==STREAM_DATA",
        Message::HistoryData => b"==HISTORY_DATA",
        Message::StreamLost => b"==STREAM_LOST",
        Message::TickerAdd => b"==TICKER_ADD_SUBSCRIPTION",
        Message::StreamAdd => b"==STREAM_ADD_SUBSCRIPTION",
        Message::HistoryAdd => b"==HISTORY_ADD_SUBSCRIPTION",
        Message::TickerRemove => b"==TICKER_REMOVE_SUBSCRIPTION",
        Message::StreamRemove => b"==STREAM_REMOVE_SUBSCRIPTION",
        Message::HistoryRemove => b"==HISTORY_REMOVE_SUBSCRIPTION",
    }
}

fn collector_text(collector: Collector) -> &'static [u8]
    ensures text { result.now ≡ collector_text collector }
    ensures short { length result.now ≤ 7 }
{
    match collector {
        Collector::Ticker => b"TICKER",
        Collector::Stream => b"STREAM",
        Collector::History => b"HISTORY",
    }
}

fn way_text(way: Way) -> &'static [u8]
    ensures text { result.now ≡ way_text way }
    ensures short { length result.now ≤ 4 }
{
    match way {
        Way::Up => b"UP",
        Way::Down => b"DOWN",
    }
}

/// The cells of a record, where it is one of the scheme.
#[tactic(auto, using(crate::proofs::Cells::few_fields, crate::proofs::Cells::scaled_fields, crate::proofs::Cells::kinds_there, crate::proofs::Joins::no_kinds))]
fn put_cells_of(scheme: &Scheme, rec: u32, values: &[i64], out: &mut Line)
    requires { length out.old ≤ 3548 }
    ensures cells { out.new ≡ out.old ++ behind (cell_texts (kinds_at (slice_get scheme.now rec)) values.now) }
    ensures short { length out.new ≤ length out.old + 512 }
{
    if let Some(def) = scheme.def(rec) {
        put_cells(def.fields.as_slice(), values, out);
    }
}

#[tactic(auto, using(crate::proofs::Joins::more_parts))]
fn put_record(scheme: &Scheme, r: &Record, out: &mut Line)
    requires { length out.old ≤ 3096 }
    ensures parts { out.new ≡ out.old ++ joined (texts_of scheme.now (Rec r.now)) }
    ensures short { length out.new ≤ length out.old + 1000 }
{
    put_key(scheme, &r.key, out);
    put_cells_of(scheme, r.key.rec, r.cells.values(), out);
}

#[tactic(auto, using(crate::proofs::Joins::more_parts, crate::proofs::Joins::one_more_part))]
fn put_event(scheme: &Scheme, e: &Event, out: &mut Line)
    requires { length out.old ≤ 3096 }
    ensures parts { out.new ≡ out.old ++ joined (texts_of scheme.now (Ev e.now)) }
    ensures short { length out.new ≤ length out.old + 1000 }
{
    put_key(scheme, &e.key, out);
    put_count(e.index, out);
    put_count(u64::from(e.flags), out);
    put_cells_of(scheme, e.key.rec, e.cells.values(), out);
}

#[tactic(auto, using(crate::proofs::Joins::one_more_part))]
fn put_hist_sub(scheme: &Scheme, sub: &Sub, out: &mut Line)
    requires { length out.old ≤ 3096 }
    ensures parts { out.new ≡ out.old ++ joined (texts_of scheme.now (HistSub sub.now)) }
    ensures short { length out.new ≤ length out.old + 1000 }
{
    put_key(scheme, &sub.key, out);
    put_count(sub.limit, out);
}

#[tactic(auto, using(crate::proofs::Joins::one_more_part))]
fn put_lost(scheme: &Scheme, key: &Key, count: u64, out: &mut Line)
    requires { length out.old ≤ 3096 }
    ensures parts { out.new ≡ out.old ++ joined (texts_of scheme.now (Lost key.now count)) }
    ensures short { length out.new ≤ length out.old + 1000 }
{
    put_key(scheme, key, out);
    put_count(count, out);
}

/// A word alone.
#[tactic(auto, using(crate::proofs::Joins::one_text))]
fn put_word(word: &[u8], out: &mut Line)
    requires short { length word.now ≤ 29 }
    requires room { length out.old ≤ 4000 }
    ensures parts { out.new ≡ out.old ++ joined (word.now ∷ []) }
    ensures short { length out.new ≤ length out.old + 29 }
{
    put(word, out);
}

/// A word and a number.
#[tactic(auto, using(crate::proofs::Joins::one_more_part))]
fn put_number(word: &[u8], n: u64, out: &mut Line)
    requires short { length word.now ≤ 29 }
    requires room { length out.old ≤ 4000 }
    ensures parts { out.new ≡ out.old ++ joined (word.now ∷ decimal n ∷ []) }
    ensures short { length out.new ≤ length out.old + 50 }
{
    put_word(word, out);
    put_count(n, out);
}

/// A word and two numbers.
#[tactic(auto, using(crate::proofs::Joins::one_more_part))]
fn put_numbers(word: &[u8], n: u64, m: u64, out: &mut Line)
    requires short { length word.now ≤ 29 }
    requires room { length out.old ≤ 4000 }
    ensures parts { out.new ≡ out.old ++ joined (word.now ∷ decimal n ∷ decimal m ∷ []) }
    ensures short { length out.new ≤ length out.old + 71 }
{
    put_number(word, n, out);
    put_count(m, out);
}

/// A word and a word behind it.
#[tactic(auto, using(crate::proofs::Joins::one_more_part))]
fn put_words(word: &[u8], other: &[u8], out: &mut Line)
    requires short { length word.now ≤ 29 }
    requires other_short { length other.now ≤ 7 }
    requires room { length out.old ≤ 4000 }
    ensures parts { out.new ≡ out.old ++ joined (word.now ∷ other.now ∷ []) }
    ensures short { length out.new ≤ length out.old + 37 }
{
    put_word(word, out);
    put_part(other, out);
}

#[tactic(auto, using(crate::proofs::Joins::one_more_part))]
fn put_take(collector: Collector, n: u64, out: &mut Line)
    requires { length out.old ≤ 3096 }
    ensures parts { out.new ≡ out.old ++ joined (codes "==TAKE" ∷ collector_text collector ∷ decimal n ∷ []) }
    ensures short { length out.new ≤ length out.old + 1000 }
{
    put_words(b"==TAKE", collector_text(collector), out);
    put_count(n, out);
}

#[tactic(auto, using(crate::proofs::Joins::one_more_part))]
fn put_move(n: u64, way: Way, bytes: u64, out: &mut Line)
    requires { length out.old ≤ 3096 }
    ensures parts { out.new ≡ out.old ++ joined (codes "==MOVE" ∷ decimal n ∷ way_text way ∷ decimal bytes ∷ []) }
    ensures short { length out.new ≤ length out.old + 1000 }
{
    put_number(b"==MOVE", n, out);
    put_part(way_text(way), out);
    put_count(bytes, out);
}

/// The canonical line of an item, where the line has room for any.
fn put_item(scheme: &Scheme, item: &Item, out: &mut Line)
    requires { length out.old ≤ 3096 }
    ensures line { out.new ≡ out.old ++ joined (texts_of scheme.now item.now) }
    ensures short { length out.new ≤ length out.old + 1000 }
{
    match item {
        Item::Protocol => put_words(b"==PROTOCOL", b"1", out),
        Item::Head(message) => put_word(head_text(*message), out),
        Item::Describe(rec) => put_description(scheme, *rec, out),
        Item::Rec(r) => put_record(scheme, r, out),
        Item::Ev(e) => put_event(scheme, e, out),
        Item::Sub(key) => put_key(scheme, key, out),
        Item::HistSub(sub) => put_hist_sub(scheme, sub, out),
        Item::Lost(key, count) => put_lost(scheme, key, *count, out),
        Item::Heartbeat => put_word(b"==HEARTBEAT", out),
        Item::End => put_word(b"==END", out),
        Item::Time(ms) => put_number(b"==TIME", *ms, out),
        Item::Link(n) => put_number(b"==LINK", *n, out),
        Item::Take(collector, n) => put_take(*collector, *n, out),
        Item::Node(n, parent) => put_numbers(b"==NODE", *n, *parent, out),
        Item::At(node, link) => put_numbers(b"==AT", *node, *link, out),
        Item::Pump(n) => put_number(b"==PUMP", *n, out),
        Item::Move(n, way, bytes) => put_move(*n, *way, *bytes, out),
    }
}

/// The same by way of a line of its own, where the room may be too small.
#[inline(never)]
#[tactic(auto, unfolding(qd_grammar::specs::Canonical::canonical))]
fn write_aside(scheme: &Scheme, item: &Item, out: &mut Line) -> bool
    ensures room { result ≡ nat_le (length out.old + length (canonical scheme.now item.now)) 4096 }
    ensures line { out.new ≡ (if result then out.old ++ canonical scheme.now item.now else out.old) }
    ensures short { length (canonical scheme.now item.now) ≤ 1000 }
{
    let mut line = Line::new();
    put_item(scheme, item, &mut line);
    out.append(line.bytes())
}

/// Appends the canonical line of an item, without LF. False where the line has too little room, and then it is as it was.
/// The canonical line is what the item's lines are read back from; an item that no line spells under the scheme has none that
/// means anything.
#[tactic(auto, using(crate::proofs::Joins::line_short), unfolding(qd_grammar::specs::Canonical::canonical))]
pub fn write_item(scheme: &Scheme, item: &Item, out: &mut Line) -> bool
    ensures room { result ≡ nat_le (length out.old + length (canonical scheme.now item.now)) 4096 }
    ensures line { out.new ≡ (if result then out.old ++ canonical scheme.now item.now else out.old) }
    ensures short { length (canonical scheme.now item.now) ≤ 1000 }
{
    if out.len() > 3096 {
        return write_aside(scheme, item, out);
    }
    put_item(scheme, item, out);
    true
}
