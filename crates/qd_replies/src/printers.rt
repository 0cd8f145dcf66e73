//! How each kind of what a stripe gives is printed.

ghost use Rattle.std.specs.Prelude.{◌≡◌};
ghost use Rattle.qd_grammar.specs.declared.item.Item.TheVariants.{Rec, Ev};

use qd_grammar::{Item, Message};
use qd_history::HistItem;
use qd_scheme::{Event, Record};
use qd_stream::StreamItem;
use qd_sub::{Sub, Want};

/// How what a stripe gives is printed: the message that it belongs to, and its item.
pub trait Printer {
    ghost use Rattle.std.specs.Prelude.{◌≡◌};
    ghost use Rattle.qd_path.specs.Texts.{ReplyItem};

    type Given: Copy;

    ghost shown: { Self.Given → ReplyItem };

    fn message(x: &Self::Given) -> Message
        ensures { result ≡ (shown x.now).message };

    /// Its item, in place of another one.
    fn put(x: &Self::Given, out: &mut Item)
        ensures { out.new ≡ (shown x.now).item };
}

/// A record in place of another item: most follow one, and none of its large values is handed on.
fn put_record(r: &Record, out: &mut Item)
    ensures { out.new ≡ Rec r.now }
{
    match out {
        Item::Rec(last) => *last = *r,
        _ => *out = Item::Rec(*r),
    }
}

/// An event in place of another item.
fn put_event(e: &Event, out: &mut Item)
    ensures { out.new ≡ Ev e.now }
{
    match out {
        Item::Ev(last) => *last = *e,
        _ => *out = Item::Ev(*e),
    }
}

pub struct Records {}

impl Printer for Records {
    ghost use Rattle.qd_path.specs.Texts.{ticker_item};

    type Given = Record;

    ghost shown = { ticker_item };

    fn message(_x: &Record) -> Message {
        Message::TickerData
    }

    fn put(x: &Record, out: &mut Item) {
        put_record(x, out);
    }
}

pub struct Items {}

impl Printer for Items {
    ghost use Rattle.qd_path.specs.Texts.{stream_item};

    type Given = StreamItem;

    ghost shown = { stream_item };

    fn message(x: &StreamItem) -> Message {
        match x {
            StreamItem::Rec(_) => Message::StreamData,
            StreamItem::Lost(_, _) => Message::StreamLost,
        }
    }

    fn put(x: &StreamItem, out: &mut Item) {
        match x {
            StreamItem::Rec(record) => put_record(record, out),
            StreamItem::Lost(key, count) => *out = Item::Lost(*key, *count),
        }
    }
}

pub struct Events {}

impl Printer for Events {
    ghost use Rattle.qd_path.specs.Texts.{history_item};

    type Given = HistItem;

    ghost shown = { history_item };

    fn message(_x: &HistItem) -> Message {
        Message::HistoryData
    }

    fn put(x: &HistItem, out: &mut Item) {
        put_event(&x.event, out);
    }
}

pub struct TickerWants {}

impl Printer for TickerWants {
    ghost use Rattle.qd_grammar.specs.declared.item.Message.TheVariants.{TickerAdd, TickerRemove};
    ghost use Rattle.qd_path.specs.Texts.{want_item};

    type Given = Want;

    ghost shown = { want_item TickerAdd TickerRemove };

    fn message(x: &Want) -> Message {
        match x.total {
            None => Message::TickerRemove,
            Some(_) => Message::TickerAdd,
        }
    }

    fn put(x: &Want, out: &mut Item) {
        *out = Item::Sub(x.key);
    }
}

pub struct StreamWants {}

impl Printer for StreamWants {
    ghost use Rattle.qd_grammar.specs.declared.item.Message.TheVariants.{StreamAdd, StreamRemove};
    ghost use Rattle.qd_path.specs.Texts.{want_item};

    type Given = Want;

    ghost shown = { want_item StreamAdd StreamRemove };

    fn message(x: &Want) -> Message {
        match x.total {
            None => Message::StreamRemove,
            Some(_) => Message::StreamAdd,
        }
    }

    fn put(x: &Want, out: &mut Item) {
        *out = Item::Sub(x.key);
    }
}

pub struct HistoryWants {}

impl Printer for HistoryWants {
    ghost use Rattle.qd_path.specs.Texts.{history_want_item};

    type Given = Want;

    ghost shown = { history_want_item };

    fn message(x: &Want) -> Message {
        match x.total {
            None => Message::HistoryRemove,
            Some(_) => Message::HistoryAdd,
        }
    }

    fn put(x: &Want, out: &mut Item) {
        match x.total {
            None => *out = Item::Sub(x.key),
            Some(limit) => *out = Item::HistSub(Sub { key: x.key, limit }),
        }
    }
}
