//! Where the item of a line is put.

ghost use Rattle.std.specs.Prelude.{◌≡◌, ◌≤◌, ◌<◌, ◌+◌, ◌^◌, length};
ghost use Rattle.qd_grammar.specs.declared.item.Item.TheVariants.{Protocol};
ghost use Rattle.qd_grammar.specs.Lines.{answer_of};
ghost use Rattle.qd_items.specs.declared.items.Turn.TheVariants as turns;
ghost use Rattle.qd_items.specs.Gives.{Gives, step_told, turn_of};
ghost use Rattle.qd_text.specs.Reading.{state_after};

use crate::ends::TextEnd;
use qd_scheme::Scheme;
use qd_text::{Item, Message, Reader};
use std::marker::Model;

/// Which way a step went. Where it came to an end, that stands beside it: of a value that is written in pieces and read at
/// once, each step would wait.
#[derive(Clone, Copy)]
pub(crate) enum Way {
    /// Bytes were read, or a line was skipped.
    Went,
    /// An item.
    Came,
    /// An end.
    Ended,
}

/// Of which kind the item of a line is.
#[derive(Clone, Copy)]
pub(crate) enum Kind {
    Ticker,
    Stream,
    History,
    Other,
}

/// The item that came last. Each kind has a place of its own, so that a line is read in place of one of its kind, also where
/// lines of another one or heads stand between them.
#[derive(Drop)]
pub(crate) struct Places {
    ticker: Item,
    stream: Item,
    history: Item,
    other: Item,
    body: Kind,
    kind: Kind,
}

impl Model for Places {
    ghost use Rattle.qd_grammar.specs.declared.item.Item.{Item};
    ghost use Rattle.qd_items.specs.Places.{item_in};

    ghost Value = { Item };

    ghost view = { λ p. item_in p.kind p.ticker p.stream p.history p.other };
}

impl Places {
    /// Before the first item.
    pub(crate) fn new() -> Places
        ensures { result ≡ Protocol }
    {
        Places {
            ticker: Item::Protocol,
            stream: Item::Protocol,
            history: Item::Protocol,
            other: Item::Protocol,
            body: Kind::Other,
            kind: Kind::Other,
        }
    }

    /// The item that came last.
    #[inline]
    pub(crate) fn item(&self) -> &Item
        ensures { result.now ≡ self.now }
    {
        match self.kind {
            Kind::Ticker => &self.ticker,
            Kind::Stream => &self.stream,
            Kind::History => &self.history,
            Kind::Other => &self.other,
        }
    }

    /// What a line gives; its item is put in place of the last one of its kind.
    #[inline]
    pub(crate) fn judge(
        &mut self,
        reader: &mut Reader,
        scheme: &Scheme,
        line: &[u8],
        end: &mut TextEnd,
    ) -> Way
        requires short { length line.now ≤ 4096 }
        requires lines { reader.old.lines < 2 ^ 63 }
        ensures gives { Gives (answer_of reader.old.mode reader.old.state scheme.now line.now) (reader.old.lines + 1) (step_told result end.new self.new) }
        ensures reader { reader.new ≡ record { mode = reader.old.mode; state = state_after (answer_of reader.old.mode reader.old.state scheme.now line.now) reader.old.state; lines = reader.old.lines + 1 } }
    {
        self.kind = kind_of(line, self.body);
        match self.kind {
            Kind::Ticker => judge_into(reader, scheme, line, &mut self.ticker, end),
            Kind::Stream => judge_into(reader, scheme, line, &mut self.stream, end),
            Kind::History => judge_into(reader, scheme, line, &mut self.history, end),
            Kind::Other => {
                let way = judge_into(reader, scheme, line, &mut self.other, end);
                self.body = body_behind(&self.other, self.body);
                way
            }
        }
    }
}

/// The kind of a line: what begins with `=` is no body line.
#[inline]
fn kind_of(line: &[u8], body: Kind) -> Kind {
    if !line.is_empty() && line[0] == b'=' {
        return Kind::Other;
    }
    body
}

/// The kind of the body lines behind an item that is none.
#[inline]
fn body_behind(item: &Item, before: Kind) -> Kind {
    match item {
        Item::Head(Message::TickerData) => Kind::Ticker,
        Item::Head(Message::StreamData) => Kind::Stream,
        Item::Head(Message::HistoryData) => Kind::History,
        Item::Head(_) => Kind::Other,
        _ => before,
    }
}

/// What a line gives; its item is put in place of another one.
fn judge_into(
    reader: &mut Reader,
    scheme: &Scheme,
    line: &[u8],
    item: &mut Item,
    end: &mut TextEnd,
) -> Way
    requires short { length line.now ≤ 4096 }
    requires lines { reader.old.lines < 2 ^ 63 }
    ensures gives { Gives (answer_of reader.old.mode reader.old.state scheme.now line.now) (reader.old.lines + 1) (step_told result end.new item.new) }
    ensures reader { reader.new ≡ record { mode = reader.old.mode; state = state_after (answer_of reader.old.mode reader.old.state scheme.now line.now) reader.old.state; lines = reader.old.lines + 1 } }
{
    match reader.read(scheme, line, item) {
        Ok(false) => Way::Went,
        Ok(true) => match item {
            Item::End => ended(TextEnd::End, end),
            _ => Way::Came,
        },
        Err(bad) => ended(TextEnd::Bad(bad), end),
    }
}

/// Puts an end aside.
#[inline]
pub(crate) fn ended(end: TextEnd, out: &mut TextEnd) -> Way
    ensures { turn_of result out.new ≡ turns.Ended end }
{
    *out = end;
    Way::Ended
}
