//! The items that a script feeds.

ghost use Rattle.std.specs.Prelude.{◌≡◌, ◌<◌, pos};
ghost use Rattle.qd_tape.specs.Scripts.{candle_of, digit_of, fed_head, fed_item, is_taking, fed_key, next_drawn, price_of, quote_of, trade_of};

use qd_grammar::{Item, Message};
use qd_scheme::{Cells, Event, Key, Record, Sym};

/// The numbers of the records in the built-in scheme.
const QUOTE: u32 = 0;

const TRADE: u32 = 1;

const CANDLE: u32 = 2;

/// The number drawn after another. The rule is that of Park and Miller's "minimal standard", with the multiplier 48271.
pub fn next_drawn(x: u32) -> u32
    ensures drawn { result ≡ next_drawn x }
    ensures within { result < 2147483647 }
{
    (u64::from(x) * 48_271 % 2_147_483_647) as u32
}

/// The head of the item of a number.
pub fn fed_head(i: u32) -> Message
    ensures { result ≡ fed_head i }
{
    match i % 3 {
        0 => Message::TickerData,
        1 => Message::StreamData,
        _ => Message::HistoryData,
    }
}

/// The item of a number, for which `x` was drawn.
pub fn fed_item(i: u32, x: u32) -> Item
    ensures { result ≡ fed_item i x }
{
    match i % 3 {
        0 => quote_of(i, x),
        1 => trade_of(i, x),
        _ => candle_of(i, x),
    }
}

/// Whether all is taken when so many items were fed.
pub fn is_taking(count: u32, fed: u32) -> bool
    ensures { result ≡ is_taking count fed }
{
    fed % 1000 == 0 || fed == count
}

/// The key of a record with the symbol `S` and a digit.
fn fed_key(rec: u32, digit: u32) -> Key
    requires { digit < 10 }
    ensures { result ≡ fed_key rec digit }
{
    match Sym::of(&[b'S', b'0' + digit as u8]) {
        Ok(sym) => Key { rec, sym },
        Err(_) => unreachable!(),
    }
}

fn digit_of(x: u32) -> u32
    ensures digit { result ≡ digit_of x }
    ensures within { result < 10 }
{
    x % 10
}

fn price_of(x: u32) -> i64
    ensures { result ≡ pos (price_of x) }
{
    i64::from(x % 1_000_000 + 1)
}

fn quote_of(i: u32, x: u32) -> Item
    ensures { result ≡ quote_of i x }
{
    let price = price_of(x);
    let mut cells = Cells::new();
    cells.push(price);
    cells.push(i64::from(i));
    cells.push(price + 100);
    cells.push(i64::from(i) + 1);
    Item::Rec(Record {
        key: fed_key(QUOTE, digit_of(x)),
        cells,
    })
}

fn trade_of(i: u32, x: u32) -> Item
    ensures { result ≡ trade_of i x }
{
    let mut cells = Cells::new();
    cells.push(price_of(x));
    cells.push(i64::from(i));
    cells.push(i64::from(x));
    Item::Rec(Record {
        key: fed_key(TRADE, digit_of(x)),
        cells,
    })
}

fn candle_of(i: u32, x: u32) -> Item
    ensures { result ≡ candle_of i x }
{
    let price = price_of(x);
    let mut cells = Cells::new();
    cells.push(price);
    cells.push(price);
    cells.push(price);
    cells.push(price);
    cells.push(i64::from(i));
    Item::Ev(Event {
        key: fed_key(CANDLE, digit_of(x)),
        index: u64::from(i) + 1,
        flags: 0,
        cells,
    })
}
