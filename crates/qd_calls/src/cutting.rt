//! A group is cut into calls, one for each stripe that has items of it.

ghost use Rattle.std.specs.Prelude.{◌≡◌, ◌<◌, ◌≤◌, ◌^◌, ◌++◌, ℕ, [], All, OnOk, length};
ghost use Rattle.qd_buffer.specs.Splitting.{AreStripes};
ghost use Rattle.qd_grammar.specs.declared.item.Message.{Message};
ghost use Rattle.qd_path.specs.Calls.{asks, asks_all, calls_of};
ghost use Rattle.qd_path.specs.Groups.{size};
ghost use Rattle.qd_scheme.specs.Stripes.{IsStripeCount};
ghost use Rattle.qd_calls.specs.Cutting.{record_call, item_call, event_call, sub_call, key_call, AreAt};
ghost use Rattle.qd_calls.specs.Dues.{IsDue, IsDueOf};
ghost use Rattle.qd_stream.specs.Items.{key_of_item, weight};

use crate::group::OpenGroup;
use qd_buffer::{Buffer, split_by_stripe};
use qd_grammar::Message;
use qd_path::{Asked, Call};
use qd_scheme::{AgentNo, Event, Key, Keyed, Record};
use qd_stream::StreamItem;
use qd_sub::{Op, Sub};
use std::alloc::{AllocError, Global};

/// An item of a group.
pub trait Grouped: Keyed {
    ghost use Rattle.std.specs.Prelude.{ℕ, ◌≡◌, ◌<◌, ◌≤◌, All, length};
    ghost use Rattle.qd_buffer.specs.Filled.{Filled};
    ghost use Rattle.qd_grammar.specs.declared.item.Message.{Message};
    ghost use Rattle.qd_path.specs.declared.call.Call.{Call};
    ghost use Rattle.qd_calls.specs.Cutting.{AreAt};
    ghost use Rattle.qd_calls.specs.Dues.{IsDueOf};

    // The call of a message with these items.
    ghost call_of: { Message → ℕ → Filled Self → Call };

    // What a collector asks of an item.
    ghost is_sound: { Self → Type 0 };

    fn call(message: Message, agent: AgentNo, part: Buffer<Self>) -> Call
        requires few { length part.items ≤ 4096 }
        requires sound { All is_sound part.items }
        ensures call { result ≡ call_of message agent part }
        ensures due { (n stripe : ℕ) → stripe < n → AreAt Self.key_of n stripe part.items → IsDueOf n stripe result };
}

impl Grouped for Record {
    ghost use Rattle.qd_calls.specs.Cutting.{record_call};

    ghost call_of = { record_call };

    ghost is_sound = { λ _. Unit {0} };

    fn call(message: Message, agent: AgentNo, part: Buffer<Record>) -> Call
        requires few { length part.items ≤ 4096 }
        requires sound { All (λ _. Unit {0}) part.items }
        ensures call { result ≡ record_call message agent part }
        ensures due { (n stripe : ℕ) → stripe < n → AreAt (λ r. r.key) n stripe part.items → IsDueOf n stripe result }
    {
        Call::Ticker(Op::Put { items: part })
    }
}

impl Grouped for StreamItem {
    ghost use Rattle.std.specs.Prelude.{◌<◌};
    ghost use Rattle.qd_stream.specs.Items.{weight};
    ghost use Rattle.qd_calls.specs.Cutting.{item_call};

    ghost call_of = { item_call };

    ghost is_sound = { λ i. 0 < weight i };

    fn call(message: Message, agent: AgentNo, part: Buffer<StreamItem>) -> Call
        requires few { length part.items ≤ 4096 }
        requires sound { All (λ i. 0 < weight i) part.items }
        ensures call { result ≡ item_call message agent part }
        ensures due { (n stripe : ℕ) → stripe < n → AreAt (key_of_item) n stripe part.items → IsDueOf n stripe result }
    {
        Call::Stream(Op::Put { items: part })
    }
}

impl Grouped for Event {
    ghost use Rattle.std.specs.Prelude.{◌<◌, ◌^◌};
    ghost use Rattle.qd_calls.specs.Cutting.{event_call};

    ghost call_of = { event_call };

    ghost is_sound = { λ e. e.index < 2 ^ 63 };

    fn call(message: Message, agent: AgentNo, part: Buffer<Event>) -> Call
        requires few { length part.items ≤ 4096 }
        requires sound { All (λ e. e.index < 2 ^ 63) part.items }
        ensures call { result ≡ event_call message agent part }
        ensures due { (n stripe : ℕ) → stripe < n → AreAt (λ e. e.key) n stripe part.items → IsDueOf n stripe result }
    {
        Call::History(Op::Put { items: part })
    }
}

fn sub_call(message: Message, agent: AgentNo, part: Buffer<Sub>) -> Call
    ensures { result ≡ sub_call message agent part }
{
    match message {
        Message::StreamAdd => Call::Stream(Op::Add { agent, subs: part }),
        Message::HistoryAdd => Call::History(Op::Add { agent, subs: part }),
        _ => Call::Ticker(Op::Add { agent, subs: part }),
    }
}

impl Grouped for Sub {
    ghost use Rattle.std.specs.Prelude.{◌<◌, ◌^◌};
    ghost use Rattle.qd_calls.specs.Cutting.{sub_call};

    ghost call_of = { sub_call };

    ghost is_sound = { λ s. s.limit < 2 ^ 63 };

    fn call(message: Message, agent: AgentNo, part: Buffer<Sub>) -> Call
        requires few { length part.items ≤ 4096 }
        requires sound { All (λ s. s.limit < 2 ^ 63) part.items }
        ensures call { result ≡ sub_call message agent part }
        ensures due { (n stripe : ℕ) → stripe < n → AreAt (λ s. s.key) n stripe part.items → IsDueOf n stripe result }
    {
        sub_call(message, agent, part)
    }
}

impl Grouped for Key {
    ghost use Rattle.qd_calls.specs.Cutting.{key_call};

    ghost call_of = { key_call };

    ghost is_sound = { λ _. Unit {0} };

    fn call(message: Message, agent: AgentNo, part: Buffer<Key>) -> Call
        requires few { length part.items ≤ 4096 }
        requires sound { All (λ _. Unit {0}) part.items }
        ensures call { result ≡ key_call message agent part }
        ensures due { (n stripe : ℕ) → stripe < n → AreAt (λ k. k) n stripe part.items → IsDueOf n stripe result }
    {
        match message {
            Message::StreamRemove => Call::Stream(Op::Remove { agent, keys: part }),
            Message::HistoryRemove => Call::History(Op::Remove { agent, keys: part }),
            _ => Call::Ticker(Op::Remove { agent, keys: part }),
        }
    }
}

/// Cuts items by stripe, and makes the calls of a message due behind those that are.
fn cut<T: Grouped>(
    alloc: Global,
    n: u8,
    message: Message,
    agent: AgentNo,
    items: &[T],
    due: &mut Vec<Asked>,
) -> Result<(), AllocError>
    requires count { IsStripeCount n }
    requires few { length items.now ≤ 4096 }
    requires sound { All T.is_sound items.now }
    requires due { All (IsDue n) due.old.items }
    ensures calls { OnOk result (due.new.items ≡ due.old.items ++ asks_all T.key_of (T.call_of message agent) n items.now) }
    ensures due { All (IsDue n) due.new.items }
{
    let mut parts = Vec::new(alloc);
    split_by_stripe(alloc, items, n, &mut parts)?;
    push_calls(message, agent, items, n, parts, due)
}

/// Makes the call of a part due, if it has items.
fn push_part<T: Grouped>(
    message: Message,
    agent: AgentNo,
    n: u8,
    stripe: u8,
    part: Buffer<T>,
    due: &mut Vec<Asked>,
) -> Result<(), AllocError>
    requires within { stripe < n }
    requires full { part.room ≡ length part.items }
    requires few { length part.items ≤ 4096 }
    requires sound { All T.is_sound part.items }
    requires of_stripe { AreAt T.key_of n stripe part.items }
    requires due { All (IsDue n) due.old.items }
    ensures calls { OnOk result (due.new.items ≡ due.old.items ++ asks (T.call_of message agent) stripe part.items) }
    ensures due { All (IsDue n) due.new.items }
{
    if part.as_slice().is_empty() {
        return Ok(());
    }
    let call = T::call(message, agent, part);
    due.push(Asked { stripe, call })?;
    Ok(())
}

/// Makes the calls of parts due, one for each that has items, in order.
fn push_calls<T: Grouped>(
    message: Message,
    agent: AgentNo,
    items: &[T],
    n: u8,
    mut parts: Vec<Buffer<T>>,
    due: &mut Vec<Asked>,
) -> Result<(), AllocError>
    requires parts { AreStripes T.key_of n items.now parts.items }
    requires few { length items.now ≤ 4096 }
    requires sound { All T.is_sound items.now }
    requires due { All (IsDue n) due.old.items }
    ensures calls { OnOk result (due.new.items ≡ due.old.items ++ asks_all T.key_of (T.call_of message agent) n items.now) }
    ensures due { All (IsDue n) due.new.items }
{
    for stripe in 0..n {
        let part = parts.remove(0);
        push_part(message, agent, n, stripe, part, due)?;
    }
    Ok(())
}

/// Makes the calls of a group due.
pub fn cut_group(
    alloc: Global,
    n: u8,
    message: Option<Message>,
    agent: AgentNo,
    group: &OpenGroup,
    due: &mut Vec<Asked>,
) -> Result<(), AllocError>
    requires count { IsStripeCount n }
    requires few { size group.now ≤ 4096 }
    requires due { All (IsDue n) due.old.items }
    ensures calls { OnOk result (due.new.items ≡ due.old.items ++ calls_of n agent message group.now) }
    ensures due { All (IsDue n) due.new.items }
{
    match message {
        None => Ok(()),
        Some(m) => match m {
            Message::TickerData => cut(alloc, n, m, agent, &group.records, due),
            Message::StreamData | Message::StreamLost => cut(alloc, n, m, agent, &group.items, due),
            Message::HistoryData => cut(alloc, n, m, agent, &group.events, due),
            Message::TickerAdd => cut(alloc, n, Message::TickerAdd, agent, &group.subs, due),
            Message::StreamAdd => cut(alloc, n, Message::StreamAdd, agent, &group.subs, due),
            Message::HistoryAdd => cut(alloc, n, Message::HistoryAdd, agent, &group.subs, due),
            Message::TickerRemove => cut(alloc, n, Message::TickerRemove, agent, &group.keys, due),
            Message::StreamRemove => cut(alloc, n, Message::StreamRemove, agent, &group.keys, due),
            Message::HistoryRemove => {
                cut(alloc, n, Message::HistoryRemove, agent, &group.keys, due)
            }
        },
    }
}
