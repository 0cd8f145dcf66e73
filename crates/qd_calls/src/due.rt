//! Calls that are due.

ghost use Rattle.std.specs.Prelude.{◌≡◌};
ghost use Rattle.qd_path.specs.declared.call.Asked.{Asked};
ghost use Rattle.qd_path.specs.declared.call.Call.TheVariants as calls;
ghost use Rattle.qd_path.specs.Lists.{Lists, AreOf};
ghost use Rattle.qd_calls.specs.Dues.{IsDue, IsDueOf, Grants, GrantsEvent, Reacts, ComesBack, IsMade};

use crate::asking::{ask_history, ask_stream, ask_ticker};
use qd_gate::NoTurn;
use qd_hub::{HistoryOp, HistoryReply, Hub, StreamOp, TickerOp};
use qd_items::Limit;
use qd_path::{Asked, Call};
use qd_sub::Reply;

/// What became of a call that is due.
#[derive(Drop)]
pub enum Reaction {
    Done,
    TooMany(Limit),
    /// The history's count of commits stands at its end.
    Full,
    NoMemory,
    /// The gate's word stands at its end; the call was not made.
    Spent,
    /// Another caller had a turn; the call was not made, and comes back.
    Busy { first: u64, then: u64, back: Asked },
}

/// What a reply is to a call that wants nothing but to be granted.
fn granted<T: Copy>(reply: &Reply<T>) -> Reaction
    ensures grants { Grants reply.now result }
    ensures made { IsMade result }
{
    match reply {
        Reply::Done => Reaction::Done,
        Reply::TooManyKeys => Reaction::TooMany(Limit::TooManyKeys),
        Reply::TooManySubs => Reaction::TooMany(Limit::TooManySubs),
        _ => Reaction::NoMemory,
    }
}

fn granted_event(reply: &HistoryReply) -> Reaction
    ensures grants { GrantsEvent reply.now result }
    ensures made { IsMade result }
{
    match reply {
        HistoryReply::Done => Reaction::Done,
        HistoryReply::TooManyKeys => Reaction::TooMany(Limit::TooManyKeys),
        HistoryReply::TooManySubs => Reaction::TooMany(Limit::TooManySubs),
        HistoryReply::HistoryFull => Reaction::TooMany(Limit::HistoryFull),
        HistoryReply::Spent => Reaction::Full,
        _ => Reaction::NoMemory,
    }
}

fn put_ticker<H: Hub>(hub: &mut H, stripe: u8, op: TickerOp) -> Reaction
    requires { IsDueOf (H.stripes hub.old) stripe (calls.Ticker op) }
    ensures same { (H.home hub.new ≡ H.home hub.old) × (H.stripes hub.new ≡ H.stripes hub.old) }
    ensures alone { H.is_alone hub.old → H.is_alone hub.new × IsMade result }
    ensures back { ComesBack (record { stripe = stripe; call = calls.Ticker op }) result }
    ensures reacts { (l : Lists) → AreOf (H.stripes hub.old) (H.ticker hub.old) (H.stream hub.old) (H.history hub.old) l
        → (m : Lists) × AreOf (H.stripes hub.old) (H.ticker hub.new) (H.stream hub.new) (H.history hub.new) m
        × Reacts (H.stripes hub.old) (record { stripe = stripe; call = calls.Ticker op }) result l m }
{
    match ask_ticker(hub, stripe, op) {
        Ok(reply) => granted(&reply),
        Err(NoTurn::Busy { first, then, op }) => Reaction::Busy {
            first,
            then,
            back: Asked {
                stripe,
                call: Call::Ticker(op),
            },
        },
        Err(NoTurn::Spent { word: _, op: _ }) => Reaction::Spent,
    }
}

fn put_stream<H: Hub>(hub: &mut H, stripe: u8, op: StreamOp) -> Reaction
    requires { IsDueOf (H.stripes hub.old) stripe (calls.Stream op) }
    ensures same { (H.home hub.new ≡ H.home hub.old) × (H.stripes hub.new ≡ H.stripes hub.old) }
    ensures alone { H.is_alone hub.old → H.is_alone hub.new × IsMade result }
    ensures back { ComesBack (record { stripe = stripe; call = calls.Stream op }) result }
    ensures reacts { (l : Lists) → AreOf (H.stripes hub.old) (H.ticker hub.old) (H.stream hub.old) (H.history hub.old) l
        → (m : Lists) × AreOf (H.stripes hub.old) (H.ticker hub.new) (H.stream hub.new) (H.history hub.new) m
        × Reacts (H.stripes hub.old) (record { stripe = stripe; call = calls.Stream op }) result l m }
{
    match ask_stream(hub, stripe, op) {
        Ok(reply) => granted(&reply),
        Err(NoTurn::Busy { first, then, op }) => Reaction::Busy {
            first,
            then,
            back: Asked {
                stripe,
                call: Call::Stream(op),
            },
        },
        Err(NoTurn::Spent { word: _, op: _ }) => Reaction::Spent,
    }
}

fn put_history<H: Hub>(hub: &mut H, stripe: u8, op: HistoryOp) -> Reaction
    requires { IsDueOf (H.stripes hub.old) stripe (calls.History op) }
    ensures same { (H.home hub.new ≡ H.home hub.old) × (H.stripes hub.new ≡ H.stripes hub.old) }
    ensures alone { H.is_alone hub.old → H.is_alone hub.new × IsMade result }
    ensures back { ComesBack (record { stripe = stripe; call = calls.History op }) result }
    ensures reacts { (l : Lists) → AreOf (H.stripes hub.old) (H.ticker hub.old) (H.stream hub.old) (H.history hub.old) l
        → (m : Lists) × AreOf (H.stripes hub.old) (H.ticker hub.new) (H.stream hub.new) (H.history hub.new) m
        × Reacts (H.stripes hub.old) (record { stripe = stripe; call = calls.History op }) result l m }
{
    match ask_history(hub, stripe, op) {
        Ok(reply) => granted_event(&reply),
        Err(NoTurn::Busy { first, then, op }) => Reaction::Busy {
            first,
            then,
            back: Asked {
                stripe,
                call: Call::History(op),
            },
        },
        Err(NoTurn::Spent { word: _, op: _ }) => Reaction::Spent,
    }
}

/// Makes a call that is due.
pub fn make<H: Hub>(hub: &mut H, asked: Asked) -> Reaction
    requires { IsDue (H.stripes hub.old) asked }
    ensures same { (H.home hub.new ≡ H.home hub.old) × (H.stripes hub.new ≡ H.stripes hub.old) }
    ensures alone { H.is_alone hub.old → H.is_alone hub.new × IsMade result }
    ensures back { ComesBack asked result }
    ensures reacts { (l : Lists) → AreOf (H.stripes hub.old) (H.ticker hub.old) (H.stream hub.old) (H.history hub.old) l
        → (m : Lists) × AreOf (H.stripes hub.old) (H.ticker hub.new) (H.stream hub.new) (H.history hub.new) m
        × Reacts (H.stripes hub.old) asked result l m }
{
    let Asked { stripe, call } = asked;
    match call {
        Call::Ticker(op) => put_ticker(hub, stripe, op),
        Call::Stream(op) => put_stream(hub, stripe, op),
        Call::History(op) => put_history(hub, stripe, op),
    }
}
