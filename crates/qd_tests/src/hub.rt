//! A hub of one thread and one that two threads share: each collector is asked.

ghost use Rattle.std.specs.Prelude.{◌≡◌, [], ◌∷◌, ℕ, IfOk};
ghost use Rattle.qd_scheme.specs.Stripes.{stripe_of};
ghost use Rattle.qd_gate.specs.declared.machine.Terms.{Terms};
ghost use Rattle.qd_ticker.specs.Asking as ticker;
ghost use Rattle.qd_stream.specs.Asking as stream;
ghost use Rattle.qd_stream.specs.Items.{key_of_item};
ghost use Rattle.qd_hist_rules.specs.Asking as history;
ghost use Rattle.qd_hub.specs.Hubs.{IsOfStripe};

use qd_buffer::Buffer;
use qd_gate::NoMemory;
use qd_hub::{Config, HistoryOp, HistoryReply, Hub, HubClient, OwnHub, Shared, StreamOp, TickerOp};
use qd_scheme::{AgentNo, Key, Sym, stripe_of};
use qd_sub::{Op, Reply, Sub};
use std::alloc::Global;
use std::process::Abort;
use std::test::Fail;
use std::thread::{Threads, join};

/// Who subscribes, and to what.
#[derive(Drop)]
struct Wish {
    agent: AgentNo,
    key: Key,
}

fn first_wish() -> Option<Wish> {
    let sym = Sym::of(b"IBM").ok()?;
    let agent = AgentNo::of(0)?;
    Some(Wish {
        agent,
        key: Key { rec: 1, sym },
    })
}

fn subs_on(alloc: Global, key: Key) -> Result<Buffer<Sub>, NoMemory>
    ensures { IfOk result (λ b. b.items ≡ record { key = key; limit = 0 } ∷ []) }
{
    Buffer::of_slice(alloc, &[Sub { key, limit: 0 }])
}

fn ticker_op(alloc: Global, wish: &Wish) -> Result<TickerOp, NoMemory>
    ensures asked { IfOk result (λ op. (t : Terms) → ticker.MayAsk t op) }
    ensures keys { IfOk result (λ op. (n : ℕ) → IsOfStripe (λ r. r.key) n (stripe_of wish.now.key n) op) }
{
    let subs = subs_on(alloc, wish.key)?;
    let agent = wish.agent;
    Ok(Op::Add { agent, subs })
}

fn stream_op(alloc: Global, wish: &Wish) -> Result<StreamOp, NoMemory>
    ensures asked { IfOk result (λ op. (t : Terms) → stream.MayAsk t op) }
    ensures keys { IfOk result (λ op. (n : ℕ) → IsOfStripe key_of_item n (stripe_of wish.now.key n) op) }
{
    let subs = subs_on(alloc, wish.key)?;
    let agent = wish.agent;
    Ok(Op::Add { agent, subs })
}

fn history_op(alloc: Global, wish: &Wish) -> Result<HistoryOp, NoMemory>
    ensures asked { IfOk result (λ op. (t : Terms) → history.MayAsk t op) }
    ensures keys { IfOk result (λ op. (n : ℕ) → IsOfStripe (λ e. e.key) n (stripe_of wish.now.key n) op) }
{
    let subs = subs_on(alloc, wish.key)?;
    let agent = wish.agent;
    Ok(Op::Add { agent, subs })
}

/// Whether the ticker did it.
fn is_done_by_ticker<H: Hub>(alloc: Global, hub: &mut H, wish: &Wish) -> Result<bool, NoMemory>
    ensures { H.home hub.new ≡ H.home hub.old }
{
    let op = ticker_op(alloc, wish)?;
    let stripe = stripe_of(&wish.key, hub.stripes());
    Ok(matches!(hub.try_ticker(stripe, op), Ok(Reply::Done)))
}

/// Whether the stream did it.
fn is_done_by_stream<H: Hub>(alloc: Global, hub: &mut H, wish: &Wish) -> Result<bool, NoMemory>
    ensures { H.home hub.new ≡ H.home hub.old }
{
    let op = stream_op(alloc, wish)?;
    let stripe = stripe_of(&wish.key, hub.stripes());
    Ok(matches!(hub.try_stream(stripe, op), Ok(Reply::Done)))
}

/// Whether the history did it.
fn is_done_by_history<H: Hub>(alloc: Global, hub: &mut H, wish: &Wish) -> Result<bool, NoMemory>
    ensures { H.home hub.new ≡ H.home hub.old }
{
    let op = history_op(alloc, wish)?;
    let stripe = stripe_of(&wish.key, hub.stripes());
    Ok(matches!(hub.try_history(stripe, op), Ok(HistoryReply::Done)))
}

/// Whether each collector did it.
fn is_done<H: Hub>(alloc: Global, hub: &mut H, wish: &Wish) -> Result<bool, NoMemory>
    ensures { H.home hub.new ≡ H.home hub.old }
{
    let ticker = is_done_by_ticker(alloc, hub, wish)?;
    let stream = is_done_by_stream(alloc, hub, wish)?;
    let history = is_done_by_history(alloc, hub, wish)?;
    Ok(ticker && stream && history)
}

/// Asks the ticker many times.
fn ask_often<H: Hub>(alloc: Global, hub: &mut H, wish: &Wish) -> Result<(), NoMemory>
    ensures { H.home hub.new ≡ H.home hub.old }
{
    for _ in 0..200u32 {
        is_done_by_ticker(alloc, hub, wish)?;
    }
    Ok(())
}

/// What one thread does: its client goes back.
fn ask(alloc: Global, mut client: HubClient) -> Result<HubClient, NoMemory>
    ensures { IfOk result (λ c. c.home ≡ client.home) }
{
    if let Some(wish) = first_wish() {
        ask_often(alloc, &mut client, &wish)?;
    }
    Ok(client)
}

/// Asks by two clients at once, each in a thread of its own, and takes them in again.
fn ask_at_once<R: Threads + Sync>(
    rt: &R,
    alloc: Global,
    client: &mut HubClient,
) -> Result<(), NoMemory> {
    let one = client.split(alloc)?;
    let two = client.split(alloc)?;
    let (first, second) = join(rt, move || ask(alloc, one), move || ask(alloc, two));
    client.join(first?);
    client.join(second?);
    Ok(())
}

#[test]
fn an_own_hub_answers(rt: HostRuntime) -> Result<(), Fail> {
    let wish = first_wish().ok_or("no wish")?;
    let config = Config::of(2, 4, 4).ok_or("sizes")?;
    let mut hub = OwnHub::new(rt.alloc(), config)?;
    let done = is_done(rt.alloc(), &mut hub, &wish)?;
    assert!(rt; done);
    Ok(())
}

#[test]
fn a_hub_answers_after_two_threads_have_asked(rt: HostRuntime) -> Result<(), Fail> {
    let wish = first_wish().ok_or("no wish")?;
    let config = Config::of(2, 4, 4).ok_or("sizes")?;
    let mut client = Shared::new(rt.alloc(), config)?;
    ask_at_once(&rt, rt.alloc(), &mut client)?;
    let done = is_done(rt.alloc(), &mut client, &wish)?;
    assert!(rt; done);
    Ok(())
}
