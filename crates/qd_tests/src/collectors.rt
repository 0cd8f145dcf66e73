//! A stripe of the ticker and one of the stream take calls where there is memory. The history's is asked by the hub's tests.

use qd_buffer::Buffer;
use qd_gate::Machine;
use qd_scheme::{AgentNo, Cells, Key, Record, Sym};
use qd_stream::{StreamItem, StreamStripe};
use qd_sub::{Op, Reply, Sub};
use qd_ticker::TickerStripe;
use std::test::Fail;

fn ibm() -> Result<Key, Fail> {
    let sym = Sym::of(b"IBM").ok().ok_or("no symbol")?;
    Ok(Key { rec: 2, sym })
}

/// A call of any machine.
fn turn<M: Machine>(machine: &mut M, op: M::Op) -> M::Reply
    requires { M.may_ask (M.terms machine.old) op }
{
    machine.step(op)
}

#[test]
fn the_ticker_takes_calls(rt: HostRuntime) -> Result<(), Fail> {
    let alloc = rt.alloc();
    let (key, cells) = (ibm()?, Cells::new());
    let agent = AgentNo::of(0).ok_or("no agent")?;
    let subs = Buffer::of_slice(alloc, &[Sub { key, limit: 0 }])?;
    let items = Buffer::of_slice(alloc, &[Record { key, cells }])?;
    let mut stripe = TickerStripe::new(alloc)?;
    assert!(rt; matches!(turn(&mut stripe, Op::Add { agent, subs }), Reply::Done));
    assert!(rt; matches!(turn(&mut stripe, Op::Put { items }), Reply::Done));
    Ok(())
}

#[test]
fn the_stream_takes_calls(rt: HostRuntime) -> Result<(), Fail> {
    let alloc = rt.alloc();
    let key = ibm()?;
    let agent = AgentNo::of(0).ok_or("no agent")?;
    let subs = Buffer::of_slice(alloc, &[Sub { key, limit: 0 }])?;
    let items = Buffer::of_slice(alloc, &[StreamItem::Lost(key, 1)])?;
    let mut stripe = StreamStripe::new(alloc, 2)?;
    assert!(rt; matches!(turn(&mut stripe, Op::Add { agent, subs }), Reply::Done));
    assert!(rt; matches!(turn(&mut stripe, Op::Put { items }), Reply::Done));
    Ok(())
}
