//! Two links over one hub of four stripes, the halves of each in threads of their own.

ghost use Rattle.std.specs.Prelude.{◌<◌};
ghost use Rattle.std.specs.Arc.{arc_value};
ghost use Rattle.qd_bell.specs.Places.{place_count};

use crate::pipe::{SeenSink, WaitingSource};
use qd_bell::{RealBell, Tower};
use qd_hub::{Config, HubClient, Shared};
use qd_link::{OutEnd, link_in, link_out};
use qd_path::Side;
use qd_scheme::{AgentNo, Scheme};
use qd_session::InEnd;
use std::alloc::Global;
use std::process::Abort;
use std::sync::atomic::AtomicU64;
use std::sync::{Arc, Wait};
use std::test::Fail;
use std::thread::{Threads, join};

/// A link that is to run: its agent, the hub's clients of its halves, its bytes, and its bells.
#[derive(Drop)]
struct Link {
    agent: AgentNo,
    reader: HubClient,
    writer: HubClient,
    source: WaitingSource,
    sink: SeenSink,
    in_bell: RealBell,
    out_bell: RealBell,
}

/// Whether a link was read to its END.
fn read_side<R: Wait>(
    rt: &R,
    alloc: Global,
    agent: AgentNo,
    mut client: HubClient,
    mut source: WaitingSource,
    mut bell: RealBell,
) -> bool {
    let scheme = match Scheme::builtin(alloc) {
        Err(_) => return false,
        Ok(scheme) => scheme,
    };
    let side = Side::Down(agent);
    let end = link_in(
        rt,
        alloc,
        &scheme,
        &mut client,
        side,
        &mut source,
        &mut bell,
    );
    matches!(end, InEnd::End)
}

/// What was written of a link, where it was written to its END.
fn write_side<R: Wait>(
    rt: &R,
    alloc: Global,
    agent: AgentNo,
    mut client: HubClient,
    mut sink: SeenSink,
    mut bell: RealBell,
) -> Option<SeenSink> {
    let scheme = Scheme::builtin(alloc).ok()?;
    let side = Side::Down(agent);
    let end = link_out(
        rt,
        alloc,
        &scheme,
        &mut client,
        side,
        &mut sink,
        &mut bell,
        u64::MAX,
    );
    match end {
        OutEnd::Shut => Some(sink),
        _ => None,
    }
}

/// Runs a link. Whether both halves came to their END, and just this text was written.
fn run_link<R: Threads + Wait + Sync>(rt: &R, alloc: Global, link: Link, text: &[u8]) -> bool {
    let Link {
        agent,
        reader,
        writer,
        source,
        sink,
        in_bell,
        out_bell,
    } = link;
    let (is_read, written) = join(
        rt,
        move || read_side(rt, alloc, agent, reader, source, in_bell),
        move || write_side(rt, alloc, agent, writer, sink, out_bell),
    );
    match written {
        Some(sink) => is_read && sink.has(text),
        None => false,
    }
}

/// What the peer of the second link gets first, of its own record, and all that it gets.
const OWN: &[u8] = b"==PROTOCOL\t1\n==TICKER_DATA\nQuote\tA\t1\t1\t1\t1\n==HEARTBEAT\n";

const BOTH: &[u8] =
    b"==PROTOCOL\t1\n==TICKER_DATA\nQuote\tA\t1\t1\t1\t1\n==HEARTBEAT\n==TICKER_DATA\nQuote\tA\t2\t1\t2\t1\n==HEARTBEAT\n";

const ALL: &[u8] =
    b"==PROTOCOL\t1\n==TICKER_DATA\nQuote\tA\t1\t1\t1\t1\n==HEARTBEAT\n==TICKER_DATA\nQuote\tA\t2\t1\t2\t1\n==HEARTBEAT\n==END\n";

/// What the peer of the first link gets.
const NOTHING: &[u8] = b"==PROTOCOL\t1\n==END\n";

/// The second link subscribes and puts a record of its own, so that its peer sees that it is subscribed.
const SUBSCRIBES: &[u8] =
    b"==PROTOCOL\t1\n==TICKER_ADD_SUBSCRIPTION\nQuote\tA\n==TICKER_DATA\nQuote\tA\t1\t1\t1\t1\n==HEARTBEAT\n";

const POSTS: &[u8] = b"==TICKER_DATA\nQuote\tA\t2\t1\t2\t1\n==END\n";

const GREETS: &[u8] = b"==PROTOCOL\t1\n";

const ENDS: &[u8] = b"==END\n";

/// What a link's peer sends: two texts, and how many bytes the peer of the second link has before the later one.
#[derive(Drop)]
struct Peer {
    first: &'static [u8],
    second: &'static [u8],
    needs: u64,
}

/// A link of this number, whose peer waits for what a sink has.
fn new_link(
    alloc: Global,
    number: u8,
    client: &mut HubClient,
    tower: &Arc<Tower>,
    peer: Peer,
    waits_for: &Arc<AtomicU64>,
    seen: &Arc<AtomicU64>,
) -> Result<Link, Fail>
    requires { number < place_count (arc_value tower.now) }
{
    Ok(Link {
        agent: AgentNo::of(number).ok_or("no agent")?,
        reader: client.split(alloc)?,
        writer: client.split(alloc)?,
        source: WaitingSource::new(alloc, peer.first, peer.second, waits_for, peer.needs)?,
        sink: SeenSink::new(alloc, seen)?,
        in_bell: RealBell::new(tower, number as usize)?,
        out_bell: RealBell::new(tower, number as usize)?,
    })
}

/// Both links, the one that posts and the one that is subscribed.
fn two_links(alloc: Global) -> Result<(Link, Link), Fail> {
    let config = Config::of(4, 16, 16).ok_or("sizes")?;
    let mut client = Shared::new(alloc, config)?;
    let tower = Arc::new(alloc, Tower::new(alloc, 2)?)?;
    let (mine, theirs) = (
        Arc::new(alloc, AtomicU64::new(0))?,
        Arc::new(alloc, AtomicU64::new(0))?,
    );
    let posting = Peer {
        first: GREETS,
        second: POSTS,
        needs: OWN.len() as u64,
    };
    let subscribed = Peer {
        first: SUBSCRIBES,
        second: ENDS,
        needs: BOTH.len() as u64,
    };
    let one = new_link(alloc, 0, &mut client, &tower, posting, &theirs, &mine)?;
    let two = new_link(alloc, 1, &mut client, &tower, subscribed, &theirs, &theirs)?;
    Ok((one, two))
}

/// Runs both links at once. Whether each peer got just its bytes.
fn run_both<R: Threads + Wait + Sync>(rt: &R, alloc: Global, one: Link, two: Link) -> (bool, bool) {
    join(
        rt,
        move || run_link(rt, alloc, one, NOTHING),
        move || run_link(rt, alloc, two, ALL),
    )
}

#[test]
fn what_one_link_posts_comes_to_the_other(rt: HostRuntime) -> Result<(), Fail> {
    let (one, two) = two_links(rt.alloc())?;
    let (posted, came) = run_both(&rt, rt.alloc(), one, two);
    assert!(rt; posted);
    assert!(rt; came);
    Ok(())
}
