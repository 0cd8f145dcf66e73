//! A connection is accepted, and a link is started on it.

ghost use Rattle.std.specs.Prelude.{◌≡◌, ◌≤◌, ◌<◌, ◌⊎◌, ℕ, List, Option, IfOk};
ghost use Rattle.std.specs.Arc.{arc_value};
ghost use Rattle.qd_bell.specs.Places.{place_count};
ghost use Rattle.qd_job.specs.Starting.{Starts, Fails};
ghost use Rattle.qd_net.specs.Meeting.{Connects, FailsAt};
ghost use Rattle.qd_net.specs.Meeting.Asking.{Accept};
ghost use Rattle.qd_serve.specs.Steps.{IsSplit, IsJobOf};
ghost use Rattle.qd_path.specs.declared.side.Side.TheVariants.{Down};

use qd_bell::{RealBell, Tower};
use qd_hub::HubClient;
use qd_job::Spawner;
use qd_net::{Conn, CountedSink, CountedSource, Net};
use qd_path::Side;
use qd_scheme::{AgentNo, Scheme};
use qd_serve_link::{IsRan, LinkBack, LinkJob, start_link};
use std::alloc::{AllocError, Global};
use std::sync::{Arc, Wait};
use std::thread::{PromisedHandle, Threads};

/// The job of a link on the halves of a connection, with clients that are split from the hub.
fn make_job<S: CountedSource + Drop + Send, K: CountedSink + Drop + Send>(
    alloc: Global,
    scheme: &Arc<Scheme>,
    tower: &Arc<Tower>,
    hub: &mut HubClient,
    link: u8,
    input: S,
    output: K,
) -> Result<LinkJob<S, K>, AllocError>
    requires agent { link ≤ 127 }
    requires place { link < place_count (arc_value tower.now) }
    ensures same { hub.new ≡ hub.old }
    ensures clients { IfOk result (λ j. IsSplit hub.old j.reader × IsSplit j.reader j.writer) }
    ensures rest { IfOk result (λ j. (arc_value j.scheme ≡ arc_value scheme.now) × (j.side ≡ Down link) × (j.input ≡ input) × (j.output ≡ output)) }
{
    let agent = AgentNo::of(link).unwrap();
    let mut reader = hub.split(alloc)?;
    let writer = reader.split(alloc)?;
    Ok(LinkJob {
        scheme: Arc::try_clone(scheme)?,
        side: Side::Down(agent),
        reader,
        writer,
        input,
        output,
        in_bell: RealBell::new(tower, usize::from(link))?,
        out_bell: RealBell::new(tower, usize::from(link))?,
    })
}

/// The answer of a start.
pub enum Next<S: CountedSource + Drop + Send, K: CountedSink + Drop + Send> {
    Runs(PromisedHandle<LinkBack<S, K>, IsRan<S, K>>),
    /// A connection or a thread was not to be had.
    Fault,
    NoMemory,
}

/// Accepts the next connection, and starts a link on it.
pub fn start_next<N: Net, W: Spawner, R: Threads + Wait + Copy + Send + Sync + 'static>(
    rt: &R,
    alloc: Global,
    scheme: &Arc<Scheme>,
    tower: &Arc<Tower>,
    hub: &mut HubClient,
    net: &mut N,
    threads: &mut W,
    link: u8,
) -> Next<<N::Conn as Conn>::In, <N::Conn as Conn>::Out>
    requires agent { link ≤ 127 }
    requires place { link < place_count (arc_value tower.now) }
    ensures same { hub.new ≡ hub.old }
    ensures runs { (h : _) → result ≡ Next.Runs h → Starts (W.told threads.old) (W.told threads.new) × (list : Option (List ℕ)) × Connects Accept list (N.told net.old) (N.told net.new)
        × IsJobOf hub.old (arc_value scheme.now) link list (arc_value h.promise.job.value.scheme) h.promise.job.value.side h.promise.job.value.reader h.promise.job.value.writer
        (record { left = N.Conn.In.left h.promise.job.value.input; faults = N.Conn.In.Source.faults h.promise.job.value.input }) (record { written = N.Conn.Out.written h.promise.job.value.output; faults = N.Conn.Out.Sink.faults h.promise.job.value.output }) }
    ensures fault { result ≡ Next.Fault → (FailsAt Accept (N.told net.old) (N.told net.new) × (W.told threads.new ≡ W.told threads.old)) ⊎ ((list : Option (List ℕ)) × Connects Accept list (N.told net.old) (N.told net.new) × Fails (W.told threads.old) (W.told threads.new)) }
    ensures none { result ≡ Next.NoMemory → (list : Option (List ℕ)) × Connects Accept list (N.told net.old) (N.told net.new) × (W.told threads.new ≡ W.told threads.old) }
{
    let Some(conn) = net.accept() else {
        return Next::Fault;
    };
    let Ok((input, output)) = conn.halves(alloc) else {
        return Next::NoMemory;
    };
    let Ok(job) = make_job(alloc, scheme, tower, hub, link, input, output) else {
        return Next::NoMemory;
    };
    match start_link(threads, rt, alloc, job) {
        Some(handle) => Next::Runs(handle),
        None => Next::Fault,
    }
}
