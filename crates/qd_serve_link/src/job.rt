//! A link as a job.

ghost use Rattle.std.specs.Prelude.{◌≡◌, true, IfSome, IfNone};
ghost use Rattle.std.specs.Arc.{arc_value};
ghost use Rattle.qd_job.specs.Starting.{Starts, Fails};
ghost use Rattle.qd_link.specs.declared.ends.OutEnd.TheVariants as ends;
ghost use Rattle.qd_serve_link.specs.Running.{IsReadBy, IsWrittenBy};
ghost use denote.Param.Send.{IsSync};

use crate::halves::{ReadBack, WriteBack, read_half, write_half};
use qd_bell::RealBell;
use qd_hub::HubClient;
use qd_job::{Spawner, Start, start_with};
use qd_link::OutEnd;
use qd_outside::{Sink, Source};
use qd_path::Side;
use qd_scheme::Scheme;
use qd_session::InEnd;
use std::alloc::Global;
use std::snapshot::Snapshot;
use std::sync::{Arc, Wait};
use std::thread::{Promise, PromisedHandle, Threads, join};

/// A link that is to run. Both clients are of one hub, and both bells of one place of a tower.
#[derive(Drop)]
pub struct LinkJob<S: Source + Drop + Send, K: Sink + Drop + Send> {
    pub scheme: Arc<Scheme>,
    pub side: Side,
    /// The client that makes the calls for which the bytes ask.
    pub reader: HubClient,
    /// The client that takes what is due.
    pub writer: HubClient,
    pub input: S,
    pub output: K,
    pub in_bell: RealBell,
    pub out_bell: RealBell,
}

/// What a link gives back: its clients, the halves of its connection, and how its halves ended.
#[derive(Drop)]
pub struct LinkBack<S: Source + Drop + Send, K: Sink + Drop + Send> {
    pub reader: HubClient,
    pub writer: HubClient,
    pub input: S,
    pub output: K,
    pub in_end: InEnd,
    pub out_end: OutEnd,
}

/// Runs both halves of a link beside each other, to their ends.
pub fn run_link<R: Threads + Wait + Sync, S: Source + Drop + Send, K: Sink + Drop + Send>(
    rt: &R,
    alloc: Global,
    job: LinkJob<S, K>,
) -> LinkBack<S, K>
    ensures read { IsReadBy (arc_value job.scheme) job.side result.in_end job.reader result.reader (record { left = S.Source.left job.input; faults = S.Source.faults job.input }) (record { left = S.Source.left result.input; faults = S.Source.faults result.input }) }
    ensures written { IsWrittenBy (arc_value job.scheme) job.side result.out_end job.writer result.writer (record { written = K.Sink.written job.output; faults = K.Sink.faults job.output }) (record { written = K.Sink.written result.output; faults = K.Sink.faults result.output }) }
    ensures kept { S.Source.kept result.input ≡ S.Source.kept job.input }
    ensures flushed { result.out_end ≡ ends.Shut → K.Sink.flushed result.output ≡ true }
{
    let LinkJob {
        scheme,
        side,
        reader,
        writer,
        input,
        output,
        in_bell,
        out_bell,
    } = job;
    let out_side = side;
    let defs: &Scheme = &scheme;
    let (read, written) = join(
        rt,
        move || read_half(rt, alloc, defs, side, reader, input, in_bell),
        move || write_half(rt, alloc, defs, out_side, writer, output, out_bell),
    );
    let ReadBack {
        client: reader,
        input,
        end: in_end,
    } = read;
    let WriteBack {
        client: writer,
        output,
        end: out_end,
    } = written;
    LinkBack {
        reader,
        writer,
        input,
        output,
        in_end,
        out_end,
    }
}

/// The promise that what is given back is what the link may leave. It has no bytes.
#[derive(Drop)]
pub struct IsRan<S: Source + Drop + Send, K: Sink + Drop + Send> {
    pub job: Snapshot<LinkJob<S, K>>,
}

impl<S: Source + Drop + Send, K: Sink + Drop + Send> Promise<LinkBack<S, K>> for IsRan<S, K> {
    ghost use Rattle.std.specs.Prelude.{◌≡◌, true};
    ghost use Rattle.std.specs.Arc.{arc_value};
    ghost use Rattle.qd_link.specs.declared.ends.OutEnd.TheVariants as ends;
    ghost use Rattle.qd_serve_link.specs.Running.{IsReadBy, IsWrittenBy};

    ghost kept_by = { λ p back.
        IsReadBy (arc_value p.job.value.scheme) p.job.value.side back.in_end p.job.value.reader back.reader (record { left = S.Source.left p.job.value.input; faults = S.Source.faults p.job.value.input }) (record { left = S.Source.left back.input; faults = S.Source.faults back.input })
        × IsWrittenBy (arc_value p.job.value.scheme) p.job.value.side back.out_end p.job.value.writer back.writer (record { written = K.Sink.written p.job.value.output; faults = K.Sink.faults p.job.value.output }) (record { written = K.Sink.written back.output; faults = K.Sink.faults back.output })
        × (S.Source.kept back.input ≡ S.Source.kept p.job.value.input)
        × (back.out_end ≡ ends.Shut → K.Sink.flushed back.output ≡ true) };
}

/// Runs a link in a thread of its own. Where none can be started, nothing of the link runs, and it is dropped.
pub fn start_link<
    W: Spawner,
    R: Threads + Wait + Copy + Send + Sync + 'static,
    S: Source + Drop + Send + 'static,
    K: Sink + Drop + Send + 'static,
>(
    threads: &mut W,
    rt: &R,
    alloc: Global,
    job: LinkJob<S, K>,
) -> Option<PromisedHandle<LinkBack<S, K>, IsRan<S, K>>>
    ensures running { IfSome result (λ h. (h.promise.job.value ≡ job) × Starts (W.told threads.old) (W.told threads.new)) }
    ensures back { IfNone result (Fails (W.told threads.old) (W.told threads.new)) }
{
    let own = *rt;
    let promise = IsRan {
        job: Snapshot::of(&job),
    };
    let work = move || -> LinkBack<S, K>
        requires { IsSync R.row }
        ensures { IsReadBy (arc_value job.scheme) job.side result.in_end job.reader result.reader (record { left = S.Source.left job.input; faults = S.Source.faults job.input }) (record { left = S.Source.left result.input; faults = S.Source.faults result.input })
            × IsWrittenBy (arc_value job.scheme) job.side result.out_end job.writer result.writer (record { written = K.Sink.written job.output; faults = K.Sink.faults job.output }) (record { written = K.Sink.written result.output; faults = K.Sink.faults result.output })
            × (S.Source.kept result.input ≡ S.Source.kept job.input)
            × (result.out_end ≡ ends.Shut → K.Sink.flushed result.output ≡ true) }
    { run_link(&own, alloc, job) };
    match start_with(threads, rt, promise, work) {
        Start::Running(handle) => Some(handle),
        Start::Back => None,
    }
}
