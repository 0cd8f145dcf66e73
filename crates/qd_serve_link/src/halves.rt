//! The two halves of a link, each with what it owns.

ghost use Rattle.std.specs.Prelude.{◌≡◌, true};
ghost use Rattle.qd_link.specs.declared.ends.OutEnd.TheVariants as ends;
ghost use Rattle.qd_serve_link.specs.Running.{IsReadBy, IsWrittenBy};

use qd_bell::RealBell;
use qd_hub::HubClient;
use qd_link::{OutEnd, link_in, link_out};
use qd_outside::{Sink, Source};
use qd_path::Side;
use qd_scheme::Scheme;
use qd_session::InEnd;
use std::alloc::Global;
use std::sync::Wait;

/// How many steps the writing half makes at most: it is to end when its bell is shut.
const MOST_TURNS: u64 = 1 << 63;

/// What the reading half gives back.
#[derive(Drop)]
pub(crate) struct ReadBack<S: Drop> {
    pub(crate) client: HubClient,
    pub(crate) input: S,
    pub(crate) end: InEnd,
}

/// What the writing half gives back.
#[derive(Drop)]
pub(crate) struct WriteBack<K: Drop> {
    pub(crate) client: HubClient,
    pub(crate) output: K,
    pub(crate) end: OutEnd,
}

/// Reads a link to its end, and shuts its bell.
pub(crate) fn read_half<R: Wait, S: Source + Drop>(
    rt: &R,
    alloc: Global,
    scheme: &Scheme,
    side: Side,
    mut client: HubClient,
    mut input: S,
    mut bell: RealBell,
) -> ReadBack<S>
    ensures kept { S.Source.kept result.input ≡ S.Source.kept input }
    ensures read { IsReadBy scheme.now side result.end client result.client (record { left = S.Source.left input; faults = S.Source.faults input }) (record { left = S.Source.left result.input; faults = S.Source.faults result.input }) }
{
    let end = link_in(rt, alloc, scheme, &mut client, side, &mut input, &mut bell);
    ReadBack { client, input, end }
}

/// Writes what is due, until the bell is shut.
pub(crate) fn write_half<R: Wait, K: Sink + Drop>(
    rt: &R,
    alloc: Global,
    scheme: &Scheme,
    side: Side,
    mut client: HubClient,
    mut output: K,
    mut bell: RealBell,
) -> WriteBack<K>
    ensures flushed { result.end ≡ ends.Shut → K.Sink.flushed result.output ≡ true }
    ensures written { IsWrittenBy scheme.now side result.end client result.client (record { written = K.Sink.written output; faults = K.Sink.faults output }) (record { written = K.Sink.written result.output; faults = K.Sink.faults result.output }) }
{
    let end = link_out(
        rt,
        alloc,
        scheme,
        &mut client,
        side,
        &mut output,
        &mut bell,
        MOST_TURNS,
    );
    WriteBack {
        client,
        output,
        end,
    }
}
