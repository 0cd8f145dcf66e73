//! The command `dump`.

ghost use Rattle.std.specs.Prelude.{◌≡◌, ◌<◌};
ghost use Rattle.qd_words.specs.NetAsking.{dumped};
ghost use Rattle.qds_net.specs.Dumping.{DumpsFrom, DumpsOn, end_of_dump};
ghost use Rattle.qds_net.specs.Worlds.{World};

use crate::wanting::subs_of;
use qd_client::{DumpEnd, dump_over};
use qd_items::RunEnd;
use qd_net::{Conn, Net};
use qd_outside::Sink;
use qd_scheme::Scheme;
use qd_sub::Sub;
use qd_text::Collector;
use qd_words::DumpAsk;
use qds_tools::ProgramEnd;
use std::alloc::Global;

/// Subscribes to what is wanted, and prints what comes. Where a want says no key, nothing is dialled.
pub(crate) fn dump<N: Net, K: Sink>(
    alloc: Global,
    ask: &DumpAsk<'_>,
    scheme: &Scheme,
    net: &mut N,
    out: &mut K,
) -> ProgramEnd
    requires { 0 < ask.now.count }
    ensures { (o : World) → DumpsOn scheme.now (dumped ask.now) result (record o { net = N.told net.old; written = K.written out.old; flushed = K.flushed out.old; writes = K.faults out.old })
        (record o { net = N.told net.new; written = K.written out.new; flushed = K.flushed out.new; writes = K.faults out.new }) }
{
    match subs_of(alloc, scheme, ask.collector, ask.limit, &ask.wants) {
        Ok(Some(subs)) => dump_from(
            alloc,
            ask.addr,
            scheme,
            ask.collector,
            &subs,
            ask.count,
            net,
            out,
        ),
        Ok(None) => ProgramEnd::Ran(RunEnd::BadStep { line: 0 }),
        Err(_) => ProgramEnd::Ran(RunEnd::NoMemory),
    }
}

/// Prints what comes over a connection that is dialled first and hung up behind it.
fn dump_from<N: Net, K: Sink>(
    alloc: Global,
    addr: &str,
    scheme: &Scheme,
    collector: Collector,
    subs: &Vec<Sub>,
    count: u64,
    net: &mut N,
    out: &mut K,
) -> ProgramEnd
    requires { 0 < count }
    ensures { DumpsFrom scheme.now addr.now (record { collector = collector; wants = subs.now.items; count = count }) (record { written = K.written out.old; flushed = K.flushed out.old; writes = K.faults out.old })
        result (record { written = K.written out.new; flushed = K.flushed out.new; writes = K.faults out.new }) (N.told net.old) (N.told net.new) }
{
    let Some(connection) = net.dial(addr) else {
        return ProgramEnd::NetFault;
    };
    let (mut input, mut output) = match connection.halves(alloc) {
        Ok(halves) => halves,
        Err(_) => return ProgramEnd::Ran(RunEnd::NoMemory),
    };
    let end = dump_over(
        alloc,
        scheme,
        collector,
        subs,
        count,
        &mut input,
        &mut output,
        out,
    );
    net.hang_up(input, output);
    end_of_dump(end)
}

/// The end of the program where a dump ends so.
fn end_of_dump(end: DumpEnd) -> ProgramEnd
    ensures { result ≡ end_of_dump end }
{
    match end {
        DumpEnd::Done => ProgramEnd::Ran(RunEnd::Done),
        DumpEnd::CutOff { line } => ProgramEnd::Ran(RunEnd::CutOff { line }),
        DumpEnd::Bad(bad) => ProgramEnd::Ran(RunEnd::Bad(bad)),
        DumpEnd::LineTooLong { line } => ProgramEnd::Ran(RunEnd::LineTooLong { line }),
        DumpEnd::TooMuch => ProgramEnd::Ran(RunEnd::TooMuch),
        DumpEnd::LinkFault => ProgramEnd::NetFault,
        DumpEnd::WriteFault => ProgramEnd::Ran(RunEnd::WriteFault),
        DumpEnd::NoMemory => ProgramEnd::Ran(RunEnd::NoMemory),
    }
}
