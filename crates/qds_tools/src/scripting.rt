//! The script that words ask for.

ghost use Rattle.qds_tools.specs.Scripting.{ScriptEnds};

use qd_items::RunEnd;
use qd_outside::Sink;
use qd_scheme::Scheme;
use qd_tape::{GenEnd, generate};
use qd_words::ScriptAsk;
use std::alloc::Global;

/// Prints the script that is asked for. Nothing is read.
pub fn run_script<K: Sink>(alloc: Global, ask: ScriptAsk, out: &mut K) -> RunEnd
    ensures { ScriptEnds ask result (K.written out.old) (K.written out.new) (K.flushed out.old) (K.flushed out.new) (K.faults out.old) (K.faults out.new) }
{
    let scheme = match Scheme::builtin(alloc) {
        Ok(scheme) => scheme,
        Err(_) => return RunEnd::NoMemory,
    };
    match generate(alloc, &scheme, ask.start, ask.count, out) {
        GenEnd::Done => RunEnd::Done,
        GenEnd::WriteFault => RunEnd::WriteFault,
        GenEnd::NoMemory => RunEnd::NoMemory,
    }
}
