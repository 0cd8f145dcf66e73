//! The generated script, written to a sink.

ghost use Rattle.std.specs.Prelude.{◌≡◌};
ghost use Rattle.qd_scheme.specs.Builtin.{builtin_defs};
ghost use Rattle.qd_tape.specs.Scripts.{generated};
ghost use Rattle.qd_tape.specs.Writing.{Generates};

use crate::script::Script;
use qd_decimal::Line;
use qd_outside::{OutBuffer, Sink};
use qd_scheme::Scheme;
use std::alloc::Global;

/// How the writing of a script ends.
#[derive(Clone, Copy)]
pub enum GenEnd {
    Done,
    WriteFault,
    NoMemory,
}

/// Writes the script that a start and a count of items give, in large pieces, and flushes the sink. The memory that it takes
/// does not grow with the count, and where there is none it writes block by block: want of memory is no end of it.
pub fn generate<K: Sink>(
    alloc: Global,
    scheme: &Scheme,
    start: u32,
    count: u32,
    sink: &mut K,
) -> GenEnd
    requires scheme { scheme.now ≡ builtin_defs }
    ensures { Generates result (generated start count) (K.written sink.old) (K.written sink.new) (K.flushed sink.new) (K.faults sink.old) (K.faults sink.new) }
{
    let mut out = OutBuffer::new(alloc);
    let mut script = Script::new(start, count);
    let mut lines = Line::new();
    while script.next_block(scheme, &mut lines) {
        if !out.print(sink, lines.bytes()) {
            return GenEnd::WriteFault;
        }
    }
    if !out.drain(sink) {
        return GenEnd::WriteFault;
    }
    GenEnd::Done
}
