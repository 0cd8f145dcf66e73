//! The end of a run.

ghost use Rattle.qd_check.specs.Counting.{Finishes};

use qd_items::{RunEnd, TextEnd};
use qd_outside::{OutBuffer, Sink};

/// Writes all that is held back. A run that ends well but for this ends with a fault of writing.
pub fn finish<K: Sink>(out: &mut OutBuffer, sink: &mut K, end: TextEnd) -> RunEnd
    ensures { Finishes end result out.old (K.written sink.old) (K.written sink.new) (K.flushed sink.new) (K.faults sink.old) (K.faults sink.new) }
{
    if !out.drain(sink) {
        return RunEnd::WriteFault;
    }
    end.run_end()
}
