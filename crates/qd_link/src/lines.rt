//! A line by itself.

ghost use Rattle.std.specs.Prelude.{◌≡◌, true};
ghost use Rattle.qd_outside.specs.Writing.{Writes};
ghost use Rattle.qd_path.specs.Texts.{line_of};

use qd_decimal::Line;
use qd_grammar::Item;
use qd_outside::{Sink, write_all};
use qd_scheme::Scheme;
use qd_text::write_item;

/// The canonical line of an item, in place of what the line had.
fn fill_line(scheme: &Scheme, item: &Item, line: &mut Line)
    ensures { line.new ≡ line_of scheme.now item.now }
{
    line.clear();
    let _ = write_item(scheme, item, line);
    let _ = line.push(b'\n');
}

/// Writes the canonical line of an item, and flushes the sink.
pub fn write_line<K: Sink>(scheme: &Scheme, item: &Item, sink: &mut K) -> bool
    ensures written { Writes result (line_of scheme.now item.now) (K.written sink.old) (K.written sink.new) (K.faults sink.old) (K.faults sink.new) }
    ensures flushed { result ≡ true → K.flushed sink.new ≡ true }
{
    let mut line = Line::new();
    fill_line(scheme, item, &mut line);
    if !write_all(sink, line.bytes()) {
        return false;
    }
    sink.flush()
}
