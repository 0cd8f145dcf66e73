//! Lines of items.

ghost use Rattle.std.specs.Prelude.{◌≡◌, ◌≤◌, ◌+◌, ◌++◌, ◌∷◌, length};
ghost use Rattle.qd_outside.specs.Buffering.{Prints};
ghost use Rattle.qd_path.specs.Texts.{line_of};

use qd_decimal::Line;
use qd_outside::{OutBuffer, Sink};
use qd_scheme::Scheme;
use qd_text::{Item, write_item};

/// Puts the canonical line of an item behind what a line has.
pub(crate) fn add_line(scheme: &Scheme, item: &Item, line: &mut Line)
    requires { length line.old ≤ 3000 }
    ensures line { line.new ≡ line.old ++ line_of scheme.now item.now }
    ensures short { length line.new ≤ length line.old + 1001 }
{
    write_item(scheme, item, line);
    line.push(b'\n');
}

/// Prints the canonical line of an item.
pub(crate) fn say<K: Sink>(
    scheme: &Scheme,
    item: &Item,
    line: &mut Line,
    out: &mut OutBuffer,
    sink: &mut K,
) -> bool
    ensures { Prints result (line_of scheme.now item.now) out.old out.new (K.written sink.old) (K.written sink.new) (K.faults sink.old) (K.faults sink.new) }
{
    line.clear();
    add_line(scheme, item, line);
    out.print(sink, line.bytes())
}
