//! The lines on links that ran.

ghost use Rattle.std.specs.Prelude.{◌≡◌, ◌≤◌, ◌+◌, ◌++◌, [], true, length};
ghost use Rattle.std.specs.Fmt.{decimal};
ghost use Rattle.qd_outside.specs.Writing.{Writes};
ghost use Rattle.qd_serve.specs.Printing.{told_line, told_text};

use crate::ends::Told;
use crate::names::{in_name, out_name};
use itoa::Buffer;
use qd_decimal::Line;
use qd_outside::{Sink, write_all};

/// Writes a line for each link, in order, and flushes the sink.
pub fn print_told<K: Sink>(told: &Vec<Told>, out: &mut K) -> bool
    ensures lines { Writes result (told_text told.now.items) (K.written out.old) (K.written out.new) (K.faults out.old) (K.faults out.new) }
    ensures flushed { result ≡ true → K.flushed out.new ≡ true }
{
    write_lines(told.as_slice(), out) && out.flush()
}

fn write_lines<K: Sink>(told: &[Told], out: &mut K) -> bool
    ensures { Writes result (told_text told.now) (K.written out.old) (K.written out.new) (K.faults out.old) (K.faults out.new) }
{
    for link in told {
        if !write_line(*link, out) {
            return false;
        }
    }
    true
}

/// The line is made first and is written at once.
fn write_line<K: Sink>(link: Told, out: &mut K) -> bool
    ensures { Writes result (told_line link) (K.written out.old) (K.written out.new) (K.faults out.old) (K.faults out.new) }
{
    let mut line = Line::new();
    put_link(link, &mut line);
    write_all(out, line.bytes())
}

fn put_link(link: Told, line: &mut Line)
    requires { line.old ≡ [] }
    ensures { line.new ≡ told_line link }
{
    put("link ", line);
    put_number(link.link, line);
    put(" in ", line);
    put(in_name(link.in_end), line);
    put(" out ", line);
    put(out_name(link.out_end), line);
    put("\n", line);
}

/// Appends a piece, for which there is room.
fn put(piece: &str, line: &mut Line)
    requires { length line.old + length piece.now ≤ 4096 }
    ensures piece { line.new ≡ line.old ++ piece.now }
    ensures len { length line.new ≡ length line.old + length piece.now }
{
    let _ = line.append(piece.as_bytes());
}

/// Appends a number.
fn put_number(n: u8, line: &mut Line)
    requires { length line.old + 40 ≤ 4096 }
    ensures number { line.new ≡ line.old ++ decimal n }
    ensures len { length line.new ≤ length line.old + 40 }
{
    let mut digits = Buffer::new();
    put(digits.format(n), line);
}
