//! The generated script as a source.

ghost use Rattle.std.specs.Prelude.{◌≡◌, ◌≤◌, ◌<◌, ◌+◌, ◌-◌, ◌++◌, [], true, false, Some, length, take, drop, min};
ghost use Rattle.qd_scheme.specs.Builtin.{builtin_defs};
ghost use Rattle.qd_tape.specs.Scripts.{generated, source_left};

use crate::script::Script;
use qd_decimal::Line;
use qd_outside::{Read, Source};
use qd_scheme::Scheme;

/// The text of a script, which is made while it is read: no more of it is kept than one item with its head.
#[derive(Drop)]
pub struct ScriptSource<'a> {
    scheme: &'a Scheme,
    script: Script,
    lines: Line,
    at: usize,
    ghost builtin: { scheme.now ≡ builtin_defs },
}

impl<'a> ScriptSource<'a> {
    /// The script that a start and a count of items give, of which nothing is read.
    pub fn new(scheme: &'a Scheme, start: u32, count: u32) -> ScriptSource<'a>
        requires scheme { scheme.now ≡ builtin_defs }
        ensures left { ⟦<ScriptSource<'a> as Source>⟧.left result ≡ Some (generated start count) }
        ensures faults { ⟦<ScriptSource<'a> as Source>⟧.faults result ≡ 0 }
    {
        ScriptSource {
            scheme,
            script: Script::new(start, count),
            lines: Line::new(),
            at: 0,
        }
    }

    /// Whether a byte is left. Where all lines were given, the next block is made.
    fn has_more(&mut self) -> bool
        ensures same { source_left self.new.lines self.new.at self.new.script ≡ source_left self.old.lines self.old.at self.old.script }
        ensures some { result ≡ true → self.new.at < length self.new.lines }
        ensures none { result ≡ false → source_left self.new.lines self.new.at self.new.script ≡ [] }
    {
        if self.at < self.lines.len() {
            return true;
        }
        self.at = 0;
        self.script.next_block(self.scheme, &mut self.lines)
    }

    /// Gives bytes from a place of the buffer on, as many as there is room for. Tells how many.
    fn give(&mut self, buf: &mut [u8], filled: usize) -> usize
        requires more { self.old.at < length self.old.lines }
        requires room { filled < length buf.old }
        ensures some { 0 < result }
        ensures within { filled + result ≤ length buf.new }
        ensures given { take (filled + result) buf.new ++ source_left self.new.lines self.new.at self.new.script ≡ take filled buf.old ++ source_left self.old.lines self.old.at self.old.script }
    {
        let n = copy_to(self.lines.bytes(), self.at, buf, filled);
        self.at += n;
        n
    }
}

impl<'a> Source for ScriptSource<'a> {
    ghost use Rattle.std.specs.Prelude.{Some};
    ghost use Rattle.qd_tape.specs.Scripts.{source_left};

    ghost left = { λ s. Some (source_left s.lines s.at s.script) };

    ghost faults = { λ s. 0 };

    ghost Kept = { Unit {0} };

    ghost kept = { λ _. tt };

    fn read(&mut self, buf: &mut [u8]) -> Read {
        let mut filled = 0;
        while filled < buf.len() && self.has_more() {
            filled += self.give(buf, filled);
        }
        if filled == 0 {
            return Read::End;
        }
        Read::Got(filled)
    }
}

/// Copies the bytes from a place on into a buffer from a place on, as many as there is room for. Tells how many.
fn copy_to(bytes: &[u8], from: usize, buf: &mut [u8], at: usize) -> usize
    requires from { from ≤ length bytes.now }
    requires at { at ≤ length buf.old }
    ensures count { result ≡ min (length bytes.now - from) (length buf.old - at) }
    ensures copied { take (at + result) buf.new ++ drop (from + result) bytes.now ≡ take at buf.old ++ drop from bytes.now }
{
    let n = (bytes.len() - from).min(buf.len() - at);
    buf[at..at + n].copy_from_slice(&bytes[from..from + n]);
    n
}
