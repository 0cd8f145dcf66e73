//! Bytes that are held back, so that they are written in large pieces.

ghost use Rattle.std.specs.Prelude.{◌≡◌, [], IfOk};
ghost use Rattle.qd_outside.specs.Buffering.{Prints, Drains};

use qd_outside::{Sink, write_all};
use std::alloc::{AllocError, Global};
use std::marker::Model;

/// How many bytes are held back before they are written.
const ROOM: usize = 131_072;

/// The bytes that were printed and not yet written, which are seen as a list. Only making it takes memory.
#[derive(Drop)]
pub struct Held {
    bytes: Vec<u8>,
}

impl Model for Held {
    ghost use Rattle.std.specs.Prelude.{ℕ, List, ◌≤◌, vec_len, vec_capacity};

    ghost Value = { List ℕ };

    ghost view = { λ h. h.bytes.items };

    ghost invariant = { λ h. (vec_len h.bytes ≤ 131072) × (131072 ≤ vec_capacity h.bytes) };
}

impl Held {
    /// Nothing is held back.
    pub fn new(alloc: Global) -> Result<Held, AllocError>
        ensures made { IfOk result (λ h. h ≡ []) }
    {
        Ok(Held {
            bytes: Vec::with_capacity(alloc, ROOM)?,
        })
    }

    /// Prints a text. Where there is no room for it, what is held back is written, and it too.
    pub fn print<K: Sink>(&mut self, sink: &mut K, text: &[u8]) -> bool
        ensures { Prints result text.now self.old self.new (K.written sink.old) (K.written sink.new) (K.faults sink.old) (K.faults sink.new) }
    {
        if text.len() <= ROOM - self.bytes.len() {
            let _ = self.bytes.extend_from_slice(text);
            return true;
        }
        self.print_through(sink, text)
    }

    /// Writes what is held back, and then the text.
    fn print_through<K: Sink>(&mut self, sink: &mut K, text: &[u8]) -> bool
        ensures { Prints result text.now self.old self.new (K.written sink.old) (K.written sink.new) (K.faults sink.old) (K.faults sink.new) }
    {
        if !write_all(sink, &self.bytes) {
            return false;
        }
        self.bytes.clear();
        if !write_all(sink, text) {
            return false;
        }
        true
    }

    /// Writes what is held back, and flushes the sink.
    pub fn drain<K: Sink>(&mut self, sink: &mut K) -> bool
        ensures { Drains result self.old self.new (K.written sink.old) (K.written sink.new) (K.flushed sink.new) (K.faults sink.old) (K.faults sink.new) }
    {
        if !write_all(sink, &self.bytes) {
            return false;
        }
        self.bytes.clear();
        sink.flush()
    }
}
