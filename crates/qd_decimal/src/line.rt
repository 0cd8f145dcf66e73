ghost use Rattle.std.specs.Prelude.{◌≡◌, ◌≤◌, ◌<◌, ◌+◌, ◌++◌, ◌∷◌, [], ◌-◌, length, take, drop, nat_lt, nat_le, if◌then◌else◌, IsTrue, ◌↔◌};

use std::marker::Model;

/// A text of at most 4096 bytes, all of them inside: it takes no memory, and is passed by reference.
#[derive(Drop)]
pub struct Line {
    len: usize,
    bytes: [u8; 4096],
}

impl Model for Line {
    ghost use Rattle.std.specs.Prelude.{ℕ, List, take, ◌≤◌};

    ghost Value = { List ℕ };

    ghost view = { λ l. take l.len l.bytes };

    ghost invariant = { λ l. l.len ≤ 4096 };
}

impl Line {
    /// No bytes yet; room for 4096.
    pub fn new() -> Line
        ensures { result ≡ [] }
    {
        Line {
            len: 0,
            bytes: [0; 4096],
        }
    }

    /// Appends a byte, unless there is no room.
    pub fn push(&mut self, byte: u8) -> bool
        ensures room { result ≡ nat_lt (length self.old) 4096 }
        ensures pushed { self.new ≡ (if result then self.old ++ byte ∷ [] else self.old) }
    {
        if self.len == 4096 {
            return false;
        }
        self.bytes[self.len] = byte;
        self.len += 1;
        true
    }

    /// How many bytes it has.
    pub fn len(&self) -> usize
        ensures { result ≡ length self.now }
    {
        self.len
    }

    /// Its bytes, in order.
    pub fn bytes(&self) -> &[u8]
        ensures { result.now ≡ self.now }
    {
        &self.bytes[..self.len]
    }

    /// Takes all bytes out; the room stays.
    pub fn clear(&mut self)
        ensures { self.new ≡ [] }
    {
        self.len = 0;
    }

    /// Appends bytes, unless there is too little room.
    pub fn append(&mut self, piece: &[u8]) -> bool
        ensures room { result ≡ nat_le (length self.old + length piece.now) 4096 }
        ensures appended { self.new ≡ (if result then self.old ++ piece.now else self.old) }
    {
        if piece.len() > 4096 - self.len {
            return false;
        }
        let end = self.len + piece.len();
        self.bytes[self.len..end].copy_from_slice(piece);
        self.len = end;
        true
    }

    /// Appends what stands in a buffer from `start` up to its middle, unless there is too little room. Where there is room for
    /// any, half a buffer is copied at once; what is too much lies behind the line's end.
    #[inline(always)]
    pub(crate) fn append_short(&mut self, buffer: &[u8; 64], start: usize) -> bool
        requires { start ≤ 32 }
        ensures room { result ≡ nat_le (length self.old + (32 - start)) 4096 }
        ensures appended { self.new ≡ (if result then self.old ++ take (32 - start) (drop start buffer.now) else self.old) }
    {
        if self.len > 4064 {
            return self.append_aside(buffer, start);
        }
        let end = self.len + 32;
        self.bytes[self.len..end].copy_from_slice(&buffer[start..start + 32]);
        self.len = end - start;
        true
    }

    /// The same, where the room may be too small.
    #[inline(never)]
    fn append_aside(&mut self, buffer: &[u8; 64], start: usize) -> bool
        requires { start ≤ 32 }
        ensures room { result ≡ nat_le (length self.old + (32 - start)) 4096 }
        ensures appended { self.new ≡ (if result then self.old ++ take (32 - start) (drop start buffer.now) else self.old) }
    {
        self.append(&buffer[start..32])
    }
}
