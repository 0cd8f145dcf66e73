ghost use Rattle.std.specs.Prelude.{◌≡◌, ◌+◌, ◌-◌, ◌<◌, ◌≤◌, ◌^◌, ◌++◌, ◌∷◌, [], drop, take, length, max, vec_len, vec_capacity, IfOk, IsOk, OnOk, OnErr};

use crate::finding::{MOST, feed_at, text_len};
use std::alloc::{AllocError, Global};
use std::marker::Model;

/// How many bytes a cutter has room for from the start: those that are left where no line comes next, and a piece of
/// 64 KiB.
const ROOM: usize = MOST + 65_536;

/// Memory was refused.
pub type NoMemory = AllocError;

/// What [`LineCutter::next_line`] answers.
#[derive(Clone, Copy, Debug, PartialEq, Eq, Drop)]
pub enum Next {
    /// A line, which `text` tells.
    Line,
    /// No whole line is left: feed more.
    None,
    /// The line of this number, counted from 1, has more than 4096 bytes.
    TooLong { line: u64 },
}

/// Cuts bytes that are fed in pieces into lines.
///
/// The bytes from `start` on are left, and of these the first `searched` have no LF.
#[derive(Drop)]
pub struct LineCutter {
    bytes: Vec<u8>,
    start: usize,
    searched: usize,
    text_start: usize,
    text_len: usize,
    line: u64,
}

impl Model for LineCutter {
    ghost use Rattle.std.specs.Prelude.{drop, take};
    ghost use Rattle.qd_line.specs.Held.{Held};

    ghost Value = { Held };

    ghost use Rattle.qd_line.specs.Inside.{IsSound};

    ghost view = { λ c. record {
      text = take c.text_len (drop c.text_start c.bytes.items);
      left = drop c.start c.bytes.items;
      line = c.line;
    } };

    ghost invariant = { IsSound };
}

/// Makes room for `extra` bytes behind those from `start` on, which move to the front where they must. Tells where
/// they begin then. Memory is asked for only where they and the `extra` do not fit into the room there is, and then for
/// 8 KiB more than they need.
fn make_room(bytes: &mut Vec<u8>, start: usize, extra: usize) -> Result<usize, AllocError>
    requires { start ≤ vec_len bytes.old }
    ensures kept { IfOk result (λ at. drop at bytes.new.items ≡ drop start bytes.old.items) }
    ensures within { IfOk result (λ at. at ≤ vec_len bytes.new) }
    ensures room { OnOk result (vec_len bytes.new + extra ≤ vec_capacity bytes.new) }
    ensures fits { vec_len bytes.old - start + extra ≤ vec_capacity bytes.old → IsOk result × (vec_capacity bytes.new ≡ vec_capacity bytes.old) }
    ensures bounded { vec_capacity bytes.new ≤ max (vec_capacity bytes.old) (vec_len bytes.old - start + extra + 8192) }
    ensures grows { vec_capacity bytes.old ≤ vec_capacity bytes.new }
    ensures unchanged { OnErr result (bytes.new.items ≡ bytes.old.items) }
{
    if extra <= bytes.capacity() - bytes.len() {
        return Ok(start);
    }
    let left = bytes.len() - start;
    if extra > bytes.capacity() - left {
        bytes.reserve_exact(extra.saturating_add(2 * MOST) - start)?;
    }
    bytes.copy_within(start.., 0);
    bytes.truncate(left);
    Ok(0)
}

impl LineCutter {
    ghost use Rattle.std.specs.Prelude.{◌≡◌, ◌+◌, ◌<◌, ◌≤◌, ◌^◌, ◌++◌, [], length, IfOk, IsOk, OnOk, OnErr};
    ghost use Rattle.qd_line.specs.Held.{Held};
    ghost use Rattle.qd_line.specs.Cutter.{Answers, Past, StandsFor, TellsHungry, nothing, with_fed, with_answer};

    /// A cutter to which nothing was fed.
    pub fn new(alloc: Global) -> Result<LineCutter, NoMemory>
        ensures empty { IfOk result (λ c. c ≡ record { text = []; left = []; line = 0 }) }
        ensures stands { IfOk result (λ c. StandsFor c nothing) }
    {
        let bytes = Vec::with_capacity(alloc, ROOM)?;
        Ok(LineCutter {
            bytes,
            start: 0,
            searched: 0,
            text_start: 0,
            text_len: 0,
            line: 0,
        })
    }

    /// Takes a piece in. The line given last is told no more. Memory is wanted only where what is left and the piece have
    /// more than 4096 and 65536 bytes.
    pub fn feed(&mut self, piece: &[u8]) -> Result<(), NoMemory>
        ensures fed { OnOk result (self.new ≡ record { text = []; left = self.old.left ++ piece.now; line = self.old.line }) }
        ensures fits { length self.old.left + length piece.now ≤ 69632 → IsOk result }
        ensures unchanged { OnErr result (self.new ≡ self.old) }
        ensures stands { OnOk result ((past : Past) → StandsFor self.old past → StandsFor self.new (with_fed past piece.now)) }
    {
        self.start = make_room(&mut self.bytes, self.start, piece.len())?;
        self.bytes.extend_from_slice(piece)?;
        self.text_start = 0;
        self.text_len = 0;
        Ok(())
    }

    /// Goes on to the next line.
    pub fn next_line(&mut self) -> Next
        requires { self.old.line < 2 ^ 63 }
        ensures answer { Answers self.old self.new result }
        ensures stands { (past : Past) → StandsFor self.old past → StandsFor self.new (with_answer past result self.new.text) }
    {
        let left = &self.bytes[self.start..];
        match feed_at(left, self.searched) {
            Some(at) => {
                self.text_len = text_len(&left[..at]);
                self.text_start = self.start;
                self.start += at + 1;
                self.searched = 0;
                self.line += 1;
                Next::Line
            }
            None => {
                self.searched = left.len().min(MOST + 1);
                self.text_len = 0;
                if self.searched > MOST {
                    Next::TooLong {
                        line: self.line + 1,
                    }
                } else {
                    Next::None
                }
            }
        }
    }

    /// Whether more bytes are wanted: neither a line nor a too long one comes next. What is searched here is not searched
    /// again by [`LineCutter::next_line`].
    pub fn is_hungry(&mut self) -> bool
        ensures tells { TellsHungry result self.old.left }
        ensures same { self.new ≡ self.old }
    {
        let left = &self.bytes[self.start..];
        if let Some(at) = feed_at(left, self.searched) {
            self.searched = at;
            return false;
        }
        self.searched = left.len().min(MOST + 1);
        self.searched <= MOST
    }

    /// The bytes of the line given last, without LF and without a CR before it; none once more was fed or asked.
    pub fn text(&self) -> &[u8]
        ensures { result.now ≡ self.now.text }
    {
        &self.bytes[self.text_start..self.text_start + self.text_len]
    }

    /// The number of lines given.
    pub fn line(&self) -> u64
        ensures { result ≡ self.now.line }
    {
        self.line
    }
}
