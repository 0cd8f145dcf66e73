//! The items of a text, one after another.

ghost use Rattle.std.specs.Prelude.{◌≡◌, ◌≤◌, ◌<◌, ◌+◌, ◌^◌, ◌++◌, [], IfOk, Option, List, ℕ, length, take};
ghost use Rattle.qd_outside.specs.Reading.{Took, Tells, bytes_got};
ghost use Rattle.qd_items.specs.Gives.{came, step_told, told};

use crate::ends::TextEnd;
use crate::places::{Places, Way, ended};
use qd_line::LineCutter;
use qd_outside::{Read, Source};
use qd_scheme::Scheme;
use qd_text::{Item, Mode, Reader};
use std::alloc::{AllocError, Global};
use std::marker::Model;

/// How many bytes one read asks for.
const PIECE: usize = 65_536;

/// The most bytes that are read of one text.
const MOST_BYTES: u64 = 1 << 40;

/// What comes next of a text.
#[derive(Clone, Copy, Debug)]
pub enum NextItem {
    /// An item other than END.
    Item(Item),
    Ended(TextEnd),
}

/// What one step came to.
#[derive(Clone, Copy, Debug)]
pub enum Turn {
    /// Bytes were read, or a line was skipped.
    Went,
    /// An item, which [`Items::item`] tells.
    Came,
    Ended(TextEnd),
}

/// Reads the items of one text.
#[derive(Drop)]
pub struct Items {
    places: Places,
    cutter: LineCutter,
    reader: Reader,
    taken: u64,
    piece: Vec<u8>,
}

impl Model for Items {
    ghost use Rattle.std.specs.Prelude.{◌≡◌, ◌≤◌, ◌<◌, ◌+◌, ◌^◌, length, vec_len};
    ghost use Rattle.qd_items.specs.Standing.{Kept};

    ghost Value = { Kept };

    ghost view = { λ i. record {
      item = i.places;
      mode = i.reader.mode;
      state = i.reader.state;
      left = i.cutter.left;
      lines = i.cutter.line;
      taken = i.taken;
    } };

    ghost invariant = { λ i. (i.reader.lines ≡ i.cutter.line) × (i.cutter.line + length i.cutter.left ≤ i.taken)
        × (i.taken ≤ 2 ^ 40) × (0 < vec_len i.piece) × (vec_len i.piece ≤ 65536) };
}

impl Items {
    ghost use Rattle.qd_items.specs.Ends.{ComesNext};
    ghost use Rattle.qd_items.specs.Standing.{Past, IsRead, opening};
    ghost use Rattle.qd_items.specs.Steps.{Steps, TellsRead, WillRead};
    ghost use Rattle.qd_items.specs.Work.{Lowers};
    ghost use Rattle.qd_line.specs.Cutter.{IsHungry};
    ghost use Rattle.qd_scheme.specs.declared.defs.RecordDef.{RecordDef};

    /// Before the first line. All memory that the reading wants is taken here.
    pub fn new(alloc: Global, mode: Mode) -> Result<Items, AllocError>
        ensures { IfOk result (λ i. i ≡ opening mode) }
    {
        Ok(Items {
            places: Places::new(),
            cutter: LineCutter::new(alloc)?,
            reader: Reader::new(mode),
            taken: 0,
            piece: vec![in alloc; 0; PIECE]?,
        })
    }

    /// The number of lines judged.
    pub fn line(&self) -> u64
        ensures { result ≡ self.now.lines }
    {
        self.cutter.line()
    }

    /// The item that came last.
    pub fn item(&self) -> &Item
        ensures { result.now ≡ self.now.item }
    {
        self.places.item()
    }

    /// The next item, or the end. Reads as often as it must, and passes skipped lines over. After an end nothing is told
    /// of another call.
    pub fn next<S: Source>(&mut self, scheme: &Scheme, source: &mut S) -> NextItem
        ensures mode { self.new.mode ≡ self.old.mode }
        ensures kept { S.kept source.new ≡ S.kept source.old }
        ensures work { Lowers result self.old self.new }
        ensures next { (start : Option (List ℕ)) (p : Past) → IsRead scheme.now start self.old p (S.left source.old)
            → ComesNext scheme.now start p result self.new (S.left source.new) (S.faults source.old) (S.faults source.new) }
    {
        match self.advance(scheme, source) {
            None => NextItem::Item(*self.item()),
            Some(end) => NextItem::Ended(end),
        }
    }

    /// Does what [`Items::next`] does: None where an item came, which [`Items::item`] tells, else the end. The item is not
    /// copied.
    pub fn advance<S: Source>(&mut self, scheme: &Scheme, source: &mut S) -> Option<TextEnd>
        ensures mode { self.new.mode ≡ self.old.mode }
        ensures kept { S.kept source.new ≡ S.kept source.old }
        ensures work { Lowers (came result self.new.item) self.old self.new }
        ensures next { (start : Option (List ℕ)) (p : Past) → IsRead scheme.now start self.old p (S.left source.old)
            → ComesNext scheme.now start p (came result self.new.item) self.new (S.left source.new) (S.faults source.old) (S.faults source.new) }
    {
        let mut end = TextEnd::End;
        'steps: loop {
            match self.go(scheme, source, &mut end) {
                Way::Went => {}
                Way::Came => return None,
                Way::Ended => return Some(end),
            }
        }
    }

    /// Whether the next step reads: neither a whole line nor a too long one is left to be judged, and fewer than 2^40 bytes
    /// were read.
    pub fn is_hungry(&mut self) -> bool
        ensures tells { TellsRead result self.old }
        ensures same { self.new ≡ self.old }
    {
        if self.taken == MOST_BYTES {
            return false;
        }
        self.cutter.is_hungry()
    }

    /// Judges the next line, or reads once where [`Items::is_hungry`] tells so.
    pub fn step<S: Source>(&mut self, scheme: &Scheme, source: &mut S) -> Turn
        ensures mode { self.new.mode ≡ self.old.mode }
        ensures kept { S.kept source.new ≡ S.kept source.old }
        ensures quiet { (WillRead self.old → ⊥) → source.new ≡ source.old }
        ensures steps { Steps scheme.now self.old (told result self.new.item) self.new (S.left source.old) (S.left source.new) (S.faults source.old) (S.faults source.new) }
    {
        let mut end = TextEnd::End;
        match self.go(scheme, source, &mut end) {
            Way::Went => Turn::Went,
            Way::Came => Turn::Came,
            Way::Ended => Turn::Ended(end),
        }
    }

    /// The same, with the end put aside.
    #[inline]
    fn go<S: Source>(&mut self, scheme: &Scheme, source: &mut S, end: &mut TextEnd) -> Way
        ensures mode { self.new.mode ≡ self.old.mode }
        ensures kept { S.kept source.new ≡ S.kept source.old }
        ensures quiet { (WillRead self.old → ⊥) → source.new ≡ source.old }
        ensures steps { Steps scheme.now self.old (step_told result end.new self.new.item) self.new (S.left source.old) (S.left source.new) (S.faults source.old) (S.faults source.new) }
    {
        match self.cutter.next_line() {
            qd_line::Next::Line => self
                .places
                .judge(&mut self.reader, scheme, self.cutter.text(), end),
            qd_line::Next::None => self.read(source, end),
            qd_line::Next::TooLong { line } => ended(TextEnd::LineTooLong { line }, end),
        }
    }

    /// Reads once.
    #[inline(never)]
    fn read<S: Source>(&mut self, source: &mut S, end: &mut TextEnd) -> Way
        requires { IsHungry self.old.left }
        ensures mode { self.new.mode ≡ self.old.mode }
        ensures kept { S.kept source.new ≡ S.kept source.old }
        ensures quiet { self.old.taken ≡ 2 ^ 40 → source.new ≡ source.old }
        ensures reads { (defs : List RecordDef) → Steps defs self.old (step_told result end.new self.new.item) self.new (S.left source.old) (S.left source.new) (S.faults source.old) (S.faults source.new) }
    {
        if self.taken == MOST_BYTES {
            return ended(TextEnd::TooMuch, end);
        }
        let most = (MOST_BYTES - self.taken) as usize;
        match read_some(source, &mut self.piece, most) {
            Read::Got(n) => {
                feed(&mut self.cutter, &self.piece[..n]);
                self.taken += n as u64;
                Way::Went
            }
            Read::End => {
                let line = self.cutter.line();
                ended(TextEnd::CutOff { line }, end)
            }
            Read::Failed => ended(TextEnd::ReadFault, end),
        }
    }
}

/// Feeds a piece for which there is room.
fn feed(cutter: &mut LineCutter, piece: &[u8])
    requires { length cutter.old.left + length piece.now ≤ 69632 }
    ensures { cutter.new ≡ record { text = []; left = cutter.old.left ++ piece.now; line = cutter.old.line } }
{
    let _ = cutter.feed(piece);
}

/// Reads at most so many bytes, once, into the front of a piece.
fn read_some<S: Source>(source: &mut S, piece: &mut [u8], most: usize) -> Read
    requires some { 0 < most }
    requires room { 0 < length piece.old }
    ensures bytes { Took (S.left source.old) (S.left source.new) (bytes_got result piece.new) }
    ensures tells { Tells result (take most piece.new) (S.left source.new) (S.faults source.old) (S.faults source.new) }
    ensures kept { S.kept source.new ≡ S.kept source.old }
{
    let room = most.min(piece.len());
    source.read(&mut piece[..room])
}
