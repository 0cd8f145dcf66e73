//! Scheme files: a text of descriptions, read line by line into a scheme.

ghost use Rattle.std.specs.Prelude.{◌≡◌, ◌≤◌, ◌<◌, ◌+◌, ◌++◌, ◌∷◌, [], ◌^◌, length, take, OnOk, OnErr, IfOk, IfErr, Some, None, slice_get};
ghost use Rattle.qd_scheme.specs.Faults.{scheme_fault};
ghost use Rattle.qd_text.specs.SchemeLines.{no_lines, told, IsLineRead, IsRefusal};

use crate::reader::BadLine;
use crate::scheme_line::{Stop, scheme_line};
use qd_grammar::Fault;
use qd_scheme::{NoMemory, RecordDef, Scheme, SchemeFault, SchemeWhy};
use std::alloc::Global;
use std::marker::Model;

/// Why there is no scheme: a line that describes no record; records that are no scheme, told with the line of the record at
/// fault; or want of memory.
#[derive(Clone, Copy, Debug, PartialEq, Eq)]
pub enum SchemeEnd {
    Bad(BadLine),
    Wrong { line: u64, why: SchemeWhy },
    NoMemory,
}

/// Reads the lines of one scheme file in order.
#[derive(Drop)]
pub struct SchemeReader {
    alloc: Global,
    lines: u64,
    defs: Vec<RecordDef>,
    // The line of each record; entries past the records mean nothing.
    places: Vec<u64>,
}

impl Model for SchemeReader {
    ghost use Rattle.std.specs.Prelude.{◌≤◌, length, take};
    ghost use Rattle.qd_text.specs.SchemeLines.{SchemeText};

    ghost Value = { SchemeText };

    ghost view = { λ r. record { lines = r.lines; defs = r.defs.items; places = take (length r.defs.items) r.places.items } };

    ghost invariant = { λ r. length r.defs.items ≤ length r.places.items };
}

impl SchemeReader {
    /// Before the first line.
    pub fn new(alloc: Global) -> Result<SchemeReader, NoMemory>
        ensures { IfOk result (λ reader. reader ≡ no_lines) }
    {
        Ok(SchemeReader {
            alloc,
            lines: 0,
            defs: Vec::new(alloc),
            places: Vec::new(alloc),
        })
    }

    /// Reads a line. It is not to be called after a bad line. After `NoMemory` the reader is as it was.
    #[tactic(auto, using(crate::proofs::SchemeFields::record_said))]
    pub fn line(&mut self, text: &[u8]) -> Result<(), SchemeEnd>
        requires short { length text.now ≤ 4096 }
        requires lines { self.old.lines < 2 ^ 63 }
        ensures { IsLineRead self.old text.now result self.new }
    {
        let line = self.lines + 1;
        match scheme_line(self.alloc, text) {
            Ok(None) => {}
            Ok(Some(def)) => {
                if keep(&mut self.defs, &mut self.places, def, line).is_err() {
                    return Err(SchemeEnd::NoMemory);
                }
            }
            Err(stop) => return Err(told(line, stop)),
        }
        self.lines = line;
        Ok(())
    }

    /// The scheme of the records that were read, or the first fault of the list, told with the line of its record.
    pub fn finish(self) -> Result<Scheme, SchemeEnd>
        ensures made { IfOk result (λ scheme. scheme ≡ self.defs) }
        ensures right { OnOk result (scheme_fault self.defs ≡ None) }
        ensures refused { IfErr result (IsRefusal self) }
    {
        let SchemeReader {
            alloc,
            lines: _,
            defs,
            places,
        } = self;
        match Scheme::new(alloc, defs) {
            Ok(scheme) => Ok(scheme),
            Err(SchemeFault::NoMemory) => Err(SchemeEnd::NoMemory),
            Err(SchemeFault::Wrong { rec, why }) => {
                let line = line_of(places.as_slice(), rec);
                Err(SchemeEnd::Wrong { line, why })
            }
        }
    }
}

/// The number of the line of a record.
fn line_of(places: &[u64], rec: u32) -> u64
    requires { rec < length places.now }
    ensures { slice_get places.now rec ≡ Some result }
{
    places[rec as usize]
}

/// A line's fault, told with its number.
fn told(line: u64, stop: Stop) -> SchemeEnd
    ensures { result ≡ told line stop }
{
    match stop {
        Stop::Bad(Fault { place, why }) => SchemeEnd::Bad(BadLine { line, place, why }),
        Stop::NoMemory => SchemeEnd::NoMemory,
    }
}

/// Keeps a record and the number of its line.
#[tactic(auto, using(crate::proofs::SchemeFields::kept_places))]
fn keep(
    defs: &mut Vec<RecordDef>,
    places: &mut Vec<u64>,
    def: RecordDef,
    line: u64,
) -> Result<(), NoMemory>
    requires { length defs.old.items ≤ length places.old.items }
    ensures def { OnOk result (defs.new.items ≡ defs.old.items ++ def ∷ []) }
    ensures place { OnOk result (places.new.items ≡ take (length defs.old.items) places.old.items ++ line ∷ []) }
    ensures same_defs { OnErr result (defs.new.items ≡ defs.old.items) }
    ensures same_places { OnErr result (take (length defs.old.items) places.new.items ≡ take (length defs.old.items) places.old.items) }
    ensures enough { length defs.new.items ≤ length places.new.items }
{
    places.truncate(defs.len());
    places.push(line)?;
    defs.push(def)?;
    Ok(())
}
