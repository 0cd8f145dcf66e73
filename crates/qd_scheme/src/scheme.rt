//! Schemes: the records that a text may name, by number.
ghost use Rattle.std.specs.Prelude.{◌≡◌, ◌≤◌, ◌<◌, length, map, None, IfOk, IfErr, IfSome, slice_get};
ghost use Rattle.std.specs.Option.{option_copied};
ghost use Rattle.qd_scheme.specs.Faults.{scheme_fault, IsFaultOf};
ghost use Rattle.qd_scheme.specs.Finding.{number_of_record, name_code};
ghost use Rattle.qd_scheme.specs.Names.{name_eq};
ghost use Rattle.qd_scheme.specs.Schemes.{IsScheme};

use crate::NoMemory;
use crate::defs::RecordDef;
use crate::faults::SchemeFault;
use crate::judge::scheme_fault;
use std::alloc::Global;
use std::hash::{FoldHasher, Hasher};
use std::marker::Model;

/// The records that a text may name, in order: at most 64, with names of their own. A record's number is its place from 0.
///
/// `codes` has a number for each name, so that `find` compares a name only with those that have its number.
#[derive(Drop)]
pub struct Scheme {
    defs: Vec<RecordDef>,
    codes: Vec<u64>,
}

impl Model for Scheme {
    ghost use Rattle.std.specs.Prelude.{◌≡◌, List, map};
    ghost use Rattle.qd_scheme.specs.declared.defs.RecordDef.{RecordDef};
    ghost use Rattle.qd_scheme.specs.Schemes.{IsScheme};
    ghost use Rattle.qd_scheme.specs.Finding.{name_code};

    ghost Value = { List RecordDef };

    ghost view = { λ s. s.defs.items };

    ghost invariant = { λ s. (s.codes.items ≡ map (λ def. name_code def.name) s.defs.items) × (IsScheme s.defs.items) };
}

impl Scheme {
    /// The scheme of these records, or the first record that is wrong with the first rule that it breaks.
    pub fn new(alloc: Global, defs: Vec<RecordDef>) -> Result<Scheme, SchemeFault>
        ensures made { IfOk result (λ scheme. (scheme ≡ defs.items) × (scheme_fault defs.items ≡ None)) }
        ensures refused { IfErr result (IsFaultOf defs.items) }
    {
        if let Some(fault) = scheme_fault(defs.as_slice()) {
            return Err(fault);
        }
        match codes_of(alloc, defs.as_slice()) {
            Ok(codes) => Ok(Scheme { defs, codes }),
            Err(_) => Err(SchemeFault::NoMemory),
        }
    }

    /// The number of the record of a name.
    pub fn find(&self, name: &[u8]) -> Option<u32>
        ensures number { result ≡ number_of_record name.now self.now }
        ensures within { IfSome result (λ rec. rec < length self.now) }
    {
        number_of_record(self.defs.as_slice(), self.codes.as_slice(), name)
    }

    /// The record of a number, from 0 in the order of the list.
    pub fn def(&self, rec: u32) -> Option<&RecordDef>
        ensures def { option_copied result ≡ slice_get self.now rec }
        ensures scheme { IsScheme self.now }
    {
        self.defs.as_slice().get(rec as usize)
    }

    /// How many records there are, at most 64.
    pub fn len(&self) -> u32
        ensures len { result ≡ length self.now }
        ensures scheme { IsScheme self.now }
    {
        self.defs.len() as u32
    }
}

#[tactic(auto, unfolding(crate::specs::Finding::name_code))]
fn name_code(name: &[u8]) -> u64
    ensures { result ≡ name_code name.now }
{
    let mut hasher = FoldHasher::default();
    hasher.write(name);
    hasher.finish()
}

fn codes_of(alloc: Global, defs: &[RecordDef]) -> Result<Vec<u64>, NoMemory>
    ensures { IfOk result (λ codes. codes.items ≡ map (λ def. name_code def.name) defs.now) }
{
    let mut codes = Vec::with_capacity(alloc, defs.len())?;
    for def in defs {
        codes.push(name_code(def.name.bytes()))?;
    }
    Ok(codes)
}

fn number_of_record(defs: &[RecordDef], codes: &[u64], name: &[u8]) -> Option<u32>
    requires codes { codes.now ≡ map (λ def. name_code def.name) defs.now }
    requires few { length defs.now ≤ 64 }
    ensures number { result ≡ number_of_record name.now defs.now }
    ensures within { IfSome result (λ rec. rec < length defs.now) }
{
    let wanted = name_code(name);
    for (i, code) in codes.iter().enumerate() {
        if is_named(&defs[i], *code, name, wanted) {
            return Some(i as u32);
        }
    }
    None
}

/// Whether a record has the name. The names are compared only where their codes are the same.
fn is_named(def: &RecordDef, code: u64, name: &[u8], wanted: u64) -> bool
    requires code { code ≡ name_code def.now.name }
    requires wanted { wanted ≡ name_code name.now }
    ensures { result ≡ name_eq def.now.name name.now }
{
    code == wanted && def.name.bytes() == name
}
