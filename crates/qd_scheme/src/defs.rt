//! What a scheme says of a record: its name, whether it is a history record, and its fields.
ghost use Rattle.std.specs.Prelude.{◌≡◌, ◌∷◌, ◌++◌, [], is_ok, if◌then◌else◌};

use crate::NoMemory;
use crate::names::Name;
use std::alloc::Global;
use std::marker::Model;

/// A whole number, or a decimal one that is kept as its multiple of 10^-scale.
#[derive(Clone, Copy, Debug, PartialEq, Eq, Drop)]
pub enum FieldKind {
    Int,
    Dec(u8),
}

/// The name of a field, and what kind of number it is.
#[derive(Drop)]
pub struct FieldDef {
    pub name: Name,
    pub kind: FieldKind,
}

/// The fields of a record, in order.
#[derive(Drop)]
pub struct Fields {
    items: Vec<FieldDef>,
}

impl Model for Fields {
    ghost use Rattle.std.specs.Prelude.{List};
    ghost use Rattle.qd_scheme.specs.declared.defs.FieldDef.{FieldDef};

    ghost Value = { List FieldDef };

    ghost view = { λ f. f.items.items };
}

impl Fields {
    /// No fields.
    pub fn new(alloc: Global) -> Fields
        ensures { result ≡ [] }
    {
        Fields {
            items: Vec::new(alloc),
        }
    }

    /// One more field at the end. After `NoMemory` the list is as it was, and `def` is dropped.
    pub fn push(&mut self, def: FieldDef) -> Result<(), NoMemory>
        ensures { self.new ≡ (if is_ok result then self.old ++ def ∷ [] else self.old) }
    {
        self.items.push(def)?;
        Ok(())
    }

    /// The fields, in the order of a record's cells.
    pub fn as_slice(&self) -> &[FieldDef]
        ensures { result.now ≡ self.now }
    {
        self.items.as_slice()
    }
}

/// A record's name, whether the history takes it, and its fields.
#[derive(Drop)]
pub struct RecordDef {
    pub name: Name,
    pub hist: bool,
    pub fields: Fields,
}
