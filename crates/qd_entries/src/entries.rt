//! Entries in falling order of index.
ghost use Rattle.std.specs.Prelude.{◌≡◌, ◌+◌, ◌^◌, ◌<◌, ◌≤◌, ◌↔◌, [], length, max, slice_get, OnOk, OnErr, IsTrue};
ghost use Rattle.qd_entries.specs.Entries.{Falls, cells_at, entry_at_or_below, put_entry, without_index};

use crate::Entry;
use crate::stock::Stock;
use crate::tree::Tree;
use qd_scheme::Cells;
use std::alloc::{AllocError, Global};
use std::marker::Model;
use std::mem;

/// Entries in falling order of index, with room for `spare` new ones in which no memory is taken.
///
/// Each call but `reserve` costs at most the logarithm of how many entries there are; `len`, `spare` and `clear` cost the same at any size.
// The room is made of whole nodes: `reserve` makes them, a new index takes one, and an index that is removed gives it back.
#[derive(Drop)]
pub struct Entries {
    tree: Tree,
    stock: Stock,
}

impl Model for Entries {
    ghost use Rattle.qd_entries.specs.Kept.{Kept};

    ghost Value = { Kept };

    ghost use Rattle.qd_entries.specs.Keeping.{kept, IsKept};

    ghost view = { kept };

    ghost invariant = { IsKept };
}

impl Entries {
    /// No entries, and no room.
    pub fn new(alloc: Global) -> Entries
        ensures { result ≡ record { entries = []; spare = 0 } }
    {
        Entries {
            tree: Tree::new(),
            stock: Stock::new(alloc),
        }
    }

    /// How many entries there are.
    pub fn len(&self) -> u32
        ensures len { result ≡ length self.now.entries }
        ensures falls { Falls self.now.entries }
        ensures few { length self.now.entries + self.now.spare < 2 ^ 32 }
    {
        self.tree.len() as u32
    }

    /// Whether there are no entries.
    pub fn is_empty(&self) -> bool
        ensures { IsTrue result ↔ (self.now.entries ≡ []) }
    {
        self.tree.is_empty()
    }

    /// How many new entries there is room for.
    pub fn spare(&self) -> u32
        ensures { result ≡ self.now.spare }
    {
        self.stock.spare() as u32
    }

    /// The cells at an index.
    pub fn get(&self, index: u64) -> Option<Cells>
        ensures { result ≡ cells_at self.now.entries index }
    {
        self.tree.get(index)
    }

    /// The entry at a place in falling order of index, from 0.
    pub fn nth(&self, place: usize) -> Option<Entry>
        ensures { result ≡ slice_get self.now.entries place }
    {
        self.tree.nth(place as u64)
    }

    /// The entry with the greatest index at or below this one.
    pub fn at_or_below(&self, index: u64) -> Option<Entry>
        ensures { result ≡ entry_at_or_below index self.now.entries }
    {
        self.tree.at_or_below(index).copied()
    }

    /// Makes room for so many new entries. After want of memory there may be more room than before.
    pub fn reserve(&mut self, entries: u32) -> Result<(), AllocError>
        ensures ok { OnOk result (entries ≤ self.new.spare) }
        ensures wants { OnErr result (self.old.spare < entries) }
        ensures entries { self.new.entries ≡ self.old.entries }
        ensures spare { self.old.spare ≤ self.new.spare }
        ensures most { self.new.spare ≤ max self.old.spare entries }
    {
        self.stock.fill(self.tree.len(), u64::from(entries))
    }

    /// Sets the cells at an index.
    pub fn put(&mut self, entry: &Entry)
        requires { 0 < self.old.spare }
        ensures entries { self.new.entries ≡ put_entry entry.now self.old.entries }
        ensures least { self.old.spare ≤ self.new.spare + 1 }
        ensures spare { self.new.spare + length self.new.entries ≡ self.old.spare + length self.old.entries }
    {
        self.tree.put(&mut self.stock, entry);
    }

    /// Takes the entry at an index out, if there is one.
    pub fn remove(&mut self, index: u64)
        ensures entries { self.new.entries ≡ without_index index self.old.entries }
        ensures least { self.old.spare ≤ self.new.spare }
        ensures spare { self.new.spare + length self.new.entries ≡ self.old.spare + length self.old.entries }
    {
        self.tree.remove(&mut self.stock, index);
    }

    /// Takes all entries out.
    pub fn clear(&mut self)
        ensures entries { self.new.entries ≡ [] }
        ensures spare { self.new.spare ≡ self.old.spare + length self.old.entries }
    {
        let tree = mem::replace(&mut self.tree, Tree::new());
        self.stock.keep(tree);
    }
}
