//! Nodes in stock: what an ordered list puts new entries into, so that it takes no memory then.
ghost use Rattle.std.specs.Prelude.{◌≡◌, ◌+◌, ◌^◌, ◌<◌, ◌≤◌, [], length, max, OnOk, OnErr};
ghost use Rattle.qd_entries.specs.Nodes.{node_count};

use crate::tree::{Link, Node, Tree};
use std::alloc::{AllocError, Global};
use std::marker::Model;
use std::mem;

/// Nodes to take from: `spare` of them, with room for `room` in all.
// A node may have a tree below it, so that a whole tree is given back at once; its trees are handed on as it is taken.
#[derive(Drop)]
pub struct Stock {
    nodes: Vec<Box<Node>>,
    spare: u64,
    room: u64,
}

impl Model for Stock {
    ghost use Rattle.qd_entries.specs.Stocked.{Stocked};

    ghost Value = { Stocked };

    ghost use Rattle.qd_entries.specs.Stocks.{stocked, IsCounted};

    ghost view = { stocked };

    ghost invariant = { IsCounted };
}

impl Stock {
    /// No nodes.
    pub fn new(alloc: Global) -> Stock
        ensures { result ≡ record { spare = 0; room = 0 } }
    {
        Stock {
            nodes: Vec::new(alloc),
            spare: 0,
            room: 0,
        }
    }

    /// How many nodes it can hold: those that are there, and those that are in use and may come back.
    pub fn room(&self) -> u64
        ensures room { result ≡ self.now.room }
        ensures few { self.now.room < 2 ^ 32 }
        ensures within { self.now.spare ≤ self.now.room }
    {
        self.room
    }

    /// How many nodes there are to take.
    pub fn spare(&self) -> u64
        ensures { result ≡ self.now.spare }
    {
        self.spare
    }

    /// Puts a tree below a node into the stock.
    pub fn keep(&mut self, tree: Tree)
        requires { self.old.spare + length tree ≤ self.old.room }
        ensures spare { self.new.spare ≡ self.old.spare + length tree }
        ensures room { self.new.room ≡ self.old.room }
    {
        match tree.into_link() {
            Link::Leaf => (),
            Link::Fork(node) => self.give(node),
        }
    }

    /// Puts a node and what is below it into the stock.
    pub fn give(&mut self, node: Box<Node>)
        requires { self.old.spare + node_count node.value ≤ self.old.room }
        ensures spare { self.new.spare ≡ self.old.spare + node_count node.value }
        ensures room { self.new.room ≡ self.old.room }
    {
        self.spare = self.spare + node.before.len() + node.after.len() + 1;
        let _ = self.nodes.push(node);
    }

    /// Makes the room at least this. A room of 2^32 or more is refused, like want of memory.
    fn widen(&mut self, room: u64) -> Result<(), AllocError>
        ensures ok { OnOk result (room ≤ self.new.room) }
        ensures wants { OnErr result (self.old.room < room) }
        ensures spare { self.new.spare ≡ self.old.spare }
        ensures room { self.old.room ≤ self.new.room }
        ensures few { self.new.room < 2 ^ 32 }
    {
        if room <= self.room {
            return Ok(());
        }
        if room >= 1 << 32 {
            return Err(AllocError);
        }
        let held = self.nodes.len();
        if (room as usize) > held {
            self.nodes.reserve(room as usize - held)?;
        }
        self.room = room;
        Ok(())
    }

    /// Makes a new node.
    fn add(&mut self) -> Result<(), AllocError>
        requires { self.old.spare < self.old.room }
        ensures ok { OnOk result (self.new.spare ≡ self.old.spare + 1) }
        ensures err { OnErr result (self.new ≡ self.old) }
        ensures room { self.new.room ≡ self.old.room }
    {
        let alloc = *self.nodes.allocator();
        let node = Box::new(alloc, Node::new())?;
        self.give(node);
        Ok(())
    }

    /// Makes new nodes until so many are spare, with room for those that are in use too.
    pub fn fill(&mut self, used: u64, spare: u64) -> Result<(), AllocError>
        requires used { self.old.spare + used ≤ self.old.room }
        requires few { spare < 2 ^ 32 }
        ensures ok { OnOk result (spare ≤ self.new.spare) }
        ensures wants { OnErr result (self.old.spare < spare) }
        ensures spare { self.old.spare ≤ self.new.spare }
        ensures most { self.new.spare ≤ max self.old.spare spare }
        ensures room { self.new.spare + used ≤ self.new.room }
        ensures few { self.new.room < 2 ^ 32 }
    {
        if spare <= self.spare {
            return Ok(());
        }
        self.widen(used + spare)?;
        while self.spare() < spare {
            self.add()?;
        }
        Ok(())
    }

    /// Takes a node with nothing below it.
    pub fn take(&mut self) -> Box<Node>
        requires { 0 < self.old.spare }
        ensures before { result.value.before ≡ [] }
        ensures after { result.value.after ≡ [] }
        ensures spare { self.new.spare + 1 ≡ self.old.spare }
        ensures room { self.new.room ≡ self.old.room }
    {
        match self.nodes.pop() {
            None => unreachable!(),
            Some(mut node) => {
                let before = mem::replace(&mut node.before, Tree::new());
                let after = mem::replace(&mut node.after, Tree::new());
                self.spare -= before.len() + after.len() + 1;
                self.keep(before);
                self.keep(after);
                node
            }
        }
    }
}
