//! A tree of entries, balanced by how many entries each side has.
ghost use Rattle.std.specs.Prelude.{◌≡◌, ◌+◌, ◌*◌, ◌^◌, ◌<◌, ◌≤◌, ◌↔◌, [], ◌∷◌, ◌++◌, length, slice_get, option_map, IsTrue};
ghost use Rattle.qd_entries.specs.Nodes.{entries_of, entries_of_node};
ghost use Rattle.qd_entries.specs.Balance.{IsBalanced, IsNear};
ghost use Rattle.qd_entries.specs.Entries.{Falls, cells_at, entry_at_or_below, put_entry, without_index};
ghost use Rattle.qd_entries.specs.Nodes.{TakesFirst};

use crate::Entry;
use crate::stock::Stock;
use qd_scheme::Cells;
use std::marker::Model;
use std::mem;

/// A balanced tree, seen as its entries in order.
// Each side weighs at most three times the other, so that the depth is at most a multiple of the logarithm.
#[cycle(tree)]
#[derive(Drop)]
pub struct Tree {
    link: Link,
}

/// No entry, or the node on top.
#[cycle(tree)]
#[derive(Drop)]
pub enum Link {
    Leaf,
    Fork(Box<Node>),
}

/// One entry between the entries before it and those after it. `len` counts all of them while the node is in a tree.
#[cycle(tree)]
#[derive(Drop)]
pub struct Node {
    pub before: Tree,
    pub entry: Entry,
    pub after: Tree,
    pub len: u64,
}

impl Model for Tree {
    ghost use Rattle.std.specs.Prelude.{List, length};
    ghost use Rattle.qd_entries.specs.declared.Entry.{Entry};

    ghost Value = { List Entry };

    ghost use Rattle.qd_entries.specs.Nodes.{entries_of, IsTree};

    ghost view = { λ a. entries_of a.link };

    ghost invariant = { λ a. IsTree a.link };

    ghost size = { length };

    ghost use Rattle.qd_entries.specs.Depth.{depth-le-length};

    ghost size_decreases = { λ a h. depth-le-length a.link };
}

impl Node {
    /// A node that is in no tree.
    pub fn new() -> Node
        ensures before { result.before ≡ [] }
        ensures after { result.after ≡ [] }
    {
        Node {
            before: Tree::new(),
            entry: Entry {
                index: 0,
                cells: Cells::new(),
            },
            after: Tree::new(),
            len: 1,
        }
    }
}

impl Tree {
    /// No entries.
    pub fn new() -> Tree
        ensures { result ≡ [] }
    {
        Tree { link: Link::Leaf }
    }

    /// How many entries there are.
    pub fn len(&self) -> u64
        ensures { result ≡ length self.now }
    {
        match &self.link {
            Link::Leaf => 0,
            Link::Fork(node) => node.len,
        }
    }

    /// Whether there is no entry.
    pub fn is_empty(&self) -> bool
        ensures { IsTrue result ↔ (self.now ≡ []) }
    {
        matches!(self.link, Link::Leaf)
    }

    /// The node on top, with the trees below it.
    pub fn into_link(self) -> Link
        ensures entries { entries_of result ≡ self }
    {
        self.link
    }

    /// The cells at an index.
    pub fn get(&self, index: u64) -> Option<Cells>
        ensures { Falls self.now → result ≡ cells_at self.now index }
    {
        match &self.link {
            Link::Leaf => None,
            Link::Fork(node) => {
                let node: &Node = node;
                if index == node.entry.index {
                    Some(node.entry.cells)
                } else if index < node.entry.index {
                    node.after.get(index)
                } else {
                    node.before.get(index)
                }
            }
        }
    }

    /// The entry with the greatest index at or below this one. It is lent, since a copy at each level would cost more than
    /// the search.
    pub fn at_or_below(&self, index: u64) -> Option<&Entry>
        ensures { Falls self.now → option_map (λ e. e.now) result ≡ entry_at_or_below index self.now }
    {
        match &self.link {
            Link::Leaf => None,
            Link::Fork(node) => {
                let node: &Node = node;
                if index < node.entry.index {
                    return node.after.at_or_below(index);
                }
                match node.before.at_or_below(index) {
                    Some(entry) => Some(entry),
                    None => Some(&node.entry),
                }
            }
        }
    }

    /// The entry at a place in the order.
    pub fn nth(&self, place: u64) -> Option<Entry>
        ensures { result ≡ slice_get self.now place }
    {
        match &self.link {
            Link::Leaf => None,
            Link::Fork(node) => {
                let node: &Node = node;
                let before = node.before.len();
                if place < before {
                    node.before.nth(place)
                } else if place == before {
                    Some(node.entry)
                } else {
                    node.after.nth(place - before - 1)
                }
            }
        }
    }

    /// Puts an entry in its place, in a node of the stock where its index is new.
    pub fn put(&mut self, stock: &mut Stock, entry: &Entry)
        requires few { length self.old < 2 ^ 32 }
        requires spare { 0 < stock.old.spare }
        ensures entries { Falls self.old → self.new ≡ put_entry entry.now self.old }
        ensures keeps { length self.old ≤ length self.new }
        ensures grows { length self.new ≤ length self.old + 1 }
        ensures stock { stock.new.spare + length self.new ≡ stock.old.spare + length self.old }
        ensures room { stock.new.room ≡ stock.old.room }
    {
        match mem::replace(&mut self.link, Link::Leaf) {
            Link::Leaf => {
                let mut node = stock.take();
                node.entry = *entry;
                *self = closed(node);
            }
            Link::Fork(mut node) => {
                let index = node.entry.index;
                if entry.index == index {
                    node.entry = *entry;
                    *self = closed(node);
                    return;
                }
                if index < entry.index {
                    node.before.put(stock, entry);
                    *self = balanced(node);
                    return;
                }
                node.after.put(stock, entry);
                *self = balanced(node);
            }
        }
    }

    /// Takes the first node off, with nothing below it.
    fn take_first(&mut self) -> Option<Box<Node>>
        requires few { length self.old < 2 ^ 33 }
        ensures first { TakesFirst self.old self.new result }
    {
        match mem::replace(&mut self.link, Link::Leaf) {
            Link::Leaf => None,
            Link::Fork(mut node) => match node.before.take_first() {
                None => {
                    *self = mem::replace(&mut node.after, Tree::new());
                    Some(node)
                }
                Some(first) => {
                    *self = balanced(node);
                    Some(first)
                }
            },
        }
    }

    /// Takes the entry at an index out, and its node into the stock.
    pub fn remove(&mut self, stock: &mut Stock, index: u64)
        requires few { length self.old < 2 ^ 33 }
        requires room { stock.old.spare + length self.old ≤ stock.old.room }
        ensures entries { Falls self.old → self.new ≡ without_index index self.old }
        ensures shrinks { length self.new ≤ length self.old }
        ensures keeps { length self.old ≤ length self.new + 1 }
        ensures stock { stock.new.spare + length self.new ≡ stock.old.spare + length self.old }
        ensures room { stock.new.room ≡ stock.old.room }
    {
        match mem::replace(&mut self.link, Link::Leaf) {
            Link::Leaf => (),
            Link::Fork(mut node) => {
                let here = node.entry.index;
                if index == here {
                    *self = joined(&mut node);
                    stock.give(node);
                    return;
                }
                if here < index {
                    node.before.remove(stock, index);
                    *self = balanced(node);
                    return;
                }
                node.after.remove(stock, index);
                *self = balanced(node);
            }
        }
    }
}

/// The trees below a node, as one; nothing is left below it.
fn joined(node: &mut Node) -> Tree
    requires few { length node.old.before + length node.old.after < 2 ^ 33 }
    requires balanced { IsBalanced (length node.old.before) (length node.old.after) }
    ensures entries { result ≡ node.old.before ++ node.old.after }
    ensures before { node.new.before ≡ [] }
    ensures after { node.new.after ≡ [] }
{
    match node.after.take_first() {
        None => mem::replace(&mut node.before, Tree::new()),
        Some(mut first) => {
            first.before = mem::replace(&mut node.before, Tree::new());
            first.after = mem::replace(&mut node.after, Tree::new());
            balanced(first)
        }
    }
}

/// A tree with this node on top.
fn closed(mut node: Box<Node>) -> Tree
    requires few { length (entries_of_node node.value) < 2 ^ 34 }
    requires balanced { IsBalanced (length node.value.before) (length node.value.after) }
    ensures entries { result ≡ entries_of_node node.value }
{
    node.len = node.before.len() + node.after.len() + 1;
    Tree {
        link: Link::Fork(node),
    }
}

/// A tree of this node and the trees below it, of which one had an entry more or less when they were balanced.
// The side that is too heavy goes up: by its top, or by the top of its inner side where that one weighs at least twice the outer one.
fn balanced(node: Box<Node>) -> Tree
    requires few { length (entries_of_node node.value) < 2 ^ 34 }
    requires near { IsNear (length node.value.before) (length node.value.after) }
    ensures entries { result ≡ entries_of_node node.value }
{
    let (before, after) = (weight(&node.before), weight(&node.after));
    if before > 3 * after {
        return before_up(node);
    }
    if after > 3 * before {
        return after_up(node);
    }
    closed(node)
}

/// What a side weighs: one more than its entries.
fn weight(side: &Tree) -> u64
    requires few { length side.now < 2 ^ 34 }
    ensures { result ≡ length side.now + 1 }
{
    side.len() + 1
}

/// The tree with an entry of the side before the node on top, where that side is too heavy.
fn before_up(mut node: Box<Node>) -> Tree
    requires few { length (entries_of_node node.value) < 2 ^ 34 }
    requires near { IsNear (length node.value.before) (length node.value.after) }
    requires heavy { 3 * (length node.value.after + 1) < length node.value.before + 1 }
    ensures entries { result ≡ entries_of_node node.value }
{
    let mut top = top_of(mem::replace(&mut node.before, Tree::new()));
    if weight(&top.after) < 2 * weight(&top.before) {
        node.before = mem::replace(&mut top.after, Tree::new());
        top.after = closed(node);
        return closed(top);
    }
    let mut inner = top_of(mem::replace(&mut top.after, Tree::new()));
    top.after = mem::replace(&mut inner.before, Tree::new());
    node.before = mem::replace(&mut inner.after, Tree::new());
    inner.before = closed(top);
    inner.after = closed(node);
    closed(inner)
}

/// The tree with an entry of the side after the node on top, where that side is too heavy.
fn after_up(mut node: Box<Node>) -> Tree
    requires few { length (entries_of_node node.value) < 2 ^ 34 }
    requires near { IsNear (length node.value.before) (length node.value.after) }
    requires heavy { 3 * (length node.value.before + 1) < length node.value.after + 1 }
    ensures entries { result ≡ entries_of_node node.value }
{
    let mut top = top_of(mem::replace(&mut node.after, Tree::new()));
    if weight(&top.before) < 2 * weight(&top.after) {
        node.after = mem::replace(&mut top.before, Tree::new());
        top.before = closed(node);
        return closed(top);
    }
    let mut inner = top_of(mem::replace(&mut top.before, Tree::new()));
    top.before = mem::replace(&mut inner.after, Tree::new());
    node.after = mem::replace(&mut inner.before, Tree::new());
    inner.after = closed(top);
    inner.before = closed(node);
    closed(inner)
}

/// The node on top of a tree that has entries.
fn top_of(tree: Tree) -> Box<Node>
    requires some { 0 < length tree }
    ensures entries { entries_of_node result.value ≡ tree }
    ensures balanced { IsBalanced (length result.value.before) (length result.value.after) }
{
    match tree.link {
        Link::Leaf => unreachable!(),
        Link::Fork(node) => node,
    }
}
