//! A list with a room that is set when it is made.
ghost use Rattle.std.specs.Prelude.{◌≤◌, ◌≡◌, ◌<◌, ◌∷◌, ◌++◌, [], length, IfOk, slice_get};
ghost use Rattle.std.specs.Option.{option_copied};
ghost use Rattle.qd_buffer.specs.Filled.{with_items};

use std::alloc::{AllocError, Global};
use std::marker::Model;

/// A list of at most `room` items. Only making it takes memory.
#[derive(Drop)]
pub struct Buffer<T: Copy> {
    items: Vec<T>,
    room: u16,
}

impl<T: Copy> Model for Buffer<T> {
    ghost use Rattle.std.specs.Prelude.{◌≤◌, vec_len, vec_capacity};
    ghost use Rattle.qd_buffer.specs.Filled.{Filled};

    ghost Value = { Filled T };

    ghost view = { λ b. record { items = b.items.items; room = b.room } };

    ghost invariant = { λ b. (vec_len b.items ≤ b.room) × (b.room ≤ vec_capacity b.items) };
}

impl<T: Copy> Buffer<T> {
    /// No items, and room for `n`.
    pub fn with_room(alloc: Global, n: u16) -> Result<Buffer<T>, AllocError>
        ensures made { IfOk result (λ b. b ≡ record { items = []; room = n }) }
    {
        let items = Vec::with_capacity(alloc, usize::from(n))?;
        Ok(Buffer { items, room: n })
    }

    /// These items, with no room for more.
    pub fn of_slice(alloc: Global, items: &[T]) -> Result<Buffer<T>, AllocError>
        requires { length items.now ≤ 4096 }
        ensures made { IfOk result (λ b. b ≡ record { items = items.now; room = length items.now }) }
    {
        let copied = Vec::from_slice(alloc, items)?;
        Ok(Buffer {
            items: copied,
            room: items.len() as u16,
        })
    }

    /// One more item at the end. The caller sees to it that there is room.
    pub fn push(&mut self, item: T)
        requires { length self.old.items < self.old.room }
        ensures { self.new ≡ with_items self.old (self.old.items ++ item ∷ []) }
    {
        let _ = self.items.push(item);
    }

    /// The item at a place, from 0.
    pub fn get(&self, i: usize) -> Option<&T>
        ensures { option_copied result ≡ slice_get self.now.items i }
    {
        self.items.get(i)
    }

    /// No items; the room stays.
    pub fn clear(&mut self)
        ensures { self.new ≡ with_items self.old [] }
    {
        self.items.clear();
    }

    /// The items, oldest first.
    pub fn as_slice(&self) -> &[T]
        ensures items { result.now ≡ self.now.items }
        ensures within { length self.now.items ≤ self.now.room }
    {
        self.items.as_slice()
    }

    /// How many items there is room for.
    pub fn room(&self) -> u16
        ensures room { result ≡ self.now.room }
        ensures within { length self.now.items ≤ self.now.room }
    {
        self.room
    }
}
