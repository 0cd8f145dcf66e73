//! What watchers are told.

ghost use Rattle.std.specs.Prelude.{◌≡◌, ◌<◌, ◌≤◌, ◌++◌, [], length, take};
ghost use Rattle.std.specs.List.{cons_option};
ghost use Rattle.qd_buffer.specs.Filled.{with_items};
ghost use Rattle.qd_table.specs.Tables.{queue_of, wants_for, wants_at, slot_after};
ghost use Rattle.qd_table.specs.Steps.{TellsAll, ToldFirst};

use crate::table::SubTable;
use qd_buffer::Buffer;
use qd_scheme::WatcherNo;
use qd_sub::Want;

impl SubTable {
    /// Tells a watcher the first totals that differ from what it knows, and knows that it was told.
    pub fn watch(&mut self, watcher: WatcherNo, max: u16, out: &mut Buffer<Want>)
        requires empty { out.old.items ≡ [] }
        requires room { max ≤ out.old.room }
        ensures wants { out.new ≡ with_items out.old (wants_for self.old watcher max) }
        ensures told { TellsAll self.old watcher (take max (queue_of self.old watcher)) self.new }
    {
        self.gather(watcher, max, out);
        self.tell_all(watcher, out.as_slice().len());
    }

    /// What a watcher is to be told, in order.
    fn gather(&self, watcher: WatcherNo, max: u16, out: &mut Buffer<Want>)
        requires empty { out.old.items ≡ [] }
        requires room { max ≤ out.old.room }
        ensures wants { out.new ≡ with_items out.old (wants_for self.now watcher max) }
        ensures count { length out.new.items ≤ length (queue_of self.now watcher) }
        ensures taken { take (length out.new.items) (queue_of self.now watcher) ≡ take max (queue_of self.now watcher) }
    {
        let mut at = self.first_differing(watcher);
        for _i in 0..max {
            at = self.gather_one(watcher, at, out);
        }
    }

    /// What it is to be told of a slot, if there is one; and the slot after that.
    fn gather_one(&self, watcher: WatcherNo, at: Option<u32>, out: &mut Buffer<Want>) -> Option<u32>
        requires { length out.old.items < out.old.room }
        ensures want { out.new ≡ with_items out.old (out.old.items ++ wants_at self.now watcher at) }
        ensures next { result ≡ slot_after (queue_of self.now watcher) at }
    {
        match at {
            None => None,
            Some(slot) => {
                push_some(out, self.want_at(watcher, slot));
                self.next_differing(watcher, slot)
            }
        }
    }

    /// Knows that a watcher was told of the first so many slots.
    fn tell_all(&mut self, watcher: WatcherNo, count: usize)
        requires { count ≤ length (queue_of self.old watcher) }
        ensures { TellsAll self.old watcher (take count (queue_of self.old watcher)) self.new }
    {
        for _i in 0..count {
            self.tell_first(watcher);
        }
    }

    /// Knows that a watcher was told of the first slot that differs.
    fn tell_first(&mut self, watcher: WatcherNo)
        requires { 0 < length (queue_of self.old watcher) }
        ensures { ToldFirst self.old watcher self.new }
    {
        match self.first_differing(watcher) {
            None => unreachable!(),
            Some(slot) => self.tell(watcher, slot),
        }
    }
}

fn push_some(out: &mut Buffer<Want>, want: Option<Want>)
    requires { length out.old.items < out.old.room }
    ensures { out.new ≡ with_items out.old (out.old.items ++ cons_option want []) }
{
    if let Some(want) = want {
        out.push(want);
    }
}
