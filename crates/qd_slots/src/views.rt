//! What the watchers know.

ghost use Rattle.std.specs.Prelude.{◌≡◌, ℕ, ◌+◌, ◌-◌, ◌<◌, ◌≤◌, ◌∷◌, ◌++◌, [], length, false, if◌then◌else◌, IsOk, OnOk, IfOk, vec_len, vec_capacity, slice_set};
ghost use Rattle.qd_sub.specs.Watching.{same_total};
ghost use Rattle.qd_pend.specs.Slots.{has, first_in, next_in, EachOnce, EachBelow};
ghost use Rattle.qd_slots.specs.Views.{no_view, no_views, view_at, view_after, view_differs, view_told, queued, queued_again, with_list, with_total, with_told, IsWider};

use qd_pend::PendQueue;
use std::alloc::{AllocError, Global};
use std::marker::Model;

/// What a watcher knows of a slot.
#[derive(Clone, Copy, Debug, PartialEq, Eq)]
pub struct View {
    /// The total that it was last told; none at first.
    pub known: Option<u64>,
    /// It knows a total, and the slot was unwanted after that telling.
    pub outdated: bool,
}

impl View {
    /// What a watcher knows of a slot of which it was told this.
    fn told(total: Option<u64>) -> View
        ensures { result ≡ view_told total }
    {
        View {
            known: total,
            outdated: false,
        }
    }

    /// What it knows once the slot has this total.
    fn after(self, total: Option<u64>) -> View
        ensures { result ≡ view_after self total }
    {
        View {
            known: self.known,
            outdated: self.outdated || (self.known.is_some() && total.is_none()),
        }
    }

    /// Whether what it knows is not this total, or is outdated.
    fn differs(self, total: Option<u64>) -> bool
        ensures { result ≡ view_differs self total }
    {
        !is_same(self.known, total) || self.outdated
    }
}

/// What one watcher knows of each slot, and the slots that differ for it, in order.
#[derive(Drop)]
pub struct Watcher {
    views: Vec<View>,
    queue: PendQueue,
}

impl Model for Watcher {
    ghost use Rattle.qd_slots.specs.Views.{Viewing};

    ghost Value = { Viewing };

    ghost view = { λ w. record { views = w.views.items; queue = w.queue } };
}

impl Watcher {
    /// No slots, and nothing differs.
    pub fn new(alloc: Global) -> Result<Watcher, AllocError>
        ensures { IfOk result (λ w. w ≡ record { views = []; queue = record { list = []; slots = 0 } }) }
    {
        let queue = PendQueue::new(alloc)?;
        Ok(Watcher {
            views: Vec::new(alloc),
            queue,
        })
    }

    /// Makes room for the slots below `slots`. What is known stays, whatever the answer. Memory is wanted only where there is too little.
    pub fn reserve(&mut self, slots: u32) -> Result<(), AllocError>
        ensures kept { IsWider self.old self.new }
        ensures views { OnOk result (slots ≤ length self.new.views) }
        ensures queue { OnOk result (slots ≤ self.new.queue.slots) }
        ensures fits { slots ≤ length self.old.views → slots ≤ self.old.queue.slots → IsOk result }
    {
        self.queue.reserve(slots)?;
        reserve_views(&mut self.views, slots)
    }

    /// What it knows of a slot.
    pub fn view_of(&self, slot: u32) -> View
        requires { slot < length self.now.views }
        ensures { result ≡ view_at self.now.views slot }
    {
        self.views[slot as usize]
    }

    /// The first slot that differs.
    pub fn first(&self) -> Option<u32>
        ensures first { result ≡ first_in self.now.queue.list }
        ensures once { EachOnce self.now.queue.list }
        ensures below { EachBelow self.now.queue.slots self.now.queue.list }
    {
        let _slots = self.queue.slots();
        self.queue.front()
    }

    /// The slot that differs right after this one in order; none after the last.
    pub fn next_after(&self, slot: u32) -> Option<u32>
        ensures { result ≡ next_in self.now.queue.list slot }
    {
        self.queue.next_after(slot)
    }

    /// Knows that a slot has this total now: the slot differs from then on, or does no more.
    pub fn see(&mut self, slot: u32, total: Option<u64>)
        requires view { slot < length self.old.views }
        requires room { slot < self.old.queue.slots }
        ensures { self.new ≡ with_total self.old slot total }
    {
        let view = self.view_of(slot).after(total);
        set_view(&mut self.views, slot, view);
        requeue(&mut self.queue, slot, view.differs(total));
    }

    /// Knows that this was told of a slot that has this total.
    pub fn tell(&mut self, slot: u32, told: Option<u64>, total: Option<u64>)
        requires view { slot < length self.old.views }
        requires room { slot < self.old.queue.slots }
        ensures { self.new ≡ with_told self.old slot told total }
    {
        let view = View::told(told);
        set_view(&mut self.views, slot, view);
        self.queue.remove(slot);
        requeue_last(&mut self.queue, slot, view.differs(total));
    }
}

/// Whether two totals are one.
fn is_same(one: Option<u64>, other: Option<u64>) -> bool
    ensures { result ≡ same_total one other }
{
    match (one, other) {
        (None, None) => true,
        (Some(m), Some(n)) => m == n,
        (None, Some(_)) | (Some(_), None) => false,
    }
}

/// The slot stays or comes last where it waits, and leaves where it does not.
fn requeue(queue: &mut PendQueue, slot: u32, waits: bool)
    requires { slot < queue.old.slots }
    ensures { queue.new ≡ with_list queue.old (queued queue.old.list slot waits) }
{
    if !waits {
        queue.remove(slot);
    } else if !queue.contains(slot) {
        queue.push_back(slot);
    }
}

/// The slot comes last where it waits.
fn requeue_last(queue: &mut PendQueue, slot: u32, waits: bool)
    requires room { slot < queue.old.slots }
    requires absent { has queue.old.list slot ≡ false }
    ensures { queue.new ≡ with_list queue.old (queue.old.list ++ (if waits then slot ∷ [] else [])) }
{
    if waits {
        queue.push_back(slot);
    }
}

fn set_view(views: &mut Vec<View>, slot: u32, view: View)
    requires { slot < vec_len views.old }
    ensures items { views.new.items ≡ slice_set views.old.items slot view }
    ensures len { vec_len views.new ≡ vec_len views.old }
{
    views[slot as usize] = view;
}

fn reserve_views(views: &mut Vec<View>, slots: u32) -> Result<(), AllocError>
    ensures grown { (n : ℕ) × (views.new.items ≡ views.old.items ++ no_views n) }
    ensures ok { OnOk result (slots ≤ length views.new.items) }
    ensures fits { slots ≤ length views.old.items → IsOk result }
{
    let len = views.len();
    if slots as usize <= len {
        return Ok(());
    }
    views.reserve(slots as usize - len)?;
    add_views(views, slots as usize);
    Ok(())
}

/// Adds slots of which nothing is known up to a number, for which there is room.
fn add_views(views: &mut Vec<View>, slots: usize)
    requires few { vec_len views.old ≤ slots }
    requires room { slots ≤ vec_capacity views.old }
    ensures items { views.new.items ≡ views.old.items ++ no_views (slots - vec_len views.old) }
    ensures len { length views.new.items ≡ slots }
{
    for _slot in views.len()..slots {
        push_view(views);
    }
}

fn push_view(views: &mut Vec<View>)
    requires { vec_len views.old < vec_capacity views.old }
    ensures items { views.new.items ≡ views.old.items ++ no_view ∷ [] }
    ensures len { vec_len views.new ≡ vec_len views.old + 1 }
    ensures capacity { vec_capacity views.old ≤ vec_capacity views.new }
{
    let _ = views.push(View {
        known: None,
        outdated: false,
    });
}
