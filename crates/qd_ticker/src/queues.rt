//! The pending slots of each agent.

ghost use Rattle.std.specs.Prelude.{◌≡◌, ◌≤◌, ◌<◌, ℕ, true, replicate, slice_set, vec_len, if◌then◌else◌, IfOk, OnOk, OnErr};
ghost use Rattle.qd_pend.specs.Slots.{first_in};
ghost use Rattle.qd_slots.specs.Holds.{is_subscribed};
ghost use Rattle.qd_table.specs.Tables.{hold_for, is_wanted_slot};
ghost use Rattle.qd_ticker.specs.Stripes.{queue_at, no_queue};
ghost use Rattle.qd_ticker.specs.Steps.{with_queued, with_dropped, with_popped, with_room};

use qd_pend::PendQueue;
use qd_table::SubTable;
use std::alloc::{AllocError, Global};

/// An empty queue for each agent.
pub(crate) fn empty_queues(alloc: Global) -> Result<Vec<PendQueue>, AllocError>
    ensures { IfOk result (λ queues. queues.items ≡ replicate 128 no_queue) }
{
    let mut queues = Vec::with_capacity(alloc, 128)?;
    for _agent in 0..128u8 {
        queues.push(PendQueue::new(alloc)?)?;
    }
    Ok(queues)
}

/// Makes room in an agent's queue for the slots below a number.
pub(crate) fn reserve_queue(
    queues: &mut Vec<PendQueue>,
    agent: u8,
    slots: u32,
) -> Result<(), AllocError>
    requires { agent < vec_len queues.old }
    ensures ok { OnOk result (queues.new.items ≡ slice_set queues.old.items agent (with_room (queue_at queues.old.items agent) slots)) }
    ensures err { OnErr result (queues.new.items ≡ queues.old.items) }
{
    let queue = &mut queues[agent as usize];
    queue.reserve(slots)
}

/// Puts a slot at the end of an agent's queue, unless it is there.
pub(crate) fn queue_slot(queues: &mut Vec<PendQueue>, agent: u8, slot: u32)
    requires agent { agent < vec_len queues.old }
    requires room { slot < (queue_at queues.old.items agent).slots }
    ensures items { queues.new.items ≡ slice_set queues.old.items agent (with_queued (queue_at queues.old.items agent) slot) }
    ensures len { vec_len queues.new ≡ vec_len queues.old }
{
    let queue = &mut queues[agent as usize];
    if !queue.contains(slot) {
        queue.push_back(slot);
    }
}

/// Puts a slot at the end of the queue of each agent that is subscribed to it, unless it is there, and says whether there is one.
pub(crate) fn queue_for_all(queues: &mut Vec<PendQueue>, table: &SubTable, slot: u32) -> bool
    requires agents { vec_len queues.old ≡ 128 }
    requires room { (a : ℕ) → is_subscribed (hold_for table.now a slot) ≡ true → slot < (queue_at queues.old.items a).slots }
    ensures found { result ≡ is_wanted_slot table.now slot }
    ensures queues { (a : ℕ) → queue_at queues.new.items a ≡ (if is_subscribed (hold_for table.now a slot) then with_queued (queue_at queues.old.items a) slot else queue_at queues.old.items a) }
    ensures len { vec_len queues.new ≡ vec_len queues.old }
{
    let mut from = 0;
    while let Some(agent) = table.next_agent(slot, from) {
        queue_slot(queues, agent, slot);
        from = agent + 1;
    }
    from > 0
}

/// Takes a slot out of an agent's queue, if it is there.
pub(crate) fn drop_slot(queues: &mut Vec<PendQueue>, agent: u8, slot: u32)
    requires { agent < vec_len queues.old }
    ensures items { queues.new.items ≡ slice_set queues.old.items agent (with_dropped (queue_at queues.old.items agent) slot) }
    ensures len { vec_len queues.new ≡ vec_len queues.old }
{
    let queue = &mut queues[agent as usize];
    queue.remove(slot);
}

/// Takes the first slot out of an agent's queue.
pub(crate) fn pop_slot(queues: &mut Vec<PendQueue>, agent: u8) -> Option<u32>
    requires { agent < vec_len queues.old }
    ensures first { result ≡ first_in (queue_at queues.old.items agent).list }
    ensures items { queues.new.items ≡ slice_set queues.old.items agent (with_popped (queue_at queues.old.items agent)) }
    ensures len { vec_len queues.new ≡ vec_len queues.old }
{
    let queue = &mut queues[agent as usize];
    queue.pop_front()
}
