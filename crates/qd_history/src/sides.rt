//! What is kept for each agent.

ghost use Rattle.std.specs.Prelude.{◌≡◌, ◌≤◌, ◌<◌, ◌+◌, ℕ, Some, None, true, false, is_some, nat_eq, length, replicate, vec_len, IfOk, OnOk, IfErr, if◌then◌else◌};
ghost use Rattle.std.specs.List.{sum_by};
ghost use Rattle.qd_pend.specs.Slots.{has, first_in};
ghost use Rattle.qd_slots.specs.Holds.{is_subscribed};
ghost use Rattle.qd_slots.specs.Views.{queued, queued_again, with_list};
ghost use Rattle.qd_table.specs.Tables.{hold_for, limit_for};
ghost use Rattle.qd_hist_feed.specs.Feeding.{next_item, is_done};
ghost use Rattle.qd_hist_stand.specs.Stripes.{no_side, floor_in, floor_by};
ghost use Rattle.qd_hist_stand.specs.Steps.{restarted, updated, part_after, after_gift};
ghost use Rattle.qd_history.specs.Rooms.{KeepsOtherFeeds};
ghost use Rattle.qd_history.specs.Sides.{sided_at, spared_at, owed_count, part_in, IsSided, IsSameSide, HasRoom, AllSided, CanFollow, IsReserved, feed_now};

use crate::tracks::Track;
use qd_flags::Ingest;
use qd_hist_feed::Feed;
use qd_hist_key::KeyState;
use qd_hist_rules::{AgentFloor, HistItem};
use qd_pend::PendQueue;
use qd_scheme::{AgentNo, Event, Key};
use qd_table::SubTable;
use std::alloc::{AllocError, Global};
use std::marker::Model;

/// What is kept for one agent: how far it has come with each slot, the slots that are due in order, and how many events are owed to it
/// in all.
#[derive(Drop)]
pub(crate) struct Side {
    feeds: Vec<Feed>,
    queue: PendQueue,
    owed: u32,
}

impl Model for Side {
    ghost use Rattle.qd_hist_stand.specs.Stripes as stripes;
    ghost use Rattle.qd_history.specs.Sides.{IsSummed};

    ghost Value = { stripes.Side };

    ghost view = { λ s. record { feeds = s.feeds.items; queue = s.queue; owed = s.owed } };

    ghost invariant = { λ s. IsSummed s.feeds.items s.owed };
}

impl Side {
    fn new(alloc: Global) -> Result<Side, AllocError>
        ensures { IfOk result (λ s. s ≡ no_side) }
    {
        Ok(Side {
            feeds: Vec::new(alloc),
            queue: PendQueue::new(alloc)?,
            owed: 0,
        })
    }

    /// Makes places for the slots below a number.
    fn reserve_slots(&mut self, alloc: Global, slots: u32) -> Result<(), AllocError>
        ensures same { IsSameSide self.old self.new }
        ensures feeds { OnOk result (slots ≤ length self.new.feeds) }
        ensures slots { OnOk result (slots ≤ self.new.queue.slots) }
    {
        add_feeds(&mut self.feeds, alloc, slots as usize)?;
        self.queue.reserve(slots)
    }

    /// Makes room for so many events of a slot to come to be owed, unless its snapshot is not begun.
    fn reserve(&mut self, slot: u32, events: u32) -> Result<(), AllocError>
        requires { slot < length self.old.feeds }
        ensures same { IsSameSide self.old self.new }
        ensures others { (i : ℕ) → nat_eq i slot ≡ false → spared_at self.new i ≡ spared_at self.old i }
        ensures ok { OnOk result (IsReserved (spared_at self.new slot) events) }
    {
        let feed = &mut self.feeds[slot as usize];
        if feed.is_waiting() {
            return Ok(());
        }
        feed.reserve(events)
    }

    /// The slot that is due first.
    pub(crate) fn front(&self) -> Option<u32>
        ensures { result ≡ first_in self.now.queue.list }
    {
        self.queue.front()
    }

    /// The slot's snapshot is to be begun anew, and the slot is due if the pair fits.
    pub(crate) fn restart(&mut self, slot: u32, floor: Option<AgentFloor>)
        requires feed { slot < length self.old.feeds }
        requires queue { slot < self.old.queue.slots }
        ensures part { IsSided self.old slot (restarted floor slot (part_in self.old slot)) self.new }
    {
        let feed = &mut self.feeds[slot as usize];
        let owed = feed.len();
        feed.restart();
        self.owed -= owed as u32;
        queue_if(&mut self.queue, slot, floor.is_some());
    }

    /// A commit of these events in order, which is no snapshot commit, was made of the slot's key.
    fn update(&mut self, slot: u32, floor: &AgentFloor, number: u64, batch: &[Event], hcap: u16)
        requires feed { slot < length self.old.feeds }
        requires queue { slot < self.old.queue.slots }
        requires few { hcap ≤ 4096 }
        requires within { self.old.owed ≤ hcap }
        requires room { HasRoom hcap (spared_at self.old slot) (length batch.now) }
        ensures part { IsSided self.old slot (updated hcap (Some floor.now) number batch.now slot (part_in self.old slot)) self.new }
        ensures room { (n : ℕ) → HasRoom hcap (spared_at self.old slot) (length batch.now + n) → HasRoom hcap (spared_at self.new slot) n }
        ensures within { self.new.owed ≤ hcap }
    {
        let feed = &mut self.feeds[slot as usize];
        let more = feed.share_of(batch, floor.index);
        if more == 0 {
            return;
        }
        if more > usize::from(hcap) - self.owed as usize {
            self.restart(slot, Some(*floor));
            return;
        }
        feed.commit(batch, floor.index, number);
        self.owed += more as u32;
        queue_if(&mut self.queue, slot, true);
    }

    /// After an event to which the state of the slot's key answered so.
    fn follow(
        &mut self,
        slot: u32,
        answer: Ingest,
        floor: Option<AgentFloor>,
        track: &Track,
        hcap: u16,
    )
        requires feed { slot < length self.old.feeds }
        requires queue { slot < self.old.queue.slots }
        requires few { hcap ≤ 4096 }
        requires within { self.old.owed ≤ hcap }
        requires room { HasRoom hcap (spared_at self.old slot) (length track.now.state.now.batch) }
        ensures part { IsSided self.old slot (part_after hcap answer floor track.now.number track.now.state.now.batch slot (part_in self.old slot)) self.new }
        ensures room { (n : ℕ) → HasRoom hcap (spared_at self.old slot) (length track.now.state.now.batch + n) → HasRoom hcap (spared_at self.new slot) n }
        ensures within { self.new.owed ≤ hcap }
    {
        match (answer, floor) {
            (Ingest::Snapshot, _) => self.restart(slot, floor),
            (Ingest::Update, Some(floor)) => {
                self.update(slot, &floor, track.number(), track.state().batch(), hcap);
            }
            _ => {}
        }
    }

    /// Gives the next item of a slot, if there is one. Without more to give the slot is due no more.
    pub(crate) fn next(
        &mut self,
        slot: u32,
        key: &Key,
        track: &Track,
        floor: &AgentFloor,
    ) -> Option<HistItem>
        requires { slot < length self.old.feeds }
        ensures item { result ≡ next_item (spared_at self.old slot).now key.now track.now.state floor.now track.now.number }
        ensures part { IsSided self.old slot (after_gift track.now.state floor.now slot (part_in self.old slot)) self.new }
    {
        let feed = &mut self.feeds[slot as usize];
        let before = feed.len();
        let item = feed.next(key, track.state(), floor, track.number());
        let after = feed.len();
        let done = feed.is_done();
        self.owed -= (before - after) as u32;
        if done {
            self.queue.remove(slot);
        }
        item
    }

    /// Nothing is to be given of a slot.
    pub(crate) fn is_done(&self, slot: u32) -> bool
        requires { slot < length self.now.feeds }
        ensures { result ≡ is_done (spared_at self.now slot).now }
    {
        self.feeds[slot as usize].is_done()
    }

    /// A slot that had its turn comes last, if it is due.
    pub(crate) fn turn(&mut self, slot: u32)
        ensures feeds { self.new.feeds ≡ self.old.feeds }
        ensures queue { self.new.queue.list ≡ queued_again self.old.queue.list slot (has self.old.queue.list slot) }
        ensures slots { self.new.queue.slots ≡ self.old.queue.slots }
        ensures owed { self.new.owed ≡ self.old.owed }
    {
        let _slots = self.queue.slots();
        if self.queue.remove(slot) {
            self.queue.push_back(slot);
        }
    }
}

/// Adds feeds up to a number of them.
fn add_feeds(feeds: &mut Vec<Feed>, alloc: Global, slots: usize) -> Result<(), AllocError>
    ensures same { (i : ℕ) → feed_now feeds.new.items i ≡ feed_now feeds.old.items i }
    ensures owed { sum_by owed_count feeds.new.items ≡ sum_by owed_count feeds.old.items }
    ensures kept { length feeds.old.items ≤ length feeds.new.items }
    ensures ok { OnOk result (slots ≤ length feeds.new.items) }
{
    for _slot in feeds.len()..slots {
        feeds.push(Feed::new(alloc))?;
    }
    Ok(())
}

/// Puts a slot at the end of a queue, unless it is there, or takes it out.
fn queue_if(queue: &mut PendQueue, slot: u32, due: bool)
    requires { slot < queue.old.slots }
    ensures { queue.new ≡ with_list queue.old (queued queue.old.list slot due) }
{
    if !due {
        queue.remove(slot);
    } else if !queue.contains(slot) {
        queue.push_back(slot);
    }
}

/// Where a key's floor meets an agent's limit; none where they do not fit.
fn floor_by(limit: u64, floor: u64, snipped: bool) -> Option<AgentFloor>
    ensures { result ≡ floor_by limit (record { index = floor; snipped = snipped }) }
{
    if floor <= limit {
        Some(AgentFloor {
            index: limit,
            by_snip: false,
        })
    } else if snipped {
        Some(AgentFloor {
            index: floor,
            by_snip: true,
        })
    } else {
        None
    }
}

/// The index down to which an agent is shown a slot; none where the pair does not fit.
pub(crate) fn floor_of(
    table: &SubTable,
    state: &KeyState,
    agent: AgentNo,
    slot: u32,
) -> Option<AgentFloor>
    ensures { result ≡ floor_in (limit_for table.now agent slot) state.now.now.floor }
{
    let limit = table.limit_at(agent, slot)?;
    let (floor, snipped) = state.floor()?;
    floor_by(limit, floor, snipped)
}

/// A side for each agent.
pub(crate) fn empty_sides(alloc: Global) -> Result<Vec<Side>, AllocError>
    ensures { IfOk result (λ sides. sides.items ≡ replicate 128 no_side) }
{
    let mut sides = Vec::with_capacity(alloc, 128)?;
    for _agent in 0..128u8 {
        sides.push(Side::new(alloc)?)?;
    }
    Ok(sides)
}

/// Makes places for an agent and the slots below a number.
pub(crate) fn reserve_side(
    sides: &mut Vec<Side>,
    alloc: Global,
    agent: u8,
    slots: u32,
) -> Result<(), AllocError>
    requires { agent < vec_len sides.old }
    ensures same { (a : ℕ) → IsSameSide (sided_at sides.old.items a) (sided_at sides.new.items a) }
    ensures len { vec_len sides.new ≡ vec_len sides.old }
    ensures feeds { OnOk result (slots ≤ length (sided_at sides.new.items agent).feeds) }
    ensures slots { OnOk result (slots ≤ (sided_at sides.new.items agent).queue.slots) }
{
    let side = &mut sides[agent as usize];
    side.reserve_slots(alloc, slots)
}

/// Makes room for so many events of a slot to come to be owed to each agent that is subscribed to it.
pub(crate) fn reserve_all(
    sides: &mut Vec<Side>,
    table: &SubTable,
    slot: u32,
    events: u32,
) -> Result<(), AllocError>
    requires agents { vec_len sides.old ≡ 128 }
    requires room { (a : ℕ) → is_subscribed (hold_for table.now a slot) ≡ true → slot < length (sided_at sides.old.items a).feeds }
    ensures kept { KeepsOtherFeeds slot sides.old.items sides.new.items }
    ensures ok { OnOk result ((a : ℕ) → is_subscribed (hold_for table.now a slot) ≡ true → IsReserved (spared_at (sided_at sides.new.items a) slot) events) }
{
    let mut from = 0;
    while let Some(agent) = table.next_agent(slot, from) {
        sides[agent as usize].reserve(slot, events)?;
        from = agent + 1;
    }
    Ok(())
}

/// After an event to which the state of the slot's key answered so, for each agent that is subscribed to the slot.
pub(crate) fn follow_all(
    sides: &mut Vec<Side>,
    table: &SubTable,
    slot: u32,
    answer: Ingest,
    track: &Track,
    hcap: u16,
)
    requires agents { vec_len sides.old ≡ 128 }
    requires few { hcap ≤ 4096 }
    requires ready { CanFollow hcap table.now slot (length track.now.state.now.batch) sides.old.items }
    ensures parts { AllSided table.now slot (λ a. part_after hcap answer (floor_in (limit_for table.now a slot) track.now.state.now.floor) track.now.number track.now.state.now.batch slot) sides.old.items sides.new.items }
    ensures room { (a n : ℕ) → HasRoom hcap (spared_at (sided_at sides.old.items a) slot) (length track.now.state.now.batch + n) → HasRoom hcap (spared_at (sided_at sides.new.items a) slot) n }
    ensures within { (a : ℕ) → (sided_at sides.new.items a).owed ≤ hcap }
    ensures len { vec_len sides.new ≡ vec_len sides.old }
{
    let mut from = 0;
    while let Some(number) = table.next_agent(slot, from) {
        follow_one(sides, table, number, slot, answer, track, hcap);
        from = number + 1;
    }
}

/// The same for one agent.
fn follow_one(
    sides: &mut Vec<Side>,
    table: &SubTable,
    number: u8,
    slot: u32,
    answer: Ingest,
    track: &Track,
    hcap: u16,
)
    requires agent { number < 128 }
    requires agents { vec_len sides.old ≡ 128 }
    requires few { hcap ≤ 4096 }
    requires feed { slot < length (sided_at sides.old.items number).feeds }
    requires queue { slot < (sided_at sides.old.items number).queue.slots }
    requires within { (sided_at sides.old.items number).owed ≤ hcap }
    requires room { HasRoom hcap (spared_at (sided_at sides.old.items number) slot) (length track.now.state.now.batch) }
    ensures part { IsSided (sided_at sides.old.items number) slot (part_after hcap answer (floor_in (limit_for table.now number slot) track.now.state.now.floor) track.now.number track.now.state.now.batch slot (part_in (sided_at sides.old.items number) slot)) (sided_at sides.new.items number) }
    ensures room { (n : ℕ) → HasRoom hcap (spared_at (sided_at sides.old.items number) slot) (length track.now.state.now.batch + n) → HasRoom hcap (spared_at (sided_at sides.new.items number) slot) n }
    ensures within { (sided_at sides.new.items number).owed ≤ hcap }
    ensures others { (b : ℕ) → nat_eq b number ≡ false → sided_at sides.new.items b ≡ sided_at sides.old.items b }
    ensures len { vec_len sides.new ≡ vec_len sides.old }
{
    match AgentNo::of(number) {
        None => unreachable!(),
        Some(agent) => {
            let floor = floor_of(table, track.state(), agent, slot);
            let side = &mut sides[number as usize];
            side.follow(slot, answer, floor, track, hcap);
        }
    }
}
