//! Which agents hold which slots.

ghost use Rattle.std.specs.Prelude.{◌≡◌, ℕ, ◌+◌, ◌-◌, ◌<◌, ◌≤◌, ◌^◌, ◌∷◌, ◌++◌, [], true, length, replicate, Some, IsOk, IfOk, OnOk, OnErr, drop, vec_len, vec_capacity, slice_set};
ghost use Rattle.std.specs.List.{list_any};
ghost use Rattle.qd_pend.specs.Slots.{has, first_in};
ghost use Rattle.qd_sub.specs.Subscriptions.{least};
ghost use Rattle.qd_slots.specs.Holds.{hold_at, limit_in, cell_at, order_at, total_in, is_held_cell, is_wanted_cell, is_subscribed, is_kept, is_held, subscribed_from, limits_of, lesser_of, more_by, less_by, after_end, with_hold, with_limit, with_less, with_last, with_subscription, with_end, without_kept, with_room, no_order, free_cell, free_cells, IsHolding, IsRoomier};

use qd_pend::PendQueue;
use std::alloc::{AllocError, Global};
use std::marker::Model;

/// What an agent has of a slot.
#[derive(Clone, Copy, Debug, PartialEq, Eq)]
pub enum Hold {
    /// Nothing.
    Free,
    /// No subscription, and yet the slot is held for the agent.
    Kept,
    Subscribed,
}

impl Hold {
    /// Whether it is a subscription.
    pub fn is_subscribed(self) -> bool
        ensures { result ≡ is_subscribed self }
    {
        matches!(self, Hold::Subscribed)
    }

    /// Whether it is kept without a subscription.
    pub fn is_kept(self) -> bool
        ensures { result ≡ is_kept self }
    {
        matches!(self, Hold::Kept)
    }

    /// Whether it is kept or a subscription.
    pub fn is_held(self) -> bool
        ensures { result ≡ is_held self }
    {
        matches!(self, Hold::Kept | Hold::Subscribed)
    }
}

/// What the agents have of one slot. The limit of an agent counts only while it is subscribed.
#[derive(Clone, Copy)]
pub struct Cell {
    pub holds: [Hold; 128],
    pub limits: [u64; 128],
}

/// The agents of each slot, and each agent's slots in the order in which its subscriptions began.
#[derive(Drop)]
pub struct Holds {
    cells: Vec<Cell>,
    orders: Vec<PendQueue>,
    pairs: u32,
}

impl Model for Holds {
    ghost use Rattle.qd_slots.specs.Holds.{Holdings};

    ghost Value = { Holdings };

    ghost use Rattle.qd_slots.specs.Holds.{IsHolding};

    ghost view = { λ h. record { cells = h.cells.items; orders = h.orders.items; pairs = h.pairs } };

    ghost invariant = { λ h. IsHolding h.cells.items h.orders.items };
}

impl Holds {
    /// No slots, and no agent has any.
    pub fn new(alloc: Global) -> Result<Holds, AllocError>
        ensures { IfOk result (λ h. h ≡ record { cells = []; orders = replicate 128 no_order; pairs = 0 }) }
    {
        let orders = empty_orders(alloc)?;
        Ok(Holds {
            cells: Vec::new(alloc),
            orders,
            pairs: 0,
        })
    }

    /// Makes room for the slots below `slots`, and for the agent to subscribe to them. What agents have stays, whatever the answer. Memory
    /// is wanted only where there is too little room.
    pub fn reserve(&mut self, agent: u8, slots: u32) -> Result<(), AllocError>
        requires { agent < 128 }
        ensures kept { IsRoomier self.old self.new }
        ensures cells { OnOk result (slots ≤ length self.new.cells) }
        ensures order { OnOk result (slots ≤ (order_at self.new.orders agent).slots) }
        ensures fits { slots ≤ length self.old.cells → slots ≤ (order_at self.old.orders agent).slots → IsOk result }
    {
        reserve_order(&mut self.orders, agent, slots)?;
        reserve_cells(&mut self.cells, slots)
    }

    /// What an agent has of a slot.
    pub fn hold_of(&self, agent: u8, slot: u32) -> Hold
        requires agent { agent < 128 }
        requires slot { slot < length self.now.cells }
        ensures { result ≡ hold_at self.now.cells slot agent }
    {
        self.cells[slot as usize].holds[agent as usize]
    }

    /// The limit of an agent's subscription to a slot.
    pub fn limit_of(&self, agent: u8, slot: u32) -> Option<u64>
        requires agent { agent < 128 }
        requires slot { slot < length self.now.cells }
        ensures { result ≡ limit_in (cell_at self.now.cells slot) agent }
    {
        let cell = &self.cells[slot as usize];
        match cell.holds[agent as usize] {
            Hold::Subscribed => Some(cell.limits[agent as usize]),
            Hold::Free | Hold::Kept => None,
        }
    }

    /// The slot whose subscription by the agent began first.
    pub fn first_of(&self, agent: u8) -> Option<u32>
        requires { agent < 128 }
        ensures { result ≡ first_in (order_at self.now.orders agent).list }
    {
        self.orders[agent as usize].front()
    }

    /// How many pairs of an agent and a slot are held.
    pub fn pairs(&self) -> u32
        ensures pairs { result ≡ self.now.pairs }
        ensures holding { IsHolding self.now.cells self.now.orders }
    {
        self.pairs
    }

    /// The least limit of the agents that are subscribed to a slot.
    pub fn total_of(&self, slot: u32) -> Option<u64>
        requires { slot < length self.now.cells }
        ensures { result ≡ total_in (cell_at self.now.cells slot) }
    {
        let cell = &self.cells[slot as usize];
        least_limit(&cell.holds, &cell.limits)
    }

    /// Whether some agent is subscribed to a slot.
    pub fn is_wanted(&self, slot: u32) -> bool
        requires { slot < length self.now.cells }
        ensures { result ≡ is_wanted_cell (cell_at self.now.cells slot) }
    {
        let cell = &self.cells[slot as usize];
        any_subscribed(&cell.holds)
    }

    /// Whether some agent has anything of a slot.
    pub fn is_held(&self, slot: u32) -> bool
        requires { slot < length self.now.cells }
        ensures { result ≡ is_held_cell (cell_at self.now.cells slot) }
    {
        let cell = &self.cells[slot as usize];
        any_held(&cell.holds)
    }

    /// The least agent from a number on that is subscribed to a slot.
    pub fn next_agent(&self, slot: u32, from: u8) -> Option<u8>
        requires { slot < length self.now.cells }
        ensures { result ≡ subscribed_from from (drop from (cell_at self.now.cells slot).holds) }
    {
        let cell = &self.cells[slot as usize];
        first_subscribed(&cell.holds, from)
    }

    /// Subscribes an agent to a slot, or gives its subscription another limit.
    pub fn subscribe(&mut self, agent: u8, slot: u32, limit: u64)
        requires agent { agent < 128 }
        requires slot { slot < length self.old.cells }
        requires room { slot < (order_at self.old.orders agent).slots }
        requires few { self.old.pairs < 2 ^ 31 }
        ensures { self.new ≡ with_subscription self.old agent slot limit }
    {
        let hold = hold_in_cells(&self.cells, agent, slot);
        set_hold(&mut self.cells, agent, slot, Hold::Subscribed);
        set_limit(&mut self.cells, agent, slot, limit);
        self.pairs = more_pairs(hold, self.pairs);
        push_order(&mut self.orders, agent, slot, hold);
    }

    /// Ends an agent's subscription to a slot, which the agent may keep.
    pub fn end(&mut self, agent: u8, slot: u32, keep: bool)
        requires agent { agent < 128 }
        requires slot { slot < length self.old.cells }
        requires subscribed { is_subscribed (hold_at self.old.cells slot agent) ≡ true }
        ensures { self.new ≡ with_end self.old agent slot keep }
    {
        set_hold(&mut self.cells, agent, slot, hold_after(keep));
        self.pairs = pairs_after(keep, self.pairs);
        drop_order(&mut self.orders, agent, slot);
    }

    /// Lets a slot go that an agent kept; a subscription stays.
    pub fn let_go(&mut self, agent: u8, slot: u32)
        requires agent { agent < 128 }
        requires slot { slot < length self.old.cells }
        ensures { self.new ≡ without_kept self.old agent slot }
    {
        let hold = hold_in_cells(&self.cells, agent, slot);
        if !hold.is_kept() {
            return;
        }
        set_hold(&mut self.cells, agent, slot, Hold::Free);
        self.pairs = self.pairs.saturating_sub(1);
    }
}

/// The least of the limits of the subscribed.
fn least_limit(holds: &[Hold], limits: &[u64]) -> Option<u64>
    requires { length holds.now ≡ length limits.now }
    ensures { result ≡ least (limits_of holds.now limits.now) }
{
    let mut best = None;
    for i in 0..holds.len() {
        if holds[i].is_subscribed() {
            best = Some(lesser(limits[i], best));
        }
    }
    best
}

/// The lesser of a number and another, if there is one.
fn lesser(limit: u64, other: Option<u64>) -> u64
    ensures { Some result ≡ lesser_of (Some limit) other }
{
    match other {
        None => limit,
        Some(least) => limit.min(least),
    }
}

fn any_subscribed(holds: &[Hold]) -> bool
    ensures { result ≡ list_any is_subscribed holds.now }
{
    for hold in holds {
        if hold.is_subscribed() {
            return true;
        }
    }
    false
}

fn any_held(holds: &[Hold]) -> bool
    ensures { result ≡ list_any is_held holds.now }
{
    for hold in holds {
        if hold.is_held() {
            return true;
        }
    }
    false
}

fn first_subscribed(holds: &[Hold], from: u8) -> Option<u8>
    requires { length holds.now ≡ 128 }
    ensures { result ≡ subscribed_from from (drop from holds.now) }
{
    for agent in from..128 {
        if holds[agent as usize].is_subscribed() {
            return Some(agent);
        }
    }
    None
}

/// How many pairs are held once one that was held so is subscribed.
fn more_pairs(hold: Hold, pairs: u32) -> u32
    requires { pairs < 2 ^ 31 }
    ensures { result ≡ more_by hold pairs }
{
    match hold {
        Hold::Free => pairs + 1,
        Hold::Kept | Hold::Subscribed => pairs,
    }
}

/// What an agent has once its subscription ended.
fn hold_after(keep: bool) -> Hold
    ensures { result ≡ after_end keep }
{
    if keep { Hold::Kept } else { Hold::Free }
}

/// How many pairs are held once a subscription ended.
fn pairs_after(keep: bool, pairs: u32) -> u32
    ensures { result ≡ less_by keep pairs }
{
    if keep { pairs } else { pairs.saturating_sub(1) }
}

fn hold_in_cells(cells: &[Cell], agent: u8, slot: u32) -> Hold
    requires agent { agent < 128 }
    requires slot { slot < length cells.now }
    ensures { result ≡ hold_at cells.now slot agent }
{
    cells[slot as usize].holds[agent as usize]
}

fn set_hold(cells: &mut Vec<Cell>, agent: u8, slot: u32, hold: Hold)
    requires agent { agent < 128 }
    requires slot { slot < vec_len cells.old }
    ensures items { cells.new.items ≡ slice_set cells.old.items slot (with_hold (cell_at cells.old.items slot) agent hold) }
    ensures len { vec_len cells.new ≡ vec_len cells.old }
{
    let cell = &mut cells[slot as usize];
    cell.holds[agent as usize] = hold;
}

fn set_limit(cells: &mut Vec<Cell>, agent: u8, slot: u32, limit: u64)
    requires agent { agent < 128 }
    requires slot { slot < vec_len cells.old }
    ensures items { cells.new.items ≡ slice_set cells.old.items slot (with_limit (cell_at cells.old.items slot) agent limit) }
    ensures len { vec_len cells.new ≡ vec_len cells.old }
{
    let cell = &mut cells[slot as usize];
    cell.limits[agent as usize] = limit;
}

fn push_order(orders: &mut Vec<PendQueue>, agent: u8, slot: u32, hold: Hold)
    requires agent { agent < vec_len orders.old }
    requires room { slot < (order_at orders.old.items agent).slots }
    requires absent { has (order_at orders.old.items agent).list slot ≡ is_subscribed hold }
    ensures { orders.new.items ≡ slice_set orders.old.items agent (with_last hold (order_at orders.old.items agent) slot) }
{
    let order = &mut orders[agent as usize];
    match hold {
        Hold::Subscribed => {}
        Hold::Free | Hold::Kept => order.push_back(slot),
    }
}

/// Takes a slot out of an agent's order, where it stands there.
pub fn drop_order(orders: &mut Vec<PendQueue>, agent: u8, slot: u32)
    requires agent { agent < vec_len orders.old }
    ensures { orders.new.items ≡ slice_set orders.old.items agent (with_less (order_at orders.old.items agent) slot) }
{
    let order = &mut orders[agent as usize];
    order.remove(slot);
}

/// An empty order for each agent.
pub fn empty_orders(alloc: Global) -> Result<Vec<PendQueue>, AllocError>
    ensures { IfOk result (λ orders. orders.items ≡ replicate 128 no_order) }
{
    let mut orders = Vec::with_capacity(alloc, 128)?;
    for _agent in 0..128u8 {
        orders.push(PendQueue::new(alloc)?)?;
    }
    Ok(orders)
}

/// Makes room for slots up to this number in an agent's order. After want of memory it is as before.
pub fn reserve_order(orders: &mut Vec<PendQueue>, agent: u8, slots: u32) -> Result<(), AllocError>
    requires { agent < vec_len orders.old }
    ensures ok { OnOk result (orders.new.items ≡ slice_set orders.old.items agent (with_room (order_at orders.old.items agent) slots)) }
    ensures err { OnErr result (orders.new.items ≡ orders.old.items) }
    ensures fits { slots ≤ (order_at orders.old.items agent).slots → IsOk result }
{
    let order = &mut orders[agent as usize];
    order.reserve(slots)
}

fn reserve_cells(cells: &mut Vec<Cell>, slots: u32) -> Result<(), AllocError>
    ensures grown { (n : ℕ) × (cells.new.items ≡ cells.old.items ++ free_cells n) }
    ensures ok { OnOk result (slots ≤ length cells.new.items) }
    ensures fits { slots ≤ length cells.old.items → IsOk result }
{
    let len = cells.len();
    if slots as usize <= len {
        return Ok(());
    }
    cells.reserve(slots as usize - len)?;
    add_cells(cells, slots as usize);
    Ok(())
}

/// Adds free cells up to a number, for which there is room.
fn add_cells(cells: &mut Vec<Cell>, slots: usize)
    requires few { vec_len cells.old ≤ slots }
    requires room { slots ≤ vec_capacity cells.old }
    ensures items { cells.new.items ≡ cells.old.items ++ free_cells (slots - vec_len cells.old) }
    ensures len { length cells.new.items ≡ slots }
{
    for _slot in cells.len()..slots {
        push_free(cells);
    }
}

fn push_free(cells: &mut Vec<Cell>)
    requires { vec_len cells.old < vec_capacity cells.old }
    ensures items { cells.new.items ≡ cells.old.items ++ free_cell ∷ [] }
    ensures len { vec_len cells.new ≡ vec_len cells.old + 1 }
    ensures capacity { vec_capacity cells.old ≤ vec_capacity cells.new }
{
    let _ = cells.push(Cell {
        holds: [Hold::Free; 128],
        limits: [0; 128],
    });
}
