//! A node of a tree.

ghost use Rattle.std.specs.Prelude.{◌≡◌, ◌≢◌, ◌<◌, ◌≤◌, ℕ, Option, Some, None, List, [], true, false, IfOk, OnOk, OnErr, length, slice_get, slice_set};
ghost use Rattle.std.specs.Borrow.{sem};
ghost use Rattle.qd_items.specs.Standing.{Past};
ghost use Rattle.qd_path.specs.declared.side.Side.TheVariants.{Down, Up};
ghost use Rattle.qd_path.specs.Lists.{Lists, AreOf};
ghost use Rattle.qd_path.specs.Made.{Made};
ghost use Rattle.qd_replies.specs.declared.ends.OutFault.{OutFault};
ghost use Rattle.qd_replies.specs.declared.ends.OutTurn.TheVariants as outs;
ghost use Rattle.qd_replies.specs.Outs.{IsInRound, OutStands, OutSteps, Sunk, IsFree as IsAnswered, StandsForNothing as WritesNothing};
ghost use Rattle.qd_session.specs.declared.ends.InEnd.{InEnd};
ghost use Rattle.qd_session.specs.declared.ends.InTurn.TheVariants as ins;
ghost use Rattle.qd_session.specs.Ins.{TellsHungry, IsCutFor, InStands, InSteps, IsHungry, IsOpenTurn, IsOfRead, IsFree, StandsForNothing as ReadsNothing};
ghost use Rattle.qd_relay.specs.Links.{new_link};
ghost use Rattle.qd_relay.specs.Nodes.{new_node, flat, child_of, child_link, parent_link, IsChild, HasParent, with_parent, with_child, with_reads, with_writes};

use crate::link::Link;
use qd_hub::Hub;
use qd_outside::{Sink, Source};
use qd_path::Side;
use qd_replies::OutTurn;
use qd_scheme::{AgentNo, NoMemory, Scheme, WatcherNo};
use qd_session::InTurn;
use std::alloc::Global;
use std::marker::Model;

/// The side of a node that looks to its parent.
fn upwards() -> Side
    ensures { result ≡ Up 0 }
{
    match WatcherNo::of(0) {
        Some(watcher) => Side::Up(watcher),
        None => unreachable!(),
    }
}

/// The link to a parent, where there is one.
fn link_up(alloc: Global, has_parent: bool) -> Result<Option<Link>, NoMemory>
    ensures none { has_parent ≡ false → IfOk result (λ link. link ≡ None) }
    ensures some { has_parent ≡ true → IfOk result (λ link. link ≡ Some (new_link (Up 0))) }
{
    if has_parent {
        Ok(Some(Link::new(alloc, upwards())?))
    } else {
        Ok(None)
    }
}

/// Makes a list of links longer than this number. No link comes or goes.
fn make_room(links: &mut Vec<Option<Link>>, at: usize) -> Result<(), NoMemory>
    ensures long { OnOk result (at < length links.new.items) }
    ensures same { (a : ℕ) → flat (slice_get links.new.items a) ≡ flat (slice_get links.old.items a) }
{
    while links.len() <= at {
        links.push(None)?;
    }
    Ok(())
}

/// A hub, and the engines of its links: to a parent above, where it has one, and to children below, each of which is an agent of
/// the hub.
#[derive(Drop)]
pub struct Node<H: Hub> {
    alloc: Global,
    hub: H,
    parent: Option<Link>,
    children: Vec<Option<Link>>,
}

impl<H: Hub> Model for Node<H> {
    ghost use Rattle.qd_relay.specs.Nodes.{NodeKept};

    ghost Value = { NodeKept H };

    ghost view = { λ n. record { hub = n.hub; parent = n.parent; children = n.children.items } };
}

impl<H: Hub> Node<H> {
    ghost use Rattle.qd_relay.specs.Lends.{LendsHub};

    /// A node without children, over a hub that is its own from now on.
    pub fn new(alloc: Global, hub: H, has_parent: bool) -> Result<Node<H>, NoMemory>
        ensures made { IfOk result (λ n. n ≡ new_node hub has_parent) }
    {
        Ok(Node {
            alloc,
            hub,
            parent: link_up(alloc, has_parent)?,
            children: Vec::new(alloc),
        })
    }

    /// A child of this agent. Without memory there is none.
    pub fn add_child(&mut self, agent: AgentNo) -> Result<(), NoMemory>
        requires new { child_of agent self.old ≡ None }
        ensures added { OnOk result (child_of agent self.new ≡ Some (new_link (Down agent))) }
        ensures not_added { OnErr result (child_of agent self.new ≡ None) }
        ensures others { (other : ℕ) → other ≢ agent → child_of other self.new ≡ child_of other self.old }
        ensures same { (self.new.hub ≡ self.old.hub) × (self.new.parent ≡ self.old.parent) }
    {
        let link = Link::new(self.alloc, Side::Down(agent))?;
        let at = usize::from(agent.get());
        make_room(&mut self.children, at)?;
        self.children[at] = Some(link);
        Ok(())
    }

    /// Asks one stripe for what the parent is to be told, and writes it: a step of the engine that writes to the parent.
    pub fn up_step<K: Sink>(&mut self, scheme: &Scheme, sink: &mut K) -> OutTurn
        requires parent { HasParent self.old }
        requires round { IsInRound (H.stripes self.old.hub) (parent_link self.old).writes }
        ensures round { IsInRound (H.stripes self.new.hub) (parent_link self.new).writes }
        ensures others { self.new ≡ with_parent self.new.hub (with_writes (parent_link self.new).writes (parent_link self.old)) self.old }
        ensures same { (H.home self.new.hub ≡ H.home self.old.hub) × (H.stripes self.new.hub ≡ H.stripes self.old.hub) × ((parent_link self.new).writes.side ≡ (parent_link self.old).writes.side) }
        // After a fault nothing happens any more.
        ensures again { (fault : OutFault) → (parent_link self.old).writes.ended ≡ Some fault → (result ≡ outs.Ended fault) × (self.new ≡ self.old) × (sink.new ≡ sink.old) }
        // Over a hub that is alone each stripe answers.
        ensures alone { H.is_alone self.old.hub → H.is_alone self.new.hub × ((parent_link self.old).writes.ended ≡ None → IsAnswered result) }
        // For whatever calls the engine stands, and for whatever lists the hub.
        ensures step { (from : Option (List ℕ)) (past : List Made) (l : Lists) → (parent_link self.old).writes.ended ≡ None
            → OutStands scheme.now (H.stripes self.old.hub) from (parent_link self.old).writes past (K.written sink.old)
            → AreOf (H.stripes self.old.hub) (H.ticker self.old.hub) (H.stream self.old.hub) (H.history self.old.hub) l
            → (m : Lists) × AreOf (H.stripes self.old.hub) (H.ticker self.new.hub) (H.stream self.new.hub) (H.history self.new.hub) m
            × OutSteps scheme.now (H.stripes self.old.hub) from (parent_link self.old).writes result (parent_link self.new).writes past l m (K.flushed sink.new) (record { written = K.written sink.old; faults = K.faults sink.old }) (record { written = K.written sink.new; faults = K.faults sink.new }) }
    {
        match &mut self.parent {
            Some(up) => up.writes.step(scheme, &mut self.hub, sink),
            None => unreachable!(),
        }
    }

    /// Asks one stripe for what a child is given, and writes it: a step of the engine that writes to the child.
    pub fn down_step<K: Sink>(&mut self, scheme: &Scheme, child: AgentNo, sink: &mut K) -> OutTurn
        requires child { IsChild child self.old }
        requires round { IsInRound (H.stripes self.old.hub) (child_link child self.old).writes }
        ensures round { IsInRound (H.stripes self.new.hub) (child_link child self.new).writes }
        ensures others { self.new ≡ with_child self.new.hub child (with_writes (child_link child self.new).writes (child_link child self.old)) self.old }
        ensures same { (H.home self.new.hub ≡ H.home self.old.hub) × (H.stripes self.new.hub ≡ H.stripes self.old.hub) × ((child_link child self.new).writes.side ≡ (child_link child self.old).writes.side) }
        // After a fault nothing happens any more.
        ensures again { (fault : OutFault) → (child_link child self.old).writes.ended ≡ Some fault → (result ≡ outs.Ended fault) × (self.new ≡ self.old) × (sink.new ≡ sink.old) }
        // Over a hub that is alone each stripe answers.
        ensures alone { H.is_alone self.old.hub → H.is_alone self.new.hub × ((child_link child self.old).writes.ended ≡ None → IsAnswered result) }
        // For whatever calls the engine stands, and for whatever lists the hub.
        ensures step { (from : Option (List ℕ)) (past : List Made) (l : Lists) → (child_link child self.old).writes.ended ≡ None
            → OutStands scheme.now (H.stripes self.old.hub) from (child_link child self.old).writes past (K.written sink.old)
            → AreOf (H.stripes self.old.hub) (H.ticker self.old.hub) (H.stream self.old.hub) (H.history self.old.hub) l
            → (m : Lists) × AreOf (H.stripes self.old.hub) (H.ticker self.new.hub) (H.stream self.new.hub) (H.history self.new.hub) m
            × OutSteps scheme.now (H.stripes self.old.hub) from (child_link child self.old).writes result (child_link child self.new).writes past l m (K.flushed sink.new) (record { written = K.written sink.old; faults = K.faults sink.old }) (record { written = K.written sink.new; faults = K.faults sink.new }) }
    {
        match &mut self.children[usize::from(child.get())] {
            Some(link) => link.writes.step(scheme, &mut self.hub, sink),
            None => unreachable!(),
        }
    }

    /// Makes one call that the parent's bytes ask for, or judges one line, or reads once: a step of the engine that reads from the parent.
    pub fn from_parent<S: Source>(&mut self, scheme: &Scheme, source: &mut S) -> InTurn
        requires parent { HasParent self.old }
        requires cut { IsCutFor (H.stripes self.old.hub) (parent_link self.old).reads }
        ensures cut { IsOpenTurn result → IsCutFor (H.stripes self.new.hub) (parent_link self.new).reads }
        ensures others { self.new ≡ with_parent self.new.hub (with_reads (parent_link self.new).reads (parent_link self.old)) self.old }
        ensures same { (H.home self.new.hub ≡ H.home self.old.hub) × (H.stripes self.new.hub ≡ H.stripes self.old.hub) × ((parent_link self.new).reads.side ≡ (parent_link self.old).reads.side) }
        ensures kept { S.kept source.new ≡ S.kept source.old }
        // After an end nothing happens any more.
        ensures again { (end : InEnd) → (parent_link self.old).reads.ended ≡ Some end → (result ≡ ins.Ended end) × (self.new ≡ self.old) × (source.new ≡ source.old) }
        // It reads where it is hungry, and only there.
        ensures hungry { IsHungry (parent_link self.old).reads → IsOfRead result (record { left = S.left source.old; faults = S.faults source.old }) (record { left = S.left source.new; faults = S.faults source.new }) }
        ensures quiet { (IsHungry (parent_link self.old).reads → ⊥) → source.new ≡ source.old }
        ensures alone { H.is_alone self.old.hub → H.is_alone self.new.hub × IsFree result }
        // For whatever past the engine stands, and for whatever lists the hub.
        ensures step { (from : Option (List ℕ)) (p : Past) (made : List Made) (l : Lists)
            → InStands scheme.now (H.stripes self.old.hub) from (parent_link self.old).reads p made (S.left source.old)
            → AreOf (H.stripes self.old.hub) (H.ticker self.old.hub) (H.stream self.old.hub) (H.history self.old.hub) l
            → (m : Lists) × AreOf (H.stripes self.old.hub) (H.ticker self.new.hub) (H.stream self.new.hub) (H.history self.new.hub) m
            × InSteps scheme.now (H.stripes self.old.hub) from (parent_link self.old).reads result (parent_link self.new).reads p made l m (record { left = S.left source.old; faults = S.faults source.old }) (record { left = S.left source.new; faults = S.faults source.new }) }
    {
        match &mut self.parent {
            Some(up) => up.reads.step(scheme, &mut self.hub, source),
            None => unreachable!(),
        }
    }

    /// Makes one call that a child's bytes ask for, or judges one line, or reads once: a step of the engine that reads from the child.
    pub fn from_child<S: Source>(
        &mut self,
        scheme: &Scheme,
        child: AgentNo,
        source: &mut S,
    ) -> InTurn
        requires child { IsChild child self.old }
        requires cut { IsCutFor (H.stripes self.old.hub) (child_link child self.old).reads }
        ensures cut { IsOpenTurn result → IsCutFor (H.stripes self.new.hub) (child_link child self.new).reads }
        ensures others { self.new ≡ with_child self.new.hub child (with_reads (child_link child self.new).reads (child_link child self.old)) self.old }
        ensures same { (H.home self.new.hub ≡ H.home self.old.hub) × (H.stripes self.new.hub ≡ H.stripes self.old.hub) × ((child_link child self.new).reads.side ≡ (child_link child self.old).reads.side) }
        ensures kept { S.kept source.new ≡ S.kept source.old }
        // After an end nothing happens any more.
        ensures again { (end : InEnd) → (child_link child self.old).reads.ended ≡ Some end → (result ≡ ins.Ended end) × (self.new ≡ self.old) × (source.new ≡ source.old) }
        // It reads where it is hungry, and only there.
        ensures hungry { IsHungry (child_link child self.old).reads → IsOfRead result (record { left = S.left source.old; faults = S.faults source.old }) (record { left = S.left source.new; faults = S.faults source.new }) }
        ensures quiet { (IsHungry (child_link child self.old).reads → ⊥) → source.new ≡ source.old }
        ensures alone { H.is_alone self.old.hub → H.is_alone self.new.hub × IsFree result }
        // For whatever past the engine stands, and for whatever lists the hub.
        ensures step { (from : Option (List ℕ)) (p : Past) (made : List Made) (l : Lists)
            → InStands scheme.now (H.stripes self.old.hub) from (child_link child self.old).reads p made (S.left source.old)
            → AreOf (H.stripes self.old.hub) (H.ticker self.old.hub) (H.stream self.old.hub) (H.history self.old.hub) l
            → (m : Lists) × AreOf (H.stripes self.old.hub) (H.ticker self.new.hub) (H.stream self.new.hub) (H.history self.new.hub) m
            × InSteps scheme.now (H.stripes self.old.hub) from (child_link child self.old).reads result (child_link child self.new).reads p made l m (record { left = S.left source.old; faults = S.faults source.old }) (record { left = S.left source.new; faults = S.faults source.new }) }
    {
        match &mut self.children[usize::from(child.get())] {
            Some(link) => link.reads.step(scheme, &mut self.hub, source),
            None => unreachable!(),
        }
    }

    /// Whether the next step of the engine that reads from the parent reads.
    pub fn parent_hungry(&mut self) -> bool
        requires parent { HasParent self.old }
        ensures tells { TellsHungry result (parent_link self.old).reads }
        ensures same { self.new ≡ self.old }
    {
        match &mut self.parent {
            Some(up) => up.reads.hungry(),
            None => unreachable!(),
        }
    }

    /// Whether the next step of the engine that reads from the child reads.
    pub fn child_hungry(&mut self, child: AgentNo) -> bool
        requires child { IsChild child self.old }
        ensures tells { TellsHungry result (child_link child self.old).reads }
        ensures same { self.new ≡ self.old }
    {
        match &mut self.children[usize::from(child.get())] {
            Some(link) => link.reads.hungry(),
            None => unreachable!(),
        }
    }

    /// The hub, for calls of its own.
    pub fn hub(&mut self) -> &mut H
        ensures* lends { sem 𝓛 (LendsHub H.row H.Hub self.entry result) }
        ensures hub { result.now ≡ self.old.hub }
    {
        &mut self.hub
    }
}
