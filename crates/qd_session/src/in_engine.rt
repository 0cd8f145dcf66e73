//! Bytes to calls: an engine that makes the calls that its bytes ask for, one a step.

ghost use Rattle.std.specs.Prelude.{◌≡◌, ◌<◌, ◌≤◌, ℕ, List, Option, Some, None, [], All, IfOk, true, false};
ghost use Rattle.qd_items.specs.Standing.{Past, opening};
ghost use Rattle.qd_items.specs.Steps.{WillRead};
ghost use Rattle.qd_scheme.specs.Stripes.{IsStripeCount};
ghost use Rattle.qd_path.specs.Calls.{beginning, mode_of, agent_of};
ghost use Rattle.qd_path.specs.Lists.{Lists, AreOf};
ghost use Rattle.qd_path.specs.Made.{Made};
ghost use Rattle.qd_items.specs.declared.ends.TextEnd.TheVariants as texts;
ghost use Rattle.qd_session.specs.declared.ends.InEnd.{InEnd};
ghost use Rattle.qd_session.specs.declared.ends.InTurn.TheVariants as turns;
ghost use Rattle.qd_calls.specs.Dues.{IsDue};
ghost use Rattle.qd_session.specs.Ins.{in_beginning, in_end, end_in, TellsHungry, TellsCalling, IsCutFor, InStands, InSteps, IsHungry, IsOpenTurn, IsOfRead, IsFree, StandsForNothing, MakesNext, ReadsOn, with_due};

use crate::ends::{InEnd, InTurn};
use qd_calls::{Reaction, Reading, make};
use qd_grammar::{Item, Mode};
use qd_hub::Hub;
use qd_items::{Items, TextEnd, Turn};
use qd_outside::Source;
use qd_path::{Asked, Side};
use qd_scheme::{AgentNo, NoMemory, Scheme};
use std::alloc::Global;
use std::marker::Model;

/// The mode in which the text of a link is read.
fn mode_of(side: Side) -> Mode
    ensures { result ≡ mode_of side }
{
    match side {
        Side::Down(_) => Mode::Down,
        Side::Up(_) => Mode::Up,
    }
}

/// Whose the subscriptions of a link are.
fn agent_of(side: Side) -> AgentNo
    ensures { result ≡ agent_of side }
{
    match side {
        Side::Down(agent) => agent,
        Side::Up(_) => match AgentNo::of(0) {
            Some(agent) => agent,
            None => unreachable!(),
        },
    }
}

/// The end of an engine whose text ended before END.
fn in_end(end: TextEnd) -> InEnd
    ensures { result ≡ in_end end }
{
    match end {
        TextEnd::End => InEnd::End,
        TextEnd::CutOff { line: _ } => InEnd::CutOff,
        TextEnd::Bad(bad) => InEnd::Bad(bad),
        TextEnd::LineTooLong { line } => InEnd::LineTooLong { line },
        TextEnd::TooMuch => InEnd::TooMuch,
        TextEnd::ReadFault => InEnd::ReadFault,
        TextEnd::NoMemory => InEnd::NoMemory,
    }
}

/// Whether the text ended with END.
fn is_end(end: TextEnd) -> bool
    ensures yes { result ≡ true → end ≡ texts.End }
    ensures no { result ≡ false → end ≡ texts.End → ⊥ }
{
    match end {
        TextEnd::End => true,
        _ => false,
    }
}

/// Whether no call is due.
fn none_due(due: &[Asked]) -> bool
    ensures yes { result ≡ true → due.now ≡ [] }
    ensures no { result ≡ false → due.now ≡ [] → ⊥ }
{
    due.is_empty()
}

/// The end that a step came to.
fn end_in(turn: InTurn) -> Option<InEnd>
    ensures { result ≡ end_in turn }
{
    match turn {
        InTurn::Ended(end) => Some(end),
        _ => None,
    }
}

/// Makes the call that comes next of those that are due.
fn make_next<H: Hub>(hub: &mut H, due: &mut Vec<Asked>, closing: bool, line: u64) -> InTurn
    requires some { due.old.items ≡ [] → ⊥ }
    requires due { All (IsDue (H.stripes hub.old)) due.old.items }
    ensures same { (H.home hub.new ≡ H.home hub.old) × (H.stripes hub.new ≡ H.stripes hub.old) }
    ensures alone { H.is_alone hub.old → H.is_alone hub.new × IsFree result }
    ensures due { All (IsDue (H.stripes hub.old)) due.new.items }
    ensures makes { (l : Lists) → AreOf (H.stripes hub.old) (H.ticker hub.old) (H.stream hub.old) (H.history hub.old) l
        → (m : Lists) × AreOf (H.stripes hub.old) (H.ticker hub.new) (H.stream hub.new) (H.history hub.new) m
        × MakesNext (H.stripes hub.old) due.old.items due.new.items closing line result l m }
    ensures open { IsOpenTurn result → closing ≡ true → due.new.items ≡ [] → ⊥ }
{
    let asked = due.remove(0);
    match make(hub, asked) {
        Reaction::Done => {
            if closing && due.is_empty() {
                return InTurn::Ended(InEnd::End);
            }
            InTurn::Went
        }
        Reaction::TooMany(limit) => InTurn::Ended(InEnd::Refused { line, limit }),
        Reaction::Full | Reaction::Spent => InTurn::Ended(InEnd::Spent),
        Reaction::NoMemory => InTurn::Ended(InEnd::NoMemory),
        Reaction::Busy { first, then, back } => {
            let _ = due.insert(0, back);
            InTurn::Busy { first, then }
        }
    }
}

/// Makes the calls that the bytes of a link ask for, one a step.
#[derive(Drop)]
pub struct InEngine {
    alloc: Global,
    side: Side,
    items: Items,
    reading: Reading,
    due: Vec<Asked>,
    closing: bool,
    ended: Option<InEnd>,
}

impl Model for InEngine {
    ghost use Rattle.qd_session.specs.Ins.{InKept};

    ghost Value = { InKept };

    ghost view = { λ e. record { side = e.side; items = e.items; place = e.reading; due = e.due.items; closing = e.closing; ended = e.ended } };
}

impl InEngine {
    /// Before the first byte.
    pub fn new(alloc: Global, side: Side) -> Result<InEngine, NoMemory>
        ensures made { IfOk result (λ e. e ≡ in_beginning side (opening (mode_of side)) beginning) }
        ensures stands { IfOk result StandsForNothing }
    {
        Ok(InEngine {
            alloc,
            side,
            items: Items::new(alloc, mode_of(side))?,
            reading: Reading::new(alloc),
            due: Vec::new(alloc),
            closing: false,
            ended: None,
        })
    }

    /// Whether the next step reads.
    pub fn hungry(&mut self) -> bool
        ensures tells { TellsHungry result self.old }
        ensures same { self.new ≡ self.old }
    {
        if self.ended.is_some() || self.closing || !self.due.is_empty() {
            return false;
        }
        self.items.is_hungry()
    }

    /// Whether the next step makes a call.
    pub fn is_calling(&self) -> bool
        ensures tells { TellsCalling result self.now }
    {
        self.ended.is_none() && !self.due.is_empty()
    }

    /// Judges the next line, or reads once; no call is due.
    fn read_on<S: Source>(&mut self, scheme: &Scheme, n: u8, source: &mut S) -> InTurn
        requires count { IsStripeCount n }
        requires cut { IsCutFor n self.old }
        requires none { (self.old.ended ≡ None) × (self.old.due ≡ []) × (self.old.closing ≡ false) }
        ensures cut { IsOpenTurn result → IsCutFor n self.new }
        ensures free { IsFree result }
        ensures kept { (S.kept source.new ≡ S.kept source.old) × (self.new.side ≡ self.old.side) × (self.new.ended ≡ None) }
        ensures quiet { (WillRead self.old.items → ⊥) → source.new ≡ source.old }
        ensures reading { WillRead self.old.items → IsOfRead result (record { left = S.left source.old; faults = S.faults source.old }) (record { left = S.left source.new; faults = S.faults source.new }) }
        ensures reads { (from : Option (List ℕ)) (p : Past) (made : List Made) → InStands scheme.now n from self.old p made (S.left source.old)
            → ReadsOn scheme.now n from self.old result self.new p made (record { left = S.left source.old; faults = S.faults source.old }) (record { left = S.left source.new; faults = S.faults source.new }) }
    {
        let agent = agent_of(self.side);
        match self.items.step(scheme, source) {
            Turn::Went => InTurn::Went,
            Turn::Came => {
                let heard = self
                    .reading
                    .hear(self.alloc, n, agent, self.items.item(), &mut self.due);
                if heard.is_err() {
                    return InTurn::Ended(InEnd::NoMemory);
                }
                InTurn::Went
            }
            Turn::Ended(end) => {
                if !is_end(end) {
                    return InTurn::Ended(in_end(end));
                }
                let heard = self
                    .reading
                    .hear(self.alloc, n, agent, &Item::End, &mut self.due);
                if heard.is_err() {
                    return InTurn::Ended(InEnd::NoMemory);
                }
                if none_due(&self.due) {
                    return InTurn::Ended(InEnd::End);
                }
                self.closing = true;
                InTurn::Went
            }
        }
    }

    /// Makes the call that comes next of those that are due.
    fn call_on<H: Hub>(&mut self, hub: &mut H) -> InTurn
        requires cut { IsCutFor (H.stripes hub.old) self.old }
        requires some { self.old.due ≡ [] → ⊥ }
        requires open { self.old.ended ≡ None }
        ensures same { (H.home hub.new ≡ H.home hub.old) × (H.stripes hub.new ≡ H.stripes hub.old) }
        ensures alone { H.is_alone hub.old → H.is_alone hub.new × IsFree result }
        ensures cut { IsOpenTurn result → IsCutFor (H.stripes hub.old) self.new }
        ensures due { All (IsDue (H.stripes hub.old)) self.new.due }
        ensures kept { self.new ≡ with_due self.new.due self.old }
        ensures makes { (l : Lists) → AreOf (H.stripes hub.old) (H.ticker hub.old) (H.stream hub.old) (H.history hub.old) l
            → (m : Lists) × AreOf (H.stripes hub.old) (H.ticker hub.new) (H.stream hub.new) (H.history hub.new) m
            × MakesNext (H.stripes hub.old) self.old.due self.new.due self.old.closing self.old.items.lines result l m }
    {
        let line = self.items.line();
        make_next(hub, &mut self.due, self.closing, line)
    }

    /// Makes one call that is due, or judges one line, or reads once. After Ended the same end is answered again, and nothing
    /// is read or called.
    pub fn step<H: Hub, S: Source>(
        &mut self,
        scheme: &Scheme,
        hub: &mut H,
        source: &mut S,
    ) -> InTurn
        requires cut { IsCutFor (H.stripes hub.old) self.old }
        ensures cut { IsOpenTurn result → IsCutFor (H.stripes hub.new) self.new }
        ensures same { (H.home hub.new ≡ H.home hub.old) × (H.stripes hub.new ≡ H.stripes hub.old) × (self.new.side ≡ self.old.side) }
        ensures kept { S.kept source.new ≡ S.kept source.old }
        // After an end nothing happens any more.
        ensures again { (end : InEnd) → self.old.ended ≡ Some end → (result ≡ turns.Ended end) × (self.new ≡ self.old) × (hub.new ≡ hub.old) × (source.new ≡ source.old) }
        // An engine reads where it is hungry, and only there.
        ensures hungry { IsHungry self.old → IsOfRead result (record { left = S.left source.old; faults = S.faults source.old }) (record { left = S.left source.new; faults = S.faults source.new }) }
        ensures quiet { (IsHungry self.old → ⊥) → source.new ≡ source.old }
        ensures alone { H.is_alone hub.old → H.is_alone hub.new × IsFree result }
        // For whatever past the engine stands, and for whatever lists the hub.
        ensures step { (from : Option (List ℕ)) (p : Past) (made : List Made) (l : Lists)
            → InStands scheme.now (H.stripes hub.old) from self.old p made (S.left source.old)
            → AreOf (H.stripes hub.old) (H.ticker hub.old) (H.stream hub.old) (H.history hub.old) l
            → (m : Lists) × AreOf (H.stripes hub.old) (H.ticker hub.new) (H.stream hub.new) (H.history hub.new) m
            × InSteps scheme.now (H.stripes hub.old) from self.old result self.new p made l m (record { left = S.left source.old; faults = S.faults source.old }) (record { left = S.left source.new; faults = S.faults source.new }) }
    {
        if let Some(end) = self.ended {
            return InTurn::Ended(end);
        }
        if none_due(&self.due) {
            let turn = self.read_on(scheme, hub.stripes(), source);
            self.ended = end_in(turn);
            return turn;
        }
        let turn = self.call_on(hub);
        self.ended = end_in(turn);
        turn
    }
}
