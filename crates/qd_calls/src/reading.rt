//! Where the text of a link stands between two lines.

ghost use Rattle.std.specs.Prelude.{◌≡◌, ◌<◌, ◌≤◌, ◌⊎◌, false, All, is_ok};
ghost use Rattle.qd_calls.specs.Dues.{IsDue};
ghost use Rattle.qd_calls.specs.Hearing.{Hears, Closes};
ghost use Rattle.qd_path.specs.declared.kind.Kind.TheVariants as kinds;
ghost use Rattle.qd_path.specs.Calls.{beginning};
ghost use Rattle.qd_path.specs.Groups.{size, kind_of};
ghost use Rattle.qd_scheme.specs.Stripes.{IsStripeCount};

use crate::cutting::cut_group;
use crate::group::{Joined, OpenGroup};
use crate::kind::kind_of;
use qd_grammar::{Item, Message};
use qd_path::{Asked, Kind};
use qd_scheme::AgentNo;
use std::alloc::{AllocError, Global};
use std::marker::Model;

/// Where the text stands: the current message, and the open group.
#[derive(Drop)]
pub struct Reading {
    message: Option<Message>,
    group: OpenGroup,
}

impl Model for Reading {
    ghost use Rattle.qd_path.specs.Calls.{Place};

    ghost Value = { Place };

    ghost view = { λ r. record { message = r.message; group = r.group } };
}

impl Reading {
    /// No message, and no body line.
    pub fn new(alloc: Global) -> Reading
        ensures { result ≡ beginning }
    {
        Reading {
            message: None,
            group: OpenGroup::new(alloc),
        }
    }

    /// Makes the calls of the open group due, and opens another one. Only a group that has lines takes memory.
    fn close(
        &mut self,
        alloc: Global,
        n: u8,
        agent: AgentNo,
        due: &mut Vec<Asked>,
    ) -> Result<(), AllocError>
        requires count { IsStripeCount n }
        requires few { size self.old.group ≤ 4096 }
        requires due { All (IsDue n) due.old.items }
        ensures closed { Closes n agent result self.old due.old.items self.new due.new.items }
        ensures due { All (IsDue n) due.new.items }
        ensures wanted { is_ok result ≡ false → 0 < size self.old.group }
    {
        if self.group.is_empty() {
            return Ok(());
        }
        cut_group(alloc, n, self.message, agent, &self.group, due)?;
        self.group.clear();
        Ok(())
    }

    /// A body line joins the group, which ends once it is full.
    fn body(
        &mut self,
        alloc: Global,
        n: u8,
        agent: AgentNo,
        item: &Item,
        due: &mut Vec<Asked>,
    ) -> Result<(), AllocError>
        requires body { kind_of item.now ≡ kinds.Body }
        requires count { IsStripeCount n }
        requires few { size self.old.group < 4096 }
        requires due { All (IsDue n) due.old.items }
        ensures hears { Hears n agent item.now (is_ok result) self.old due.old.items self.new due.new.items }
        ensures due { All (IsDue n) due.new.items }
    {
        match self.group.join(self.message, item) {
            Joined::Foreign => Ok(()),
            Joined::NoMemory => Err(AllocError),
            Joined::Joined => {
                if !self.group.is_full() {
                    return Ok(());
                }
                self.close(alloc, n, agent, due)
            }
        }
    }

    /// A line that ends a group.
    fn control(
        &mut self,
        alloc: Global,
        n: u8,
        agent: AgentNo,
        item: &Item,
        due: &mut Vec<Asked>,
    ) -> Result<(), AllocError>
        requires control { kind_of item.now ≡ kinds.Control }
        requires count { IsStripeCount n }
        requires few { size self.old.group < 4096 }
        requires due { All (IsDue n) due.old.items }
        ensures hears { Hears n agent item.now (is_ok result) self.old due.old.items self.new due.new.items }
        ensures due { All (IsDue n) due.new.items }
        ensures wanted { is_ok result ≡ false → 0 < size self.old.group }
    {
        self.close(alloc, n, agent, due)?;
        if let Item::Head(message) = item {
            self.message = Some(*message);
        }
        Ok(())
    }

    /// Takes an item in: the calls of the group that it ends are then due.
    pub fn hear(
        &mut self,
        alloc: Global,
        n: u8,
        agent: AgentNo,
        item: &Item,
        due: &mut Vec<Asked>,
    ) -> Result<(), AllocError>
        requires count { IsStripeCount n }
        requires few { size self.old.group < 4096 }
        requires due { All (IsDue n) due.old.items }
        ensures hears { Hears n agent item.now (is_ok result) self.old due.old.items self.new due.new.items }
        ensures due { All (IsDue n) due.new.items }
        // Memory is wanted for a body line, and for the calls of a group that has lines.
        ensures wanted { is_ok result ≡ false → (kind_of item.now ≡ kinds.Body) ⊎ (0 < size self.old.group) }
    {
        match kind_of(item) {
            Kind::Body => self.body(alloc, n, agent, item, due),
            Kind::Description => Ok(()),
            Kind::Control => self.control(alloc, n, agent, item, due),
        }
    }
}
