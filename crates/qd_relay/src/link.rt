//! The two engines of a link.

ghost use Rattle.std.specs.Prelude.{◌≡◌, IfOk};
ghost use Rattle.qd_replies.specs.Outs.{StandsForNothing as WritesNothing};
ghost use Rattle.qd_session.specs.Ins.{StandsForNothing as ReadsNothing};
ghost use Rattle.qd_relay.specs.Links.{new_link};

use qd_path::Side;
use qd_replies::OutEngine;
use qd_scheme::NoMemory;
use qd_session::InEngine;
use std::alloc::Global;

/// What reads from the peer at the other end of a link, and what writes to it.
#[derive(Drop)]
pub struct Link {
    pub reads: InEngine,
    pub writes: OutEngine,
}

impl Link {
    /// Before the first step.
    pub fn new(alloc: Global, side: Side) -> Result<Link, NoMemory>
        ensures made { IfOk result (λ link. link ≡ new_link side) }
        ensures reads { IfOk result (λ link. ReadsNothing link.reads) }
        ensures writes { IfOk result (λ link. WritesNothing link.writes) }
    {
        Ok(Link {
            reads: InEngine::new(alloc, side)?,
            writes: OutEngine::new(alloc, side)?,
        })
    }
}
