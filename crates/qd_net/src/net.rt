//! What gives connections.

use crate::counted::{CountedSink, CountedSource};
use std::alloc::{AllocError, Global};

/// No memory could be had.
pub type NoMemory = AllocError;

/// A connection. It owns what it holds.
pub trait Conn: Drop + Send {
    ghost use Rattle.std.specs.Prelude.{ℕ, List, Option, ◌≡◌, true, IfOk};
    ghost use Rattle.qd_net.specs.Meeting.{IsListOf, IsUnwritten};

    type In: CountedSource + Drop + Send + 'static;

    type Out: CountedSink + Drop + Send + 'static;

    /// The bytes that its peer sends, where they are told.
    ghost list: { Self → Option (List ℕ) };

    /// The half to read and the half to write. Without memory the connection is dropped.
    fn halves(self, alloc: Global) -> Result<(Self::In, Self::Out), NoMemory>
        ensures left { IfOk result (λ r. IsListOf (list self) (Self.In.left r.0)) }
        ensures written { IfOk result (λ r. IsUnwritten (list self) (Self.Out.written r.1)) }
        ensures flushed { IfOk result (λ r. Self.Out.flushed r.1 ≡ true) }
        ensures faults { IfOk result (λ r. (Self.In.Source.faults r.0 ≡ 0) × (Self.Out.Sink.faults r.1 ≡ 0)) };
}

/// What gives connections, and takes their halves back.
pub trait Net {
    ghost use Rattle.std.specs.Prelude.{IfSome, IfNone};
    ghost use Rattle.qd_net.specs.Meeting.{NetState, Listens, Connects, FailsAt, HangsUp};
    ghost use Rattle.qd_net.specs.Meeting.Asking.{Accept, Dial};

    type Conn: Conn;

    /// What the net tells.
    ghost told: { Self → NetState };

    /// Listens at this address, `HOST:PORT`.
    fn listen(&mut self, addr: &str) -> bool
        ensures { Listens result addr.now (told self.old) (told self.new) };

    /// The next connection that comes.
    fn accept(&mut self) -> Option<Self::Conn>
        ensures some { IfSome result (λ c. Connects Accept (Self.Conn.list c) (told self.old) (told self.new)) }
        ensures none { IfNone result (FailsAt Accept (told self.old) (told self.new)) };

    /// A connection to this address, `HOST:PORT`.
    fn dial(&mut self, addr: &str) -> Option<Self::Conn>
        ensures some { IfSome result (λ c. Connects (Dial addr.now) (Self.Conn.list c) (told self.old) (told self.new)) }
        ensures none { IfNone result (FailsAt (Dial addr.now) (told self.old) (told self.new)) };

    /// Ends a connection. What was written to it is not lost on the way out.
    fn hang_up(&mut self, input: <Self::Conn as Conn>::In, output: <Self::Conn as Conn>::Out)
        ensures { HangsUp (Self.Conn.In.Source.faults input) (Self.Conn.Out.Sink.faults output) (Self.Conn.Out.written output) (told self.old) (told self.new) };
}
