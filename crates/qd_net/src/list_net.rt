//! A net in memory, whose calls fail by a plan.
ghost use Rattle.std.specs.Prelude.{◌≡◌, ◌+◌, ◌++◌, ◌∷◌, [], Some, None, map, is_some, IsSomeAnd, IfSome, IfNone, if◌then◌else◌, vec_len, not, ◌&&◌};
ghost use Rattle.qd_net.specs.Meeting.{Listens, Connects, FailsAt, HangsUp, net_at_first};
ghost use Rattle.qd_net.specs.Meeting.Asking.{Accept, Dial};
ghost use Rattle.qd_net.specs.Held.{told_in_memory, list_of, texts_of, asking_of, fails_first, plan_behind, is_deserted, NotesAsking, NotesOr, FailsAs};

use crate::counted::{Counted, CountedSink, CountedSource};
use crate::net::{Conn, Net, NoMemory};
use qd_outside::{ListSink, ListSource, Read, Sink, Source, Write};
use std::alloc::Global;
use std::collections::VecDeque;
use std::mem;

/// What a peer sends, and which reads and which writes and flushes fail.
#[derive(Drop)]
pub struct Peer {
    pub sends: Vec<u8>,
    pub failing_reads: Vec<bool>,
    pub failing_writes: Vec<bool>,
}

/// A call of `listen`, `accept` or `dial`, with its address.
#[derive(Drop)]
pub enum NetCall {
    Listen(Vec<u8>),
    Accept,
    Dial(Vec<u8>),
}

/// What was written to the connections that were hung up, the last one first.
#[derive(Drop)]
pub enum Ended {
    Nothing,
    Wrote { sink: ListSink, before: Box<Ended> },
}

/// A connection in memory.
#[derive(Drop)]
pub struct ListConn {
    alloc: Global,
    peer: Peer,
}

impl Conn for ListConn {
    ghost use Rattle.std.specs.Prelude.{Some};

    type In = ListIn;

    type Out = ListOut;

    ghost list = { λ c. Some c.peer.sends.items };

    fn halves(self, alloc: Global) -> Result<(ListIn, ListOut), NoMemory> {
        let place = Box::new(alloc, Ended::Nothing)?;
        let Peer {
            sends,
            failing_reads,
            failing_writes,
        } = self.peer;
        let source = Counted::new(ListSource::new(sends, failing_reads));
        let sink = Counted::new(ListSink::new(self.alloc, failing_writes));
        Ok((ListIn { source }, ListOut { sink, place }))
    }
}

/// The half of a connection in memory that is read.
#[derive(Drop)]
pub struct ListIn {
    source: Counted<ListSource>,
}

impl Source for ListIn {
    ghost left = { λ s. ⟦<Counted<ListSource> as Source>⟧.left s.source };

    ghost faults = { λ s. ⟦<Counted<ListSource> as Source>⟧.faults s.source };

    ghost Kept = { Unit {0} };

    ghost kept = { λ _. tt };

    fn read(&mut self, buf: &mut [u8]) -> Read {
        self.source.read(buf)
    }
}

impl CountedSource for ListIn {
    fn faults(&self) -> u64 {
        self.source.faults()
    }
}

/// The half of a connection in memory that is written. It brings along the place in which the net keeps what was
/// written, since hanging up takes no memory.
#[derive(Drop)]
pub struct ListOut {
    sink: Counted<ListSink>,
    place: Box<Ended>,
}

impl Sink for ListOut {
    ghost written = { λ s. ⟦<Counted<ListSink> as Sink>⟧.written s.sink };

    ghost flushed = { λ s. ⟦<Counted<ListSink> as Sink>⟧.flushed s.sink };

    ghost faults = { λ s. ⟦<Counted<ListSink> as Sink>⟧.faults s.sink };

    ghost Kept = { Unit {0} };

    ghost kept = { λ _. tt };

    fn write(&mut self, piece: &[u8]) -> Write {
        self.sink.write(piece)
    }

    fn flush(&mut self) -> bool {
        self.sink.flush()
    }
}

impl CountedSink for ListOut {
    fn faults(&self) -> u64 {
        self.sink.faults()
    }
}

/// A net in memory. The calls of `listen`, `accept` and `dial` for which the plan has `true` fail, and so does one
/// without memory, and one that finds no peer any more.
#[derive(Drop)]
pub struct ListNet {
    alloc: Global,
    peers: VecDeque<Peer>,
    ended: Ended,
    asked: Vec<NetCall>,
    plan: VecDeque<bool>,
    opened: u64,
    faults: u64,
    hang_up_faults: u64,
}

impl ListNet {
    /// A net of these peers, of which a call fails where the plan has `true` at its place. Those past its end do not.
    pub fn new(alloc: Global, peers: VecDeque<Peer>, plan: VecDeque<bool>) -> ListNet
        ensures told { ⟦<ListNet as Net>⟧.told result ≡ net_at_first (Some (map list_of peers.items)) (Some []) (Some []) }
        ensures peers { result.peers ≡ peers }
        ensures plan { result.plan ≡ plan }
    {
        ListNet {
            alloc,
            peers,
            ended: Ended::Nothing,
            asked: Vec::new(alloc),
            plan,
            opened: 0,
            faults: 0,
            hang_up_faults: 0,
        }
    }

    /// The calls of `listen`, `accept` and `dial`, oldest first.
    pub fn asked(&self) -> &[NetCall]
        ensures { (⟦<ListNet as Net>⟧.told self.now).asked ≡ Some (map asking_of result.now) }
    {
        &self.asked
    }

    /// What was written to the connections that were hung up.
    pub fn ended(&self) -> &Ended
        ensures { (⟦<ListNet as Net>⟧.told self.now).ended ≡ Some (texts_of result.now) }
    {
        &self.ended
    }

    /// Notes a call, for which there may be no memory, and tells whether it goes on.
    fn admits(&mut self, call: Option<NetCall>) -> bool
        ensures same { self.new ≡ record self.old { asked = self.new.asked; plan = self.new.plan } }
        ensures noted { NotesOr result call self.old.asked.items self.new.asked.items }
        ensures planned { NotesAsking self.old self.new → result ≡ not (fails_first self.old.plan.items) }
        ensures counted { self.new.plan.items ≡ plan_behind self.old.plan.items }
    {
        let failing = self.plan.pop_front().unwrap_or(false);
        let Some(call) = call else {
            return false;
        };
        self.asked.push(call).is_ok() && !failing
    }

    /// The next peer, for a call.
    fn connect(&mut self, call: Option<NetCall>) -> Option<ListConn>
        ensures some { IfSome result (λ c. IsSomeAnd call (λ a. Connects (asking_of a) (Some (list_of c.peer)) (told_in_memory self.old) (told_in_memory self.new))) }
        ensures none { IfNone result (FailsAs call (told_in_memory self.old) (told_in_memory self.new)) }
        ensures planned { NotesAsking self.old self.new → is_some result ≡ (not (fails_first self.old.plan.items) && not (is_deserted self.old.peers.items)) }
        ensures counted { self.new.plan.items ≡ plan_behind self.old.plan.items }
    {
        if self.admits(call) {
            if let Some(peer) = self.peers.pop_front() {
                self.opened = self.opened.saturating_add(1);
                return Some(ListConn {
                    alloc: self.alloc,
                    peer,
                });
            }
        }
        self.faults = self.faults.saturating_add(1);
        None
    }
}

impl Net for ListNet {
    type Conn = ListConn;

    ghost told = { told_in_memory };

    // A call that was noted listens exactly where the plan does not say that it fails.
    fn listen(&mut self, addr: &str) -> bool
        ensures listens { Listens result addr.now (told_in_memory self.old) (told_in_memory self.new) }
        ensures planned { NotesAsking self.old self.new → result ≡ not (fails_first self.old.plan.items) }
        ensures counted { self.new.plan.items ≡ plan_behind self.old.plan.items }
    {
        let call = Vec::from_slice(self.alloc, addr.as_bytes());
        if self.admits(call.ok().map(NetCall::Listen)) {
            return true;
        }
        self.faults = self.faults.saturating_add(1);
        false
    }

    // A call that was noted gives a connection exactly where the plan does not say that it fails, and a peer is left.
    fn accept(&mut self) -> Option<ListConn>
        ensures some { IfSome result (λ c. Connects Accept (Some (list_of c.peer)) (told_in_memory self.old) (told_in_memory self.new)) }
        ensures none { IfNone result (FailsAt Accept (told_in_memory self.old) (told_in_memory self.new)) }
        ensures planned { NotesAsking self.old self.new → is_some result ≡ (not (fails_first self.old.plan.items) && not (is_deserted self.old.peers.items)) }
        ensures counted { self.new.plan.items ≡ plan_behind self.old.plan.items }
    {
        self.connect(Some(NetCall::Accept))
    }

    // As `accept`.
    fn dial(&mut self, addr: &str) -> Option<ListConn>
        ensures some { IfSome result (λ c. Connects (Dial addr.now) (Some (list_of c.peer)) (told_in_memory self.old) (told_in_memory self.new)) }
        ensures none { IfNone result (FailsAt (Dial addr.now) (told_in_memory self.old) (told_in_memory self.new)) }
        ensures planned { NotesAsking self.old self.new → is_some result ≡ (not (fails_first self.old.plan.items) && not (is_deserted self.old.peers.items)) }
        ensures counted { self.new.plan.items ≡ plan_behind self.old.plan.items }
    {
        let call = Vec::from_slice(self.alloc, addr.as_bytes());
        self.connect(call.ok().map(NetCall::Dial))
    }

    fn hang_up(&mut self, input: ListIn, output: ListOut) {
        if input.faults() > 0 || output.faults() > 0 {
            self.hang_up_faults = self.hang_up_faults.saturating_add(1);
        }
        let ListOut {
            sink,
            place: mut before,
        } = output;
        *before = mem::replace(&mut self.ended, Ended::Nothing);
        self.ended = Ended::Wrote {
            sink: sink.into_inner(),
            before,
        };
    }
}
