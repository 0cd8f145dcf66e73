ghost use Rattle.std.specs.Prelude.{◌≡◌, ◌<◌, ◌-◌, ◌++◌, Some, None, [], true, length, drop, not, vec_len, vec_capacity};
ghost use Rattle.qd_outside.specs.Planning.{fails_next, after_call, is_failed, WritesAs};
ghost use Rattle.qd_outside.specs.Reading.{Tells, bytes_got};
ghost use Rattle.qd_outside.specs.Writing.{WriteTells, FlushTells, bytes_written};

use crate::files::copy_some;
use crate::plan::Plan;
use crate::sink::{Sink, Write};
use crate::source::{Read, Source};
use std::alloc::Global;

/// Bytes in memory. The calls for which the plan has `true` fail; those past its end do not.
#[derive(Drop)]
pub struct ListSource {
    bytes: Vec<u8>,
    at: usize,
    plan: Plan,
    faults: u64,
}

impl ListSource {
    /// A source of these bytes, of which a read fails where the plan has `true` at its number, from 0.
    pub fn new(bytes: Vec<u8>, plan: Vec<bool>) -> ListSource
        ensures left { ⟦<ListSource as Source>⟧.left result ≡ Some bytes.items }
        ensures faults { ⟦<ListSource as Source>⟧.faults result ≡ 0 }
        ensures plan { result.plan ≡ record { fails = plan; calls = 0 } }
    {
        ListSource {
            bytes,
            at: 0,
            plan: Plan::new(plan),
            faults: 0,
        }
    }
}

impl Source for ListSource {
    ghost use Rattle.std.specs.Prelude.{Some, drop};

    ghost left = { λ s. Some (drop s.at s.bytes.items) };

    ghost faults = { λ s. s.faults };

    ghost Kept = { Unit {0} };

    ghost kept = { λ _. tt };

    // It fails exactly where the plan says so.
    fn read(&mut self, buf: &mut [u8]) -> Read
        requires { 0 < length buf.old }
        ensures bytes { drop self.old.at self.old.bytes.items ≡ bytes_got result buf.new ++ drop self.new.at self.new.bytes.items }
        ensures tells { Tells result buf.new (Some (drop self.new.at self.new.bytes.items)) self.old.faults self.new.faults }
        ensures planned { is_failed result ≡ fails_next self.old.plan }
        ensures counted { self.new.plan ≡ after_call self.old.plan }
    {
        if self.plan.is_next_failing() {
            self.faults = self.faults.saturating_add(1);
            return Read::Failed;
        }
        if self.at >= self.bytes.len() {
            return Read::End;
        }
        let n = copy_some(&self.bytes, self.at, buf);
        self.at += n;
        Read::Got(n)
    }
}

/// Bytes in memory, which are read without a fault.
#[derive(Drop)]
pub struct SoundSource {
    bytes: Vec<u8>,
    at: usize,
}

impl SoundSource {
    /// A source of these bytes.
    pub fn new(bytes: Vec<u8>) -> SoundSource
        ensures left { ⟦<SoundSource as Source>⟧.left result ≡ Some bytes.items }
        ensures faults { ⟦<SoundSource as Source>⟧.faults result ≡ 0 }
    {
        SoundSource { bytes, at: 0 }
    }
}

impl Source for SoundSource {
    ghost use Rattle.std.specs.Prelude.{Some, drop};

    ghost left = { λ s. Some (drop s.at s.bytes.items) };

    ghost faults = { λ s. 0 };

    ghost Kept = { Unit {0} };

    ghost kept = { λ _. tt };

    fn read(&mut self, buf: &mut [u8]) -> Read {
        if self.at >= self.bytes.len() {
            return Read::End;
        }
        let n = copy_some(&self.bytes, self.at, buf);
        self.at += n;
        Read::Got(n)
    }
}

/// Bytes written to memory. The calls for which the plan has `true` fail, and so does a write without memory.
#[derive(Drop)]
pub struct ListSink {
    written: Vec<u8>,
    flushed: bool,
    plan: Plan,
    faults: u64,
}

impl ListSink {
    /// A sink to which nothing is written; a call fails where the plan has `true` at its number, from 0.
    pub fn new(alloc: Global, plan: Vec<bool>) -> ListSink
        ensures written { ⟦<ListSink as Sink>⟧.written result ≡ Some [] }
        ensures flushed { ⟦<ListSink as Sink>⟧.flushed result ≡ true }
        ensures faults { ⟦<ListSink as Sink>⟧.faults result ≡ 0 }
        ensures plan { result.plan ≡ record { fails = plan; calls = 0 } }
    {
        ListSink {
            written: Vec::new(alloc),
            flushed: true,
            plan: Plan::new(plan),
            faults: 0,
        }
    }

    /// What was written.
    pub fn written(&self) -> &[u8]
        ensures { ⟦<ListSink as Sink>⟧.written self.now ≡ Some result.now }
    {
        &self.written
    }

    /// Whether all that was written is flushed. A new sink counts as flushed.
    pub fn is_flushed(&self) -> bool
        ensures { result ≡ ⟦<ListSink as Sink>⟧.flushed self.now }
    {
        self.flushed
    }
}

impl Sink for ListSink {
    ghost use Rattle.std.specs.Prelude.{Some};

    ghost written = { λ s. Some s.written.items };

    ghost flushed = { λ s. s.flushed };

    ghost faults = { λ s. s.faults };

    ghost Kept = { Unit {0} };

    ghost kept = { λ _. tt };

    // It fails where the plan says so, and else only where there is no room for the piece.
    fn write(&mut self, piece: &[u8]) -> Write
        requires { 0 < length piece.now }
        ensures bytes { self.new.written.items ≡ self.old.written.items ++ bytes_written result piece.now }
        ensures tells { WriteTells result piece.now self.old.flushed self.new.flushed self.old.faults self.new.faults }
        ensures planned { WritesAs (fails_next self.old.plan) result piece.now (vec_capacity self.old.written - vec_len self.old.written) }
        ensures counted { self.new.plan ≡ after_call self.old.plan }
    {
        if self.plan.is_next_failing() || self.written.extend_from_slice(piece).is_err() {
            self.faults = self.faults.saturating_add(1);
            return Write::Failed;
        }
        self.flushed = false;
        Write::Wrote(piece.len())
    }

    // It fails exactly where the plan says so.
    fn flush(&mut self) -> bool
        ensures bytes { self.new.written.items ≡ self.old.written.items }
        ensures tells { FlushTells result self.old.flushed self.new.flushed self.old.faults self.new.faults }
        ensures planned { result ≡ not (fails_next self.old.plan) }
        ensures counted { self.new.plan ≡ after_call self.old.plan }
    {
        if self.plan.is_next_failing() {
            self.faults = self.faults.saturating_add(1);
            return false;
        }
        self.flushed = true;
        true
    }
}

/// A sink that keeps nothing of what it is given, and never fails.
#[derive(Drop)]
pub struct SoundSink {
    flushed: bool,
}

impl SoundSink {
    /// A sink to which nothing is written.
    pub fn new() -> SoundSink
        ensures written { ⟦<SoundSink as Sink>⟧.written result ≡ None }
        ensures flushed { ⟦<SoundSink as Sink>⟧.flushed result ≡ true }
        ensures faults { ⟦<SoundSink as Sink>⟧.faults result ≡ 0 }
    {
        SoundSink { flushed: true }
    }
}

impl Sink for SoundSink {
    ghost use Rattle.std.specs.Prelude.{None};

    ghost written = { λ s. None };

    ghost flushed = { λ s. s.flushed };

    ghost faults = { λ s. 0 };

    ghost Kept = { Unit {0} };

    ghost kept = { λ _. tt };

    fn write(&mut self, piece: &[u8]) -> Write {
        self.flushed = false;
        Write::Wrote(piece.len())
    }

    fn flush(&mut self) -> bool {
        self.flushed = true;
        true
    }
}
