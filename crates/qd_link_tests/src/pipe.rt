//! A connection in memory, whose peer sends its second part once a sink has what it waits for.

ghost use Rattle.std.specs.Prelude.{◌≡◌, [], Some, None};

use qd_outside::{Read, Sink, SoundSource, Source, Write};
use std::alloc::{AllocError, Global};
use std::sync::Arc;
use std::sync::atomic::AtomicU64;
use std::sync::atomic::Ordering::SeqCst;
use std::thread::yield_now;

/// Bytes that are written to memory; another thread sees how many of them are flushed.
#[derive(Drop)]
pub struct SeenSink {
    bytes: Vec<u8>,
    is_flushed: bool,
    faults: u64,
    seen: Arc<AtomicU64>,
}

impl SeenSink {
    /// A sink to which nothing is written.
    pub fn new(alloc: Global, seen: &Arc<AtomicU64>) -> Result<SeenSink, AllocError> {
        Ok(SeenSink {
            bytes: Vec::new(alloc),
            is_flushed: true,
            faults: 0,
            seen: Arc::try_clone(seen)?,
        })
    }

    /// Whether just this text was written.
    pub fn has(&self, text: &[u8]) -> bool {
        self.bytes.as_slice() == text
    }
}

impl Sink for SeenSink {
    ghost use Rattle.std.specs.Prelude.{Some};

    ghost written = { λ s. Some s.bytes.items };

    ghost flushed = { λ s. s.is_flushed };

    ghost faults = { λ s. s.faults };

    ghost Kept = { Unit {0} };

    ghost kept = { λ _. tt };

    fn write(&mut self, piece: &[u8]) -> Write {
        if self.bytes.extend_from_slice(piece).is_err() {
            self.faults = self.faults.saturating_add(1);
            return Write::Failed;
        }
        self.is_flushed = false;
        Write::Wrote(piece.len())
    }

    fn flush(&mut self) -> bool {
        self.is_flushed = true;
        self.seen.store(self.bytes.len() as u64, SeqCst);
        true
    }
}

/// What a peer sends: a first text, and then, once a sink has so many bytes, a second one.
#[derive(Drop)]
pub struct WaitingSource {
    first: SoundSource,
    second: SoundSource,
    seen: Arc<AtomicU64>,
    needs: u64,
}

impl WaitingSource {
    /// A peer that sends these texts, the second one once the sink has so many bytes.
    pub fn new(
        alloc: Global,
        first: &[u8],
        second: &[u8],
        seen: &Arc<AtomicU64>,
        needs: u64,
    ) -> Result<WaitingSource, AllocError> {
        Ok(WaitingSource {
            first: SoundSource::new(Vec::from_slice(alloc, first)?),
            second: SoundSource::new(Vec::from_slice(alloc, second)?),
            seen: Arc::try_clone(seen)?,
            needs,
        })
    }

    fn wait(&self) {
        for _ in 0..u64::MAX {
            if self.seen.load(SeqCst) >= self.needs {
                return;
            }
            yield_now();
        }
    }
}

impl Source for WaitingSource {
    ghost use Rattle.std.specs.Prelude.{None};

    ghost left = { λ _. None };

    ghost faults = { λ _. 0 };

    ghost Kept = { Unit {0} };

    ghost kept = { λ _. tt };

    fn read(&mut self, buf: &mut [u8]) -> Read {
        if let Read::Got(n) = self.first.read(buf) {
            return Read::Got(n);
        }
        self.wait();
        self.second.read(buf)
    }
}
