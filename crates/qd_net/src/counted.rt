//! Sources and sinks that tell the count of their faults.
ghost use Rattle.std.specs.Prelude.{◌≡◌};

use qd_outside::{Read, Sink, Source, Write};

/// A source that tells the count of its faults.
pub trait CountedSource: Source {
    ghost use Rattle.std.specs.Prelude.{◌≡◌};

    fn faults(&self) -> u64
        ensures { result ≡ Self.Source.faults self.now };
}

/// A sink that tells the count of its faults.
pub trait CountedSink: Sink {
    ghost use Rattle.std.specs.Prelude.{◌≡◌};

    fn faults(&self) -> u64
        ensures { result ≡ Self.Sink.faults self.now };
}

/// A source or a sink, with a count of the faults since it was counted first.
#[derive(Drop)]
pub struct Counted<T: Drop> {
    inner: T,
    faults: u64,
}

impl<T: Drop> Counted<T> {
    /// No fault was counted yet.
    pub fn new(inner: T) -> Counted<T>
        ensures inner { result.inner ≡ inner }
        ensures faults { result.faults ≡ 0 }
    {
        Counted { inner, faults: 0 }
    }

    /// What was counted.
    pub fn into_inner(self) -> T
        ensures { result ≡ self.inner }
    {
        self.inner
    }
}

impl<S: Source + Drop> Source for Counted<S> {
    ghost left = { λ s. S.Source.left s.inner };

    ghost faults = { λ s. s.faults };

    ghost Kept = { S.Source.Kept };

    ghost kept = { λ s. S.Source.kept s.inner };

    fn read(&mut self, buf: &mut [u8]) -> Read {
        let answer = self.inner.read(buf);
        if let Read::Failed = answer {
            self.faults = self.faults.saturating_add(1);
        }
        answer
    }
}

impl<S: Source + Drop> CountedSource for Counted<S> {
    fn faults(&self) -> u64 {
        self.faults
    }
}

impl<K: Sink + Drop> Sink for Counted<K> {
    ghost written = { λ s. K.Sink.written s.inner };

    ghost flushed = { λ s. K.Sink.flushed s.inner };

    ghost faults = { λ s. s.faults };

    ghost Kept = { K.Sink.Kept };

    ghost kept = { λ s. K.Sink.kept s.inner };

    fn write(&mut self, piece: &[u8]) -> Write {
        let answer = self.inner.write(piece);
        if let Write::Failed = answer {
            self.faults = self.faults.saturating_add(1);
        }
        answer
    }

    fn flush(&mut self) -> bool {
        let answer = self.inner.flush();
        if !answer {
            self.faults = self.faults.saturating_add(1);
        }
        answer
    }
}

impl<K: Sink + Drop> CountedSink for Counted<K> {
    fn faults(&self) -> u64 {
        self.faults
    }
}
