//! A connection of the system, over TCP, and its halves.
ghost use Rattle.std.specs.Prelude.{◌≡◌, None};

use crate::counted::{Counted, CountedSink, CountedSource};
use crate::end_watch::EndWatch;
use crate::net::{Conn, NoMemory};
use qd_outside::{Read, Reading, Sink, Source, Write, Writing};
use std::alloc::Global;
use std::io;
use std::io::{Read as ByteReader, Write as ByteWriter};
use std::net::{Shutdown, TcpStream};
use std::sync::Arc;
use std::time::Duration;

/// A stream that is shared by both halves.
#[derive(Drop)]
struct Wire {
    stream: Arc<TcpStream>,
}

impl io::Read for Wire {
    fn read(&mut self, buf: &mut [u8]) -> io::Result<usize> {
        let mut stream: &TcpStream = &self.stream;
        stream.read(buf)
    }
}

impl io::Write for Wire {
    fn write(&mut self, piece: &[u8]) -> io::Result<usize> {
        let mut stream: &TcpStream = &self.stream;
        stream.write(piece)
    }

    fn flush(&mut self) -> io::Result<()> {
        Ok(())
    }
}

/// A connection of the system.
#[derive(Drop)]
pub struct RealConn {
    stream: TcpStream,
}

impl RealConn {
    /// Small writes are sent at once.
    pub fn new(stream: TcpStream) -> RealConn {
        let _ = stream.set_nodelay(true);
        RealConn { stream }
    }
}

impl Conn for RealConn {
    ghost use Rattle.std.specs.Prelude.{None};

    type In = RealIn;

    type Out = RealOut;

    ghost list = { λ _. None };

    fn halves(self, alloc: Global) -> Result<(RealIn, RealOut), NoMemory> {
        let stream = Arc::new(alloc, self.stream)?;
        let read = Arc::try_clone(&stream)?;
        let written = Arc::try_clone(&stream)?;
        let other = Arc::try_clone(&stream)?;
        let input = RealIn {
            stream,
            source: Counted::new(Reading::new(Wire { stream: read })),
            watch: EndWatch::new(),
        };
        let output = RealOut {
            stream: other,
            sink: Counted::new(Writing::new(Wire { stream: written })),
            watch: EndWatch::new(),
        };
        Ok((input, output))
    }
}

/// The half of a connection that is read. It watches for the peer's `==END`.
#[derive(Drop)]
pub struct RealIn {
    stream: Arc<TcpStream>,
    source: Counted<Reading<Wire>>,
    watch: EndWatch,
}

impl RealIn {
    /// Whether the peer's `==END` has come.
    pub fn has_ended(&self) -> bool {
        self.watch.is_seen()
    }

    /// Shuts the writing side of the connection.
    pub fn end_writing(&self) {
        let _ = self.stream.shutdown(Shutdown::Write);
    }

    /// How long a read may wait from now on. False where that cannot be set.
    pub fn set_wait(&self, wait: Duration) -> bool {
        self.stream.set_read_timeout(Some(wait)).is_ok()
    }
}

impl Source for RealIn {
    ghost use Rattle.std.specs.Prelude.{None};

    ghost left = { λ _. None };

    ghost faults = { λ s. ⟦<Counted<Reading<Wire>> as Source>⟧.faults s.source };

    ghost Kept = { Unit {0} };

    ghost kept = { λ _. tt };

    fn read(&mut self, buf: &mut [u8]) -> Read {
        let answer = self.source.read(buf);
        if let Read::Got(n) = answer {
            self.watch.feed(&buf[..n]);
        }
        answer
    }
}

impl CountedSource for RealIn {
    fn faults(&self) -> u64 {
        self.source.faults()
    }
}

/// The half of a connection that is written. It holds nothing back, and watches for the `==END` that is written.
#[derive(Drop)]
pub struct RealOut {
    stream: Arc<TcpStream>,
    sink: Counted<Writing<Wire>>,
    watch: EndWatch,
}

impl Sink for RealOut {
    ghost use Rattle.std.specs.Prelude.{None};

    ghost written = { λ _. None };

    ghost flushed = { λ s. ⟦<Counted<Writing<Wire>> as Sink>⟧.flushed s.sink };

    ghost faults = { λ s. ⟦<Counted<Writing<Wire>> as Sink>⟧.faults s.sink };

    ghost Kept = { Unit {0} };

    ghost kept = { λ _. tt };

    fn write(&mut self, piece: &[u8]) -> Write {
        let answer = self.sink.write(piece);
        if let Write::Wrote(n) = answer {
            self.watch.feed(&piece[..n]);
        }
        answer
    }

    // A peer that waits for the end of its input has it behind `==END`.
    fn flush(&mut self) -> bool {
        let answer = self.sink.flush();
        if self.watch.is_seen() {
            let _ = self.stream.shutdown(Shutdown::Write);
        }
        answer
    }
}

impl CountedSink for RealOut {
    fn faults(&self) -> u64 {
        self.sink.faults()
    }
}
