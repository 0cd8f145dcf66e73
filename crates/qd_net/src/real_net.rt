//! The net of the system, over TCP.
ghost use Rattle.std.specs.Prelude.{◌≡◌, None};
ghost use Rattle.qd_net.specs.Meeting.{net_at_first};

use crate::counted::{CountedSink, CountedSource};
use crate::net::Net;
use crate::real_conn::{RealConn, RealIn, RealOut};
use qd_outside::{Read, Source};
use std::io::ErrorKind;
use std::net::{SocketAddr, TcpListener, TcpStream};
use std::time::{Clock, Duration, Instant};
use std::{io, net};

/// How many seconds an accepted connection's peer may take no byte of a write.
const WRITE_SECONDS: u64 = 60;

/// How many seconds hanging up waits for the next byte of a connection.
const IDLE_SECONDS: u64 = 20;

/// How many seconds a net spends on hanging up, all its connections together.
const HANG_UP_SECONDS: u64 = 60;

/// The net of the machine.
#[derive(Drop)]
pub struct RealNet<'a, R: net::Net<Listener = TcpListener, Stream = TcpStream> + Clock> {
    rt: &'a R,
    listener: Option<TcpListener>,
    first_hang_up: Option<Instant>,
    opened: u64,
    faults: u64,
    hang_up_faults: u64,
}

impl<'a, R: net::Net<Listener = TcpListener, Stream = TcpStream> + Clock> RealNet<'a, R> {
    /// The net of the machine, on which nothing listens yet.
    pub fn new(rt: &'a R) -> RealNet<'a, R>
        ensures { ⟦<RealNet<'a, R> as Net>⟧.told result ≡ net_at_first None None None }
    {
        RealNet {
            rt,
            listener: None,
            first_hang_up: None,
            opened: 0,
            faults: 0,
            hang_up_faults: 0,
        }
    }

    /// How many connections were hung up of which a half had a fault.
    pub fn hang_up_faults(&self) -> u64
        ensures { result ≡ (⟦<RealNet<'a, R> as Net>⟧.told self.now).hang_up_faults }
    {
        self.hang_up_faults
    }

    /// Where it listens.
    pub fn local_addr(&self) -> Option<SocketAddr> {
        self.listener.as_ref()?.local_addr().ok()
    }
}

impl<'a, R: net::Net<Listener = TcpListener, Stream = TcpStream> + Clock> Net for RealNet<'a, R> {
    ghost use Rattle.std.specs.Prelude.{None};

    type Conn = RealConn;

    ghost told = { λ s. record {
      coming = None;
      ended = None;
      asked = None;
      opened = s.opened;
      faults = s.faults;
      hang_up_faults = s.hang_up_faults;
    } };

    fn listen(&mut self, addr: &str) -> bool {
        match TcpListener::bind(self.rt, addr) {
            Ok(listener) => {
                self.listener = Some(listener);
                true
            }
            Err(_) => {
                self.faults = self.faults.saturating_add(1);
                false
            }
        }
    }

    fn accept(&mut self) -> Option<RealConn> {
        if let Some(listener) = &self.listener {
            if let Ok(stream) = next_stream(listener) {
                self.opened = self.opened.saturating_add(1);
                return Some(RealConn::new(stream));
            }
        }
        self.faults = self.faults.saturating_add(1);
        None
    }

    fn dial(&mut self, addr: &str) -> Option<RealConn> {
        if let Ok(stream) = TcpStream::connect(self.rt, addr) {
            self.opened = self.opened.saturating_add(1);
            return Some(RealConn::new(stream));
        }
        self.faults = self.faults.saturating_add(1);
        None
    }

    fn hang_up(&mut self, input: RealIn, output: RealOut) {
        if input.faults() > 0 || output.faults() > 0 {
            self.hang_up_faults = self.hang_up_faults.saturating_add(1);
        }
        input.end_writing();
        if self.first_hang_up.is_none() {
            self.first_hang_up = Instant::now(self.rt).ok();
        }
        if let Some(first) = self.first_hang_up {
            drop_rest(self.rt, first, input);
        }
    }
}

/// The next connection that comes. A peer that went away before it was accepted is passed over.
fn next_stream(listener: &TcpListener) -> io::Result<TcpStream> {
    for _ in 0..u64::MAX {
        match listener.accept() {
            Ok((stream, _)) => {
                stream.set_write_timeout(Some(Duration::from_secs(WRITE_SECONDS)))?;
                return Ok(stream);
            }
            Err(e) => match e.kind() {
                ErrorKind::Interrupted | ErrorKind::ConnectionAborted => {}
                _ => return Err(e),
            },
        }
    }
    Err(io::Error::from(ErrorKind::TimedOut))
}

/// Reads and drops what comes, until the peer's `==END`, the end of the input, a fault, or for as long as it may take.
fn drop_rest<R: Clock>(rt: &R, first: Instant, mut input: RealIn) {
    let mut buf = [0; 16_384];
    for _ in 0..u64::MAX {
        if input.has_ended() {
            return;
        }
        let Ok(spent) = first.elapsed(rt) else {
            return;
        };
        let left = Duration::from_secs(HANG_UP_SECONDS).saturating_sub(spent);
        let wait = left.min(Duration::from_secs(IDLE_SECONDS));
        if wait.is_zero() || !input.set_wait(wait) {
            return;
        }
        match input.read(&mut buf) {
            Read::Got(_) => {}
            Read::End | Read::Failed => return,
        }
    }
}
