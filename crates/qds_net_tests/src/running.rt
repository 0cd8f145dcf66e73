//! A run of the program over a net in memory, and what it leaves.

use qd_clock::ListClock;
use qd_job::ListSpawner;
use qd_net::{Ended, ListNet, Peer};
use qd_outside::{ListFiles, ListSink, ListSource};
use qds_net::net_main;
use std::alloc::{AllocError, Global};
use std::collections::VecDeque;
use std::sync::Wait;
use std::thread::Threads;

/// What a run leaves.
#[derive(Drop)]
pub struct Ran {
    pub status: u8,
    pub net: ListNet,
    pub out: ListSink,
    pub err: ListSink,
}

/// The program over these words and this input, with a peer that sends this, where there is one.
pub fn run<R: Threads + Wait + Copy + Send + Sync + 'static>(
    rt: &R,
    alloc: Global,
    words: &[&str],
    peer: Option<&[u8]>,
    text: &[u8],
) -> Result<Ran, AllocError> {
    let words = words_of(alloc, words)?;
    let mut files = ListFiles::new(alloc, Vec::new(alloc), Vec::new(alloc));
    let mut net = ListNet::new(alloc, peers_of(alloc, peer)?, VecDeque::new(alloc));
    let mut threads = ListSpawner::new(Vec::new(alloc));
    let mut clock = ListClock::new(Vec::new(alloc));
    let mut input = ListSource::new(Vec::from_slice(alloc, text)?, Vec::new(alloc));
    let mut out = ListSink::new(alloc, Vec::new(alloc));
    let mut err = ListSink::new(alloc, Vec::new(alloc));
    let status = net_main(
        rt,
        alloc,
        &words,
        &mut files,
        &mut net,
        &mut threads,
        &mut clock,
        &mut input,
        &mut out,
        &mut err,
    );
    Ok(Ran {
        status: status.get(),
        net,
        out,
        err,
    })
}

fn words_of(alloc: Global, words: &[&str]) -> Result<Vec<String>, AllocError> {
    let mut strings = Vec::new(alloc);
    for word in words {
        strings.push(String::from_str(alloc, word)?)?;
    }
    Ok(strings)
}

fn peers_of(alloc: Global, sends: Option<&[u8]>) -> Result<VecDeque<Peer>, AllocError> {
    let mut peers = VecDeque::new(alloc);
    if let Some(sends) = sends {
        peers.push_back(Peer {
            sends: Vec::from_slice(alloc, sends)?,
            failing_reads: Vec::new(alloc),
            failing_writes: Vec::new(alloc),
        })?;
    }
    Ok(peers)
}

/// Whether this was sent over the connection that was hung up last.
pub fn has_sent(net: &ListNet, text: &[u8]) -> bool {
    match net.ended() {
        Ended::Wrote { sink, before: _ } => sink.written() == text,
        Ended::Nothing => false,
    }
}
