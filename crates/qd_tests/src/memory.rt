//! Calls of the lower crates that take memory, where there is some.

use qd_buffer::{Buffer, split_by_stripe};
use qd_entries::Entries;
use qd_flags::{Ingest, Listener, Shown};
use qd_hist_feed::Feed;
use qd_hist_key::KeyState;
use qd_pend::PendQueue;
use qd_scheme::{
    AgentNo, Cells, Event, FieldDef, FieldKind, Fields, Key, Name, NoMemory, RecordDef, Scheme, Sym,
};
use qd_slots::{Holds, Kept, Names, Watchers};
use qd_sub::Sub;
use qd_table::SubTable;
use std::alloc::Global;
use std::test::Fail;

fn ibm() -> Result<Key, Fail> {
    let sym = Sym::of(b"IBM").ok().ok_or("no symbol")?;
    Ok(Key { rec: 1, sym })
}

/// A snapshot of one event.
fn snapshot() -> Result<Event, Fail> {
    Ok(Event {
        key: ibm()?,
        index: 9,
        flags: 12,
        cells: Cells::new(),
    })
}

/// A record of one field.
fn record(alloc: Global) -> Result<RecordDef, NoMemory> {
    let mut fields = Fields::new(alloc);
    fields.push(FieldDef {
        name: Name::new(alloc, b"P")?,
        kind: FieldKind::Dec(9),
    })?;
    Ok(RecordDef {
        name: Name::new(alloc, b"Bar")?,
        hist: false,
        fields,
    })
}

#[test]
fn a_scheme_is_made(rt: HostRuntime) -> Result<(), Fail> {
    let mut defs = Vec::new(rt.alloc());
    defs.push(record(rt.alloc())?)?;
    let scheme = Scheme::new(rt.alloc(), defs).ok().ok_or("refused")?;
    assert_eq!(rt; scheme.len(), 1);
    Ok(())
}

/// Takes what may be moved to a thread and shared among threads.
fn crosses_threads<T: Send + Sync>(_value: &T) {}

#[test]
fn a_scheme_crosses_threads(rt: HostRuntime) -> Result<(), Fail> {
    crosses_threads(&Scheme::builtin(rt.alloc())?);
    Ok(())
}

#[test]
fn a_buffer_has_room(rt: HostRuntime) -> Result<(), Fail> {
    let empty: Buffer<u8> = Buffer::with_room(rt.alloc(), 3)?;
    let full = Buffer::of_slice(rt.alloc(), &[1, 2])?;
    assert!(rt; empty.room() == 3 && full.room() == 2);
    Ok(())
}

#[test]
fn items_are_cut_by_stripe(rt: HostRuntime) -> Result<(), Fail> {
    let mut parts = Vec::new(rt.alloc());
    split_by_stripe(rt.alloc(), &[ibm()?], 4, &mut parts)?;
    assert_eq!(rt; parts.len(), 4);
    Ok(())
}

#[test]
fn a_queue_has_places(rt: HostRuntime) -> Result<(), Fail> {
    let mut queue = PendQueue::new(rt.alloc())?;
    queue.reserve(4)?;
    assert_eq!(rt; queue.slots(), 4);
    Ok(())
}

#[test]
fn entries_have_room(rt: HostRuntime) -> Result<(), Fail> {
    let mut entries = Entries::new(rt.alloc());
    entries.reserve(100)?;
    assert_eq!(rt; entries.spare(), 100);
    Ok(())
}

#[test]
fn a_listener_is_fed(rt: HostRuntime) -> Result<(), Fail> {
    let mut listener = Listener::new(rt.alloc())?;
    assert_eq!(rt; listener.feed(&snapshot()?)?, Shown::Committed);
    assert_eq!(rt; listener.len(), 1);
    Ok(())
}

#[test]
fn a_key_takes_a_snapshot_in(rt: HostRuntime) -> Result<(), Fail> {
    let mut state = KeyState::new(rt.alloc())?;
    state.reserve(1)?;
    assert_eq!(rt; state.ingest(&snapshot()?), Ingest::Snapshot);
    assert_eq!(rt; state.kept(), 1);
    Ok(())
}

#[test]
fn a_feed_has_room(rt: HostRuntime) -> Result<(), Fail> {
    let mut feed = Feed::new(rt.alloc());
    feed.reserve(3)?;
    assert_eq!(rt; feed.len(), 0);
    Ok(())
}

#[test]
fn keys_are_named(rt: HostRuntime) -> Result<(), Fail> {
    let mut names = Names::new(rt.alloc())?;
    names.reserve(1)?;
    assert_eq!(rt; names.room(), 1);
    Ok(())
}

#[test]
fn slots_are_added(rt: HostRuntime) -> Result<(), Fail> {
    let mut holds = Holds::new(rt.alloc())?;
    holds.reserve(0, 1)?;
    let mut kept = Kept::new(rt.alloc())?;
    kept.reserve(0, 1)?;
    let mut watchers = Watchers::new(rt.alloc())?;
    watchers.reserve(1)?;
    Ok(())
}

#[test]
fn a_key_is_subscribed_to(rt: HostRuntime) -> Result<(), Fail> {
    let key = ibm()?;
    let agent = AgentNo::of(0).ok_or("no agent")?;
    let mut table = SubTable::new(rt.alloc())?;
    assert_eq!(rt; table.add(agent, &[Sub { key, limit: 3 }]), Ok(()));
    assert_eq!(rt; table.total(&key), Some(3));
    Ok(())
}
