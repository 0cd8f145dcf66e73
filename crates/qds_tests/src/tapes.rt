//! A tape is written where there is memory.

use qd_grammar::Item;
use qd_outside::ListSink;
use qd_scheme::Scheme;
use qd_tape::TapeWriter;
use std::test::Fail;

#[test]
fn a_tape_has_each_time_once(rt: HostRuntime) -> Result<(), Fail> {
    let alloc = rt.alloc();
    let scheme = Scheme::builtin(alloc)?;
    let mut sink = ListSink::new(alloc, Vec::new(alloc));
    let mut tape = TapeWriter::new(alloc)?;
    for ms in [5, 5, 7, 6] {
        if !tape.has_failed() {
            tape.item(&scheme, ms, &Item::Heartbeat, &mut sink);
        }
    }
    let wanted = b"==TIME\t5\n==HEARTBEAT\n==HEARTBEAT\n==TIME\t7\n==HEARTBEAT\n==HEARTBEAT\n";
    assert_eq!(rt; sink.written(), wanted.as_slice());
    Ok(())
}
