//! `dump` over a net in memory.

use crate::running::{has_sent, run};
use std::process::Abort;
use std::test::Fail;

/// What a server sends of one quote.
const ONE_QUOTE: &[u8] =
    b"==PROTOCOL\t1\n==TICKER_DATA\nQuote\tIBM\t1\t1\t1\t1\n==HEARTBEAT\n==END\n";

#[test]
fn what_is_subscribed_to_is_printed(rt: HostRuntime) -> Result<(), Fail> {
    let words = ["dump", "a:1", "TICKER", "Quote/IBM", "--count", "1"];
    let ran = run(&rt, rt.alloc(), &words, Some(ONE_QUOTE), b"")?;
    assert!(rt; ran.status == 0);
    assert!(rt; ran.out.written() == b"==TICKER_DATA\nQuote\tIBM\t1\t1\t1\t1\n".as_slice());
    assert!(rt;
        has_sent(
            &ran.net,
            b"==PROTOCOL\t1\n==TICKER_ADD_SUBSCRIPTION\nQuote\tIBM\n==HEARTBEAT\n==END\n"
        )
    );
    Ok(())
}

#[test]
fn a_want_of_no_record_is_not_dialled(rt: HostRuntime) -> Result<(), Fail> {
    let words = ["dump", "a:1", "TICKER", "Foo/IBM", "--count", "1"];
    let ran = run(&rt, rt.alloc(), &words, Some(ONE_QUOTE), b"")?;
    assert!(rt; ran.status == 1);
    assert!(rt; ran.err.written() == b"qds: line 0: BadStep\n".as_slice());
    assert!(rt; ran.net.asked().is_empty());
    Ok(())
}

#[test]
fn a_dial_that_fails_is_a_fault_of_the_net(rt: HostRuntime) -> Result<(), Fail> {
    let words = ["dump", "a:1", "TICKER", "Quote/IBM", "--count", "1"];
    let ran = run(&rt, rt.alloc(), &words, None, b"")?;
    assert!(rt; ran.status == 6);
    assert!(rt; ran.err.written() == b"qds: net fault\n".as_slice());
    Ok(())
}
