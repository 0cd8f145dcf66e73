//! `post` over a net in memory.

use crate::running::{has_sent, run};
use std::process::Abort;
use std::test::Fail;

#[test]
fn each_item_is_sent_in_its_canonical_line(rt: HostRuntime) -> Result<(), Fail> {
    let text = b"==PROTOCOL\t1\n==TICKER_DATA\nQuote\tIBM\t1.0\t1\t1\t1\n==END\n";
    let ran = run(&rt, rt.alloc(), &["post", "a:1"], Some(b""), text)?;
    assert!(rt; ran.status == 0);
    assert!(rt;
        has_sent(
            &ran.net,
            b"==PROTOCOL\t1\n==TICKER_DATA\nQuote\tIBM\t1\t1\t1\t1\n==END\n"
        )
    );
    Ok(())
}

#[test]
fn a_step_of_a_script_is_not_sent(rt: HostRuntime) -> Result<(), Fail> {
    let text = b"==PROTOCOL\t1\n==LINK\t1\n==END\n";
    let ran = run(&rt, rt.alloc(), &["post", "a:1"], Some(b""), text)?;
    assert!(rt; ran.status == 1);
    assert!(rt; ran.err.written() == b"qds: line 2: BadStep\n".as_slice());
    assert!(rt; has_sent(&ran.net, b"==PROTOCOL\t1\n"));
    Ok(())
}
