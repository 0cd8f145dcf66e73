//! `qds`: checks, formats and replays texts of market data, and speaks with a server of them.
#![tactic(auto)]

ghost use Rattle.std.specs.Prelude.{◌≡◌};
ghost use Rattle.std.specs.Process.{exit_status};

use qd_clock::RealClock;
use qd_job::RealSpawner;
use qd_net::RealNet;
use qd_outside::{Reading, RealFiles, Writing};
use qd_words::is_net;
use qds_net::net_main;
use qds_tools::{Status, report_no_words, run_main};
use std::process::ExitCode;
use std::random::RandomSource;
use std::{env, io};

fn main(rt: HostRuntime) -> ExitCode {
    let mut files = RealFiles::new(&rt);
    let mut input = Reading::new(rt.stdin());
    let mut out = Writing::new(rt.stdout());
    let mut err = Writing::new(rt.stderr());
    let words = words(&rt);
    if !names_server(&words) {
        let status = run_main(
            rt.alloc(),
            seed(&rt),
            words,
            &mut files,
            &mut input,
            &mut out,
            &mut err,
        );
        return code_of(&status);
    }
    let words = match words {
        Ok(words) => words,
        Err(why) => return code_of(&report_no_words(why, &mut err)),
    };
    let status = net_main(
        &rt,
        rt.alloc(),
        &words,
        &mut files,
        &mut RealNet::new(&rt),
        &mut RealSpawner::new(),
        &mut RealClock::new(&rt),
        &mut input,
        &mut out,
        &mut err,
    );
    code_of(&status)
}

// Whether the words are those of a command that speaks with a server.
fn names_server(words: &Result<Vec<String>, io::Error>) -> bool {
    match words {
        Ok(words) => is_net(words),
        Err(_) => false,
    }
}

// A seed that nobody outside knows; a fixed one where the system has none to give.
fn seed(rt: &HostRuntime) -> u64 {
    let mut bytes = [0; 8];
    match rt.fill_bytes(&mut bytes) {
        Ok(()) => u64::from_le_bytes(bytes),
        Err(_) => 0,
    }
}

// The words behind the program's name.
fn words(rt: &HostRuntime) -> Result<Vec<String>, io::Error> {
    let mut words = Vec::new(rt.alloc());
    for word in env::args(rt)?.skip(1) {
        words.push(word)?;
    }
    Ok(words)
}

// The status of the process is that of the run.
fn code_of(status: &Status) -> ExitCode
    ensures { exit_status result ≡ status.now }
{
    ExitCode::from(status.get())
}
