//! A command with its scheme and its text.

ghost use Rattle.std.specs.Prelude.{◌≡◌};
ghost use Rattle.std.specs.Option.{option_copied};
ghost use Rattle.qd_words.specs.Asking.{asked, HasSizes};
ghost use Rattle.qd_check.specs.Runs.{IsFlushed};
ghost use Rattle.qds_tools.specs.Commands.{RunsBy, setting_of};
ghost use Rattle.qds_tools.specs.Program.{Ends, RunsOn, FileRuns, SchemeComes, SchemeRead};

use crate::program_end::ProgramEnd;
use qd_check::{check, fmt};
use qd_hub::Config;
use qd_items::RunEnd;
use qd_outside::{FileSource, Files, Sink, Source};
use qd_replay::replay_alone;
use qd_scheme::Scheme;
use qd_scheme_file::{NoScheme, read_scheme};
use qd_words::{Ask, Command};
use std::alloc::Global;

/// Runs what is asked: the scheme comes first, then the text. The seed is that of the collectors' hash of keys.
pub fn run_asked<F: Files, S: Source, K: Sink>(
    alloc: Global,
    seed: u64,
    ask: Ask<'_>,
    files: &mut F,
    input: &mut S,
    out: &mut K,
) -> ProgramEnd
    requires { HasSizes ask }
    ensures { Ends (asked ask.entry) result (record { files = F.told files.old; left = S.left input.old; reads = S.faults input.old; written = K.written out.old; flushed = K.flushed out.old; writes = K.faults out.old })
        (record { files = F.told files.new; left = S.left input.new; reads = S.faults input.new; written = K.written out.new; flushed = K.flushed out.new; writes = K.faults out.new }) }
{
    match scheme_of(alloc, ask.scheme, files) {
        Ok(scheme) => ProgramEnd::Ran(run_on(alloc, seed, &ask, &scheme, files, input, out)),
        Err(why) => ProgramEnd::Refused(why),
    }
}

/// The scheme: the built-in one where no file is named.
pub fn scheme_of<F: Files>(
    alloc: Global,
    name: Option<&str>,
    files: &mut F,
) -> Result<Scheme, NoScheme>
    ensures { SchemeComes (option_copied name.entry) result (F.told files.old) (F.told files.new) }
{
    match name {
        Some(name) => scheme_in(alloc, name, files),
        None => match Scheme::builtin(alloc) {
            Ok(scheme) => Ok(scheme),
            Err(_) => Err(NoScheme::NoMemory),
        },
    }
}

/// The scheme of a scheme file.
fn scheme_in<F: Files>(alloc: Global, name: &str, files: &mut F) -> Result<Scheme, NoScheme>
    ensures { SchemeRead name.now result (F.told files.old) (F.told files.new) }
{
    if !files.open_in(name) {
        return Err(NoScheme::ReadFault);
    }
    let mut source = FileSource::new(files);
    read_scheme(alloc, &mut source)
}

/// Runs a command over its text: standard input where no file is named.
fn run_on<F: Files, S: Source, K: Sink>(
    alloc: Global,
    seed: u64,
    ask: &Ask<'_>,
    scheme: &Scheme,
    files: &mut F,
    input: &mut S,
    out: &mut K,
) -> RunEnd
    requires { HasSizes ask.now }
    ensures { RunsOn ask.now.command (setting_of (asked ask.now) scheme.now) (asked ask.now).file result (record { files = F.told files.old; left = S.left input.old; reads = S.faults input.old; written = K.written out.old; flushed = K.flushed out.old; writes = K.faults out.old })
        (record { files = F.told files.new; left = S.left input.new; reads = S.faults input.new; written = K.written out.new; flushed = K.flushed out.new; writes = K.faults out.new }) }
{
    match ask.file {
        Some(name) => run_file(alloc, seed, ask, name, scheme, files, out),
        None => run(alloc, seed, ask, scheme, input, out),
    }
}

/// Runs a command over a file.
fn run_file<F: Files, K: Sink>(
    alloc: Global,
    seed: u64,
    ask: &Ask<'_>,
    name: &str,
    scheme: &Scheme,
    files: &mut F,
    out: &mut K,
) -> RunEnd
    requires { HasSizes ask.now }
    ensures { FileRuns ask.now.command (setting_of (asked ask.now) scheme.now) name.now result (F.told files.old) (F.told files.new) (K.written out.old) (K.written out.new) (K.flushed out.old) (K.flushed out.new) (K.faults out.old) (K.faults out.new) }
{
    if !files.open_in(name) {
        return RunEnd::ReadFault;
    }
    let mut source = FileSource::new(files);
    run(alloc, seed, ask, scheme, &mut source, out)
}

/// The sizes of the hub on which a script runs.
fn config_of(ask: &Ask<'_>) -> Config
    requires { HasSizes ask.now }
    ensures { result ≡ record { stripes = ask.now.stripes; cap = ask.now.cap; hcap = ask.now.hcap } }
{
    match Config::of(ask.stripes, ask.cap, ask.hcap) {
        Some(config) => config,
        None => unreachable!(),
    }
}

/// Runs a command over a source.
#[tactic(auto, using(crate::proofs::DecidedLaws::flushed_by))]
fn run<S: Source, K: Sink>(
    alloc: Global,
    seed: u64,
    ask: &Ask<'_>,
    scheme: &Scheme,
    source: &mut S,
    out: &mut K,
) -> RunEnd
    requires { HasSizes ask.now }
    ensures kept { S.kept source.new ≡ S.kept source.old }
    ensures runs { RunsBy ask.now.command (setting_of (asked ask.now) scheme.now) (record { left = S.left source.old; reads = S.faults source.old; written = K.written out.old; writes = K.faults out.old })
        result (record { left = S.left source.new; reads = S.faults source.new; written = K.written out.new; writes = K.faults out.new }) }
    ensures flushed { IsFlushed result (K.flushed out.new) }
{
    match ask.command {
        Command::Check => check(alloc, scheme, source, out),
        Command::Fmt => fmt(alloc, scheme, source, out),
        Command::Replay => replay_alone(alloc, seed, scheme, config_of(ask), source, out),
    }
}
