//! The words of the commands that speak with a server.

ghost use Rattle.std.specs.Prelude.{◌≡◌, ◌<◌, ◌∷◌, [], map, string_bytes, option_map, option_and_then, IfOk, IfSome};
ghost use Rattle.qd_words.specs.Words.{arguments, before_byte, behind_byte};
ghost use Rattle.qd_words.specs.Cutting.{argument_of, arguments_of};
ghost use Rattle.qd_words.specs.NetAsking.{asks_net, net_asked, net_asked_by, net_command_of, takes, takes_all, post_of, dump_of, dump_with, dump_values, shown_values, posted, wanted, collector_of, want_of, some_wants, awaited, limit_of, HasCount, is_net};
ghost use Rattle.qd_words.specs.NetAsking.NetAsked.{Dump};

use crate::cutting::{Argument, arguments, positional, value_for};
use crate::net_ask::{DumpAsk, NetAsk, NetCommand, PostAsk, WantAsk};
use crate::reading::{count_of, file_of};
use qd_grammar::Collector;
use qd_scheme::Sym;
use std::alloc::{AllocError, Global};

/// The greatest number that words say, 2^63 - 1.
const GREATEST: u64 = (1 << 63) - 1;

/// What the words ask of a server; none where they ask for nothing that is known. An `Err` is want of memory.
#[tactic(auto, unfolding(crate::specs::NetAsking::asks_net))]
pub fn net_ask_of(alloc: Global, words: &Vec<String>) -> Result<Option<NetAsk<'_>>, AllocError>
    ensures asked { IfOk result (λ ask. option_map net_asked ask ≡ asks_net (map string_bytes words.now.items)) }
    ensures count { IfOk result (λ ask. IfSome ask HasCount) }
{
    match words.as_slice() {
        [] => Ok(None),
        [first, rest @ ..] => match net_command_of(first.as_str()) {
            Some(command) => asked_by(alloc, command, rest),
            None => Ok(None),
        },
    }
}

/// What the words behind a command ask of it.
fn asked_by<'a>(
    alloc: Global,
    command: NetCommand,
    words: &'a [String],
) -> Result<Option<NetAsk<'a>>, AllocError>
    ensures asked { IfOk result (λ ask. option_map net_asked ask ≡ option_and_then (net_asked_by command) (arguments (map string_bytes words.now))) }
    ensures count { IfOk result (λ ask. IfSome ask HasCount) }
{
    match arguments(alloc, words)? {
        Some(arguments) => asked_with(alloc, command, arguments.as_slice()),
        None => Ok(None),
    }
}

/// What arguments ask of a command.
fn asked_with<'a>(
    alloc: Global,
    command: NetCommand,
    arguments: &[Argument<'a>],
) -> Result<Option<NetAsk<'a>>, AllocError>
    ensures asked { IfOk result (λ ask. option_map net_asked ask ≡ net_asked_by command (arguments_of arguments.now)) }
    ensures count { IfOk result (λ ask. IfSome ask HasCount) }
{
    if !takes_all(command, arguments) {
        return Ok(None);
    }
    let words = positional(alloc, arguments)?;
    match command {
        NetCommand::Post => Ok(post_of(arguments, words.as_slice()).map(NetAsk::Post)),
        NetCommand::Dump => dump_of(alloc, arguments, words.as_slice()),
    }
}

fn takes_all(command: NetCommand, arguments: &[Argument<'_>]) -> bool
    ensures { result ≡ takes_all command (arguments_of arguments.now) }
{
    for argument in arguments {
        if !takes_argument(command, argument) {
            return false;
        }
    }
    true
}

fn takes_argument(command: NetCommand, argument: &Argument<'_>) -> bool
    ensures { result ≡ takes_all command (argument_of argument.now ∷ []) }
{
    match argument {
        Argument::Named(name, _) => takes(command, name),
        Argument::Positional(_) => true,
    }
}

fn takes(command: NetCommand, name: &str) -> bool
    ensures { result ≡ takes command name.now }
{
    let name = name.as_bytes();
    match command {
        NetCommand::Post => name == b"--scheme".as_slice(),
        NetCommand::Dump => {
            name == b"--scheme".as_slice()
                || name == b"--count".as_slice()
                || name == b"--limit".as_slice()
        }
    }
}

/// An address, and perhaps a file.
fn post_of<'a>(arguments: &[Argument<'a>], words: &[&'a str]) -> Option<PostAsk<'a>>
    ensures { option_map posted result ≡ post_of (arguments_of arguments.now) (map (λ s. s.now) words.now) }
{
    let (addr, file) = match words {
        [addr] => (*addr, None),
        [addr, file] => (*addr, Some(*file)),
        _ => return None,
    };
    let scheme = value_for(arguments, b"--scheme")?;
    Some(PostAsk {
        addr,
        file: file_of(file),
        scheme,
    })
}

/// An address, a collector and wants.
fn dump_of<'a>(
    alloc: Global,
    arguments: &[Argument<'a>],
    words: &[&'a str],
) -> Result<Option<NetAsk<'a>>, AllocError>
    ensures asked { IfOk result (λ ask. option_map net_asked ask ≡ option_map Dump (dump_of (arguments_of arguments.now) (map (λ s. s.now) words.now))) }
    ensures count { IfOk result (λ ask. IfSome ask HasCount) }
{
    match words {
        [addr, collector, words @ ..] => match (collector_of(collector), dump_values(arguments)) {
            (Some(collector), Some(values)) => dump_with(alloc, addr, collector, values, words),
            _ => Ok(None),
        },
        _ => Ok(None),
    }
}

/// The wants of a dump with these values.
fn dump_with<'a>(
    alloc: Global,
    addr: &'a str,
    collector: Collector,
    values: DumpValues<'a>,
    words: &[&'a str],
) -> Result<Option<NetAsk<'a>>, AllocError>
    requires { 0 < values.count }
    ensures asked { IfOk result (λ ask. option_map net_asked ask ≡ option_map (λ wants. Dump (dump_with addr.now collector (shown_values values.entry) wants)) (some_wants (map (λ s. s.now) words.now))) }
    ensures count { IfOk result (λ ask. IfSome ask HasCount) }
{
    match some_wants(alloc, words) {
        Err(e) => Err(e),
        Ok(None) => Ok(None),
        Ok(Some(wants)) => Ok(Some(NetAsk::Dump(DumpAsk {
            addr,
            collector,
            wants,
            count: values.count,
            limit: values.limit,
            scheme: values.scheme,
        }))),
    }
}

/// The values of the options of `dump`.
#[derive(Clone, Copy)]
struct DumpValues<'a> {
    count: u64,
    limit: u64,
    scheme: Option<&'a str>,
}

fn dump_values<'a>(arguments: &[Argument<'a>]) -> Option<DumpValues<'a>>
    ensures values { option_map shown_values result ≡ dump_values (arguments_of arguments.now) }
    ensures count { IfSome result (λ values. 0 < values.count) }
{
    let scheme = value_for(arguments, b"--scheme")?;
    let count = awaited(value_for(arguments, b"--count")?)?;
    let limit = limit_of(value_for(arguments, b"--limit")?)?;
    Some(DumpValues {
        count,
        limit,
        scheme,
    })
}

/// How many items are awaited: at least one, and it has to be said.
fn awaited(given: Option<&str>) -> Option<u64>
    ensures count { result ≡ awaited (option_map (λ s. s.now) given.entry) }
    ensures some { IfSome result (λ count. 0 < count) }
{
    match count_of(given?, GREATEST)? {
        0 => None,
        count => Some(count),
    }
}

/// The limit, 0 where it is not said.
fn limit_of(given: Option<&str>) -> Option<u64>
    ensures limit { result ≡ limit_of (option_map (λ s. s.now) given.entry) }
{
    match given {
        None => Some(0),
        Some(word) => count_of(word, GREATEST),
    }
}

/// At least one want.
fn some_wants<'a>(alloc: Global, words: &[&'a str]) -> Result<Option<Vec<WantAsk<'a>>>, AllocError>
    ensures { IfOk result (λ wants. option_map (λ v. map wanted v.items) wants ≡ some_wants (map (λ s. s.now) words.now)) }
{
    if words.is_empty() {
        return Ok(None);
    }
    let mut wants = Vec::new(alloc);
    for word in words {
        let Some(want) = want_of(word) else {
            return Ok(None);
        };
        if wants.push(want).is_err() {
            return Err(AllocError);
        }
    }
    Ok(Some(wants))
}

/// A want, cut at its first `/`.
fn want_of(word: &str) -> Option<WantAsk<'_>>
    ensures { option_map wanted result ≡ want_of word.now }
{
    let (name, symbol) = split_want(word)?;
    match Sym::of(symbol.as_bytes()) {
        Ok(symbol) => Some(WantAsk { name, symbol }),
        Err(_) => None,
    }
}

/// What stands before and behind the first `/` of a word.
fn split_want(word: &str) -> Option<(&str, &str)>
    ensures parts { option_map (λ parts. parts.1.now) result ≡ behind_byte 47 word.now }
    ensures name { IfSome result (λ parts. parts.0.now ≡ before_byte 47 word.now) }
{
    match word.split_once('/') {
        Some((name, symbol)) => Some((name, symbol)),
        None => None,
    }
}

fn collector_of(word: &str) -> Option<Collector>
    ensures { result ≡ collector_of word.now }
{
    let name = word.as_bytes();
    if name == b"TICKER".as_slice() {
        Some(Collector::Ticker)
    } else if name == b"STREAM".as_slice() {
        Some(Collector::Stream)
    } else if name == b"HISTORY".as_slice() {
        Some(Collector::History)
    } else {
        None
    }
}

/// Whether words name a command that speaks with a server.
pub fn is_net(words: &Vec<String>) -> bool
    ensures { result ≡ is_net (map string_bytes words.now.items) }
{
    match words.as_slice() {
        [] => false,
        [first, ..] => net_command_of(first.as_str()).is_some(),
    }
}

fn net_command_of(word: &str) -> Option<NetCommand>
    ensures { result ≡ net_command_of word.now }
{
    let name = word.as_bytes();
    if name == b"post".as_slice() {
        Some(NetCommand::Post)
    } else if name == b"dump".as_slice() {
        Some(NetCommand::Dump)
    } else {
        None
    }
}
