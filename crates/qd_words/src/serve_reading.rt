//! The words of a server of one's own.

ghost use Rattle.std.specs.Prelude.{◌≡◌, ◌≤◌, ◌∷◌, [], map, string_bytes, option_map, option_and_then, IfOk, IfSome};
ghost use Rattle.qd_words.specs.Words.{arguments};
ghost use Rattle.qd_words.specs.Cutting.{argument_of, arguments_of};
ghost use Rattle.qd_words.specs.ServeAsking.{asks_serve, links_of, serve_of, serve_takes, serve_takes_all, serve_values, served, served_by, served_with, HasLimits};

use crate::ask::Command;
use crate::cutting::{Argument, arguments, positional, value_for};
use crate::reading::{count_of, size_for, stripes_for};
use crate::serve_ask::ServeAsk;
use std::alloc::{AllocError, Global};

/// The most links of a server.
const MOST_LINKS: u64 = 128;

/// What the words ask of a server of one's own; none where they ask for nothing that is known. An `Err` is want of memory.
#[tactic(auto, unfolding(crate::specs::ServeAsking::asks_serve))]
pub fn serve_ask_of(alloc: Global, words: &Vec<String>) -> Result<Option<ServeAsk<'_>>, AllocError>
    ensures asked { IfOk result (λ ask. option_map served ask ≡ asks_serve (map string_bytes words.now.items)) }
    ensures limits { IfOk result (λ ask. IfSome ask (λ a. HasLimits a.links a.stripes a.cap a.hcap)) }
{
    match words.as_slice() {
        [] => Ok(None),
        [first, rest @ ..] => {
            if first.as_bytes() != b"serve".as_slice() {
                return Ok(None);
            }
            asked_by(alloc, rest)
        }
    }
}

/// What the words behind `serve` ask of it.
fn asked_by<'a>(alloc: Global, words: &'a [String]) -> Result<Option<ServeAsk<'a>>, AllocError>
    ensures asked { IfOk result (λ ask. option_map served ask ≡ option_and_then served_by (arguments (map string_bytes words.now))) }
    ensures limits { IfOk result (λ ask. IfSome ask (λ a. HasLimits a.links a.stripes a.cap a.hcap)) }
{
    match arguments(alloc, words)? {
        Some(arguments) => asked_with(alloc, arguments.as_slice()),
        None => Ok(None),
    }
}

/// What arguments ask of it.
fn asked_with<'a>(
    alloc: Global,
    arguments: &[Argument<'a>],
) -> Result<Option<ServeAsk<'a>>, AllocError>
    ensures asked { IfOk result (λ ask. option_map served ask ≡ served_by (arguments_of arguments.now)) }
    ensures limits { IfOk result (λ ask. IfSome ask (λ a. HasLimits a.links a.stripes a.cap a.hcap)) }
{
    if !takes_all(arguments) {
        return Ok(None);
    }
    let words = positional(alloc, arguments)?;
    Ok(serve_of(arguments, words.as_slice()))
}

fn takes_all(arguments: &[Argument<'_>]) -> bool
    ensures { result ≡ serve_takes_all (arguments_of arguments.now) }
{
    for argument in arguments {
        if !takes_argument(argument) {
            return false;
        }
    }
    true
}

fn takes_argument(argument: &Argument<'_>) -> bool
    ensures { result ≡ serve_takes_all (argument_of argument.now ∷ []) }
{
    match argument {
        Argument::Named(name, _) => takes(name),
        Argument::Positional(_) => true,
    }
}

fn takes(name: &str) -> bool
    ensures { result ≡ serve_takes name.now }
{
    let name = name.as_bytes();
    name == b"--links".as_slice()
        || name == b"--up".as_slice()
        || name == b"--stripes".as_slice()
        || name == b"--cap".as_slice()
        || name == b"--hcap".as_slice()
        || name == b"--scheme".as_slice()
}

/// An address, with the values of the options.
fn serve_of<'a>(arguments: &[Argument<'a>], words: &[&'a str]) -> Option<ServeAsk<'a>>
    ensures asked { option_map served result ≡ serve_of (arguments_of arguments.now) (map (λ s. s.now) words.now) }
    ensures limits { IfSome result (λ a. HasLimits a.links a.stripes a.cap a.hcap) }
{
    match words {
        [addr] => {
            let values = serve_values(arguments)?;
            Some(ServeAsk {
                addr,
                links: values.links,
                up: values.up,
                stripes: values.stripes,
                cap: values.cap,
                hcap: values.hcap,
                scheme: values.scheme,
            })
        }
        _ => None,
    }
}

/// The values of the options of `serve`.
#[derive(Clone, Copy)]
struct ServeValues<'a> {
    links: u8,
    up: Option<&'a str>,
    stripes: u8,
    cap: u16,
    hcap: u16,
    scheme: Option<&'a str>,
}

fn serve_values<'a>(arguments: &[Argument<'a>]) -> Option<ServeValues<'a>>
    ensures values { option_map served_with result ≡ serve_values (arguments_of arguments.now) }
    ensures limits { IfSome result (λ v. HasLimits v.links v.stripes v.cap v.hcap) }
{
    let links = links_of(value_for(arguments, b"--links")?)?;
    let up = value_for(arguments, b"--up")?;
    let stripes = stripes_for(Command::Replay, value_for(arguments, b"--stripes")?)?;
    let cap = size_for(Command::Replay, value_for(arguments, b"--cap")?)?;
    let hcap = size_for(Command::Replay, value_for(arguments, b"--hcap")?)?;
    let scheme = value_for(arguments, b"--scheme")?;
    Some(ServeValues {
        links,
        up,
        stripes,
        cap,
        hcap,
        scheme,
    })
}

/// How many links are served: it has to be said.
fn links_of(given: Option<&str>) -> Option<u8>
    ensures links { result ≡ links_of (option_map (λ s. s.now) given.entry) }
    ensures some { IfSome result (λ links. 1 ≤ links) }
    ensures few { IfSome result (λ links. links ≤ 128) }
{
    match count_of(given?, MOST_LINKS)? {
        0 => None,
        links => Some(links as u8),
    }
}
