ghost use Rattle.std.specs.Prelude.{◌≡◌, ◌≤◌, map, string_bytes, option_map, None, IfSome, true};
ghost use Rattle.qd_scheme.specs.Stripes.{IsStripeCount};
ghost use Rattle.qd_words.specs.Asking.{asks, asked, command_of, file_of, count_in, size_of, size_for, is_stripe_count, stripes_of, stripes_for, IsSize, HasSizes};
ghost use Rattle.qd_words.specs.Given.{shown, nothing, given_by, finished, read_asked};

use crate::ask::{Ask, Command};
use crate::given::Given;
use qd_decimal::read_count;

/// The size where no option gives one.
const DEFAULT_SIZE: u16 = 1024;

const GREATEST_SIZE: u16 = 4096;

const MOST_STRIPES: u8 = 16;

/// The most bytes of a word that is read as a count, as of a line of text.
const LONGEST_COUNT: usize = 4096;

/// What the words ask for; none where they ask for nothing that is known.
#[tactic(auto, using(crate::proofs::RestLaws::words_asked))]
pub fn ask_of(words: &Vec<String>) -> Option<Ask<'_>>
    ensures asked { option_map asked result ≡ asks (map string_bytes words.now.items) }
    ensures sizes { IfSome result HasSizes }
{
    read(words.as_slice())
}

/// What the words ask for, one by one.
fn read(words: &[String]) -> Option<Ask<'_>>
    ensures asked { option_map asked result ≡ read_asked (map string_bytes words.now) }
    ensures sizes { IfSome result HasSizes }
{
    match words {
        [] => None,
        [first, rest @ ..] => {
            let command = command_of(first.as_str())?;
            let given = given_by(Given::new(), rest)?;
            asked_by(command, given)
        }
    }
}

/// The command with the values that were given.
fn asked_by(command: Command, given: Given<'_>) -> Option<Ask<'_>>
    ensures asked { option_map asked result ≡ finished command (shown given.entry) }
    ensures sizes { IfSome result HasSizes }
{
    if given.waiting.is_some() {
        return None;
    }
    let cap = size_for(command, given.values.cap)?;
    let hcap = size_for(command, given.values.hcap)?;
    let stripes = stripes_for(command, given.values.stripes)?;
    Some(Ask {
        command,
        file: file_of(given.word),
        scheme: given.values.scheme,
        cap,
        hcap,
        stripes,
    })
}

/// The size that an option gives a command.
pub fn size_for(command: Command, given: Option<&str>) -> Option<u16>
    ensures size { result ≡ size_for command (option_map (λ s. s.now) given.entry) }
    ensures within { IfSome result IsSize }
{
    match (command, given) {
        (_, None) => Some(DEFAULT_SIZE),
        (Command::Replay, Some(word)) => size_of(word),
        (_, Some(_)) => None,
    }
}

/// A size, as digits alone.
fn size_of(word: &str) -> Option<u16>
    ensures size { result ≡ size_of word.now }
    ensures within { IfSome result IsSize }
{
    match count_of(word, GREATEST_SIZE.into())? {
        0 => None,
        size => Some(size as u16),
    }
}

/// The number of stripes that an option gives a command.
pub fn stripes_for(command: Command, given: Option<&str>) -> Option<u8>
    ensures stripes { result ≡ stripes_for command (option_map (λ s. s.now) given.entry) }
    ensures within { IfSome result IsStripeCount }
{
    match (command, given) {
        (_, None) => Some(1),
        (Command::Replay, Some(word)) => stripes_of(word),
        (_, Some(_)) => None,
    }
}

/// A number of stripes, as digits alone.
fn stripes_of(word: &str) -> Option<u8>
    ensures stripes { result ≡ stripes_of word.now }
    ensures within { IfSome result IsStripeCount }
{
    let count = count_of(word, MOST_STRIPES.into())?;
    if !is_stripe_count(count) {
        return None;
    }
    Some(count as u8)
}

fn is_stripe_count(count: u64) -> bool
    ensures test { result ≡ is_stripe_count count }
    ensures cases { result ≡ true → IsStripeCount count }
{
    count == 1 || count == 2 || count == 4 || count == 8 || count == 16
}

/// A count of at most `most`, as digits alone.
pub fn count_of(word: &str, most: u64) -> Option<u64>
    ensures value { result ≡ count_in most word.now }
    ensures within { IfSome result (λ n. n ≤ most) }
{
    let digits = word.as_bytes();
    if digits.len() > LONGEST_COUNT {
        return None;
    }
    read_count(digits, most).ok()
}

/// What words give behind those before them.
fn given_by<'a>(given: Given<'a>, words: &'a [String]) -> Option<Given<'a>>
    ensures { option_map shown result ≡ given_by (shown given.entry) (map string_bytes words.now) }
{
    match words {
        [] => Some(given),
        [word, more @ ..] => given_by(given.with_word(word.as_str())?, more),
    }
}

fn command_of(word: &str) -> Option<Command>
    ensures { result ≡ command_of word.now }
{
    let name = word.as_bytes();
    if name == b"check".as_slice() {
        Some(Command::Check)
    } else if name == b"fmt".as_slice() {
        Some(Command::Fmt)
    } else if name == b"replay".as_slice() {
        Some(Command::Replay)
    } else {
        None
    }
}

pub fn file_of(word: Option<&str>) -> Option<&str>
    ensures { option_map (λ s. s.now) result ≡ file_of (option_map (λ s. s.now) word.entry) }
{
    match word {
        Some(name) if name.as_bytes() == b"-".as_slice() => None,
        _ => word,
    }
}
