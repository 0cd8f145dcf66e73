//! The words of `gen`, which have no options.

ghost use Rattle.std.specs.Prelude.{◌≡◌, ◌∷◌, [], codes, map, string_bytes, option_map, option_and_then, IfSome, None};
ghost use Rattle.qd_words.specs.Asking.{asks};
ghost use Rattle.qd_words.specs.Words.{same_text};
ghost use Rattle.qd_words.specs.Scripts.{asks_script, bare, pair_of, read_script, script_of, shown_pair, start_of};

use crate::given::{is_end, is_option};
use crate::reading::count_of;

const LAST_START: u64 = 2_147_483_646;

const MOST_ITEMS: u64 = 600_000;

/// The script that is to be generated: the number that it starts from, 1 to 2147483646, and how many items it feeds, at most
/// 600000.
#[derive(Clone, Copy, Debug, PartialEq, Eq)]
pub struct ScriptAsk {
    pub start: u32,
    pub count: u32,
}

/// Two words.
#[derive(Clone, Copy)]
struct Pair<'a> {
    first: &'a str,
    second: &'a str,
}

/// The script that the words ask for; none where they ask for nothing that is known, or for something else.
#[tactic(auto, using(crate::proofs::ScriptWords::words_asked, crate::proofs::ScriptWords::words_alone))]
pub fn script_ask_of(words: &Vec<String>) -> Option<ScriptAsk>
    ensures asked { result ≡ asks_script (map string_bytes words.now.items) }
    ensures alone { IfSome result (λ ask. asks (map string_bytes words.now.items) ≡ None) }
{
    read_script(words.as_slice())
}

/// The script that the words ask for, one by one.
fn read_script(words: &[String]) -> Option<ScriptAsk>
    ensures { result ≡ read_script (map string_bytes words.now) }
{
    match words {
        [] => None,
        [first, rest @ ..] => {
            if !is_gen(first.as_str()) {
                return None;
            }
            script_of(pair_of(rest)?)
        }
    }
}

fn is_gen(word: &str) -> bool
    ensures { result ≡ same_text word.now (codes "gen") }
{
    word.as_bytes() == b"gen".as_slice()
}

/// The two words behind a command that takes no option, one of which may stand behind `--`.
fn pair_of(words: &[String]) -> Option<Pair<'_>>
    ensures { option_map shown_pair result ≡ option_and_then pair_of (bare (map string_bytes words.now)) }
{
    match words {
        [first, second] => open_pair(first.as_str(), second.as_str()),
        [first, second, third] => pair_of_three(first.as_str(), second.as_str(), third.as_str()),
        [] => None,
        [_] => None,
        [_, _, _, _, ..] => None,
    }
}

/// Two words, neither of which is an option.
fn open_pair<'a>(first: &'a str, second: &'a str) -> Option<Pair<'a>>
    ensures { option_map shown_pair result ≡ option_and_then pair_of (bare (first.now ∷ second.now ∷ [])) }
{
    if is_option(first) || is_option(second) {
        return None;
    }
    Some(Pair { first, second })
}

/// Two words and `--` among them.
fn pair_of_three<'a>(first: &'a str, second: &'a str, third: &'a str) -> Option<Pair<'a>>
    ensures { option_map shown_pair result ≡ option_and_then pair_of (bare (first.now ∷ second.now ∷ third.now ∷ [])) }
{
    if is_end(first) {
        return Some(Pair {
            first: second,
            second: third,
        });
    }
    if is_option(first) {
        return None;
    }
    if is_end(second) {
        return Some(Pair {
            first,
            second: third,
        });
    }
    if is_option(second) || !is_end(third) {
        return None;
    }
    Some(Pair { first, second })
}

/// The script of a start and a count.
fn script_of(pair: Pair<'_>) -> Option<ScriptAsk>
    ensures { result ≡ script_of (shown_pair pair.entry) }
{
    let start = start_of(pair.first)?;
    let count = count_of(pair.second, MOST_ITEMS)?;
    Some(ScriptAsk {
        start,
        count: count as u32,
    })
}

/// A start, as digits alone.
fn start_of(word: &str) -> Option<u32>
    ensures { result ≡ start_of word.now }
{
    match count_of(word, LAST_START)? {
        0 => None,
        start => Some(start as u32),
    }
}
