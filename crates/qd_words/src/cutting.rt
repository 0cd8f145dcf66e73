//! Words, cut into options with their values and positional words.

ghost use Rattle.std.specs.Prelude.{◌≡◌, ◌∷◌, ℕ, List, [], map, string_bytes, option_map, option_to_list, IfOk};
ghost use Rattle.qd_words.specs.declared.cutting.Stage.TheVariants.{Open, Waiting};
ghost use Rattle.qd_words.specs.Words.{arguments};
ghost use Rattle.qd_words.specs.Asking.{values_of, positional, at_most_one};
ghost use Rattle.qd_words.specs.Cutting.{argument_of, arguments_of, with_rest, Takes, Gains};

use crate::given::{is_end, is_option, split_option};
use std::alloc::{AllocError, Global};

/// An option with its value, or a positional word.
#[derive(Clone, Copy)]
pub enum Argument<'a> {
    Named(&'a str, &'a str),
    Positional(&'a str),
}

/// What the next word is.
#[derive(Clone, Copy)]
enum Stage<'a> {
    Open,
    /// The value of this option.
    Waiting(&'a str),
    /// Positional, behind `--`.
    Ended,
}

/// The arguments of the words so far, and what the next one is.
#[derive(Drop)]
struct Cut<'a> {
    arguments: Vec<Argument<'a>>,
    stage: Stage<'a>,
}

/// The arguments of words; none where an option does not get a value.
pub fn arguments<'a>(
    alloc: Global,
    words: &'a [String],
) -> Result<Option<Vec<Argument<'a>>>, AllocError>
    ensures { IfOk result (λ found. option_map (λ v. arguments_of v.items) found ≡ arguments (map string_bytes words.now)) }
{
    let mut cut = Cut::new(alloc);
    for word in words {
        if !cut.with_word(word.as_str())? {
            return Ok(None);
        }
    }
    Ok(cut.finished())
}

impl<'a> Cut<'a> {
    /// Before the first word.
    fn new(alloc: Global) -> Cut<'a>
        ensures { (words : List (List ℕ)) → with_rest result words ≡ arguments words }
    {
        Cut {
            arguments: Vec::new(alloc),
            stage: Stage::Open,
        }
    }

    /// One word more; false where no words behind it can mend what it breaks.
    fn with_word(&mut self, word: &'a str) -> Result<bool, AllocError>
        ensures { IfOk result (λ goes_on. Takes self.old word.now goes_on self.new) }
    {
        match self.stage {
            Stage::Open => self.with_open(word),
            Stage::Waiting(name) => self.with_waited(name, word),
            Stage::Ended => self.with_argument(Argument::Positional(word)),
        }
    }

    /// A word that no option waits for.
    fn with_open(&mut self, word: &'a str) -> Result<bool, AllocError>
        requires { self.old.stage ≡ Open }
        ensures { IfOk result (λ goes_on. Takes self.old word.now goes_on self.new) }
    {
        if is_end(word) {
            self.stage = Stage::Ended;
            return Ok(true);
        }
        if !is_option(word) {
            return self.with_argument(Argument::Positional(word));
        }
        let (name, value) = split_option(word);
        match value {
            Some(value) => self.with_argument(Argument::Named(name, value)),
            None => {
                self.stage = Stage::Waiting(word);
                Ok(true)
            }
        }
    }

    /// The value that an option waited for.
    fn with_waited(&mut self, name: &'a str, value: &'a str) -> Result<bool, AllocError>
        requires { self.old.stage ≡ Waiting name }
        ensures { IfOk result (λ goes_on. Takes self.old value.now goes_on self.new) }
    {
        if is_option(value) {
            return Ok(false);
        }
        self.stage = Stage::Open;
        self.with_argument(Argument::Named(name, value))
    }

    /// One argument more; true.
    fn with_argument(&mut self, argument: Argument<'a>) -> Result<bool, AllocError>
        ensures gains { IfOk result (λ goes_on. Gains self.old (argument_of argument.entry) goes_on self.new) }
        ensures stage { self.new.stage ≡ self.old.stage }
    {
        self.arguments.push(argument)?;
        Ok(true)
    }

    /// The arguments, once no word is left; none where an option still waits.
    fn finished(self) -> Option<Vec<Argument<'a>>>
        ensures { option_map (λ v. arguments_of v.items) result ≡ with_rest self.entry [] }
    {
        match self.stage {
            Stage::Waiting(_) => None,
            _ => Some(self.arguments),
        }
    }
}

/// The value that arguments give an option, if they give it one; none where they give it several.
pub fn value_for<'a>(arguments: &[Argument<'a>], name: &[u8]) -> Option<Option<&'a str>>
    ensures { option_map (λ value. option_map (λ s. s.now) value) result ≡ at_most_one (values_of name.now (arguments_of arguments.now)) }
{
    let mut found = None;
    for argument in arguments {
        if let Some(value) = value_given(argument, name) {
            if found.is_some() {
                return None;
            }
            found = Some(value);
        }
    }
    Some(found)
}

/// The value that an argument gives an option.
fn value_given<'a>(argument: &Argument<'a>, name: &[u8]) -> Option<&'a str>
    ensures { option_to_list (option_map (λ s. s.now) result) ≡ values_of name.now (argument_of argument.now ∷ []) }
{
    match argument {
        Argument::Named(other, value) if other.as_bytes() == name => Some(value),
        _ => None,
    }
}

/// The positional words, in order.
pub fn positional<'a>(alloc: Global, arguments: &[Argument<'a>]) -> Result<Vec<&'a str>, AllocError>
    ensures { IfOk result (λ v. map (λ s. s.now) v.items ≡ positional (arguments_of arguments.now)) }
{
    let mut words = Vec::new(alloc);
    for argument in arguments {
        if let Argument::Positional(word) = argument {
            words.push(*word)?;
        }
    }
    Ok(words)
}
