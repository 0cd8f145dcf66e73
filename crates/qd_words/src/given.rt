ghost use Rattle.std.specs.Prelude.{◌≡◌, List, ℕ, ◌∷◌, Some, None, true, false, option_map};
ghost use Rattle.qd_words.specs.Words.{same_text, is_option, end_of_options, name_in, value_in};
ghost use Rattle.qd_words.specs.Asking.{name_of};
ghost use Rattle.qd_words.specs.Given.{shown, nothing, with_option_value, with_positional, with_option, with_waited, with_word};

use crate::ask::OptionName;
use crate::values::Values;

/// What the words so far give: the values of the options, the positional word, the option that waits for its value, and
/// whether `--` was among the words.
#[derive(Clone, Copy)]
pub struct Given<'a> {
    pub values: Values<'a>,
    pub word: Option<&'a str>,
    pub waiting: Option<OptionName>,
    pub ended: bool,
}

impl<'a> Given<'a> {
    /// Before the first word.
    pub fn new() -> Given<'a>
        ensures { shown result ≡ nothing }
    {
        Given {
            values: Values::new(),
            word: None,
            waiting: None,
            ended: false,
        }
    }

    /// One word more; none where no words behind it can mend what it breaks.
    pub fn with_word(self, word: &'a str) -> Option<Given<'a>>
        ensures { option_map shown result ≡ with_word (shown self.entry) word.now }
    {
        if self.ended {
            return self.with_positional(word);
        }
        if let Some(name) = self.waiting {
            return self.with_waited(name, word);
        }
        if is_end(word) {
            return Some(Given {
                ended: true,
                ..self
            });
        }
        if is_option(word) {
            return self.with_option(word);
        }
        self.with_positional(word)
    }

    fn with_positional(self, word: &'a str) -> Option<Given<'a>>
        ensures { option_map shown result ≡ with_positional (shown self.entry) word.now }
    {
        match self.word {
            Some(_) => None,
            None => Some(Given {
                word: Some(word),
                ..self
            }),
        }
    }

    /// An option's word, which has its value behind an `=` or waits for it.
    fn with_option(self, word: &'a str) -> Option<Given<'a>>
        ensures { option_map shown result ≡ with_option (shown self.entry) word.now }
    {
        let (name, value) = split_option(word);
        let name = name_of(name)?;
        match value {
            Some(value) => self.with_value(name, value),
            None => Some(Given {
                waiting: Some(name),
                ..self
            }),
        }
    }

    /// The value of an option.
    fn with_value(self, name: OptionName, value: &'a str) -> Option<Given<'a>>
        ensures { option_map shown result ≡ with_option_value (shown self.entry) name value.now }
    {
        let values = self.values.with_value(name, value)?;
        Some(Given { values, ..self })
    }

    /// The value that an option waited for.
    fn with_waited(self, name: OptionName, value: &'a str) -> Option<Given<'a>>
        ensures { option_map shown result ≡ with_waited (shown self.entry) name value.now }
    {
        if is_option(value) {
            return None;
        }
        Given {
            waiting: None,
            ..self
        }
        .with_value(name, value)
    }
}

/// The name of an option's word, and the value that it has.
pub fn split_option(word: &str) -> (&str, Option<&str>)
    ensures name { result.0.now ≡ name_in word.now }
    ensures value { option_map (λ s. s.now) result.1 ≡ value_in word.now }
{
    match word.split_once('=') {
        Some((name, value)) => (name, Some(value)),
        None => (word, None),
    }
}

pub fn is_end(word: &str) -> bool
    ensures { result ≡ same_text word.now end_of_options }
{
    word.as_bytes() == b"--".as_slice()
}

pub fn is_option(word: &str) -> bool
    ensures { result ≡ is_option word.now }
{
    let bytes = word.as_bytes();
    bytes.len() > 1 && bytes[0] == b'-'
}

fn name_of(word: &str) -> Option<OptionName>
    ensures { result ≡ name_of word.now }
{
    let name = word.as_bytes();
    if name == b"--scheme".as_slice() {
        Some(OptionName::Scheme)
    } else if name == b"--cap".as_slice() {
        Some(OptionName::Cap)
    } else if name == b"--hcap".as_slice() {
        Some(OptionName::Hcap)
    } else if name == b"--stripes".as_slice() {
        Some(OptionName::Stripes)
    } else {
        None
    }
}
