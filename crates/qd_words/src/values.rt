ghost use Rattle.std.specs.Prelude.{◌≡◌, Some, option_map};
ghost use Rattle.qd_words.specs.Given.{no_values, shown_values, value_of, with_set, with_value};

use crate::ask::OptionName;

/// The values of the options so far.
#[derive(Clone, Copy)]
pub struct Values<'a> {
    pub scheme: Option<&'a str>,
    pub cap: Option<&'a str>,
    pub hcap: Option<&'a str>,
    pub stripes: Option<&'a str>,
}

impl<'a> Values<'a> {
    /// Before the first option.
    pub fn new() -> Values<'a>
        ensures { shown_values result ≡ no_values }
    {
        Values {
            scheme: None,
            cap: None,
            hcap: None,
            stripes: None,
        }
    }

    /// One value more; none where the option has one.
    pub fn with_value(self, name: OptionName, value: &'a str) -> Option<Values<'a>>
        ensures { option_map shown_values result ≡ with_value (shown_values self.entry) name value.now }
    {
        match self.value_of(name) {
            Some(_) => None,
            None => Some(self.with_set(name, value)),
        }
    }

    fn value_of(self, name: OptionName) -> Option<&'a str>
        ensures { option_map (λ s. s.now) result ≡ value_of (shown_values self.entry) name }
    {
        match name {
            OptionName::Scheme => self.scheme,
            OptionName::Cap => self.cap,
            OptionName::Hcap => self.hcap,
            OptionName::Stripes => self.stripes,
        }
    }

    fn with_set(self, name: OptionName, value: &'a str) -> Values<'a>
        ensures { shown_values result ≡ with_set (shown_values self.entry) name value.now }
    {
        match name {
            OptionName::Scheme => Values {
                scheme: Some(value),
                ..self
            },
            OptionName::Cap => Values {
                cap: Some(value),
                ..self
            },
            OptionName::Hcap => Values {
                hcap: Some(value),
                ..self
            },
            OptionName::Stripes => Values {
                stripes: Some(value),
                ..self
            },
        }
    }
}
