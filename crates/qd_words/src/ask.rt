/// What the program can be asked to do.
#[derive(Clone, Copy, Debug, PartialEq, Eq)]
pub enum Command {
    /// Reads a text, and counts its items.
    Check,
    /// Prints the canonical line of each item of a text.
    Fmt,
    /// Runs a script.
    Replay,
}

/// A command with its values.
#[derive(Clone, Copy)]
pub struct Ask<'a> {
    pub command: Command,
    /// The name of the file that is read; none where it is standard input.
    pub file: Option<&'a str>,
    /// The name of the scheme file; none where the built-in scheme is taken.
    pub scheme: Option<&'a str>,
    /// How many items may wait for an agent of a stream: 1 to 4096.
    pub cap: u16,
    /// How many events may be owed to an agent of a history: 1 to 4096.
    pub hcap: u16,
    /// How many stripes each collector has: 1, 2, 4, 8 or 16.
    pub stripes: u8,
}

/// An option.
#[derive(Clone, Copy, Debug, PartialEq, Eq)]
pub enum OptionName {
    Scheme,
    Cap,
    Hcap,
    Stripes,
}
