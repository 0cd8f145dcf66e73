//! What a server can be asked, by words.

use qd_grammar::Collector;
use qd_scheme::Sym;

/// A command that speaks with a server.
#[derive(Clone, Copy, Debug, PartialEq, Eq)]
pub enum NetCommand {
    /// Sends it the items of a text.
    Post,
    /// Subscribes, and prints what comes.
    Dump,
}

/// A command with its values.
#[derive(Drop)]
pub enum NetAsk<'a> {
    Post(PostAsk<'a>),
    Dump(DumpAsk<'a>),
}

/// The values of `post`.
#[derive(Clone, Copy)]
pub struct PostAsk<'a> {
    pub addr: &'a str,
    /// The name of the file that is sent; none where it is standard input.
    pub file: Option<&'a str>,
    /// The name of the scheme file; none where the built-in scheme is taken.
    pub scheme: Option<&'a str>,
}

/// The values of `dump`.
#[derive(Drop)]
pub struct DumpAsk<'a> {
    pub addr: &'a str,
    pub collector: Collector,
    /// At least one.
    pub wants: Vec<WantAsk<'a>>,
    /// How many items are awaited: 1 to 2^63 - 1.
    pub count: u64,
    /// The limit of each subscription to a history: 0 to 2^63 - 1.
    pub limit: u64,
    /// The name of the scheme file; none where the built-in scheme is taken.
    pub scheme: Option<&'a str>,
}

/// The name of a record, which is in no scheme yet, and a symbol.
#[derive(Clone, Copy)]
pub struct WantAsk<'a> {
    pub name: &'a str,
    pub symbol: Sym,
}
