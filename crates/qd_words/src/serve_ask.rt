//! What a server of one's own is asked, by words.

/// The values of `serve`.
#[derive(Clone, Copy)]
pub struct ServeAsk<'a> {
    /// Where it listens.
    pub addr: &'a str,
    /// How many connections it serves: 1 to 128.
    pub links: u8,
    /// The address of the server above; none where it has none.
    pub up: Option<&'a str>,
    /// How many stripes each collector has: 1, 2, 4, 8 or 16.
    pub stripes: u8,
    /// How many items may wait for an agent of a stream: 1 to 4096.
    pub cap: u16,
    /// How many events may be owed to an agent of a history: 1 to 4096.
    pub hcap: u16,
    /// The name of the scheme file; none where the built-in scheme is taken.
    pub scheme: Option<&'a str>,
}
