//! Why a run reads no further, and how a dump ends.

ghost use Rattle.std.specs.Prelude.{◌≡◌};
ghost use Rattle.qd_client.specs.Dumps.{dump_end};
ghost use Rattle.qd_client.specs.Posts.{post_end};

use qd_items::{RunEnd, TextEnd};
use qd_text::BadLine;

/// Why a run reads no further.
#[derive(Clone, Copy, Debug, PartialEq, Eq)]
pub enum Halt {
    /// The item of this line ended it.
    Item { line: u64 },
    /// Its text ended.
    Text(TextEnd),
}

/// How a dump ends.
#[derive(Clone, Copy, Debug, PartialEq, Eq)]
pub enum DumpEnd {
    /// As many items as were asked for were printed, or the server's `==END` came before.
    Done,
    /// The connection ended after this many lines, before `==END`.
    CutOff { line: u64 },
    /// A line is refused.
    Bad(BadLine),
    /// The line of this number has more than 4096 bytes.
    LineTooLong { line: u64 },
    /// 2^40 bytes were read, and no line of them ended the dump.
    TooMuch,
    /// A call on the connection failed.
    LinkFault,
    /// What came could not be written.
    WriteFault,
    NoMemory,
}

impl Halt {
    /// The end of a run that posts.
    pub(crate) fn post_end(self) -> RunEnd
        ensures { result ≡ post_end self }
    {
        match self {
            Halt::Item { line } => RunEnd::BadStep { line },
            Halt::Text(end) => end.run_end(),
        }
    }

    /// The end of a dump.
    pub(crate) fn dump_end(self) -> DumpEnd
        ensures { result ≡ dump_end self }
    {
        match self {
            Halt::Item { line: _ } => DumpEnd::Done,
            Halt::Text(TextEnd::End) => DumpEnd::Done,
            Halt::Text(TextEnd::CutOff { line }) => DumpEnd::CutOff { line },
            Halt::Text(TextEnd::Bad(bad)) => DumpEnd::Bad(bad),
            Halt::Text(TextEnd::LineTooLong { line }) => DumpEnd::LineTooLong { line },
            Halt::Text(TextEnd::TooMuch) => DumpEnd::TooMuch,
            Halt::Text(TextEnd::ReadFault) => DumpEnd::LinkFault,
            Halt::Text(TextEnd::NoMemory) => DumpEnd::NoMemory,
        }
    }
}
