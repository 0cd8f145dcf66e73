//! How a text ends, and how a run over a text ends.

ghost use Rattle.std.specs.Prelude.{◌≡◌};
ghost use Rattle.qd_items.specs.Runs.{run_end};

use qd_text::BadLine;

/// How a text ended.
#[derive(Clone, Copy, Debug, PartialEq, Eq)]
pub enum TextEnd {
    /// The line `==END` was read: the text is whole. What follows it is not looked at.
    End,
    /// The source ended after this many lines, before `==END`.
    CutOff { line: u64 },
    /// A line is refused.
    Bad(BadLine),
    /// The line of this number has more than 4096 bytes.
    LineTooLong { line: u64 },
    /// 2^40 bytes were read, and no line of them ended the text.
    TooMuch,
    /// A read failed.
    ReadFault,
    /// Memory was refused.
    NoMemory,
}

/// A limit of a collector.
#[derive(Clone, Copy, Debug, PartialEq, Eq)]
pub enum Limit {
    TooManyKeys,
    TooManySubs,
    HistoryFull,
}

/// How a run over a text ends.
#[derive(Clone, Copy, Debug, PartialEq, Eq)]
pub enum RunEnd {
    /// `==END` was read, and all before it was done.
    Done,
    /// The source ended after this many lines, before `==END`.
    CutOff { line: u64 },
    /// A line is refused.
    Bad(BadLine),
    /// The line of this number has more than 4096 bytes.
    LineTooLong { line: u64 },
    /// This line asks for a step that this run does not have.
    BadStep { line: u64 },
    /// The call of the group that this line ended was refused.
    Refused { line: u64, limit: Limit },
    /// 2^40 bytes were read, and no line of them ended the text.
    TooMuch,
    ReadFault,
    WriteFault,
    /// A count that never falls stands at its end.
    Spent,
    NoMemory,
}

impl TextEnd {
    /// The end of a run whose text ended so, where nothing else ended it.
    pub fn run_end(self) -> RunEnd
        ensures { result ≡ run_end self }
    {
        match self {
            TextEnd::End => RunEnd::Done,
            TextEnd::CutOff { line } => RunEnd::CutOff { line },
            TextEnd::Bad(bad) => RunEnd::Bad(bad),
            TextEnd::LineTooLong { line } => RunEnd::LineTooLong { line },
            TextEnd::TooMuch => RunEnd::TooMuch,
            TextEnd::ReadFault => RunEnd::ReadFault,
            TextEnd::NoMemory => RunEnd::NoMemory,
        }
    }
}
