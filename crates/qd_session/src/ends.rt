//! How a step ends, and how an engine ends.

use qd_items::Limit;
use qd_text::BadLine;

/// Why an engine that reads came to its end.
#[derive(Clone, Copy, Debug)]
pub enum InEnd {
    /// `==END` was read, and all calls before it were made and granted.
    End,
    /// The source ended before `==END`.
    CutOff,
    /// A line is refused.
    Bad(BadLine),
    /// The line of this number has more than 4096 bytes.
    LineTooLong { line: u64 },
    /// The call of a group that this line ended was refused.
    Refused { line: u64, limit: Limit },
    /// 2^40 bytes were read, and no line of them ended the text.
    TooMuch,
    ReadFault,
    /// A count that never falls stands at its end.
    Spent,
    NoMemory,
}

/// What a step of an engine that reads came to.
#[derive(Clone, Copy, Debug)]
pub enum InTurn {
    /// A call was made, a line was judged, or bytes were read.
    Went,
    /// Another caller had a turn at the stripe of the call that comes next.
    Busy { first: u64, then: u64 },
    Ended(InEnd),
}
