//! How a step ends, and how an engine ends.

/// Why an engine that writes came to its end.
#[derive(Clone, Copy, Debug)]
pub enum OutFault {
    /// A write or a flush failed.
    WriteFault,
    /// A count that never falls stands at its end.
    Spent,
}

/// What a step of an engine that writes came to.
#[derive(Clone, Copy, Debug)]
pub enum OutTurn {
    /// A stripe gave so many items, and their text is written and flushed.
    Went(u16),
    /// A stripe gave nothing, as did each other one since the last that gave something and the last Idle.
    Idle,
    /// Another caller had a turn at the stripe that comes next.
    Busy { first: u64, then: u64 },
    Ended(OutFault),
}
