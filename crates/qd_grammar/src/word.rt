//! The words of control lines.

use crate::Message;

/// What a control word begins.
#[derive(Clone, Copy, Debug, PartialEq, Eq, Drop)]
pub enum Word {
    Protocol,
    Head(Message),
    Heartbeat,
    End,
    Time,
    Link,
    Take,
    Node,
    At,
    Pump,
    Move,
}
