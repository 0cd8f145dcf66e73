//! What the lines before a line tell of it.

use crate::Message;

/// What the lines before a line tell of it: whether PROTOCOL was accepted, the current message, and the last TIME.
#[derive(Clone, Copy, Debug)]
pub struct State {
    pub started: bool,
    pub message: Option<Message>,
    pub time: u64,
}
