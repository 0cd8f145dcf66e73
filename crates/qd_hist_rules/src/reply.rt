use crate::HistItem;
use qd_buffer::Buffer;
use qd_sub::Want;

/// What the history replies. Beside `Done`, `Items` and `Wants` these are refusals, which leave all as it was.
#[derive(Drop)]
pub enum HistoryReply {
    Done,
    /// The answer to a Take, in the buffer that came with it.
    Items(Buffer<HistItem>),
    /// The answer to a Watch, in the buffer that came with it.
    Wants(Buffer<Want>),
    /// More than 16,384 keys would be held.
    TooManyKeys,
    /// More than 262,144 pairs of an agent and a key would be held.
    TooManySubs,
    /// More than 262,144 events would be kept and held back.
    HistoryFull,
    /// More than 2^63 commits might be made.
    Spent,
    NoMemory,
}
