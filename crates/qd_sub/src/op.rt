use crate::{Sub, Want};
use qd_buffer::Buffer;
use qd_scheme::{AgentNo, Key, WatcherNo};

/// What a collector may be asked, where `P` is what is put and `T` is what is given.
///
/// A list has at most 4096 items. A `max` is 1 to 4096, and its `out` is empty with room for as many items.
#[derive(Drop)]
pub enum Op<P: Copy, T: Copy> {
    /// Subscribes the agent to the keys, each with its limit.
    Add {
        agent: AgentNo,
        subs: Buffer<Sub>,
    },
    /// Ends the agent's subscriptions to the keys. A key that it is not subscribed to is passed over.
    Remove {
        agent: AgentNo,
        keys: Buffer<Key>,
    },
    /// Ends all subscriptions of the agent, in the order in which they began.
    Close {
        agent: AgentNo,
    },
    /// Puts items. Those of a key without a subscribed agent have no effect.
    Put {
        items: Buffer<P>,
    },
    /// Asks for what is due to the agent.
    Take {
        agent: AgentNo,
        max: u16,
        out: Buffer<T>,
    },
    /// Asks which totals differ from what the watcher knows.
    Watch {
        watcher: WatcherNo,
        max: u16,
        out: Buffer<Want>,
    },
}

/// What the ticker and the stream reply. Beside `Done`, `Items` and `Wants` these are refusals, which leave all as it was.
#[derive(Drop)]
pub enum Reply<T: Copy> {
    Done,
    /// The answer to a Take, in the buffer that came with it.
    Items(Buffer<T>),
    /// The answer to a Watch, in the buffer that came with it.
    Wants(Buffer<Want>),
    /// More than 16,384 keys would be held.
    TooManyKeys,
    /// More than 262,144 pairs of an agent and a key would be held.
    TooManySubs,
    NoMemory,
}
