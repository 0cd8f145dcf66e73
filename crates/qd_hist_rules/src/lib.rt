//! What a history is: the commits of a source, what an agent is shown of them, and which items and logs are lawful.
//!
//! Nothing here runs but two types of items and replies. `specs/` defines, over what happened in one stripe so far, the commits of each key
//! (`Source.antt`), what stands between an agent and a key (`Agent.antt`, `Standing.antt`), which item an agent may be given
//! (`Lawful.antt`), what a whole answer to a Take is (`Takes.antt`), and which logs are legal (`Legal.antt`). The meaning of the event
//! flags is that of dxFeed's `IndexedEvent` documentation.
#![tactic(auto)]

mod floor;
mod item;
pub mod laws;
mod reply;

pub use floor::AgentFloor;
pub use item::HistItem;
pub use reply::HistoryReply;
