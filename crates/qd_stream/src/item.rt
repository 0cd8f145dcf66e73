ghost use Rattle.std.specs.Prelude.{◌≡◌};

use qd_scheme::{Key, Keyed, Record};

/// A record, or a count of lost records of a key.
#[derive(Clone, Copy, Debug, PartialEq, Eq)]
pub enum StreamItem {
    Rec(Record),
    /// The count is positive.
    Lost(Key, u64),
}

impl StreamItem {
    ghost use Rattle.qd_stream.specs.Items.{weight};

    /// For how many records it stands.
    pub fn weight(&self) -> u64
        ensures { result ≡ weight self.now }
    {
        match self {
            StreamItem::Rec(_) => 1,
            StreamItem::Lost(_, count) => *count,
        }
    }
}

impl Keyed for StreamItem {
    ghost use Rattle.qd_stream.specs.Items.{key_of_item};

    ghost key_of = { key_of_item };

    #[tactic(auto, unfolding(crate::specs::Items::key_of_item))]
    fn key(&self) -> Key {
        match self {
            StreamItem::Rec(record) => record.key,
            StreamItem::Lost(key, _) => *key,
        }
    }
}
