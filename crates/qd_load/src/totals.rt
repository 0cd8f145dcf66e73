/// What all stripes gave: the records of the ticker, the records of the stream and those that it told as lost, and the indexes of
/// the maps that the events of the history show. Each stands still at the end of its type.
#[derive(Clone, Copy, Debug, PartialEq, Eq)]
pub struct Totals {
    pub records: u64,
    pub items: u64,
    pub lost: u64,
    pub entries: u64,
}
