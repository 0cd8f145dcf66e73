/// The index down to which an agent is shown a key, and whether its snapshots end with SNAPSHOT_SNIP there, else with SNAPSHOT_END.
#[derive(Clone, Copy, Debug, PartialEq, Eq)]
pub struct AgentFloor {
    pub index: u64,
    pub by_snip: bool,
}
