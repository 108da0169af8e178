//! What an example of ticks runs on.
use entries::sizes::{HistoryBytes, QueueBytes};
use head::state::Head;
use watched::nodes::NodeWords;

/// A head, and what is lent to its calls.
#[derive(Drop)]
pub struct Bench {
    pub head: Head,
    pub queue: QueueBytes,
    pub history: HistoryBytes,
    pub nodes: NodeWords,
}
