//! What C lends: a run of watched nodes, and the memory of a weigh head.
use entries::sizes::{HistoryBytes, QueueBytes};
use watched::nodes::NodeWords;

/// A run of watched nodes: three words a place, and how many of the places are watched.
#[repr(C)]
pub struct PlcnRun {
    /// The places.
    pub place: NodeWords,
    /// How many are watched.
    pub number: usize,
}

/// What is lent to a weigh head with each call.
#[repr(C)]
pub struct PlcnMemory {
    /// The watched nodes.
    pub run: PlcnRun,
    /// The bytes of the emergency queue.
    pub queue: QueueBytes,
    /// The bytes of the error history.
    pub history: HistoryBytes,
}
