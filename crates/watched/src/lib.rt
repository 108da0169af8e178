//! The watched nodes in words that their owner lends (RULES 8): whether the run is well formed,
//! where a node is, whether a tick has to look at one, and the earliest moment at which one would
//! be late. Nothing here writes but `put` of a record and `set_heard`.
#![tactic(auto)]

pub mod nodes;
pub mod record;
pub mod time;
