//! The heartbeats of a tick (RULES 7.2 to 7.4): the check of the watched nodes, and the errors of
//! the late ones.
#![tactic(auto)]

pub mod heartbeats;
