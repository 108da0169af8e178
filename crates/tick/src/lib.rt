//! The tick (RULES 7): the heartbeats (crate `heartbeats`), the deadline, the SoC check and its
//! errors.
#![tactic(auto)]

pub mod deadline;
pub mod dll_errors;
pub mod tick;
