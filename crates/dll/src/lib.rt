//! The DLL cycle state machine of a controlled node (EPSG DS 301, Section 4.2.4.5; RULES 5), by
//! value: an event gives the next state and the errors to report.
#![tactic(auto)]

pub mod cs_state_machine;
