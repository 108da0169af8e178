//! The NMT state machine of a controlled node (EPSG DS 301, Section 7.1; RULES 4), by value: an
//! event gives the next machine, the errors to report and, of a reset, the states passed and the
//! index ranges to restore.
#![tactic(auto)]

pub mod cn_state_machine;
pub mod state_machine;
pub mod table;
