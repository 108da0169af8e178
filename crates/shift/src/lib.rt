//! Shift totals (RULES 11.2): entries of 20 bytes are counted by their codes while they arrive in
//! parts of any size, and the page for the shift is written.
#![tactic(auto)]

pub mod feed;
pub mod report;
