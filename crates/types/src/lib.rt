//! The names and numbers of POWERLINK that every other crate speaks in: node numbers, message
//! types, times, NMT states, events and commands, DLL events and errors with their kinds and codes,
//! and the numbered refusals. The modules are those of the Rust files they port; `kinds`, which
//! leads from a code back to its kind, and `refusals` have none.
#![tactic(auto)]

pub mod common;
pub mod frame;
pub mod nmt;
pub mod refusals;
pub mod types;
