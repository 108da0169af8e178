//! A head: what a controlled node keeps (RULES 1), in 60 words of 32 bits that its owner lends. Any
//! words are a head. Only this crate knows which word is what; the others read and write a head
//! part by part.
#![tactic(auto)]

pub mod dictionary;
pub mod errors;
pub mod machines;
pub mod memory;
pub mod state;
pub mod watch;
pub mod words;
