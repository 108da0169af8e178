//! What the programs share: numbers and errors as they are printed, the output that they print to,
//! and the generator of a long comparison. What reaches standard output can't stand in a contract;
//! the bytes that are written can.
#![tactic(auto)]

pub mod errors;
pub mod find;
pub mod generator;
pub mod hex;
pub mod output;
#[cfg(test)]
mod tests;

pub use hex::{hex2, hex4};
