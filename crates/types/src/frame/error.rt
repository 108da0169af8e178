//! The errors of the DLL, and their kinds.
pub mod kinds;
pub mod types;
