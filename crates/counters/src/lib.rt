//! The error counters of a controlled node (RULES 6): seven threshold counters, raised by errors
//! and lowered by completed cycles, and the count of lost links. The original's traits.rs and
//! manager.rs only pass their calls on to these functions, and are left out.
#![tactic(auto)]

pub mod counters;
