//! When the next tick is due (RULES 7.13): a question that changes nothing, with the watched nodes
//! lent in either form. Who ticks at each such moment, and not in between, misses nothing:
//! specs/Waits.antt says what that is of a tick, and proofs/Waits.antt shows it from the tick's own
//! contract.
#![tactic(auto)]

pub mod moment;
pub mod run;
pub mod words;
