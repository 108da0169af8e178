//! Start: the words of a fresh head, whatever stood there before, and watched nodes of which none
//! was heard yet.
#![tactic(auto)]

pub mod start;
