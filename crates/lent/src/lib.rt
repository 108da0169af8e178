//! The calls over watched nodes that are lent as a run of records (RULES 8.1), of any length, with
//! the number watched beside it; and the threshold counter, lent for change. A call over a run is
//! what the call over words is, with a walk over records in the place of one over words: a walk
//! finds out what the tests and the head's part ask, these go by it, and the records that change
//! are written.
#![tactic(auto)]

pub mod arrivals;
pub mod bits;
pub mod calls;
pub mod counter;
pub mod run;
pub mod ticks;
