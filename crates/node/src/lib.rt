//! The calls on a head, but for start and the tick (crates `start` and `tick`), and those that add
//! or remove a watched node (`partners`); and in specs/ the plain head, which is docs/RULES.md in
//! definitions. The head lies in words that its owner lends, the watched nodes in others, the
//! entries of its queue and its history in bytes; a call writes what it is about and nothing else,
//! and one that is refused writes nothing.
#![tactic(auto)]

pub mod calls;
pub mod heard;
pub mod load;
pub mod range;
pub mod timing;
