//! What `replay` prints: what a line is answered, and what a head with its memory and its lent run
//! shows. docs/CALLS.md has the forms, specs/ their bytes.
#![tactic(auto)]

pub mod answers;
mod heads;
pub mod moves;
pub mod shows;
pub mod styles;
mod texts;
pub mod why;
