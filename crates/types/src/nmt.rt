//! Network management (NMT): flags, states, events and commands.
pub mod events;
pub mod flags;
pub mod states;
