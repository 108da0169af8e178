//! The error entry (EPSG DS 301, Table 94) and its 20 bytes, also at a place of a buffer; the
//! emergency queue, in which an entry waits until it is handed out; and the error history, newest
//! first (RULES 9). Queue and history are rings of places of 20 bytes in memory that the caller
//! lends.
#![tactic(auto)]

pub mod desk;
pub mod emergency_queue;
pub mod error_history;
mod place;
pub mod sizes;
pub mod status_response;
