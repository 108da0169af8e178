//! The sizes of an entry, of the queue and of the history, and the memory that is lent for them.

/// The bytes of an entry.
pub const ENTRY_BYTES: usize = 20;

/// The places of the emergency queue.
pub const QUEUE_PLACES: usize = 32;

/// The places of the error history.
pub const HISTORY_PLACES: usize = 254;

/// The memory of an emergency queue: its places, one behind the other.
pub type QueueBytes = [u8; QUEUE_PLACES * ENTRY_BYTES];

/// The memory of an error history: its places, one behind the other.
pub type HistoryBytes = [u8; HISTORY_PLACES * ENTRY_BYTES];
