//! The error history, object 0x1003 (RULES 9.5): a ring of 254 places in lent memory, read newest
//! first from the newest's place on.
ghost use Rattle.std.specs.Prelude.{◌≡◌};
ghost use Rattle.entries.specs.Ring.{nth};
ghost use Rattle.entries.specs.History.{error_history, history};
ghost use Rattle.entries.specs.History.{joined, joined_bytes, loaded, loaded_bytes};

use crate::place::{self, Ring};
use crate::sizes::{ENTRY_BYTES, HISTORY_PLACES, HistoryBytes};
use crate::status_response::ErrorEntry;

/// Where the entries stand in the lent memory. Any two bytes are a history: a place is read modulo
/// 254, and a count above 254 as 254.
#[derive(Clone, Copy, PartialEq, Eq)]
pub struct ErrorHistory {
    /// The place of the newest entry.
    pub newest: u8,
    /// How many entries there are.
    pub count: u8,
}

impl ErrorHistory {
    /// An empty history.
    pub fn new() -> Self
        ensures { result ≡ error_history 0 0 }
    {
        Self {
            newest: 0,
            count: 0,
        }
    }

    /// Loads a history from the bytes of entries, newest first. Of more than 254 entries the newest
    /// 254 are kept; bytes behind the last whole entry are no entry.
    #[tactic(auto, unfolding(crate::specs::History::loaded, crate::specs::History::loaded_bytes))]
    pub fn load(memory: &mut HistoryBytes, entries: &[u8]) -> Self
        ensures { (result ≡ loaded entries.now) ×
            (memory.new ≡ loaded_bytes memory.old entries.now) }
    {
        let count = (entries.len() / ENTRY_BYTES).min(HISTORY_PLACES);
        let taken = ENTRY_BYTES * count;
        memory[..taken].copy_from_slice(&entries[..taken]);
        Self {
            newest: 0,
            count: count as u8,
        }
    }

    // Its ring of places.
    fn ring(self) -> Ring<HISTORY_PLACES>
        ensures { (result.first ≡ self.newest) × (result.count ≡ self.count) }
    {
        Ring {
            first: self.newest,
            count: self.count,
        }
    }

    /// The entry at an index, the newest at 0.
    #[tactic(auto, unfolding(crate::specs::History::history))]
    pub fn get(self, memory: &HistoryBytes, index: usize) -> Option<ErrorEntry>
        ensures { result ≡ nth (history memory.now self) index }
    {
        self.ring().get(memory, index)
    }

    /// Puts an entry at the place before the newest; no other entry moves. In a full history that
    /// is the oldest's place.
    #[tactic(auto, unfolding(crate::specs::History::joined, crate::specs::History::joined_bytes))]
    pub fn write_error_to_history(&mut self, memory: &mut HistoryBytes, entry: ErrorEntry)
        ensures history { self.new ≡ joined self.old }
        ensures bytes { memory.new ≡ joined_bytes memory.old self.old entry }
    {
        // One place back is all but one on.
        let newest = self.ring().place(HISTORY_PLACES - 1);
        place::put_entry(memory, ENTRY_BYTES * newest, entry);
        let count = (self.count as usize + 1).min(HISTORY_PLACES);
        self.newest = newest as u8;
        self.count = count as u8;
    }
}
