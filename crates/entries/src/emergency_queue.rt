//! The emergency queue (RULES 9.4): a ring of 32 places in lent memory, of which a queue may fill
//! as many as its capacity says.
ghost use Rattle.std.specs.Prelude.{◌≡◌};
ghost use Rattle.entries.specs.Ring.{nth};
ghost use Rattle.entries.specs.Queue.{queue, waiting, pushed, pushed_bytes, handed_out};

use crate::place::{self, Ring};
use crate::sizes::{ENTRY_BYTES, QUEUE_PLACES, QueueBytes};
use crate::status_response::ErrorEntry;

/// Where the entries stand in the lent memory. Any three bytes are a queue: a place is read modulo
/// 32, and a number of entries above 32 as 32.
#[derive(Clone, Copy, PartialEq, Eq)]
pub struct EmergencyQueue {
    /// The place of the oldest entry.
    pub oldest: u8,
    /// How many entries wait.
    pub length: u8,
    /// How many may wait.
    pub capacity: u8,
}

impl EmergencyQueue {
    /// An empty queue of this capacity.
    pub fn new(capacity: u8) -> Self
        ensures { result ≡ queue 0 0 capacity }
    {
        Self {
            oldest: 0,
            length: 0,
            capacity,
        }
    }

    // Its ring of places.
    fn ring(self) -> Ring<QUEUE_PLACES>
        ensures { (result.first ≡ self.oldest) × (result.count ≡ self.length) }
    {
        Ring {
            first: self.oldest,
            count: self.length,
        }
    }

    /// Puts an entry behind the newest, and answers whether it was kept: where the queue is full,
    /// it is dropped, and no byte changes.
    #[tactic(auto, unfolding(crate::specs::Queue::pushed, crate::specs::Queue::pushed_bytes))]
    pub fn push_back(&mut self, memory: &mut QueueBytes, entry: ErrorEntry) -> bool
        ensures queue { self.new ≡ (pushed self.old).queue }
        ensures kept { result ≡ (pushed self.old).kept }
        ensures bytes { memory.new ≡ pushed_bytes memory.old self.old entry }
    {
        let ring = self.ring();
        let length = ring.len();
        let capacity = (self.capacity as usize).min(QUEUE_PLACES);
        if length >= capacity {
            return false;
        }
        place::put_entry(memory, ENTRY_BYTES * ring.place(length), entry);
        self.length = (length + 1) as u8;
        true
    }

    /// The oldest entry, which leaves the queue; of an empty queue, none.
    #[tactic(auto, unfolding(crate::specs::Queue::handed_out))]
    pub fn hand_out(&mut self, memory: &QueueBytes) -> Option<ErrorEntry>
        ensures queue { self.new ≡ (handed_out memory.now self.old).queue }
        ensures entry { result ≡ (handed_out memory.now self.old).entry }
    {
        let ring = self.ring();
        let length = ring.len();
        if length == 0 {
            return None;
        }
        let entry = place::read_entry(memory, ENTRY_BYTES * ring.place(0));
        self.oldest = ring.place(1) as u8;
        self.length = (length - 1) as u8;
        Some(entry)
    }

    /// The entry at an index of those that wait, the oldest at 0.
    #[tactic(auto, unfolding(crate::specs::Queue::waiting))]
    pub fn get(self, memory: &QueueBytes, index: usize) -> Option<ErrorEntry>
        ensures { result ≡ nth (waiting memory.now self) index }
    {
        self.ring().get(memory, index)
    }
}
