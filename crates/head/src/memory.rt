//! Where the entries of the emergency queue and of the error history stand.
ghost use Rattle.std.specs.Prelude.{◌≡◌, slice_set};
ghost use Rattle.head.specs.Places as at;
ghost use Rattle.head.specs.Words.{queue_of, history_of};
ghost use Rattle.head.specs.Written.{queue_written, history_written};

use crate::state::Head;
use crate::words::byte_at;
use entries::emergency_queue::EmergencyQueue;
use entries::error_history::ErrorHistory;

// The places of the queue.
const OLDEST: usize = 52;

const QUEUED: usize = 53;

const CAPACITY: usize = 54;

// The places of the history.
const NEWEST: usize = 55;

const COUNT: usize = 56;

/// Where the entries of the emergency queue stand.
pub fn queue_of(head: &Head) -> EmergencyQueue
    ensures { result ≡ queue_of head.now }
{
    EmergencyQueue {
        oldest: byte_at(head, OLDEST),
        length: byte_at(head, QUEUED),
        capacity: byte_at(head, CAPACITY),
    }
}

/// Writes where the entries of the emergency queue stand, but for the capacity, which stays.
pub fn set_queue(head: &mut Head, queue: EmergencyQueue)
    ensures { head.new ≡ queue_written head.old queue }
{
    head[OLDEST] = queue.oldest as u32;
    head[QUEUED] = queue.length as u32;
}

/// Writes the capacity of the emergency queue.
pub fn set_capacity(head: &mut Head, capacity: u8)
    ensures { head.new ≡ slice_set head.old at.capacity capacity }
{
    head[CAPACITY] = capacity as u32;
}

/// Where the entries of the error history stand.
pub fn history_of(head: &Head) -> ErrorHistory
    ensures { result ≡ history_of head.now }
{
    ErrorHistory {
        newest: byte_at(head, NEWEST),
        count: byte_at(head, COUNT),
    }
}

/// Writes where the entries of the error history stand.
pub fn set_history(head: &mut Head, history: ErrorHistory)
    ensures { head.new ≡ history_written head.old history }
{
    head[NEWEST] = history.newest as u32;
    head[COUNT] = history.count as u32;
}
