//! Whether the queue and the history hold one entry, and no other.
ghost use Rattle.std.specs.Prelude.{◌≡◌, [], ◌∷◌};
ghost use Rattle.entries.specs.Queue.{waiting};
ghost use Rattle.entries.specs.History.{history};
ghost use Rattle.head.specs.Words.{queue_of, history_of};
ghost use Rattle.examples.specs.Same.{Exactly};

use entries::sizes::{HistoryBytes, QueueBytes};
use entries::status_response::ErrorEntry;
use head::memory::{history_of, queue_of};
use head::state::Head;

// Two functions of one shape: the two rings are different types, and a trait for both would be
// longer.

/// Whether this entry alone waits in the queue.
pub fn waits(head: &Head, queue: &QueueBytes, stated: ErrorEntry) -> bool
    ensures { Exactly result (waiting queue.now (queue_of head.now) ≡ stated ∷ []) }
{
    let places = queue_of(head);
    (places.get(queue, 0) == Some(stated)) & places.get(queue, 1).is_none()
}

/// Whether the history has this entry alone.
pub fn is_recorded(head: &Head, memory: &HistoryBytes, stated: ErrorEntry) -> bool
    ensures { Exactly result (history memory.now (history_of head.now) ≡ stated ∷ []) }
{
    let places = history_of(head);
    (places.get(memory, 0) == Some(stated)) & places.get(memory, 1).is_none()
}
