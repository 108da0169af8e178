//! The DLL events whose errors are handled: the SocTimeout of the SoC check (RULES 7.8), and those
//! of frames (RULES 13.4).
ghost use Rattle.std.specs.Prelude.{◌≡◌, true};
ghost use Rattle.types.specs.Pick.{all_of};
ghost use Rattle.types.specs.Errors.{reported};
ghost use Rattle.entries.specs.Entry.{crossing_entry};
ghost use Rattle.node.specs.DllErrors.{queued, on_dll_error, on_dll_errors, on_dll_event};
ghost use Rattle.node.specs.Refines.{plain, rings, joins};
ghost use Rattle.phases.specs.Parts.{is_quiet};
ghost use Rattle.head.specs.Words.{head_of};
ghost use Rattle.tick.specs.TickWords.{entry_words, on_dll_error_words, on_dll_errors_words};
ghost use Rattle.tick.specs.TickWords.{on_dll_event_words};
ghost use Rattle.phases.specs.PartsIn.{TicksIn};

use entries::sizes::{HistoryBytes, QueueBytes};
use entries::status_response::ErrorEntry;
use head::dictionary::increment_counter;
use head::memory::{history_of, queue_of, set_history, set_queue};
use head::state::{Head, Statistic};
use node::calls::{handled, process_dll_event};
use phases::{PhaseOutcome, acts, finish, signal};
use types::frame::cs_state_machine::DllCsEvent;
use types::frame::error::types::{DllError, DllErrors};

// The entry of a crossing joins queue and history, with counter 2, or is dropped, with counter 3.
fn queue_entry(
    head: &mut Head,
    queue: &mut QueueBytes,
    history: &mut HistoryBytes,
    error: DllError,
    time: u64,
)
    ensures { (plain (head_of head.new) queue.new history.new ≡
        queued (plain (head_of head.old) queue.old history.old) (crossing_entry error time))
        × (rings (head_of head.new) queue.new history.new ≡
        joins (rings (head_of head.old) queue.old history.old) (crossing_entry error time))
        × (head.new ≡ entry_words head.old) }
{
    let entry = ErrorEntry::of_crossing(error, time);
    let mut places = queue_of(head);
    if places.push_back(queue, entry) {
        let mut joined = history_of(head);
        joined.write_error_to_history(history, entry);
        increment_counter(head, Statistic::Counter2);
        set_queue(head, places);
        set_history(head, joined);
        return;
    }
    increment_counter(head, Statistic::Counter3);
}

// One error of a DLL event.
fn on_dll_error(
    head: &mut Head,
    queue: &mut QueueBytes,
    history: &mut HistoryBytes,
    error: DllError,
    time: u64,
) -> PhaseOutcome
    requires { is_quiet error ≡ true }
    ensures { TicksIn head.old queue.old history.old
        (on_dll_error time (plain (head_of head.old) queue.old history.old) error)
        result head.new queue.new history.new (on_dll_error_words head.old error) }
{
    let answer = handled(head, error);
    increment_counter(head, Statistic::Counter1);
    if answer.signal {
        signal(head);
        queue_entry(head, queue, history, error, time);
    }
    finish(head, answer.logged, acts(answer.action))
}

// The errors of a DLL event in their order: the first whose handling brings an action is the last.
fn on_dll_errors(
    head: &mut Head,
    queue: &mut QueueBytes,
    history: &mut HistoryBytes,
    errors: DllErrors,
    time: u64,
) -> PhaseOutcome
    requires { all_of is_quiet (reported errors) ≡ true }
    ensures { TicksIn head.old queue.old history.old
        (on_dll_errors time (plain (head_of head.old) queue.old history.old) (reported errors))
        result head.new queue.new history.new (on_dll_errors_words head.old (reported errors)) }
{
    let mut outcome = PhaseOutcome::GOES_ON;
    'walk: for error in errors {
        outcome = on_dll_error(head, queue, history, error, time);
        if outcome.ended {
            break 'walk;
        }
    }
    outcome
}

/// A DLL event of the cycle at a time in µs: it is taken in the head's own NMT state with a PReq
/// expected, and its errors are handled in their order. The first whose handling brings an action
/// gives the event Error and puts the check off, and the errors behind it are not handled.
pub fn on_dll_event(
    head: &mut Head,
    queue: &mut QueueBytes,
    history: &mut HistoryBytes,
    event: DllCsEvent,
    time: u64,
) -> PhaseOutcome
    ensures { TicksIn head.old queue.old history.old
        (on_dll_event time (plain (head_of head.old) queue.old history.old) event)
        result head.new queue.new history.new (on_dll_event_words head.old event) }
{
    let errors = process_dll_event(head, event, true);
    on_dll_errors(head, queue, history, errors, time)
}
