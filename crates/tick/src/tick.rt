//! The tick (RULES 7): the heartbeats, then what a passed deadline leads to. Head, queue and
//! history are lent one by one: of an array behind a struct's reference the check knows no length,
//! and each method of a struct of the three would state beside its promise that the references stay
//! the same.
ghost use Rattle.std.specs.Prelude.{◌≡◌, true};
ghost use Rattle.types.specs.Pick.{all_of};
ghost use Rattle.watched.specs.Watched.{well_formed, watched_of};
ghost use Rattle.node.specs.Heartbeats.{checks_heartbeats};
ghost use Rattle.node.specs.Tick.{tick_taken};
ghost use Rattle.node.specs.Refines.{plain};
ghost use Rattle.head.specs.Words.{nmt_of, head_of};
ghost use Rattle.watched.specs.Nodes.{not_before, nodes_of};
ghost use Rattle.tick.specs.TickWords.{tick_words};
ghost use Rattle.phases.specs.PartsIn.{TicksIn};
ghost use Rattle.tick.specs.TickIn.{active_of, TickedIn, StillTicks};

use crate::deadline::by_deadline;
use entries::sizes::{HistoryBytes, QueueBytes};
use head::machines::state_at;
use head::state::Head;
use head::watch::set_earliest;
use heartbeats::heartbeats::{on_late_all, refresh_all};
use phases::PhaseOutcome;
use types::frame::error::types::DllErrors;
use types::nmt::states::NmtState;
use types::refusals::Refusal;
use watched::nodes::{Formed, NodeWords, Seen, examine, try_nodes};
use watched::time::Time;

/// Whether heartbeats are checked in a state: in PreOperational2 and those with a higher number, so
/// not in CsStopped (RULES 7.2).
pub fn checks_heartbeats(state: NmtState) -> bool
    ensures { result ≡ checks_heartbeats state }
{
    NmtState::NmtPreOperational2.as_u8() <= state.as_u8()
}

// Whether the nodes are well formed, and whether some node asks for something: where heartbeats are
// not checked, none does.
fn active(checks: bool, nodes: &NodeWords, count: usize, time: u64) -> Option<Seen>
    ensures { result ≡ active_of checks time (watched_of (nodes_of nodes.now) count) }
{
    if checks {
        return examine(nodes, count, time);
    }
    Some(Seen::Resting(try_nodes(nodes, count)?))
}

// The heartbeats, and what follows where no crossing ended the tick.
fn phases(
    head: &mut Head,
    queue: &mut QueueBytes,
    history: &mut HistoryBytes,
    formed: Formed,
    time: Time,
) -> PhaseOutcome
    requires { checks_heartbeats (nmt_of head.old).current_state ≡ true }
    ensures { let nodes = watched_of (nodes_of formed.entry.nodes.now) formed.entry.count in
        TicksIn head.old queue.old history.old
        (tick_taken (plain (head_of head.old) queue.old history.old) time.us nodes)
        result head.new queue.new history.new
        (tick_words head.old queue.old history.old time.us nodes) }
{
    let late_errors = on_late_all(head, formed, time.us);
    if late_errors.ended {
        return late_errors;
    }
    by_deadline(head, queue, history, time)
}

// A tick at which some node asks for something; `heard` is whether all were heard by now. Nothing
// is written before the last test is passed. Not inlined, so that a quiet tick saves no registers
// for it.
#[inline(never)]
fn tick_active(
    head: &mut Head,
    queue: &mut QueueBytes,
    history: &mut HistoryBytes,
    nodes: &mut NodeWords,
    count: usize,
    time: u64,
    heard: bool,
) -> Result<DllErrors, Refusal>
    requires { (well_formed (watched_of (nodes_of nodes.old) count) ≡ true)
        × (checks_heartbeats (nmt_of head.old).current_state ≡ true)
        × (heard ≡ all_of (not_before time) (watched_of (nodes_of nodes.old) count)) }
    ensures { TickedIn head.old queue.old history.old nodes.old count time
        result head.new queue.new history.new nodes.new }
{
    let time = Time::try_from(time)?;
    if !heard {
        return Err(Refusal::BeforeHeard);
    }
    let outcome = phases(head, queue, history, Formed { nodes, count }, time);
    let soonest = refresh_all(nodes, count, time.us);
    set_earliest(head, soonest);
    Ok(outcome.logged)
}

/// A tick, at a time in µs, at which no node asks for anything: the nodes stay as they are, in
/// whatever form they are lent. `late` is the soonest moment, in µs, at which one would be late; it
/// is the head's earliest moment from then on, whatever it is. Answers what is logged. Refused by
/// TimeLimit where the time is above 2^62 - 1; then nothing changes.
#[inline(always)]
pub fn tick_still(
    head: &mut Head,
    queue: &mut QueueBytes,
    history: &mut HistoryBytes,
    time: u64,
    late: Option<u64>,
) -> Result<DllErrors, Refusal>
    ensures { StillTicks head.old queue.old history.old time late
        result head.new queue.new history.new }
{
    let time = Time::try_from(time)?;
    let outcome = by_deadline(head, queue, history, time);
    set_earliest(head, late);
    Ok(outcome.logged)
}

/// A tick at a time in µs, on a head, the bytes of its queue and of its history, and nodes in
/// words, of which the first `count` are watched: the heartbeats, the deadline and the SoC check,
/// and the earliest moment anew (RULES 7). Answers what is logged. Refused, in this order:
/// WatchedNodes, TimeLimit where the time is above 2^62 - 1, BeforeHeard where heartbeats are
/// checked; then nothing changes.
pub fn process_tick(
    head: &mut Head,
    queue: &mut QueueBytes,
    history: &mut HistoryBytes,
    nodes: &mut NodeWords,
    count: usize,
    time: u64,
) -> Result<DllErrors, Refusal>
    ensures { TickedIn head.old queue.old history.old nodes.old count time
        result head.new queue.new history.new nodes.new }
{
    let seen = active(checks_heartbeats(state_at(head)), nodes, count, time);
    match seen.ok_or(Refusal::WatchedNodes)? {
        Seen::Active(heard) => tick_active(head, queue, history, nodes, count, time, heard),
        Seen::Resting(soonest) => tick_still(head, queue, history, time, soonest),
    }
}
