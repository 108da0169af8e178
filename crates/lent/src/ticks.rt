//! The tick over a lent run of watched nodes, as `tick` has it over words: where no node asks for
//! anything the run is read once and not written; otherwise the heartbeats, the deadline, and the
//! last-heard times.
ghost use Rattle.std.specs.Prelude.{◌≡◌, true, false, List, ℕ};
ghost use Rattle.types.specs.Pick.{both};
ghost use Rattle.head.specs.Words.{nmt_of, head_of};
ghost use Rattle.node.specs.Heartbeats.{checks_heartbeats, late_ones, on_late_all};
ghost use Rattle.node.specs.Tick.{tick_taken};
ghost use Rattle.node.specs.Refines.{plain};
ghost use Rattle.heartbeats.specs.Words.{on_late_all_words};
ghost use Rattle.tick.specs.TickWords.{tick_words};
ghost use Rattle.phases.specs.PartsIn.{TicksIn};
ghost use Rattle.lent.specs.Runs.{still_in};
ghost use Rattle.tick.specs.TickIn.{TickedOn, is_still};
ghost use Rattle.watched.specs.Watched.{run, watching, well_lent};

use crate::run::{active, at_rest, find, refresh};
use entries::sizes::{HistoryBytes, QueueBytes};
use head::machines::state_at;
use head::state::Head;
use head::watch::set_earliest;
use heartbeats::heartbeats::{is_late, on_late};
use phases::PhaseOutcome;
use tick::deadline::by_deadline;
use tick::tick::{checks_heartbeats, tick_still};
use types::frame::error::types::DllErrors;
use types::refusals::Refusal;
use watched::nodes::{WatchedNode, moment};
use watched::record::NodeRecord;
use watched::time::Time;

// Counts the errors of the nodes that are late at a time in µs, ascending: the first whose handling
// brings an action ends the walk, and the tick with it.
fn on_late_all(head: &mut Head, nodes: &[WatchedNode], number: usize, time: u64) -> PhaseOutcome
    requires { well_lent (run nodes.now number) ≡ true }
    ensures { (q m : List ℕ) →
        let late = late_ones time (watching (run nodes.now number)) in
        TicksIn head.old q m (on_late_all (plain (head_of head.old) q m) late)
        result head.new q m (on_late_all_words head.old late) }
{
    let mut outcome = PhaseOutcome::GOES_ON;
    'walk: for place in 0..number {
        let node = NodeRecord::from(nodes[place]);
        if is_late(node, time) {
            outcome = on_late(head, node.node as u8);
            if outcome.ended {
                break 'walk;
            }
        }
    }
    outcome
}

// The heartbeats, and what follows where no crossing ended the tick.
fn phases(
    head: &mut Head,
    queue: &mut QueueBytes,
    history: &mut HistoryBytes,
    nodes: &[WatchedNode],
    number: usize,
    time: Time,
) -> PhaseOutcome
    requires { (checks_heartbeats (nmt_of head.old).current_state ≡ true)
        × (well_lent (run nodes.now number) ≡ true) }
    ensures { let vs = watching (run nodes.now number) in
        TicksIn head.old queue.old history.old
        (tick_taken (plain (head_of head.old) queue.old history.old) time.us vs)
        result head.new queue.new history.new
        (tick_words head.old queue.old history.old time.us vs) }
{
    let outcome = on_late_all(head, nodes, number, time.us);
    if outcome.ended {
        return outcome;
    }
    by_deadline(head, queue, history, time)
}

// The soonest moment where the run is well formed and no node asks for anything: where heartbeats
// are not checked, none does.
#[inline(always)]
fn still(checks: bool, nodes: &[WatchedNode], number: usize, time: u64) -> Option<u64>
    ensures { result ≡ still_in checks time (run nodes.now number) }
{
    if checks {
        return at_rest(nodes, number, time);
    }
    let (_, soonest) = find(nodes, number, 0, 0)?;
    Some(soonest)
}

// A tick at which some node asks for something, or whose nodes are not well formed. Not inlined, so
// that a quiet tick saves no registers for it.
#[inline(never)]
fn tick_active(
    head: &mut Head,
    queue: &mut QueueBytes,
    history: &mut HistoryBytes,
    nodes: &mut [WatchedNode],
    number: usize,
    time: u64,
) -> Result<DllErrors, Refusal>
    requires { let r = run nodes.old number in
        let checks = checks_heartbeats (nmt_of head.old).current_state in
        both (well_lent r) (is_still checks time (watching r)) ≡ false }
    ensures { TickedOn head.old queue.old history.old (run nodes.old number) time
        result head.new queue.new history.new (run nodes.new number) }
{
    let heard = active(nodes, number, time).ok_or(Refusal::WatchedNodes)?;
    let time = Time::try_from(time)?;
    if !heard {
        return Err(Refusal::BeforeHeard);
    }
    let outcome = phases(head, queue, history, nodes, number, time);
    let soonest = refresh(nodes, number, time.us);
    set_earliest(head, moment(soonest));
    Ok(outcome.logged)
}

/// A tick at a time in µs, on a head, the bytes of its queue and of its history, and the watched
/// nodes: the heartbeats, the deadline and the SoC check, and the earliest moment anew (RULES 7).
/// Answers what is logged. Refused, in this order: WatchedNodes, TimeLimit where the time is above
/// 2^62 - 1, BeforeHeard where heartbeats are checked; then nothing changes.
pub fn process_tick(
    head: &mut Head,
    queue: &mut QueueBytes,
    history: &mut HistoryBytes,
    nodes: &mut [WatchedNode],
    number: usize,
    time: u64,
) -> Result<DllErrors, Refusal>
    ensures { TickedOn head.old queue.old history.old (run nodes.old number) time
        result head.new queue.new history.new (run nodes.new number) }
{
    let checks = checks_heartbeats(state_at(head));
    let Some(soonest) = still(checks, nodes, number, time) else {
        return tick_active(head, queue, history, nodes, number, time);
    };
    tick_still(head, queue, history, time, moment(soonest))
}
