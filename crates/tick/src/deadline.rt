//! The deadlines of the tick: what a passed one leads to, and the next one (RULES 7.5 to 7.8).
ghost use Rattle.std.specs.Prelude.{◌≡◌, false, ◌≤◌, ◌<◌};
ghost use Rattle.node.specs.Steps.{cycle_of};
ghost use Rattle.node.specs.Deadline.{with_deadline, next_deadline, rescheduled, within_limit};
ghost use Rattle.node.specs.Deadline.{lost, soc_check, at_not_active, sets_basic, times_out};
ghost use Rattle.node.specs.Deadline.{by_deadline};
ghost use Rattle.node.specs.Refines.{plain};
ghost use Rattle.head.specs.Words.{od_of, soc_of, head_of};
ghost use Rattle.head.specs.Written.{deadline_written};
ghost use Rattle.tick.specs.TickWords.{unlent, rescheduled_words, within_words, lost_words};
ghost use Rattle.tick.specs.TickWords.{check_words, basic_words, timeout_words, deadline_words};
ghost use Rattle.phases.specs.PartsIn.{Turns, TicksIn};

use crate::dll_errors::on_dll_event;
use entries::sizes::{HistoryBytes, QueueBytes};
use head::dictionary::od_of;
use head::machines::{state_at, timeout_of};
use head::state::{Deadline, Head};
use head::watch::{check_of, check_off, deadline_at, set_deadline, soc_of};
use node::range::is_loss;
use node::timing::{cycle, last_soc, limit, time_since, tolerance_us};
use phases::{PhaseOutcome, timeout_in_tick};
use types::frame::cs_state_machine::DllCsEvent;
use types::nmt::states::NmtState;
use watched::time::Time;

// Sets the deadline.
fn with_deadline(head: &mut Head, deadline: Deadline)
    ensures { Turns head.old (λ p. with_deadline p deadline)
        head.new (deadline_written head.old deadline) }
{
    set_deadline(head, deadline);
}

// The end of the cycle that runs now, with the tolerance (RULES 7.7).
fn next_deadline(head: &Head, time: Time) -> u64
    requires { 0 < cycle_of (od_of head.now) }
    ensures { result ≡ next_deadline (unlent head.now) time.us }
{
    let last = last_soc(soc_of(head));
    let od = od_of(head);
    let cycle_us = cycle(od);
    let elapsed = time_since(time.us, last);
    last + (elapsed / cycle_us + 1) * cycle_us + tolerance_us(od)
}

// The deadline is set anew at the end of the cycle; with cycle 0 the check goes off.
fn reschedule(head: &mut Head, time: Time)
    ensures { Turns head.old (λ p. rescheduled p time.us)
        head.new (rescheduled_words head.old time.us) }
{
    if 0 < cycle(od_of(head)) {
        with_deadline(head, Deadline::At(next_deadline(head, time)));
        return;
    }
    check_off(head);
}

// Not lost: the deadline is the limit, where that is still ahead; otherwise it is set anew.
fn within_limit(head: &mut Head, time: Time)
    ensures { Turns head.old (λ p. within_limit p time.us)
        head.new (within_words head.old time.us) }
{
    let od = od_of(head);
    let at = last_soc(soc_of(head)) + limit(od);
    if 0 < cycle(od) && time.us < at {
        with_deadline(head, Deadline::At(at));
        return;
    }
    reschedule(head, time);
}

// A lost SoC is the DLL event SocTimeout; where none of its errors brings an action, the deadline
// is set anew. Not inlined, so that a tick without a loss saves no registers for it.
#[inline(never)]
fn lose(
    head: &mut Head,
    queue: &mut QueueBytes,
    history: &mut HistoryBytes,
    time: Time,
) -> PhaseOutcome
    ensures { TicksIn head.old queue.old history.old
        (lost (plain (head_of head.old) queue.old history.old) time.us)
        result head.new queue.new history.new
        (lost_words head.old queue.old history.old time.us) }
{
    let outcome = on_dll_event(head, queue, history, DllCsEvent::SocTimeout, time.us);
    if outcome.ended {
        return outcome;
    }
    reschedule(head, time);
    outcome
}

// The SoC check, where it is on.
fn soc_check(
    head: &mut Head,
    queue: &mut QueueBytes,
    history: &mut HistoryBytes,
    time: Time,
) -> PhaseOutcome
    ensures { TicksIn head.old queue.old history.old
        (soc_check (plain (head_of head.old) queue.old history.old) time.us)
        result head.new queue.new history.new
        (check_words head.old queue.old history.old time.us) }
{
    if check_of(head) {
        if is_loss(head, time) {
            return lose(head, queue, history, time);
        }
        within_limit(head, time);
    }
    PhaseOutcome::GOES_ON
}

/// Whether the head is at NotActive.
pub fn at_not_active(head: &Head) -> bool
    ensures { result ≡ at_not_active (unlent head.now) }
{
    state_at(head) == NmtState::NmtNotActive
}

// At NotActive without a deadline, one is set behind the basic timeout, where that is above 0.
fn set_basic(head: &mut Head, time: Time)
    ensures { Turns head.old (λ p. sets_basic p time.us) head.new (basic_words head.old time.us) }
{
    let timeout = u64::from(timeout_of(head));
    if 0 < timeout {
        with_deadline(head, Deadline::At(time.us + timeout));
    }
}

// At NotActive a passed deadline gives the event Timeout, where the basic timeout is above 0.
fn time_out(head: &mut Head)
    ensures { Turns head.old times_out head.new (timeout_words head.old) }
{
    if 0 < timeout_of(head) {
        timeout_in_tick(head);
    }
}

/// What a tick does behind the heartbeats (RULES 7.5). The deadline is opened before it is compared
/// with now.
#[inline(always)]
pub fn by_deadline(
    head: &mut Head,
    queue: &mut QueueBytes,
    history: &mut HistoryBytes,
    time: Time,
) -> PhaseOutcome
    ensures { let deadline = (soc_of head.old).next_tick_us in
        TicksIn head.old queue.old history.old
        (by_deadline (plain (head_of head.old) queue.old history.old) time.us deadline)
        result head.new queue.new history.new
        (deadline_words head.old queue.old history.old time.us deadline) }
{
    let Deadline::At(at) = deadline_at(head) else {
        if at_not_active(head) {
            set_basic(head, time);
        }
        return PhaseOutcome::GOES_ON;
    };
    if time.us < at {
        return PhaseOutcome::GOES_ON;
    }
    with_deadline(head, Deadline::Nothing);
    if at_not_active(head) {
        time_out(head);
        return PhaseOutcome::GOES_ON;
    }
    soc_check(head, queue, history, time)
}
