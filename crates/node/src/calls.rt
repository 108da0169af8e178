//! The calls on a head in words that are lent no watched nodes, but for load, range and margin.
//! Nothing is written before the last test is passed.
ghost use Rattle.std.specs.Prelude.{◌≡◌, true, false, List, ℕ};
ghost use Rattle.types.specs.Events.{read_event};
ghost use Rattle.types.specs.CsEvents.{read_cs_event};
ghost use Rattle.types.specs.Errors.{read_error};
ghost use Rattle.counters.specs.Counters.{after_error, counts, effect, replied, handled};
ghost use Rattle.node.specs.Steps.{no_run};
ghost use Rattle.node.specs.Plain.{Call, cycle_answer, hand_out_answer};
ghost use Rattle.node.specs.Refines.{Refines, left};
ghost use Rattle.entries.specs.Queue.{handed_out};
ghost use Rattle.head.specs.Head.{head_with_queue};
ghost use Rattle.head.specs.Places as at;
ghost use Rattle.head.specs.Words.{counter_at, errors_of, head_of};
ghost use Rattle.node.specs.InPlace.{InPlace, Processed, DllProcessed, said, nmt_said, dll_said};
ghost use Rattle.node.specs.InPlace.{effect_words, withdraw_words, nmt_words, dll_words};
ghost use Rattle.node.specs.InPlace.{error_said, error_words, cycle_words, armed_words, arm_words};
ghost use Rattle.node.specs.InPlace.{hand_out_words};

use crate::timing::armed;
pub use counters::counters::ErrorTaken;
use counters::counters::{CounterKind, ErrorEffect, effect_of};
use entries::sizes::QueueBytes;
use entries::status_response::ErrorEntry;
use head::dictionary::od_of;
use head::errors::{counter_of, errors_of, links_of, set_counter, set_levels, set_links};
use head::machines::{dll_of, nmt_of, set_dll, set_nmt, set_ready, state_at};
use head::memory::{queue_of, set_queue};
use head::state::Head;
use head::watch::{forget, set_soc, soc_of};
use nmt::state_machine::{ResetSequence, is_reset};
use types::frame::cs_state_machine::DllCsEvent;
use types::frame::error::types::{DllError, DllErrors, NmtAction};
use types::nmt::events::NmtEvent;
use types::nmt::states::NmtState;
use types::refusals::Refusal;
use watched::time::Time;

/// What an NMT event that is taken answers.
#[derive(Clone, Copy, PartialEq, Eq)]
pub struct NmtTaken {
    /// Reported and not counted.
    pub errors: DllErrors,
    /// The states passed and the ranges to restore, of a reset.
    pub reset: ResetSequence,
}

/// The application takes its ready word back. Refused by ReadyToOperate, in that state; then no
/// word changes.
pub fn withdraw(head: &mut Head) -> Result<(), Refusal>
    ensures { InPlace head.old Call.withdraw (said result) head.new (withdraw_words head.old) }
{
    if state_at(head) == NmtState::NmtReadyToOperate {
        return Err(Refusal::ReadyToOperate);
    }
    set_ready(head, false);
    Ok(())
}

/// An NMT event on a head: whatever leads to one comes here. The errors are reported and not
/// counted; a reset forgets (RULES 4.5).
#[inline(always)]
pub fn process_event(head: &mut Head, event: NmtEvent) -> NmtTaken
    ensures { Processed head.old event result head.new }
{
    let answer = nmt_of(head).process_event(event);
    set_nmt(head, answer.machine);
    if is_reset(event) {
        forget(head);
    }
    NmtTaken {
        errors: answer.errors,
        reset: answer.reset,
    }
}

/// An NMT event by its place, 0 to 18 (RULES 4.9). Refused by UnknownNumber; then no word changes.
/// The errors are reported and not counted; a reset forgets (RULES 4.5).
#[inline(always)]
pub fn nmt_event(head: &mut Head, event: u64) -> Result<NmtTaken, Refusal>
    ensures { InPlace head.old (Call.nmt_event event) (nmt_said result)
        head.new (nmt_words head.old (read_event event)) }
{
    let event = NmtEvent::try_from(event)?;
    Ok(process_event(head, event))
}

/// A DLL event in the head's own NMT state, with whether a PReq is expected: the errors that it
/// reports.
#[inline(always)]
pub fn process_dll_event(head: &mut Head, event: DllCsEvent, expect_preq: bool) -> DllErrors
    ensures { DllProcessed head.old event expect_preq result head.new }
{
    let answer = dll_of(head).process_event(event, state_at(head), expect_preq);
    set_dll(head, answer.machine);
    answer.errors
}

/// A DLL event by its place, 0 to 5 (RULES 5.4), in the head's own NMT state, with whether a PReq
/// is expected. Refused by UnknownNumber; then no word changes. The errors are reported and not
/// counted.
#[inline(always)]
pub fn dll_event(head: &mut Head, event: u64, expect_preq: bool) -> Result<DllErrors, Refusal>
    ensures { InPlace head.old (Call.dll_event event expect_preq) (dll_said result)
        head.new (dll_words head.old expect_preq (read_cs_event event)) }
{
    let event = DllCsEvent::try_from(event)?;
    Ok(process_dll_event(head, event, expect_preq))
}

// Whether an error that counts for a kind crosses: of the counters, only that kind's is read and
// written.
fn count(head: &mut Head, kind: CounterKind) -> bool
    ensures { (result ≡ (after_error (counter_at head.old (at.counter kind))).reached) ×
        (head.new ≡ effect_words head.old (counts kind)) }
{
    let mut counter = counter_of(head, kind);
    let reached = counter.count_error();
    set_counter(head, kind, counter);
    reached
}

/// Gives one error to the counters, and changes nothing else: the action is asked for and not
/// carried out.
#[inline(always)]
pub fn handled(head: &mut Head, error: DllError) -> ErrorTaken
    ensures { (result ≡ replied (handled (errors_of head.old) error)) ×
        (head.new ≡ effect_words head.old (effect error)) }
{
    match effect_of(error) {
        ErrorEffect::Counts(kind) => ErrorTaken::counted(count(head, kind), error),
        ErrorEffect::LosesLink => {
            set_links(head, links_of(head).saturating_add(1));
            ErrorTaken::signalled(NmtAction::None, error)
        }
        ErrorEffect::IsLogged => ErrorTaken::signalled(NmtAction::None, error),
        ErrorEffect::Nothing => ErrorTaken::unsignalled(),
    }
}

/// Gives an error to the counters, by the place of its kind, 0 to 21 (RULES 6.8), and what it
/// carries: a is the node, or a and b are the state and the event of an UnexpectedEventInState;
/// what a kind does not carry is not looked at. Refused, in this order: UnknownNumber, NodeNumber
/// for a kind that carries a node; then no word changes.
#[inline(always)]
pub fn handle_error(head: &mut Head, kind: u64, a: u8, b: u8) -> Result<ErrorTaken, Refusal>
    ensures { InPlace head.old (Call.error kind a b) (error_said result)
        head.new (error_words head.old (read_error kind a b)) }
{
    let error = DllError::try_from(kind, a, b)?;
    Ok(handled(head, error))
}

/// A completed cycle takes 1 from each level above 0. Answers whether the last one reached 0: one
/// was above 0 before and none is after.
pub fn on_cycle_complete(head: &mut Head) -> bool
    ensures { InPlace head.old Call.cycle_complete (cycle_answer result)
        head.new (cycle_words head.old) }
{
    let mut errors = errors_of(head);
    let cleared = errors.on_cycle_complete();
    set_levels(head, errors);
    cleared
}

/// An SoC was received at a time: with a cycle above 0 the check goes on, with the deadline behind
/// the limit; with cycle 0 it is off and no deadline stands.
pub fn arm_at(head: &mut Head, time: Time)
    ensures { head.new ≡ armed_words head.old time.us }
{
    let soc = armed(soc_of(head), od_of(head), time);
    set_soc(head, soc);
}

/// An SoC was received at a time in µs, 0 to 2^62 - 1: with a cycle above 0 the check goes on, with
/// the deadline behind the limit; with cycle 0 it is off and no deadline stands. Refused by
/// TimeLimit; then no word changes.
pub fn arm(head: &mut Head, time: u64) -> Result<(), Refusal>
    ensures { InPlace head.old (Call.arm time) (said result) head.new (arm_words head.old time) }
{
    let time = Time::try_from(time)?;
    arm_at(head, time);
    Ok(())
}

/// The oldest entry, which leaves the emergency queue; of an empty queue, none.
#[inline(always)]
pub fn hand_out(head: &mut Head, memory: &QueueBytes) -> Option<ErrorEntry>
    ensures { ((m : List ℕ) → Refines (head_of head.old) memory.now m Call.hand_out
        (left (head_of head.new) (hand_out_answer result)) memory.now m no_run) ×
        (head.new ≡ hand_out_words head.old memory.now) ×
        (head_of head.new ≡
        head_with_queue (head_of head.old)
        (handed_out memory.now (head_of head.old).queue).queue) }
{
    let mut queue = queue_of(head);
    let entry = queue.hand_out(memory);
    set_queue(head, queue);
    entry
}
