//! What the handling of an error in a tick leaves: a signal with the error register, and, where an
//! action is asked for, the event that ends the tick (RULES 7.8, 7.9). The heartbeats and the SoC
//! check use it alike.
#![tactic(auto)]

ghost use Rattle.std.specs.Prelude.{◌≡◌};
ghost use Rattle.types.specs.declared.nmt.events.NmtEvent.TheVariants.{Timeout};
ghost use Rattle.node.specs.Phases.{acts, signalled, event_in_tick};
ghost use Rattle.phases.specs.PartWords.{signal_words, event_words};
ghost use Rattle.phases.specs.PartsIn.{Turns, FinishesIn};

use head::dictionary::{increment_counter, register_of, set_register};
use head::machines::{nmt_of, set_nmt};
use head::state::{Head, Statistic};
use head::watch::{check_off, set_changed};
use types::frame::error::types::{DllErrors, NmtAction};
use types::nmt::events::NmtEvent;

/// Whether something is asked for.
pub fn acts(action: NmtAction) -> bool
    ensures { result ≡ acts action }
{
    action != NmtAction::None
}

/// A signal sets `error_status_changed` and the error register's lowest bit; counter 5 rises where
/// that changes the register.
pub fn signal(head: &mut Head)
    ensures { Turns head.old signalled head.new (signal_words head.old) }
{
    let register = register_of(head);
    set_changed(head);
    if register % 2 == 0 {
        set_register(head, register + 1);
        increment_counter(head, Statistic::Counter5);
    }
}

// An NMT event in a tick; the check goes off. Not public, since it forgets nothing where the event
// is a reset: a tick has Error (`finish`) and Timeout.
fn event_in_tick(head: &mut Head, event: NmtEvent)
    ensures { Turns head.old (λ p. event_in_tick p event) head.new (event_words head.old event) }
{
    let answer = nmt_of(head).process_event(event);
    set_nmt(head, answer.machine);
    check_off(head);
}

/// The basic timeout is over: the event Timeout, and the check goes off.
pub fn timeout_in_tick(head: &mut Head)
    ensures { Turns head.old (λ p. event_in_tick p Timeout)
        head.new (event_words head.old Timeout) }
{
    event_in_tick(head, NmtEvent::Timeout);
}

/// What a part of the tick leaves beside the words.
#[derive(Clone, Copy)]
pub struct PhaseOutcome {
    /// What would be logged to a handler.
    pub logged: DllErrors,
    /// Whether the tick has ended.
    pub ended: bool,
}

impl PhaseOutcome {
    /// Nothing was logged, and nothing ends the tick.
    pub const GOES_ON: PhaseOutcome = PhaseOutcome {
        logged: DllErrors::None,
        ended: false,
    };
}

/// Ends the tick with the event Error and the check off, where an action was asked for.
pub fn finish(head: &mut Head, logged: DllErrors, ended: bool) -> PhaseOutcome
    ensures { FinishesIn head.old logged ended result head.new }
{
    if ended {
        event_in_tick(head, NmtEvent::Error);
    }
    PhaseOutcome { logged, ended }
}
