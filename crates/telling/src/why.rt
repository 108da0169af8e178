//! What `why` prints: where the NMT machine stands, what it waits for, and where each event leads
//! from there. All of it is asked of the NMT table (RULES 4.7).
ghost use Rattle.std.specs.Prelude.{◌≡◌, Some};
ghost use Rattle.telling.specs.Why.{position_of, left_by, stays, gains, missing_text, changes};
ghost use Rattle.telling.specs.Why.{set_text, lead_text, leads_text, flags_text, why_text};

use nmt::cn_state_machine::{CnNmtStateMachine, Position};
use nmt::state_machine::is_reset;
use nmt::table::{Entry, chosen};
use std::fmt;
use std::fmt::Display;
use types::nmt::events::NmtEvent;

/// Why a machine at a position is there.
#[derive(Clone, Copy)]
pub struct Why(pub Position);

/// The position of a machine.
pub fn position_of(machine: CnNmtStateMachine) -> Position
    ensures { result ≡ position_of machine }
{
    Position {
        state: machine.current_state,
        enabled: machine.ready_to_operate_enabled,
        ready: machine.app_ready,
    }
}

#[tactic(auto, unfolding(crate::specs::Why::why_text))]
impl Display for Why {
    ghost output = { λ x. Some (why_text x.0) };

    fn fmt<W: fmt::Write>(&self, f: &mut fmt::Formatter<W>) -> fmt::Result {
        let position = self.0;
        writeln!(
            f,
            "(why {}{}{}{}; a reset leads to {})",
            position.state,
            Flags(position),
            Missing(position),
            Leads(position, &NmtEvent::ALL),
            left_by(position, NmtEvent::Reset).position.state
        )
    }
}

// Whether it is enabled and ready.
#[derive(Clone, Copy)]
struct Flags(Position);

impl Display for Flags {
    ghost output = { λ x. Some (flags_text x.0) };

    fn fmt<W: fmt::Write>(&self, f: &mut fmt::Formatter<W>) -> fmt::Result {
        f.write_str(if self.0.enabled {
            ", enabled"
        } else {
            ", not enabled"
        })?;
        f.write_str(if self.0.ready {
            ", ready"
        } else {
            ", not ready"
        })
    }
}

/// What an event leaves of a position, by the table.
#[tactic(auto, unfolding(crate::specs::Why::left_by))]
pub fn left_by(position: Position, event: NmtEvent) -> Entry
    ensures { result ≡ left_by position event }
{
    chosen(position.state, event, position.enabled, position.ready)
}

// Whether an event keeps the state.
fn stays(position: Position, event: NmtEvent) -> bool
    ensures { result ≡ stays position event }
{
    left_by(position, event).position.state.as_u8() == position.state.as_u8()
}

// Whether some event that keeps the state at one position moves it at another.
#[tactic(auto, unfolding(crate::specs::Why::gains))]
fn gains(here: Position, there: Position, events: &[NmtEvent]) -> bool
    ensures { result ≡ gains here there events.now }
{
    for event in events {
        if stays(here, *event) && !stays(there, *event) {
            return true;
        }
    }
    false
}

// A flag that is missing: with it some event would move the state that keeps it now.
#[derive(Clone, Copy)]
struct Missing(Position);

impl Display for Missing {
    ghost output = { λ x. Some (missing_text x.0) };

    fn fmt<W: fmt::Write>(&self, f: &mut fmt::Formatter<W>) -> fmt::Result {
        let here = self.0;
        let enabled = Position {
            enabled: true,
            ..here
        };
        let ready = Position {
            ready: true,
            ..here
        };
        if gains(here, enabled, &NmtEvent::ALL) {
            f.write_str("; waits for the enable")?;
        }
        if gains(here, ready, &NmtEvent::ALL) {
            f.write_str("; waits for the ready word")?;
        }
        Ok(())
    }
}

// What events that are no resets move or set.
#[derive(Clone, Copy)]
struct Leads<'a>(Position, &'a [NmtEvent]);

impl Display for Leads<'_> {
    ghost output = { λ x. Some (leads_text x.0 x.1.now) };

    fn fmt<W: fmt::Write>(&self, f: &mut fmt::Formatter<W>) -> fmt::Result {
        for event in self.1 {
            write!(f, "{}", Lead(self.0, *event))?;
        }
        Ok(())
    }
}

// What an event moves or sets; nothing of one that changes nothing, or is a reset.
#[derive(Clone, Copy)]
struct Lead(Position, NmtEvent);

#[tactic(auto, unfolding(crate::specs::Why::lead_text))]
impl Display for Lead {
    ghost output = { λ x. Some (lead_text x.0 x.1) };

    fn fmt<W: fmt::Write>(&self, f: &mut fmt::Formatter<W>) -> fmt::Result {
        let Lead(before, event) = *self;
        let after = left_by(before, event).position;
        if is_reset(event) || !changes(before, after) {
            return Ok(());
        }
        write!(f, "; {event}{}", Change(before, after))
    }
}

// Whether a position has another state, or a flag more.
fn changes(before: Position, after: Position) -> bool
    ensures { result ≡ changes before after }
{
    after.state.as_u8() != before.state.as_u8()
        || (after.enabled && !before.enabled)
        || (after.ready && !before.ready)
}

// What became of a position that changed.
#[derive(Clone, Copy)]
struct Change(Position, Position);

impl Display for Change {
    ghost output = { λ x. Some (set_text x.0 x.1) };

    fn fmt<W: fmt::Write>(&self, f: &mut fmt::Formatter<W>) -> fmt::Result {
        let Change(before, after) = *self;
        if after.state.as_u8() != before.state.as_u8() {
            write!(f, " leads to {}", after.state)
        } else if after.enabled && !before.enabled {
            f.write_str(" enables")
        } else {
            f.write_str(" makes ready")
        }
    }
}
