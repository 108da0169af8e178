//! The NMT transitions by state, from the table (RULES 4.7): a picture of the moves, the states
//! that each reset event enters, and a chart for each state.
ghost use Rattle.std.specs.Prelude.{◌≡◌, Some};
ghost use Rattle.types.specs.Events.{events};
ghost use Rattle.nmt.specs.Table.{ruled};
ghost use Rattle.chart.specs.Transitions.{has_row, same_at, same_row, agrees_with_reset};
ghost use Rattle.chart.specs.Transitions.{resets_agree, is_reset_or_unexpected};
ghost use Rattle.chart.specs.Transitions.{only_resets_expected, has_only_reset_row};
ghost use Rattle.chart.specs.Transitions.{transition_of, transition_text, change_text};
ghost use Rattle.chart.specs.Transitions.{target_text, cell_text, entries_text};
ghost use Rattle.chart.specs.Transitions.{shared_reset_row, event_row, event_rows};
ghost use Rattle.chart.specs.Transitions.{unexpected_event, unexpected_events, state_title};
ghost use Rattle.chart.specs.Transitions.{chart_text, state_row, entered_text, sequence_row};
ghost use Rattle.chart.specs.Transitions.{led_to, moves, arrow_text, move_text};

use forms::hex::HexByte;
use forms::output::Output;
use nmt::cn_state_machine::Position;
use nmt::state_machine::{is_reset, reset_sequence};
use nmt::table::chosen;
use std::fmt;
use std::fmt::Display;
use types::nmt::events::NmtEvent;
use types::nmt::states::NmtState;

// Whether the pair of state and event has a row.
#[tactic(auto, unfolding(crate::specs::Transitions::has_row))]
fn has_row(state: NmtState, event: NmtEvent) -> bool
    ensures { result ≡ has_row state event }
{
    !chosen(state, event, false, false).unexpected
}

// Whether two events do the same in a state at one pair of enabled and ready.
#[tactic(auto, using(crate::proofs::SameFlag::same_flag_lem), unfolding(crate::specs::Transitions::same_entry))]
fn same_at(state: NmtState, event: NmtEvent, other: NmtEvent, enabled: bool, ready: bool) -> bool
    ensures { result ≡ same_at state event other enabled ready }
{
    chosen(state, event, enabled, ready) == chosen(state, other, enabled, ready)
}

// Whether two events do the same in a state, enabled or not, ready or not.
#[tactic(auto, unfolding(crate::specs::Transitions::same_row))]
fn same_row(state: NmtState, event: NmtEvent, other: NmtEvent) -> bool
    ensures { result ≡ same_row state event other }
{
    same_at(state, event, other, false, false)
        && same_at(state, event, other, false, true)
        && same_at(state, event, other, true, false)
        && same_at(state, event, other, true, true)
}

// Whether the event is no reset event, or has a row and does what Reset does.
#[tactic(auto, unfolding(crate::specs::Transitions::agrees_with_reset))]
fn agrees_with_reset(state: NmtState, event: NmtEvent) -> bool
    ensures { result ≡ agrees_with_reset state event }
{
    !is_reset(event) || has_row(state, event) && same_row(state, event, NmtEvent::Reset)
}

// Whether every reset event has a row in the state, and all do the same.
#[tactic(auto, unfolding(crate::specs::Transitions::resets_agree))]
fn resets_agree(state: NmtState) -> bool
    ensures { result ≡ resets_agree state }
{
    NmtEvent::ALL
        .iter()
        .all(|event| agrees_with_reset(state, *event))
}

// Whether the event has no row but that of the reset events.
#[tactic(auto, unfolding(crate::specs::Transitions::is_reset_or_unexpected))]
fn is_reset_or_unexpected(state: NmtState, event: NmtEvent) -> bool
    ensures { result ≡ is_reset_or_unexpected state event }
{
    is_reset(event) || !has_row(state, event)
}

// Whether no event has a row but the reset events.
#[tactic(auto, unfolding(crate::specs::Transitions::only_resets_expected))]
fn only_resets_expected(state: NmtState) -> bool
    ensures { result ≡ only_resets_expected state }
{
    NmtEvent::ALL
        .iter()
        .all(|event| is_reset_or_unexpected(state, *event))
}

// Whether the one row of the reset events is the state's only row.
#[tactic(auto, unfolding(crate::specs::Transitions::has_only_reset_row))]
fn has_only_reset_row(state: NmtState) -> bool
    ensures { result ≡ has_only_reset_row state }
{
    resets_agree(state) && only_resets_expected(state)
}

// A row's transition by its number in NMT_CT; `None` where DS 301 has none.
#[tactic(auto, unfolding(crate::specs::Transitions::transition_of, nmt::specs::Resets::is_reset))]
fn transition_of(state: NmtState, event: NmtEvent) -> Option<u8>
    ensures { result ≡ transition_of state event }
{
    match (state, event) {
        (NmtState::NmtNotActive, NmtEvent::SoAReceived | NmtEvent::SocReceived) => Some(2),
        (NmtState::NmtNotActive, NmtEvent::Timeout) => Some(3),
        (NmtState::NmtPreOperational1, NmtEvent::SocReceived) => Some(4),
        (NmtState::NmtPreOperational2, NmtEvent::EnableReadyToOperate) => Some(5),
        (NmtState::NmtPreOperational2, NmtEvent::CnConfigurationComplete) => Some(6),
        (NmtState::NmtReadyToOperate, NmtEvent::StartNode) => Some(7),
        (
            NmtState::NmtPreOperational2 | NmtState::NmtReadyToOperate | NmtState::NmtOperational,
            NmtEvent::StopNode,
        ) => Some(8),
        (NmtState::NmtOperational, NmtEvent::EnterPreOperational2) => Some(9),
        (NmtState::NmtCsStopped, NmtEvent::EnterPreOperational2) => Some(10),
        (
            NmtState::NmtPreOperational2
            | NmtState::NmtReadyToOperate
            | NmtState::NmtOperational
            | NmtState::NmtCsStopped,
            NmtEvent::Error,
        ) => Some(11),
        (NmtState::NmtBasicEthernet, NmtEvent::PowerlinkFrameReceived) => Some(12),
        _ if is_reset(event) => Some(1),
        _ => None,
    }
}

// A transition by its number, as it is printed.
#[derive(Clone, Copy)]
struct Transition(Option<u8>);

impl Display for Transition {
    ghost output = { λ x. Some (transition_text x.0) };

    fn fmt<W: fmt::Write>(&self, f: &mut fmt::Formatter<W>) -> fmt::Result {
        match self.0 {
            Some(number) => write!(f, "NMT_CT{number}"),
            None => f.write_str("no NMT_CT"),
        }
    }
}

// What becomes of a flag, where it changes.
#[derive(Clone, Copy)]
struct FlagChange {
    flag: &'static str,
    before: bool,
    after: bool,
}

impl Display for FlagChange {
    ghost output = { λ x. Some (change_text x.flag.now x.before x.after) };

    fn fmt<W: fmt::Write>(&self, f: &mut fmt::Formatter<W>) -> fmt::Result {
        match (self.before, self.after) {
            (false, true) => write!(f, ", sets {}", self.flag),
            (true, false) => write!(f, ", clears {}", self.flag),
            _ => Ok(()),
        }
    }
}

// Where an event leads. A reset enters NotActive in NotActive too.
fn target(from: NmtState, event: NmtEvent, to: NmtState) -> &'static str
    ensures { result.now ≡ target_text from event to }
{
    if to == from && !is_reset(event) {
        return "stays";
    }
    to.name()
}

// Where an event leads from a position, and what it sets or clears.
#[derive(Clone, Copy)]
struct Cell {
    from: Position,
    event: NmtEvent,
}

impl Display for Cell {
    ghost output = { λ x. Some (cell_text x.from.state x.event x.from.enabled x.from.ready) };

    fn fmt<W: fmt::Write>(&self, f: &mut fmt::Formatter<W>) -> fmt::Result {
        let Cell { from, event } = *self;
        let to = chosen(from.state, event, from.enabled, from.ready).position;
        let enabled = FlagChange {
            flag: "enabled",
            before: from.enabled,
            after: to.enabled,
        };
        let ready = FlagChange {
            flag: "ready",
            before: from.ready,
            after: to.ready,
        };
        write!(f, "{}{enabled}{ready}", target(from.state, event, to.state))
    }
}

// A row but for its first column.
#[derive(Clone, Copy)]
struct Entries(NmtState, NmtEvent);

impl Entries {
    // The entry at one pair of enabled and ready.
    fn entry(self, enabled: bool, ready: bool) -> Cell
        ensures { result ≡ record {
          from = record { state = self.0; enabled = enabled; ready = ready };
          event = self.1;
        } }
    {
        let from = Position {
            state: self.0,
            enabled,
            ready,
        };
        Cell {
            from,
            event: self.1,
        }
    }
}

#[tactic(auto, unfolding(crate::specs::Transitions::entries_text))]
impl Display for Entries {
    ghost output = { λ x. Some (entries_text x.0 x.1) };

    fn fmt<W: fmt::Write>(&self, f: &mut fmt::Formatter<W>) -> fmt::Result {
        writeln!(
            f,
            "{} | {} | {} | {} | {} |",
            self.entry(false, false),
            self.entry(false, true),
            self.entry(true, false),
            self.entry(true, true),
            Transition(transition_of(self.0, self.1))
        )
    }
}

// The one row of the reset events, where they agree.
#[derive(Clone, Copy)]
struct SharedResetRow(NmtState);

impl Display for SharedResetRow {
    ghost output = { λ x. Some (shared_reset_row x.0) };

    fn fmt<W: fmt::Write>(&self, f: &mut fmt::Formatter<W>) -> fmt::Result {
        if !resets_agree(self.0) {
            return Ok(());
        }
        write!(f, "| a reset event | {}", Entries(self.0, NmtEvent::Reset))
    }
}

// An event's own row: none where it has no row, or shares that of the reset events.
#[derive(Clone, Copy)]
struct EventRow(NmtState, NmtEvent);

impl Display for EventRow {
    ghost output = { λ x. Some (event_row x.0 x.1) };

    fn fmt<W: fmt::Write>(&self, f: &mut fmt::Formatter<W>) -> fmt::Result {
        let EventRow(state, event) = *self;
        if !has_row(state, event) || is_reset(event) && resets_agree(state) {
            return Ok(());
        }
        write!(f, "| {event} | {}", Entries(state, event))
    }
}

// The rows of some events.
#[derive(Clone, Copy)]
struct EventRows<'a>(NmtState, &'a [NmtEvent]);

impl Display for EventRows<'_> {
    ghost output = { λ x. Some (event_rows x.0 x.1.now) };

    fn fmt<W: fmt::Write>(&self, f: &mut fmt::Formatter<W>) -> fmt::Result {
        for event in self.1 {
            write!(f, "{}", EventRow(self.0, *event))?;
        }
        Ok(())
    }
}

// An event that has no row.
#[derive(Clone, Copy)]
struct UnexpectedEvent(NmtState, NmtEvent);

impl Display for UnexpectedEvent {
    ghost output = { λ x. Some (unexpected_event x.0 x.1) };

    fn fmt<W: fmt::Write>(&self, f: &mut fmt::Formatter<W>) -> fmt::Result {
        if has_row(self.0, self.1) {
            return Ok(());
        }
        write!(f, " {},", self.1)
    }
}

// Those of some events that have no row.
#[derive(Clone, Copy)]
struct UnexpectedEvents<'a>(NmtState, &'a [NmtEvent]);

impl Display for UnexpectedEvents<'_> {
    ghost output = { λ x. Some (unexpected_events x.0 x.1.now) };

    fn fmt<W: fmt::Write>(&self, f: &mut fmt::Formatter<W>) -> fmt::Result {
        for event in self.1 {
            write!(f, "{}", UnexpectedEvent(self.0, *event))?;
        }
        Ok(())
    }
}

// A state with its number.
#[derive(Clone, Copy)]
struct StateTitle(NmtState);

impl Display for StateTitle {
    ghost output = { λ x. Some (state_title x.0) };

    fn fmt<W: fmt::Write>(&self, f: &mut fmt::Formatter<W>) -> fmt::Result {
        write!(f, "{}, {}", self.0, HexByte(self.0.as_u8()))
    }
}

// A state's chart and the events that have no row; none where only the reset events have one.
#[derive(Clone, Copy)]
struct Chart(NmtState);

#[tactic(auto, unfolding(crate::specs::Transitions::chart_text))]
impl Display for Chart {
    ghost output = { λ x. Some (chart_text x.0) };

    fn fmt<W: fmt::Write>(&self, f: &mut fmt::Formatter<W>) -> fmt::Result {
        let Chart(state) = *self;
        if has_only_reset_row(state) {
            return Ok(());
        }
        writeln!(
            f,
            "\n## {}\n\n| event | neither | ready | enabled | enabled and ready | transition |\n|---|---|---|---|---|---|\n{}{}\nNo row:{} and no other.",
            StateTitle(state),
            SharedResetRow(state),
            EventRows(state, &NmtEvent::ALL),
            UnexpectedEvents(state, &NmtEvent::ALL)
        )
    }
}

// The row of a state in which only the reset events have one.
#[derive(Clone, Copy)]
struct StateRow(NmtState);

impl Display for StateRow {
    ghost output = { λ x. Some (state_row x.0) };

    fn fmt<W: fmt::Write>(&self, f: &mut fmt::Formatter<W>) -> fmt::Result {
        if !has_only_reset_row(self.0) {
            return Ok(());
        }
        write!(
            f,
            "| {} | {}",
            StateTitle(self.0),
            Entries(self.0, NmtEvent::Reset)
        )
    }
}

// States one after the other.
#[derive(Clone, Copy)]
struct Entered<'a>(&'a [NmtState]);

impl Display for Entered<'_> {
    ghost output = { λ x. Some (entered_text x.0.now) };

    fn fmt<W: fmt::Write>(&self, f: &mut fmt::Formatter<W>) -> fmt::Result {
        let Some((first, behind)) = self.0.split_first() else {
            return Ok(());
        };
        write!(f, "{first}")?;
        for state in behind {
            write!(f, ", {state}")?;
        }
        Ok(())
    }
}

// The row of a reset event: the states that it enters.
#[derive(Clone, Copy)]
struct SequenceRow(NmtEvent);

#[tactic(auto, unfolding(nmt::specs::Resets::reset_sequence))]
impl Display for SequenceRow {
    ghost output = { λ x. Some (sequence_row x.0) };

    fn fmt<W: fmt::Write>(&self, f: &mut fmt::Formatter<W>) -> fmt::Result {
        if !is_reset(self.0) {
            return Ok(());
        }
        let states = reset_sequence(self.0).entered();
        writeln!(f, "| {} | {} |", self.0, Entered(states))
    }
}

// An arrow of the picture, with the event, what it asks for and the transition.
#[derive(Clone, Copy)]
struct Arrow {
    from: NmtState,
    event: NmtEvent,
    to: NmtState,
    condition: &'static str,
}

#[tactic(auto, unfolding(crate::specs::Transitions::arrow_text))]
impl Display for Arrow {
    ghost output = { λ x. Some (arrow_text x.from x.event x.to x.condition.now) };

    fn fmt<W: fmt::Write>(&self, f: &mut fmt::Formatter<W>) -> fmt::Result {
        writeln!(
            f,
            "    {} --> {} : {}{} ({})",
            self.from,
            self.to,
            self.event,
            self.condition,
            Transition(transition_of(self.from, self.event))
        )
    }
}

// The arrow of a state and an event, where there is one. Where a ready or an enabled machine moves
// and another does not, the arrow says so.
#[derive(Clone, Copy)]
struct Move(NmtState, NmtEvent);

impl Move {
    // Where the event leads at one pair of enabled and ready.
    #[tactic(auto, unfolding(crate::specs::Transitions::led_to))]
    fn to(self, enabled: bool, ready: bool) -> NmtState
        ensures { result ≡ led_to self.0 self.1 enabled ready }
    {
        chosen(self.0, self.1, enabled, ready).position.state
    }

    // Whether that is another state.
    #[tactic(auto, unfolding(crate::specs::Transitions::moves))]
    fn moves(self, enabled: bool, ready: bool) -> bool
        ensures { result ≡ moves self.0 self.1 enabled ready }
    {
        self.to(enabled, ready) != self.0
    }

    // The arrow at one pair of enabled and ready.
    fn arrow(self, enabled: bool, ready: bool, condition: &'static str) -> Arrow
        ensures { (result.from ≡ self.0) × ((result.event ≡ self.1) ×
            ((result.to ≡ led_to self.0 self.1 enabled ready) ×
            (result.condition.now ≡ condition.now))) }
    {
        Arrow {
            from: self.0,
            event: self.1,
            to: self.to(enabled, ready),
            condition,
        }
    }
}

#[tactic(auto, unfolding(crate::specs::Transitions::move_text))]
impl Display for Move {
    ghost output = { λ x. Some (move_text x.0 x.1) };

    fn fmt<W: fmt::Write>(&self, f: &mut fmt::Formatter<W>) -> fmt::Result {
        if self.moves(false, false) {
            return write!(f, "{}", self.arrow(false, false, ""));
        }
        if self.moves(false, true) {
            return write!(f, "{}", self.arrow(false, true, ", if ready"));
        }
        if self.moves(true, false) {
            return write!(f, "{}", self.arrow(true, false, ", if enabled"));
        }
        Ok(())
    }
}

/// Prints the picture of the moves.
pub(crate) fn print_moves(out: &mut Output) {
    write!(
        out,
        "\n## The moves\n\n```mermaid\nstateDiagram-v2\n    state \"every state\" as Every\n    Every --> NotActive : a reset event (NMT_CT1)\n"
    );
    for state in NmtState::ALL {
        for event in NmtEvent::ALL {
            if !is_reset(event) {
                write!(out, "{}", Move(state, event));
            }
        }
    }
    write!(out, "```\n");
}

// The places of the states, as an entry of the table has them.
fn print_places(out: &mut Output) {
    for (place, state) in NmtState::ALL.iter().enumerate() {
        if 0 < place {
            write!(out, ", ");
        }
        write!(out, "{state} {place:X}");
    }
}

// What the charts show, and how the table packs it.
fn print_legend(out: &mut Output) {
    write!(
        out,
        "\n## The charts\n\nA chart has four columns for enabled and ready; a cell says where the event leads and what it sets or clears. Where the reset events do the same in a state, *a reset event* stands for them all.\n"
    );
    write!(
        out,
        "\nAn event without a row in a state leaves the state, enabled and ready as they are, and reports UnexpectedEventInState with the numbers of state and event.\n"
    );
    write!(
        out,
        "\nIn the table an entry is two hexadecimal digits. The second is the next state's place: "
    );
    print_places(out);
    write!(
        out,
        ". The first is 1 where it is ready then, 2 where enabled, 4 where the pair has no row.\n"
    );
}

/// Prints the states that each reset event enters, and the charts.
pub(crate) fn print_charts(out: &mut Output) {
    write!(
        out,
        "\n## Resets\n\nA reset event enters these states one after the other, the last by NMT_CT1.\n\n| event | states |\n|---|---|\n"
    );
    for event in NmtEvent::ALL {
        write!(out, "{}", SequenceRow(event));
    }
    print_legend(out);
    write!(
        out,
        "\n## States in which only a reset event has a row\n\nNo machine stands in GsOff and in the three reset states after a whole event; they have entries by the same rule.\n\n| state | neither | ready | enabled | enabled and ready | transition |\n|---|---|---|---|---|---|\n"
    );
    for state in NmtState::ALL {
        write!(out, "{}", StateRow(state));
    }
    for state in NmtState::ALL {
        write!(out, "{}", Chart(state));
    }
}
