//! The positions that a head can come to, and the steps between them, as a picture.
ghost use Rattle.std.specs.Prelude.{◌≡◌, Some};
ghost use Rattle.chart.specs.Positions.{step_text, key_text, position_line, stepped};
ghost use Rattle.chart.specs.Positions.{arrow_text, position_of};
ghost use Rattle.chart.specs.Texts.{text_if};
ghost use Rattle.chart.specs.declared.positions.Step.TheVariants as step;

use forms::output::Output;
use head::machines::{nmt_of, set_nmt};
use head::state::Head;
use nmt::cn_state_machine::{CnNmtStateMachine, Position};
use nmt::state_machine::is_reset;
use node::calls::{nmt_event, withdraw};
use reach::Line;
use std::fmt;
use std::fmt::Display;
use types::nmt::events::NmtEvent;
use types::nmt::flags::FeatureFlags;
use types::types::NodeId;

// A step of a head.
#[derive(Clone, Copy)]
enum Step {
    Event(NmtEvent),
    Withdrawal,
}

impl Display for Step {
    ghost output = { λ x. Some (step_text x) };

    fn fmt<W: fmt::Write>(&self, f: &mut fmt::Formatter<W>) -> fmt::Result {
        match *self {
            Step::Event(event) => write!(f, "{event}"),
            Step::Withdrawal => f.write_str("withdrawal"),
        }
    }
}

// A text, where a flag is on.
fn text_if(flag: bool, text: &str) -> &str
    ensures { result.now ≡ text_if flag text.now }
{
    if flag { text } else { "" }
}

// A position's key in the picture.
#[derive(Clone, Copy)]
struct Key(Position);

impl Display for Key {
    ghost output = { λ x. Some (key_text x.0) };

    fn fmt<W: fmt::Write>(&self, f: &mut fmt::Formatter<W>) -> fmt::Result {
        let enabled = text_if(self.0.enabled, "_E");
        let ready = text_if(self.0.ready, "_R");
        write!(f, "{}{enabled}{ready}", self.0.state)
    }
}

// A position of the picture, with its least number of steps.
#[derive(Clone, Copy)]
struct PositionLine(Line);

#[tactic(auto, unfolding(crate::specs::Positions::position_line))]
impl Display for PositionLine {
    ghost output = { λ x. Some (position_line x.0) };

    fn fmt<W: fmt::Write>(&self, f: &mut fmt::Formatter<W>) -> fmt::Result {
        let Line { position, steps } = self.0;
        let enabled = text_if(position.enabled, ", enabled");
        let ready = text_if(position.ready, ", ready");
        writeln!(
            f,
            "    state \"{steps}: {}{enabled}{ready}\" as {}",
            position.state,
            Key(position)
        )
    }
}

// A head at a position, with any node, flags and timeout.
fn head_at(position: Position) -> Head
    ensures { position_of result ≡ position }
{
    let mut head = [0; 60];
    let machine = CnNmtStateMachine::new(NodeId(0), FeatureFlags(0), 0);
    set_nmt(&mut head, machine.at(position));
    head
}

// A head's position.
fn position_of(head: &Head) -> Position
    ensures { result ≡ position_of head.now }
{
    let machine = nmt_of(head);
    Position {
        state: machine.current_state,
        enabled: machine.ready_to_operate_enabled,
        ready: machine.app_ready,
    }
}

// The position after a step, by the node's own call; a call that is refused leaves it.
fn after_event(from: Position, event: NmtEvent) -> Position
    ensures { result ≡ stepped from (step.Event event) }
{
    let mut head = head_at(from);
    let _ = nmt_event(&mut head, u64::from(event.as_u8()));
    position_of(&head)
}

fn after_withdrawal(from: Position) -> Position
    ensures { result ≡ stepped from step.Withdrawal }
{
    let mut head = head_at(from);
    let _ = withdraw(&mut head);
    position_of(&head)
}

fn after_step(from: Position, step: Step) -> Position
    ensures { result ≡ stepped from step }
{
    match step {
        Step::Event(event) => after_event(from, event),
        Step::Withdrawal => after_withdrawal(from),
    }
}

// An arrow of the picture, where a step leads to another position.
#[derive(Clone, Copy)]
struct Arrow(Position, Step);

#[tactic(auto, using(crate::proofs::SameFlag::same_flag_lem), unfolding(crate::specs::Positions::arrow_text))]
impl Display for Arrow {
    ghost output = { λ x. Some (arrow_text x.0 x.1) };

    fn fmt<W: fmt::Write>(&self, f: &mut fmt::Formatter<W>) -> fmt::Result {
        let Arrow(from, step) = *self;
        let to = after_step(from, step);
        if to == from {
            return Ok(());
        }
        writeln!(f, "    {} --> {} : {step}", Key(from), Key(to))
    }
}

// The arrows from a position. The resets have an arrow of their own.
fn print_arrows(out: &mut Output, from: Position) {
    for event in NmtEvent::ALL {
        if !is_reset(event) {
            write!(out, "{}", Arrow(from, Step::Event(event)));
        }
    }
    write!(out, "{}", Arrow(from, Step::Withdrawal));
}

/// Prints the positions and the picture of the steps between them.
pub(crate) fn print_positions(out: &mut Output) {
    write!(
        out,
        "\n## Every position\n\nA position is an NMT state, whether enabled and whether ready. A fresh head reaches these by NMT events and withdrawals, and no others; before each stands the least number of steps to it. That is proved ([the lines](../crates/reach/src/lib.rt), which the program `positions` prints).\n"
    );
    write!(
        out,
        "A step is one withdrawal or one whole event: the states that a reset passes are no positions. At ReadyToOperate a withdrawal is refused (number 8), which is no step. The arrows are what the node's own calls do; a step that leads to where it starts has none.\n"
    );
    write!(
        out,
        "\n```mermaid\nstateDiagram-v2\n    state \"every position\" as Every\n"
    );
    for line in reach::lines() {
        write!(out, "{}", PositionLine(line));
    }
    write!(
        out,
        "    [*] --> GsInitialising_R\n    Every --> NotActive : a reset event\n"
    );
    for line in reach::lines() {
        print_arrows(out, line.position);
    }
    write!(out, "```\n");
}
