//! What a trace prints: how the NMT machine of a node was moved.
ghost use Rattle.std.specs.Prelude.{Some};
ghost use Rattle.telling.specs.Moves.{cause_text, moved_text};

use std::fmt;
use std::fmt::Display;
use types::nmt::events::NmtEvent;
use types::nmt::states::NmtState;
use types::types::NodeId;

/// What moved it.
#[derive(Clone, Copy)]
pub enum Cause {
    /// A start: the head is fresh.
    Start,
    /// An NMT event.
    Event(NmtEvent),
}

/// A node whose NMT machine was moved from one state to another.
#[derive(Clone, Copy)]
pub struct Moved {
    pub node: NodeId,
    pub from: NmtState,
    pub to: NmtState,
    pub on: Cause,
}

impl Display for Cause {
    ghost output = { λ x. Some (cause_text x) };

    fn fmt<W: fmt::Write>(&self, f: &mut fmt::Formatter<W>) -> fmt::Result {
        match self {
            Cause::Start => f.write_str("start"),
            Cause::Event(event) => write!(f, "{event}"),
        }
    }
}

impl Display for Moved {
    ghost output = { λ x. Some (moved_text x) };

    fn fmt<W: fmt::Write>(&self, f: &mut fmt::Formatter<W>) -> fmt::Result {
        let Moved { node, from, to, on } = *self;
        writeln!(f, "node {}: {from} to {to} on {on}", node.0)
    }
}
