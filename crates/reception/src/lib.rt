//! A frame at a head (RULES 13): its DLL event with the errors of that, its NMT event, and the
//! arming by an SoC.
#![tactic(auto)]

ghost use Rattle.std.specs.Prelude.{◌≡◌};
ghost use Rattle.head.specs.Words.{nmt_of, head_of};
ghost use Rattle.frames.specs.Frame.{nmt_event_of};
ghost use Rattle.phases.specs.PartsIn.{Turns};
ghost use Rattle.node.specs.FrameSteps.{is_ours, arms};
ghost use Rattle.reception.specs.FrameIn.{arms_words, GivenIn, TakenIn, FrameIn};

use entries::sizes::{HistoryBytes, QueueBytes};
use frames::{Frame, Message};
use head::machines::nmt_of;
use head::state::Head;
use node::calls::{NmtTaken, arm_at, process_event};
use tick::dll_errors::on_dll_event;
use types::frame::error::types::DllErrors;
use types::refusals::Refusal;
use types::types::C_ADR_BROADCAST_NODE_ID;
use watched::time::Time;

/// What a frame that is ours answers.
#[derive(Clone, Copy, PartialEq, Eq)]
pub struct FrameTaken {
    /// What would be logged to a handler.
    pub logged: DllErrors,
    /// What its NMT event answers. None where it has no event, and where an error of its DLL event
    /// brought an action.
    pub nmt: Option<NmtTaken>,
}

/// What a frame answers that is not refused.
#[derive(Clone, Copy, PartialEq, Eq)]
pub enum FrameAnswer {
    /// It is for another node, and nothing changed.
    NotOurs,
    /// It is for this head or for every node.
    Ours(FrameTaken),
}

// Whether a destination is this head, or every node.
fn is_ours(head: &Head, destination: u8) -> bool
    ensures { result ≡ is_ours (nmt_of head.now).node_id destination }
{
    destination == nmt_of(head).node_id.0 || destination == C_ADR_BROADCAST_NODE_ID
}

// The NMT event of a message, where it has one.
fn give_event(head: &mut Head, message: Message) -> Option<NmtTaken>
    ensures { GivenIn head.old (nmt_event_of message) result head.new }
{
    let event = message.nmt_event()?;
    Some(process_event(head, event))
}

// An SoC arms.
fn arm_by(head: &mut Head, message: Message, time: Time)
    ensures { Turns head.old (arms time.us message) head.new (arms_words time.us message head.old) }
{
    if let Message::SoC = message {
        arm_at(head, time);
    }
}

// A message that is ours.
fn receive(
    head: &mut Head,
    queue: &mut QueueBytes,
    history: &mut HistoryBytes,
    message: Message,
    time: Time,
) -> FrameTaken
    ensures { TakenIn head.old queue.old history.old time.us message result
        head.new queue.new history.new }
{
    let event = message.message_type().dll_cn_event();
    let outcome = on_dll_event(head, queue, history, event, time.us);
    if outcome.ended {
        return FrameTaken {
            logged: outcome.logged,
            nmt: None,
        };
    }
    let nmt = give_event(head, message);
    arm_by(head, message, time);
    FrameTaken {
        logged: outcome.logged,
        nmt,
    }
}

/// A frame that arrived at a time in µs, 0 to 2^62 - 1: the bytes of an Ethernet frame, from its
/// destination's address on (RULES 13). Refused, in this order: as its reading is (`Frame::read`),
/// then by TimeLimit; then nothing changes. Nor does it where the frame is for another node.
#[inline(always)]
pub fn process_frame(
    head: &mut Head,
    queue: &mut QueueBytes,
    history: &mut HistoryBytes,
    time: u64,
    bytes: &[u8],
) -> Result<FrameAnswer, Refusal>
    ensures { FrameIn head.old queue.old history.old time bytes.now result
        head.new queue.new history.new }
{
    let frame = Frame::read(bytes)?;
    let time = Time::try_from(time)?;
    if !is_ours(head, frame.destination) {
        return Ok(FrameAnswer::NotOurs);
    }
    let taken = receive(head, queue, history, frame.message, time);
    Ok(FrameAnswer::Ours(taken))
}
