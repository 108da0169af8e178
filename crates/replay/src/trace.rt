//! What a line made of the NMT machine's state, for the trace.
ghost use Rattle.std.specs.Prelude.{◌≡◌, option_and_then};
ghost use Rattle.replay.specs.Traced.{event_of, frame_event, cause_of, moved};

use calling::Call;
use frames::Frame;
use nmt::cn_state_machine::CnNmtStateMachine;
use script::Line;
use telling::moves::{Cause, Moved};
use telling::why::{left_by, position_of};
use types::nmt::events::NmtEvent;
use weigh::WeighCall;

// Of an event and Error the one that moved a machine: the table leads at most one of them to the
// state in which it stands behind it.
fn event_of(event: NmtEvent, before: CnNmtStateMachine, after: CnNmtStateMachine) -> NmtEvent
    ensures { result ≡ event_of event before after }
{
    let moved = left_by(position_of(before), event).position;
    if moved.state.as_u8() == after.current_state.as_u8() {
        event
    } else {
        NmtEvent::Error
    }
}

// The NMT event of a frame's bytes; Error where they have none.
fn frame_event(bytes: &[u8]) -> NmtEvent
    ensures { result ≡ frame_event bytes.now }
{
    match Frame::read(bytes) {
        Ok(frame) => frame.message.nmt_event().unwrap_or(NmtEvent::Error),
        Err(_) => NmtEvent::Error,
    }
}

// What moved a machine by a line: a start, the event that the line names, the ready word of a load,
// that of a frame or Error, or Timeout or Error of a tick.
fn cause_of(line: Line<'_>, before: CnNmtStateMachine, after: CnNmtStateMachine) -> Cause
    ensures { result ≡ cause_of line.entry before after }
{
    match line {
        Line::Start(_) => Cause::Start,
        Line::Call(WeighCall::Node(Call::NmtEvent(number))) => match NmtEvent::try_from(number) {
            Ok(event) => Cause::Event(event),
            Err(_) => Cause::Event(event_of(NmtEvent::Timeout, before, after)),
        },
        Line::Call(WeighCall::Node(Call::Frame { bytes, .. })) => {
            Cause::Event(event_of(frame_event(bytes), before, after))
        }
        Line::Call(WeighCall::LoadRecipe(_)) => Cause::Event(NmtEvent::CnConfigurationComplete),
        _ => Cause::Event(event_of(NmtEvent::Timeout, before, after)),
    }
}

/// How a line moved the machine of a node, where its state is another behind it.
pub fn moved(line: Line<'_>, before: CnNmtStateMachine, after: CnNmtStateMachine) -> Option<Moved>
    ensures { result ≡ moved line.entry before after }
{
    if before.current_state.as_u8() == after.current_state.as_u8() {
        return None;
    }
    Some(Moved {
        node: after.node_id,
        from: before.current_state,
        to: after.current_state,
        on: cause_of(line, before, after),
    })
}
