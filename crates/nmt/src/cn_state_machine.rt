//! The NMT machine of a controlled node: an event moves it as its entry in the table says.
ghost use Rattle.std.specs.Prelude.{◌≡◌};
ghost use Rattle.types.specs.Errors.{reported};
ghost use Rattle.nmt.specs.Resets.{passed, reset_sequence};
ghost use Rattle.nmt.specs.Nmt.{new_machine, outcome, processed, with};
ghost use Rattle.nmt.specs.Table.{reports};

use crate::state_machine::{ResetSequence, reset_sequence};
use crate::table::chosen;
use types::frame::error::types::{DllError, DllErrors};
use types::nmt::events::NmtEvent;
use types::nmt::flags::FeatureFlags;
use types::nmt::states::NmtState;
use types::types::NodeId;

/// All of a machine that an event depends on and changes.
#[derive(Clone, Copy, PartialEq, Eq)]
pub struct Position {
    pub state: NmtState,
    /// The managing node has allowed ReadyToOperate.
    pub enabled: bool,
    /// The application is ready.
    pub ready: bool,
}

/// The NMT machine of a controlled node (RULES 1.1).
#[derive(Clone, Copy, PartialEq, Eq)]
pub struct CnNmtStateMachine {
    pub current_state: NmtState,
    /// The node's own number.
    pub node_id: NodeId,
    /// Kept, and read by no rule.
    pub feature_flags: FeatureFlags,
    /// In µs: how long a tick lets NotActive last before BasicEthernet; 0 sets no limit (RULES
    /// 7.5).
    pub basic_ethernet_timeout: u32,
    /// The managing node has allowed ReadyToOperate.
    pub ready_to_operate_enabled: bool,
    /// The application has finished its configuration.
    pub app_ready: bool,
}

/// What an NMT event leaves and answers.
#[derive(Clone, Copy, PartialEq, Eq)]
pub struct NmtAnswer {
    pub machine: CnNmtStateMachine,
    /// None, or the one error UnexpectedEventInState.
    pub errors: DllErrors,
    /// The states passed and the ranges to restore, where the event is a reset.
    pub reset: ResetSequence,
}

// The errors of an event: UnexpectedEventInState where the pair of state and event has no row.
fn reported_of(unexpected: bool, state: NmtState, event: NmtEvent) -> DllErrors
    ensures { reported result ≡ reports unexpected state event }
{
    if unexpected {
        let state = state.as_u8();
        let event = event.as_u8();
        return DllErrors::One(DllError::UnexpectedEventInState { state, event });
    }
    DllErrors::None
}

impl CnNmtStateMachine {
    /// A machine at GsInitialising, not enabled, ready; the timeout in µs.
    pub fn new(node_id: NodeId, feature_flags: FeatureFlags, basic_ethernet_timeout: u32) -> Self
        ensures { result ≡ new_machine node_id feature_flags basic_ethernet_timeout }
    {
        Self {
            current_state: NmtState::NmtGsInitialising,
            node_id,
            feature_flags,
            basic_ethernet_timeout,
            ready_to_operate_enabled: false,
            app_ready: true,
        }
    }

    /// The machine at another position; its node, flags and timeout stay.
    pub fn at(self, position: Position) -> Self
        ensures { result ≡ with self position.state position.enabled position.ready }
    {
        Self {
            current_state: position.state,
            ready_to_operate_enabled: position.enabled,
            app_ready: position.ready,
            ..self
        }
    }

    /// An NMT event (RULES 4.1 to 4.4). State, enabled and ready become those of the table's entry,
    /// which also says whether the pair is reported. The event alone decides what a reset passes
    /// and restores.
    pub fn process_event(self, event: NmtEvent) -> NmtAnswer
        ensures { outcome result ≡ processed self event }
    {
        let state = self.current_state;
        let entry = chosen(state, event, self.ready_to_operate_enabled, self.app_ready);
        NmtAnswer {
            machine: self.at(entry.position),
            errors: reported_of(entry.unexpected, state, event),
            reset: reset_sequence(event),
        }
    }
}
