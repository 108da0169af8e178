//! The five reset events (RULES 4.4): the states that each passes and the index ranges to restore.
//! They are the same for a controlled node and a managing node.
ghost use Rattle.std.specs.Prelude.{◌≡◌};
ghost use Rattle.nmt.specs.Resets.{is_reset, reset_sequence};
ghost use Rattle.nmt.specs.Resets.{entered_states, restored_ranges, passed};

use types::nmt::events::NmtEvent;
use types::nmt::states::NmtState;

/// A range of indexes of the object dictionary, first and last included.
#[derive(Clone, Copy, PartialEq, Eq)]
pub struct IndexRange {
    pub first: u16,
    pub last: u16,
}

/// What an event passes on its way to NotActive, by the state in which its reset begins.
#[derive(Clone, Copy, PartialEq, Eq)]
pub enum ResetSequence {
    /// The event is no reset.
    None,
    /// Reset and SwReset: from GsInitialising, 0x19.
    Whole,
    /// ResetNode: from GsResetApplication, 0x29.
    Node,
    /// ResetCommunication: from GsResetCommunication, 0x39.
    Communication,
    /// ResetConfiguration: from GsResetConfiguration, 0x79.
    Configuration,
}

// The states and the ranges of a whole reset, in order. Every other reset has the last of them.
static STATES: [NmtState; 5] = [
    NmtState::NmtGsInitialising,
    NmtState::NmtGsResetApplication,
    NmtState::NmtGsResetCommunication,
    NmtState::NmtGsResetConfiguration,
    NmtState::NmtNotActive,
];

static RANGES: [IndexRange; 3] = [
    IndexRange {
        first: 0x2000,
        last: 0x5FFF,
    },
    IndexRange {
        first: 0x6000,
        last: 0x9FFF,
    },
    IndexRange {
        first: 0x1000,
        last: 0x1FFF,
    },
];

impl ResetSequence {
    /// The states that are entered, in order; the last is NotActive.
    pub fn entered(self) -> &'static [NmtState]
        ensures { result.now ≡ entered_states self }
    {
        match self {
            ResetSequence::None => &[],
            ResetSequence::Whole => &STATES,
            ResetSequence::Node => &STATES[1..],
            ResetSequence::Communication => &STATES[2..],
            ResetSequence::Configuration => &STATES[3..],
        }
    }

    /// The index ranges to restore to their power-on values, in order.
    pub fn restored(self) -> &'static [IndexRange]
        ensures { result.now ≡ restored_ranges self }
    {
        match self {
            ResetSequence::Whole | ResetSequence::Node => &RANGES,
            ResetSequence::Communication => &RANGES[2..],
            ResetSequence::Configuration | ResetSequence::None => &[],
        }
    }
}

/// Whether the event is one of the five resets.
#[tactic(auto, unfolding(crate::specs::Resets::is_reset))]
pub fn is_reset(event: NmtEvent) -> bool
    ensures { result ≡ is_reset event }
{
    matches!(
        event,
        NmtEvent::Reset
            | NmtEvent::SwReset
            | NmtEvent::ResetNode
            | NmtEvent::ResetCommunication
            | NmtEvent::ResetConfiguration
    )
}

/// The reset that an event begins; `None` for an event that is no reset.
#[tactic(auto, unfolding(crate::specs::Resets::reset_sequence, crate::specs::Resets::states_entered))]
pub fn reset_sequence(event: NmtEvent) -> ResetSequence
    ensures { passed result ≡ reset_sequence event }
{
    match event {
        NmtEvent::Reset | NmtEvent::SwReset => ResetSequence::Whole,
        NmtEvent::ResetNode => ResetSequence::Node,
        NmtEvent::ResetCommunication => ResetSequence::Communication,
        NmtEvent::ResetConfiguration => ResetSequence::Configuration,
        _ => ResetSequence::None,
    }
}
