//! The NMT machine's choice as a table (RULES 4.7): an entry for each state, event, enabled and
//! ready, packed in a byte.
ghost use Rattle.std.specs.Prelude.{◌≡◌};
ghost use Rattle.types.specs.States.{state_place};
ghost use Rattle.nmt.specs.Table.{state_at, unpacked, ruled};

use crate::cn_state_machine::Position;
use types::nmt::events::NmtEvent;
use types::nmt::states::NmtState;

/// What an event leaves.
#[derive(Clone, Copy, PartialEq, Eq)]
pub struct Entry {
    pub position: Position,
    /// The pair of state and event has no row, and is reported.
    pub unexpected: bool,
}

// An entry in a byte: the low hexadecimal digit is the next state's place, 0x0 to 0xB; the high one
// is the sum of 1 where the machine is ready then, 2 where it is enabled, 4 where the pair is
// reported.
#[tactic(auto, unfolding(crate::specs::Table::unpacked))]
fn unpack(entry: u8) -> Entry
    ensures { result ≡ unpacked entry }
{
    Entry {
        position: Position {
            state: state_at(entry % 16),
            enabled: entry / 32 % 2 == 1,
            ready: entry / 16 % 2 == 1,
        },
        unexpected: entry / 64 % 2 == 1,
    }
}

/// The entry of a state, an event, enabled and ready.
pub fn chosen(state: NmtState, event: NmtEvent, enabled: bool, ready: bool) -> Entry
    ensures { result ≡ ruled state event enabled ready }
{
    let event = usize::from(event.as_u8());
    unpack(TABLE[place(state)][event][usize::from(enabled)][usize::from(ready)])
}

// A state's place in the table, from 0, in the order of the enum.
fn place(state: NmtState) -> usize
    ensures { result ≡ state_place state }
{
    match state {
        NmtState::NmtGsOff => 0x0,
        NmtState::NmtGsInitialising => 0x1,
        NmtState::NmtGsResetApplication => 0x2,
        NmtState::NmtGsResetCommunication => 0x3,
        NmtState::NmtGsResetConfiguration => 0x4,
        NmtState::NmtNotActive => 0x5,
        NmtState::NmtPreOperational1 => 0x6,
        NmtState::NmtPreOperational2 => 0x7,
        NmtState::NmtReadyToOperate => 0x8,
        NmtState::NmtOperational => 0x9,
        NmtState::NmtCsStopped => 0xA,
        NmtState::NmtBasicEthernet => 0xB,
    }
}

/// The state at a place of the table; GsOff where the place is above 0xB, which no state has.
#[tactic(auto, unfolding(crate::specs::Table::state_at))]
pub fn state_at(place: u8) -> NmtState
    ensures { result ≡ state_at place }
{
    match place {
        0x0 => NmtState::NmtGsOff,
        0x1 => NmtState::NmtGsInitialising,
        0x2 => NmtState::NmtGsResetApplication,
        0x3 => NmtState::NmtGsResetCommunication,
        0x4 => NmtState::NmtGsResetConfiguration,
        0x5 => NmtState::NmtNotActive,
        0x6 => NmtState::NmtPreOperational1,
        0x7 => NmtState::NmtPreOperational2,
        0x8 => NmtState::NmtReadyToOperate,
        0x9 => NmtState::NmtOperational,
        0xA => NmtState::NmtCsStopped,
        0xB => NmtState::NmtBasicEthernet,
        _ => NmtState::NmtGsOff,
    }
}

// A block for each state, a line for each event, four entries in a line: not enabled on the left,
// enabled on the right, and in each pair not ready before ready. It is a `static`, which is read
// where it lies: a constant array would be written to the stack as a whole at each event.
static TABLE: [[[[u8; 2]; 2]; 19]; 12] = [
    // GsOff, 0x00
    [
        [[0x40, 0x50], [0x60, 0x70]], // GsOff: StartNode, reported
        [[0x40, 0x50], [0x60, 0x70]], // GsOff: StopNode, reported
        [[0x40, 0x50], [0x60, 0x70]], // GsOff: EnterPreOperational2, reported
        [[0x40, 0x50], [0x60, 0x70]], // GsOff: EnableReadyToOperate, reported
        [[0x05, 0x05], [0x05, 0x05]], // GsOff: Reset, to NotActive (NMT_CT1)
        [[0x05, 0x05], [0x05, 0x05]], // GsOff: SwReset, to NotActive (NMT_CT1)
        [[0x05, 0x05], [0x05, 0x05]], // GsOff: ResetNode, to NotActive (NMT_CT1)
        [[0x05, 0x05], [0x05, 0x05]], // GsOff: ResetCommunication, to NotActive (NMT_CT1)
        [[0x05, 0x05], [0x05, 0x05]], // GsOff: ResetConfiguration, to NotActive (NMT_CT1)
        [[0x40, 0x50], [0x60, 0x70]], // GsOff: EnterEplMode, reported
        [[0x40, 0x50], [0x60, 0x70]], // GsOff: Timeout, reported
        [[0x40, 0x50], [0x60, 0x70]], // GsOff: Error, reported
        [[0x40, 0x50], [0x60, 0x70]], // GsOff: SoAReceived, reported
        [[0x40, 0x50], [0x60, 0x70]], // GsOff: SocReceived, reported
        [[0x40, 0x50], [0x60, 0x70]], // GsOff: PowerlinkFrameReceived, reported
        [[0x40, 0x50], [0x60, 0x70]], // GsOff: CnConfigurationComplete, reported
        [[0x40, 0x50], [0x60, 0x70]], // GsOff: AllCnsIdentified, reported
        [[0x40, 0x50], [0x60, 0x70]], // GsOff: ConfigurationCompleteCnsReady, reported
        [[0x40, 0x50], [0x60, 0x70]], // GsOff: AllMandatoryCnsOperational, reported
    ],
    // GsInitialising, 0x19
    [
        [[0x41, 0x51], [0x61, 0x71]], // GsInitialising: StartNode, reported
        [[0x41, 0x51], [0x61, 0x71]], // GsInitialising: StopNode, reported
        [[0x41, 0x51], [0x61, 0x71]], // GsInitialising: EnterPreOperational2, reported
        [[0x41, 0x51], [0x61, 0x71]], // GsInitialising: EnableReadyToOperate, reported
        [[0x05, 0x05], [0x05, 0x05]], // GsInitialising: Reset, to NotActive (NMT_CT1)
        [[0x05, 0x05], [0x05, 0x05]], // GsInitialising: SwReset, to NotActive (NMT_CT1)
        [[0x05, 0x05], [0x05, 0x05]], // GsInitialising: ResetNode, to NotActive (NMT_CT1)
        [[0x05, 0x05], [0x05, 0x05]], // GsInitialising: ResetCommunication, to NotActive (NMT_CT1)
        [[0x05, 0x05], [0x05, 0x05]], // GsInitialising: ResetConfiguration, to NotActive (NMT_CT1)
        [[0x41, 0x51], [0x61, 0x71]], // GsInitialising: EnterEplMode, reported
        [[0x41, 0x51], [0x61, 0x71]], // GsInitialising: Timeout, reported
        [[0x41, 0x51], [0x61, 0x71]], // GsInitialising: Error, reported
        [[0x41, 0x51], [0x61, 0x71]], // GsInitialising: SoAReceived, reported
        [[0x41, 0x51], [0x61, 0x71]], // GsInitialising: SocReceived, reported
        [[0x41, 0x51], [0x61, 0x71]], // GsInitialising: PowerlinkFrameReceived, reported
        [[0x41, 0x51], [0x61, 0x71]], // GsInitialising: CnConfigurationComplete, reported
        [[0x41, 0x51], [0x61, 0x71]], // GsInitialising: AllCnsIdentified, reported
        [[0x41, 0x51], [0x61, 0x71]], // GsInitialising: ConfigurationCompleteCnsReady, reported
        [[0x41, 0x51], [0x61, 0x71]], // GsInitialising: AllMandatoryCnsOperational, reported
    ],
    // GsResetApplication, 0x29
    [
        [[0x42, 0x52], [0x62, 0x72]], // GsResetApplication: StartNode, reported
        [[0x42, 0x52], [0x62, 0x72]], // GsResetApplication: StopNode, reported
        [[0x42, 0x52], [0x62, 0x72]], // GsResetApplication: EnterPreOperational2, reported
        [[0x42, 0x52], [0x62, 0x72]], // GsResetApplication: EnableReadyToOperate, reported
        [[0x05, 0x05], [0x05, 0x05]], // GsResetApplication: Reset, to NotActive (NMT_CT1)
        [[0x05, 0x05], [0x05, 0x05]], // GsResetApplication: SwReset, to NotActive (NMT_CT1)
        [[0x05, 0x05], [0x05, 0x05]], // GsResetApplication: ResetNode, to NotActive (NMT_CT1)
        // GsResetApplication: ResetCommunication, to NotActive (NMT_CT1)
        [[0x05, 0x05], [0x05, 0x05]],
        // GsResetApplication: ResetConfiguration, to NotActive (NMT_CT1)
        [[0x05, 0x05], [0x05, 0x05]],
        [[0x42, 0x52], [0x62, 0x72]], // GsResetApplication: EnterEplMode, reported
        [[0x42, 0x52], [0x62, 0x72]], // GsResetApplication: Timeout, reported
        [[0x42, 0x52], [0x62, 0x72]], // GsResetApplication: Error, reported
        [[0x42, 0x52], [0x62, 0x72]], // GsResetApplication: SoAReceived, reported
        [[0x42, 0x52], [0x62, 0x72]], // GsResetApplication: SocReceived, reported
        [[0x42, 0x52], [0x62, 0x72]], // GsResetApplication: PowerlinkFrameReceived, reported
        [[0x42, 0x52], [0x62, 0x72]], // GsResetApplication: CnConfigurationComplete, reported
        [[0x42, 0x52], [0x62, 0x72]], // GsResetApplication: AllCnsIdentified, reported
        [[0x42, 0x52], [0x62, 0x72]], // GsResetApplication: ConfigurationCompleteCnsReady, reported
        [[0x42, 0x52], [0x62, 0x72]], // GsResetApplication: AllMandatoryCnsOperational, reported
    ],
    // GsResetCommunication, 0x39
    [
        [[0x43, 0x53], [0x63, 0x73]], // GsResetCommunication: StartNode, reported
        [[0x43, 0x53], [0x63, 0x73]], // GsResetCommunication: StopNode, reported
        [[0x43, 0x53], [0x63, 0x73]], // GsResetCommunication: EnterPreOperational2, reported
        [[0x43, 0x53], [0x63, 0x73]], // GsResetCommunication: EnableReadyToOperate, reported
        [[0x05, 0x05], [0x05, 0x05]], // GsResetCommunication: Reset, to NotActive (NMT_CT1)
        [[0x05, 0x05], [0x05, 0x05]], // GsResetCommunication: SwReset, to NotActive (NMT_CT1)
        [[0x05, 0x05], [0x05, 0x05]], // GsResetCommunication: ResetNode, to NotActive (NMT_CT1)
        // GsResetCommunication: ResetCommunication, to NotActive (NMT_CT1)
        [[0x05, 0x05], [0x05, 0x05]],
        // GsResetCommunication: ResetConfiguration, to NotActive (NMT_CT1)
        [[0x05, 0x05], [0x05, 0x05]],
        [[0x43, 0x53], [0x63, 0x73]], // GsResetCommunication: EnterEplMode, reported
        [[0x43, 0x53], [0x63, 0x73]], // GsResetCommunication: Timeout, reported
        [[0x43, 0x53], [0x63, 0x73]], // GsResetCommunication: Error, reported
        [[0x43, 0x53], [0x63, 0x73]], // GsResetCommunication: SoAReceived, reported
        [[0x43, 0x53], [0x63, 0x73]], // GsResetCommunication: SocReceived, reported
        [[0x43, 0x53], [0x63, 0x73]], // GsResetCommunication: PowerlinkFrameReceived, reported
        [[0x43, 0x53], [0x63, 0x73]], // GsResetCommunication: CnConfigurationComplete, reported
        [[0x43, 0x53], [0x63, 0x73]], // GsResetCommunication: AllCnsIdentified, reported
        // GsResetCommunication: ConfigurationCompleteCnsReady, reported
        [[0x43, 0x53], [0x63, 0x73]],
        [[0x43, 0x53], [0x63, 0x73]], // GsResetCommunication: AllMandatoryCnsOperational, reported
    ],
    // GsResetConfiguration, 0x79
    [
        [[0x44, 0x54], [0x64, 0x74]], // GsResetConfiguration: StartNode, reported
        [[0x44, 0x54], [0x64, 0x74]], // GsResetConfiguration: StopNode, reported
        [[0x44, 0x54], [0x64, 0x74]], // GsResetConfiguration: EnterPreOperational2, reported
        [[0x44, 0x54], [0x64, 0x74]], // GsResetConfiguration: EnableReadyToOperate, reported
        [[0x05, 0x05], [0x05, 0x05]], // GsResetConfiguration: Reset, to NotActive (NMT_CT1)
        [[0x05, 0x05], [0x05, 0x05]], // GsResetConfiguration: SwReset, to NotActive (NMT_CT1)
        [[0x05, 0x05], [0x05, 0x05]], // GsResetConfiguration: ResetNode, to NotActive (NMT_CT1)
        // GsResetConfiguration: ResetCommunication, to NotActive (NMT_CT1)
        [[0x05, 0x05], [0x05, 0x05]],
        // GsResetConfiguration: ResetConfiguration, to NotActive (NMT_CT1)
        [[0x05, 0x05], [0x05, 0x05]],
        [[0x44, 0x54], [0x64, 0x74]], // GsResetConfiguration: EnterEplMode, reported
        [[0x44, 0x54], [0x64, 0x74]], // GsResetConfiguration: Timeout, reported
        [[0x44, 0x54], [0x64, 0x74]], // GsResetConfiguration: Error, reported
        [[0x44, 0x54], [0x64, 0x74]], // GsResetConfiguration: SoAReceived, reported
        [[0x44, 0x54], [0x64, 0x74]], // GsResetConfiguration: SocReceived, reported
        [[0x44, 0x54], [0x64, 0x74]], // GsResetConfiguration: PowerlinkFrameReceived, reported
        [[0x44, 0x54], [0x64, 0x74]], // GsResetConfiguration: CnConfigurationComplete, reported
        [[0x44, 0x54], [0x64, 0x74]], // GsResetConfiguration: AllCnsIdentified, reported
        // GsResetConfiguration: ConfigurationCompleteCnsReady, reported
        [[0x44, 0x54], [0x64, 0x74]],
        [[0x44, 0x54], [0x64, 0x74]], // GsResetConfiguration: AllMandatoryCnsOperational, reported
    ],
    // NotActive, 0x1C
    [
        [[0x45, 0x55], [0x65, 0x75]], // NotActive: StartNode, reported
        [[0x45, 0x55], [0x65, 0x75]], // NotActive: StopNode, reported
        [[0x45, 0x55], [0x65, 0x75]], // NotActive: EnterPreOperational2, reported
        [[0x45, 0x55], [0x65, 0x75]], // NotActive: EnableReadyToOperate, reported
        [[0x05, 0x05], [0x05, 0x05]], // NotActive: Reset, to NotActive (NMT_CT1)
        [[0x05, 0x05], [0x05, 0x05]], // NotActive: SwReset, to NotActive (NMT_CT1)
        [[0x05, 0x05], [0x05, 0x05]], // NotActive: ResetNode, to NotActive (NMT_CT1)
        [[0x05, 0x05], [0x05, 0x05]], // NotActive: ResetCommunication, to NotActive (NMT_CT1)
        [[0x05, 0x05], [0x05, 0x05]], // NotActive: ResetConfiguration, to NotActive (NMT_CT1)
        [[0x45, 0x55], [0x65, 0x75]], // NotActive: EnterEplMode, reported
        [[0x0B, 0x1B], [0x0B, 0x1B]], // NotActive: Timeout, to BasicEthernet (NMT_CT3)
        [[0x45, 0x55], [0x65, 0x75]], // NotActive: Error, reported
        [[0x06, 0x16], [0x06, 0x16]], // NotActive: SoAReceived, to PreOperational1 (NMT_CT2)
        [[0x06, 0x16], [0x06, 0x16]], // NotActive: SocReceived, to PreOperational1 (NMT_CT2)
        [[0x45, 0x55], [0x65, 0x75]], // NotActive: PowerlinkFrameReceived, reported
        [[0x45, 0x55], [0x65, 0x75]], // NotActive: CnConfigurationComplete, reported
        [[0x45, 0x55], [0x65, 0x75]], // NotActive: AllCnsIdentified, reported
        [[0x45, 0x55], [0x65, 0x75]], // NotActive: ConfigurationCompleteCnsReady, reported
        [[0x45, 0x55], [0x65, 0x75]], // NotActive: AllMandatoryCnsOperational, reported
    ],
    // PreOperational1, 0x1D
    [
        [[0x46, 0x56], [0x66, 0x76]], // PreOperational1: StartNode, reported
        [[0x46, 0x56], [0x66, 0x76]], // PreOperational1: StopNode, reported
        [[0x46, 0x56], [0x66, 0x76]], // PreOperational1: EnterPreOperational2, reported
        [[0x46, 0x56], [0x66, 0x76]], // PreOperational1: EnableReadyToOperate, reported
        [[0x05, 0x05], [0x05, 0x05]], // PreOperational1: Reset, to NotActive (NMT_CT1)
        [[0x05, 0x05], [0x05, 0x05]], // PreOperational1: SwReset, to NotActive (NMT_CT1)
        [[0x05, 0x05], [0x05, 0x05]], // PreOperational1: ResetNode, to NotActive (NMT_CT1)
        [[0x05, 0x05], [0x05, 0x05]], // PreOperational1: ResetCommunication, to NotActive (NMT_CT1)
        [[0x05, 0x05], [0x05, 0x05]], // PreOperational1: ResetConfiguration, to NotActive (NMT_CT1)
        [[0x46, 0x56], [0x66, 0x76]], // PreOperational1: EnterEplMode, reported
        [[0x46, 0x56], [0x66, 0x76]], // PreOperational1: Timeout, reported
        [[0x46, 0x56], [0x66, 0x76]], // PreOperational1: Error, reported
        [[0x46, 0x56], [0x66, 0x76]], // PreOperational1: SoAReceived, reported
        [[0x07, 0x17], [0x27, 0x37]], // PreOperational1: SocReceived, to PreOperational2 (NMT_CT4)
        [[0x46, 0x56], [0x66, 0x76]], // PreOperational1: PowerlinkFrameReceived, reported
        [[0x46, 0x56], [0x66, 0x76]], // PreOperational1: CnConfigurationComplete, reported
        [[0x46, 0x56], [0x66, 0x76]], // PreOperational1: AllCnsIdentified, reported
        [[0x46, 0x56], [0x66, 0x76]], // PreOperational1: ConfigurationCompleteCnsReady, reported
        [[0x46, 0x56], [0x66, 0x76]], // PreOperational1: AllMandatoryCnsOperational, reported
    ],
    // PreOperational2, 0x5D
    [
        [[0x27, 0x19], [0x27, 0x19]], // PreOperational2: StartNode, to Operational if ready
        [[0x0A, 0x1A], [0x0A, 0x1A]], // PreOperational2: StopNode, to CsStopped (NMT_CT8)
        [[0x47, 0x57], [0x67, 0x77]], // PreOperational2: EnterPreOperational2, reported
        // PreOperational2: EnableReadyToOperate, to ReadyToOperate if ready (NMT_CT5)
        [[0x27, 0x38], [0x27, 0x38]],
        [[0x05, 0x05], [0x05, 0x05]], // PreOperational2: Reset, to NotActive (NMT_CT1)
        [[0x05, 0x05], [0x05, 0x05]], // PreOperational2: SwReset, to NotActive (NMT_CT1)
        [[0x05, 0x05], [0x05, 0x05]], // PreOperational2: ResetNode, to NotActive (NMT_CT1)
        [[0x05, 0x05], [0x05, 0x05]], // PreOperational2: ResetCommunication, to NotActive (NMT_CT1)
        [[0x05, 0x05], [0x05, 0x05]], // PreOperational2: ResetConfiguration, to NotActive (NMT_CT1)
        [[0x47, 0x57], [0x67, 0x77]], // PreOperational2: EnterEplMode, reported
        [[0x47, 0x57], [0x67, 0x77]], // PreOperational2: Timeout, reported
        [[0x06, 0x16], [0x06, 0x16]], // PreOperational2: Error, to PreOperational1 (NMT_CT11)
        [[0x47, 0x57], [0x67, 0x77]], // PreOperational2: SoAReceived, reported
        [[0x47, 0x57], [0x67, 0x77]], // PreOperational2: SocReceived, reported
        [[0x47, 0x57], [0x67, 0x77]], // PreOperational2: PowerlinkFrameReceived, reported
        // PreOperational2: CnConfigurationComplete, to ReadyToOperate if enabled (NMT_CT6)
        [[0x17, 0x17], [0x38, 0x38]],
        [[0x47, 0x57], [0x67, 0x77]], // PreOperational2: AllCnsIdentified, reported
        [[0x47, 0x57], [0x67, 0x77]], // PreOperational2: ConfigurationCompleteCnsReady, reported
        [[0x47, 0x57], [0x67, 0x77]], // PreOperational2: AllMandatoryCnsOperational, reported
    ],
    // ReadyToOperate, 0x6D
    [
        [[0x09, 0x19], [0x09, 0x19]], // ReadyToOperate: StartNode, to Operational (NMT_CT7)
        [[0x0A, 0x1A], [0x0A, 0x1A]], // ReadyToOperate: StopNode, to CsStopped (NMT_CT8)
        [[0x48, 0x58], [0x68, 0x78]], // ReadyToOperate: EnterPreOperational2, reported
        [[0x08, 0x18], [0x28, 0x38]], // ReadyToOperate: EnableReadyToOperate, stays
        [[0x05, 0x05], [0x05, 0x05]], // ReadyToOperate: Reset, to NotActive (NMT_CT1)
        [[0x05, 0x05], [0x05, 0x05]], // ReadyToOperate: SwReset, to NotActive (NMT_CT1)
        [[0x05, 0x05], [0x05, 0x05]], // ReadyToOperate: ResetNode, to NotActive (NMT_CT1)
        [[0x05, 0x05], [0x05, 0x05]], // ReadyToOperate: ResetCommunication, to NotActive (NMT_CT1)
        [[0x05, 0x05], [0x05, 0x05]], // ReadyToOperate: ResetConfiguration, to NotActive (NMT_CT1)
        [[0x48, 0x58], [0x68, 0x78]], // ReadyToOperate: EnterEplMode, reported
        [[0x48, 0x58], [0x68, 0x78]], // ReadyToOperate: Timeout, reported
        [[0x06, 0x16], [0x06, 0x16]], // ReadyToOperate: Error, to PreOperational1 (NMT_CT11)
        [[0x48, 0x58], [0x68, 0x78]], // ReadyToOperate: SoAReceived, reported
        [[0x48, 0x58], [0x68, 0x78]], // ReadyToOperate: SocReceived, reported
        [[0x48, 0x58], [0x68, 0x78]], // ReadyToOperate: PowerlinkFrameReceived, reported
        [[0x08, 0x18], [0x28, 0x38]], // ReadyToOperate: CnConfigurationComplete, stays
        [[0x48, 0x58], [0x68, 0x78]], // ReadyToOperate: AllCnsIdentified, reported
        [[0x48, 0x58], [0x68, 0x78]], // ReadyToOperate: ConfigurationCompleteCnsReady, reported
        [[0x48, 0x58], [0x68, 0x78]], // ReadyToOperate: AllMandatoryCnsOperational, reported
    ],
    // Operational, 0xFD
    [
        [[0x49, 0x59], [0x69, 0x79]], // Operational: StartNode, reported
        [[0x0A, 0x1A], [0x0A, 0x1A]], // Operational: StopNode, to CsStopped (NMT_CT8)
        // Operational: EnterPreOperational2, to PreOperational2 (NMT_CT9)
        [[0x07, 0x17], [0x27, 0x37]],
        [[0x49, 0x59], [0x69, 0x79]], // Operational: EnableReadyToOperate, reported
        [[0x05, 0x05], [0x05, 0x05]], // Operational: Reset, to NotActive (NMT_CT1)
        [[0x05, 0x05], [0x05, 0x05]], // Operational: SwReset, to NotActive (NMT_CT1)
        [[0x05, 0x05], [0x05, 0x05]], // Operational: ResetNode, to NotActive (NMT_CT1)
        [[0x05, 0x05], [0x05, 0x05]], // Operational: ResetCommunication, to NotActive (NMT_CT1)
        [[0x05, 0x05], [0x05, 0x05]], // Operational: ResetConfiguration, to NotActive (NMT_CT1)
        [[0x49, 0x59], [0x69, 0x79]], // Operational: EnterEplMode, reported
        [[0x49, 0x59], [0x69, 0x79]], // Operational: Timeout, reported
        [[0x06, 0x16], [0x06, 0x16]], // Operational: Error, to PreOperational1 (NMT_CT11)
        [[0x49, 0x59], [0x69, 0x79]], // Operational: SoAReceived, reported
        [[0x49, 0x59], [0x69, 0x79]], // Operational: SocReceived, reported
        [[0x49, 0x59], [0x69, 0x79]], // Operational: PowerlinkFrameReceived, reported
        [[0x49, 0x59], [0x69, 0x79]], // Operational: CnConfigurationComplete, reported
        [[0x49, 0x59], [0x69, 0x79]], // Operational: AllCnsIdentified, reported
        [[0x49, 0x59], [0x69, 0x79]], // Operational: ConfigurationCompleteCnsReady, reported
        [[0x49, 0x59], [0x69, 0x79]], // Operational: AllMandatoryCnsOperational, reported
    ],
    // CsStopped, 0x4D
    [
        [[0x4A, 0x5A], [0x6A, 0x7A]], // CsStopped: StartNode, reported
        [[0x4A, 0x5A], [0x6A, 0x7A]], // CsStopped: StopNode, reported
        // CsStopped: EnterPreOperational2, to PreOperational2 (NMT_CT10)
        [[0x07, 0x17], [0x27, 0x37]],
        [[0x4A, 0x5A], [0x6A, 0x7A]], // CsStopped: EnableReadyToOperate, reported
        [[0x05, 0x05], [0x05, 0x05]], // CsStopped: Reset, to NotActive (NMT_CT1)
        [[0x05, 0x05], [0x05, 0x05]], // CsStopped: SwReset, to NotActive (NMT_CT1)
        [[0x05, 0x05], [0x05, 0x05]], // CsStopped: ResetNode, to NotActive (NMT_CT1)
        [[0x05, 0x05], [0x05, 0x05]], // CsStopped: ResetCommunication, to NotActive (NMT_CT1)
        [[0x05, 0x05], [0x05, 0x05]], // CsStopped: ResetConfiguration, to NotActive (NMT_CT1)
        [[0x4A, 0x5A], [0x6A, 0x7A]], // CsStopped: EnterEplMode, reported
        [[0x4A, 0x5A], [0x6A, 0x7A]], // CsStopped: Timeout, reported
        [[0x06, 0x16], [0x06, 0x16]], // CsStopped: Error, to PreOperational1 (NMT_CT11)
        [[0x4A, 0x5A], [0x6A, 0x7A]], // CsStopped: SoAReceived, reported
        [[0x4A, 0x5A], [0x6A, 0x7A]], // CsStopped: SocReceived, reported
        [[0x4A, 0x5A], [0x6A, 0x7A]], // CsStopped: PowerlinkFrameReceived, reported
        [[0x4A, 0x5A], [0x6A, 0x7A]], // CsStopped: CnConfigurationComplete, reported
        [[0x4A, 0x5A], [0x6A, 0x7A]], // CsStopped: AllCnsIdentified, reported
        [[0x4A, 0x5A], [0x6A, 0x7A]], // CsStopped: ConfigurationCompleteCnsReady, reported
        [[0x4A, 0x5A], [0x6A, 0x7A]], // CsStopped: AllMandatoryCnsOperational, reported
    ],
    // BasicEthernet, 0x1E
    [
        [[0x4B, 0x5B], [0x6B, 0x7B]], // BasicEthernet: StartNode, reported
        [[0x4B, 0x5B], [0x6B, 0x7B]], // BasicEthernet: StopNode, reported
        [[0x4B, 0x5B], [0x6B, 0x7B]], // BasicEthernet: EnterPreOperational2, reported
        [[0x4B, 0x5B], [0x6B, 0x7B]], // BasicEthernet: EnableReadyToOperate, reported
        [[0x05, 0x05], [0x05, 0x05]], // BasicEthernet: Reset, to NotActive (NMT_CT1)
        [[0x05, 0x05], [0x05, 0x05]], // BasicEthernet: SwReset, to NotActive (NMT_CT1)
        [[0x05, 0x05], [0x05, 0x05]], // BasicEthernet: ResetNode, to NotActive (NMT_CT1)
        [[0x05, 0x05], [0x05, 0x05]], // BasicEthernet: ResetCommunication, to NotActive (NMT_CT1)
        [[0x05, 0x05], [0x05, 0x05]], // BasicEthernet: ResetConfiguration, to NotActive (NMT_CT1)
        [[0x4B, 0x5B], [0x6B, 0x7B]], // BasicEthernet: EnterEplMode, reported
        [[0x4B, 0x5B], [0x6B, 0x7B]], // BasicEthernet: Timeout, reported
        [[0x4B, 0x5B], [0x6B, 0x7B]], // BasicEthernet: Error, reported
        [[0x4B, 0x5B], [0x6B, 0x7B]], // BasicEthernet: SoAReceived, reported
        [[0x4B, 0x5B], [0x6B, 0x7B]], // BasicEthernet: SocReceived, reported
        // BasicEthernet: PowerlinkFrameReceived, to PreOperational1 (NMT_CT12)
        [[0x06, 0x16], [0x06, 0x16]],
        [[0x4B, 0x5B], [0x6B, 0x7B]], // BasicEthernet: CnConfigurationComplete, reported
        [[0x4B, 0x5B], [0x6B, 0x7B]], // BasicEthernet: AllCnsIdentified, reported
        [[0x4B, 0x5B], [0x6B, 0x7B]], // BasicEthernet: ConfigurationCompleteCnsReady, reported
        [[0x4B, 0x5B], [0x6B, 0x7B]], // BasicEthernet: AllMandatoryCnsOperational, reported
    ],
];
