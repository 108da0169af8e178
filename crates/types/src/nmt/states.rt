//! The NMT states of a controlled node (EPSG DS 301, Section 7.1 and Appendix 3.6).
ghost use Rattle.std.specs.Prelude.{◌≡◌, Some};
ghost use Rattle.types.specs.Names.{state_name, standard_state_name};
ghost use Rattle.types.specs.Listing.{AllInOrder};
ghost use Rattle.types.specs.States.{state_number, state_place, read_state};

use crate::refusals::Refusal;
use std::fmt;
use std::fmt::Display;

/// A state of the node's life, with DS 301's number.
#[derive(Clone, Copy, Debug, PartialEq, Eq)]
pub enum NmtState {
    /// NMT_GS_OFF: the node is off.
    NmtGsOff = 0x00,
    /// NMT_GS_INITIALISING: a fresh head, and the first state of a whole reset.
    NmtGsInitialising = 0x19,
    /// NMT_GS_RESET_APPLICATION: passed in a reset.
    NmtGsResetApplication = 0x29,
    /// NMT_GS_RESET_COMMUNICATION: passed in a reset.
    NmtGsResetCommunication = 0x39,
    /// NMT_GS_RESET_CONFIGURATION: passed in a reset.
    NmtGsResetConfiguration = 0x79,
    /// NMT_CS_NOT_ACTIVE: waits for the managing node's first SoC or SoA.
    NmtNotActive = 0x1C,
    /// NMT_CS_PRE_OPERATIONAL_1: is identified, and checks no cycle yet.
    NmtPreOperational1 = 0x1D,
    /// NMT_CS_PRE_OPERATIONAL_2: is configured, and gets ready.
    NmtPreOperational2 = 0x5D,
    /// NMT_CS_READY_TO_OPERATE: is enabled and ready, and waits for its start.
    NmtReadyToOperate = 0x6D,
    /// NMT_CS_OPERATIONAL: operates.
    NmtOperational = 0xFD,
    /// NMT_CS_STOPPED: is stopped.
    NmtCsStopped = 0x4D,
    /// NMT_CS_BASIC_ETHERNET: heard no managing node in time.
    NmtBasicEthernet = 0x1E,
}

impl NmtState {
    /// All states, each once, in the order of the enum.
    pub const ALL: [NmtState; 12] = [
        NmtState::NmtGsOff,
        NmtState::NmtGsInitialising,
        NmtState::NmtGsResetApplication,
        NmtState::NmtGsResetCommunication,
        NmtState::NmtGsResetConfiguration,
        NmtState::NmtNotActive,
        NmtState::NmtPreOperational1,
        NmtState::NmtPreOperational2,
        NmtState::NmtReadyToOperate,
        NmtState::NmtOperational,
        NmtState::NmtCsStopped,
        NmtState::NmtBasicEthernet,
    ];

    /// Law of `ALL`: each state stands in it once, in the order of the enum.
    pub fn all_in_order()
        ensures { AllInOrder state_place Self.ALL }
    {}

    /// DS 301's number of the state.
    pub fn as_u8(self) -> u8
        ensures { result ≡ state_number self }
    {
        self as u8
    }

    /// The state's name without the standard's prefix, as `PreOperational2`.
    pub fn name(self) -> &'static str
        ensures { result.now ≡ state_name self }
    {
        match self {
            NmtState::NmtGsOff => "GsOff",
            NmtState::NmtGsInitialising => "GsInitialising",
            NmtState::NmtGsResetApplication => "GsResetApplication",
            NmtState::NmtGsResetCommunication => "GsResetCommunication",
            NmtState::NmtGsResetConfiguration => "GsResetConfiguration",
            NmtState::NmtNotActive => "NotActive",
            NmtState::NmtPreOperational1 => "PreOperational1",
            NmtState::NmtPreOperational2 => "PreOperational2",
            NmtState::NmtReadyToOperate => "ReadyToOperate",
            NmtState::NmtOperational => "Operational",
            NmtState::NmtCsStopped => "CsStopped",
            NmtState::NmtBasicEthernet => "BasicEthernet",
        }
    }

    /// The state's name in DS 301, as `NMT_CS_PRE_OPERATIONAL_2`.
    pub fn standard_name(self) -> &'static str
        ensures { result.now ≡ standard_state_name self }
    {
        match self {
            NmtState::NmtGsOff => "NMT_GS_OFF",
            NmtState::NmtGsInitialising => "NMT_GS_INITIALISING",
            NmtState::NmtGsResetApplication => "NMT_GS_RESET_APPLICATION",
            NmtState::NmtGsResetCommunication => "NMT_GS_RESET_COMMUNICATION",
            NmtState::NmtGsResetConfiguration => "NMT_GS_RESET_CONFIGURATION",
            NmtState::NmtNotActive => "NMT_CS_NOT_ACTIVE",
            NmtState::NmtPreOperational1 => "NMT_CS_PRE_OPERATIONAL_1",
            NmtState::NmtPreOperational2 => "NMT_CS_PRE_OPERATIONAL_2",
            NmtState::NmtReadyToOperate => "NMT_CS_READY_TO_OPERATE",
            NmtState::NmtOperational => "NMT_CS_OPERATIONAL",
            NmtState::NmtCsStopped => "NMT_CS_STOPPED",
            NmtState::NmtBasicEthernet => "NMT_CS_BASIC_ETHERNET",
        }
    }
}

/// The name without the standard's prefix.
impl Display for NmtState {
    ghost output = { λ x. Some (state_name x) };

    fn fmt<W: fmt::Write>(&self, f: &mut fmt::Formatter<W>) -> fmt::Result {
        f.write_str(self.name())
    }
}

/// The state that has the number; refused by UnknownNumber where none has it.
#[tactic(auto, unfolding(crate::specs::States::read_state))]
impl TryFrom<u64> for NmtState {
    type Error = Refusal;

    ghost try_from_gives = { λ n r. r ≡ read_state n };

    fn try_from(value: u64) -> Result<Self, Refusal> {
        match value {
            0x00 => Ok(NmtState::NmtGsOff),
            0x19 => Ok(NmtState::NmtGsInitialising),
            0x29 => Ok(NmtState::NmtGsResetApplication),
            0x39 => Ok(NmtState::NmtGsResetCommunication),
            0x79 => Ok(NmtState::NmtGsResetConfiguration),
            0x1C => Ok(NmtState::NmtNotActive),
            0x1D => Ok(NmtState::NmtPreOperational1),
            0x5D => Ok(NmtState::NmtPreOperational2),
            0x6D => Ok(NmtState::NmtReadyToOperate),
            0xFD => Ok(NmtState::NmtOperational),
            0x4D => Ok(NmtState::NmtCsStopped),
            0x1E => Ok(NmtState::NmtBasicEthernet),
            _ => Err(Refusal::UnknownNumber),
        }
    }
}
