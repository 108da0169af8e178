//! The order of frames that a controlled node expects within a cycle: one function for each state.
ghost use Rattle.std.specs.Prelude.{◌≡◌};
ghost use Rattle.types.specs.Listing.{AllInOrder};
ghost use Rattle.dll.specs.Dll.{cs_state_number, read_cs_state};
ghost use Rattle.dll.specs.Dll.{non_cyclic, wait_soc, wait_preq, wait_soa, cyclic};
ghost use Rattle.dll.specs.Dll.{fresh_machine, cs_outcome, cs_processed};

use types::frame::cs_state_machine::DllCsEvent;
use types::frame::error::types::{DllError, DllErrors};
use types::nmt::states::NmtState;
use types::refusals::Refusal;

/// A state of the cycle; numbered by its place, from 0.
#[derive(Clone, Copy, PartialEq, Eq)]
pub enum DllCsState {
    /// DLL_CS_NON_CYCLIC: no cycle runs.
    NonCyclic,
    /// DLL_CS_WAIT_SOC: the SoC, which opens a cycle, comes next.
    WaitSoc,
    /// DLL_CS_WAIT_PREQ: the cycle is open, and the PReq comes next.
    WaitPreq,
    /// DLL_CS_WAIT_SOA: the PReq was answered, and the SoA, which closes the cycle, comes next.
    WaitSoa,
}

impl DllCsState {
    /// All states, each once, in the order of the enum.
    pub const ALL: [DllCsState; 4] = [
        DllCsState::NonCyclic,
        DllCsState::WaitSoc,
        DllCsState::WaitPreq,
        DllCsState::WaitSoa,
    ];

    /// Law of `ALL`: each state stands in it once, in the order of the enum.
    pub fn all_in_order()
        ensures { AllInOrder cs_state_number Self.ALL }
    {}

    /// The state's place in the enum, from 0.
    pub fn as_u8(self) -> u8
        ensures { result ≡ cs_state_number self }
    {
        self as u8
    }
}

/// The state at a place; refused by UnknownNumber where there is none.
impl TryFrom<u64> for DllCsState {
    type Error = Refusal;

    ghost try_from_gives = { λ n r. r ≡ read_cs_state n };

    fn try_from(value: u64) -> Result<Self, Refusal> {
        match value {
            0 => Ok(DllCsState::NonCyclic),
            1 => Ok(DllCsState::WaitSoc),
            2 => Ok(DllCsState::WaitPreq),
            3 => Ok(DllCsState::WaitSoa),
            _ => Err(Refusal::UnknownNumber),
        }
    }
}

/// The DLL machine of a controlled node.
#[derive(Clone, Copy, PartialEq, Eq)]
pub struct DllCsStateMachine {
    pub state: DllCsState,
}

/// What a DLL event leaves and answers.
#[derive(Clone, Copy, PartialEq, Eq)]
pub struct DllAnswer {
    pub machine: DllCsStateMachine,
    /// The errors to report, in order.
    pub errors: DllErrors,
}

// An answer from the next state and the errors to report.
fn goes(state: DllCsState, errors: DllErrors) -> DllAnswer
    ensures { result ≡ record { machine = record { state = state }; errors = errors } }
{
    DllAnswer {
        machine: DllCsStateMachine { state },
        errors,
    }
}

fn non_cyclic(event: DllCsEvent) -> DllAnswer
    ensures { cs_outcome result ≡ non_cyclic event }
{
    match event {
        DllCsEvent::Soc => goes(DllCsState::WaitPreq, DllErrors::None),
        _ => goes(
            DllCsState::NonCyclic,
            DllErrors::One(DllError::UnexpectedEventInState {
                state: DllCsState::NonCyclic.as_u8(),
                event: event.as_u8(),
            }),
        ),
    }
}

fn wait_soc(event: DllCsEvent) -> DllAnswer
    ensures { cs_outcome result ≡ wait_soc event }
{
    match event {
        DllCsEvent::Soc => goes(DllCsState::WaitPreq, DllErrors::None),
        DllCsEvent::Asnd => goes(DllCsState::WaitSoc, DllErrors::None),
        DllCsEvent::Preq | DllCsEvent::Pres | DllCsEvent::Soa | DllCsEvent::SocTimeout => {
            goes(DllCsState::WaitSoc, DllErrors::One(DllError::LossOfSoc))
        }
    }
}

fn wait_preq(event: DllCsEvent, expect_preq: bool) -> DllAnswer
    ensures { cs_outcome result ≡ wait_preq event expect_preq }
{
    match event {
        DllCsEvent::Soc | DllCsEvent::Asnd => {
            goes(DllCsState::WaitPreq, DllErrors::One(DllError::LossOfSoa))
        }
        DllCsEvent::Preq => goes(DllCsState::WaitSoa, DllErrors::None),
        DllCsEvent::Pres => goes(DllCsState::WaitPreq, DllErrors::None),
        DllCsEvent::Soa => {
            if expect_preq {
                goes(DllCsState::WaitSoc, DllErrors::One(DllError::LossOfPreq))
            } else {
                goes(DllCsState::WaitSoc, DllErrors::None)
            }
        }
        DllCsEvent::SocTimeout => goes(
            DllCsState::WaitSoc,
            DllErrors::Two(DllError::LossOfSoc, DllError::LossOfSoa),
        ),
    }
}

fn wait_soa(event: DllCsEvent) -> DllAnswer
    ensures { cs_outcome result ≡ wait_soa event }
{
    match event {
        DllCsEvent::Soc => goes(DllCsState::WaitPreq, DllErrors::One(DllError::LossOfSoa)),
        DllCsEvent::Pres => goes(DllCsState::WaitSoa, DllErrors::None),
        DllCsEvent::Soa => goes(DllCsState::WaitSoc, DllErrors::None),
        DllCsEvent::Asnd => goes(DllCsState::WaitSoa, DllErrors::One(DllError::LossOfSoa)),
        DllCsEvent::Preq | DllCsEvent::SocTimeout => goes(
            DllCsState::WaitSoc,
            DllErrors::Two(DllError::LossOfSoc, DllError::LossOfSoa),
        ),
    }
}

fn cyclic_event(state: DllCsState, event: DllCsEvent, expect_preq: bool) -> DllAnswer
    ensures { cs_outcome result ≡ cyclic state event expect_preq }
{
    match state {
        DllCsState::NonCyclic => non_cyclic(event),
        DllCsState::WaitSoc => wait_soc(event),
        DllCsState::WaitPreq => wait_preq(event, expect_preq),
        DllCsState::WaitSoa => wait_soa(event),
    }
}

impl DllCsStateMachine {
    /// A machine that is NonCyclic.
    pub fn new() -> Self
        ensures { result ≡ fresh_machine }
    {
        Self {
            state: DllCsState::NonCyclic,
        }
    }

    /// A DLL event in an NMT state (RULES 5.1); `expect_preq` says whether the managing node polls
    /// this node in the cycle. Outside PreOperational2, ReadyToOperate, Operational and CsStopped
    /// the machine becomes NonCyclic, without an error.
    #[tactic(auto, unfolding(crate::specs::Dll::cs_processed))]
    pub fn process_event(
        self,
        event: DllCsEvent,
        nmt_state: NmtState,
        expect_preq: bool,
    ) -> DllAnswer
        ensures { cs_outcome result ≡ cs_processed self.state event nmt_state expect_preq }
    {
        match nmt_state {
            NmtState::NmtPreOperational2
            | NmtState::NmtReadyToOperate
            | NmtState::NmtOperational
            | NmtState::NmtCsStopped => cyclic_event(self.state, event, expect_preq),
            _ => goes(DllCsState::NonCyclic, DllErrors::None),
        }
    }

    /// The machine's state.
    pub fn current_state(self) -> DllCsState
        ensures { result ≡ self.state }
    {
        self.state
    }
}
