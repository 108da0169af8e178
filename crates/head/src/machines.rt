//! The NMT machine and the DLL machine of a head in words. A number that names no state is read as
//! one, so that no reading is refused.
ghost use Rattle.std.specs.Prelude.{◌≡◌, slice_set};
ghost use Rattle.dll.specs.Dll.{cs_state_number};
ghost use Rattle.head.specs.Places as at;
ghost use Rattle.head.specs.Words.{word, one, state_of, nmt_of, dll_state};
ghost use Rattle.head.specs.Written.{nmt_written, identity_written};

use crate::state::Head;
use crate::words::byte_at;
use dll::cs_state_machine::{DllCsState, DllCsStateMachine};
use nmt::cn_state_machine::CnNmtStateMachine;
use types::nmt::flags::FeatureFlags;
use types::nmt::states::NmtState;
use types::types::NodeId;

// The NMT machine.
const STATE: usize = 0;

const NODE: usize = 1;

const FLAGS: usize = 2;

const TIMEOUT: usize = 3;

const ENABLED: usize = 4;

const READY: usize = 5;

/// The word of the DLL machine.
pub(crate) const DLL: usize = 6;

// The NMT state in a word; GsOff where the number names none.
fn state_of(word: u32) -> NmtState
    ensures { result ≡ state_of word }
{
    NmtState::try_from(word as u64).unwrap_or(NmtState::NmtGsOff)
}

/// The NMT machine. A number that names no state is read as GsOff; of the node's word the lowest
/// byte counts.
pub fn nmt_of(head: &Head) -> CnNmtStateMachine
    ensures { result ≡ nmt_of head.now }
{
    CnNmtStateMachine {
        current_state: state_of(head[STATE]),
        node_id: NodeId(byte_at(head, NODE)),
        feature_flags: FeatureFlags(head[FLAGS]),
        basic_ethernet_timeout: head[TIMEOUT],
        ready_to_operate_enabled: head[ENABLED] != 0,
        app_ready: head[READY] != 0,
    }
}

/// Writes what an event changes of the NMT machine: state, enabled and ready.
pub fn set_nmt(head: &mut Head, machine: CnNmtStateMachine)
    ensures { head.new ≡ nmt_written head.old machine }
{
    head[STATE] = machine.current_state.as_u8() as u32;
    head[ENABLED] = u32::from(machine.ready_to_operate_enabled);
    head[READY] = u32::from(machine.app_ready);
}

/// The NMT state.
pub fn state_at(head: &Head) -> NmtState
    ensures { result ≡ state_of (word head.now at.state) }
{
    state_of(head[STATE])
}

/// Writes whether the application is ready.
pub fn set_ready(head: &mut Head, ready: bool)
    ensures { head.new ≡ slice_set head.old at.ready (one ready) }
{
    head[READY] = u32::from(ready);
}

/// The basic timeout, in µs.
pub fn timeout_of(head: &Head) -> u32
    ensures { result ≡ word head.now at.timeout }
{
    head[TIMEOUT]
}

/// Writes what start gives the NMT machine and no event changes: node, feature flags and basic
/// timeout.
pub fn set_identity(head: &mut Head, machine: CnNmtStateMachine)
    ensures { head.new ≡ identity_written head.old machine }
{
    head[NODE] = machine.node_id.0 as u32;
    head[FLAGS] = machine.feature_flags.0;
    head[TIMEOUT] = machine.basic_ethernet_timeout;
}

// The DLL state in a word; NonCyclic where the number names none, so that no reading is refused.
fn dll_state(word: u32) -> DllCsState
    ensures { result ≡ dll_state word }
{
    DllCsState::try_from(word as u64).unwrap_or(DllCsState::NonCyclic)
}

/// The DLL machine. A number that names no state is read as NonCyclic.
pub fn dll_of(head: &Head) -> DllCsStateMachine
    ensures { result ≡ record { state = dll_state (word head.now at.dll) } }
{
    DllCsStateMachine {
        state: dll_state(head[DLL]),
    }
}

/// Writes the DLL machine's state.
pub fn set_dll(head: &mut Head, machine: DllCsStateMachine)
    ensures { head.new ≡ slice_set head.old at.dll (cs_state_number machine.state) }
{
    head[DLL] = machine.state.as_u8() as u32;
}
