//! The examples 1 to 7 of RULES 11.4: NMT and DLL events, and errors given to the counters. Each
//! answers whether all came as the specs of `node` state it.
ghost use Rattle.std.specs.Prelude.{ℕ, List};
ghost use Rattle.node.specs.Steps.{no_run};
ghost use Rattle.node.specs.Examples as table;
ghost use Rattle.examples.specs.Shown.{Shown};

use crate::answers::is_taken;
use crate::comes::{cycle_comes, dll_comes, error_comes, nmt_comes, raises_to, withdrawn};
use crate::heads::{counting, resting, values};
use counters::counters::Thresholds;
use head::state::Head;
use nmt::state_machine::ResetSequence;
use start::start::{Setup, start};
use types::frame::error::types::{DllError, DllErrors};
use types::nmt::flags::FeatureFlags;
use types::nmt::states::NmtState;
use watched::nodes::NodeWords;

/// A fresh head takes SwReset: five states passed, NotActive, not ready.
pub fn sw_reset(head: &mut Head, after: &mut Head, nodes: &mut NodeWords) -> bool
    ensures { (q m : List ℕ) → Shown table.sw_reset head.new q m no_run result }
{
    resting(after, NmtState::NmtNotActive, false, false);
    let setup = Setup {
        node: 1,
        feature_flags: FeatureFlags(0),
        basic_ethernet_timeout: 5,
        queue_capacity: 1,
        od: values(0, 0, 0, 0, 0),
        thresholds: Thresholds::same_for_all(15),
    };
    let answer = start(head, nodes, 0, setup);
    let started = is_taken(answer);
    started & nmt_comes(head, 5, DllErrors::None, ResetSequence::Whole, after)
}

/// NotActive takes Timeout: BasicEthernet, 0x1E.
pub fn timeout(head: &mut Head, after: &mut Head) -> bool
    ensures { (q m : List ℕ) → Shown table.timeout head.new q m no_run result }
{
    resting(head, NmtState::NmtNotActive, false, true);
    resting(after, NmtState::NmtBasicEthernet, false, true);
    nmt_comes(head, 10, DllErrors::None, ResetSequence::None, after)
}

/// PreOperational2, not enabled: a withdrawal; EnableReadyToOperate, which leaves it there,
/// enabled; the ready word: ReadyToOperate, 0x6D.
pub fn enable(head: &mut Head, after: &mut Head) -> bool
    ensures { (q m : List ℕ) → Shown table.enable head.new q m no_run result }
{
    resting(head, NmtState::NmtPreOperational2, false, true);
    resting(after, NmtState::NmtPreOperational2, false, false);
    let withdrawn = withdrawn(head, after);
    resting(after, NmtState::NmtPreOperational2, true, false);
    let enabled = nmt_comes(head, 3, DllErrors::None, ResetSequence::None, after);
    resting(after, NmtState::NmtReadyToOperate, true, true);
    withdrawn & enabled & nmt_comes(head, 15, DllErrors::None, ResetSequence::None, after)
}

/// ReadyToOperate takes EnterPreOperational2: it stays, with the error (0x6D, 2).
pub fn no_row(head: &mut Head, after: &mut Head) -> bool
    ensures { (q m : List ℕ) → Shown table.no_row head.new q m no_run result }
{
    resting(head, NmtState::NmtReadyToOperate, true, true);
    resting(after, NmtState::NmtReadyToOperate, true, true);
    nmt_comes(
        head,
        2,
        DllErrors::One(DllError::UnexpectedEventInState {
            state: 0x6D,
            event: 2,
        }),
        ResetSequence::None,
        after,
    )
}

/// Operational, NonCyclic, takes SocTimeout: the error (0, 5).
pub fn no_cycle(head: &mut Head, after: &mut Head) -> bool
    ensures { (q m : List ℕ) → Shown table.no_cycle head.new q m no_run result }
{
    resting(head, NmtState::NmtOperational, false, true);
    resting(after, NmtState::NmtOperational, false, true);
    dll_comes(
        head,
        5,
        false,
        DllErrors::One(DllError::UnexpectedEventInState { state: 0, event: 5 }),
        after,
    )
}

/// Two lost SoCs, one completed cycle between: the level comes to 15 and crosses.
pub fn one_between(head: &mut Head, after: &mut Head) -> bool
    ensures { (q m : List ℕ) → Shown table.one_between head.new q m no_run result }
{
    counting(head, 0, 0, 0, 0, 0);
    counting(after, 1, 0, 8, 0, 0);
    let lost = error_comes(head, 6, false, after);
    counting(after, 1, 0, 7, 0, 0);
    let lowered = cycle_comes(head, false, after);
    counting(after, 2, 1, 0, 0, 0);
    lost & lowered & raises_to(head, 15) & error_comes(head, 6, true, after)
}

/// Two lost SoCs, two completed cycles between: the level is 14, no crossing.
pub fn two_between(head: &mut Head, after: &mut Head) -> bool
    ensures { (q m : List ℕ) → Shown table.two_between head.new q m no_run result }
{
    counting(head, 0, 0, 0, 0, 0);
    counting(after, 1, 0, 8, 0, 0);
    let lost = error_comes(head, 6, false, after);
    counting(after, 1, 0, 7, 0, 0);
    let lowered = cycle_comes(head, false, after);
    counting(after, 1, 0, 6, 0, 0);
    let again = cycle_comes(head, false, after);
    counting(after, 2, 0, 14, 0, 0);
    lost & lowered & again & raises_to(head, 14) & error_comes(head, 6, false, after)
}
