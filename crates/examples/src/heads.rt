//! The words of the heads that the examples state: node 1, basic timeout 5 µs, a queue of 1, cycle
//! 1,000 µs, tolerance 100,000 ns, thresholds 15.
ghost use Rattle.std.specs.Prelude.{◌≡◌, set};
ghost use Rattle.counters.specs.Counters.{counter_of};
ghost use Rattle.entries.specs.Queue.{queue};
ghost use Rattle.entries.specs.History.{error_history};
ghost use Rattle.head.specs.Head.{soc_watch};
ghost use Rattle.head.specs.Places as at;
ghost use Rattle.head.specs.Words.{head_of};
ghost use Rattle.head.specs.Written.{soc_written};
ghost use Rattle.watched.specs.Nodes.{nodes_of};
ghost use Rattle.watched.specs.Watched.{run};
ghost use Rattle.node.specs.Examples.{machine, values, counters_of, resting, counting, cycling};
ghost use Rattle.node.specs.Examples.{crossing_tick, no_nodes, watching_one, awaiting};
ghost use Rattle.examples.specs.Shown.{placed, Stands, resting_words};

use counters::counters::{CnErrorCounters, CounterKind, ThresholdCounter, Thresholds};
use dll::cs_state_machine::{DllCsState, DllCsStateMachine};
use entries::emergency_queue::EmergencyQueue;
use entries::error_history::ErrorHistory;
use head::dictionary::set_od;
use head::errors::{set_counter, set_thresholds};
use head::machines::{set_dll, set_identity, set_nmt};
use head::memory::{set_capacity, set_history, set_queue};
use head::state::{Deadline, Dictionary, Head, SocWatch};
use head::watch::{set_earliest, set_soc};
use head::words::clear;
use nmt::cn_state_machine::{CnNmtStateMachine, Position};
use types::nmt::flags::FeatureFlags;
use types::nmt::states::NmtState;
use types::types::NodeId;
use watched::nodes::NodeWords;
use watched::record::NodeRecord;

/// The dictionary's values, with this error register and these counters 1, 2, 3 and 5.
pub fn values(
    error_register: u8,
    counter_1: u32,
    counter_2: u32,
    counter_3: u32,
    counter_5: u32,
) -> Dictionary
    ensures { result ≡ values error_register counter_1 counter_2 counter_3 counter_5 }
{
    Dictionary {
        error_register,
        cycle_time: Some(1000),
        tolerance: Some(100000),
        counter_1,
        counter_2,
        counter_3,
        counter_5,
    }
}

fn machine(position: Position) -> CnNmtStateMachine
    ensures { result ≡ machine position.state position.enabled position.ready }
{
    CnNmtStateMachine::new(NodeId(1), FeatureFlags(0), 5).at(position)
}

// A head at a position, NonCyclic, levels and counts 0, the check off, with these values.
fn write(head: &mut Head, position: Position, od: Dictionary)
    ensures { head.new ≡ resting_words position.state position.enabled position.ready od }
{
    let nmt = machine(position);
    let errors = CnErrorCounters::new(Thresholds::same_for_all(15));
    clear(head);
    set_nmt(head, nmt);
    set_identity(head, nmt);
    set_thresholds(head, errors);
    set_od(head, od);
    set_capacity(head, 1);
}

/// A head that rests at a position: NonCyclic, levels, counts and values 0, the check off.
pub fn resting(head: &mut Head, state: NmtState, enabled: bool, ready: bool)
    ensures { Stands head.new (resting state enabled ready) }
{
    let position = Position {
        state,
        enabled,
        ready,
    };
    write(head, position, values(0, 0, 0, 0, 0));
}

// Operational, not enabled, ready.
const OPERATIONAL: Position = Position {
    state: NmtState::NmtOperational,
    enabled: false,
    ready: true,
};

fn counter(occurrences: u32, crossings: u32, level: u32) -> ThresholdCounter
    ensures { result ≡ counter_of occurrences level 15 crossings }
{
    ThresholdCounter {
        cumulative_cnt: occurrences,
        threshold_cnt: level,
        threshold: 15,
        crossings_cnt: crossings,
    }
}

/// A head at Operational, with so many errors and crossings and this level of LossOfSoc, and errors
/// and level of HeartbeatTimeout.
pub fn counting(
    head: &mut Head,
    socs: u32,
    crossings: u32,
    soc: u32,
    missed: u32,
    missed_level: u32,
)
    ensures { Stands head.new (counting (counters_of socs crossings soc missed missed_level)) }
{
    let od = values(0, 0, 0, 0, 0);
    write(head, OPERATIONAL, od);
    set_counter(head, CounterKind::LossOfSoc, counter(socs, crossings, soc));
    set_counter(
        head,
        CounterKind::HeartbeatTimeout,
        counter(missed, 0, missed_level),
    );
}

/// The same where a watched node would be late at a time, with errors and level of
/// HeartbeatTimeout.
pub fn awaiting(head: &mut Head, earliest: u64, missed: u32, missed_level: u32)
    ensures { Stands head.new (awaiting earliest (counters_of 0 0 0 missed missed_level)) }
{
    counting(head, 0, 0, 0, missed, missed_level);
    set_earliest(head, Some(earliest));
}

// Puts a head at WaitSoc, with the last SoC at 10,000.
fn write_cycle(head: &mut Head, check: bool, next_tick_us: Deadline, changed: bool)
    ensures { head.new ≡
        soc_written (set head.old at.dll 1) (soc_watch 10000 check next_tick_us changed) }
{
    set_dll(
        head,
        DllCsStateMachine {
            state: DllCsState::WaitSoc,
        },
    );
    set_soc(
        head,
        SocWatch {
            last_soc_reception_time_us: 10000,
            soc_timeout_check_active: check,
            next_tick_us,
            error_status_changed: changed,
        },
    );
}

/// A head at Operational, WaitSoc, the check on, with a deadline, the level of LossOfSoc and its
/// errors, which are counter 1 too.
pub fn cycling(head: &mut Head, deadline: u64, level: u32, lost: u32)
    ensures { Stands head.new (cycling deadline level lost) }
{
    let od = values(0, lost, 0, 0, 0);
    write(head, OPERATIONAL, od);
    write_cycle(head, true, Deadline::At(deadline), false);
    set_counter(head, CounterKind::LossOfSoc, counter(lost, 0, level));
}

/// The head after the crossing: PreOperational1, the check off, no deadline, one entry in queue and
/// history.
pub fn crossed(head: &mut Head)
    ensures { head_of head.new ≡ placed crossing_tick.all.head (queue 0 1 1) (error_history 253 1) }
{
    let od = values(1, 2, 1, 0, 1);
    let position = Position {
        state: NmtState::NmtPreOperational1,
        ..OPERATIONAL
    };
    write(head, position, od);
    write_cycle(head, false, Deadline::Nothing, true);
    set_counter(head, CounterKind::LossOfSoc, counter(2, 1, 0));
    set_queue(
        head,
        EmergencyQueue {
            oldest: 0,
            length: 1,
            capacity: 1,
        },
    );
    set_history(
        head,
        ErrorHistory {
            newest: 253,
            count: 1,
        },
    );
}

/// Clears every place: no node is watched.
pub fn watch_none(nodes: &mut NodeWords)
    ensures { run (nodes_of nodes.new) 0 ≡ no_nodes }
{
    *nodes = [0; 96];
}

/// Node 5 with timeout 50 µs, last heard at a time.
pub fn node_five(last_heard: u64) -> NodeRecord
    ensures { result ≡ record { node = 5; timeout = 50; last_heard = last_heard } }
{
    NodeRecord {
        node: 5,
        timeout: 50,
        last_heard,
    }
}

/// Watches node 5, last heard at a time, and no other.
pub fn watching(nodes: &mut NodeWords, last_heard: u64)
    ensures { run (nodes_of nodes.new) 1 ≡ watching_one last_heard }
{
    *nodes = [0; 96];
    node_five(last_heard).put(nodes, 0);
}
