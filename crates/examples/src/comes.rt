//! A call, and whether it came as an example states: its answer, and the head after it, which is
//! given as `after`. There is a function for each call: a generic one would be given the call, the
//! test of its answer and its contract by each caller, and be longer.
ghost use Rattle.std.specs.Prelude.{ℕ, ◌≡◌, List};
ghost use Rattle.counters.specs.Counters.{incremented};
ghost use Rattle.head.specs.Words.{errors_of};
ghost use Rattle.node.specs.Plain.{Call, taken, cycle_answer};
ghost use Rattle.node.specs.Steps.{no_run};
ghost use Rattle.node.specs.InPlace.{dll_says};
ghost use Rattle.tick.specs.TickIn.{tick_says};
ghost use Rattle.watched.specs.Watched.{run};
ghost use Rattle.watched.specs.Nodes.{nodes_of};
ghost use Rattle.examples.specs.Same.{Exactly};
ghost use Rattle.examples.specs.Said.{nmt_stated, error_stated};
ghost use Rattle.examples.specs.Shown.{Came};

use crate::answers::{error_says, is_taken, nmt_says, says};
use crate::bench::Bench;
use crate::same::same_head;
use counters::counters::CounterKind;
use head::errors::counter_of;
use head::state::Head;
use nmt::state_machine::ResetSequence;
use node::calls::{dll_event, handle_error, nmt_event, on_cycle_complete, withdraw};
use node::heard::heard;
use tick::tick::process_tick;
use types::frame::error::types::DllErrors;
use watched::nodes::NodeWords;

/// A withdrawal that is taken.
pub fn withdrawn(head: &mut Head, after: &Head) -> bool
    ensures { (q m : List ℕ) →
        Came head.old q m Call.withdraw taken after.now head.new q m no_run result }
{
    let said = is_taken(withdraw(head));
    said & same_head(head, after)
}

/// An NMT event, by its number.
pub fn nmt_comes(
    head: &mut Head,
    event: u64,
    errors: DllErrors,
    reset: ResetSequence,
    after: &Head,
) -> bool
    ensures { (q m : List ℕ) →
        Came head.old q m (Call.nmt_event event) (nmt_stated errors reset)
        after.now head.new q m no_run result }
{
    let said = nmt_says(nmt_event(head, event), errors, reset);
    said & same_head(head, after)
}

/// A DLL event, by its number; `preq` says whether a PReq is expected.
pub fn dll_comes(head: &mut Head, event: u64, preq: bool, stated: DllErrors, after: &Head) -> bool
    ensures { (q m : List ℕ) →
        Came head.old q m (Call.dll_event event preq) (dll_says stated)
        after.now head.new q m no_run result }
{
    let said = says(dll_event(head, event, preq), stated);
    said & same_head(head, after)
}

/// Whether a LossOfSoc raises the level to this one, before the threshold is looked at.
pub fn raises_to(head: &Head, level: u32) -> bool
    ensures { Exactly result
        ((incremented (errors_of head.now).counters.loss_of_soc).threshold_cnt ≡ level) }
{
    let mut counter = counter_of(head, CounterKind::LossOfSoc);
    counter.increment();
    counter.threshold_cnt == level
}

/// An error given to the counters, by its kind's number.
pub fn error_comes(head: &mut Head, kind: u64, crosses: bool, after: &Head) -> bool
    ensures { (q m : List ℕ) →
        Came head.old q m (Call.error kind 0 0) (error_stated crosses)
        after.now head.new q m no_run result }
{
    let said = error_says(handle_error(head, kind, 0, 0), crosses);
    said & same_head(head, after)
}

/// A completed cycle.
pub fn cycle_comes(head: &mut Head, cleared: bool, after: &Head) -> bool
    ensures { (q m : List ℕ) →
        Came head.old q m Call.cycle_complete (cycle_answer cleared)
        after.now head.new q m no_run result }
{
    let said = on_cycle_complete(head) == cleared;
    said & same_head(head, after)
}

/// A watched node that is heard at a time in µs.
pub fn heard_comes(
    head: &mut Head,
    nodes: &mut NodeWords,
    count: usize,
    node: u8,
    time: u64,
    after: &Head,
) -> bool
    ensures { (q m : List ℕ) →
        Came head.old q m (Call.heard node time (run (nodes_of nodes.old) count)) taken
        after.now head.new q m (run (nodes_of nodes.new) count) result }
{
    let said = is_taken(heard(head, nodes, count, node, time));
    said & same_head(head, after)
}

/// A tick at a time in µs, of the first nodes of the bench.
pub fn tick_comes(
    bench: &mut Bench,
    count: usize,
    time: u64,
    stated: DllErrors,
    after: &Head,
) -> bool
    ensures { Came bench.old.head bench.old.queue bench.old.history
        (Call.tick time (run (nodes_of bench.old.nodes) count)) (tick_says stated)
        after.now
        bench.new.head bench.new.queue bench.new.history
        (run (nodes_of bench.new.nodes) count) result }
{
    let answer = process_tick(
        &mut bench.head,
        &mut bench.queue,
        &mut bench.history,
        &mut bench.nodes,
        count,
        time,
    );
    let said = says(answer, stated);
    said & same_head(&bench.head, after)
}
