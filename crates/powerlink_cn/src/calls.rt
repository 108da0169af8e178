//! The calls on a head, with the watched nodes in words.
ghost use Rattle.std.specs.Prelude.{◌≡◌, ℕ, ℤ, Bool, List};
ghost use Rattle.std.specs.declared.option.Option.{Option};
ghost use Rattle.std.specs.declared.result.Result.{Result};
ghost use Rattle.types.specs.declared.refusals.Refusal.{Refusal};
ghost use Rattle.types.specs.declared.frame.error.types.DllErrors.{DllErrors};
ghost use Rattle.types.specs.Events.{read_event};
ghost use Rattle.types.specs.CsEvents.{read_cs_event};
ghost use Rattle.types.specs.Errors.{read_error};
ghost use Rattle.counters.specs.declared.counters.ErrorTaken.{ErrorTaken};
ghost use Rattle.entries.specs.declared.status_response.ErrorEntry.{ErrorEntry};
ghost use Rattle.entries.specs.Queue.{handed_out};
ghost use Rattle.head.specs.Head.{head_with_queue};
ghost use Rattle.head.specs.Words.{head_of};
ghost use Rattle.node.specs.declared.calls.NmtTaken.{NmtTaken};
ghost use Rattle.node.specs.declared.range.SocVerdict.{SocVerdict};
ghost use Rattle.node.specs.Plain.{Call, cycle_answer, hand_out_answer};
ghost use Rattle.node.specs.Steps.{no_run};
ghost use Rattle.node.specs.Refines.{Refines, left};
ghost use Rattle.node.specs.InPlace.{InPlace, Reading, said, nmt_said, nmt_words, dll_said};
ghost use Rattle.node.specs.InPlace.{dll_words, error_said, error_words};
ghost use Rattle.node.specs.InPlace.{cycle_words, withdraw_words, arm_words, hand_out_words};
ghost use Rattle.node.specs.InPlace.{range_said, margin_said};
ghost use Rattle.node.specs.Heard.{Heard};
ghost use Rattle.node.specs.Loaded.{LoadedIn};
ghost use Rattle.start.specs.Started.{StartedIn};
ghost use Rattle.tick.specs.TickIn.{TickedIn};
ghost use Rattle.partners.specs.Partners.{Added, Removed};
ghost use Rattle.reception.specs.declared.FrameAnswer.{FrameAnswer};
ghost use Rattle.reception.specs.FrameIn.{FrameIn};
ghost use Rattle.due.specs.Moment.{next_due};
ghost use Rattle.powerlink_cn.specs.Answers.{number_of, sent, c_errors, c_nmt, c_taken, c_cycle};
ghost use Rattle.powerlink_cn.specs.Answers.{c_range, c_margin, c_due, c_frame};
ghost use Rattle.powerlink_cn.specs.Entries.{c_handed_out};
ghost use Rattle.powerlink_cn.specs.Setups.{flag, setup_of, update_of, history_of};
ghost use Rattle.powerlink_cn.specs.Runs.{run_of};

use crate::answers::{
    PlcnCycleAnswer, PlcnDueAnswer, PlcnErrorAnswer, PlcnErrors, PlcnFrameAnswer, PlcnMarginAnswer,
    PlcnNmtAnswer, PlcnRangeAnswer, number_of, send,
};
use crate::entry::PlcnHandedOut;
use crate::run::PlcnRun;
use crate::setup::{PlcnSetup, PlcnUpdate};
use due::words::next_due;
use entries::sizes::{HistoryBytes, QueueBytes};
use head::state::Head;
use node::calls::{arm, dll_event, hand_out, handle_error, nmt_event, on_cycle_complete, withdraw};
use node::heard::heard;
use node::load::load;
use node::range::{soc_margin, soc_range};
use partners::{add, remove};
use reception::process_frame;
use start::start::start;
use tick::tick::process_tick;

/// Start (`start::start::start`), with its refusals.
#[unsafe(no_mangle)]
pub extern "C" fn plcn_start(head: &mut Head, run: &mut PlcnRun, setup: &PlcnSetup) -> u32
    ensures made { (r : Result (Unit {0}) Refusal) ×
        StartedIn head.old run.old.place run.old.number (setup_of setup.now) r
        head.new run.new.place ×
        (result ≡ number_of r) }
    ensures number { run.new.number ≡ run.old.number }
{
    number_of(start(head, &mut run.place, run.number, setup.read()))
}

/// An NMT event (`node::calls::nmt_event`), with its refusal.
#[unsafe(no_mangle)]
pub extern "C" fn plcn_nmt_event(head: &mut Head, event: u64, answer: &mut PlcnNmtAnswer) -> u32
    ensures { (r : Result NmtTaken Refusal) ×
        InPlace head.old (Call.nmt_event event) (nmt_said r)
        head.new (nmt_words head.old (read_event event)) ×
        (result ≡ number_of r) × (answer.new ≡ sent c_nmt r answer.old) }
{
    send(nmt_event(head, event), answer)
}

/// A DLL event (`node::calls::dll_event`), with its refusal.
#[unsafe(no_mangle)]
pub extern "C" fn plcn_dll_event(
    head: &mut Head,
    event: u64,
    expect_preq: u32,
    errors: &mut PlcnErrors,
) -> u32
    ensures { (r : Result DllErrors Refusal) ×
        InPlace head.old (Call.dll_event event (flag expect_preq)) (dll_said r)
        head.new (dll_words head.old (flag expect_preq) (read_cs_event event)) ×
        (result ≡ number_of r) × (errors.new ≡ sent c_errors r errors.old) }
{
    send(dll_event(head, event, expect_preq != 0), errors)
}

/// An error for the counters (`node::calls::handle_error`), with its refusals.
#[unsafe(no_mangle)]
pub extern "C" fn plcn_handle_error(
    head: &mut Head,
    kind: u64,
    a: u8,
    b: u8,
    answer: &mut PlcnErrorAnswer,
) -> u32
    ensures { (r : Result ErrorTaken Refusal) ×
        InPlace head.old (Call.error kind a b) (error_said r)
        head.new (error_words head.old (read_error kind a b)) ×
        (result ≡ number_of r) × (answer.new ≡ sent c_taken r answer.old) }
{
    send(handle_error(head, kind, a, b), answer)
}

/// A complete cycle (`node::calls::on_cycle_complete`).
#[unsafe(no_mangle)]
pub extern "C" fn plcn_cycle_complete(head: &mut Head, answer: &mut PlcnCycleAnswer) -> u32
    ensures made { (cleared : Bool) ×
        InPlace head.old Call.cycle_complete (cycle_answer cleared)
        head.new (cycle_words head.old) ×
        (answer.new ≡ c_cycle cleared) }
    ensures taken { result ≡ 0 }
{
    *answer = PlcnCycleAnswer::from(on_cycle_complete(head));
    0
}

/// The ready word is withdrawn (`node::calls::withdraw`), with its refusal.
#[unsafe(no_mangle)]
pub extern "C" fn plcn_withdraw(head: &mut Head) -> u32
    ensures { (r : Result (Unit {0}) Refusal) ×
        InPlace head.old Call.withdraw (said r) head.new (withdraw_words head.old) ×
        (result ≡ number_of r) }
{
    number_of(withdraw(head))
}

/// A watched node was heard (`node::heard::heard`), with its refusals.
#[unsafe(no_mangle)]
pub extern "C" fn plcn_heard(head: &mut Head, run: &mut PlcnRun, node: u8, time_us: u64) -> u32
    ensures made { (r : Result (Unit {0}) Refusal) ×
        Heard head.old run.old.place run.old.number node time_us r head.new run.new.place ×
        (result ≡ number_of r) }
    ensures number { run.new.number ≡ run.old.number }
{
    number_of(heard(head, &mut run.place, run.number, node, time_us))
}

/// The oldest entry leaves the queue (`node::calls::hand_out`).
#[unsafe(no_mangle)]
pub extern "C" fn plcn_hand_out(
    head: &mut Head,
    queue: &QueueBytes,
    answer: &mut PlcnHandedOut,
) -> u32
    ensures made { (e : Option ErrorEntry) ×
        ((m : List ℕ) → Refines (head_of head.old) queue.now m Call.hand_out
        (left (head_of head.new) (hand_out_answer e)) queue.now m no_run) ×
        (head.new ≡ hand_out_words head.old queue.now) × (answer.new ≡ c_handed_out e) }
    ensures taken { result ≡ 0 }
{
    *answer = PlcnHandedOut::from(hand_out(head, queue));
    0
}

/// Values of the dictionary and a history are loaded (`node::load::load`).
#[unsafe(no_mangle)]
pub extern "C" fn plcn_load(
    head: &mut Head,
    history: &mut HistoryBytes,
    update: &PlcnUpdate,
    entries: &[u8],
) -> u32
    ensures loaded { LoadedIn head.old history.old (update_of update.now)
        (history_of update.now entries.now) head.new history.new }
    ensures taken { result ≡ 0 }
{
    load(head, history, update.read(), update.history(entries));
    0
}

/// An SoC arms (`node::calls::arm`), with its refusal.
#[unsafe(no_mangle)]
pub extern "C" fn plcn_arm(head: &mut Head, time_us: u64) -> u32
    ensures { (r : Result (Unit {0}) Refusal) ×
        InPlace head.old (Call.arm time_us) (said r) head.new (arm_words head.old time_us) ×
        (result ≡ number_of r) }
{
    number_of(arm(head, time_us))
}

/// A tick (`tick::tick::process_tick`), with its refusals.
#[unsafe(no_mangle)]
pub extern "C" fn plcn_tick(
    head: &mut Head,
    queue: &mut QueueBytes,
    history: &mut HistoryBytes,
    run: &mut PlcnRun,
    time_us: u64,
    logged: &mut PlcnErrors,
) -> u32
    ensures made { (r : Result DllErrors Refusal) ×
        TickedIn head.old queue.old history.old run.old.place run.old.number time_us r
        head.new queue.new history.new run.new.place ×
        (result ≡ number_of r) × (logged.new ≡ sent c_errors r logged.old) }
    ensures number { run.new.number ≡ run.old.number }
{
    let answer = process_tick(head, queue, history, &mut run.place, run.number, time_us);
    send(answer, logged)
}

/// The SoC between two readings of a clock (`node::range::soc_range`), with its refusals.
#[unsafe(no_mangle)]
pub extern "C" fn plcn_range(
    head: &Head,
    earliest_us: u64,
    latest_us: u64,
    answer: &mut PlcnRangeAnswer,
) -> u32
    ensures { (r : Result SocVerdict Refusal) ×
        Reading head.now (Call.range earliest_us latest_us) (range_said r) ×
        (result ≡ number_of r) × (answer.new ≡ sent c_range r answer.old) }
{
    send(soc_range(head, earliest_us, latest_us), answer)
}

/// The margin at a reading of a clock (`node::range::soc_margin`), with its refusal.
#[unsafe(no_mangle)]
pub extern "C" fn plcn_margin(head: &Head, time_us: u64, answer: &mut PlcnMarginAnswer) -> u32
    ensures { (r : Result ℤ Refusal) ×
        Reading head.now (Call.margin time_us) (margin_said r) ×
        (result ≡ number_of r) × (answer.new ≡ sent c_margin r answer.old) }
{
    send(soc_margin(head, time_us), answer)
}

/// A node is watched from now on (`partners::add`), with its refusals.
#[unsafe(no_mangle)]
pub extern "C" fn plcn_add(head: &mut Head, run: &mut PlcnRun, node: u8, timeout_us: u64) -> u32
    ensures { (r : Result (Unit {0}) Refusal) ×
        Added head.old run.old.place run.old.number node timeout_us r
        head.new run.new.place run.new.number ×
        (result ≡ number_of r) }
{
    number_of(add(head, &mut run.place, &mut run.number, node, timeout_us))
}

/// A node is watched no more (`partners::remove`), with its refusals.
#[unsafe(no_mangle)]
pub extern "C" fn plcn_remove(head: &mut Head, run: &mut PlcnRun, node: u8) -> u32
    ensures { (r : Result (Unit {0}) Refusal) ×
        Removed head.old run.old.place run.old.number node r
        head.new run.new.place run.new.number ×
        (result ≡ number_of r) }
{
    number_of(remove(head, &mut run.place, &mut run.number, node))
}

/// When the next tick is due (`due::words::next_due`), with its refusal.
#[unsafe(no_mangle)]
pub extern "C" fn plcn_next_due(head: &Head, run: &PlcnRun, answer: &mut PlcnDueAnswer) -> u32
    ensures { let r = next_due head.now (run_of run.now) in
        (result ≡ number_of r) × (answer.new ≡ sent c_due r answer.old) }
{
    send(next_due(head, &run.place, run.number), answer)
}

/// A frame (`reception::process_frame`), with its refusals.
#[unsafe(no_mangle)]
pub extern "C" fn plcn_frame(
    head: &mut Head,
    queue: &mut QueueBytes,
    history: &mut HistoryBytes,
    time_us: u64,
    bytes: &[u8],
    answer: &mut PlcnFrameAnswer,
) -> u32
    ensures { (r : Result FrameAnswer Refusal) ×
        FrameIn head.old queue.old history.old time_us bytes.now r
        head.new queue.new history.new ×
        (result ≡ number_of r) × (answer.new ≡ sent c_frame r answer.old) }
{
    send(process_frame(head, queue, history, time_us, bytes), answer)
}
