//! The calls over watched nodes in places of any length, of which the first `number` are watched.
ghost use Rattle.std.specs.Prelude.{◌≡◌, ℕ};
ghost use Rattle.std.specs.declared.result.Result.{Result};
ghost use Rattle.types.specs.declared.refusals.Refusal.{Refusal};
ghost use Rattle.types.specs.declared.frame.error.types.DllErrors.{DllErrors};
ghost use Rattle.watched.specs.Watched.{run};
ghost use Rattle.node.specs.Heard.{HeardOn};
ghost use Rattle.start.specs.Started.{StartedOn};
ghost use Rattle.tick.specs.TickIn.{TickedOn};
ghost use Rattle.partners.specs.Partners.{AddedOn, RemovedOn};
ghost use Rattle.due.specs.Moment.{next_due};
ghost use Rattle.powerlink_cn.specs.Answers.{number_of, sent, c_errors, c_due};
ghost use Rattle.powerlink_cn.specs.Setups.{setup_of};

use crate::answers::{PlcnDueAnswer, PlcnErrors, number_of, send};
use crate::setup::PlcnSetup;
use due::run::next_due;
use entries::sizes::{HistoryBytes, QueueBytes};
use head::state::Head;
use lent::arrivals::{add, remove};
use lent::calls::{heard, start};
use lent::ticks::process_tick;
use watched::nodes::WatchedNode;

/// Start (`lent::calls::start`), with its refusals.
#[unsafe(no_mangle)]
pub extern "C" fn plcn_start_over(
    head: &mut Head,
    places: &mut [WatchedNode],
    number: usize,
    setup: &PlcnSetup,
) -> u32
    ensures { (r : Result (Unit {0}) Refusal) ×
        StartedOn head.old (run places.old number) (setup_of setup.now) r
        head.new (run places.new number) ×
        (result ≡ number_of r) }
{
    number_of(start(head, places, number, setup.read()))
}

/// A watched node was heard (`lent::calls::heard`), with its refusals.
#[unsafe(no_mangle)]
pub extern "C" fn plcn_heard_over(
    head: &mut Head,
    places: &mut [WatchedNode],
    number: usize,
    node: u8,
    time_us: u64,
) -> u32
    ensures { (r : Result (Unit {0}) Refusal) ×
        HeardOn head.old (run places.old number) node time_us r
        head.new (run places.new number) ×
        (result ≡ number_of r) }
{
    number_of(heard(head, places, number, node, time_us))
}

/// A tick (`lent::ticks::process_tick`), with its refusals.
#[unsafe(no_mangle)]
pub extern "C" fn plcn_tick_over(
    head: &mut Head,
    queue: &mut QueueBytes,
    history: &mut HistoryBytes,
    places: &mut [WatchedNode],
    number: usize,
    time_us: u64,
    logged: &mut PlcnErrors,
) -> u32
    ensures { (r : Result DllErrors Refusal) ×
        TickedOn head.old queue.old history.old (run places.old number) time_us r
        head.new queue.new history.new (run places.new number) ×
        (result ≡ number_of r) × (logged.new ≡ sent c_errors r logged.old) }
{
    send(
        process_tick(head, queue, history, places, number, time_us),
        logged,
    )
}

/// A node is watched from now on (`lent::arrivals::add`), with its refusals.
#[unsafe(no_mangle)]
pub extern "C" fn plcn_add_over(
    head: &mut Head,
    places: &mut [WatchedNode],
    number: &mut usize,
    node: u8,
    timeout_us: u64,
) -> u32
    ensures { (r : Result (Unit {0}) Refusal) ×
        AddedOn head.old (run places.old number.old) node timeout_us r
        head.new (run places.new number.new) ×
        (result ≡ number_of r) }
{
    number_of(add(head, number, places, node, timeout_us))
}

/// A node is watched no more (`lent::arrivals::remove`), with its refusals.
#[unsafe(no_mangle)]
pub extern "C" fn plcn_remove_over(
    head: &mut Head,
    places: &mut [WatchedNode],
    number: &mut usize,
    node: u8,
) -> u32
    ensures { (r : Result (Unit {0}) Refusal) ×
        RemovedOn head.old (run places.old number.old) node r
        head.new (run places.new number.new) ×
        (result ≡ number_of r) }
{
    number_of(remove(head, number, places, node))
}

/// When the next tick is due (`due::run::next_due`), with its refusal.
#[unsafe(no_mangle)]
pub extern "C" fn plcn_next_due_over(
    head: &Head,
    places: &[WatchedNode],
    number: usize,
    answer: &mut PlcnDueAnswer,
) -> u32
    ensures { let r = next_due head.now (run places.now number) in
        (result ≡ number_of r) × (answer.new ≡ sent c_due r answer.old) }
{
    send(next_due(head, places, number), answer)
}
