//! The calls on a weigh head: each makes that of `weigh`, with what is lent.
ghost use Rattle.std.specs.Prelude.{◌≡◌, ℕ, ℤ, List};
ghost use Rattle.std.specs.Borrow.{Bor};
ghost use Rattle.std.specs.declared.option.Option.{Option};
ghost use Rattle.std.specs.declared.result.Result.{Result};
ghost use Rattle.types.specs.declared.refusals.Refusal.{Refusal};
ghost use Rattle.node.specs.declared.range.SocVerdict.{SocVerdict};
ghost use Rattle.node.specs.Plain.{Call as plain};
ghost use Rattle.node.specs.Loaded.{bytes_named};
ghost use Rattle.node.specs.InPlace.{Reading, range_said, margin_said};
ghost use Rattle.due.specs.Moment.{next_due};
ghost use Rattle.calling.specs.declared.Call.TheVariants as call;
ghost use Rattle.weigh.specs.declared.WeighCall.TheVariants as weigh_call;
ghost use Rattle.weigh.specs.WeighValues.{Reply};
ghost use Rattle.head.specs.Words.{head_of};
ghost use Rattle.weigh.specs.WeighParts.{Parts};
ghost use Rattle.weigh.specs.WeighMade.{Made, Started};
ghost use Rattle.weigh.specs.WeighValues.{weight_said};
ghost use Rattle.weigh.specs.PlainWeigh.{weight_told};
ghost use Rattle.powerlink_cn.specs.Answers.{number_of, sent, c_range, c_margin, c_due};
ghost use Rattle.powerlink_cn.specs.Told.{nmt_told, errors_told, error_told, cycle_told};
ghost use Rattle.powerlink_cn.specs.Told.{handed_out_told, frame_told};
ghost use Rattle.powerlink_cn.specs.Setups.{flag, setup_of, update_of, history_of};
ghost use Rattle.powerlink_cn.specs.Runs.{run_of, held_in};

use crate::answers::{
    PlcnCycleAnswer, PlcnDueAnswer, PlcnErrorAnswer, PlcnErrors, PlcnFrameAnswer, PlcnMarginAnswer,
    PlcnNmtAnswer, PlcnRangeAnswer, send,
};
use crate::entry::PlcnHandedOut;
use crate::run::PlcnMemory;
use crate::setup::{PlcnSetup, PlcnUpdate};
use crate::told::{
    cycle_told, error_told, errors_told, frame_told, handed_out_told, nmt_told, number_told,
};
use calling::Call;
use due::words::next_due;
use head::state::Head;
use node::range::{soc_margin, soc_range};
use recipes::{Component, Places};
use types::refusals::Refusal;
use weigh::{WeighAnswer, WeighCall, WeighHead};

// A call on a weigh head with what is lent. Inlined, each export has its own call alone.
#[inline(always)]
fn make(
    weigh: &mut WeighHead,
    memory: &mut PlcnMemory,
    call: WeighCall<'_>,
) -> Result<WeighAnswer, Refusal>
    ensures { Made (held_in weigh.old memory.old) call.entry result
        (held_in weigh.new memory.new) }
{
    weigh.make(
        &mut memory.queue,
        &mut memory.history,
        &mut memory.run.place,
        &mut memory.run.number,
        call,
    )
}

/// Start (`WeighHead::start`), with its refusals.
#[unsafe(no_mangle)]
pub extern "C" fn plcn_weigh_start(
    weigh: &mut WeighHead,
    memory: &mut PlcnMemory,
    setup: &PlcnSetup,
) -> u32
    ensures started { (r : Result Parts Refusal) ×
        Started (run_of memory.old.run) (setup_of setup.now) r (run_of memory.new.run) ×
        (result ≡ number_of r) × (weigh.new ≡ sent (λ v. v) r weigh.old) }
    ensures number { memory.new.run.number ≡ memory.old.run.number }
    ensures queue { memory.new.queue ≡ memory.old.queue }
    ensures history { memory.new.history ≡ memory.old.history }
{
    let run = &mut memory.run;
    match WeighHead::start(&mut run.place, run.number, setup.read()) {
        Ok(started) => {
            *weigh = started;
            0
        }
        Err(refusal) => u32::from(refusal.number()),
    }
}

/// An NMT event on its node (`Call::NmtEvent`); a reset empties all places.
#[unsafe(no_mangle)]
pub extern "C" fn plcn_weigh_nmt_event(
    weigh: &mut WeighHead,
    memory: &mut PlcnMemory,
    event: u64,
    answer: &mut PlcnNmtAnswer,
) -> u32
    ensures { (o : Reply) ×
        Made (held_in weigh.old memory.old) (weigh_call.Node (call.NmtEvent event)) o
        (held_in weigh.new memory.new) ×
        (result ≡ number_of o) × (answer.new ≡ nmt_told o answer.old) }
{
    nmt_told(
        make(weigh, memory, WeighCall::Node(Call::NmtEvent(event))),
        answer,
    )
}

/// A DLL event on its node (`Call::DllEvent`).
#[unsafe(no_mangle)]
pub extern "C" fn plcn_weigh_dll_event(
    weigh: &mut WeighHead,
    memory: &mut PlcnMemory,
    event: u64,
    expect_preq: u32,
    errors: &mut PlcnErrors,
) -> u32
    ensures { (o : Reply) ×
        Made (held_in weigh.old memory.old)
        (weigh_call.Node (call.DllEvent event (flag expect_preq))) o
        (held_in weigh.new memory.new) ×
        (result ≡ number_of o) × (errors.new ≡ errors_told o errors.old) }
{
    errors_told(
        make(
            weigh,
            memory,
            WeighCall::Node(Call::DllEvent {
                event,
                expect_preq: expect_preq != 0,
            }),
        ),
        errors,
    )
}

/// An error for the counters of its node (`Call::Error`).
#[unsafe(no_mangle)]
pub extern "C" fn plcn_weigh_handle_error(
    weigh: &mut WeighHead,
    memory: &mut PlcnMemory,
    kind: u64,
    a: u8,
    b: u8,
    answer: &mut PlcnErrorAnswer,
) -> u32
    ensures { (o : Reply) ×
        Made (held_in weigh.old memory.old) (weigh_call.Node (call.Error kind a b)) o
        (held_in weigh.new memory.new) ×
        (result ≡ number_of o) × (answer.new ≡ error_told o answer.old) }
{
    error_told(
        make(weigh, memory, WeighCall::Node(Call::Error { kind, a, b })),
        answer,
    )
}

/// A complete cycle (`Call::CycleComplete`).
#[unsafe(no_mangle)]
pub extern "C" fn plcn_weigh_cycle_complete(
    weigh: &mut WeighHead,
    memory: &mut PlcnMemory,
    answer: &mut PlcnCycleAnswer,
) -> u32
    ensures { (o : Reply) ×
        Made (held_in weigh.old memory.old) (weigh_call.Node call.CycleComplete) o
        (held_in weigh.new memory.new) ×
        (result ≡ number_of o) × (answer.new ≡ cycle_told o answer.old) }
{
    cycle_told(
        make(weigh, memory, WeighCall::Node(Call::CycleComplete)),
        answer,
    )
}

/// The ready word is withdrawn (`Call::Withdraw`).
#[unsafe(no_mangle)]
pub extern "C" fn plcn_weigh_withdraw(weigh: &mut WeighHead, memory: &mut PlcnMemory) -> u32
    ensures { (o : Reply) ×
        Made (held_in weigh.old memory.old) (weigh_call.Node call.Withdraw) o
        (held_in weigh.new memory.new) ×
        (result ≡ number_of o) }
{
    number_told(make(weigh, memory, WeighCall::Node(Call::Withdraw)))
}

/// A watched node was heard (`Call::Heard`).
#[unsafe(no_mangle)]
pub extern "C" fn plcn_weigh_heard(
    weigh: &mut WeighHead,
    memory: &mut PlcnMemory,
    node: u8,
    time_us: u64,
) -> u32
    ensures { (o : Reply) ×
        Made (held_in weigh.old memory.old) (weigh_call.Node (call.Heard node time_us)) o
        (held_in weigh.new memory.new) ×
        (result ≡ number_of o) }
{
    number_told(make(
        weigh,
        memory,
        WeighCall::Node(Call::Heard {
            node,
            time: time_us,
        }),
    ))
}

/// The oldest entry leaves the queue (`Call::HandOut`).
#[unsafe(no_mangle)]
pub extern "C" fn plcn_weigh_hand_out(
    weigh: &mut WeighHead,
    memory: &mut PlcnMemory,
    answer: &mut PlcnHandedOut,
) -> u32
    ensures { (o : Reply) ×
        Made (held_in weigh.old memory.old) (weigh_call.Node call.HandOut) o
        (held_in weigh.new memory.new) ×
        (result ≡ number_of o) × (answer.new ≡ handed_out_told o answer.old) }
{
    handed_out_told(make(weigh, memory, WeighCall::Node(Call::HandOut)), answer)
}

/// Values of the dictionary and a history are loaded (`Call::Load`).
#[unsafe(no_mangle)]
pub extern "C" fn plcn_weigh_load(
    weigh: &mut WeighHead,
    memory: &mut PlcnMemory,
    update: &PlcnUpdate,
    entries: &[u8],
) -> u32
    ensures { (o : Reply) ×
        ((h : Option (Bor (List ℕ))) × (bytes_named h ≡ history_of update.now entries.now) ×
        Made (held_in weigh.old memory.old)
        (weigh_call.Node (call.Load (update_of update.now) h)) o
        (held_in weigh.new memory.new)) ×
        (result ≡ number_of o) }
{
    let call = Call::Load {
        values: update.read(),
        history: update.history(entries),
    };
    number_told(make(weigh, memory, WeighCall::Node(call)))
}

/// An SoC arms (`Call::Arm`).
#[unsafe(no_mangle)]
pub extern "C" fn plcn_weigh_arm(
    weigh: &mut WeighHead,
    memory: &mut PlcnMemory,
    time_us: u64,
) -> u32
    ensures { (o : Reply) ×
        Made (held_in weigh.old memory.old) (weigh_call.Node (call.Arm time_us)) o
        (held_in weigh.new memory.new) ×
        (result ≡ number_of o) }
{
    number_told(make(weigh, memory, WeighCall::Node(Call::Arm(time_us))))
}

/// A tick (`Call::Tick`).
#[unsafe(no_mangle)]
pub extern "C" fn plcn_weigh_tick(
    weigh: &mut WeighHead,
    memory: &mut PlcnMemory,
    time_us: u64,
    logged: &mut PlcnErrors,
) -> u32
    ensures { (o : Reply) ×
        Made (held_in weigh.old memory.old) (weigh_call.Node (call.Tick time_us)) o
        (held_in weigh.new memory.new) ×
        (result ≡ number_of o) × (logged.new ≡ errors_told o logged.old) }
{
    errors_told(
        make(weigh, memory, WeighCall::Node(Call::Tick(time_us))),
        logged,
    )
}

/// A node is watched from now on (`Call::Add`).
#[unsafe(no_mangle)]
pub extern "C" fn plcn_weigh_add(
    weigh: &mut WeighHead,
    memory: &mut PlcnMemory,
    node: u8,
    timeout_us: u64,
) -> u32
    ensures { (o : Reply) ×
        Made (held_in weigh.old memory.old) (weigh_call.Node (call.Add node timeout_us)) o
        (held_in weigh.new memory.new) ×
        (result ≡ number_of o) }
{
    number_told(make(
        weigh,
        memory,
        WeighCall::Node(Call::Add {
            node,
            timeout: timeout_us,
        }),
    ))
}

/// A node is watched no more (`Call::Remove`).
#[unsafe(no_mangle)]
pub extern "C" fn plcn_weigh_remove(weigh: &mut WeighHead, memory: &mut PlcnMemory, node: u8) -> u32
    ensures { (o : Reply) ×
        Made (held_in weigh.old memory.old) (weigh_call.Node (call.Remove node)) o
        (held_in weigh.new memory.new) ×
        (result ≡ number_of o) }
{
    number_told(make(weigh, memory, WeighCall::Node(Call::Remove(node))))
}

/// A frame (`Call::Frame`).
#[unsafe(no_mangle)]
pub extern "C" fn plcn_weigh_frame(
    weigh: &mut WeighHead,
    memory: &mut PlcnMemory,
    time_us: u64,
    bytes: &[u8],
    answer: &mut PlcnFrameAnswer,
) -> u32
    ensures { (o : Reply) ×
        Made (held_in weigh.old memory.old) (weigh_call.Node (call.Frame time_us bytes.entry)) o
        (held_in weigh.new memory.new) ×
        (result ≡ number_of o) × (answer.new ≡ frame_told o answer.old) }
{
    frame_told(
        make(
            weigh,
            memory,
            WeighCall::Node(Call::Frame {
                time: time_us,
                bytes,
            }),
        ),
        answer,
    )
}

/// A recipe is loaded (`WeighCall::LoadRecipe`).
#[unsafe(no_mangle)]
pub extern "C" fn plcn_weigh_load_recipe(
    weigh: &mut WeighHead,
    memory: &mut PlcnMemory,
    components: &[Component],
) -> u32
    ensures { (o : Reply) ×
        Made (held_in weigh.old memory.old) (weigh_call.LoadRecipe components.entry) o
        (held_in weigh.new memory.new) ×
        (result ≡ number_of o) }
{
    number_told(make(weigh, memory, WeighCall::LoadRecipe(components)))
}

/// The weight for a place (`WeighHead::weight`), with its refusal.
#[unsafe(no_mangle)]
pub extern "C" fn plcn_weigh_weight(weigh: &WeighHead, place: u64, grams: &mut u16) -> u32
    ensures { (r : Result ℕ Refusal) ×
        (weight_said r ≡ weight_told (head_of weigh.now.node).nmt.current_state
        weigh.now.places place) ×
        (result ≡ number_of r) × (grams.new ≡ sent (λ g. g) r grams.old) }
{
    match weigh.weight(place as usize) {
        Ok(weight) => {
            *grams = weight;
            0
        }
        Err(refusal) => u32::from(refusal.number()),
    }
}

/// The SoC between two readings of a clock, of its node (`node::range::soc_range`).
#[unsafe(no_mangle)]
pub extern "C" fn plcn_weigh_range(
    weigh: &WeighHead,
    earliest_us: u64,
    latest_us: u64,
    answer: &mut PlcnRangeAnswer,
) -> u32
    ensures { (r : Result SocVerdict Refusal) ×
        Reading weigh.now.node (plain.range earliest_us latest_us) (range_said r) ×
        (result ≡ number_of r) × (answer.new ≡ sent c_range r answer.old) }
{
    send(soc_range(weigh.node(), earliest_us, latest_us), answer)
}

/// The margin at a reading of a clock, of its node (`node::range::soc_margin`).
#[unsafe(no_mangle)]
pub extern "C" fn plcn_weigh_margin(
    weigh: &WeighHead,
    time_us: u64,
    answer: &mut PlcnMarginAnswer,
) -> u32
    ensures { (r : Result ℤ Refusal) ×
        Reading weigh.now.node (plain.margin time_us) (margin_said r) ×
        (result ≡ number_of r) × (answer.new ≡ sent c_margin r answer.old) }
{
    send(soc_margin(weigh.node(), time_us), answer)
}

/// When the next tick is due (`due::words::next_due`).
#[unsafe(no_mangle)]
pub extern "C" fn plcn_weigh_next_due(
    weigh: &WeighHead,
    memory: &PlcnMemory,
    answer: &mut PlcnDueAnswer,
) -> u32
    ensures { let r = next_due weigh.now.node (run_of memory.now.run) in
        (result ≡ number_of r) × (answer.new ≡ sent c_due r answer.old) }
{
    let run = &memory.run;
    send(next_due(weigh.node(), &run.place, run.number), answer)
}

/// A copy of its node's words.
#[unsafe(no_mangle)]
pub extern "C" fn plcn_weigh_head(weigh: &WeighHead, head: &mut Head) -> u32
    ensures copied { head.new ≡ weigh.now.node }
    ensures taken { result ≡ 0 }
{
    *head = *weigh.node();
    0
}

/// A copy of its places.
#[unsafe(no_mangle)]
pub extern "C" fn plcn_weigh_places(weigh: &WeighHead, places: &mut Places) -> u32
    ensures copied { places.new ≡ weigh.now.places }
    ensures taken { result ≡ 0 }
{
    *places = weigh.places();
    0
}
