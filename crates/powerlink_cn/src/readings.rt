//! Entries, frames, bits and numbers.
ghost use Rattle.std.specs.Prelude.{◌≡◌, ℕ};
ghost use Rattle.entries.specs.Ring.{nth};
ghost use Rattle.std.specs.List.{slice_get};
ghost use Rattle.std.specs.declared.result.Result.{Result};
ghost use Rattle.types.specs.declared.refusals.Refusal.{Refusal};
ghost use Rattle.types.specs.declared.frame.error.kinds.DllErrorKind.{DllErrorKind};
ghost use Rattle.types.specs.States.{read_state, state_number};
ghost use Rattle.types.specs.Events.{read_command, command_number};
ghost use Rattle.types.specs.Kinds.{kind_said, kind_behind, kind_place};
ghost use Rattle.entries.specs.declared.status_response.ErrorEntry.{ErrorEntry};
ghost use Rattle.entries.specs.Desk.{read_said, read_reply};
ghost use Rattle.entries.specs.Queue.{waiting};
ghost use Rattle.entries.specs.History.{history as recorded};
ghost use Rattle.head.specs.Words.{queue_of, history_of};
ghost use Rattle.watched.specs.Watched.{run};
ghost use Rattle.bitmap.specs.Bitmap.{BitsWritten};
ghost use Rattle.frames.specs.Frame.{read_frame};
ghost use Rattle.powerlink_cn.specs.Answers.{number_of, sent};
ghost use Rattle.powerlink_cn.specs.Entries.{c_entry, read_entry, c_handed_out};
ghost use Rattle.powerlink_cn.specs.Runs.{run_of};
ghost use Rattle.powerlink_cn.specs.Readings.{WroteEntry, c_frame_read, c_steps, reset_named};
ghost use Rattle.powerlink_cn.specs.Readings.{state_or_zero, range_or_zero, service_number};
ghost use Rattle.powerlink_cn.specs.Readings.{message_command};

use crate::answers::{number_of, send};
use crate::entry::{PlcnEntry, PlcnHandedOut};
use crate::run::PlcnRun;
use bitmap::bitmap;
use entries::desk::{read_at, write_at};
use entries::sizes::{HistoryBytes, QueueBytes};
use frames::{C_DLL_ASND_NMTCOMMAND, Frame, Message, Service};
use head::memory::{history_of, queue_of};
use head::state::Head;
use lent::bits::bitmap as bitmap_of_places;
use nmt::state_machine::{IndexRange, ResetSequence};
use types::frame::error::kinds::DllErrorKind;
use types::nmt::events::NmtStateCommand;
use types::nmt::states::NmtState;
use types::refusals::Refusal;
use watched::nodes::WatchedNode;

/// What is read of a frame.
#[repr(C)]
#[derive(Clone, Copy, PartialEq, Eq)]
pub struct PlcnFrame {
    /// The number of its message type.
    pub message: u8,
    /// The number of the node that it is for; 255 means every node.
    pub destination: u8,
    /// The number of the node that sent it.
    pub source: u8,
    /// Of an ASnd its service, else 0.
    pub service: u8,
    /// Of service 4 the number of its state command, else 0.
    pub command: u8,
}

/// The watched nodes as bits.
#[repr(C)]
#[derive(Clone, Copy, PartialEq, Eq)]
pub struct PlcnBitmap {
    /// Node n is bit n % 8 of byte n / 8.
    pub byte: [u8; 32],
    /// How many bits are set.
    pub nodes: u32,
}

/// A range of indexes of the object dictionary, both included.
#[repr(C)]
#[derive(Clone, Copy, PartialEq, Eq)]
pub struct PlcnIndexRange {
    pub first: u16,
    pub last: u16,
}

/// What a reset passes; zeros behind the counts.
#[repr(C)]
#[derive(Clone, Copy, PartialEq, Eq)]
pub struct PlcnResetSteps {
    /// How many states it enters.
    pub states: u8,
    /// The numbers of them, in order.
    pub state: [u8; 5],
    /// How many ranges are to be restored.
    pub ranges: u8,
    /// They, in order.
    pub range: [PlcnIndexRange; 3],
}

// The service of a message, or 0.
fn service_number(message: Message) -> u8
    ensures { result ≡ service_number message }
{
    match message {
        Message::ASnd(Service::NmtCommand(_)) => C_DLL_ASND_NMTCOMMAND,
        Message::ASnd(Service::Other(service)) => service,
        _ => 0,
    }
}

// The state command of a message, or 0.
fn message_command(message: Message) -> u8
    ensures { result ≡ message_command message }
{
    match message {
        Message::ASnd(Service::NmtCommand(command)) => command.as_u8(),
        _ => 0,
    }
}

/// What is read of a frame, for C.
impl From<Frame> for PlcnFrame {
    ghost from_gives = { λ f c. c ≡ c_frame_read f };

    fn from(frame: Frame) -> Self {
        PlcnFrame {
            message: frame.message.message_type().as_u8(),
            destination: frame.destination,
            source: frame.source,
            service: service_number(frame.message),
            command: message_command(frame.message),
        }
    }
}

/// The entry of a queue by its place from the oldest (`EmergencyQueue::get`).
#[unsafe(no_mangle)]
pub extern "C" fn plcn_queue_entry(
    head: &Head,
    queue: &QueueBytes,
    index: u64,
    answer: &mut PlcnHandedOut,
) -> u32
    ensures told { answer.new ≡ c_handed_out (nth (waiting queue.now (queue_of head.now)) index) }
    ensures taken { result ≡ 0 }
{
    *answer = PlcnHandedOut::from(queue_of(head).get(queue, index as usize));
    0
}

/// The entry of a history by its place from the newest (`ErrorHistory::get`).
#[unsafe(no_mangle)]
pub extern "C" fn plcn_history_entry(
    head: &Head,
    history: &HistoryBytes,
    index: u64,
    answer: &mut PlcnHandedOut,
) -> u32
    ensures told { answer.new ≡
        c_handed_out (nth (recorded history.now (history_of head.now)) index) }
    ensures taken { result ≡ 0 }
{
    *answer = PlcnHandedOut::from(history_of(head).get(history, index as usize));
    0
}

/// An entry is written at a place of a buffer (`entries::desk::write_at`), with its refusals behind
/// UnknownNumber for its mode.
#[unsafe(no_mangle)]
pub extern "C" fn plcn_entry_write(buffer: &mut [u8], place: u64, entry: &PlcnEntry) -> u32
    ensures { WroteEntry buffer.old place (read_entry entry.now) result buffer.new }
{
    match entry.read() {
        Ok(entry) => number_of(write_at(buffer, place, entry)),
        Err(refusal) => u32::from(refusal.number()),
    }
}

/// The entry at a place of a buffer (`entries::desk::read_at`), with its refusal.
#[unsafe(no_mangle)]
pub extern "C" fn plcn_entry_read(buffer: &[u8], place: u64, entry: &mut PlcnEntry) -> u32
    ensures { (r : Result ErrorEntry Refusal) × (read_said r ≡ read_reply buffer.now place) ×
        (result ≡ number_of r) × (entry.new ≡ sent c_entry r entry.old) }
{
    send(read_at(buffer, place), entry)
}

/// A frame is read (`Frame::read`), with its refusals.
#[unsafe(no_mangle)]
pub extern "C" fn plcn_frame_read(bytes: &[u8], frame: &mut PlcnFrame) -> u32
    ensures { let r = read_frame bytes.now in
        (result ≡ number_of r) × (frame.new ≡ sent c_frame_read r frame.old) }
{
    send(Frame::read(bytes), frame)
}

/// The watched nodes as bits (`bitmap::bitmap`), with its refusal.
#[unsafe(no_mangle)]
pub extern "C" fn plcn_bitmap(run: &PlcnRun, answer: &mut PlcnBitmap) -> u32
    ensures { (r : Result ℕ Refusal) ×
        BitsWritten (run_of run.now) answer.old.byte r answer.new.byte ×
        (result ≡ number_of r) × (answer.new.nodes ≡ sent (λ n. n) r answer.old.nodes) }
{
    match bitmap(&run.place, run.number, &mut answer.byte) {
        Ok(nodes) => {
            answer.nodes = nodes;
            0
        }
        Err(refusal) => u32::from(refusal.number()),
    }
}

/// The watched nodes as bits (`lent::bits::bitmap`), with its refusal.
#[unsafe(no_mangle)]
pub extern "C" fn plcn_bitmap_over(
    places: &[WatchedNode],
    number: usize,
    answer: &mut PlcnBitmap,
) -> u32
    ensures { (r : Result ℕ Refusal) ×
        BitsWritten (run places.now number) answer.old.byte r answer.new.byte ×
        (result ≡ number_of r) × (answer.new.nodes ≡ sent (λ n. n) r answer.old.nodes) }
{
    match bitmap_of_places(places, number, &mut answer.byte) {
        Ok(nodes) => {
            answer.nodes = nodes;
            0
        }
        Err(refusal) => u32::from(refusal.number()),
    }
}

// The reset that has a number; no reset where none has it.
fn reset_named(number: u32) -> ResetSequence
    ensures { result ≡ reset_named number }
{
    match number {
        1 => ResetSequence::Whole,
        2 => ResetSequence::Node,
        3 => ResetSequence::Communication,
        4 => ResetSequence::Configuration,
        _ => ResetSequence::None,
    }
}

// The number of the state at a place, or 0.
fn state_or_zero(states: &[NmtState], place: usize) -> u8
    ensures { result ≡ state_or_zero (slice_get states.now place) }
{
    match states.get(place) {
        Some(state) => state.as_u8(),
        None => 0,
    }
}

// The range at a place, or zeros.
fn range_or_zero(ranges: &[IndexRange], place: usize) -> PlcnIndexRange
    ensures { result ≡ range_or_zero (slice_get ranges.now place) }
{
    match ranges.get(place) {
        Some(range) => PlcnIndexRange {
            first: range.first,
            last: range.last,
        },
        None => PlcnIndexRange { first: 0, last: 0 },
    }
}

/// What a reset passes (`ResetSequence::entered`, `ResetSequence::restored`).
#[unsafe(no_mangle)]
pub extern "C" fn plcn_reset_steps(reset: u32, steps: &mut PlcnResetSteps) -> u32
    ensures told { steps.new ≡ c_steps (reset_named reset) }
    ensures taken { result ≡ 0 }
{
    let sequence = reset_named(reset);
    let entered = sequence.entered();
    let restored = sequence.restored();
    *steps = PlcnResetSteps {
        states: entered.len() as u8,
        state: [
            state_or_zero(entered, 0),
            state_or_zero(entered, 1),
            state_or_zero(entered, 2),
            state_or_zero(entered, 3),
            state_or_zero(entered, 4),
        ],
        ranges: restored.len() as u8,
        range: [
            range_or_zero(restored, 0),
            range_or_zero(restored, 1),
            range_or_zero(restored, 2),
        ],
    };
    0
}

/// The NMT state of a number (`NmtState::try_from`), with its refusal.
#[unsafe(no_mangle)]
pub extern "C" fn plcn_read_state(number: u64, state: &mut u8) -> u32
    ensures { let r = read_state number in
        (result ≡ number_of r) × (state.new ≡ sent state_number r state.old) }
{
    match NmtState::try_from(number) {
        Ok(read) => {
            *state = read.as_u8();
            0
        }
        Err(refusal) => u32::from(refusal.number()),
    }
}

/// The state command of a number (`NmtStateCommand::try_from`), with its refusal.
#[unsafe(no_mangle)]
pub extern "C" fn plcn_read_command(number: u64, command: &mut u8) -> u32
    ensures { let r = read_command number in
        (result ≡ number_of r) × (command.new ≡ sent command_number r command.old) }
{
    match NmtStateCommand::try_from(number) {
        Ok(read) => {
            *command = read.as_u8();
            0
        }
        Err(refusal) => u32::from(refusal.number()),
    }
}

/// The kind of error behind a code (`DllErrorKind::from_error_code`), with its refusal.
#[unsafe(no_mangle)]
pub extern "C" fn plcn_read_code(code: u64, kind: &mut u8) -> u32
    ensures { (r : Result DllErrorKind Refusal) × (kind_said r ≡ kind_behind code) ×
        (result ≡ number_of r) × (kind.new ≡ sent kind_place r kind.old) }
{
    match DllErrorKind::from_error_code(code) {
        Ok(read) => {
            *kind = read.place();
            0
        }
        Err(refusal) => u32::from(refusal.number()),
    }
}
