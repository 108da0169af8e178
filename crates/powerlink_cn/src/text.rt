//! Texts for C: as many bytes as there is room for, with a 0 behind them.
ghost use Rattle.std.specs.Prelude.{◌≡◌};
ghost use Rattle.types.specs.Names.{state_name, event_name, command_name, cs_event_name};
ghost use Rattle.types.specs.Names.{kind_name};
ghost use Rattle.types.specs.States.{read_state};
ghost use Rattle.types.specs.Events.{read_event, read_command};
ghost use Rattle.types.specs.CsEvents.{read_cs_event};
ghost use Rattle.types.specs.Kinds.{read_kind};
ghost use Rattle.types.specs.Refusals.{refusal_text};
ghost use Rattle.powerlink_cn.specs.Texts.{c_text, text_of, name_of, refusal_named};

use types::frame::cs_state_machine::DllCsEvent;
use types::frame::error::kinds::DllErrorKind;
use types::nmt::events::{NmtEvent, NmtStateCommand};
use types::nmt::states::NmtState;
use types::refusals::Refusal;

/// The bytes of a text, with the 0 behind it.
pub const TEXT_BYTES: usize = 96;

/// A text; 0 stands in each byte behind it.
#[repr(C)]
#[derive(Clone, Copy, PartialEq, Eq)]
pub struct PlcnText {
    /// Its bytes.
    pub text: [u8; TEXT_BYTES],
}

impl PlcnText {
    /// A text of at most 95 bytes; of a longer one the first 95.
    pub fn new(text: &str) -> Self
        ensures { result ≡ c_text text.now }
    {
        let bytes = text.as_bytes();
        let length = bytes.len().min(TEXT_BYTES - 1);
        let mut text = [0; TEXT_BYTES];
        text[..length].copy_from_slice(&bytes[..length]);
        PlcnText { text }
    }
}

// The refusal that has a number.
fn refusal_named(number: u32) -> Option<Refusal>
    ensures { result ≡ refusal_named number }
{
    match number {
        1 => Some(Refusal::NodeNumber),
        2 => Some(Refusal::QueueCapacity),
        3 => Some(Refusal::WatchedNodes),
        4 => Some(Refusal::UnknownNumber),
        5 => Some(Refusal::TimeLimit),
        6 => Some(Refusal::BeforeHeard),
        7 => Some(Refusal::NotWatched),
        8 => Some(Refusal::ReadyToOperate),
        9 => Some(Refusal::AllWatched),
        10 => Some(Refusal::AlreadyWatched),
        11 => Some(Refusal::BufferTooShort),
        12 => Some(Refusal::ProfileLimit),
        13 => Some(Refusal::NoSingleKind),
        14 => Some(Refusal::ThresholdLimit),
        15 => Some(Refusal::RecipeLimits),
        16 => Some(Refusal::NotPreOperational2),
        17 => Some(Refusal::NoWeight),
        18 => Some(Refusal::FrameTooShort),
        19 => Some(Refusal::OtherEtherType),
        20 => Some(Refusal::OtherMessageType),
        21 => Some(Refusal::EarliestAfterLatest),
        _ => None,
    }
}

/// The version: 10000 * major + 100 * minor + patch.
#[unsafe(no_mangle)]
pub extern "C" fn plcn_version() -> u32
    ensures { result ≡ 100 }
{
    100
}

/// Why a call is refused (`Refusal::text`).
#[unsafe(no_mangle)]
pub extern "C" fn plcn_refusal_text(number: u32) -> PlcnText
    ensures { result ≡ c_text (text_of refusal_text (refusal_named number)) }
{
    match refusal_named(number) {
        Some(refusal) => PlcnText::new(refusal.text()),
        None => PlcnText::new(""),
    }
}

/// The name of an NMT state (`NmtState::name`).
#[unsafe(no_mangle)]
pub extern "C" fn plcn_state_name(number: u32) -> PlcnText
    ensures { result ≡ c_text (name_of state_name (read_state number)) }
{
    match NmtState::try_from(u64::from(number)) {
        Ok(state) => PlcnText::new(state.name()),
        Err(_) => PlcnText::new(""),
    }
}

/// The name of an NMT event (`NmtEvent::name`).
#[unsafe(no_mangle)]
pub extern "C" fn plcn_event_name(number: u32) -> PlcnText
    ensures { result ≡ c_text (name_of event_name (read_event number)) }
{
    match NmtEvent::try_from(u64::from(number)) {
        Ok(event) => PlcnText::new(event.name()),
        Err(_) => PlcnText::new(""),
    }
}

/// The name of a state command (`NmtStateCommand::name`).
#[unsafe(no_mangle)]
pub extern "C" fn plcn_command_name(number: u32) -> PlcnText
    ensures { result ≡ c_text (name_of command_name (read_command number)) }
{
    match NmtStateCommand::try_from(u64::from(number)) {
        Ok(command) => PlcnText::new(command.name()),
        Err(_) => PlcnText::new(""),
    }
}

/// The name of a DLL event (`DllCsEvent::name`).
#[unsafe(no_mangle)]
pub extern "C" fn plcn_dll_event_name(number: u32) -> PlcnText
    ensures { result ≡ c_text (name_of cs_event_name (read_cs_event number)) }
{
    match DllCsEvent::try_from(u64::from(number)) {
        Ok(event) => PlcnText::new(event.name()),
        Err(_) => PlcnText::new(""),
    }
}

/// The name of a kind of error (`DllErrorKind::name`).
#[unsafe(no_mangle)]
pub extern "C" fn plcn_kind_name(number: u32) -> PlcnText
    ensures { result ≡ c_text (name_of kind_name (read_kind number)) }
{
    match DllErrorKind::try_from(u64::from(number)) {
        Ok(kind) => PlcnText::new(kind.name()),
        Err(_) => PlcnText::new(""),
    }
}
