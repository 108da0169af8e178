//! States, events, kinds, codes and refusals as they are printed: by number or by name.
ghost use Rattle.std.specs.Prelude.{◌≡◌, Some, []};
ghost use Rattle.types.specs.Names.{kind_name};
ghost use Rattle.types.specs.Kinds.{read_kind};
ghost use Rattle.telling.specs.Styles.{state_form, cs_state_name, cs_state_form, command_form};
ghost use Rattle.telling.specs.Styles.{kind_form, refusal_form, code_name, code_form, name_or};
ghost use Rattle.telling.specs.Styles.{met_state, met_event, named_error, errors_form};

use crate::answers::Hex16;
use dll::cs_state_machine::DllCsState;
use forms::errors::ErrorsForm;
use forms::hex::HexByte;
use std::fmt;
use std::fmt::Display;
use types::frame::cs_state_machine::DllCsEvent;
use types::frame::error::kinds::DllErrorKind;
use types::frame::error::types::{DllError, DllErrors};
use types::nmt::events::{NmtEvent, NmtStateCommand};
use types::nmt::states::NmtState;
use types::refusals::Refusal;

/// How what has a number and a name is printed.
#[derive(Clone, Copy)]
pub enum Style {
    Numbers,
    Names,
}

/// A machine, whose states and events an unexpected event names.
#[derive(Clone, Copy)]
pub enum Machine {
    Nmt,
    Dll,
}

/// An NMT state.
#[derive(Clone, Copy)]
pub(crate) struct StateForm(pub(crate) Style, pub(crate) NmtState);

impl Display for StateForm {
    ghost output = { λ x. Some (state_form x.0 x.1) };

    fn fmt<W: fmt::Write>(&self, f: &mut fmt::Formatter<W>) -> fmt::Result {
        match self.0 {
            Style::Numbers => write!(f, "{}", HexByte(self.1.as_u8())),
            Style::Names => write!(f, "{}", self.1),
        }
    }
}

// The name of a DLL state.
fn cs_state_name(state: DllCsState) -> &'static str
    ensures { result.now ≡ cs_state_name state }
{
    match state {
        DllCsState::NonCyclic => "NonCyclic",
        DllCsState::WaitSoc => "WaitSoc",
        DllCsState::WaitPreq => "WaitPreq",
        DllCsState::WaitSoa => "WaitSoa",
    }
}

/// A DLL state.
#[derive(Clone, Copy)]
pub(crate) struct CsStateForm(pub(crate) Style, pub(crate) DllCsState);

impl Display for CsStateForm {
    ghost output = { λ x. Some (cs_state_form x.0 x.1) };

    fn fmt<W: fmt::Write>(&self, f: &mut fmt::Formatter<W>) -> fmt::Result {
        match self.0 {
            Style::Numbers => write!(f, "{}", self.1.as_u8()),
            Style::Names => f.write_str(cs_state_name(self.1)),
        }
    }
}

/// A state command.
#[derive(Clone, Copy)]
pub(crate) struct CommandForm(pub(crate) Style, pub(crate) NmtStateCommand);

impl Display for CommandForm {
    ghost output = { λ x. Some (command_form x.0 x.1) };

    fn fmt<W: fmt::Write>(&self, f: &mut fmt::Formatter<W>) -> fmt::Result {
        match self.0 {
            Style::Numbers => write!(f, "{}", HexByte(self.1.as_u8())),
            Style::Names => write!(f, "{}", self.1),
        }
    }
}

/// A kind of error.
#[derive(Clone, Copy)]
pub(crate) struct KindForm(pub(crate) Style, pub(crate) DllErrorKind);

impl Display for KindForm {
    ghost output = { λ x. Some (kind_form x.0 x.1) };

    fn fmt<W: fmt::Write>(&self, f: &mut fmt::Formatter<W>) -> fmt::Result {
        match self.0 {
            Style::Numbers => write!(f, "{}", self.1.place()),
            Style::Names => f.write_str(self.1.name()),
        }
    }
}

/// A refusal.
#[derive(Clone, Copy)]
pub(crate) struct RefusalForm(pub(crate) Style, pub(crate) Refusal);

impl Display for RefusalForm {
    ghost output = { λ x. Some (refusal_form x.0 x.1) };

    fn fmt<W: fmt::Write>(&self, f: &mut fmt::Formatter<W>) -> fmt::Result {
        let number = self.1.number();
        match self.0 {
            Style::Numbers => write!(f, "{number}"),
            Style::Names => write!(f, "{number}: {}", self.1),
        }
    }
}

// The code of an entry by its name, or as a number where it names no single kind.
#[derive(Clone, Copy)]
struct CodeName(u16);

#[tactic(auto, unfolding(crate::specs::Styles::code_name))]
impl Display for CodeName {
    ghost output = { λ x. Some (code_name x.0) };

    fn fmt<W: fmt::Write>(&self, f: &mut fmt::Formatter<W>) -> fmt::Result {
        f.write_str(match self.0 {
            0x8161 => "E_DLL_BAD_PHYS_MODE",
            0x8163 => "E_DLL_COLLISION_TH",
            0x8164 => "E_DLL_CRC_TH",
            0x8165 => "E_DLL_LOSS_OF_LINK",
            0x8166 => "E_DLL_MAC_BUFFER",
            0x8210 => "E_PDO_SHORT_RX",
            0x8211 => "E_PDO_MAP_VERS",
            0x8233 => "E_DLL_CYCLE_EXCEED_TH",
            0x8235 => "E_DLL_JITTER_TH",
            0x8236 => "E_DLL_LATE_PRES_TH",
            0x8241 => "E_DLL_INVALID_FORMAT",
            0x8242 => "E_DLL_LOSS_PREQ_TH",
            0x8243 => "E_DLL_LOSS_PRES_TH",
            0x8244 => "E_DLL_LOSS_SOA_TH",
            0x8245 => "E_DLL_LOSS_SOC_TH",
            0x8246 => "E_DLL_LOSS_STATUSRES_TH",
            0x8250 => "E_NMT_HEARTBEAT_TH",
            code => return write!(f, "{}", Hex16(code)),
        })
    }
}

/// The code of an entry.
#[derive(Clone, Copy)]
pub(crate) struct CodeForm(pub(crate) Style, pub(crate) u16);

impl Display for CodeForm {
    ghost output = { λ x. Some (code_form x.0 x.1) };

    fn fmt<W: fmt::Write>(&self, f: &mut fmt::Formatter<W>) -> fmt::Result {
        match self.0 {
            Style::Numbers => write!(f, "{}", Hex16(self.1)),
            Style::Names => write!(f, "{}", CodeName(self.1)),
        }
    }
}

// The state in which a machine met an event that it did not expect, by its number.
#[derive(Clone, Copy)]
struct MetState(Machine, u8);

impl Display for MetState {
    ghost output = { λ x. Some (met_state x.0 x.1) };

    fn fmt<W: fmt::Write>(&self, f: &mut fmt::Formatter<W>) -> fmt::Result {
        let number = u64::from(self.1);
        match self.0 {
            Machine::Nmt => match NmtState::try_from(number) {
                Ok(state) => write!(f, "{state}"),
                Err(_) => write!(f, "{}", HexByte(self.1)),
            },
            Machine::Dll => match DllCsState::try_from(number) {
                Ok(state) => f.write_str(cs_state_name(state)),
                Err(_) => write!(f, "{}", HexByte(self.1)),
            },
        }
    }
}

// That event, by its number.
#[derive(Clone, Copy)]
struct MetEvent(Machine, u8);

impl Display for MetEvent {
    ghost output = { λ x. Some (met_event x.0 x.1) };

    fn fmt<W: fmt::Write>(&self, f: &mut fmt::Formatter<W>) -> fmt::Result {
        let number = u64::from(self.1);
        match self.0 {
            Machine::Nmt => match NmtEvent::try_from(number) {
                Ok(event) => write!(f, "{event}"),
                Err(_) => write!(f, "{number}"),
            },
            Machine::Dll => match DllCsEvent::try_from(number) {
                Ok(event) => write!(f, "{event}"),
                Err(_) => write!(f, "{number}"),
            },
        }
    }
}

// The name of a kind of error, by its place.
#[derive(Clone, Copy)]
struct KindName(u8);

impl Display for KindName {
    ghost output = { λ x. Some (name_or kind_name [] (read_kind x.0)) };

    fn fmt<W: fmt::Write>(&self, f: &mut fmt::Formatter<W>) -> fmt::Result {
        match DllErrorKind::try_from(u64::from(self.0)) {
            Ok(kind) => f.write_str(kind.name()),
            Err(_) => Ok(()),
        }
    }
}

// An error by the name of its kind, with what it carries.
#[derive(Clone, Copy)]
struct NamedError(Machine, DllError);

impl Display for NamedError {
    ghost output = { λ x. Some (named_error x.0 x.1) };

    fn fmt<W: fmt::Write>(&self, f: &mut fmt::Formatter<W>) -> fmt::Result {
        let NamedError(machine, error) = *self;
        let name = KindName(error.kind());
        match error {
            DllError::UnexpectedEventInState { state, event } => write!(
                f,
                " ({name} {} {})",
                MetState(machine, state),
                MetEvent(machine, event)
            ),
            DllError::LossOfPres { node_id }
            | DllError::LossOfStatusRes { node_id }
            | DllError::LatePres { node_id }
            | DllError::PdoMapVersion { node_id }
            | DllError::PdoPayloadShort { node_id }
            | DllError::HeartbeatTimeout { node_id } => write!(f, " ({name} {})", node_id.0),
            _ => write!(f, " ({name})"),
        }
    }
}

/// The errors of an answer, one behind another.
#[derive(Clone, Copy)]
pub(crate) struct Errors(pub(crate) Style, pub(crate) Machine, pub(crate) DllErrors);

impl Display for Errors {
    ghost output = { λ x. Some (errors_form x.0 x.1 x.2) };

    fn fmt<W: fmt::Write>(&self, f: &mut fmt::Formatter<W>) -> fmt::Result {
        let Errors(style, machine, errors) = *self;
        if matches!(style, Style::Numbers) {
            return write!(f, "{}", ErrorsForm(errors));
        }
        match errors {
            DllErrors::None => Ok(()),
            DllErrors::One(a) => write!(f, "{}", NamedError(machine, a)),
            DllErrors::Two(a, b) => {
                write!(f, "{}{}", NamedError(machine, a), NamedError(machine, b))
            }
        }
    }
}
