//! The errors of an answer as the programs print them: each by its kind's number and what it
//! carries.
ghost use Rattle.std.specs.Prelude.{Some};
ghost use Rattle.forms.specs.Errors.{error_text, errors_text};

use crate::hex::HexByte;
use std::fmt;
use std::fmt::Display;
use types::frame::error::types::{DllError, DllErrors};

/// One error, as ` (18 0x1C 7)` or ` (21 240)`: behind the kind's number its state in hexadecimal
/// and its event, or its node.
#[derive(Clone, Copy)]
pub struct ErrorForm(pub DllError);

/// All errors of an answer, one behind another.
#[derive(Clone, Copy)]
pub struct ErrorsForm(pub DllErrors);

impl Display for ErrorForm {
    ghost output = { λ e. Some (error_text e.0) };

    fn fmt<W: fmt::Write>(&self, f: &mut fmt::Formatter<W>) -> fmt::Result {
        let kind = self.0.kind();
        match self.0 {
            DllError::UnexpectedEventInState { state, event } => {
                write!(f, " ({kind} {} {event})", HexByte(state))
            }
            DllError::LossOfPres { node_id }
            | DllError::LossOfStatusRes { node_id }
            | DllError::LatePres { node_id }
            | DllError::PdoMapVersion { node_id }
            | DllError::PdoPayloadShort { node_id }
            | DllError::HeartbeatTimeout { node_id } => write!(f, " ({kind} {})", node_id.0),
            _ => write!(f, " ({kind})"),
        }
    }
}

impl Display for ErrorsForm {
    ghost output = { λ e. Some (errors_text e.0) };

    fn fmt<W: fmt::Write>(&self, f: &mut fmt::Formatter<W>) -> fmt::Result {
        match self.0 {
            DllErrors::None => Ok(()),
            DllErrors::One(a) => write!(f, "{}", ErrorForm(a)),
            DllErrors::Two(a, b) => write!(f, "{}{}", ErrorForm(a), ErrorForm(b)),
        }
    }
}
