//! The errors of the data link layer (EPSG DS 301, Section 4.7), and what they ask of NMT.
ghost use Rattle.std.specs.Prelude.{◌≡◌};
ghost use Rattle.std.specs.Iterator.{YieldsFirst, item_count};
ghost use Rattle.types.specs.Errors.{action_number, error_kind_of, error_code, read_error};
ghost use Rattle.types.specs.Errors.{reported};
ghost use Rattle.types.specs.Kinds.{kind_place};

use crate::frame::error::kinds::DllErrorKind;
use crate::refusals::Refusal;
use crate::types::NodeId;

/// What NMT is asked for after an error.
#[derive(Clone, Copy, Debug, PartialEq, Eq)]
pub enum NmtAction {
    None,
    ResetCommunication,
    ResetNode(NodeId),
}

impl NmtAction {
    /// The action's place in the enum, from 0; the node that it carries is not in it.
    pub fn number(self) -> u8
        ensures { result ≡ action_number self }
    {
        match self {
            NmtAction::None => 0,
            NmtAction::ResetCommunication => 1,
            NmtAction::ResetNode(_) => 2,
        }
    }
}

/// An error of the data link layer, with its node, or with its state and event.
#[derive(Clone, Copy, Debug, PartialEq, Eq)]
pub enum DllError {
    LossOfLink,
    BadPhysicalMode,
    MacBuffer,
    Crc,
    Collision,
    InvalidFormat,
    LossOfSoc,
    LossOfSoa,
    LossOfPreq,
    LossOfPres { node_id: NodeId },
    LossOfStatusRes { node_id: NodeId },
    CycleTimeExceeded,
    LatePres { node_id: NodeId },
    SoCJitter,
    MsWaitSoc,
    MultipleMn,
    AddressConflict,
    MevAsndTimeout,
    UnexpectedEventInState { state: u8, event: u8 },
    PdoMapVersion { node_id: NodeId },
    PdoPayloadShort { node_id: NodeId },
    HeartbeatTimeout { node_id: NodeId },
}

/// The errors that one event reports: at most two, in order.
#[derive(Clone, Copy, Debug, PartialEq, Eq)]
pub enum DllErrors {
    None,
    One(DllError),
    Two(DllError, DllError),
}

/// The errors that are left of those of one event, in their order.
#[derive(Clone, Drop)]
pub struct Reported(DllErrors);

impl Iterator for Reported {
    type Item = DllError;

    ghost next_gives = { YieldsFirst (λ s. reported s.0) };

    ghost remaining = { item_count (λ s. reported s.0) };

    fn next(&mut self) -> Option<DllError> {
        match self.0 {
            DllErrors::None => None,
            DllErrors::One(last) => {
                self.0 = DllErrors::None;
                Some(last)
            }
            DllErrors::Two(first, last) => {
                self.0 = DllErrors::One(last);
                Some(first)
            }
        }
    }
}

impl IntoIterator for DllErrors {
    type Item = DllError;

    type IntoIter = Reported;

    fn into_iter(self) -> Reported
        ensures { result.0 ≡ self }
    {
        Reported(self)
    }
}

impl DllError {
    /// The number of its kind: the error's place in the enum, from 0.
    pub fn kind(self) -> u8
        ensures { result ≡ error_kind_of self }
    {
        DllErrorKind::from(self).place()
    }

    /// The code of its kind.
    pub fn to_error_code(self) -> u16
        ensures { result ≡ error_code self }
    {
        DllErrorKind::from(self).to_error_code()
    }

    /// An error from its kind's number; `a` is its node, or `a` and `b` are its state and event.
    /// What a kind does not carry is not looked at. Refused by UnknownNumber where no kind has the
    /// number, then by NodeNumber where it carries a node and `a` is none.
    pub fn try_from(kind: u64, a: u8, b: u8) -> Result<DllError, Refusal>
        ensures { result ≡ read_error kind a b }
    {
        DllError::of_kind(DllErrorKind::try_from(kind)?, a, b)
    }

    #[tactic(auto, unfolding(crate::specs::Errors::read_error, crate::specs::Types::read_node))]
    fn of_kind(kind: DllErrorKind, a: u8, b: u8) -> Result<DllError, Refusal>
        ensures { result ≡ read_error (kind_place kind) a b }
    {
        match kind {
            DllErrorKind::LossOfLink => Ok(DllError::LossOfLink),
            DllErrorKind::BadPhysicalMode => Ok(DllError::BadPhysicalMode),
            DllErrorKind::MacBuffer => Ok(DllError::MacBuffer),
            DllErrorKind::Crc => Ok(DllError::Crc),
            DllErrorKind::Collision => Ok(DllError::Collision),
            DllErrorKind::InvalidFormat => Ok(DllError::InvalidFormat),
            DllErrorKind::LossOfSoc => Ok(DllError::LossOfSoc),
            DllErrorKind::LossOfSoa => Ok(DllError::LossOfSoa),
            DllErrorKind::LossOfPreq => Ok(DllError::LossOfPreq),
            DllErrorKind::LossOfPres => Ok(DllError::LossOfPres {
                node_id: NodeId::try_from(a)?,
            }),
            DllErrorKind::LossOfStatusRes => Ok(DllError::LossOfStatusRes {
                node_id: NodeId::try_from(a)?,
            }),
            DllErrorKind::CycleTimeExceeded => Ok(DllError::CycleTimeExceeded),
            DllErrorKind::LatePres => Ok(DllError::LatePres {
                node_id: NodeId::try_from(a)?,
            }),
            DllErrorKind::SoCJitter => Ok(DllError::SoCJitter),
            DllErrorKind::MsWaitSoc => Ok(DllError::MsWaitSoc),
            DllErrorKind::MultipleMn => Ok(DllError::MultipleMn),
            DllErrorKind::AddressConflict => Ok(DllError::AddressConflict),
            DllErrorKind::MevAsndTimeout => Ok(DllError::MevAsndTimeout),
            DllErrorKind::UnexpectedEventInState => Ok(DllError::UnexpectedEventInState {
                state: a,
                event: b,
            }),
            DllErrorKind::PdoMapVersion => Ok(DllError::PdoMapVersion {
                node_id: NodeId::try_from(a)?,
            }),
            DllErrorKind::PdoPayloadShort => Ok(DllError::PdoPayloadShort {
                node_id: NodeId::try_from(a)?,
            }),
            DllErrorKind::HeartbeatTimeout => Ok(DllError::HeartbeatTimeout {
                node_id: NodeId::try_from(a)?,
            }),
        }
    }
}
