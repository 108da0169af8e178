//! The kinds of DLL errors, without what an error carries: their places, their codes
//! (EPSG DS 301, Appendix 3.9), and the kind behind a code.
ghost use Rattle.std.specs.Prelude.{◌≡◌, Some};
ghost use Rattle.types.specs.Errors.{kind_of};
ghost use Rattle.types.specs.Kinds.{kind_place, kind_code, read_kind, kind_behind, kind_said};
ghost use Rattle.types.specs.Listing.{AllInOrder};
ghost use Rattle.types.specs.Names.{kind_name};

use crate::frame::error::types::DllError;
use crate::refusals::Refusal;
use std::fmt;
use std::fmt::Display;

/// A kind of error; numbered by its place, from 0.
#[derive(Clone, Copy, Debug, PartialEq, Eq)]
pub enum DllErrorKind {
    LossOfLink,
    BadPhysicalMode,
    MacBuffer,
    Crc,
    Collision,
    InvalidFormat,
    LossOfSoc,
    LossOfSoa,
    LossOfPreq,
    LossOfPres,
    LossOfStatusRes,
    CycleTimeExceeded,
    LatePres,
    SoCJitter,
    MsWaitSoc,
    MultipleMn,
    AddressConflict,
    MevAsndTimeout,
    UnexpectedEventInState,
    PdoMapVersion,
    PdoPayloadShort,
    HeartbeatTimeout,
}

/// The kind of an error, without what it carries.
impl From<DllError> for DllErrorKind {
    ghost from_gives = { λ e k. k ≡ kind_of e };

    fn from(error: DllError) -> Self {
        match error {
            DllError::LossOfLink => DllErrorKind::LossOfLink,
            DllError::BadPhysicalMode => DllErrorKind::BadPhysicalMode,
            DllError::MacBuffer => DllErrorKind::MacBuffer,
            DllError::Crc => DllErrorKind::Crc,
            DllError::Collision => DllErrorKind::Collision,
            DllError::InvalidFormat => DllErrorKind::InvalidFormat,
            DllError::LossOfSoc => DllErrorKind::LossOfSoc,
            DllError::LossOfSoa => DllErrorKind::LossOfSoa,
            DllError::LossOfPreq => DllErrorKind::LossOfPreq,
            DllError::LossOfPres { node_id: _ } => DllErrorKind::LossOfPres,
            DllError::LossOfStatusRes { node_id: _ } => DllErrorKind::LossOfStatusRes,
            DllError::CycleTimeExceeded => DllErrorKind::CycleTimeExceeded,
            DllError::LatePres { node_id: _ } => DllErrorKind::LatePres,
            DllError::SoCJitter => DllErrorKind::SoCJitter,
            DllError::MsWaitSoc => DllErrorKind::MsWaitSoc,
            DllError::MultipleMn => DllErrorKind::MultipleMn,
            DllError::AddressConflict => DllErrorKind::AddressConflict,
            DllError::MevAsndTimeout => DllErrorKind::MevAsndTimeout,
            DllError::UnexpectedEventInState { state: _, event: _ } => {
                DllErrorKind::UnexpectedEventInState
            }
            DllError::PdoMapVersion { node_id: _ } => DllErrorKind::PdoMapVersion,
            DllError::PdoPayloadShort { node_id: _ } => DllErrorKind::PdoPayloadShort,
            DllError::HeartbeatTimeout { node_id: _ } => DllErrorKind::HeartbeatTimeout,
        }
    }
}

/// Its name.
impl Display for DllErrorKind {
    ghost output = { λ x. Some (kind_name x) };

    fn fmt<W: fmt::Write>(&self, f: &mut fmt::Formatter<W>) -> fmt::Result {
        f.write_str(self.name())
    }
}

/// The kind at a place; refused by UnknownNumber where there is none.
#[tactic(auto, unfolding(crate::specs::Kinds::read_kind))]
impl TryFrom<u64> for DllErrorKind {
    type Error = Refusal;

    ghost try_from_gives = { λ n r. r ≡ read_kind n };

    fn try_from(value: u64) -> Result<Self, Refusal> {
        match value {
            0 => Ok(DllErrorKind::LossOfLink),
            1 => Ok(DllErrorKind::BadPhysicalMode),
            2 => Ok(DllErrorKind::MacBuffer),
            3 => Ok(DllErrorKind::Crc),
            4 => Ok(DllErrorKind::Collision),
            5 => Ok(DllErrorKind::InvalidFormat),
            6 => Ok(DllErrorKind::LossOfSoc),
            7 => Ok(DllErrorKind::LossOfSoa),
            8 => Ok(DllErrorKind::LossOfPreq),
            9 => Ok(DllErrorKind::LossOfPres),
            10 => Ok(DllErrorKind::LossOfStatusRes),
            11 => Ok(DllErrorKind::CycleTimeExceeded),
            12 => Ok(DllErrorKind::LatePres),
            13 => Ok(DllErrorKind::SoCJitter),
            14 => Ok(DllErrorKind::MsWaitSoc),
            15 => Ok(DllErrorKind::MultipleMn),
            16 => Ok(DllErrorKind::AddressConflict),
            17 => Ok(DllErrorKind::MevAsndTimeout),
            18 => Ok(DllErrorKind::UnexpectedEventInState),
            19 => Ok(DllErrorKind::PdoMapVersion),
            20 => Ok(DllErrorKind::PdoPayloadShort),
            21 => Ok(DllErrorKind::HeartbeatTimeout),
            _ => Err(Refusal::UnknownNumber),
        }
    }
}

impl DllErrorKind {
    /// All kinds, each once, in the order of the enum.
    pub const ALL: [DllErrorKind; 22] = [
        DllErrorKind::LossOfLink,
        DllErrorKind::BadPhysicalMode,
        DllErrorKind::MacBuffer,
        DllErrorKind::Crc,
        DllErrorKind::Collision,
        DllErrorKind::InvalidFormat,
        DllErrorKind::LossOfSoc,
        DllErrorKind::LossOfSoa,
        DllErrorKind::LossOfPreq,
        DllErrorKind::LossOfPres,
        DllErrorKind::LossOfStatusRes,
        DllErrorKind::CycleTimeExceeded,
        DllErrorKind::LatePres,
        DllErrorKind::SoCJitter,
        DllErrorKind::MsWaitSoc,
        DllErrorKind::MultipleMn,
        DllErrorKind::AddressConflict,
        DllErrorKind::MevAsndTimeout,
        DllErrorKind::UnexpectedEventInState,
        DllErrorKind::PdoMapVersion,
        DllErrorKind::PdoPayloadShort,
        DllErrorKind::HeartbeatTimeout,
    ];

    /// Law of `ALL`: each kind stands in it once, in the order of the enum.
    pub fn all_in_order()
        ensures { AllInOrder kind_place Self.ALL }
    {}

    /// The kind's place in the enum, from 0.
    pub fn place(self) -> u8
        ensures { result ≡ kind_place self }
    {
        self as u8
    }

    /// The kind's name, as `LossOfSoc`.
    pub fn name(self) -> &'static str
        ensures { result.now ≡ kind_name self }
    {
        match self {
            DllErrorKind::LossOfLink => "LossOfLink",
            DllErrorKind::BadPhysicalMode => "BadPhysicalMode",
            DllErrorKind::MacBuffer => "MacBuffer",
            DllErrorKind::Crc => "Crc",
            DllErrorKind::Collision => "Collision",
            DllErrorKind::InvalidFormat => "InvalidFormat",
            DllErrorKind::LossOfSoc => "LossOfSoc",
            DllErrorKind::LossOfSoa => "LossOfSoa",
            DllErrorKind::LossOfPreq => "LossOfPreq",
            DllErrorKind::LossOfPres => "LossOfPres",
            DllErrorKind::LossOfStatusRes => "LossOfStatusRes",
            DllErrorKind::CycleTimeExceeded => "CycleTimeExceeded",
            DllErrorKind::LatePres => "LatePres",
            DllErrorKind::SoCJitter => "SoCJitter",
            DllErrorKind::MsWaitSoc => "MsWaitSoc",
            DllErrorKind::MultipleMn => "MultipleMn",
            DllErrorKind::AddressConflict => "AddressConflict",
            DllErrorKind::MevAsndTimeout => "MevAsndTimeout",
            DllErrorKind::UnexpectedEventInState => "UnexpectedEventInState",
            DllErrorKind::PdoMapVersion => "PdoMapVersion",
            DllErrorKind::PdoPayloadShort => "PdoPayloadShort",
            DllErrorKind::HeartbeatTimeout => "HeartbeatTimeout",
        }
    }

    /// The code of an entry of this kind: that of its threshold where it has one; five kinds
    /// share 0x8000. Beside each code stands the standard's name, by the original's comments.
    pub fn to_error_code(self) -> u16
        ensures { result ≡ kind_code self }
    {
        match self {
            DllErrorKind::LossOfLink => 0x8165, // E_DLL_LOSS_OF_LINK
            DllErrorKind::BadPhysicalMode => 0x8161, // E_DLL_BAD_PHYS_MODE
            DllErrorKind::MacBuffer => 0x8166, // E_DLL_MAC_BUFFER
            DllErrorKind::Crc => 0x8164, // E_DLL_CRC_TH
            DllErrorKind::Collision => 0x8163, // E_DLL_COLLISION_TH
            DllErrorKind::InvalidFormat => 0x8241, // E_DLL_INVALID_FORMAT
            DllErrorKind::LossOfSoc => 0x8245, // E_DLL_LOSS_SOC_TH
            DllErrorKind::LossOfSoa => 0x8244, // E_DLL_LOSS_SOA_TH
            DllErrorKind::LossOfPreq => 0x8242, // E_DLL_LOSS_PREQ_TH
            DllErrorKind::LossOfPres => 0x8243, // E_DLL_LOSS_PRES_TH
            DllErrorKind::LossOfStatusRes => 0x8246, // E_DLL_LOSS_STATUSRES_TH
            DllErrorKind::CycleTimeExceeded => 0x8233, // E_DLL_CYCLE_EXCEED_TH
            DllErrorKind::LatePres => 0x8236, // E_DLL_LATE_PRES_TH
            DllErrorKind::SoCJitter => 0x8235, // E_DLL_JITTER_TH
            DllErrorKind::PdoMapVersion => 0x8211, // E_PDO_MAP_VERS
            DllErrorKind::PdoPayloadShort => 0x8210, // E_PDO_SHORT_RX
            DllErrorKind::HeartbeatTimeout => 0x8250, // E_NMT_HEARTBEAT_TH
            _ => 0x8000,
        }
    }

    /// The one kind that has the code. Refused by NoSingleKind where no kind has it, or more than
    /// one.
    pub fn from_error_code(code: u64) -> Result<DllErrorKind, Refusal>
        ensures { kind_said result ≡ kind_behind code }
    {
        let mut found = None;
        for kind in &DllErrorKind::ALL {
            if u64::from(kind.to_error_code()) == code {
                if found.is_some() {
                    return Err(Refusal::NoSingleKind);
                }
                found = Some(*kind);
            }
        }
        found.ok_or(Refusal::NoSingleKind)
    }
}
