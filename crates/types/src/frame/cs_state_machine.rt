//! The events that drive the DLL cycle of a controlled node (EPSG DS 301, Section 4.2.4.5.3).
ghost use Rattle.std.specs.Prelude.{◌≡◌, Some};
ghost use Rattle.types.specs.CsEvents.{cs_event_number, read_cs_event};
ghost use Rattle.types.specs.Listing.{AllInOrder};
ghost use Rattle.types.specs.Names.{cs_event_name};

use crate::refusals::Refusal;
use std::fmt;
use std::fmt::Display;

/// What the DLL machine takes: a frame of the cycle that came, or that the SoC did not come in
/// time.
#[derive(Clone, Copy, Debug, PartialEq, Eq)]
pub enum DllCsEvent {
    Soc,
    Preq,
    Pres,
    Soa,
    Asnd,
    SocTimeout,
}

impl DllCsEvent {
    /// All events, each once, in the order of the enum.
    pub const ALL: [DllCsEvent; 6] = [
        DllCsEvent::Soc,
        DllCsEvent::Preq,
        DllCsEvent::Pres,
        DllCsEvent::Soa,
        DllCsEvent::Asnd,
        DllCsEvent::SocTimeout,
    ];

    /// Law of `ALL`: each event stands in it once, in the order of the enum.
    pub fn all_in_order()
        ensures { AllInOrder cs_event_number Self.ALL }
    {}

    /// The event's place in the enum, from 0.
    pub fn as_u8(self) -> u8
        ensures { result ≡ cs_event_number self }
    {
        self as u8
    }

    /// The event's name, as `SocTimeout`.
    pub fn name(self) -> &'static str
        ensures { result.now ≡ cs_event_name self }
    {
        match self {
            DllCsEvent::Soc => "Soc",
            DllCsEvent::Preq => "Preq",
            DllCsEvent::Pres => "Pres",
            DllCsEvent::Soa => "Soa",
            DllCsEvent::Asnd => "Asnd",
            DllCsEvent::SocTimeout => "SocTimeout",
        }
    }
}

/// Its name.
impl Display for DllCsEvent {
    ghost output = { λ x. Some (cs_event_name x) };

    fn fmt<W: fmt::Write>(&self, f: &mut fmt::Formatter<W>) -> fmt::Result {
        f.write_str(self.name())
    }
}

/// The event at a place; refused by UnknownNumber where there is none.
#[tactic(auto, unfolding(crate::specs::CsEvents::read_cs_event))]
impl TryFrom<u64> for DllCsEvent {
    type Error = Refusal;

    ghost try_from_gives = { λ n r. r ≡ read_cs_event n };

    fn try_from(value: u64) -> Result<Self, Refusal> {
        match value {
            0 => Ok(DllCsEvent::Soc),
            1 => Ok(DllCsEvent::Preq),
            2 => Ok(DllCsEvent::Pres),
            3 => Ok(DllCsEvent::Soa),
            4 => Ok(DllCsEvent::Asnd),
            5 => Ok(DllCsEvent::SocTimeout),
            _ => Err(Refusal::UnknownNumber),
        }
    }
}
