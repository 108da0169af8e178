//! The data link layer (DLL): what drives its cycle, its errors, and the events that a received
//! frame is, which its message type alone decides.
ghost use Rattle.std.specs.Prelude.{◌≡◌};
ghost use Rattle.types.specs.Frames.{frame_cs_event, frame_nmt_event};

pub mod cs_state_machine;
pub mod error;

use crate::frame::cs_state_machine::DllCsEvent;
use crate::nmt::events::NmtEvent;
use crate::types::MessageType;

impl MessageType {
    /// The DLL event that a frame of this type is for a controlled node.
    pub fn dll_cn_event(self) -> DllCsEvent
        ensures { result ≡ frame_cs_event self }
    {
        match self {
            MessageType::SoC => DllCsEvent::Soc,
            MessageType::PReq => DllCsEvent::Preq,
            MessageType::PRes => DllCsEvent::Pres,
            MessageType::SoA => DllCsEvent::Soa,
            MessageType::ASnd => DllCsEvent::Asnd,
        }
    }

    /// The NMT event that such a frame is, if any: an SoC and an SoA are one.
    pub fn nmt_event(self) -> Option<NmtEvent>
        ensures { result ≡ frame_nmt_event self }
    {
        match self {
            MessageType::SoC => Some(NmtEvent::SocReceived),
            MessageType::SoA => Some(NmtEvent::SoAReceived),
            // PReq and PRes are part of the cycle; the command that an ASnd may carry is in its
            // payload.
            _ => None,
        }
    }
}
