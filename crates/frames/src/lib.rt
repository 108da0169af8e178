//! POWERLINK frames from their bytes (RULES 13.1 and 13.2; EPSG DS 301, Appendix 3): which message
//! it is, for whom and from whom, and what an ASnd asks for. The bytes are only read, and nothing
//! is copied.
#![tactic(auto)]

ghost use Rattle.std.specs.Prelude.{◌≡◌, ◌≢◌, ◌↔◌, ◌++◌, ℕ, List, Ok, Err, drop};
ghost use Rattle.frames.specs.Frame.{message_type, nmt_event_of, read_service, read_frame};
ghost use Rattle.frames.specs.Reading.{IsFrame, IsRefused};

use types::nmt::events::{NmtEvent, NmtStateCommand};
use types::refusals::Refusal;
use types::types::MessageType;

/// The EtherType of POWERLINK, which stands in the bytes 12 and 13 of a frame.
pub const C_DLL_ETHERTYPE_EPL: [u8; 2] = [0x88, 0xAB];
/// The service ID by which an ASnd carries an NMT command.
pub const C_DLL_ASND_NMTCOMMAND: u8 = 4;

/// What an ASnd asks for, by its service ID.
#[derive(Clone, Copy, Debug, PartialEq, Eq)]
pub enum Service {
    /// Service 4, NMTCommand, with a state command.
    NmtCommand(NmtStateCommand),
    /// A service with another ID, also one that DS 301 does not know.
    Other(u8),
}

/// What a frame is, by its message type.
#[derive(Clone, Copy, Debug, PartialEq, Eq)]
pub enum Message {
    SoC,
    PReq,
    PRes,
    SoA,
    ASnd(Service),
}

impl Message {
    /// Its message type.
    pub fn message_type(self) -> MessageType
        ensures { result ≡ message_type self }
    {
        match self {
            Message::SoC => MessageType::SoC,
            Message::PReq => MessageType::PReq,
            Message::PRes => MessageType::PRes,
            Message::SoA => MessageType::SoA,
            Message::ASnd(_) => MessageType::ASnd,
        }
    }

    /// The NMT event that it is, if any: that of its type (RULES 5.3), or of an ASnd's command.
    pub fn nmt_event(self) -> Option<NmtEvent>
        ensures { result ≡ nmt_event_of self }
    {
        match self {
            Message::ASnd(Service::NmtCommand(command)) => Some(NmtEvent::from(command)),
            _ => self.message_type().nmt_event(),
        }
    }
}

/// What is read of a frame.
#[derive(Clone, Copy, Debug, PartialEq, Eq)]
pub struct Frame {
    pub message: Message,
    /// The number of the node that it is for; 255 means every node. Any byte may stand here.
    pub destination: u8,
    /// The number of the node that sent it. Any byte may stand here.
    pub source: u8,
}

// The service of an ASnd, from its bytes behind the source.
#[tactic(auto, unfolding(crate::specs::Frame::read_service))]
fn read_service(payload: &[u8]) -> Result<Service, Refusal>
    ensures { result ≡ read_service payload.now }
{
    match payload {
        [] | [C_DLL_ASND_NMTCOMMAND] => Err(Refusal::FrameTooShort),
        [C_DLL_ASND_NMTCOMMAND, command, ..] => {
            NmtStateCommand::try_from(u64::from(*command)).map(Service::NmtCommand)
        }
        [service, ..] => Ok(Service::Other(*service)),
    }
}

impl Frame {
    /// The frame in the bytes of an Ethernet frame, from its destination's address on. The two
    /// addresses, bytes 0 to 11, and the bytes past those that are read are not looked at. Refused,
    /// in this order: FrameTooShort below 17 bytes; OtherEtherType; OtherMessageType; of an ASnd
    /// FrameTooShort, below 18 bytes, or 19 with service 4, then UnknownNumber where service 4 has
    /// no state command in byte 18.
    #[tactic(auto, unfolding(crate::specs::Frame::read_frame))]
    #[inline(always)]
    pub fn read(bytes: &[u8]) -> Result<Frame, Refusal>
        ensures { result ≡ read_frame bytes.now }
    {
        let Some([high, low, kind, destination, source, payload @ ..]) = bytes.get(12..) else {
            return Err(Refusal::FrameTooShort);
        };
        if [*high, *low] != C_DLL_ETHERTYPE_EPL {
            return Err(Refusal::OtherEtherType);
        }
        let Ok(kind) = MessageType::try_from(*kind) else {
            return Err(Refusal::OtherMessageType);
        };
        let message = match kind {
            MessageType::SoC => Message::SoC,
            MessageType::PReq => Message::PReq,
            MessageType::PRes => Message::PRes,
            MessageType::SoA => Message::SoA,
            MessageType::ASnd => Message::ASnd(read_service(payload)?),
        };
        Ok(Frame {
            message,
            destination: *destination,
            source: *source,
        })
    }
}

/// Law of the reading: bytes are a frame exactly where they begin, behind the addresses, with its
/// bytes; each refusal is given exactly where its reason holds; and whatever stands behind bytes
/// that are not too short changes nothing.
pub fn reading()
    ensures frames { (bytes : List ℕ) (frame : Frame) →
        (read_frame bytes ≡ Ok frame) ↔ IsFrame (drop 12 bytes) frame }
    ensures refusals { (bytes : List ℕ) (refusal : Refusal) →
        (read_frame bytes ≡ Err refusal) ↔ IsRefused (drop 12 bytes) refusal }
    ensures behind { (bytes more : List ℕ) → read_frame bytes ≢ Err Refusal.FrameTooShort →
        read_frame (bytes ++ more) ≡ read_frame bytes }
{}
