//! Node numbers and message types (EPSG DS 301, Appendix 3).
ghost use Rattle.std.specs.Prelude.{◌≡◌};
ghost use Rattle.types.specs.Frames.{message_number, read_message};
ghost use Rattle.types.specs.Types.{managing_node, diagnostic_node, router_node, broadcast_node};
ghost use Rattle.types.specs.Types.{read_node};

use crate::refusals::Refusal;

/// The managing node's number.
pub const C_ADR_MN_DEF_NODE_ID: u8 = 240;
/// The diagnostic device's number.
pub const C_ADR_DIAG_DEF_NODE_ID: u8 = 253;
/// The router's number.
pub const C_ADR_RT1_DEF_NODE_ID: u8 = 254;
/// The number that means every node.
pub const C_ADR_BROADCAST_NODE_ID: u8 = 255;

/// Law of the named node numbers: each is that of DS 301.
pub fn named_nodes()
    ensures managing { C_ADR_MN_DEF_NODE_ID ≡ managing_node }
    ensures diagnostic { C_ADR_DIAG_DEF_NODE_ID ≡ diagnostic_node }
    ensures router { C_ADR_RT1_DEF_NODE_ID ≡ router_node }
    ensures broadcast { C_ADR_BROADCAST_NODE_ID ≡ broadcast_node }
{}

/// A node's number.
#[derive(Clone, Copy, Debug, PartialEq, Eq)]
pub struct NodeId(pub u8);

/// The node of a number: 1 to 240, 253, 254 or 255; refused by NodeNumber for any other.
#[tactic(auto, unfolding(crate::specs::Types::read_node))]
impl TryFrom<u8> for NodeId {
    type Error = Refusal;

    ghost try_from_gives = { λ n r. r ≡ read_node n };

    fn try_from(value: u8) -> Result<Self, Refusal> {
        match value {
            1..=C_ADR_MN_DEF_NODE_ID
            | C_ADR_DIAG_DEF_NODE_ID
            | C_ADR_RT1_DEF_NODE_ID
            | C_ADR_BROADCAST_NODE_ID => Ok(NodeId(value)),
            _ => Err(Refusal::NodeNumber),
        }
    }
}

/// The kinds of frames, by their message type IDs (Appendix 3.1).
#[derive(Clone, Copy, Debug, PartialEq, Eq)]
pub enum MessageType {
    SoC = 0x01,
    PReq = 0x03,
    PRes = 0x04,
    SoA = 0x05,
    ASnd = 0x06,
}

impl MessageType {
    /// DS 301's number of the message type.
    pub fn as_u8(self) -> u8
        ensures { result ≡ message_number self }
    {
        self as u8
    }
}

/// No message type has the number.
#[derive(Clone, Copy, Debug, PartialEq, Eq)]
pub struct UnknownMessageType;

/// The message type that has the number.
#[tactic(auto, unfolding(crate::specs::Frames::read_message))]
impl TryFrom<u8> for MessageType {
    type Error = UnknownMessageType;

    ghost try_from_gives = { λ n r. r ≡ read_message n };

    fn try_from(value: u8) -> Result<Self, UnknownMessageType> {
        match value {
            0x01 => Ok(MessageType::SoC),
            0x03 => Ok(MessageType::PReq),
            0x04 => Ok(MessageType::PRes),
            0x05 => Ok(MessageType::SoA),
            0x06 => Ok(MessageType::ASnd),
            _ => Err(UnknownMessageType),
        }
    }
}
