//! The NMT commands (EPSG DS 301, Appendix 3.7) and the events of the NMT state machine (Table
//! 107).
ghost use Rattle.std.specs.Prelude.{◌≡◌, Some};
ghost use Rattle.types.specs.Events.{command_number, managing_number, event_number, command_event};
ghost use Rattle.types.specs.Events.{read_command, read_managing, read_event};
ghost use Rattle.types.specs.Listing.{AllInOrder};
ghost use Rattle.types.specs.Names.{command_name, managing_name, event_name};

use crate::refusals::Refusal;
use std::fmt;
use std::fmt::Display;

/// A command of the managing node that changes a node's state, with DS 301's number.
#[derive(Clone, Copy, Debug, PartialEq, Eq)]
pub enum NmtStateCommand {
    StartNode = 0x21,
    StopNode = 0x22,
    EnterPreOperational2 = 0x23,
    EnableReadyToOperate = 0x24,
    ResetNode = 0x28,
    ResetCommunication = 0x29,
    ResetConfiguration = 0x2A,
    SwReset = 0x2B,
}

/// A command of the managing node that changes no state, with DS 301's number.
#[derive(Clone, Copy, Debug, PartialEq, Eq)]
pub enum NmtManagingCommand {
    NmtNetHostNameSet = 0x62,
    NmtFlushArpEntry = 0x63,
}

/// What the NMT machine takes; numbered by its place, from 0.
#[derive(Clone, Copy, Debug, PartialEq, Eq)]
pub enum NmtEvent {
    // Commands of the managing node, and a reset from outside.
    StartNode,
    StopNode,
    EnterPreOperational2,
    EnableReadyToOperate,
    Reset,
    SwReset,
    ResetNode,
    ResetCommunication,
    ResetConfiguration,
    // Timing and errors.
    EnterEplMode,
    Timeout,
    Error,
    // Frames received.
    SoAReceived,
    SocReceived,
    PowerlinkFrameReceived,
    /// The application's ready word: it is configured.
    CnConfigurationComplete,
    // Events of a managing node.
    AllCnsIdentified,
    ConfigurationCompleteCnsReady,
    AllMandatoryCnsOperational,
}

impl NmtStateCommand {
    /// DS 301's number of the command.
    pub fn as_u8(self) -> u8
        ensures { result ≡ command_number self }
    {
        self as u8
    }

    /// The command's name, as `StartNode`.
    pub fn name(self) -> &'static str
        ensures { result.now ≡ command_name self }
    {
        match self {
            NmtStateCommand::StartNode => "StartNode",
            NmtStateCommand::StopNode => "StopNode",
            NmtStateCommand::EnterPreOperational2 => "EnterPreOperational2",
            NmtStateCommand::EnableReadyToOperate => "EnableReadyToOperate",
            NmtStateCommand::ResetNode => "ResetNode",
            NmtStateCommand::ResetCommunication => "ResetCommunication",
            NmtStateCommand::ResetConfiguration => "ResetConfiguration",
            NmtStateCommand::SwReset => "SwReset",
        }
    }
}

/// Its name.
impl Display for NmtStateCommand {
    ghost output = { λ x. Some (command_name x) };

    fn fmt<W: fmt::Write>(&self, f: &mut fmt::Formatter<W>) -> fmt::Result {
        f.write_str(self.name())
    }
}

/// The state command that has the number; refused by UnknownNumber where none has it, as for 0x62
/// and 0x63.
#[tactic(auto, unfolding(crate::specs::Events::read_command))]
impl TryFrom<u64> for NmtStateCommand {
    type Error = Refusal;

    ghost try_from_gives = { λ n r. r ≡ read_command n };

    fn try_from(value: u64) -> Result<Self, Refusal> {
        match value {
            0x21 => Ok(NmtStateCommand::StartNode),
            0x22 => Ok(NmtStateCommand::StopNode),
            0x23 => Ok(NmtStateCommand::EnterPreOperational2),
            0x24 => Ok(NmtStateCommand::EnableReadyToOperate),
            0x28 => Ok(NmtStateCommand::ResetNode),
            0x29 => Ok(NmtStateCommand::ResetCommunication),
            0x2A => Ok(NmtStateCommand::ResetConfiguration),
            0x2B => Ok(NmtStateCommand::SwReset),
            _ => Err(Refusal::UnknownNumber),
        }
    }
}

/// The event that a received command is: the one of its name.
impl From<NmtStateCommand> for NmtEvent {
    ghost from_gives = { λ c e. e ≡ command_event c };

    fn from(command: NmtStateCommand) -> Self {
        match command {
            NmtStateCommand::StartNode => NmtEvent::StartNode,
            NmtStateCommand::StopNode => NmtEvent::StopNode,
            NmtStateCommand::EnterPreOperational2 => NmtEvent::EnterPreOperational2,
            NmtStateCommand::EnableReadyToOperate => NmtEvent::EnableReadyToOperate,
            NmtStateCommand::ResetNode => NmtEvent::ResetNode,
            NmtStateCommand::ResetCommunication => NmtEvent::ResetCommunication,
            NmtStateCommand::ResetConfiguration => NmtEvent::ResetConfiguration,
            NmtStateCommand::SwReset => NmtEvent::SwReset,
        }
    }
}

impl NmtManagingCommand {
    /// DS 301's number of the command.
    pub fn as_u8(self) -> u8
        ensures { result ≡ managing_number self }
    {
        self as u8
    }

    /// The command's name, as `FlushArpEntry`.
    pub fn name(self) -> &'static str
        ensures { result.now ≡ managing_name self }
    {
        match self {
            NmtManagingCommand::NmtNetHostNameSet => "NetHostNameSet",
            NmtManagingCommand::NmtFlushArpEntry => "FlushArpEntry",
        }
    }
}

/// Its name.
impl Display for NmtManagingCommand {
    ghost output = { λ x. Some (managing_name x) };

    fn fmt<W: fmt::Write>(&self, f: &mut fmt::Formatter<W>) -> fmt::Result {
        f.write_str(self.name())
    }
}

/// The managing command that has the number; refused by UnknownNumber where none has it.
#[tactic(auto, unfolding(crate::specs::Events::read_managing))]
impl TryFrom<u64> for NmtManagingCommand {
    type Error = Refusal;

    ghost try_from_gives = { λ n r. r ≡ read_managing n };

    fn try_from(value: u64) -> Result<Self, Refusal> {
        match value {
            0x62 => Ok(NmtManagingCommand::NmtNetHostNameSet),
            0x63 => Ok(NmtManagingCommand::NmtFlushArpEntry),
            _ => Err(Refusal::UnknownNumber),
        }
    }
}

impl NmtEvent {
    /// All events, each once, in the order of the enum.
    pub const ALL: [NmtEvent; 19] = [
        NmtEvent::StartNode,
        NmtEvent::StopNode,
        NmtEvent::EnterPreOperational2,
        NmtEvent::EnableReadyToOperate,
        NmtEvent::Reset,
        NmtEvent::SwReset,
        NmtEvent::ResetNode,
        NmtEvent::ResetCommunication,
        NmtEvent::ResetConfiguration,
        NmtEvent::EnterEplMode,
        NmtEvent::Timeout,
        NmtEvent::Error,
        NmtEvent::SoAReceived,
        NmtEvent::SocReceived,
        NmtEvent::PowerlinkFrameReceived,
        NmtEvent::CnConfigurationComplete,
        NmtEvent::AllCnsIdentified,
        NmtEvent::ConfigurationCompleteCnsReady,
        NmtEvent::AllMandatoryCnsOperational,
    ];

    /// Law of `ALL`: each event stands in it once, in the order of the enum.
    pub fn all_in_order()
        ensures { AllInOrder event_number Self.ALL }
    {}

    /// The event's place in the enum, from 0.
    pub fn as_u8(self) -> u8
        ensures { result ≡ event_number self }
    {
        self as u8
    }

    /// The event's name, as `SocReceived`.
    pub fn name(self) -> &'static str
        ensures { result.now ≡ event_name self }
    {
        match self {
            NmtEvent::StartNode => "StartNode",
            NmtEvent::StopNode => "StopNode",
            NmtEvent::EnterPreOperational2 => "EnterPreOperational2",
            NmtEvent::EnableReadyToOperate => "EnableReadyToOperate",
            NmtEvent::Reset => "Reset",
            NmtEvent::SwReset => "SwReset",
            NmtEvent::ResetNode => "ResetNode",
            NmtEvent::ResetCommunication => "ResetCommunication",
            NmtEvent::ResetConfiguration => "ResetConfiguration",
            NmtEvent::EnterEplMode => "EnterEplMode",
            NmtEvent::Timeout => "Timeout",
            NmtEvent::Error => "Error",
            NmtEvent::SoAReceived => "SoAReceived",
            NmtEvent::SocReceived => "SocReceived",
            NmtEvent::PowerlinkFrameReceived => "PowerlinkFrameReceived",
            NmtEvent::CnConfigurationComplete => "CnConfigurationComplete",
            NmtEvent::AllCnsIdentified => "AllCnsIdentified",
            NmtEvent::ConfigurationCompleteCnsReady => "ConfigurationCompleteCnsReady",
            NmtEvent::AllMandatoryCnsOperational => "AllMandatoryCnsOperational",
        }
    }
}

/// Its name.
impl Display for NmtEvent {
    ghost output = { λ x. Some (event_name x) };

    fn fmt<W: fmt::Write>(&self, f: &mut fmt::Formatter<W>) -> fmt::Result {
        f.write_str(self.name())
    }
}

/// The event at a place; refused by UnknownNumber where there is none.
#[tactic(auto, unfolding(crate::specs::Events::read_event))]
impl TryFrom<u64> for NmtEvent {
    type Error = Refusal;

    ghost try_from_gives = { λ n r. r ≡ read_event n };

    fn try_from(value: u64) -> Result<Self, Refusal> {
        match value {
            0 => Ok(NmtEvent::StartNode),
            1 => Ok(NmtEvent::StopNode),
            2 => Ok(NmtEvent::EnterPreOperational2),
            3 => Ok(NmtEvent::EnableReadyToOperate),
            4 => Ok(NmtEvent::Reset),
            5 => Ok(NmtEvent::SwReset),
            6 => Ok(NmtEvent::ResetNode),
            7 => Ok(NmtEvent::ResetCommunication),
            8 => Ok(NmtEvent::ResetConfiguration),
            9 => Ok(NmtEvent::EnterEplMode),
            10 => Ok(NmtEvent::Timeout),
            11 => Ok(NmtEvent::Error),
            12 => Ok(NmtEvent::SoAReceived),
            13 => Ok(NmtEvent::SocReceived),
            14 => Ok(NmtEvent::PowerlinkFrameReceived),
            15 => Ok(NmtEvent::CnConfigurationComplete),
            16 => Ok(NmtEvent::AllCnsIdentified),
            17 => Ok(NmtEvent::ConfigurationCompleteCnsReady),
            18 => Ok(NmtEvent::AllMandatoryCnsOperational),
            _ => Err(Refusal::UnknownNumber),
        }
    }
}
