//! What a script may name in place of its number: NMT events, DLL events, kinds of error, NMT
//! states and state commands, by the names that they print.
ghost use Rattle.std.specs.Prelude.{◌≡◌, ℕ, List};
ghost use Rattle.types.specs.States.{states, state_number};
ghost use Rattle.types.specs.Events.{events, event_number, commands, command_number};
ghost use Rattle.types.specs.CsEvents.{cs_events, cs_event_number};
ghost use Rattle.types.specs.Kinds.{error_kinds, kind_place};
ghost use Rattle.types.specs.Names.{state_name, event_name, command_name, cs_event_name, kind_name};
ghost use Rattle.script.specs.Numerals.{number_named};

use types::frame::cs_state_machine::DllCsEvent;
use types::frame::error::kinds::DllErrorKind;
use types::nmt::events::{NmtEvent, NmtStateCommand};
use types::nmt::states::NmtState;

/// An item of an enum that has a name and a number in a script.
pub(crate) trait Named: Copy + 'static {
    ghost items: { List Self };

    ghost name_of: { Self → List ℕ };

    ghost number_of: { Self → ℕ };

    /// All items.
    fn all() -> &'static [Self]
        ensures { result.now ≡ items };

    /// The item's name.
    fn spelling(self) -> &'static str
        ensures { result.now ≡ name_of self };

    /// Its number.
    fn number(self) -> u64
        ensures { result ≡ number_of self };
}

/// The number of the item that has the name.
#[tactic(auto, unfolding(crate::specs::Numerals::number_named))]
pub(crate) fn number_named<T: Named>(name: &[u8]) -> Option<u64>
    ensures { result ≡ number_named T.name_of T.number_of T.items name.now }
{
    for item in T::all() {
        if item.spelling().as_bytes() == name {
            return Some(item.number());
        }
    }
    None
}

// They are statics, which are read where they lie.
static NMT_EVENTS: [NmtEvent; 19] = NmtEvent::ALL;

static DLL_EVENTS: [DllCsEvent; 6] = DllCsEvent::ALL;

static KINDS: [DllErrorKind; 22] = DllErrorKind::ALL;

static STATES: [NmtState; 12] = NmtState::ALL;

static COMMANDS: [NmtStateCommand; 8] = [
    NmtStateCommand::StartNode,
    NmtStateCommand::StopNode,
    NmtStateCommand::EnterPreOperational2,
    NmtStateCommand::EnableReadyToOperate,
    NmtStateCommand::ResetNode,
    NmtStateCommand::ResetCommunication,
    NmtStateCommand::ResetConfiguration,
    NmtStateCommand::SwReset,
];

impl Named for NmtEvent {
    ghost items = { events };

    ghost name_of = { event_name };

    ghost number_of = { event_number };

    fn all() -> &'static [Self] {
        &NMT_EVENTS
    }

    fn spelling(self) -> &'static str {
        self.name()
    }

    fn number(self) -> u64 {
        u64::from(self.as_u8())
    }
}

impl Named for DllCsEvent {
    ghost items = { cs_events };

    ghost name_of = { cs_event_name };

    ghost number_of = { cs_event_number };

    fn all() -> &'static [Self] {
        &DLL_EVENTS
    }

    fn spelling(self) -> &'static str {
        self.name()
    }

    fn number(self) -> u64 {
        u64::from(self.as_u8())
    }
}

impl Named for DllErrorKind {
    ghost items = { error_kinds };

    ghost name_of = { kind_name };

    ghost number_of = { kind_place };

    fn all() -> &'static [Self] {
        &KINDS
    }

    fn spelling(self) -> &'static str {
        self.name()
    }

    fn number(self) -> u64 {
        u64::from(self.place())
    }
}

impl Named for NmtState {
    ghost items = { states };

    ghost name_of = { state_name };

    ghost number_of = { state_number };

    fn all() -> &'static [Self] {
        &STATES
    }

    fn spelling(self) -> &'static str {
        self.name()
    }

    fn number(self) -> u64 {
        u64::from(self.as_u8())
    }
}

impl Named for NmtStateCommand {
    ghost items = { commands };

    ghost name_of = { command_name };

    ghost number_of = { command_number };

    fn all() -> &'static [Self] {
        &COMMANDS
    }

    fn spelling(self) -> &'static str {
        self.name()
    }

    fn number(self) -> u64 {
        u64::from(self.as_u8())
    }
}
