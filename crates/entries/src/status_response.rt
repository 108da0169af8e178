//! The error entry (EPSG DS 301, Tables 94 and 96; RULES 9.1 to 9.3): what it holds, and its 20
//! bytes.
ghost use Rattle.std.specs.Prelude.{◌≡◌};
ghost use Rattle.entries.specs.Entry.{mode_of, mode_number, read_mode};
ghost use Rattle.entries.specs.Entry.{type_number, type_of, entry_bytes, entry_in, crossing_entry};

use crate::place;
use types::common::NetTime;
use types::frame::error::types::DllError;
use types::refusals::Refusal;

/// The mode of an entry, bits 13 and 12 of its type (Table 96).
#[derive(Clone, Copy, PartialEq, Eq)]
pub enum ErrorEntryMode {
    /// The end of a list of entries.
    Terminator = 0,
    /// An error has occurred and is active.
    ErrorActive = 1,
    /// An active error was cleared.
    ErrorCleared = 2,
    /// An event occurred, which is neither active nor cleared.
    EventOccurred = 3,
}

impl ErrorEntryMode {
    /// The mode's number, 0 to 3.
    pub fn as_u16(self) -> u16
        ensures { result ≡ mode_number self }
    {
        self as u16
    }

    /// The mode of the lowest two bits of a number; any two bits are a mode.
    #[tactic(auto, unfolding(crate::specs::Entry::mode_of))]
    pub fn from_bits(value: u16) -> Self
        ensures { result ≡ mode_of value }
    {
        match value % 4 {
            0 => ErrorEntryMode::Terminator,
            1 => ErrorEntryMode::ErrorActive,
            2 => ErrorEntryMode::ErrorCleared,
            _ => ErrorEntryMode::EventOccurred,
        }
    }
}

/// The mode of a number; refused by UnknownNumber where it is above 3.
#[tactic(auto, using(crate::proofs::Entries::mode_below, crate::proofs::Entries::mode_above))]
impl TryFrom<u8> for ErrorEntryMode {
    type Error = Refusal;

    ghost try_from_gives = { λ n r. r ≡ read_mode n };

    fn try_from(value: u8) -> Result<Self, Refusal> {
        if value < 4 {
            Ok(ErrorEntryMode::from_bits(value as u16))
        } else {
            Err(Refusal::UnknownNumber)
        }
    }
}

/// The type of an entry (Table 96).
#[derive(Clone, Copy, PartialEq, Eq)]
pub struct EntryType {
    /// The status mark: an entry of the status, and not of the history.
    pub is_status_entry: bool,
    /// The queue mark: the entry goes to the emergency queue too.
    pub send_to_queue: bool,
    pub mode: ErrorEntryMode,
    /// The profile that defines the code, 0 to 4095; 2 is POWERLINK.
    pub profile: u16,
}

impl EntryType {
    /// The type of an event's entry that goes to history and queue, with POWERLINK's profile.
    pub const QUEUED_EVENT: EntryType = EntryType {
        is_status_entry: false,
        send_to_queue: true,
        mode: ErrorEntryMode::EventOccurred,
        profile: 2,
    };
}

/// The type of its 16 bits: bit 15 the status mark, bit 14 the queue mark, bits 13 and 12 the mode,
/// the rest the profile.
#[tactic(auto, unfolding(crate::specs::Entry::type_of))]
impl From<u16> for EntryType {
    ghost from_gives = { λ n t. t ≡ type_of n };

    fn from(value: u16) -> Self {
        Self {
            is_status_entry: value / 32768 % 2 == 1,
            send_to_queue: value / 16384 % 2 == 1,
            mode: ErrorEntryMode::from_bits(value / 4096),
            profile: value % 4096,
        }
    }
}

/// The type as 16 bits; of the profile the lowest twelve bits are kept. The original does this
/// within `serialize`.
#[tactic(auto, unfolding(crate::specs::Entry::type_number))]
impl From<EntryType> for u16 {
    ghost from_gives = { λ t n. n ≡ type_number t };

    fn from(entry_type: EntryType) -> u16 {
        u16::from(entry_type.is_status_entry) * 32768
            + u16::from(entry_type.send_to_queue) * 16384
            + entry_type.mode.as_u16() * 4096
            + entry_type.profile % 4096
    }
}

/// An entry of the error history or the emergency queue (Table 94).
#[derive(Clone, Copy, PartialEq, Eq)]
pub struct ErrorEntry {
    pub entry_type: EntryType,
    pub error_code: u16,
    pub timestamp: NetTime,
    /// Bits whose meaning the profile gives.
    pub additional_information: u64,
}

impl ErrorEntry {
    /// The entry of an error that crossed its threshold at the SoC check (RULES 9.2), at a time in
    /// µs; the seconds are taken modulo 2^32.
    #[tactic(auto, unfolding(crate::specs::Entry::crossing_entry))]
    pub fn of_crossing(error: DllError, time: u64) -> Self
        ensures { result ≡ crossing_entry error time }
    {
        Self {
            entry_type: EntryType::QUEUED_EVENT,
            error_code: error.to_error_code(),
            timestamp: NetTime::from_micros(time),
            additional_information: 0,
        }
    }

    /// The entry that 20 bytes are; any are one. The original takes a buffer of any length and
    /// refuses one that is too short, as `desk::read_at` does.
    pub fn deserialize(bytes: [u8; 20]) -> Self
        ensures { result ≡ entry_in bytes }
    {
        place::read_entry(&bytes, 0)
    }

    /// The entry's 20 bytes, the lowest byte of each number first.
    pub fn serialize(self) -> [u8; 20]
        ensures { result ≡ entry_bytes self }
    {
        let mut bytes = [0u8; 20];
        place::write_entry(&mut bytes, self);
        bytes
    }
}
