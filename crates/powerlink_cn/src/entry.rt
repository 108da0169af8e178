//! An entry for C, both ways.
ghost use Rattle.std.specs.Prelude.{◌≡◌};
ghost use Rattle.powerlink_cn.specs.Entries.{c_entry, read_entry, c_handed_out};

use entries::status_response::{EntryType, ErrorEntry, ErrorEntryMode};
use types::common::NetTime;
use types::refusals::Refusal;

/// An entry of a queue or a history.
#[repr(C)]
#[derive(Clone, Copy, PartialEq, Eq)]
pub struct PlcnEntry {
    /// The status mark, 0 or 1; given, any number but 0 is 1.
    pub is_status: u8,
    /// The queue mark, 0 or 1; given, any number but 0 is 1.
    pub send_to_queue: u8,
    /// The mode, 0 to 3.
    pub mode: u8,
    /// The profile, 0 to 4095.
    pub profile: u16,
    /// The error code.
    pub code: u16,
    /// The seconds of its time.
    pub seconds: u32,
    /// The nanoseconds of its time.
    pub nanoseconds: u32,
    /// Bits whose meaning the profile gives.
    pub additional: u64,
}

/// The entry that was handed out, if any.
#[repr(C)]
#[derive(Clone, Copy, PartialEq, Eq)]
pub struct PlcnHandedOut {
    /// It; zeros where there is none.
    pub entry: PlcnEntry,
    /// Whether there is one, 0 or 1.
    pub there: u8,
}

impl PlcnEntry {
    /// Zeros.
    pub const NONE: PlcnEntry = PlcnEntry {
        is_status: 0,
        send_to_queue: 0,
        mode: 0,
        profile: 0,
        code: 0,
        seconds: 0,
        nanoseconds: 0,
        additional: 0,
    };

    /// The entry. Refused by UnknownNumber where its mode is above 3.
    pub fn read(self) -> Result<ErrorEntry, Refusal>
        ensures { result ≡ read_entry self }
    {
        let mode = ErrorEntryMode::try_from(self.mode)?;
        Ok(ErrorEntry {
            entry_type: EntryType {
                is_status_entry: self.is_status != 0,
                send_to_queue: self.send_to_queue != 0,
                mode,
                profile: self.profile,
            },
            error_code: self.code,
            timestamp: NetTime {
                seconds: self.seconds,
                nanoseconds: self.nanoseconds,
            },
            additional_information: self.additional,
        })
    }
}

/// The entry for C.
impl From<ErrorEntry> for PlcnEntry {
    ghost from_gives = { λ e c. c ≡ c_entry e };

    fn from(entry: ErrorEntry) -> Self {
        PlcnEntry {
            is_status: u8::from(entry.entry_type.is_status_entry),
            send_to_queue: u8::from(entry.entry_type.send_to_queue),
            mode: entry.entry_type.mode as u8,
            profile: entry.entry_type.profile,
            code: entry.error_code,
            seconds: entry.timestamp.seconds,
            nanoseconds: entry.timestamp.nanoseconds,
            additional: entry.additional_information,
        }
    }
}

/// The entry that was handed out, for C.
impl From<Option<ErrorEntry>> for PlcnHandedOut {
    ghost from_gives = { λ e c. c ≡ c_handed_out e };

    fn from(entry: Option<ErrorEntry>) -> Self {
        match entry {
            Some(entry) => PlcnHandedOut {
                entry: PlcnEntry::from(entry),
                there: 1,
            },
            None => PlcnHandedOut {
                entry: PlcnEntry::NONE,
                there: 0,
            },
        }
    }
}
