//! Entries in lent bytes, at a place that the caller keeps within them, and rings of such places.
ghost use Rattle.std.specs.Prelude.{◌≡◌, ◌++◌, ◌+◌, ◌*◌, ◌^◌, ◌%◌, ◌≤◌, ◌<◌};
ghost use Rattle.std.specs.Prelude.{min, length, take, drop};
ghost use Rattle.entries.specs.Entry.{entry_bytes, entry_in};
ghost use Rattle.entries.specs.Ring.{written, ring, nth};

use crate::sizes::ENTRY_BYTES;
use crate::status_response::{EntryType, ErrorEntry};
use types::common::NetTime;

// Writes N bytes from a place on.
fn put_bytes<const N: usize>(s: &mut [u8], at: usize, bytes: [u8; N])
    requires { at + N ≤ length s.old }
    ensures { s.new ≡ written s.old at bytes.entry }
{
    s[at..at + N].copy_from_slice(&bytes);
}

// The N bytes from a place on.
fn get_bytes<const N: usize>(s: &[u8], at: usize) -> [u8; N]
    requires { at + N ≤ length s.now }
    ensures { result ≡ take N (drop at s.now) }
{
    let mut bytes = [0; N];
    bytes.copy_from_slice(&s[at..at + N]);
    bytes
}

/// Writes an entry into the first 20 bytes.
pub(crate) fn write_entry(part: &mut [u8], entry: ErrorEntry)
    requires { 20 ≤ length part.old }
    ensures { part.new ≡ entry_bytes entry ++ drop 20 part.old }
{
    let time = entry.timestamp;
    put_bytes(part, 0, u16::from(entry.entry_type).to_le_bytes());
    put_bytes(part, 2, entry.error_code.to_le_bytes());
    put_bytes(part, 4, time.seconds.to_le_bytes());
    put_bytes(part, 8, time.nanoseconds.to_le_bytes());
    put_bytes(part, 12, entry.additional_information.to_le_bytes());
}

/// Writes an entry into the 20 bytes from a place on.
pub(crate) fn put_entry(s: &mut [u8], at: usize, entry: ErrorEntry)
    requires { at + 20 ≤ length s.old }
    ensures { s.new ≡ written s.old at (entry_bytes entry) }
{
    write_entry(&mut s[at..], entry);
}

/// The entry in the 20 bytes from a place on.
pub(crate) fn read_entry(s: &[u8], at: usize) -> ErrorEntry
    requires { at + 20 ≤ length s.now }
    ensures { result ≡ entry_in (drop at s.now) }
{
    let entry_type = EntryType::from(u16::from_le_bytes(get_bytes(s, at)));
    let error_code = u16::from_le_bytes(get_bytes(s, at + 2));
    let seconds = u32::from_le_bytes(get_bytes(s, at + 4));
    let nanoseconds = u32::from_le_bytes(get_bytes(s, at + 8));
    let additional_information = u64::from_le_bytes(get_bytes(s, at + 12));
    ErrorEntry {
        entry_type,
        error_code,
        timestamp: NetTime {
            seconds,
            nanoseconds,
        },
        additional_information,
    }
}

/// A ring of PLACES places of an entry in lent bytes. Any two bytes are a ring: a place is read
/// modulo PLACES, and a count above it as PLACES.
#[derive(Clone, Copy)]
pub(crate) struct Ring<const PLACES: usize> {
    /// The place of the first entry.
    pub(crate) first: u8,
    /// How many places have an entry.
    pub(crate) count: u8,
}

impl<const PLACES: usize> Ring<PLACES> {
    /// How many places have an entry, at most PLACES.
    pub(crate) fn len(self) -> usize
        ensures { result ≡ min self.entry.count PLACES }
    {
        (self.count as usize).min(PLACES)
    }

    /// The place of the entry at an index.
    pub(crate) fn place(self, index: usize) -> usize
        requires { (0 < PLACES) × (index ≤ PLACES) × (PLACES ≤ 256) }
        ensures { result ≡ (self.entry.first + index) % PLACES }
    {
        (self.first as usize + index) % PLACES
    }

    /// The entry at an index, if there is one.
    pub(crate) fn get(self, memory: &[u8], index: usize) -> Option<ErrorEntry>
        requires { (20 * PLACES ≤ length memory.now) × (0 < PLACES) × (PLACES ≤ 256) }
        ensures { result ≡
            nth (ring PLACES memory.now self.entry.first (min self.entry.count PLACES)) index }
    {
        if index < self.len() {
            Some(read_entry(memory, ENTRY_BYTES * self.place(index)))
        } else {
            None
        }
    }
}
