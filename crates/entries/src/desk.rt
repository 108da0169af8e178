//! An entry at a place of a buffer, such as a maintenance desk keeps (RULES 9.6): a write puts its
//! 20 bytes from the place on and keeps all others, a read takes those 20. A place counts bytes
//! from 0 and is any number of 64 bits.
ghost use Rattle.std.specs.Prelude.{◌≡◌, ◌+◌, leb};
ghost use Rattle.entries.specs.Desk.{write_said, write_reply, desk_after, read_said, read_reply};

use crate::place;
use crate::sizes::ENTRY_BYTES;
use crate::status_response::ErrorEntry;
use types::refusals::Refusal;

// Whether 20 bytes are there from a place on. The place plus 20 may be above 64 bits.
fn has_room(length: usize, place: u64) -> bool
    ensures { result ≡ leb (place + 20) length }
{
    place
        .checked_add(ENTRY_BYTES as u64)
        .is_some_and(|end| end <= length as u64)
}

/// Writes an entry at a place. Refused, in this order: BufferTooShort where fewer than 20 bytes are
/// left from the place on, ProfileLimit where the profile is above 4095; then no byte changes.
#[tactic(auto, unfolding(crate::specs::Desk::write_reply, crate::specs::Desk::desk_after))]
pub fn write_at(buffer: &mut [u8], place: u64, entry: ErrorEntry) -> Result<(), Refusal>
    ensures { (write_said result ≡ write_reply buffer.old place entry) ×
        (buffer.new ≡ desk_after buffer.old place entry) }
{
    let room = has_room(buffer.len(), place);
    let small = entry.entry_type.profile <= 4095;
    if !room {
        return Err(Refusal::BufferTooShort);
    }
    if !small {
        return Err(Refusal::ProfileLimit);
    }
    place::put_entry(buffer, place as usize, entry);
    Ok(())
}

/// The entry in the 20 bytes from a place on. Refused by BufferTooShort where fewer are left.
#[tactic(auto, unfolding(crate::specs::Desk::read_reply))]
pub fn read_at(buffer: &[u8], place: u64) -> Result<ErrorEntry, Refusal>
    ensures { read_said result ≡ read_reply buffer.now place }
{
    if !has_room(buffer.len(), place) {
        return Err(Refusal::BufferTooShort);
    }
    Ok(place::read_entry(buffer, place as usize))
}
