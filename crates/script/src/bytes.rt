//! Bytes that stand in a line as two hexadecimal digits each.
ghost use Rattle.std.specs.Prelude.{◌≡◌, ◌+◌, ◌*◌, ◌/◌, ◌≤◌, length, option_map, option_copied};
ghost use Rattle.script.specs.Reads.{gives};
ghost use Rattle.script.specs.Bytes.{byte_of, bytes_at, word_at, entries_at, filled, history};
ghost use Rattle.script.specs.Bytes.{up_to_bytes, desk_bytes, frame_bytes, entry_bytes};

use crate::LineBytes;
use crate::words::Words;

// The byte of two digits.
fn byte_of(high: u8, low: u8) -> Option<u8>
    ensures { result ≡ byte_of high low }
{
    let high = char::from(high).to_digit(16)?;
    let low = char::from(low).to_digit(16)?;
    Some((16 * high + low) as u8)
}

// Reads the bytes whose digits a text is; None where one is no digit, or is left over.
#[tactic(auto, using(crate::proofs::Reading::bytes_goes, crate::proofs::Reading::bytes_fails, crate::proofs::Reading::pair_more), unfolding(crate::specs::Bytes::bytes_at))]
fn read_bytes(digits: &[u8], bytes: &mut LineBytes) -> Option<()>
    requires { length bytes.old.items + length digits.now / 2 ≤ 6000 }
    ensures read { filled result bytes.new.items ≡ bytes_at digits.now bytes.old.items }
    ensures short { length bytes.new.items ≤ length bytes.old.items + length digits.now / 2 }
{
    for pair in digits.chunks(2) {
        let [high, low] = pair else {
            return None;
        };
        bytes.push(byte_of(*high, *low)?);
    }
    Some(())
}

// Reads the bytes of an entry behind its space.
fn read_word(word: &[u8], bytes: &mut LineBytes) -> Option<()>
    requires { length bytes.old.items + length word.now / 2 ≤ 6000 }
    ensures read { filled result bytes.new.items ≡ word_at word.now bytes.old.items }
    ensures short { length bytes.new.items ≤ length bytes.old.items + length word.now / 2 }
{
    match word {
        [b' ', digits @ ..] => read_bytes(digits, bytes),
        _ => None,
    }
}

// Reads the entries that a text is; None where one of them is no entry.
#[tactic(auto, using(crate::proofs::Reading::entries_goes, crate::proofs::Reading::entries_fails, crate::proofs::Reading::word_more), unfolding(crate::specs::Bytes::entries_at))]
fn read_entries(text: &[u8], bytes: &mut LineBytes) -> Option<()>
    requires { length bytes.old.items + length text.now / 41 * 20 ≤ 6000 }
    ensures { filled result bytes.new.items
        ≡ entries_at (length text.now / 41) text.now bytes.old.items }
{
    for word in text.chunks_exact(41) {
        read_word(word, bytes)?;
    }
    Some(())
}

impl Words<'_> {
    /// The history that a load may name, to the end of the line: up to 300 entries, each 40 digits
    /// behind a space.
    #[tactic(auto, unfolding(crate::specs::Bytes::history, crate::specs::Bytes::entries_of, crate::specs::Bytes::entries_at))]
    pub(crate) fn history<'a>(&mut self, bytes: &'a mut LineBytes) -> Option<Option<&'a [u8]>>
        ensures { gives (option_map option_copied result) self.new.rest.now
            ≡ history self.old.rest.now }
    {
        if !self.take(b"history") {
            return Some(None);
        }
        let text = self.rest;
        if text.len() % 41 != 0 || 300 < text.len() / 41 {
            return None;
        }
        bytes.clear();
        read_entries(text, bytes)?;
        self.rest = &[];
        Some(Some(bytes.as_slice()))
    }

    // At most so many bytes; `-` for none.
    #[tactic(auto, unfolding(crate::specs::Bytes::bytes_of))]
    fn bytes<'a>(&mut self, most: usize, bytes: &'a mut LineBytes) -> Option<&'a [u8]>
        requires { most ≤ 6000 }
        ensures { gives (option_copied result) self.new.rest.now
            ≡ up_to_bytes most self.old.rest.now }
    {
        bytes.clear();
        let digits = self.word()?;
        if digits == b"-".as_slice() {
            return Some(&[]);
        }
        if digits.is_empty() || most < digits.len() / 2 {
            return None;
        }
        read_bytes(digits, bytes)?;
        Some(bytes.as_slice())
    }

    /// The bytes of a desk, at most 100; `-` for none.
    pub(crate) fn desk<'a>(&mut self, bytes: &'a mut LineBytes) -> Option<&'a [u8]>
        ensures { gives (option_copied result) self.new.rest.now ≡ desk_bytes self.old.rest.now }
    {
        self.bytes(100, bytes)
    }

    /// The bytes of a frame, at most 1,518; `-` for none.
    pub(crate) fn frame<'a>(&mut self, bytes: &'a mut LineBytes) -> Option<&'a [u8]>
        ensures { gives (option_copied result) self.new.rest.now ≡ frame_bytes self.old.rest.now }
    {
        self.bytes(1518, bytes)
    }

    /// The 20 bytes of an entry.
    #[tactic(auto, unfolding(crate::specs::Bytes::entry_of))]
    pub(crate) fn entry_bytes<'a>(&mut self, bytes: &'a mut LineBytes) -> Option<&'a [u8]>
        ensures { gives (option_copied result) self.new.rest.now ≡ entry_bytes self.old.rest.now }
    {
        bytes.clear();
        let digits = self.word()?;
        if digits.len() != 40 {
            return None;
        }
        read_bytes(digits, bytes)?;
        Some(bytes.as_slice())
    }
}
