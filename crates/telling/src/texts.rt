//! Bytes, entries and marks as they are printed.
ghost use Rattle.std.specs.Prelude.{◌≡◌, ◌≤◌, length, Some};
ghost use Rattle.std.specs.Str.{IsAscii};
ghost use Rattle.forms.specs.Hex.{hex_digits};
ghost use Rattle.telling.specs.Texts.{flag_text, bytes_text, entry_text};

use arrayvec::ArrayVec;
use entries::status_response::ErrorEntry;
use forms::hex;
use std::fmt::Display;
use std::{fmt, str};

/// Digits as text.
pub(crate) fn text_of(digits: &[u8]) -> &str
    requires { IsAscii digits.now }
    ensures { result.now ≡ digits.now }
{
    let Ok(text) = str::from_utf8(digits) else {
        unreachable!()
    };
    text
}

/// A mark: 1, or 0.
#[derive(Clone, Copy)]
pub(crate) struct Flag(pub(crate) bool);

impl Display for Flag {
    ghost output = { λ x. Some (flag_text x.0) };

    fn fmt<W: fmt::Write>(&self, f: &mut fmt::Formatter<W>) -> fmt::Result {
        f.write_str(if self.0 { "1" } else { "0" })
    }
}

/// A byte as two hexadecimal digits.
#[derive(Clone, Copy)]
pub(crate) struct HexPair(pub(crate) u8);

impl Display for HexPair {
    ghost output = { λ x. Some (hex_digits 2 x.0) };

    fn fmt<W: fmt::Write>(&self, f: &mut fmt::Formatter<W>) -> fmt::Result {
        let digits: [u8; 2] = hex::digits(u64::from(self.0));
        f.write_str(text_of(&digits))
    }
}

/// Bytes behind a space, two hexadecimal digits each.
#[derive(Clone, Copy)]
pub(crate) struct Bytes<'a>(pub(crate) &'a [u8]);

impl Display for Bytes<'_> {
    ghost output = { λ x. Some (bytes_text x.0.now) };

    fn fmt<W: fmt::Write>(&self, f: &mut fmt::Formatter<W>) -> fmt::Result {
        write!(f, " ")?;
        for byte in self.0 {
            write!(f, "{}", HexPair(*byte))?;
        }
        Ok(())
    }
}

/// The hexadecimal digits of bytes, two each, of up to 32 bytes.
#[derive(Drop)]
pub(crate) struct Digits {
    text: ArrayVec<u8, 64>,
    ghost ascii: { IsAscii text.items },
}

impl Digits {
    ghost use Rattle.telling.specs.Texts.{digits_text};

    /// The digits of these bytes.
    pub(crate) fn of(bytes: &[u8]) -> Digits
        requires { length bytes.now ≤ 32 }
        ensures { result.text.items ≡ digits_text bytes.now }
    {
        let mut text = ArrayVec::new();
        for byte in bytes {
            let [high, low]: [u8; 2] = hex::digits(u64::from(*byte));
            text.push(high);
            text.push(low);
        }
        Digits { text }
    }
}

impl Display for Digits {
    ghost output = { λ x. Some x.text.items };

    fn fmt<W: fmt::Write>(&self, f: &mut fmt::Formatter<W>) -> fmt::Result {
        f.write_str(text_of(self.text.as_slice()))
    }
}

/// The 20 bytes of an entry behind a space.
#[derive(Clone, Copy)]
pub(crate) struct EntryBytes(pub(crate) ErrorEntry);

impl Display for EntryBytes {
    ghost output = { λ x. Some (entry_text x.0) };

    fn fmt<W: fmt::Write>(&self, f: &mut fmt::Formatter<W>) -> fmt::Result {
        write!(f, " {}", Digits::of(&self.0.serialize()))
    }
}
