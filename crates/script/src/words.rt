//! The words of a line, each behind one space, and the numbers that they are.
ghost use Rattle.std.specs.Prelude.{◌≡◌, ◌≤◌, length, option_copied, IfSome};
ghost use Rattle.script.specs.Reads.{gives, word_length, first_word, behind_word, word, next_is};
ghost use Rattle.script.specs.Reads.{behind_next, ends, digit_behind, value_of, number_of};
ghost use Rattle.script.specs.Reads.{number_within, up_to};
ghost use Rattle.script.specs.Reads.{bits8, bits16, bits32, bits64, flag, object};
ghost use Rattle.script.specs.Numerals.{number_named, numeral_of, numeral};

use crate::numerals::{Named, number_named};

/// The words of a line that are not read yet: nothing, or each behind its space. What is read
/// leaves the rest.
#[derive(Clone, Copy)]
pub(crate) struct Words<'a> {
    /// What is left of the line.
    pub(crate) rest: &'a [u8],
}

// How many characters stand before the first space.
#[tactic(auto, unfolding(crate::specs::Reads::word_length))]
fn word_length(line: &[u8]) -> usize
    ensures { (result ≡ word_length line.now) × (result ≤ length line.now) }
{
    for (place, c) in line.iter().enumerate() {
        if *c == b' ' {
            return place;
        }
    }
    line.len()
}

// The number with a digit of a base, from 2 to 16, behind it, where it fits 64 bits.
fn digit_behind(number: u64, digit: u8, base: u32) -> Option<u64>
    requires { (2 ≤ base) × (base ≤ 16) }
    ensures { result ≡ digit_behind base number digit }
{
    let value = char::from(digit).to_digit(base)?;
    number
        .checked_mul(u64::from(base))?
        .checked_add(u64::from(value))
}

// The number that the digits are; there has to be one.
#[tactic(auto, unfolding(crate::specs::Reads::value_from))]
fn value(digits: &[u8], base: u32) -> Option<u64>
    requires { (2 ≤ base) × (base ≤ 16) }
    ensures { result ≡ value_of base digits.now }
{
    if digits.is_empty() {
        return None;
    }
    let mut number = 0;
    for digit in digits {
        number = digit_behind(number, *digit, base)?;
    }
    Some(number)
}

// The number that a word is: hexadecimal behind `0x`, or decimal.
#[tactic(auto, unfolding(crate::specs::Reads::number_of))]
fn number_of(word: &[u8]) -> Option<u64>
    ensures { result ≡ number_of word.now }
{
    match word {
        [b'0', b'x', digits @ ..] => value(digits, 16),
        _ => value(word, 10),
    }
}

/// The number that a word is, of at most so much.
#[tactic(auto, unfolding(crate::specs::Reads::number_within))]
pub(crate) fn number_within(word: &[u8], most: u64) -> Option<u64>
    ensures read { result ≡ number_within most word.now }
    ensures within { IfSome result (λ n. n ≤ most) }
{
    let number = number_of(word)?;
    (number <= most).then_some(number)
}

// The number that a word is by its digits, or by the name of an item.
#[tactic(auto, unfolding(crate::specs::Numerals::numeral_of))]
fn numeral_of<T: Named>(word: &[u8]) -> Option<u64>
    ensures { result ≡ numeral_of (number_named T.name_of T.number_of T.items) word.now }
{
    match number_of(word) {
        Some(number) => Some(number),
        None => number_named::<T>(word),
    }
}

impl<'a> Words<'a> {
    /// The name that a line begins with, and the words behind it.
    pub(crate) fn of(line: &'a [u8]) -> (&'a [u8], Words<'a>)
        ensures name { result.0.now ≡ first_word line.now }
        ensures words { result.1.rest.now ≡ behind_word line.now }
    {
        let (name, rest) = line.split_at(word_length(line));
        (name, Words { rest })
    }

    /// The next word.
    pub(crate) fn word(&mut self) -> Option<&'a [u8]>
        ensures { gives (option_copied result) self.new.rest.now ≡ word self.old.rest.now }
    {
        let [b' ', line @ ..] = self.rest else {
            return None;
        };
        let (word, rest) = line.split_at(word_length(line));
        self.rest = rest;
        Some(word)
    }

    /// Whether the next word is this one, which is read then.
    pub(crate) fn take(&mut self, word: &[u8]) -> bool
        ensures is_next { result ≡ next_is word.now self.old.rest.now }
        ensures rest { self.new.rest.now ≡ behind_next word.now self.old.rest.now }
    {
        let mut ahead = *self;
        let is_next = ahead.word().is_some_and(|next| next == word);
        if is_next {
            *self = ahead;
        }
        is_next
    }

    /// No word is left.
    pub(crate) fn end(&self) -> Option<()>
        ensures { result ≡ ends self.now.rest.now }
    {
        self.rest.is_empty().then_some(())
    }

    /// A number of at most so much.
    #[tactic(auto, unfolding(crate::specs::Reads::up_to))]
    pub(crate) fn up_to(&mut self, most: u64) -> Option<u64>
        ensures read { gives result self.new.rest.now ≡ up_to most self.old.rest.now }
        ensures within { IfSome result (λ n. n ≤ most) }
    {
        number_within(self.word()?, most)
    }

    /// A number of 64 bits.
    pub(crate) fn bits64(&mut self) -> Option<u64>
        ensures { gives result self.new.rest.now ≡ bits64 self.old.rest.now }
    {
        self.up_to(u64::MAX)
    }

    /// A number of 64 bits, or the name of an item.
    #[tactic(auto, unfolding(crate::specs::Numerals::numeral))]
    pub(crate) fn numeral<T: Named>(&mut self) -> Option<u64>
        ensures { gives result self.new.rest.now
            ≡ numeral (number_named T.name_of T.number_of T.items) self.old.rest.now }
    {
        numeral_of::<T>(self.word()?)
    }

    /// A number of 32 bits.
    pub(crate) fn bits32(&mut self) -> Option<u32>
        ensures { gives result self.new.rest.now ≡ bits32 self.old.rest.now }
    {
        Some(self.up_to(0xFFFF_FFFF)? as u32)
    }

    /// A number of 16 bits.
    pub(crate) fn bits16(&mut self) -> Option<u16>
        ensures { gives result self.new.rest.now ≡ bits16 self.old.rest.now }
    {
        Some(self.up_to(0xFFFF)? as u16)
    }

    /// A number of 8 bits.
    pub(crate) fn bits8(&mut self) -> Option<u8>
        ensures { gives result self.new.rest.now ≡ bits8 self.old.rest.now }
    {
        Some(self.up_to(0xFF)? as u8)
    }

    /// 0 or 1.
    pub(crate) fn flag(&mut self) -> Option<bool>
        ensures { gives result self.new.rest.now ≡ flag self.old.rest.now }
    {
        Some(self.up_to(1)? == 1)
    }

    /// A value of 32 bits, or `-`, a missing one.
    #[tactic(auto, unfolding(crate::specs::Reads::object))]
    pub(crate) fn object(&mut self) -> Option<Option<u32>>
        ensures { gives result self.new.rest.now ≡ object self.old.rest.now }
    {
        if self.take(b"-") {
            return Some(None);
        }
        Some(Some(self.bits32()?))
    }
}
