//! A start by keys: words `KEY=VALUE` in any order.
ghost use Rattle.std.specs.Prelude.{◌≡◌, option_map, option_copied, MatchOption};
ghost use Rattle.script.specs.Reads.{gives};
ghost use Rattle.script.specs.Keys.{words_within, value_behind, without, keyed8, keyed32, keyed64};
ghost use Rattle.script.specs.Keys.{object_of, keyed_object, keyed_dictionary, keyed_thresholds};
ghost use Rattle.script.specs.Keys.{keyed_setup, texts, no_words, setup_by_keys};
ghost use Rattle.script.specs.Keys.{Lacks, Finds};

use crate::words::{Words, number_within};
use arrayvec::ArrayVec;
use counters::counters::Thresholds;
use head::state::Dictionary;
use start::start::Setup;
use types::nmt::flags::FeatureFlags;

/// The words that are not read yet, without their spaces: at most 18, as many as there are keys.
#[derive(Drop)]
pub(crate) struct Keys<'a> {
    words: ArrayVec<&'a [u8], 18>,
}

// A missing value, `-`, or one of 32 bits.
fn object_of(value: &[u8]) -> Option<Option<u32>>
    ensures { result ≡ object_of value.now }
{
    if value == b"-".as_slice() {
        return Some(None);
    }
    Some(Some(number_within(value, 0xFFFF_FFFF)? as u32))
}

// The place of the first word that has a key, and what stands behind the key.
fn find<'a>(words: &[&'a [u8]], key: &[u8]) -> Option<(usize, &'a [u8])>
    ensures { MatchOption result (Lacks key.now words.now)
        (λ x. Finds key.now words.now x.0 x.1.now) }
{
    for (place, word) in words.iter().enumerate() {
        if let Some(value) = word.strip_prefix(key) {
            return Some((place, value));
        }
    }
    None
}

impl<'a> Keys<'a> {
    /// The words that are left of a line; none where they are more than the keys.
    pub(crate) fn of(words: &Words<'a>) -> Option<Keys<'a>>
        ensures { option_map (λ k. texts k.words.items) result
            ≡ words_within 18 words.now.rest.now }
    {
        let mut keys = Keys {
            words: ArrayVec::new(),
        };
        let mut ahead = *words;
        while ahead.end().is_none() {
            keys.words.try_push(ahead.word()?).ok()?;
        }
        Some(keys)
    }

    // What stands behind a key, whose first word is read then.
    fn take(&mut self, key: &[u8]) -> Option<&'a [u8]>
        ensures value { option_copied result
            ≡ value_behind key.now (texts self.old.words.items) }
        ensures rest { texts self.new.words.items ≡ without key.now (texts self.old.words.items) }
    {
        let (place, value) = find(&self.words, key)?;
        self.words.remove(place);
        Some(value)
    }

    #[tactic(auto, unfolding(crate::specs::Keys::keyed8))]
    fn bits8(&mut self, key: &[u8], left_out: Option<u8>) -> Option<u8>
        ensures { gives result (texts self.new.words.items)
            ≡ keyed8 key.now left_out (texts self.old.words.items) }
    {
        match self.take(key) {
            Some(value) => Some(number_within(value, 0xFF)? as u8),
            None => left_out,
        }
    }

    #[tactic(auto, unfolding(crate::specs::Keys::keyed32))]
    fn bits32(&mut self, key: &[u8], left_out: u32) -> Option<u32>
        ensures { gives result (texts self.new.words.items)
            ≡ keyed32 key.now left_out (texts self.old.words.items) }
    {
        match self.take(key) {
            Some(value) => Some(number_within(value, 0xFFFF_FFFF)? as u32),
            None => Some(left_out),
        }
    }

    #[tactic(auto, unfolding(crate::specs::Keys::keyed64))]
    fn bits64(&mut self, key: &[u8], left_out: u64) -> Option<u64>
        ensures { gives result (texts self.new.words.items)
            ≡ keyed64 key.now left_out (texts self.old.words.items) }
    {
        match self.take(key) {
            Some(value) => number_within(value, u64::MAX),
            None => Some(left_out),
        }
    }

    #[tactic(auto, unfolding(crate::specs::Keys::keyed_object))]
    fn object(&mut self, key: &[u8]) -> Option<Option<u32>>
        ensures { gives result (texts self.new.words.items)
            ≡ keyed_object key.now (texts self.old.words.items) }
    {
        match self.take(key) {
            Some(value) => object_of(value),
            None => Some(None),
        }
    }

    // The dictionary values: left out they are 0, cycle and tolerance missing.
    #[tactic(auto, unfolding(crate::specs::Keys::keyed_dictionary))]
    fn dictionary(&mut self) -> Option<Dictionary>
        ensures { gives result (texts self.new.words.items)
            ≡ keyed_dictionary (texts self.old.words.items) }
    {
        Some(Dictionary {
            error_register: self.bits8(b"register=", Some(0))?,
            cycle_time: self.object(b"cycle=")?,
            tolerance: self.object(b"tolerance=")?,
            counter_1: self.bits32(b"c1=", 0)?,
            counter_2: self.bits32(b"c2=", 0)?,
            counter_3: self.bits32(b"c3=", 0)?,
            counter_5: self.bits32(b"c5=", 0)?,
        })
    }

    // The thresholds: left out they are 15 each.
    #[tactic(auto, unfolding(crate::specs::Keys::keyed_thresholds))]
    fn thresholds(&mut self) -> Option<Thresholds>
        ensures { gives result (texts self.new.words.items)
            ≡ keyed_thresholds (texts self.old.words.items) }
    {
        Some(Thresholds {
            collision: self.bits32(b"collision=", 15)?,
            loss_of_soc: self.bits32(b"loss_of_soc=", 15)?,
            loss_of_soa: self.bits32(b"loss_of_soa=", 15)?,
            loss_of_preq: self.bits32(b"loss_of_preq=", 15)?,
            soc_jitter: self.bits32(b"soc_jitter=", 15)?,
            crc_errors: self.bits32(b"crc_errors=", 15)?,
            heartbeat_timeout: self.bits32(b"heartbeat_timeout=", 15)?,
        })
    }

    // What a start is given, of the words that have its keys.
    #[tactic(auto, unfolding(crate::specs::Keys::keyed_setup))]
    fn setup(&mut self) -> Option<Setup>
        ensures { gives result (texts self.new.words.items)
            ≡ keyed_setup (texts self.old.words.items) }
    {
        Some(Setup {
            node: self.bits8(b"node=", None)?,
            feature_flags: FeatureFlags::from_bits_truncate(self.bits32(b"flags=", 0)?),
            basic_ethernet_timeout: self.bits32(b"timeout=", 0)?,
            queue_capacity: self.bits64(b"queue=", 32)?,
            od: self.dictionary()?,
            thresholds: self.thresholds()?,
        })
    }

    // No word is left.
    fn end(&self) -> Option<()>
        ensures { result ≡ no_words (texts self.now.words.items) }
    {
        self.words.is_empty().then_some(())
    }
}

impl Words<'_> {
    /// What a start is given by keys, to the end of the line: the words are those that have a key,
    /// and each key has one word at most.
    #[tactic(auto, unfolding(crate::specs::Keys::setup_by_keys))]
    pub(crate) fn setup_by_keys(&mut self) -> Option<Setup>
        ensures { gives result self.new.rest.now ≡ setup_by_keys self.old.rest.now }
    {
        let mut keys = Keys::of(self)?;
        let setup = keys.setup()?;
        keys.end()?;
        self.rest = &[];
        Some(setup)
    }
}
