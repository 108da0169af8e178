//! What several words of a line are together.
ghost use Rattle.std.specs.Prelude.{◌≡◌};
ghost use Rattle.script.specs.Reads.{gives, optional, bits8, bits32, object};
ghost use Rattle.script.specs.Grammar.{carries_byte, carried, error, watched, dictionary};
ghost use Rattle.script.specs.Grammar.{thresholds, setup_by_place, setup, update, entry_type};
ghost use Rattle.script.specs.Grammar.{entry};

use crate::words::Words;
use calling::Call;
use counters::counters::Thresholds;
use entries::status_response::{EntryType, ErrorEntry, ErrorEntryMode};
use head::state::Dictionary;
use node::load::DictionaryUpdate;
use start::start::Setup;
use types::common::NetTime;
use types::frame::error::kinds::DllErrorKind;
use types::nmt::flags::FeatureFlags;
use watched::nodes::WatchedNode;

// Whether an error of a kind carries a byte: its node, or the state that an unexpected event met.
fn carries_byte(kind: u64) -> bool
    ensures { result ≡ carries_byte kind }
{
    matches!(kind, 9 | 10 | 12 | 18..=21)
}

impl Words<'_> {
    // A number that is a byte where it is read; any other counts as 0.
    fn carried(&mut self, is_read: bool) -> Option<u8>
        ensures { gives result self.new.rest.now ≡ carried is_read self.old.rest.now }
    {
        if is_read {
            self.bits8()
        } else {
            self.bits64().map(|_| 0)
        }
    }

    /// An error by its kind, and what it carries.
    #[tactic(auto, unfolding(crate::specs::Grammar::error))]
    pub(crate) fn error<'a>(&mut self) -> Option<Call<'a>>
        ensures { gives result self.new.rest.now ≡ error self.old.rest.now }
    {
        let kind = self.numeral::<DllErrorKind>()?;
        Some(Call::Error {
            kind,
            a: self.carried(carries_byte(kind))?,
            b: self.carried(kind == 18)?,
        })
    }

    /// A watched node as it stands in the run.
    #[tactic(auto, unfolding(crate::specs::Grammar::watched))]
    pub(crate) fn watched(&mut self) -> Option<WatchedNode>
        ensures { gives result self.new.rest.now ≡ watched self.old.rest.now }
    {
        Some(WatchedNode {
            node: u64::from(self.bits8()?),
            timeout: self.bits64()?,
            last_heard: self.bits64()?,
        })
    }

    // The dictionary values of a start.
    #[tactic(auto, unfolding(crate::specs::Grammar::dictionary))]
    fn dictionary(&mut self) -> Option<Dictionary>
        ensures { gives result self.new.rest.now ≡ dictionary self.old.rest.now }
    {
        Some(Dictionary {
            error_register: self.bits8()?,
            cycle_time: self.object()?,
            tolerance: self.object()?,
            counter_1: self.bits32()?,
            counter_2: self.bits32()?,
            counter_3: self.bits32()?,
            counter_5: self.bits32()?,
        })
    }

    // The thresholds of a start, all or none: left out they are 15 each.
    #[tactic(auto, unfolding(crate::specs::Grammar::thresholds))]
    fn thresholds(&mut self) -> Option<Thresholds>
        ensures { gives result self.new.rest.now ≡ thresholds self.old.rest.now }
    {
        if self.end().is_some() {
            return Some(Thresholds::same_for_all(15));
        }
        Some(Thresholds {
            collision: self.bits32()?,
            loss_of_soc: self.bits32()?,
            loss_of_soa: self.bits32()?,
            loss_of_preq: self.bits32()?,
            soc_jitter: self.bits32()?,
            crc_errors: self.bits32()?,
            heartbeat_timeout: self.bits32()?,
        })
    }

    /// What a start is given: by place where the first word is a number, and else by keys.
    #[tactic(auto, unfolding(crate::specs::Grammar::setup))]
    pub(crate) fn setup(&mut self) -> Option<Setup>
        ensures { gives result self.new.rest.now ≡ setup self.old.rest.now }
    {
        match self.rest {
            [_, b'0'..=b'9', ..] => self.setup_by_place(),
            _ => self.setup_by_keys(),
        }
    }

    #[tactic(auto, unfolding(crate::specs::Grammar::setup_by_place))]
    fn setup_by_place(&mut self) -> Option<Setup>
        ensures { gives result self.new.rest.now ≡ setup_by_place self.old.rest.now }
    {
        Some(Setup {
            node: self.bits8()?,
            feature_flags: FeatureFlags::from_bits_truncate(self.bits32()?),
            basic_ethernet_timeout: self.bits32()?,
            queue_capacity: self.bits64()?,
            od: self.dictionary()?,
            thresholds: self.thresholds()?,
        })
    }

    // Values that a load may name: none where the next word is not the name.
    fn named8(&mut self, name: &[u8]) -> Option<Option<u8>>
        ensures { gives result self.new.rest.now ≡ optional name.now bits8 self.old.rest.now }
    {
        if !self.take(name) {
            return Some(None);
        }
        Some(Some(self.bits8()?))
    }

    fn named32(&mut self, name: &[u8]) -> Option<Option<u32>>
        ensures { gives result self.new.rest.now ≡ optional name.now bits32 self.old.rest.now }
    {
        if !self.take(name) {
            return Some(None);
        }
        Some(Some(self.bits32()?))
    }

    fn named_object(&mut self, name: &[u8]) -> Option<Option<Option<u32>>>
        ensures { gives result self.new.rest.now ≡ optional name.now object self.old.rest.now }
    {
        if !self.take(name) {
            return Some(None);
        }
        Some(Some(self.object()?))
    }

    /// The values that a load names, in this order.
    #[tactic(auto, unfolding(crate::specs::Grammar::update))]
    pub(crate) fn update(&mut self) -> Option<DictionaryUpdate>
        ensures { gives result self.new.rest.now ≡ update self.old.rest.now }
    {
        Some(DictionaryUpdate {
            error_register: self.named8(b"register")?,
            cycle_time: self.named_object(b"cycle")?,
            tolerance: self.named_object(b"tolerance")?,
            counter_1: self.named32(b"c1")?,
            counter_2: self.named32(b"c2")?,
            counter_3: self.named32(b"c3")?,
            counter_5: self.named32(b"c5")?,
        })
    }

    /// An entry that is written.
    #[tactic(auto, unfolding(crate::specs::Grammar::entry))]
    pub(crate) fn entry(&mut self) -> Option<ErrorEntry>
        ensures { gives result self.new.rest.now ≡ entry self.old.rest.now }
    {
        Some(ErrorEntry {
            entry_type: self.entry_type()?,
            error_code: self.bits16()?,
            timestamp: NetTime {
                seconds: self.bits32()?,
                nanoseconds: self.bits32()?,
            },
            additional_information: self.bits64()?,
        })
    }

    #[tactic(auto, unfolding(crate::specs::Grammar::entry_type))]
    fn entry_type(&mut self) -> Option<EntryType>
        ensures { gives result self.new.rest.now ≡ entry_type self.old.rest.now }
    {
        Some(EntryType {
            is_status_entry: self.flag()?,
            send_to_queue: self.flag()?,
            mode: ErrorEntryMode::from_bits(self.up_to(3)? as u16),
            profile: self.bits16()?,
        })
    }
}
