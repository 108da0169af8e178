//! The numbered refusals. A call that is refused answers one of these and changes nothing.
ghost use Rattle.std.specs.Prelude.{◌≡◌, Some};
ghost use Rattle.types.specs.Refusals.{refusal_number, refusal_text};

use std::error::Error;
use std::fmt;
use std::fmt::Display;

/// Why a call is refused, by its number.
#[derive(Clone, Copy, Debug, PartialEq, Eq)]
pub enum Refusal {
    /// A node's number is not 1 to 240, 253, 254 or 255.
    NodeNumber = 1,
    /// The emergency queue is to hold more than 32 entries.
    QueueCapacity = 2,
    /// The run of watched nodes is not of 32 places, more than 32 are watched, or those are out of
    /// order or have a number or a time outside its limits.
    WatchedNodes = 3,
    /// A number names no NMT state, NMT event, command, DLL event or kind of error.
    UnknownNumber = 4,
    /// A time is above 2^62 - 1 µs.
    TimeLimit = 5,
    /// The time of a tick is before a watched node was last heard.
    BeforeHeard = 6,
    /// The node is not watched.
    NotWatched = 7,
    /// The ready word can't be withdrawn at ReadyToOperate.
    ReadyToOperate = 8,
    /// A node is to be added where 32 are watched.
    AllWatched = 9,
    /// A node is to be added that is watched already.
    AlreadyWatched = 10,
    /// Fewer than 20 bytes are left from the place on, or the place is past the end.
    BufferTooShort = 11,
    /// The profile of an entry is above 4095.
    ProfileLimit = 12,
    /// An error code names no single kind.
    NoSingleKind = 13,
    /// A threshold is above 1,000,000.
    ThresholdLimit = 14,
    /// A recipe has no component or more than 16, a bin that is not 1 to 64 or stands twice, or
    /// grams that are not 1 to 30,000.
    RecipeLimits = 15,
    /// A recipe is to be loaded outside PreOperational2.
    NotPreOperational2 = 16,
    /// A weight is wanted outside Operational, or for a place that is not in the recipe.
    NoWeight = 17,
    /// A frame has fewer bytes than its kind needs.
    FrameTooShort = 18,
    /// A frame's EtherType is not 0x88AB.
    OtherEtherType = 19,
    /// A frame's message type is none of SoC, PReq, PRes, SoA and ASnd.
    OtherMessageType = 20,
    /// The earliest reading of a clock is after the latest.
    EarliestAfterLatest = 21,
}

impl Refusal {
    /// The refusal's number, 1 to 21.
    pub fn number(self) -> u8
        ensures { result ≡ refusal_number self }
    {
        self as u8
    }

    /// Why the call is refused, as a text without a full stop.
    pub fn text(self) -> &'static str
        ensures { result.now ≡ refusal_text self }
    {
        match self {
            Refusal::NodeNumber => "the node's number is not 1 to 240, 253, 254 or 255",
            Refusal::QueueCapacity => "the emergency queue is to hold more than 32 entries",
            Refusal::WatchedNodes => "the run of watched nodes is not well formed",
            Refusal::UnknownNumber =>
                "the number names no NMT state, NMT event, command, DLL event or kind of error",
            Refusal::TimeLimit => "the time is above 2^62 - 1 microseconds",
            Refusal::BeforeHeard => "the time is before a watched node was last heard",
            Refusal::NotWatched => "the node is not watched",
            Refusal::ReadyToOperate => "the ready word can't be withdrawn at ReadyToOperate",
            Refusal::AllWatched => "32 nodes are watched already",
            Refusal::AlreadyWatched => "the node is watched already",
            Refusal::BufferTooShort => "fewer than 20 bytes are left from the place on",
            Refusal::ProfileLimit => "the profile of the entry is above 4095",
            Refusal::NoSingleKind => "the error code names no single kind",
            Refusal::ThresholdLimit => "a threshold is above 1,000,000",
            Refusal::RecipeLimits => "the recipe is outside its limits",
            Refusal::NotPreOperational2 => "a recipe is loaded in PreOperational2 alone",
            Refusal::NoWeight => "no weight is told for the place now",
            Refusal::FrameTooShort => "the frame is too short",
            Refusal::OtherEtherType => "the frame's EtherType is not POWERLINK's",
            Refusal::OtherMessageType => "the frame's message type is unknown",
            Refusal::EarliestAfterLatest => "the earliest reading is after the latest",
        }
    }
}

/// Its text.
impl Display for Refusal {
    ghost output = { λ r. Some (refusal_text r) };

    fn fmt<W: fmt::Write>(&self, f: &mut fmt::Formatter<W>) -> fmt::Result {
        f.write_str(self.text())
    }
}

impl Error for Refusal {}
