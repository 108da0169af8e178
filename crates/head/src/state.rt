//! What a head keeps (RULES 1): its words, and those of its parts that no crate below has as a
//! type.
ghost use Rattle.std.specs.Prelude.{◌≡◌};
ghost use Rattle.head.specs.Head.{moment_in};

/// The words of a head; specs/Places.antt says which is what.
pub type Head = [u32; 60];

/// When the watch over the cycle wakes: at a moment, which passes at the first tick at or after it,
/// or not at all.
#[derive(Clone, Copy, PartialEq, Eq)]
pub enum Deadline {
    /// At this moment, in µs.
    At(u64),
    /// Not at all.
    Nothing,
}

impl Deadline {
    /// The moment in µs, where there is one.
    pub fn moment(self) -> Option<u64>
        ensures { result ≡ moment_in self }
    {
        match self {
            Deadline::At(time) => Some(time),
            Deadline::Nothing => None,
        }
    }
}

/// The watch over the SoC (RULES 1.4).
#[derive(Clone, Copy, PartialEq, Eq)]
pub struct SocWatch {
    /// When the last SoC came, in µs; 0 in a fresh head.
    pub last_soc_reception_time_us: u64,
    /// Whether a tick whose deadline passes looks for a lost SoC.
    pub soc_timeout_check_active: bool,
    /// The deadline.
    pub next_tick_us: Deadline,
    /// A signal in a tick sets it, and start alone clears it.
    pub error_status_changed: bool,
}

/// The values of the object dictionary that a head keeps (RULES 1.5).
#[derive(Clone, Copy, PartialEq, Eq)]
pub struct Dictionary {
    /// The error register, object 0x1001.
    pub error_register: u8,
    /// The cycle, object 0x1006, in µs; where it is missing, 0 counts.
    pub cycle_time: Option<u32>,
    /// The tolerance of the SoC, object 0x1C14, in ns; where it is missing, 100,000 counts.
    pub tolerance: Option<u32>,
    /// Counter 1 of object 0x1102: the errors at the SoC check.
    pub counter_1: u32,
    /// Counter 2: the entries of crossings that joined queue and history.
    pub counter_2: u32,
    /// Counter 3: those that were dropped, as the queue was full.
    pub counter_3: u32,
    /// Counter 5: the signals that changed the error register.
    pub counter_5: u32,
}

/// The objects of the dictionary that may be missing, each numbered by its place in a head.
#[derive(Clone, Copy, PartialEq, Eq)]
pub enum Object {
    /// The cycle, object 0x1006, in µs.
    CycleTime = 44,
    /// The tolerance of the SoC, object 0x1C14, in ns.
    Tolerance = 46,
}

/// The counters of object 0x1102 that a head keeps, each numbered by its place in a head.
#[derive(Clone, Copy, PartialEq, Eq)]
pub enum Statistic {
    Counter1 = 48,
    Counter2 = 49,
    Counter3 = 50,
    Counter5 = 51,
}
