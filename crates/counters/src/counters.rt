//! The threshold counters (EPSG DS 301, Section 4.7.4.1) and those of a controlled node
//! (Section 4.7.8). Counts and levels have 32 bits and stop at 2^32 - 1.
ghost use Rattle.std.specs.Prelude.{◌≡◌, true, false, map};
ghost use Rattle.types.specs.Pick.{pick};
ghost use Rattle.counters.specs.Counters.{new_counter, incremented, decremented, active};
ghost use Rattle.counters.specs.Counters.{after_check, after_error};
ghost use Rattle.counters.specs.Counters.{of_kind, counter_kinds, same_for_all, thresholds_fit};
ghost use Rattle.counters.specs.Counters.{new_counters, replaced, replied, counted_error};
ghost use Rattle.counters.specs.Counters.{effect, effect_of, handled};
ghost use Rattle.counters.specs.Counters.{lowered, any_active, completed};

use types::frame::error::types::{DllError, DllErrors, NmtAction};

/// What an error adds to the level of its counter.
pub const ERROR_WEIGHT: u32 = 8;

/// A threshold counter: an error raises its level by 8, a completed cycle lowers it by 1.
#[derive(Clone, Copy, PartialEq, Eq)]
pub struct ThresholdCounter {
    /// How many errors were given to the counter.
    pub cumulative_cnt: u32,
    /// The level.
    pub threshold_cnt: u32,
    /// The level that is a crossing; 0 never crosses.
    pub threshold: u32,
    /// How often the threshold was reached.
    pub crossings_cnt: u32,
}

impl ThresholdCounter {
    /// A counter with this threshold and all else 0.
    pub fn new(threshold: u32) -> Self
        ensures { result ≡ new_counter threshold }
    {
        Self {
            cumulative_cnt: 0,
            threshold_cnt: 0,
            threshold,
            crossings_cnt: 0,
        }
    }

    /// Counts an error: the cumulative count rises by 1 and the level by 8.
    pub fn increment(&mut self)
        ensures { self.new ≡ incremented self.old }
    {
        self.cumulative_cnt = self.cumulative_cnt.saturating_add(1);
        self.threshold_cnt = self.threshold_cnt.saturating_add(ERROR_WEIGHT);
    }

    /// A completed cycle: takes 1 from a level above 0.
    pub fn decrement(&mut self)
        ensures { self.new ≡ decremented self.old }
    {
        self.threshold_cnt = self.threshold_cnt.saturating_sub(1);
    }

    /// Whether the level has reached the threshold, which one of 0 never has. Then the level drops
    /// to 0 and the count of crossings rises by 1.
    pub fn check_and_reset(&mut self) -> bool
        ensures counter { self.new ≡ (after_check self.old).counter }
        ensures reached { result ≡ (after_check self.old).reached }
    {
        let reached = 0 < self.threshold && self.threshold <= self.threshold_cnt;
        if reached {
            self.threshold_cnt = 0;
            self.crossings_cnt = self.crossings_cnt.saturating_add(1);
        }
        reached
    }

    /// Counts an error and checks the level: whether it crossed (RULES 6.2, 6.3).
    #[tactic(auto, unfolding(crate::specs::Counters::after_error))]
    pub fn count_error(&mut self) -> bool
        ensures counter { self.new ≡ (after_error self.old).counter }
        ensures reached { result ≡ (after_error self.old).reached }
    {
        self.increment();
        self.check_and_reset()
    }

    /// Whether the level is above 0.
    pub fn is_active(self) -> bool
        ensures { result ≡ active self }
    {
        0 < self.threshold_cnt
    }

    /// How many errors were given to the counter.
    pub fn cumulative_count(self) -> u32
        ensures { result ≡ self.cumulative_cnt }
    {
        self.cumulative_cnt
    }
}

/// The kinds of error that have a threshold counter, in the order in which thresholds are given.
#[derive(Clone, Copy, PartialEq, Eq)]
pub enum CounterKind {
    Collision,
    LossOfSoc,
    LossOfSoa,
    LossOfPreq,
    SoCJitter,
    Crc,
    HeartbeatTimeout,
}

/// What an error does to the counters (RULES 6.3, 6.5).
#[derive(Clone, Copy, PartialEq, Eq)]
pub enum ErrorEffect {
    /// It goes to the counter of its kind.
    Counts(CounterKind),
    /// It raises the count of lost links, is logged and signalled.
    LosesLink,
    /// It is logged and signalled, and no count rises.
    IsLogged,
    /// It changes nothing.
    Nothing,
}

/// What an error does to the counters.
pub fn effect_of(error: DllError) -> ErrorEffect
    ensures { effect_of result ≡ effect error }
{
    match error {
        DllError::LossOfSoc => ErrorEffect::Counts(CounterKind::LossOfSoc),
        DllError::LossOfSoa => ErrorEffect::Counts(CounterKind::LossOfSoa),
        DllError::LossOfPreq => ErrorEffect::Counts(CounterKind::LossOfPreq),
        DllError::Crc => ErrorEffect::Counts(CounterKind::Crc),
        DllError::Collision => ErrorEffect::Counts(CounterKind::Collision),
        DllError::SoCJitter => ErrorEffect::Counts(CounterKind::SoCJitter),
        DllError::HeartbeatTimeout { .. } => ErrorEffect::Counts(CounterKind::HeartbeatTimeout),
        DllError::LossOfLink => ErrorEffect::LosesLink,
        DllError::PdoMapVersion { .. } | DllError::PdoPayloadShort { .. } => ErrorEffect::IsLogged,
        // Errors of a managing node, and those that have no counter.
        _ => ErrorEffect::Nothing,
    }
}

/// A value for each kind that has a counter.
#[derive(Clone, Copy, PartialEq, Eq)]
pub struct ByKind<T> {
    pub collision: T,
    pub loss_of_soc: T,
    pub loss_of_soa: T,
    pub loss_of_preq: T,
    pub soc_jitter: T,
    pub crc_errors: T,
    pub heartbeat_timeout: T,
}

impl<T: Copy> ByKind<T> {
    /// For each kind the value that `of` gives for it.
    pub fn new<F: Fn(CounterKind) -> T>(of: F) -> Self
        requires { F.IsAlwaysCallable of }
        ensures { (k : CounterKind) → F.post of k (of_kind k result) }
    {
        Self {
            collision: of(CounterKind::Collision),
            loss_of_soc: of(CounterKind::LossOfSoc),
            loss_of_soa: of(CounterKind::LossOfSoa),
            loss_of_preq: of(CounterKind::LossOfPreq),
            soc_jitter: of(CounterKind::SoCJitter),
            crc_errors: of(CounterKind::Crc),
            heartbeat_timeout: of(CounterKind::HeartbeatTimeout),
        }
    }

    /// The value of a kind.
    pub fn of(self, kind: CounterKind) -> T
        ensures { result ≡ of_kind kind self }
    {
        match kind {
            CounterKind::Collision => self.collision,
            CounterKind::LossOfSoc => self.loss_of_soc,
            CounterKind::LossOfSoa => self.loss_of_soa,
            CounterKind::LossOfPreq => self.loss_of_preq,
            CounterKind::SoCJitter => self.soc_jitter,
            CounterKind::Crc => self.crc_errors,
            CounterKind::HeartbeatTimeout => self.heartbeat_timeout,
        }
    }

    /// The values of the seven kinds, in their order.
    pub fn each(self) -> [T; 7]
        ensures { result ≡ map (λ k. of_kind k self) counter_kinds }
    {
        [
            self.collision,
            self.loss_of_soc,
            self.loss_of_soa,
            self.loss_of_preq,
            self.soc_jitter,
            self.crc_errors,
            self.heartbeat_timeout,
        ]
    }
}

/// The thresholds of the seven counters, each 0 to 1,000,000; one of 0 is never reached.
pub type Thresholds = ByKind<u32>;

impl ByKind<u32> {
    /// The same threshold for all kinds; the original has 15.
    pub fn same_for_all(threshold: u32) -> Self
        ensures { result ≡ same_for_all threshold }
    {
        Self::new(|_| threshold)
    }

    /// Whether each threshold is at most 1,000,000.
    #[tactic(auto, unfolding(crate::specs::Counters::thresholds_fit))]
    pub fn is_within_limit(self) -> bool
        ensures { result ≡ thresholds_fit self }
    {
        self.each().iter().all(|threshold| *threshold <= 1_000_000)
    }
}

/// The error counters of a controlled node.
#[derive(Clone, Copy, PartialEq, Eq)]
pub struct CnErrorCounters {
    pub counters: ByKind<ThresholdCounter>,
    /// How many links were lost; nothing sets it back.
    pub loss_of_link_cumulative: u32,
}

/// What an error answers. Callers read the three apart, so this is no enum.
#[derive(Clone, Copy, PartialEq, Eq)]
pub struct ErrorTaken {
    /// What the NMT machine is asked to do: nothing, or ResetCommunication.
    pub action: NmtAction,
    /// Whether the error is signalled; what a tick does then, RULES 7.9 says.
    pub signal: bool,
    /// The error, where it is logged.
    pub logged: DllErrors,
}

impl ErrorTaken {
    /// No action, no signal, nothing logged.
    pub fn unsignalled() -> Self
        ensures { result ≡
            record { action = NmtAction.None; signal = false; logged = DllErrors.None } }
    {
        Self {
            action: NmtAction::None,
            signal: false,
            logged: DllErrors::None,
        }
    }

    /// This action; the error is signalled and logged.
    pub fn signalled(action: NmtAction, error: DllError) -> Self
        ensures { result ≡ record { action = action; signal = true; logged = DllErrors.One error } }
    {
        Self {
            action,
            signal: true,
            logged: DllErrors::One(error),
        }
    }

    /// The answer to an error that was counted: only a crossing asks for ResetCommunication, is
    /// signalled and logged.
    pub fn counted(crossed: bool, error: DllError) -> Self
        ensures { result ≡
            record {
              action = pick crossed NmtAction.ResetCommunication NmtAction.None;
              signal = crossed;
              logged = pick crossed (DllErrors.One error) DllErrors.None;
            } }
    {
        if crossed {
            Self::signalled(NmtAction::ResetCommunication, error)
        } else {
            Self::unsignalled()
        }
    }
}

impl CnErrorCounters {
    /// Counters with these thresholds, and all levels and counts 0.
    pub fn new(thresholds: Thresholds) -> Self
        ensures { result ≡ new_counters thresholds }
    {
        Self {
            counters: ByKind::new(|kind| ThresholdCounter::new(thresholds.of(kind))),
            loss_of_link_cumulative: 0,
        }
    }

    // Replaces the counter of a kind.
    #[tactic(auto, unfolding(crate::specs::Counters::replaced))]
    fn replace(&mut self, kind: CounterKind, by: ThresholdCounter)
        ensures { self.new ≡ replaced kind by self.old }
    {
        let before = self.counters;
        self.counters = ByKind::new(|k| if k == kind { by } else { before.of(k) });
    }

    // Gives an error to the counter of a kind.
    #[tactic(auto, unfolding(crate::specs::Counters::counted_error))]
    fn count(&mut self, kind: CounterKind, error: DllError) -> ErrorTaken
        ensures counters { self.new ≡ (counted_error kind self.old error).counters }
        ensures taken { result ≡ replied (counted_error kind self.old error) }
    {
        let mut counter = self.counters.of(kind);
        let reached = counter.count_error();
        self.replace(kind, counter);
        ErrorTaken::counted(reached, error)
    }

    /// Takes an error, and says whether it asks for an action, is signalled and is logged
    /// (RULES 6.2 to 6.6). A kind without a counter of its own is handled as RULES 6.5 says.
    #[tactic(auto, unfolding(crate::specs::Counters::handled))]
    pub fn handle_error(&mut self, error: DllError) -> ErrorTaken
        ensures counters { self.new ≡ (handled self.old error).counters }
        ensures taken { result ≡ replied (handled self.old error) }
    {
        match effect_of(error) {
            ErrorEffect::Counts(kind) => self.count(kind, error),
            ErrorEffect::LosesLink => {
                self.loss_of_link_cumulative = self.loss_of_link_cumulative.saturating_add(1);
                ErrorTaken::signalled(NmtAction::None, error)
            }
            ErrorEffect::IsLogged => ErrorTaken::signalled(NmtAction::None, error),
            ErrorEffect::Nothing => ErrorTaken::unsignalled(),
        }
    }

    // Takes 1 from each level above 0.
    #[tactic(auto, unfolding(crate::specs::Counters::lowered))]
    fn decrement(&mut self)
        ensures { self.new ≡ lowered self.old }
    {
        let before = self.counters;
        self.counters = ByKind::new(|kind| {
            let mut counter = before.of(kind);
            counter.decrement();
            counter
        });
    }

    // Whether a level is above 0. Field by field, so that all are tested without a jump.
    #[tactic(auto, unfolding(crate::specs::Counters::any_active))]
    fn is_any_active(self) -> bool
        ensures { result ≡ any_active self }
    {
        self.counters.collision.is_active()
            || self.counters.loss_of_soc.is_active()
            || self.counters.loss_of_soa.is_active()
            || self.counters.loss_of_preq.is_active()
            || self.counters.soc_jitter.is_active()
            || self.counters.crc_errors.is_active()
            || self.counters.heartbeat_timeout.is_active()
    }

    /// A completed cycle takes 1 from each level above 0. Answers whether one was above 0 before
    /// and none is after (RULES 6.4).
    #[tactic(auto, unfolding(crate::specs::Counters::completed))]
    pub fn on_cycle_complete(&mut self) -> bool
        ensures counters { self.new ≡ (completed self.old).counters }
        ensures cleared { result ≡ (completed self.old).cleared }
    {
        let was_active = self.is_any_active();
        self.decrement();
        was_active && !self.is_any_active()
    }
}
