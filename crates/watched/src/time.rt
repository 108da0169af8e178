//! The times that a call takes: µs, at most 2^62 - 1.
ghost use Rattle.std.specs.Prelude.{◌≡◌, ◌≤◌, true, false, MatchResult};
ghost use Rattle.types.specs.declared.refusals.Refusal.TheVariants.{TimeLimit};
ghost use Rattle.watched.specs.Watched.{in_time};

use types::refusals::Refusal;

/// The latest time that a call takes, in µs: 2^62 - 1.
pub const LATEST_TIME: u64 = 4611686018427387903;

/// Whether a time in µs is at most 2^62 - 1.
pub fn in_time(time: u64) -> bool
    ensures { result ≡ in_time time }
{
    time <= LATEST_TIME
}

/// A time in µs of at most 2^62 - 1.
#[derive(Clone, Copy, PartialEq, Eq, PartialOrd, Ord)]
pub struct Time {
    pub us: u64,
    pub ghost in_time: { us ≤ 4611686018427387903 },
}

/// The time of so many µs; refused by TimeLimit where they are above 2^62 - 1.
impl TryFrom<u64> for Time {
    type Error = Refusal;

    ghost try_from_gives = { λ us r. MatchResult r
        (λ time. (time.us ≡ us) × (in_time us ≡ true))
        (λ e. (e ≡ TimeLimit) × (in_time us ≡ false)) };

    fn try_from(us: u64) -> Result<Self, Refusal> {
        if !in_time(us) {
            return Err(Refusal::TimeLimit);
        }
        Ok(Time { us })
    }
}
