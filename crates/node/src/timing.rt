//! The times of a head: how long ago one was, and how the values of the dictionary are read as
//! times.
ghost use Rattle.std.specs.Prelude.{◌≡◌, ◌-◌, ◌≤◌, ◌/◌, min};
ghost use Rattle.node.specs.Steps.{cycle_of, tolerance_of, limit_of, armed};

use head::state::{Deadline, Dictionary, SocWatch};
use watched::time::{LATEST_TIME, Time};

/// How long ago a moment is, at least 0.
pub fn time_since(time: u64, moment: u64) -> u64
    ensures { result ≡ time - moment }
{
    time.saturating_sub(moment)
}

/// The cycle, in µs; 0 where it is missing.
pub fn cycle(od: Dictionary) -> u64
    ensures { (result ≡ cycle_of od) × (result ≤ 4294967295) }
{
    u64::from(od.cycle_time.unwrap_or(0))
}

/// The tolerance, in µs rounded down; 100 where it is missing.
pub fn tolerance_us(od: Dictionary) -> u64
    ensures { (result ≡ tolerance_of od / 1000) × (result ≤ 4294967) }
{
    u64::from(od.tolerance.unwrap_or(100000)) / 1000
}

/// How long after the last SoC the next one is late, in µs: cycle + tolerance.
pub fn limit(od: Dictionary) -> u64
    ensures { (result ≡ limit_of od) × (result ≤ 4299262262) }
{
    cycle(od) + tolerance_us(od)
}

/// The time of the last SoC, in µs, at most 2^62 - 1. No call leaves a later one; one is read as
/// that.
pub fn last_soc(soc: SocWatch) -> u64
    ensures { result ≡ min soc.last_soc_reception_time_us 4611686018427387903 }
{
    soc.last_soc_reception_time_us.min(LATEST_TIME)
}

/// The watch with an SoC at a time: the check is on where the cycle is above 0, with the deadline
/// behind the limit.
pub(crate) fn armed(soc: SocWatch, od: Dictionary, time: Time) -> SocWatch
    ensures { result ≡ armed soc od time.us }
{
    let on = 0 < cycle(od);
    SocWatch {
        last_soc_reception_time_us: time.us,
        soc_timeout_check_active: on,
        next_tick_us: if on {
            Deadline::At(time.us + limit(od))
        } else {
            Deadline::Nothing
        },
        ..soc
    }
}
