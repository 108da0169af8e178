//! The SoC check where a clock is read between two moments, and the margin of one reading
//! (RULES 7.10). Both only read the head, with the check on or off, in any NMT state.
ghost use Rattle.std.specs.Prelude.{◌≡◌, [], ◌≤◌};
ghost use Rattle.node.specs.Plain.{Call};
ghost use Rattle.node.specs.Deadline.{elapsed, is_loss};
ghost use Rattle.node.specs.Refines.{plain};
ghost use Rattle.node.specs.InPlace.{Reading, range_said, margin_said};
ghost use Rattle.head.specs.Words.{head_of};

use crate::timing::{last_soc, limit, time_since};
use head::dictionary::od_of;
use head::state::Head;
use head::watch::soc_of;
use types::refusals::Refusal;
use watched::time::Time;

/// What the readings of a clock between two moments say of the SoC.
#[derive(Clone, Copy, PartialEq, Eq)]
pub enum SocVerdict {
    /// Each of them is a loss.
    Lost,
    /// None is.
    Kept,
    /// Some are, and some are not.
    Open,
}

// How long ago the last SoC was, in µs, at least 0.
fn elapsed(head: &Head, time: Time) -> u64
    ensures { (result ≡ elapsed (plain (head_of head.now) [] []) time.us) × (result ≤ time.us) }
{
    time_since(time.us, last_soc(soc_of(head)))
}

/// Whether the SoC is lost at a reading, as at a tick: the elapsed time is strictly above the
/// limit.
pub fn is_loss(head: &Head, time: Time) -> bool
    ensures { result ≡ is_loss (plain (head_of head.now) [] []) time.us }
{
    limit(od_of(head)) < elapsed(head, time)
}

/// The SoC between the earliest and the latest reading of a clock, in µs, 0 to 2^62 - 1, both
/// included. A reading after a loss is a loss, so the two ends say it of all between them. Refused,
/// in this order: TimeLimit for either, EarliestAfterLatest.
pub fn soc_range(head: &Head, earliest: u64, latest: u64) -> Result<SocVerdict, Refusal>
    ensures { Reading head.now (Call.range earliest latest) (range_said result) }
{
    let earliest = Time::try_from(earliest)?;
    let latest = Time::try_from(latest)?;
    if latest < earliest {
        return Err(Refusal::EarliestAfterLatest);
    }
    if is_loss(head, earliest) {
        return Ok(SocVerdict::Lost);
    }
    if is_loss(head, latest) {
        return Ok(SocVerdict::Open);
    }
    Ok(SocVerdict::Kept)
}

/// How much is left of the limit at a reading in µs, 0 to 2^62 - 1: limit minus elapsed, and below
/// 0 the SoC is lost. Refused by TimeLimit.
pub fn soc_margin(head: &Head, time: u64) -> Result<i64, Refusal>
    ensures { Reading head.now (Call.margin time) (margin_said result) }
{
    let time = Time::try_from(time)?;
    // Both numbers are below 2^63, so that a conversion that may fail would have an error that no
    // call brings.
    let limit = limit(od_of(head)) as i64;
    Ok(limit - elapsed(head, time) as i64)
}
