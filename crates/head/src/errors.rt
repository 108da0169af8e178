//! The threshold counters of a head in words, four words each, and the count of lost links.
ghost use Rattle.std.specs.Prelude.{◌≡◌, ◌≤◌, ◌<◌, slice_set};
ghost use Rattle.counters.specs.Counters.{of_kind};
ghost use Rattle.head.specs.Places as at;
ghost use Rattle.head.specs.Words.{word, counter_at, errors_of};
ghost use Rattle.head.specs.Written.{counter_written, each_written, levels_written};
ghost use Rattle.head.specs.Written.{thresholds_written};

use crate::state::Head;
use counters::counters::{ByKind, CnErrorCounters, CounterKind, ThresholdCounter};

// The counters, four words each: cumulative count, level, threshold, count of crossings.
const COLLISION: usize = 7;

const LOSS_OF_LINK: usize = 35;

// The first of the four words of a kind's counter.
fn place_of(kind: CounterKind) -> usize
    ensures { (result ≡ at.counter kind) × (result ≤ 31) }
{
    COLLISION + 4 * (kind as usize)
}

/// The counter of one kind.
pub fn counter_of(head: &Head, kind: CounterKind) -> ThresholdCounter
    ensures { result ≡ counter_at head.now (at.counter kind) }
{
    let place = place_of(kind);
    ThresholdCounter {
        cumulative_cnt: head[place],
        threshold_cnt: head[place + 1],
        threshold: head[place + 2],
        crossings_cnt: head[place + 3],
    }
}

/// Writes the counter of one kind, but for its threshold, which stays.
pub fn set_counter(head: &mut Head, kind: CounterKind, counter: ThresholdCounter)
    ensures { head.new ≡ counter_written head.old kind counter }
{
    let place = place_of(kind);
    head[place] = counter.cumulative_cnt;
    head[place + 1] = counter.threshold_cnt;
    head[place + 3] = counter.crossings_cnt;
}

/// The count of lost links.
pub fn links_of(head: &Head) -> u32
    ensures { result ≡ word head.now at.links }
{
    head[LOSS_OF_LINK]
}

/// Writes the count of lost links.
pub fn set_links(head: &mut Head, links: u32)
    ensures { head.new ≡ slice_set head.old at.links links }
{
    head[LOSS_OF_LINK] = links;
}

/// The counters of all kinds, and the count of lost links.
pub fn errors_of(head: &Head) -> CnErrorCounters
    ensures { result ≡ errors_of head.now }
{
    CnErrorCounters {
        counters: ByKind::new(|kind| counter_of(head, kind)),
        loss_of_link_cumulative: head[LOSS_OF_LINK],
    }
}

// Writes a word of each counter, the nth of its four.
fn set_each(head: &mut Head, nth: usize, words: ByKind<u32>)
    requires { nth < 4 }
    ensures { head.new ≡ each_written head.old nth (λ k. of_kind k words) }
{
    for (i, word) in words.each().iter().enumerate() {
        head[COLLISION + 4 * i + nth] = *word;
    }
}

/// Writes the levels of all counters, which a completed cycle changes.
pub fn set_levels(head: &mut Head, errors: CnErrorCounters)
    ensures { head.new ≡ levels_written head.old errors }
{
    let levels = ByKind::new(|kind| errors.counters.of(kind).threshold_cnt);
    set_each(head, 1, levels);
}

/// Writes the thresholds of all counters.
pub fn set_thresholds(head: &mut Head, errors: CnErrorCounters)
    ensures { head.new ≡ thresholds_written head.old errors }
{
    let thresholds = ByKind::new(|kind| errors.counters.of(kind).threshold);
    set_each(head, 2, thresholds);
}
