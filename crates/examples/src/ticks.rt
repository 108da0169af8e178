//! The examples 8 to 12 of RULES 11.4: ticks, times in µs. Each answers whether all came as the
//! specs of `node` state it.
ghost use Rattle.std.specs.Prelude.{◌≡◌};
ghost use Rattle.node.specs.Examples as table;
ghost use Rattle.examples.specs.Shown.{Stands, ShownOn};

use crate::bench::Bench;
use crate::comes::{heard_comes, tick_comes};
use crate::heads::{awaiting, counting, crossed, cycling, node_five, watch_none, watching};
use crate::memory::{is_recorded, waits};
use crate::runs::is_watching;
use entries::status_response::{EntryType, ErrorEntry};
use head::state::Head;
use types::common::NetTime;
use types::frame::error::types::{DllError, DllErrors};

// `early`, `at_limit` and `above_limit` differ in numbers only, but each is proved against its own
// example.

/// Operational, WaitSoc, check on, levels 0, last SoC 10,000, deadline 10,500, tick at 10,500:
/// deadline 11,100.
pub fn early(bench: &mut Bench, after: &mut Head) -> bool
    ensures { ShownOn table.early bench.new 0 result }
{
    watch_none(&mut bench.nodes);
    cycling(&mut bench.head, 10500, 0, 0);
    cycling(after, 11100, 0, 0);
    tick_comes(bench, 0, 10500, DllErrors::None, after)
}

/// The same with the deadline 11,100, tick at 11,100: no loss, deadline 12,100.
pub fn at_limit(bench: &mut Bench, after: &mut Head) -> bool
    ensures { ShownOn table.at_limit bench.new 0 result }
{
    watch_none(&mut bench.nodes);
    cycling(&mut bench.head, 11100, 0, 0);
    cycling(after, 12100, 0, 0);
    tick_comes(bench, 0, 11100, DllErrors::None, after)
}

/// The same, tick at 11,101: a loss, level 8, deadline 12,100.
pub fn above_limit(bench: &mut Bench, after: &mut Head) -> bool
    ensures { ShownOn table.above_limit bench.new 0 result ×
        Stands bench.new.head (table.cycling 12100 8 1) }
{
    watch_none(&mut bench.nodes);
    cycling(&mut bench.head, 11100, 0, 0);
    cycling(after, 12100, 8, 1);
    tick_comes(bench, 0, 11101, DllErrors::None, after)
}

// The entry of the crossing.
fn crossing_entry() -> ErrorEntry
    ensures { result ≡ table.entry }
{
    ErrorEntry {
        entry_type: EntryType::QUEUED_EVENT,
        error_code: 0x8245,
        timestamp: NetTime {
            seconds: 0,
            nanoseconds: 12100000,
        },
        additional_information: 0,
    }
}

/// Then a tick at 12,100: a crossing, with the entry 0x8245 at 0 s 12,100,000 ns; PreOperational1,
/// check off, no deadline.
pub fn then_crossing(bench: &mut Bench, after: &mut Head) -> bool
    ensures { ShownOn table.then_crossing bench.new 0 result }
{
    let lost = above_limit(bench, after);
    crossed(after);
    let crossed = tick_comes(bench, 0, 12100, DllErrors::One(DllError::LossOfSoc), after);
    let entry = crossing_entry();
    lost & crossed
        & waits(&bench.head, &bench.queue, entry)
        & is_recorded(&bench.head, &bench.history, entry)
}

/// Operational, a node with timeout 50 that was heard at 100: in time at 150, late at 151. The
/// earliest moment is 151, and 202 after the last tick.
pub fn late(bench: &mut Bench, after: &mut Head) -> bool
    ensures { ShownOn table.late bench.new 1 result }
{
    counting(&mut bench.head, 0, 0, 0, 0, 0);
    awaiting(after, 151, 0, 0);
    watching(&mut bench.nodes, 0);
    let heard = heard_comes(&mut bench.head, &mut bench.nodes, 1, 5, 100, after)
        & is_watching(&bench.nodes, node_five(100));
    let in_time = tick_comes(bench, 1, 150, DllErrors::None, after);
    let kept = is_watching(&bench.nodes, node_five(100));
    awaiting(after, 202, 1, 8);
    let late = tick_comes(bench, 1, 151, DllErrors::None, after);
    heard & in_time & kept & late & is_watching(&bench.nodes, node_five(151))
}
