//! What the next tick waits for: the head's deadline, and the watched nodes, of which a walk finds
//! the same in both forms.
ghost use Rattle.std.specs.Prelude.{◌≡◌};
ghost use Rattle.types.specs.Pick.{pick};
ghost use Rattle.head.specs.Words.{soc_of};
ghost use Rattle.watched.specs.Nodes.{node_of};
ghost use Rattle.node.specs.Steps.{smaller};
ghost use Rattle.node.specs.Due.{deadline_due};
ghost use Rattle.tick.specs.TickWords.{unlent};
ghost use Rattle.due.specs.Walk.{over, walk_due, due_found};

use head::machines::{state_at, timeout_of};
use head::state::Head;
use head::watch::deadline_at;
use tick::deadline::at_not_active;
use tick::tick::checks_heartbeats;
use types::refusals::Refusal;
use watched::nodes::{NEVER, moment};
use watched::record::NodeRecord;

/// What a walk has found of the nodes behind it, all within their limits and ascending.
#[derive(Clone, Copy)]
pub(crate) struct Walk {
    /// The number of the last one; 0 before the first.
    last: u64,
    /// Whether each of them was heard.
    heard: bool,
    /// The soonest moment in µs at which one would be late; NEVER where none would be.
    soonest: u64,
}

impl Walk {
    /// Before the first node.
    pub(crate) const START: Self = Self {
        last: 0,
        heard: true,
        soonest: NEVER,
    };

    /// With one more node; none where its number is not above the last one's, or it is outside its
    /// limits.
    pub(crate) fn over(self, node: NodeRecord) -> Option<Self>
        ensures { result ≡ over self (node_of node) }
    {
        if !node.follows(self.last) {
            return None;
        }
        Some(Walk {
            last: node.node,
            heard: self.heard && node.last_heard != 0,
            soonest: node.sooner(self.soonest),
        })
    }

    // When the nodes need a tick, in µs: at once (0) where one was not heard yet.
    fn due(self) -> Option<u64>
        ensures { result ≡ walk_due self }
    {
        if !self.heard {
            return Some(0);
        }
        moment(self.soonest)
    }
}

// The sooner of two moments, of which each may be none.
fn sooner(a: Option<u64>, b: Option<u64>) -> Option<u64>
    ensures { result ≡ smaller a b }
{
    match (a, b) {
        (Some(a), Some(b)) => Some(a.min(b)),
        _ => a.or(b),
    }
}

// When the head itself needs a tick, in µs: at its deadline. Where none stands at NotActive, a tick
// sets one, so at once (0), unless the basic timeout is 0.
fn deadline_due(head: &Head) -> Option<u64>
    ensures { result ≡ deadline_due (unlent head.now) (soc_of head.now).next_tick_us }
{
    let sets_one = at_not_active(head) && 0 < timeout_of(head);
    deadline_at(head).moment().or(sets_one.then_some(0))
}

/// When the next tick is due, in µs, by what a walk over the watched nodes found. Refused by
/// WatchedNodes where it found them not well formed.
pub(crate) fn due_by(head: &Head, walk: Option<Walk>) -> Result<Option<u64>, Refusal>
    ensures { result ≡ due_found head.now walk }
{
    let walk = walk.ok_or(Refusal::WatchedNodes)?;
    let nodes = if checks_heartbeats(state_at(head)) {
        walk.due()
    } else {
        None
    };
    Ok(sooner(deadline_due(head), nodes))
}
