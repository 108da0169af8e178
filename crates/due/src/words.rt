//! When the next tick is due, where the watched nodes lie in lent words.
ghost use Rattle.std.specs.Prelude.{◌≡◌};
ghost use Rattle.watched.specs.Watched.{run};
ghost use Rattle.watched.specs.Nodes.{nodes_of};
ghost use Rattle.due.specs.Walk.{walked_run};
ghost use Rattle.due.specs.Moment.{next_due};

use crate::moment::{Walk, due_by};
use head::state::Head;
use types::refusals::Refusal;
use watched::nodes::{NodeWords, WATCHED_PLACES};
use watched::record::NodeRecord;

// Walks over the watched places, in order; none where the run is not well formed.
fn walk(nodes: &NodeWords, count: usize) -> Option<Walk>
    ensures { result ≡ walked_run (run (nodes_of nodes.now) count) }
{
    if WATCHED_PLACES < count {
        return None;
    }
    let mut walk = Walk::START;
    for i in 0..count {
        walk = walk.over(NodeRecord::at(nodes, i))?;
    }
    Some(walk)
}

/// When the next tick is due (RULES 7.13): a moment in µs, 0 meaning at once, or none. A tick that
/// is taken before it, or at any time where it is none, logs nothing and leaves every field and the
/// watched nodes as they are, but for the earliest moment, which is then theirs. The first `count`
/// nodes are watched.
///
/// Refused by WatchedNodes where more than 32 are watched, or they are not ascending or one is
/// outside its limits (RULES 8.2). Not in DS 301.
pub fn next_due(head: &Head, nodes: &NodeWords, count: usize) -> Result<Option<u64>, Refusal>
    ensures { result ≡ next_due head.now (run (nodes_of nodes.now) count) }
{
    due_by(head, walk(nodes, count))
}
