//! When the next tick is due, where the watched nodes are a lent run of records.
ghost use Rattle.std.specs.Prelude.{◌≡◌};
ghost use Rattle.watched.specs.Watched.{run};
ghost use Rattle.due.specs.Walk.{walked_run};
ghost use Rattle.due.specs.Moment.{next_due};

use crate::moment::{Walk, due_by};
use head::state::Head;
use types::refusals::Refusal;
use watched::nodes::{WATCHED_PLACES, WatchedNode};
use watched::record::NodeRecord;

// Walks over the watched places, in order; none where the run is not well formed.
fn walk(nodes: &[WatchedNode], number: usize) -> Option<Walk>
    ensures { result ≡ walked_run (run nodes.now number) }
{
    if nodes.len() != WATCHED_PLACES || WATCHED_PLACES < number {
        return None;
    }
    let mut walk = Walk::START;
    for w in &nodes[..number] {
        walk = walk.over(NodeRecord::from(*w))?;
    }
    Some(walk)
}

/// When the next tick is due, as `words::next_due` tells it, where the watched nodes are the first
/// `number` of these records. Refused by WatchedNodes where there are not 32 places, the number is
/// above 32, or the nodes are not ascending or one is outside its limits (RULES 8.2).
pub fn next_due(head: &Head, nodes: &[WatchedNode], number: usize) -> Result<Option<u64>, Refusal>
    ensures { result ≡ next_due head.now (run nodes.now number) }
{
    due_by(head, walk(nodes, number))
}
