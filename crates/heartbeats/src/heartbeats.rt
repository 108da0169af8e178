//! The heartbeats of a tick: the check of the watched nodes, and the errors of the late ones
//! (RULES 7.3, 7.4).
ghost use Rattle.std.specs.Prelude.{◌≡◌, ℕ, ◌≤◌, true, List, map};
ghost use Rattle.watched.specs.declared.nodes.WatchedNode.{WatchedNode};
ghost use Rattle.watched.specs.Watched.{well_formed, watched_of};
ghost use Rattle.node.specs.Heartbeats.{is_late, refreshed, late_ones, on_late, on_late_all};
ghost use Rattle.node.specs.Refines.{plain};
ghost use Rattle.heartbeats.specs.Words.{refreshed_first};
ghost use Rattle.head.specs.Words.{head_of};
ghost use Rattle.watched.specs.Nodes.{node_of, nodes_of, never, soonest, moment_of};
ghost use Rattle.heartbeats.specs.Words.{refreshed_time, refreshed_words, on_late_words};
ghost use Rattle.heartbeats.specs.Words.{on_late_all_words};
ghost use Rattle.phases.specs.PartsIn.{TicksIn};

use head::state::Head;
use node::calls::handled;
use node::timing::time_since;
use phases::{PhaseOutcome, acts, finish, signal};
use types::frame::error::types::DllError;
use types::types::NodeId;
use watched::nodes::{Formed, NEVER, NodeWords, moment, set_heard};
use watched::record::NodeRecord;

/// Whether a node is late at a time in µs: it was heard once, and then not for longer than its
/// timeout, which is not 0.
pub fn is_late(node: NodeRecord, time: u64) -> bool
    ensures { result ≡ is_late time (node_of node) }
{
    node.last_heard != 0 && node.timeout != 0 && node.timeout < time_since(time, node.last_heard)
}

/// When a node counts as heard after a check at a time in µs: now, where it was never heard or is
/// late.
pub fn refreshed(node: NodeRecord, time: u64) -> u64
    ensures { result ≡ refreshed_time time node.timeout node.last_heard }
{
    if node.last_heard == 0 || is_late(node, time) {
        return time;
    }
    node.last_heard
}

/// Looks at all nodes, which sets their times, and answers the soonest moment at which one would be
/// late then. It writes the nodes, so they are no `Formed`, which is lent to be read.
pub fn refresh_all(nodes: &mut NodeWords, count: usize, time: u64) -> Option<u64>
    requires { well_formed (watched_of (nodes_of nodes.old) count) ≡ true }
    ensures { (nodes.new ≡ refreshed_words time count nodes.old)
        × (nodes_of nodes.new ≡ refreshed_first time count (nodes_of nodes.old))
        × (result ≡ moment_of
        (soonest never (map (refreshed time) (watched_of (nodes_of nodes.old) count)))) }
{
    let mut early = NEVER;
    for i in 0..count {
        let mut node = NodeRecord::at(nodes, i);
        node.last_heard = refreshed(node, time);
        set_heard(nodes, i, node.last_heard);
        early = early.min(node.three_before());
    }
    moment(early.saturating_add(3))
}

/// The error of a late node: neither counter 1 nor an entry follows from it.
pub fn on_late(head: &mut Head, node: u8) -> PhaseOutcome
    ensures { (w : WatchedNode) → w.node ≡ node → (q m : List ℕ) →
        TicksIn head.old q m (on_late (plain (head_of head.old) q m) w)
        result head.new q m (on_late_words head.old w) }
{
    let node_id = NodeId(node);
    let answer = handled(head, DllError::HeartbeatTimeout { node_id });
    if answer.signal {
        signal(head);
    }
    finish(head, answer.logged, acts(answer.action))
}

/// Counts the errors of the nodes that are late at a time in µs, ascending: the first whose
/// handling brings an action ends the walk, and the tick with it. The nodes are those before the
/// look.
pub fn on_late_all(head: &mut Head, formed: Formed, time: u64) -> PhaseOutcome
    ensures { (q m : List ℕ) →
        let nodes = watched_of (nodes_of formed.entry.nodes.now) formed.entry.count in
        let late = late_ones time nodes in
        TicksIn head.old q m (on_late_all (plain (head_of head.old) q m) late)
        result head.new q m (on_late_all_words head.old late) }
{
    let mut outcome = PhaseOutcome::GOES_ON;
    'walk: for place in 0..formed.count {
        let node = NodeRecord::at(formed.nodes, place);
        if is_late(node, time) {
            outcome = on_late(head, node.node as u8);
            if outcome.ended {
                break 'walk;
            }
        }
    }
    outcome
}
