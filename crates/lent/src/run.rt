//! The watched nodes as a lent run of records, with the number watched beside it: where a node is,
//! whether a tick has to look at one, and what is set. It is `watched::nodes` and `heartbeats` over
//! records.
ghost use Rattle.std.specs.Prelude.{◌≡◌, ◌<◌, ◌≤◌, ℕ, true, map, set, get_or, take, length};
ghost use Rattle.types.specs.Pick.{all_of};
ghost use Rattle.watched.specs.Watched.{well_lent, run, first, unheard_first, heard_now, no_node};
ghost use Rattle.watched.specs.Watched.{place_of};
ghost use Rattle.watched.specs.Nodes.{node_of, numbered, never, soonest};
ghost use Rattle.node.specs.Heartbeats.{refreshed};
ghost use Rattle.lent.specs.Runs.{heard_if, found_in, rest_in, active_in};

use heartbeats::heartbeats::refreshed;
use watched::nodes::{NEVER, WATCHED_PLACES, WatchedNode};
use watched::record::NodeRecord;
use watched::time::in_time;

// A node as it is with the one of a number heard at a time.
fn heard_if(w: NodeRecord, node: u64, time: u64) -> NodeRecord
    ensures { node_of result ≡ heard_if node time (node_of w) }
{
    if w.node == node {
        return NodeRecord {
            last_heard: time,
            ..w
        };
    }
    w
}

// The place of a node among some; of one that is not among them, their number.
fn place_of(nodes: &[WatchedNode], node: u64) -> usize
    ensures { (result ≡ place_of node nodes.now) × (result ≤ length nodes.now) }
{
    nodes.iter().take_while(|w| w.node != node).count()
}

// Whether the number is a node's.
fn has_number(w: WatchedNode) -> bool
    ensures { result ≡ numbered w }
{
    w.node != 0 && NodeRecord::from(w).is_numbered()
}

// A node as a check at a time in µs leaves it.
fn checked(w: WatchedNode, time: u64) -> WatchedNode
    ensures { result ≡ refreshed time w }
{
    WatchedNode {
        last_heard: refreshed(NodeRecord::from(w), time),
        ..w
    }
}

// Whether all nodes have a node's number, where those do that are at most 240, as all are unless
// the last number is above it.
fn have_numbers(nodes: &[WatchedNode], last: u64) -> bool
    requires { last ≤ 240 → all_of numbered nodes.now ≡ true }
    ensures { result ≡ all_of numbered nodes.now }
{
    if last <= 240 {
        return true;
    }
    for w in nodes {
        if !has_number(*w) {
            return false;
        }
    }
    true
}

/// The place of a node among the watched ones of a well formed run, and the soonest moment with the
/// node heard at a time in µs, as `watched::nodes::find` has them of words: the place of a node
/// that is not watched is the number, and the moment is a number that the caller gives to `moment`.
/// The times are tested all together behind the walk, and the numbers by the last one.
#[inline(always)]
pub(crate) fn find(
    nodes: &[WatchedNode],
    number: usize,
    node: u64,
    time: u64,
) -> Option<(usize, u64)>
    ensures { result ≡ found_in node time (run nodes.now number) }
{
    if nodes.len() != WATCHED_PLACES || WATCHED_PLACES < number {
        return None;
    }
    let mut last = 0;
    let mut times = 0;
    let mut early = NEVER;
    for i in 0..number {
        let w = NodeRecord::from(nodes[i]);
        if w.node <= last {
            return None;
        }
        last = w.node;
        times |= w.timeout | w.last_heard;
        early = early.min(heard_if(w, node, time).three_before());
    }
    if !in_time(times) {
        return None;
    }
    if !have_numbers(&nodes[..number], last) {
        return None;
    }
    Some((place_of(&nodes[..number], node), early.saturating_add(3)))
}

/// Whether a run is well formed (RULES 8.2).
pub(crate) fn is_formed(nodes: &[WatchedNode], number: usize) -> bool
    ensures { result ≡ well_lent (run nodes.now number) }
{
    find(nodes, number, 0, 0).is_some()
}

/// The soonest moment, as a number, at which a watched node would be late, where the run is well
/// formed and each of its nodes rests at a time in µs: it was heard, not after that time where it
/// has a timeout, and is not late. Otherwise none.
#[inline(always)]
pub(crate) fn at_rest(nodes: &[WatchedNode], number: usize, time: u64) -> Option<u64>
    ensures { result ≡ rest_in time (run nodes.now number) }
{
    if nodes.len() != WATCHED_PLACES || WATCHED_PLACES < number {
        return None;
    }
    let mut last = 0;
    let mut soonest = NEVER;
    for i in 0..number {
        let w = NodeRecord::from(nodes[i]);
        if !w.follows(last) {
            return None;
        }
        last = w.node;
        soonest = w.rest_until(soonest, time)?;
    }
    Some(soonest)
}

/// Whether a time in µs is before no last-heard time of a watched node with a timeout, where the
/// run is well formed.
pub(crate) fn active(nodes: &[WatchedNode], number: usize, time: u64) -> Option<bool>
    ensures { result ≡ active_in time (run nodes.now number) }
{
    if nodes.len() != WATCHED_PLACES || WATCHED_PLACES < number {
        return None;
    }
    let mut last = 0;
    let mut heard = true;
    for i in 0..number {
        let w = NodeRecord::from(nodes[i]);
        if !w.follows(last) {
            return None;
        }
        last = w.node;
        heard = heard && w.heard_by(time);
    }
    Some(heard)
}

/// Sets when the node at a place was last heard, in µs.
pub(crate) fn set_heard(nodes: &mut [WatchedNode], place: usize, time: u64)
    requires { place < length nodes.old }
    ensures { nodes.new ≡
        set nodes.old place (heard_now time (get_or nodes.old place no_node)) }
{
    nodes[place].last_heard = time;
}

/// Sets the times of the first so many places as a check at a time in µs does, and answers the
/// soonest moment, as a number, at which one of them would be late then.
pub(crate) fn refresh(nodes: &mut [WatchedNode], number: usize, time: u64) -> u64
    requires { number ≤ length nodes.old }
    ensures { (nodes.new ≡ first (map (refreshed time)) number nodes.old)
        × (result ≡ soonest never (map (refreshed time) (take number nodes.old))) }
{
    let mut early = NEVER;
    for w in nodes[..number].iter_mut() {
        *w = checked(*w, time);
        early = early.min(NodeRecord::from(*w).three_before());
    }
    early.saturating_add(3)
}

/// Sets the first so many places to never heard.
pub(crate) fn unhear(nodes: &mut [WatchedNode], number: usize)
    ensures { nodes.new ≡ unheard_first number nodes.old }
{
    let watched = number.min(nodes.len());
    for w in nodes[..watched].iter_mut() {
        *w = WatchedNode {
            last_heard: 0,
            ..*w
        };
    }
}
