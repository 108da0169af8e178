//! Heartbeat partners arrive and leave: a node is added to the watched nodes of a head, or removed
//! from them (RULES 8.4). Of nodes in words 32 places are lent, three words each, with the number
//! of the first ones that are watched.
#![tactic(auto)]

ghost use Rattle.std.specs.Prelude.{◌≡◌, ◌++◌, ◌-◌, ◌≤◌, ◌<◌, Bool, true, take, drop, replicate};
ghost use Rattle.std.specs.Bool.{then_some};
ghost use Rattle.watched.specs.Nodes.{node_of, nodes_of};
ghost use Rattle.watched.specs.Watched.{no_node, inserted, watched_places};
ghost use Rattle.partners.specs.Walks.{place_before, closed};
ghost use Rattle.partners.specs.Partners.{add_answer, remove_answer, Added, Removed};

use head::state::Head;
use head::watch::set_earliest;
use types::refusals::Refusal;
use types::types::NodeId;
use watched::nodes::{NodeWords, WATCHED_PLACES, find, moment};
use watched::record::NodeRecord;
use watched::time::in_time;

// Where a node is to stand: before the first one above it, so behind so many that are not.
fn place_for(nodes: &NodeWords, count: usize, node: u64) -> usize
    requires { count ≤ watched_places }
    ensures { (result ≡ place_before node (take count (nodes_of nodes.now))) ×
        (result ≤ count) }
{
    (0..count)
        .take_while(|&i| NodeRecord::at(nodes, i).node <= node)
        .count()
}

// The places from one on are cleared.
fn clear(nodes: &mut NodeWords, from: usize)
    requires { from ≤ watched_places }
    ensures { nodes_of nodes.new ≡
        take from (nodes_of nodes.old) ++ replicate (watched_places - from) no_node }
{
    nodes[3 * from..].fill(0);
}

// A node takes its place: those above it move up by one, and the places past them are cleared.
fn insert(nodes: &mut NodeWords, count: usize, node: NodeRecord)
    requires { count < watched_places }
    ensures { nodes_of nodes.new ≡
        inserted (node_of node) (take count (nodes_of nodes.old)) ++
        replicate (31 - count) no_node }
{
    let place = place_for(nodes, count, node.node);
    nodes.copy_within(3 * place..3 * count, 3 * place + 3);
    node.put(nodes, place);
    clear(nodes, count + 1);
}

// The place of a node is closed: those behind it move down by one, and the places past them are
// cleared.
fn close(nodes: &mut NodeWords, count: usize, place: usize)
    requires { (place < count) × (count ≤ watched_places) }
    ensures { nodes_of nodes.new ≡
        take place (nodes_of nodes.old) ++
        closed (count - place) (drop place (nodes_of nodes.old)) }
{
    nodes.copy_within(3 * place + 3..3 * count, 3 * place);
    clear(nodes, count - 1);
}

/// The tests of an add behind that of the node's number, by what was found: whether the node is
/// among the watched ones, or `None` where they are not well formed. Refused, in this order:
/// WatchedNodes (also where the timeout is above 2^62 - 1 µs), AlreadyWatched, AllWatched.
pub fn try_place(watched: Option<bool>, timeout: u64, number: usize) -> Result<(), Refusal>
    ensures { (formed among : Bool) → watched ≡ then_some formed among →
        result ≡ add_answer true formed timeout among number }
{
    let watched = watched.ok_or(Refusal::WatchedNodes)?;
    if !in_time(timeout) {
        return Err(Refusal::WatchedNodes);
    }
    if watched {
        return Err(Refusal::AlreadyWatched);
    }
    if WATCHED_PLACES <= number {
        return Err(Refusal::AllWatched);
    }
    Ok(())
}

/// The tests of a removal, by what was found as above. Refused, in this order: WatchedNodes,
/// NotWatched.
pub fn try_remove(watched: Option<bool>) -> Result<(), Refusal>
    ensures { (formed among : Bool) → watched ≡ then_some formed among →
        result ≡ remove_answer formed among }
{
    let watched = watched.ok_or(Refusal::WatchedNodes)?;
    if !watched {
        return Err(Refusal::NotWatched);
    }
    Ok(())
}

/// Watches a node from now on, with its timeout in µs and not heard yet: so it is not late at any
/// moment yet. It stands in its place, ascending; `count` rises by 1, and the places past it are
/// zeros. Refused, in this order: NodeNumber, WatchedNodes (also where the timeout is above
/// 2^62 - 1 µs), AlreadyWatched, AllWatched; then nothing changes.
pub fn add(
    head: &mut Head,
    nodes: &mut NodeWords,
    count: &mut usize,
    node: u8,
    timeout: u64,
) -> Result<(), Refusal>
    ensures { Added head.old nodes.old count.old node timeout
        result head.new nodes.new count.new }
{
    NodeId::try_from(node)?;
    let number = *count;
    let (place, soonest) = find(nodes, number, node as u64, 0).ok_or(Refusal::WatchedNodes)?;
    try_place(Some(place < number), timeout, number)?;
    let added = NodeRecord {
        node: node as u64,
        timeout,
        last_heard: 0,
    };
    insert(nodes, number, added);
    *count = number + 1;
    set_earliest(head, moment(soonest));
    Ok(())
}

/// Watches a node no more: those behind it move up, `count` falls by 1, and the places past it are
/// zeros. Refused, in this order: WatchedNodes, NotWatched; then nothing changes.
pub fn remove(
    head: &mut Head,
    nodes: &mut NodeWords,
    count: &mut usize,
    node: u8,
) -> Result<(), Refusal>
    ensures { Removed head.old nodes.old count.old node result head.new nodes.new count.new }
{
    let number = *count;
    // The soonest moment with the node not heard is that of the others.
    let (place, soonest) = find(nodes, number, node as u64, 0).ok_or(Refusal::WatchedNodes)?;
    try_remove(Some(place < number))?;
    close(nodes, number, place);
    *count = number - 1;
    set_earliest(head, moment(soonest));
    Ok(())
}
