//! Heartbeat partners arrive and leave (RULES 8.4), over a lent run of records: a walk finds out
//! what the tests ask, and the records behind the node's place move up or down, as `partners` has
//! it over words.
ghost use Rattle.std.specs.Prelude.{◌≡◌, ◌++◌, ◌-◌, ◌≤◌, ◌<◌, take, drop, replicate, length};
ghost use Rattle.watched.specs.Watched.{run, no_node, inserted, watched_places};
ghost use Rattle.partners.specs.Walks.{place_before, closed};
ghost use Rattle.partners.specs.Partners.{AddedOn, RemovedOn};

use crate::run::find;
use head::state::Head;
use head::watch::set_earliest;
use partners::{try_place, try_remove};
use types::refusals::Refusal;
use types::types::NodeId;
use watched::nodes::{WatchedNode, moment};

// Where a node is to stand: before the first one above it, so behind so many that are not.
fn place_for(nodes: &[WatchedNode], node: u64) -> usize
    ensures { (result ≡ place_before node nodes.now) × (result ≤ length nodes.now) }
{
    nodes.iter().take_while(|w| w.node <= node).count()
}

// The places from one on are cleared.
fn clear(nodes: &mut [WatchedNode], from: usize)
    requires { (length nodes.old ≡ watched_places) × (from ≤ watched_places) }
    ensures { nodes.new ≡ take from nodes.old ++ replicate (watched_places - from) no_node }
{
    nodes[from..].fill(WatchedNode::NONE);
}

// A node takes its place: those above it move up by one, and the places past them are cleared.
fn insert(nodes: &mut [WatchedNode], count: usize, node: WatchedNode)
    requires { (length nodes.old ≡ watched_places) × (count < watched_places) }
    ensures { nodes.new ≡
        inserted node (take count nodes.old) ++ replicate (31 - count) no_node }
{
    let place = place_for(&nodes[..count], node.node);
    nodes.copy_within(place..count, place + 1);
    nodes[place] = node;
    clear(nodes, count + 1);
}

// The place of a node is closed: those behind it move down by one, and the places past them are
// cleared.
fn close(nodes: &mut [WatchedNode], count: usize, place: usize)
    requires { (length nodes.old ≡ watched_places) × (place < count) × (count ≤ watched_places) }
    ensures { nodes.new ≡ take place nodes.old ++ closed (count - place) (drop place nodes.old) }
{
    nodes.copy_within(place + 1..count, place);
    clear(nodes, count - 1);
}

/// Watches a node from now on, with its timeout in µs and not heard yet. It stands in its place,
/// ascending; `number` rises by 1, and the places past it are cleared. Refused, in this order:
/// NodeNumber, WatchedNodes (also where the timeout is above 2^62 - 1 µs), AlreadyWatched,
/// AllWatched; then nothing changes.
pub fn add(
    head: &mut Head,
    number: &mut usize,
    nodes: &mut [WatchedNode],
    node: u8,
    timeout: u64,
) -> Result<(), Refusal>
    ensures { AddedOn head.old (run nodes.old number.old) node timeout
        result head.new (run nodes.new number.new) }
{
    let count = *number;
    NodeId::try_from(node)?;
    let (place, soonest) = find(nodes, count, node as u64, 0).ok_or(Refusal::WatchedNodes)?;
    try_place(Some(place < count), timeout, count)?;
    let added = WatchedNode {
        node: node as u64,
        timeout,
        last_heard: 0,
    };
    insert(nodes, count, added);
    *number = count + 1;
    set_earliest(head, moment(soonest));
    Ok(())
}

/// Watches a node no more: those behind it move up, `number` falls by 1, and the places past it are
/// cleared. Refused, in this order: WatchedNodes, NotWatched; then nothing changes.
pub fn remove(
    head: &mut Head,
    number: &mut usize,
    nodes: &mut [WatchedNode],
    node: u8,
) -> Result<(), Refusal>
    ensures { RemovedOn head.old (run nodes.old number.old) node
        result head.new (run nodes.new number.new) }
{
    let count = *number;
    // The soonest moment with the node not heard is that of the others.
    let (place, soonest) = find(nodes, count, node as u64, 0).ok_or(Refusal::WatchedNodes)?;
    try_remove(Some(place < count))?;
    close(nodes, count, place);
    *number = count - 1;
    set_earliest(head, moment(soonest));
    Ok(())
}
