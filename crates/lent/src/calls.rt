//! The calls that are lent the watched nodes as a run of records, but for the tick, add and remove.
ghost use Rattle.watched.specs.Watched.{run};
ghost use Rattle.node.specs.Heard.{HeardOn};
ghost use Rattle.start.specs.Started.{StartedOn};

use crate::run::{find, is_formed, set_heard, unhear};
use head::state::Head;
use head::watch::set_earliest;
use node::heard::try_heard;
use start::start::{Setup, begin};
use types::refusals::Refusal;
use watched::nodes::{WatchedNode, moment};

/// A watched node was heard at a time in µs, 0 to 2^62 - 1: that is its last-heard time, and the
/// earliest moment is worked out anew. Refused, in this order: WatchedNodes, TimeLimit, NotWatched,
/// also for a number that no node has; then nothing changes.
pub fn heard(
    head: &mut Head,
    nodes: &mut [WatchedNode],
    number: usize,
    node: u8,
    time: u64,
) -> Result<(), Refusal>
    ensures { HeardOn head.old (run nodes.old number) node time
        result head.new (run nodes.new number) }
{
    let (place, soonest) = find(nodes, number, node as u64, time).ok_or(Refusal::WatchedNodes)?;
    try_heard(Some(place < number), time)?;
    set_heard(nodes, place, time);
    set_earliest(head, moment(soonest));
    Ok(())
}

/// Makes a fresh head of any words (RULES 1.9), with an empty queue and an empty history. The
/// watched nodes count as never heard. Refused, in this order: NodeNumber, QueueCapacity,
/// WatchedNodes, ThresholdLimit; then nothing changes.
pub fn start(
    head: &mut Head,
    nodes: &mut [WatchedNode],
    number: usize,
    setup: Setup,
) -> Result<(), Refusal>
    ensures { StartedOn head.old (run nodes.old number) setup
        result head.new (run nodes.new number) }
{
    let formed = is_formed(nodes, number);
    begin(head, setup, formed)?;
    unhear(nodes, number);
    Ok(())
}
