//! Heard: the last-heard time of one watched node, and the earliest moment at which one would be
//! late.
ghost use Rattle.std.specs.Prelude.{◌≡◌, Bool};
ghost use Rattle.std.specs.Bool.{then_some};
ghost use Rattle.node.specs.Heard.{heard_answer, Heard};

use head::state::Head;
use head::watch::set_earliest;
use types::refusals::Refusal;
use watched::nodes::{NodeWords, find, moment, set_heard};
use watched::time::in_time;

/// The tests of heard, by what was found: whether the node is among the watched ones, or `None`
/// where they are not well formed. Refused, in this order: WatchedNodes, TimeLimit, NotWatched.
pub fn try_heard(watched: Option<bool>, time: u64) -> Result<(), Refusal>
    ensures { (formed among : Bool) → watched ≡ then_some formed among →
        result ≡ heard_answer formed time among }
{
    let watched = watched.ok_or(Refusal::WatchedNodes)?;
    if !in_time(time) {
        return Err(Refusal::TimeLimit);
    }
    if !watched {
        return Err(Refusal::NotWatched);
    }
    Ok(())
}

/// A watched node was heard at a time in µs, 0 to 2^62 - 1: that is its last-heard time, and the
/// earliest moment is worked out anew. Refused, in this order: WatchedNodes, TimeLimit, NotWatched,
/// also for a number that no node has; then no word changes.
pub fn heard(
    head: &mut Head,
    nodes: &mut NodeWords,
    count: usize,
    node: u8,
    time: u64,
) -> Result<(), Refusal>
    ensures { Heard head.old nodes.old count node time result head.new nodes.new }
{
    let (place, soonest) = find(nodes, count, node as u64, time).ok_or(Refusal::WatchedNodes)?;
    try_heard(Some(place < count), time)?;
    set_heard(nodes, place, time);
    set_earliest(head, moment(soonest));
    Ok(())
}
