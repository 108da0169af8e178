//! A watched node as three words: its number, its timeout and the time it was last heard.
ghost use Rattle.std.specs.Prelude.{◌≡◌, ◌<◌, ◌+◌, ◌*◌, ltb, set, true};
ghost use Rattle.types.specs.Pick.{both};
ghost use Rattle.watched.specs.Watched.{timed, fits, no_node, watched_places};
ghost use Rattle.watched.specs.Scan.{one_less, three_before};
ghost use Rattle.watched.specs.Nodes.{not_before, numbered, sooner_by, rest_until};
ghost use Rattle.watched.specs.Nodes.{node_of, node_at, nodes_of};

use crate::nodes::{NEVER, NodeWords, WatchedNode};
use crate::time::in_time;

/// A watched node as its words have it: any number, and any times.
#[derive(Clone, Copy, PartialEq, Eq)]
pub struct NodeRecord {
    /// The node's number; any 64 bits, not all of which are one.
    pub node: u64,
    /// The timeout in µs; with 0 the node is never late.
    pub timeout: u64,
    /// When the node was last heard, in µs; 0 where it never was.
    pub last_heard: u64,
}

/// The words of a watched node.
impl From<WatchedNode> for NodeRecord {
    ghost from_gives = { λ w r. node_of r ≡ w };

    fn from(w: WatchedNode) -> Self {
        NodeRecord {
            node: w.node,
            timeout: w.timeout,
            last_heard: w.last_heard,
        }
    }
}

// One less; for 0, NEVER.
fn one_less(time: u64) -> u64
    ensures { result ≡ one_less time }
{
    time.checked_sub(1).unwrap_or(NEVER)
}

impl NodeRecord {
    /// What a place past the watched nodes holds.
    pub const NONE: Self = Self {
        node: 0,
        timeout: 0,
        last_heard: 0,
    };

    /// Law of `NONE`: it stands for no node.
    pub fn none_is_no_node()
        ensures { node_of Self.NONE ≡ no_node }
    {}

    /// The node at a place of the words.
    pub fn at(nodes: &NodeWords, place: usize) -> Self
        requires { place < watched_places }
        ensures { node_of result ≡ node_at nodes.now place }
    {
        let at = 3 * place;
        NodeRecord {
            node: nodes[at],
            timeout: nodes[at + 1],
            last_heard: nodes[at + 2],
        }
    }

    /// Writes the three words of one place; all others stay.
    pub fn put(self, nodes: &mut NodeWords, place: usize)
        requires { place < watched_places }
        ensures { (nodes.new ≡
            set (set (set nodes.old (3 * place) self.node) (3 * place + 1) self.timeout)
            (3 * place + 2) self.last_heard) ×
            (nodes_of nodes.new ≡ set (nodes_of nodes.old) place (node_of self)) }
    {
        let at = 3 * place;
        nodes[at] = self.node;
        nodes[at + 1] = self.timeout;
        nodes[at + 2] = self.last_heard;
    }

    /// Whether a number above 0 is a node's: 1 to 240, 253, 254 or 255.
    pub fn is_numbered(self) -> bool
        requires { 0 < self.node }
        ensures { result ≡ numbered (node_of self) }
    {
        if self.node <= 240 {
            return true;
        }
        // Few nodes are above 240. No compiler works out a remainder ahead of the test before it,
        // so the walks do not pay for these two tests.
        if 2 < self.node % 253 {
            return false;
        }
        self.node <= 255
    }

    /// Whether the number is above the one before it, and both times are at most 2^62 - 1.
    pub fn comes_after(self, last: u64) -> bool
        ensures { result ≡ both (ltb last self.node) (timed (node_of self)) }
    {
        last < self.node && in_time(self.timeout) && in_time(self.last_heard)
    }

    /// The same, and whether the number is a node's.
    pub fn follows(self, last: u64) -> bool
        ensures { result ≡ both (ltb last self.node) (fits (node_of self)) }
    {
        self.comes_after(last) && self.is_numbered()
    }

    /// Whether a time is not before the node was last heard, where it has a timeout and was heard
    /// (RULES 7.1).
    pub fn heard_by(self, time: u64) -> bool
        ensures { result ≡ not_before time (node_of self) }
    {
        self.timeout == 0 || self.last_heard == 0 || self.last_heard <= time
    }

    /// 3 µs before the moment at which the node would be late, and NEVER where it is never late:
    /// two sums that stop at NEVER, without a test for 0.
    pub fn three_before(self) -> u64
        ensures { result ≡ three_before (node_of self) }
    {
        one_less(self.timeout).saturating_add(one_less(self.last_heard))
    }

    /// The smaller of the soonest moment so far and the one at which the node would be late.
    pub fn sooner(self, soonest: u64) -> u64
        ensures { result ≡ sooner_by soonest (node_of self) }
    {
        soonest.min(self.three_before().saturating_add(3))
    }

    /// The same for a node that rests at a time: it was heard, not after that time where it has a
    /// timeout, and is not late. None for a node that does not rest.
    pub fn rest_until(self, soonest: u64, time: u64) -> Option<u64>
        requires { timed (node_of self) ≡ true }
        ensures { result ≡ rest_until time soonest (node_of self) }
    {
        if self.last_heard == 0 {
            return None;
        }
        if self.timeout == 0 {
            return Some(soonest);
        }
        if time < self.last_heard {
            return None;
        }
        let end = self.last_heard + self.timeout + 1;
        (time < end).then_some(soonest.min(end))
    }
}
