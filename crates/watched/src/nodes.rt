//! The watched nodes in lent words, three a node: its number, its timeout, when it was last heard.
//! There are 32 places, of which the first ones, as many as the count says, are watched.
ghost use Rattle.std.specs.Prelude.{◌≡◌, ◌≤◌, ◌<◌, ◌+◌, ◌*◌, set, true, MatchOption};
ghost use Rattle.types.specs.Pick.{all_of};
ghost use Rattle.watched.specs.Watched.{well_formed, no_node, watched_of, watched_places};
ghost use Rattle.watched.specs.Scan.{scanned, over, scan_of, scanned_of, heard_scanned};
ghost use Rattle.watched.specs.Scan.{nodes_from};
ghost use Rattle.watched.specs.Nodes.{never, moment_of, well_ordered, numbered, active_from};
ghost use Rattle.watched.specs.Nodes.{nodes_tried, found_of, seen_of, node_of, nodes_of};

use crate::record::NodeRecord;
use crate::time::in_time;

/// The places of a run of watched nodes.
pub const WATCHED_PLACES: usize = 32;

/// A run of watched nodes as words: three a place.
pub type NodeWords = [u64; 3 * WATCHED_PLACES];

/// A watched node: three numbers of 64 bits, in this order and with nothing between them, as a
/// caller in C lends it.
#[repr(C)]
#[derive(Clone, Copy, PartialEq, Eq)]
pub struct WatchedNode {
    /// The node's number; any 64 bits, not all of which are one.
    pub node: u64,
    /// The timeout in µs; with 0 the node is never late.
    pub timeout: u64,
    /// When the node was last heard, in µs; 0 where it never was.
    pub last_heard: u64,
}

impl WatchedNode {
    /// What a place past the watched nodes holds.
    pub const NONE: Self = Self {
        node: 0,
        timeout: 0,
        last_heard: 0,
    };

    /// Law of `NONE`: it is no node.
    pub fn none_is_no_node()
        ensures { Self.NONE ≡ no_node }
    {}
}

/// Stands for no moment during a walk, which carries the earliest one as a number, since the
/// smaller of two numbers takes no test.
pub const NEVER: u64 = 18446744073709551615;

/// The moment that a walk ends with; none for NEVER.
pub fn moment(soonest: u64) -> Option<u64>
    ensures { result ≡ moment_of soonest }
{
    (soonest != NEVER).then_some(soonest)
}

/// Sets when the node at a place was last heard, in µs.
pub fn set_heard(nodes: &mut NodeWords, place: usize, time: u64)
    requires { place < watched_places }
    ensures { nodes.new ≡ set nodes.old (3 * place + 2) time }
{
    nodes[3 * place + 2] = time;
}

// What a walk knows at the place where it stands: the last number before it, the bits of all times
// before it, and the soonest of what is 3 µs before their moments.
#[derive(Clone, Copy)]
struct Scanned {
    place: usize,
    last: u64,
    times: u64,
    soonest: u64,
}

impl Scanned {
    // The same behind the node at its place.
    fn over(self, node: NodeRecord) -> Self
        requires { self.place < watched_places }
        ensures { result ≡ over self (node_of node) }
    {
        Scanned {
            place: self.place + 1,
            last: node.node,
            times: self.times | node.timeout | node.last_heard,
            soonest: self.soonest.min(node.three_before()),
        }
    }
}

// The watched nodes from a place on; `last` is the number before them.
#[derive(Clone, Copy)]
struct Ahead<'a> {
    nodes: &'a NodeWords,
    count: usize,
    place: usize,
    last: u64,
    ghost few: { count ≤ watched_places },
}

impl<'a> Ahead<'a> {
    // All watched nodes, where they are at most 32. Inlined: without that the compiler merges the
    // two cases by selects, which slows the walks.
    #[inline(always)]
    fn all(nodes: &'a NodeWords, count: usize) -> Option<Self>
        ensures { MatchOption result (watched_places < count)
            (λ a. (a.nodes.now ≡ nodes.now) × (a.count ≡ count) × (a.place ≡ 0) × (a.last ≡ 0)) }
    {
        if WATCHED_PLACES < count {
            return None;
        }
        Some(Ahead {
            nodes,
            count,
            place: 0,
            last: 0,
        })
    }

    // The nodes from another place on; `last` is the number before them.
    fn behind(self, place: usize, last: u64) -> Self
        ensures { (result.nodes.now ≡ self.entry.nodes.now) × (result.count ≡ self.entry.count) ×
            (result.place ≡ place) × (result.last ≡ last) }
    {
        Ahead {
            nodes: self.nodes,
            count: self.count,
            place,
            last,
        }
    }

    // Walks the nodes as long as their numbers climb and none is the one sought. The times are
    // tested all together behind the walk, which has no other test and takes the same time whatever
    // they are.
    fn scan(self, sought: u64) -> Scanned
        ensures { result ≡
            scan_of sought (scanned self.entry.place self.entry.last 0 never)
            (nodes_from self.entry.place self.entry.count self.entry.nodes.now) }
    {
        let mut scanned = Scanned {
            place: self.place,
            last: self.last,
            times: 0,
            soonest: NEVER,
        };
        for i in self.place..self.count {
            let node = NodeRecord::at(self.nodes, i);
            if node.node <= scanned.last {
                return scanned;
            }
            if node.node == sought {
                return scanned;
            }
            scanned = scanned.over(node);
        }
        scanned
    }

    // The soonest moment, where the nodes climb; `before` is that of the nodes before them.
    fn scan_from(self, before: u64) -> Option<u64>
        ensures { result ≡
            scanned_of self.entry.last before
            (nodes_from self.entry.place self.entry.count self.entry.nodes.now) }
    {
        let scanned = self.scan(0);
        if scanned.place < self.count {
            return None;
        }
        in_time(scanned.times).then_some(before.min(scanned.soonest.saturating_add(3)))
    }

    // Whether all, which climb, have a node's number: from the last one back to one of at most 240;
    // those before it have a smaller number.
    fn have_numbers(self) -> bool
        requires { well_ordered self.last (nodes_from self.place self.count self.nodes.now) ≡ true }
        ensures { result ≡
            all_of numbered (nodes_from self.entry.place self.entry.count self.entry.nodes.now) }
    {
        for i in (self.place..self.count).rev() {
            let node = NodeRecord::at(self.nodes, i);
            if node.node <= 240 {
                return true;
            }
            if !node.is_numbered() {
                return false;
            }
        }
        true
    }

    // The soonest moment with the first of them heard at a time, where they climb.
    fn hear_first(self, before: u64, time: u64) -> Option<u64>
        ensures { result ≡
            heard_scanned self.entry.last before time
            (nodes_from self.entry.place self.entry.count self.entry.nodes.now) }
    {
        if self.count <= self.place {
            return Some(before);
        }
        let node = NodeRecord::at(self.nodes, self.place);
        if !node.comes_after(self.last) {
            return None;
        }
        let heard = NodeRecord {
            last_heard: time,
            ..node
        };
        let rest = self.behind(self.place + 1, node.node);
        rest.scan_from(heard.sooner(before))
    }

    // From a node on that does not rest: whether the time is before none of their last-heard times.
    // No moment is worked out here; the tick does that.
    fn active(self, time: u64) -> Option<bool>
        ensures { result ≡
            active_from self.entry.last time
            (nodes_from self.entry.place self.entry.count self.entry.nodes.now) }
    {
        let mut above = self.last;
        let mut heard = true;
        for i in self.place..self.count {
            let node = NodeRecord::at(self.nodes, i);
            if !node.comes_after(above) {
                return None;
            }
            heard = heard && node.heard_by(time);
            above = node.node;
        }
        self.have_numbers().then_some(heard)
    }
}

/// The soonest moment at which one of the first nodes would be late, where these are well formed:
/// at most 32, ascending by number, each with a node's number and with times of at most 2^62 - 1.
pub fn try_nodes(nodes: &NodeWords, count: usize) -> Option<Option<u64>>
    ensures { result ≡ nodes_tried (watched_of (nodes_of nodes.now) count) }
{
    let all = Ahead::all(nodes, count)?;
    let soonest = all.scan_from(NEVER)?;
    all.have_numbers().then_some(moment(soonest))
}

/// Well formed nodes, lent to be read.
#[derive(Clone, Copy)]
pub struct Formed<'a> {
    pub nodes: &'a NodeWords,
    pub count: usize,
    pub ghost formed: { well_formed (watched_of (nodes_of nodes.now) count) ≡ true },
}

/// Whether the first nodes are well formed (RULES 8.2).
pub fn well_formed(nodes: &NodeWords, count: usize) -> bool
    ensures { result ≡ well_formed (watched_of (nodes_of nodes.now) count) }
{
    try_nodes(nodes, count).is_some()
}

/// The place of a node among the first nodes, where these are well formed, and the soonest moment
/// with the node heard at a time in µs. The place of a node that is not watched is the count. The
/// moment is a number that the caller gives to `moment`, since an Option within an Option takes
/// more words.
#[inline(always)]
pub fn find(nodes: &NodeWords, count: usize, node: u64, time: u64) -> Option<(usize, u64)>
    ensures { result ≡ found_of node time (watched_of (nodes_of nodes.now) count) }
{
    // One walk up to the node, another behind it.
    let all = Ahead::all(nodes, count)?;
    let front = all.scan(node);
    if !in_time(front.times) {
        return None;
    }
    let rest = all.behind(front.place, front.last);
    let soonest = rest.hear_first(front.soonest.saturating_add(3), time)?;
    all.have_numbers().then_some((front.place, soonest))
}

/// What a check of well formed nodes finds before a tick. A node rests that was heard, not after
/// the tick's time where it has a timeout, and is not late.
#[derive(Clone, Copy)]
pub enum Seen {
    /// Some node does not rest, so that the tick has to go over all. True where the time is before
    /// no last-heard time of a node with a timeout; where it is false, BeforeHeard refuses the
    /// tick.
    Active(bool),
    /// All nodes rest; the soonest moment, in µs, at which one would be late.
    Resting(Option<u64>),
}

/// Looks at the first nodes for a tick at a time in µs; none where they are not well formed. Each
/// is read once up to one that does not rest.
pub fn examine(nodes: &NodeWords, count: usize, time: u64) -> Option<Seen>
    ensures { result ≡ seen_of time (watched_of (nodes_of nodes.now) count) }
{
    let all = Ahead::all(nodes, count)?;
    let mut last: u64 = 0;
    let mut soonest = NEVER;
    for i in 0..count {
        let node = NodeRecord::at(nodes, i);
        if !node.follows(last) {
            return None;
        }
        let Some(until) = node.rest_until(soonest, time) else {
            return Some(Seen::Active(all.behind(i, last).active(time)?));
        };
        soonest = until;
        last = node.node;
    }
    Some(Seen::Resting(moment(soonest)))
}
