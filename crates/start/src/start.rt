//! Start: every word of a fresh head, from the arguments.
ghost use Rattle.std.specs.Prelude.{◌≡◌, ◌≤◌};
ghost use Rattle.watched.specs.Watched.{unheard_first, watched_places};
ghost use Rattle.start.specs.Started.{fresh_head, fresh_words, unheard_words};
ghost use Rattle.start.specs.Started.{BeginsBy, StartedIn};
ghost use Rattle.head.specs.Words.{head_of};
ghost use Rattle.watched.specs.Nodes.{nodes_of};

use counters::counters::{CnErrorCounters, Thresholds};
use entries::sizes::QUEUE_PLACES;
use head::dictionary::set_od;
use head::errors::set_thresholds;
use head::machines::{set_identity, set_nmt};
use head::memory::set_capacity;
use head::state::{Dictionary, Head};
use head::words::clear;
use nmt::cn_state_machine::CnNmtStateMachine;
use types::nmt::flags::FeatureFlags;
use types::refusals::Refusal;
use types::types::NodeId;
use watched::nodes::{NodeWords, set_heard, well_formed};

/// What a fresh head is made from.
#[derive(Clone, Copy, PartialEq, Eq)]
pub struct Setup {
    /// The node's number: 1 to 240, 253, 254 or 255.
    pub node: u8,
    /// Kept and never read.
    pub feature_flags: FeatureFlags,
    /// In µs; with 0 the node never falls back to BasicEthernet.
    pub basic_ethernet_timeout: u32,
    /// How many entries the emergency queue may hold: 0 to 32.
    pub queue_capacity: u64,
    /// The values of the dictionary that a head keeps.
    pub od: Dictionary,
    /// One for each kind of error that is counted: 0 to 1,000,000; with 0 it never crosses.
    pub thresholds: Thresholds,
}

impl Setup {
    // The words of a fresh head, of a node number and a capacity that were tried: whatever stood
    // there before is gone.
    fn fresh(self, head: &mut Head, node_id: NodeId, capacity: u8)
        ensures { (head_of head.new ≡ fresh_head node_id capacity self) ×
            (head.new ≡ fresh_words node_id capacity self) }
    {
        let nmt = CnNmtStateMachine::new(node_id, self.feature_flags, self.basic_ethernet_timeout);
        let errors = CnErrorCounters::new(self.thresholds);
        clear(head);
        set_nmt(head, nmt);
        set_identity(head, nmt);
        set_thresholds(head, errors);
        set_od(head, self.od);
        set_capacity(head, capacity);
    }
}

// No watched node was heard yet.
fn unheard(nodes: &mut NodeWords, count: usize)
    requires { count ≤ watched_places }
    ensures { (nodes.new ≡ unheard_words count nodes.old) ×
        (nodes_of nodes.new ≡ unheard_first count (nodes_of nodes.old)) }
{
    for i in 0..count {
        set_heard(nodes, i, 0);
    }
}

/// Start without the watched nodes, of which it is told whether they are well formed, whatever form
/// they are lent in. Refused, in this order: NodeNumber, QueueCapacity, WatchedNodes where they are
/// not well formed, ThresholdLimit; then no word changes.
pub fn begin(head: &mut Head, setup: Setup, formed: bool) -> Result<(), Refusal>
    ensures { BeginsBy head.old setup formed result head.new }
{
    let node_id = NodeId::try_from(setup.node)?;
    if QUEUE_PLACES < setup.queue_capacity as usize {
        return Err(Refusal::QueueCapacity);
    }
    let limited = setup.thresholds.is_within_limit();
    if !formed {
        return Err(Refusal::WatchedNodes);
    }
    if !limited {
        return Err(Refusal::ThresholdLimit);
    }
    setup.fresh(head, node_id, setup.queue_capacity as u8);
    Ok(())
}

/// Makes a fresh head of any words: at GsInitialising, ready, not enabled, with an empty queue and
/// an empty history (RULES 1.9). The first `count` watched nodes count as never heard. Refused, in
/// this order: NodeNumber, QueueCapacity, WatchedNodes, ThresholdLimit; then nothing changes.
pub fn start(
    head: &mut Head,
    nodes: &mut NodeWords,
    count: usize,
    setup: Setup,
) -> Result<(), Refusal>
    ensures { StartedIn head.old nodes.old count setup result head.new nodes.new }
{
    let formed = well_formed(nodes, count);
    begin(head, setup, formed)?;
    unheard(nodes, count);
    Ok(())
}
