//! The watched nodes, in either form in which they are lent: words, or a run of records (RULES
//! 8.1). Each call that is lent them is a method, which makes the call of that form.
ghost use Rattle.std.specs.Prelude.{◌≡◌, ℕ, List, set};
ghost use Rattle.watched.specs.declared.nodes.WatchedNode.{WatchedNode as Watched};
ghost use Rattle.watched.specs.Watched.{run};
ghost use Rattle.watched.specs.Nodes.{nodes_of};
ghost use Rattle.node.specs.Heard.{HeardOn};
ghost use Rattle.tick.specs.TickIn.{TickedOn};
ghost use Rattle.partners.specs.Partners.{AddedOn, RemovedOn};
ghost use Rattle.start.specs.Started.{StartedOn};
ghost use Rattle.due.specs.Moment.{next_due};

use due::{run as records, words};
use entries::sizes::{HistoryBytes, QueueBytes};
use head::state::Head;
use lent::{arrivals, calls, ticks};
use node::heard::heard;
use partners::{add, remove};
use start::start::{Setup, start};
use tick::tick::process_tick;
use types::frame::error::types::DllErrors;
use types::refusals::Refusal;
use watched::nodes::{NodeWords, WATCHED_PLACES, WatchedNode};
use watched::record::NodeRecord;

/// Watched nodes that can be lent with a call. Their places are read from the first on; how many
/// of them are watched is lent beside them.
pub trait Nodes {
    // The places that they stand for.
    ghost places: { Self → List Watched };

    // Of nodes behind a reference, which one: it stays the same, so what is said of the places is
    // said of what the caller lent.
    ghost name: { Self → ℕ };

    /// A change of the caller's own: another watched node stands at a place, from 0. Past the
    /// places nothing changes.
    fn set(&mut self, place: usize, node: WatchedNode)
        ensures on { places self.new ≡ set (places self.old) place node }
        ensures same_reference { name self.new ≡ name self.old };

    /// Makes the head fresh (RULES 1.9), with each watched node never heard. Refused by NodeNumber,
    /// QueueCapacity, WatchedNodes or ThresholdLimit, in this order.
    fn start(&mut self, head: &mut Head, number: usize, setup: Setup) -> Result<(), Refusal>
        ensures on { StartedOn head.old (run (places self.old) number) setup result
            head.new (run (places self.new) number) }
        ensures same_reference { name self.new ≡ name self.old };

    /// Makes the call `Call::Heard`, with its refusals.
    fn heard(&mut self, head: &mut Head, number: usize, node: u8, time: u64) -> Result<(), Refusal>
        ensures on { HeardOn head.old (run (places self.old) number) node time result
            head.new (run (places self.new) number) }
        ensures same_reference { name self.new ≡ name self.old };

    /// Makes the call `Call::Tick`, with its refusals.
    fn tick(
        &mut self,
        head: &mut Head,
        queue: &mut QueueBytes,
        history: &mut HistoryBytes,
        number: usize,
        time: u64,
    ) -> Result<DllErrors, Refusal>
        ensures on { TickedOn head.old queue.old history.old (run (places self.old) number) time
            result head.new queue.new history.new (run (places self.new) number) }
        ensures same_reference { name self.new ≡ name self.old };

    /// Makes the call `Call::Add`, with its refusals.
    fn add(
        &mut self,
        head: &mut Head,
        number: &mut usize,
        node: u8,
        timeout: u64,
    ) -> Result<(), Refusal>
        ensures on { AddedOn head.old (run (places self.old) number.old) node timeout result
            head.new (run (places self.new) number.new) }
        ensures same_reference { name self.new ≡ name self.old };

    /// Makes the call `Call::Remove`, with its refusals.
    fn remove(&mut self, head: &mut Head, number: &mut usize, node: u8) -> Result<(), Refusal>
        ensures on { RemovedOn head.old (run (places self.old) number.old) node result
            head.new (run (places self.new) number.new) }
        ensures same_reference { name self.new ≡ name self.old };

    /// Makes the call `Call::NextDue`, with its refusals.
    fn next_due(&self, head: &Head, number: usize) -> Result<Option<u64>, Refusal>
        ensures { result ≡ next_due head.now (run (places self.now) number) };
}

impl Nodes for NodeWords {
    ghost places = { nodes_of };

    ghost name = { λ a. 0 };

    #[tactic(auto, using(crate::proofs::Places::past_none))]
    fn set(&mut self, place: usize, node: WatchedNode) {
        if place < WATCHED_PLACES {
            NodeRecord::from(node).put(self, place);
        }
    }

    fn start(&mut self, head: &mut Head, number: usize, setup: Setup) -> Result<(), Refusal> {
        start(head, self, number, setup)
    }

    fn heard(
        &mut self,
        head: &mut Head,
        number: usize,
        node: u8,
        time: u64,
    ) -> Result<(), Refusal> {
        heard(head, self, number, node, time)
    }

    fn tick(
        &mut self,
        head: &mut Head,
        queue: &mut QueueBytes,
        history: &mut HistoryBytes,
        number: usize,
        time: u64,
    ) -> Result<DllErrors, Refusal> {
        process_tick(head, queue, history, self, number, time)
    }

    fn add(
        &mut self,
        head: &mut Head,
        number: &mut usize,
        node: u8,
        timeout: u64,
    ) -> Result<(), Refusal> {
        add(head, self, number, node, timeout)
    }

    fn remove(&mut self, head: &mut Head, number: &mut usize, node: u8) -> Result<(), Refusal> {
        remove(head, self, number, node)
    }

    fn next_due(&self, head: &Head, number: usize) -> Result<Option<u64>, Refusal> {
        words::next_due(head, self, number)
    }
}

/// A run of records, of any length; WatchedNodes refuses one that has not 32 places in each call
/// that is lent it.
#[derive(Drop)]
pub struct Records<'a> {
    /// The records, in their places.
    pub run: &'a mut [WatchedNode],
}

impl Nodes for Records<'_> {
    ghost places = { λ r. r.run.now };

    ghost name = { λ r. r.run.ghost_name };

    fn set(&mut self, place: usize, node: WatchedNode) {
        if place < self.run.len() {
            self.run[place] = node;
        }
    }

    fn start(&mut self, head: &mut Head, number: usize, setup: Setup) -> Result<(), Refusal> {
        calls::start(head, self.run, number, setup)
    }

    fn heard(
        &mut self,
        head: &mut Head,
        number: usize,
        node: u8,
        time: u64,
    ) -> Result<(), Refusal> {
        calls::heard(head, self.run, number, node, time)
    }

    fn tick(
        &mut self,
        head: &mut Head,
        queue: &mut QueueBytes,
        history: &mut HistoryBytes,
        number: usize,
        time: u64,
    ) -> Result<DllErrors, Refusal> {
        ticks::process_tick(head, queue, history, self.run, number, time)
    }

    fn add(
        &mut self,
        head: &mut Head,
        number: &mut usize,
        node: u8,
        timeout: u64,
    ) -> Result<(), Refusal> {
        arrivals::add(head, number, self.run, node, timeout)
    }

    fn remove(&mut self, head: &mut Head, number: &mut usize, node: u8) -> Result<(), Refusal> {
        arrivals::remove(head, number, self.run, node)
    }

    fn next_due(&self, head: &Head, number: usize) -> Result<Option<u64>, Refusal> {
        records::next_due(head, self.run, number)
    }
}
