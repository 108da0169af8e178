//! The weigh head (RULES 12): a controlled node, and the 16 places of the recipe that it doses
//! from. Nobody else has either, so each call on the node comes through here. It is built on
//! `calling` alone, whose contract says what a call on the node leaves; whether that was a reset
//! is told by the node's answer.
#![tactic(auto)]

pub mod play;

ghost use Rattle.std.specs.Prelude.{◌≡◌};
ghost use Rattle.watched.specs.Watched.{run};
ghost use Rattle.head.specs.Words.{head_of};
ghost use Rattle.node.specs.Steps.{tried};
ghost use Rattle.weigh.specs.PlainWeigh.{load_tests, weight_told};
ghost use Rattle.weigh.specs.WeighValues.{said, weight_said};
ghost use Rattle.weigh.specs.WeighHeld.{held};
ghost use Rattle.weigh.specs.WeighMade.{blank, Made, Started};

use calling::nodes::{Nodes, Records};
use calling::{Answer, Call, make};
use entries::sizes::{HistoryBytes, QueueBytes};
use head::machines::state_at;
use head::state::Head;
use recipes::{Component, NO_PLACES, Places, Recipe};
use start::start::Setup;
use std::marker::Model;
use types::nmt::events::NmtEvent;
use types::nmt::states::NmtState;
use types::refusals::Refusal;
use watched::nodes::WatchedNode;

/// A weigh head. Its node's words and its places are written by its own calls alone.
#[repr(C)]
#[derive(Drop)]
pub struct WeighHead {
    node: Head,
    places: Places,
}

impl Model for WeighHead {
    ghost use Rattle.weigh.specs.WeighParts.{Parts};

    ghost Value = { Parts };

    ghost view = { λ h. record { node = h.node; places = h.places } };

    ghost inverse = { λ v. record { node = v.node; places = v.places } };
}

/// A call on a weigh head, with its arguments; the refusals stand in the order in which they are
/// tried.
#[derive(Clone, Copy, PartialEq, Eq)]
pub enum WeighCall<'a> {
    /// A call on its node, with that call's refusals. One that is a reset empties all places.
    /// Answers `Node`.
    Node(Call<'a>),
    /// A recipe is loaded: it fills all 16 places, and the node gets the ready word. Refused by
    /// RecipeLimits, then by NotPreOperational2 outside that state. Answers `Loaded`.
    LoadRecipe(&'a [Component]),
    /// The weight for a place, from 0. Refused by NoWeight outside Operational, and where the
    /// recipe has no such place. Answers `Weight`.
    Weight(usize),
}

/// What a call on a weigh head answers that is not refused.
#[derive(Clone, Copy, PartialEq, Eq)]
pub enum WeighAnswer {
    /// What the node answers.
    Node(Answer),
    /// The recipe is loaded.
    Loaded,
    /// Grams.
    Weight(u16),
}

impl WeighHead {
    /// A weigh head before its start: each word of its node is 0, and all places are empty.
    pub fn blank() -> WeighHead
        ensures { result ≡ blank }
    {
        WeighHead {
            node: [0; 60],
            places: NO_PLACES,
        }
    }

    /// A weigh head with a fresh node (RULES 1.9) and no recipe; each watched node counts as never
    /// heard. Refused by NodeNumber, QueueCapacity, WatchedNodes or ThresholdLimit, in this order;
    /// then nothing changes.
    pub fn start<N: Nodes>(nodes: &mut N, number: usize, setup: Setup) -> Result<WeighHead, Refusal>
        ensures started { Started (run (N.places nodes.old) number) setup result
            (run (N.places nodes.new) number) }
        ensures same_reference { N.name nodes.new ≡ N.name nodes.old }
    {
        let mut node = [0; 60];
        nodes.start(&mut node, number, setup)?;
        Ok(WeighHead {
            node,
            places: NO_PLACES,
        })
    }

    /// `start` with a run of records, of any length.
    pub fn start_over_records(
        nodes: &mut [WatchedNode],
        number: usize,
        setup: Setup,
    ) -> Result<WeighHead, Refusal>
        ensures { Started (run nodes.old number) setup result (run nodes.new number) }
    {
        let mut records = Records { run: nodes };
        WeighHead::start(&mut records, number, setup)
    }

    /// Makes a call on a weigh head, with the memory of its node's queue and history and the
    /// watched nodes as the node's calls are lent them. A call that is refused answers the first
    /// refusal that applies and changes nothing (RULES 2).
    #[inline(always)]
    pub fn make<N: Nodes>(
        &mut self,
        queue: &mut QueueBytes,
        history: &mut HistoryBytes,
        nodes: &mut N,
        number: &mut usize,
        call: WeighCall<'_>,
    ) -> Result<WeighAnswer, Refusal>
        ensures made { Made
            (held self.old queue.old history.old (run (N.places nodes.old) number.old))
            call.entry result
            (held self.new queue.new history.new (run (N.places nodes.new) number.new)) }
        ensures same_reference { N.name nodes.new ≡ N.name nodes.old }
    {
        match call {
            WeighCall::Node(call) => {
                let answer = make(&mut self.node, queue, history, nodes, number, call)?;
                if answer.tells_reset() {
                    self.places = NO_PLACES;
                }
                Ok(WeighAnswer::Node(answer))
            }
            WeighCall::LoadRecipe(components) => {
                let recipe = self.try_load(components)?;
                let ready = Call::NmtEvent(NmtEvent::CnConfigurationComplete as u64);
                make(&mut self.node, queue, history, nodes, number, ready)?;
                self.places = recipe.places();
                Ok(WeighAnswer::Loaded)
            }
            WeighCall::Weight(place) => self.answer_weight(place),
        }
    }

    /// `make` with a run of records, of any length; the caller's run is then what the call left.
    pub fn make_over_records(
        &mut self,
        queue: &mut QueueBytes,
        history: &mut HistoryBytes,
        nodes: &mut [WatchedNode],
        number: &mut usize,
        call: WeighCall<'_>,
    ) -> Result<WeighAnswer, Refusal>
        ensures { Made (held self.old queue.old history.old (run nodes.old number.old))
            call.entry result
            (held self.new queue.new history.new (run nodes.new number.new)) }
    {
        let mut records = Records { run: nodes };
        self.make(queue, history, &mut records, number, call)
    }

    /// The node's NMT state.
    #[tactic(auto, unfolding(head::specs::Words::head_of))]
    pub fn state(&self) -> NmtState
        ensures { result ≡ (head_of self.now.node).nmt.current_state }
    {
        state_at(&self.node)
    }

    /// Its node's words, to be read.
    pub fn node(&self) -> &Head
        ensures { result.now ≡ self.now.node }
    {
        &self.node
    }

    /// A copy of its places.
    pub fn places(&self) -> Places
        ensures { result ≡ self.now.places }
    {
        self.places
    }

    // The tests of a load.
    fn try_load<'a>(&self, components: &'a [Component]) -> Result<Recipe<'a>, Refusal>
        ensures { result ≡ tried
            (load_tests (head_of self.now.node).nmt.current_state components.now)
            Err (Ok components.now) }
    {
        let recipe = Recipe::try_from(components)?;
        if self.state() != NmtState::NmtPreOperational2 {
            return Err(Refusal::NotPreOperational2);
        }
        Ok(recipe)
    }

    /// The weight for a place, from 0, in grams. Refused by NoWeight outside Operational, and where
    /// the recipe has no such place.
    pub fn weight(&self, place: usize) -> Result<u16, Refusal>
        ensures { weight_said result ≡
            weight_told (head_of self.now.node).nmt.current_state self.now.places place }
    {
        if self.state() != NmtState::NmtOperational {
            return Err(Refusal::NoWeight);
        }
        match self.places.get(place) {
            Some(component) if component.bin != 0 => Ok(component.grams),
            _ => Err(Refusal::NoWeight),
        }
    }

    // The weight for a place, as an answer.
    fn answer_weight(&self, place: usize) -> Result<WeighAnswer, Refusal>
        ensures { said result ≡
            weight_told (head_of self.now.node).nmt.current_state self.now.places place }
    {
        match self.weight(place) {
            Ok(grams) => Ok(WeighAnswer::Weight(grams)),
            Err(refusal) => Err(refusal),
        }
    }
}
