//! A list of actions on a weigh head, each on what the last one left.
ghost use Rattle.std.specs.Prelude.{◌≡◌};
ghost use Rattle.watched.specs.Watched.{run};
ghost use Rattle.weigh.specs.WeighHeld.{held};
ghost use Rattle.weigh.specs.WeighPlayed.{Acted, PlayedInto};

use crate::{WeighAnswer, WeighCall, WeighHead};
use calling::Answer;
use calling::nodes::Nodes;
use calling::play::put;
use entries::sizes::{HistoryBytes, QueueBytes};
use types::refusals::Refusal;
use watched::nodes::WatchedNode;

/// What is done next with a weigh head.
#[derive(Clone, Copy, PartialEq, Eq)]
pub enum WeighAction<'a> {
    /// A call.
    Call(WeighCall<'a>),
    /// Other watched nodes are lent with the next calls: at a place, from 0, stands another node,
    /// and the first `number` are watched. Past the places none is set. Any numbers may be given;
    /// the calls refuse a run that is not well formed.
    Lend {
        place: usize,
        node: WatchedNode,
        number: usize,
    },
}

impl WeighHead {
    /// Takes one action. A change of what is lent is never refused and answers as a call on the
    /// node that has nothing to tell.
    pub fn act<N: Nodes>(
        &mut self,
        queue: &mut QueueBytes,
        history: &mut HistoryBytes,
        nodes: &mut N,
        number: &mut usize,
        action: WeighAction<'_>,
    ) -> Result<WeighAnswer, Refusal>
        ensures acted { Acted
            (held self.old queue.old history.old (run (N.places nodes.old) number.old))
            action.entry result
            (held self.new queue.new history.new (run (N.places nodes.new) number.new)) }
        ensures same_reference { N.name nodes.new ≡ N.name nodes.old }
    {
        match action {
            WeighAction::Call(call) => self.make(queue, history, nodes, number, call),
            WeighAction::Lend {
                place,
                node,
                number: watched,
            } => {
                nodes.set(place, node);
                *number = watched;
                Ok(WeighAnswer::Node(Answer::Taken))
            }
        }
    }

    /// Takes every action of a list. What each answers goes to `out`, in their order, as far as
    /// that reaches; what `out` has beyond them stays.
    pub fn play<N: Nodes>(
        &mut self,
        queue: &mut QueueBytes,
        history: &mut HistoryBytes,
        nodes: &mut N,
        number: &mut usize,
        actions: &[WeighAction<'_>],
        out: &mut [Result<WeighAnswer, Refusal>],
    )
        ensures played { PlayedInto
            (held self.old queue.old history.old (run (N.places nodes.old) number.old))
            actions.now out.old
            (held self.new queue.new history.new (run (N.places nodes.new) number.new)) out.new }
        ensures same_reference { N.name nodes.new ≡ N.name nodes.old }
    {
        for i in 0..actions.len() {
            let answer = self.act(queue, history, nodes, number, actions[i]);
            put(out, i, answer);
        }
    }
}
