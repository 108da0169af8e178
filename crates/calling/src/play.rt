//! A list of actions on a head as it stands, or behind a start: each on what the last one left.
ghost use Rattle.std.specs.Prelude.{◌≡◌, set};
ghost use Rattle.watched.specs.Watched.{run};
ghost use Rattle.calling.specs.Held.{held};
ghost use Rattle.calling.specs.Played.{Acted, PlayedInto, StartedInto};

use crate::nodes::Nodes;
use crate::{Answer, Call, make};
use entries::sizes::{HistoryBytes, QueueBytes};
use head::state::Head;
use start::start::Setup;
use types::refusals::Refusal;
use watched::nodes::WatchedNode;

/// What is done next with a head.
#[derive(Clone, Copy, PartialEq, Eq)]
pub enum Action<'a> {
    /// A call.
    Call(Call<'a>),
    /// Other watched nodes are lent with the next calls: at a place, from 0, stands another node,
    /// and the first `number` are watched. Past the places none is set. Any numbers may be given;
    /// the calls refuse a run that is not well formed.
    Lend {
        place: usize,
        node: WatchedNode,
        number: usize,
    },
}

/// Takes one action. A change of what is lent is never refused and answers `Taken`.
pub fn act<N: Nodes>(
    head: &mut Head,
    queue: &mut QueueBytes,
    history: &mut HistoryBytes,
    nodes: &mut N,
    number: &mut usize,
    action: Action<'_>,
) -> Result<Answer, Refusal>
    ensures acted { Acted
        (held head.old queue.old history.old (run (N.places nodes.old) number.old))
        action.entry result
        (held head.new queue.new history.new (run (N.places nodes.new) number.new)) }
    ensures same_reference { N.name nodes.new ≡ N.name nodes.old }
{
    match action {
        Action::Call(call) => make(head, queue, history, nodes, number, call),
        Action::Lend {
            place,
            node,
            number: watched,
        } => {
            nodes.set(place, node);
            *number = watched;
            Ok(Answer::Taken)
        }
    }
}

/// Writes an answer at a place, from 0; past the end it is not written.
pub fn put<T: Copy + Drop>(out: &mut [T], place: usize, answer: T)
    ensures { out.new ≡ set out.old place answer }
{
    if place < out.len() {
        out[place] = answer;
    }
}

/// Takes every action of a list. What each answers goes to `out`, in their order, as far as that
/// reaches; what `out` has beyond them stays.
pub fn play<N: Nodes>(
    head: &mut Head,
    queue: &mut QueueBytes,
    history: &mut HistoryBytes,
    nodes: &mut N,
    number: &mut usize,
    actions: &[Action<'_>],
    out: &mut [Result<Answer, Refusal>],
)
    ensures played { PlayedInto
        (held head.old queue.old history.old (run (N.places nodes.old) number.old))
        actions.now out.old
        (held head.new queue.new history.new (run (N.places nodes.new) number.new)) out.new }
    ensures same_reference { N.name nodes.new ≡ N.name nodes.old }
{
    for i in 0..actions.len() {
        let answer = act(head, queue, history, nodes, number, actions[i]);
        put(out, i, answer);
    }
}

/// Starts a head and takes every action of a list. The start is refused by NodeNumber,
/// QueueCapacity, WatchedNodes or ThresholdLimit, in this order; then nothing changes, and no
/// action is taken.
pub fn start_and_play<N: Nodes>(
    head: &mut Head,
    queue: &mut QueueBytes,
    history: &mut HistoryBytes,
    nodes: &mut N,
    number: &mut usize,
    setup: Setup,
    actions: &[Action<'_>],
    out: &mut [Result<Answer, Refusal>],
) -> Result<(), Refusal>
    ensures started { StartedInto setup actions.now result
        (held head.old queue.old history.old (run (N.places nodes.old) number.old)) out.old
        (held head.new queue.new history.new (run (N.places nodes.new) number.new)) out.new }
    ensures same_reference { N.name nodes.new ≡ N.name nodes.old }
{
    nodes.start(head, *number, setup)?;
    play(head, queue, history, nodes, number, actions, out);
    Ok(())
}
