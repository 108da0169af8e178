//! One typed entry for all calls on a head (RULES 3): which call is made is a value, `Call`, and so
//! is what it answers. `make` makes any of them; `play` makes a list of them, each on what the last
//! one left. The watched nodes are lent in either form (`nodes`). The single calls, which these
//! make, stay for code that is called often.
#![tactic(auto)]

pub mod nodes;
pub mod play;

ghost use Rattle.std.specs.Prelude.{◌≡◌};
ghost use Rattle.watched.specs.Watched.{run};
ghost use Rattle.watched.specs.Nodes.{nodes_of};
ghost use Rattle.partners.specs.Partners.{words_of};
ghost use Rattle.calling.specs.Held.{held};
ghost use Rattle.reception.specs.FrameIn.{frame_says};
ghost use Rattle.calling.specs.Values.{says, tells_reset};
ghost use Rattle.calling.specs.Made.{Made, lent_after};

use crate::nodes::{Nodes, Records};
use counters::counters::ErrorTaken;
use entries::sizes::{HistoryBytes, QueueBytes};
use entries::status_response::ErrorEntry;
use head::state::Head;
use nmt::state_machine::ResetSequence;
use node::calls::{
    NmtTaken, arm, dll_event, hand_out, handle_error, nmt_event, on_cycle_complete, withdraw,
};
use node::load::{DictionaryUpdate, load};
use node::range::{SocVerdict, soc_margin, soc_range};
use reception::{FrameAnswer, process_frame};
use types::frame::error::types::DllErrors;
use types::refusals::Refusal;
use watched::nodes::{NodeWords, WatchedNode};

/// A call on a head, with its arguments. Times, timeouts and readings of a clock are in µs, at most
/// 2^62 − 1. Any number may be given, and one that a call does not take is refused; the refusals
/// stand in the order in which they are tried. WatchedNodes refuses a lent run that is not well
/// formed (RULES 8.2).
#[derive(Clone, Copy, PartialEq, Eq)]
pub enum Call<'a> {
    /// An NMT event by its place, from 0 (RULES 4). Refused by UnknownNumber where no event has it.
    /// Answers `Nmt`.
    NmtEvent(u64),
    /// A DLL event by its place, from 0, in the head's own NMT state, and whether a PReq is
    /// expected (RULES 5). Refused by UnknownNumber where no event has the place. Answers `Dll`.
    DllEvent {
        event: u64,
        expect_preq: bool,
    },
    /// An error for the counters, by the place of its kind, from 0 (RULES 6). `a` is the node that
    /// it carries, or `a` and `b` are the state and event of an unexpected event; a number that the
    /// kind does not carry is not looked at. Refused by UnknownNumber where no kind has the place,
    /// then by NodeNumber where `a` is to be a node and is none. Answers `Error`.
    Error {
        kind: u64,
        a: u8,
        b: u8,
    },
    /// A cycle is complete: each level above 0 falls by 1 (RULES 6.4). Never refused. Answers
    /// `Cycle`.
    CycleComplete,
    /// The application is not ready any more (RULES 4.3). Refused by ReadyToOperate where the head
    /// is in that state. Answers `Taken`.
    Withdraw,
    /// A watched node was heard at a time. Refused by WatchedNodes, then by TimeLimit for the time,
    /// then by NotWatched. Answers `Taken`.
    Heard {
        node: u8,
        time: u64,
    },
    /// The oldest entry leaves the emergency queue (RULES 9.4). Never refused. Answers `HandedOut`.
    HandOut,
    /// Sets the values of the dictionary that are named and, where one is named, the error history:
    /// the bytes of its entries, 20 each, newest first. Of more than 254 entries the newest 254 are
    /// taken, and bytes behind the last whole entry are no entry. Never refused. Answers `Taken`.
    Load {
        values: DictionaryUpdate,
        history: Option<&'a [u8]>,
    },
    /// An SoC was received at a time: the last SoC is that time. With a cycle above 0 the SoC check
    /// goes on with a deadline, and with cycle 0 it goes off. Refused by TimeLimit. Answers
    /// `Taken`.
    Arm(u64),
    /// A tick at a time (RULES 7). Refused by WatchedNodes, then by TimeLimit, then by BeforeHeard,
    /// in a state that checks heartbeats, where the time is before a watched node was last heard.
    /// Answers `Tick`.
    Tick(u64),
    /// Whether the SoC is lost between two readings of a clock (RULES 7.10); the head is only read.
    /// Refused by TimeLimit for either reading, then by EarliestAfterLatest. Answers `Range`.
    Range {
        earliest: u64,
        latest: u64,
    },
    /// The limit of the SoC check minus the time since the last SoC, at one reading of a clock
    /// (RULES 7.10); the head is only read. Refused by TimeLimit. Answers `Margin`.
    Margin(u64),
    /// A node is watched, never heard yet; with a timeout of 0 it is never late. Refused by
    /// NodeNumber, then by WatchedNodes, also where the timeout is above 2^62 − 1, then by
    /// AlreadyWatched, then by AllWatched where 32 are. Answers `Taken`.
    Add {
        node: u8,
        timeout: u64,
    },
    /// A node is watched no more. Refused by WatchedNodes, then by NotWatched. Answers `Taken`.
    Remove(u8),
    /// When the next tick is due (RULES 7.13): a tick that is taken before then finds nothing to
    /// do. Head and nodes are only read. Refused by WatchedNodes. Answers `Due`.
    NextDue,
    /// A frame that arrived at a time: the bytes of an Ethernet frame, from its destination's
    /// address on (RULES 13). Refused by FrameTooShort below 17 bytes, then by OtherEtherType, then
    /// by OtherMessageType, then by FrameTooShort where an ASnd ends before its service or its
    /// command, then by UnknownNumber where service 4 has no state command, then by TimeLimit.
    /// Answers `Frame`.
    Frame {
        time: u64,
        bytes: &'a [u8],
    },
}

/// What a call answers that is not refused.
#[derive(Clone, Copy, PartialEq, Eq)]
pub enum Answer {
    /// The call was taken, and has nothing to tell.
    Taken,
    /// The errors that were reported; of a reset the states that it passed and the ranges to
    /// restore, in order (RULES 4.4).
    Nmt(NmtTaken),
    /// The errors that were reported.
    Dll(DllErrors),
    /// The action that is asked for, whether the error signals, and what is logged.
    Error(ErrorTaken),
    /// Whether the last level above 0 reached 0.
    Cycle(bool),
    /// The entry, or none of an empty queue.
    HandedOut(Option<ErrorEntry>),
    /// What was logged.
    Tick(DllErrors),
    /// The SoC is lost at every reading of the range (`Lost`), at none (`Kept`), or at some
    /// (`Open`).
    Range(SocVerdict),
    /// What is left of the limit, in µs; below 0 the SoC is lost.
    Margin(i64),
    /// A moment in µs, 0 meaning at once; where it is none, no tick finds anything to do.
    Due(Option<u64>),
    /// That the frame is for another node, and nothing changed; or what was logged, and what its
    /// NMT event answers, where one came.
    Frame(FrameAnswer),
}

impl Answer {
    /// Whether a reset was passed (RULES 4.4): the answer then names the states that it entered.
    pub fn tells_reset(self) -> bool
        ensures { result ≡ tells_reset (says self) }
    {
        match self {
            Answer::Nmt(taken) => taken.reset != ResetSequence::None,
            Answer::Taken
            | Answer::Dll(_)
            | Answer::Error(_)
            | Answer::Cycle(_)
            | Answer::HandedOut(_)
            | Answer::Tick(_)
            | Answer::Range(_)
            | Answer::Margin(_)
            | Answer::Due(_) => false,
            Answer::Frame(answer) => frame_tells_reset(answer),
        }
    }
}

// Whether the NMT event of a frame was a reset.
fn frame_tells_reset(answer: FrameAnswer) -> bool
    ensures { result ≡ tells_reset (frame_says answer) }
{
    match answer {
        FrameAnswer::NotOurs => false,
        FrameAnswer::Ours(taken) => taken
            .nmt
            .is_some_and(|event| event.reset != ResetSequence::None),
    }
}

/// Makes a call on a head with the memory of its queue and history and the watched nodes, which are
/// the first `number` of the lent ones (0 to 32; WatchedNodes refuses more in each call that is
/// lent them). A call that is refused answers the first refusal that applies and changes nothing
/// (RULES 2).
#[inline(always)]
pub fn make<N: Nodes>(
    head: &mut Head,
    queue: &mut QueueBytes,
    history: &mut HistoryBytes,
    nodes: &mut N,
    number: &mut usize,
    call: Call<'_>,
) -> Result<Answer, Refusal>
    ensures made { Made (held head.old queue.old history.old (run (N.places nodes.old) number.old))
        call.entry result
        (held head.new queue.new history.new (run (N.places nodes.new) number.new)) }
    ensures same_reference { N.name nodes.new ≡ N.name nodes.old }
{
    match call {
        Call::NmtEvent(event) => nmt_event(head, event).map(Answer::Nmt),
        Call::DllEvent { event, expect_preq } => {
            dll_event(head, event, expect_preq).map(Answer::Dll)
        }
        Call::Error { kind, a, b } => handle_error(head, kind, a, b).map(Answer::Error),
        Call::CycleComplete => Ok(Answer::Cycle(on_cycle_complete(head))),
        Call::Withdraw => withdraw(head).map(|()| Answer::Taken),
        Call::Heard { node, time } => nodes
            .heard(head, *number, node, time)
            .map(|()| Answer::Taken),
        Call::HandOut => Ok(Answer::HandedOut(hand_out(head, queue))),
        Call::Load {
            values,
            history: named,
        } => {
            load(head, history, values, named);
            Ok(Answer::Taken)
        }
        Call::Arm(time) => arm(head, time).map(|()| Answer::Taken),
        Call::Tick(time) => nodes
            .tick(head, queue, history, *number, time)
            .map(Answer::Tick),
        Call::Range { earliest, latest } => soc_range(head, earliest, latest).map(Answer::Range),
        Call::Margin(time) => soc_margin(head, time).map(Answer::Margin),
        Call::Add { node, timeout } => nodes
            .add(head, number, node, timeout)
            .map(|()| Answer::Taken),
        Call::Remove(node) => nodes.remove(head, number, node).map(|()| Answer::Taken),
        Call::NextDue => nodes.next_due(head, *number).map(Answer::Due),
        Call::Frame { time, bytes } => {
            process_frame(head, queue, history, time, bytes).map(Answer::Frame)
        }
    }
}

/// `make` with the nodes in words, whose every word is known afterwards.
pub fn make_over_words(
    head: &mut Head,
    queue: &mut QueueBytes,
    history: &mut HistoryBytes,
    nodes: &mut NodeWords,
    number: &mut usize,
    call: Call<'_>,
) -> Result<Answer, Refusal>
    ensures made { Made (held head.old queue.old history.old (run (nodes_of nodes.old) number.old))
        call.entry result
        (held head.new queue.new history.new (run (nodes_of nodes.new) number.new)) }
    ensures words { let x = held head.old queue.old history.old
        (run (nodes_of nodes.old) number.old) in
        nodes.new ≡ words_of (lent_after x call.entry).places }
{
    make(head, queue, history, nodes, number, call)
}

/// `make` with a run of records, of any length; the caller's run is then what the call left.
pub fn make_over_records(
    head: &mut Head,
    queue: &mut QueueBytes,
    history: &mut HistoryBytes,
    nodes: &mut [WatchedNode],
    number: &mut usize,
    call: Call<'_>,
) -> Result<Answer, Refusal>
    ensures { Made (held head.old queue.old history.old (run nodes.old number.old))
        call.entry result
        (held head.new queue.new history.new (run nodes.new number.new)) }
{
    let mut records = Records { run: nodes };
    make(head, queue, history, &mut records, number, call)
}
