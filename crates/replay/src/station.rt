//! What the lines of a script are played on, and what each does there.
ghost use Rattle.std.specs.Prelude.{◌≡◌, take, drop};
ghost use Rattle.watched.specs.Watched.{run as run_of};
ghost use Rattle.weigh.specs.WeighHeld.{held};
ghost use Rattle.weigh.specs.WeighMade.{Made, Started};

use arrayvec::ArrayVec;
use calling::Answer;
use entries::desk::{read_at, write_at};
use entries::sizes::{HistoryBytes, QueueBytes};
use entries::status_response::ErrorEntry;
use head::machines::nmt_of;
use lent::bits::bitmap;
use nmt::cn_state_machine::CnNmtStateMachine;
use script::Line;
use start::start::Setup;
use telling::answers::{Bitmap, Outcome, Reply};
use telling::shows::Shown;
use telling::styles::Style;
use telling::why::{Why, position_of};
use types::frame::error::kinds::DllErrorKind;
use types::nmt::events::NmtStateCommand;
use types::nmt::states::NmtState;
use types::refusals::Refusal;
use watched::nodes::WatchedNode;
use weigh::{WeighAnswer, WeighCall, WeighHead};

/// A weigh head with its memory, the run of watched nodes, of which so many places are lent with
/// their number, and the bytes of the desk.
#[derive(Drop)]
pub struct Station {
    /// Whether a start was taken: before that no line reaches the head.
    pub started: bool,
    /// The weigh head.
    pub head: WeighHead,
    /// The bytes of its emergency queue.
    pub queue: QueueBytes,
    /// The bytes of its history.
    pub history: HistoryBytes,
    /// The places of the run, also those that are not lent.
    pub run: [WatchedNode; 40],
    /// How many of them are lent.
    pub places: usize,
    /// How many nodes are watched.
    pub number: usize,
    /// The bytes on the desk.
    pub desk: ArrayVec<u8, 100>,
}

/// What a line is answered.
#[derive(Clone, Copy)]
pub enum Said {
    /// It prints nothing.
    Nothing,
    /// It can't be read, or can't be played where it stands.
    Unreadable,
    /// A call was made, or something read.
    Reply(Reply),
    /// The station is shown.
    Show,
    /// It is told why its NMT machine is where it is.
    Why,
}

impl Said {
    ghost use Rattle.replay.specs.Played.{is_played};

    /// Whether the line could be read and played.
    pub fn is_played(&self) -> bool
        ensures { result ≡ is_played self.now }
    {
        !matches!(self, Said::Unreadable)
    }
}

// A call that is lent the first so many of some places.
fn make_over_places(
    head: &mut WeighHead,
    queue: &mut QueueBytes,
    history: &mut HistoryBytes,
    run: &mut [WatchedNode; 40],
    places: usize,
    number: &mut usize,
    call: WeighCall<'_>,
) -> Result<WeighAnswer, Refusal>
    ensures made { Made
        (held head.old queue.old history.old (run_of (take places run.old) number.old))
        call.entry result
        (held head.new queue.new history.new (run_of (take places run.new) number.new)) }
    ensures past { drop places run.new ≡ drop places run.old }
{
    let lent = &mut run[..places.min(40)];
    head.make_over_records(queue, history, lent, number, call)
}

// A start over them.
fn start_over_places(
    run: &mut [WatchedNode; 40],
    places: usize,
    number: usize,
    setup: Setup,
) -> Result<WeighHead, Refusal>
    ensures started { Started (run_of (take places run.old) number) setup result
        (run_of (take places run.new) number) }
    ensures past { drop places run.new ≡ drop places run.old }
{
    WeighHead::start_over_records(&mut run[..places.min(40)], number, setup)
}

impl Said {
    ghost use Rattle.replay.specs.declared.station.Said.TheVariants as said;
    ghost use Rattle.replay.specs.Played.{taken_by};

    fn reply(answer: Result<Outcome, Refusal>) -> Said
        ensures { result ≡ said.Reply (record { 0 = answer }) }
    {
        Said::Reply(Reply(answer))
    }

    fn taken(answer: Result<(), Refusal>) -> Said
        ensures { result ≡ said.Reply (record { 0 = taken_by answer }) }
    {
        Said::reply(answer.map(|()| Outcome::Answer(WeighAnswer::Node(Answer::Taken))))
    }
}

impl Station {
    ghost use Rattle.head.specs.Words.{nmt_of};
    ghost use Rattle.telling.specs.Shows.{shown_text};
    ghost use Rattle.telling.specs.Why.{why_text};
    ghost use Rattle.replay.specs.Played.{station_text, standing_text, fresh, Called, Began};
    ghost use Rattle.replay.specs.Played.{Bits, Wrote, Quiet};
    ghost use Rattle.replay.specs.Played.{watched_in, unwatched, lending, desk_set, takes, Plays};

    /// Nothing has been started, lent or desk_set on the desk.
    pub fn new() -> Station
        ensures { result ≡ fresh }
    {
        Station {
            started: false,
            head: WeighHead::blank(),
            queue: [0; 640],
            history: [0; 5080],
            run: [WatchedNode::NONE; 40],
            places: 32,
            number: 0,
            desk: ArrayVec::new(),
        }
    }

    // The places that are lent.
    fn lent(&self) -> &[WatchedNode]
        ensures { result.now ≡ take self.now.places self.now.run }
    {
        &self.run[..self.places.min(40)]
    }

    fn call(&mut self, call: WeighCall<'_>) -> Result<WeighAnswer, Refusal>
        ensures { Called call.entry self.old result self.new }
    {
        make_over_places(
            &mut self.head,
            &mut self.queue,
            &mut self.history,
            &mut self.run,
            self.places,
            &mut self.number,
            call,
        )
    }

    fn start(&mut self, setup: Setup) -> Result<(), Refusal>
        ensures { Began setup self.old result self.new }
    {
        self.head = start_over_places(&mut self.run, self.places, self.number, setup)?;
        self.started = true;
        Ok(())
    }

    fn bitmap(&self) -> Result<Bitmap, Refusal>
        ensures { Bits self.now result }
    {
        let mut bytes = [0; 32];
        let number = bitmap(self.lent(), self.number, &mut bytes)?;
        Ok(Bitmap { number, bytes })
    }

    fn entry_write(&mut self, place: u64, entry: ErrorEntry) -> Result<(), Refusal>
        ensures { Wrote place entry self.old result self.new }
    {
        write_at(self.desk.as_mut_slice(), place, entry)
    }

    // One node more is watched, with as many places as that needs; there are 40.
    fn watch(&mut self, node: WatchedNode) -> Said
        ensures { Quiet (watched_in self.old node) result self.new }
    {
        if self.number < 40 {
            self.run[self.number] = node;
            self.number += 1;
            self.places = self.places.max(self.number);
        }
        Said::Nothing
    }

    // The run is as at first.
    fn unwatch(&mut self) -> Said
        ensures { Quiet (unwatched self.old) result self.new }
    {
        self.run = [WatchedNode::NONE; 40];
        self.places = 32;
        self.number = 0;
        Said::Nothing
    }

    // So many places are lent from now on, of 40, with this number.
    fn lend(&mut self, places: usize, number: usize) -> Said
        ensures { Quiet (lending self.old places number) result self.new }
    {
        self.places = places.min(40);
        self.number = number;
        Said::Nothing
    }

    // The desk has these bytes from now on, at most 100.
    fn set_desk(&mut self, bytes: &[u8]) -> Said
        ensures { Quiet (desk_set self.old bytes.now) result self.new }
    {
        self.desk.clear();
        let front = &bytes[..100.min(bytes.len())];
        self.desk.try_extend_from_slice(front).unwrap();
        Said::Nothing
    }

    // Whether a line can be played as things stand: a watch where there is a place for it, and
    // what reaches the head behind a start that was taken.
    fn takes(&self, line: Line<'_>) -> bool
        ensures { result ≡ takes line.entry self.now }
    {
        match line {
            Line::Watch(_) => self.number < 40,
            Line::Nothing
            | Line::Unreadable
            | Line::Start(_)
            | Line::Unwatch
            | Line::Lend { .. }
            | Line::Desk(_) => true,
            _ => self.started,
        }
    }

    /// Plays a line: what it is answered.
    pub fn play(&mut self, line: Line<'_>) -> Said
        ensures { Plays line.entry self.old result self.new }
    {
        if !self.takes(line) {
            return Said::Unreadable;
        }
        match line {
            Line::Nothing => Said::Nothing,
            Line::Unreadable => Said::Unreadable,
            Line::Start(setup) => Said::taken(self.start(setup)),
            Line::Watch(node) => self.watch(node),
            Line::Unwatch => self.unwatch(),
            Line::Lend { places, number } => self.lend(places, number),
            Line::Desk(bytes) => self.set_desk(bytes),
            Line::Call(call) => Said::reply(self.call(call).map(Outcome::Answer)),
            Line::Bitmap => Said::reply(self.bitmap().map(Outcome::Bitmap)),
            Line::EntryWrite { place, entry } => Said::taken(self.entry_write(place, entry)),
            Line::EntryRead(bytes) => Said::reply(read_at(bytes, 0).map(Outcome::Entry)),
            Line::State(n) => Said::reply(NmtState::try_from(n).map(Outcome::State)),
            Line::Command(n) => Said::reply(NmtStateCommand::try_from(n).map(Outcome::Command)),
            Line::Kind(n) => Said::reply(DllErrorKind::from_error_code(n).map(Outcome::Kind)),
            Line::Show => Said::Show,
            Line::Why => Said::Why,
        }
    }

    /// What `show` prints.
    pub fn shown(&self, style: Style) -> Shown<'_>
        ensures { shown_text result ≡ station_text style self.now }
    {
        Shown {
            style,
            head: &self.head,
            queue: &self.queue,
            history: &self.history,
            run: self.lent(),
            number: self.number,
            desk: self.desk.as_slice(),
        }
    }

    /// What `why` prints.
    pub fn why(&self) -> Why
        ensures { why_text result.0 ≡ standing_text self.now }
    {
        Why(position_of(self.machine()))
    }

    /// The NMT machine of its head.
    pub fn machine(&self) -> CnNmtStateMachine
        ensures { result ≡ nmt_of self.now.head.node }
    {
        nmt_of(self.head.node())
    }
}
