//! The reader of a recording: a step for each header, packet and block.
ghost use Rattle.std.specs.Prelude.{◌≡◌, ◌≢◌, ◌+◌, ◌≤◌, length, IfOk, IfErr};
ghost use Rattle.std.specs.Prelude.{List, [], ℕ, ◌++◌, ◌<◌, ◌^◌, drop};
ghost use Rattle.pcap.specs.declared.reader.Reader as reader;
ghost use Rattle.pcap.specs.Records.{Within, Asks};
ghost use Rattle.pcap.specs.Reader.{read_of, joined, with_packets, given, used, Halts};
ghost use Rattle.pcap.specs.Reader.{Reads, part_least, block_part, first_part, part_of, read_part};
ghost use Rattle.pcap.specs.Reader.{read_trailer, record_of, after, passed, shown, seen, packet_of};
ghost use Rattle.pcap.specs.Reader.{answer_of, behind_step, at_start, end_of};

use crate::blocks::{Extent, Kind, SECTION, block_extent, read_block};
use crate::classic::{Classic, HEADER_BYTES};
use crate::fault::{Fault, Flaw, Halt, Wrong};
use crate::interface::{Interface, Interfaces, MOST, Offset};
use crate::order::Order;
use crate::records::{Data, Record};

/// What stands next in a recording.
#[derive(Clone, Copy, Debug, PartialEq, Eq)]
pub enum Stage {
    /// Its first byte.
    Start,
    /// A record of a pcap.
    Records(Classic),
    /// A block of a section, whose numbers have this order.
    Blocks(Order),
    /// The length of a block that was passed over, again.
    Trailer(Order, u32),
}

/// What is at the front, and how it is read.
#[derive(Clone, Copy, Debug, PartialEq, Eq)]
pub enum Part {
    /// The header of a pcap.
    Header(Classic),
    /// A record of a pcap.
    Record(Classic),
    /// A block of a pcapng, or the front of one that is passed over.
    Block(Order, Kind),
    /// The length behind a block that was passed over.
    Trailer(Order, u32),
}

/// What is known of a recording behind the bytes that were read.
#[derive(Clone, Copy, Debug, PartialEq, Eq)]
pub struct State {
    /// What stands next.
    pub stage: Stage,
    /// How many bytes are passed over before it.
    pub due: u32,
    /// The interfaces of the section.
    pub interfaces: Interfaces,
}

/// A packet of a recording.
#[derive(Clone, Copy, Debug, PartialEq, Eq)]
pub struct Packet<'a> {
    /// When it came: nanoseconds since 1970. None where its block carries no time.
    pub time: Option<u64>,
    /// Its bytes, as many as were kept: an Ethernet frame from its destination's address on.
    pub bytes: &'a [u8],
    /// How many bytes it had on the line.
    pub length: u32,
    /// The number of its interface in its section; 0 in a pcap.
    pub interface: u32,
}

/// What a step found at the front.
#[derive(Clone, Copy, Debug, PartialEq, Eq)]
pub enum Step<'a> {
    /// So many bytes more are needed, at least 1, and at most as many as make `LONGEST`. Nothing
    /// was read.
    More(usize),
    /// So many bytes were read, at least 1, and are no packet.
    Passed(usize),
    /// A packet was read.
    Packet {
        /// How many bytes its record has, at least 1.
        used: usize,
        packet: Packet<'a>,
    },
    /// The recording is wrong; nothing was read, and the next step finds the same.
    Fault(Fault),
}

/// A reader of a recording.
#[derive(Clone, Copy, Debug, PartialEq, Eq)]
pub struct Reader {
    /// How many bytes were read, modulo 2^64: the place of the front in the recording.
    pub place: u64,
    /// What is known behind them.
    pub state: State,
}

impl Stage {
    // What is at the front, and how many bytes it has.
    #[tactic(auto, unfolding(crate::specs::Reader::part_of))]
    fn measure(self, front: &[u8]) -> Result<(Part, usize), Halt>
        ensures gives { result ≡ part_of self front.now }
        ensures least { IfOk result (λ p. part_least p.0 ≤ p.1) }
        ensures most { IfOk result (λ p. p.1 ≤ 1048576) }
        ensures asks { IfErr result (λ h. Asks h (length front.now)) }
    {
        match self {
            Stage::Start => start(front),
            Stage::Records(classic) => Ok((Part::Record(classic), classic.size(front)?)),
            Stage::Blocks(order) => block(order, front),
            Stage::Trailer(order, total) => Ok((Part::Trailer(order, total), 4)),
        }
    }
}

// A block at the front.
#[tactic(auto, unfolding(crate::specs::Reader::block_part))]
fn block(order: Order, front: &[u8]) -> Result<(Part, usize), Halt>
    ensures gives { result ≡ block_part order front.now }
    ensures least { IfOk result (λ p. part_least p.0 ≤ p.1) }
    ensures most { IfOk result (λ p. p.1 ≤ 1048576) }
    ensures asks { IfErr result (λ h. Asks h (length front.now)) }
{
    let extent = block_extent(order, front)?;
    Ok((Part::Block(extent.order, extent.kind), extent.bytes))
}

// The front of a recording: its first four bytes tell the format.
#[tactic(auto, unfolding(crate::specs::Reader::first_part))]
fn start(front: &[u8]) -> Result<(Part, usize), Halt>
    ensures gives { result ≡ first_part front.now }
    ensures least { IfOk result (λ p. part_least p.0 ≤ p.1) }
    ensures most { IfOk result (λ p. p.1 ≤ 1048576) }
    ensures asks { IfErr result (λ h. Asks h (length front.now)) }
{
    if front.len() < 4 {
        return Err(Halt::More(4 - front.len()));
    }
    let magic = Order::LowestFirst.four_at(front, 0);
    if magic == SECTION {
        return block(Order::LowestFirst, front);
    }
    match Classic::of(magic) {
        Some(classic) => Ok((Part::Header(classic), HEADER_BYTES)),
        None => Err(Halt::Flaw(Wrong::NotARecording.at(0))),
    }
}

impl Part {
    // What is read of all its bytes.
    #[tactic(auto, unfolding(crate::specs::Reader::read_part))]
    fn read(self, interfaces: &Interfaces, whole: &[u8]) -> Result<Record, Flaw>
        requires { part_least self ≤ length whole.now }
        ensures gives { result ≡ read_part self interfaces.now whole.now }
        ensures within { IfOk result (λ r. Within r (length whole.now)) }
    {
        match self {
            Part::Header(classic) => Ok(Record::Header(classic.header(whole)?)),
            Part::Record(classic) => Ok(Record::Packet(classic.packet(whole))),
            Part::Block(order, kind) => read_block(order, kind, interfaces, whole),
            Part::Trailer(order, total) => trailer(order, total, whole),
        }
    }
}

// The length behind a block that was passed over.
#[tactic(auto, unfolding(crate::specs::Reader::read_trailer))]
fn trailer(order: Order, total: u32, whole: &[u8]) -> Result<Record, Flaw>
    requires { 4 ≤ length whole.now }
    ensures gives { result ≡ read_trailer order total whole.now }
    ensures within { IfOk result (λ r. Within r (length whole.now)) }
{
    let again = order.four_at(whole, 0);
    if again != total {
        return Err(Wrong::LengthLies(again).at(0));
    }
    Ok(Record::Trailer(order))
}

impl State {
    // The record at the front, behind the bytes that are passed over, and how many bytes it has.
    #[tactic(auto, unfolding(crate::specs::Reader::record_of))]
    fn read(&self, front: &[u8]) -> Result<(Record, usize), Halt>
        ensures gives { result ≡ record_of self.now front.now }
        ensures some { IfOk result (λ x. 1 ≤ x.1) }
        ensures there { IfOk result (λ x. x.1 ≤ length front.now) }
        ensures asks { IfErr result (λ h. Asks h (length front.now)) }
        ensures within { IfOk result (λ x. Within x.0 x.1) }
    {
        let (part, n) = self.stage.measure(front)?;
        if front.len() < n {
            return Err(Halt::More(n - front.len()));
        }
        Ok((part.read(&self.interfaces, &front[..n])?, n))
    }

    // What is known behind a record.
    #[tactic(auto, unfolding(crate::specs::Reader::after))]
    fn take(&mut self, read: Record)
        requires { self.old.due ≡ 0 }
        ensures { self.new ≡ after self.old read }
    {
        match read {
            Record::Header(classic) => self.stage = Stage::Records(classic),
            Record::Section(order) => {
                self.stage = Stage::Blocks(order);
                self.interfaces.count = 0;
            }
            Record::Interface(interface) => self.interfaces.add(interface),
            Record::Packet(_) => {}
            Record::Other(order, total) => {
                self.stage = Stage::Trailer(order, total);
                self.due = total.saturating_sub(12);
            }
            Record::Trailer(order) => self.stage = Stage::Blocks(order),
        }
    }
}

impl Reader {
    /// A reader at the first byte of a recording.
    #[tactic(auto, unfolding(crate::specs::Reader::at_start))]
    pub fn new() -> Reader
        ensures { result ≡ at_start }
    {
        let plain = Interface {
            link: 0,
            kept: 0,
            per_second: 1,
            offset: Offset::Later(0),
        };
        Reader {
            place: 0,
            state: State {
                stage: Stage::Start,
                due: 0,
                interfaces: Interfaces {
                    items: [plain; MOST],
                    count: 0,
                },
            },
        }
    }

    // Passes over bytes at the front that are due.
    #[tactic(auto, unfolding(crate::specs::Reader::answer_of, crate::specs::Reader::behind_step))]
    fn pass<'a>(&mut self, front: &'a [u8]) -> Step<'a>
        requires { self.old.state.due ≢ 0 }
        ensures answer { shown result ≡ answer_of self.old front.now }
        ensures reads { Reads (length front.now) result }
        ensures next { self.new ≡ behind_step self.old front.now }
    {
        if front.is_empty() {
            return Step::More(1);
        }
        let n = front.len().min(self.state.due as usize);
        self.state.due -= n as u32;
        self.place = self.place.wrapping_add(n as u64);
        Step::Passed(n)
    }

    /// Reads what stands at the front, which is the recording from the reader's place on, as far as
    /// it is there.
    #[tactic(auto, unfolding(crate::specs::Reader::answer_of, crate::specs::Reader::behind_step))]
    pub fn step<'a>(&mut self, front: &'a [u8]) -> Step<'a>
        ensures answer { shown result ≡ answer_of self.old front.now }
        ensures reads { Reads (length front.now) result }
        ensures next { self.new ≡ behind_step self.old front.now }
    {
        if self.state.due != 0 {
            return self.pass(front);
        }
        let (read, n) = match self.state.read(front) {
            Ok(found) => found,
            Err(Halt::More(n)) => return Step::More(n),
            Err(Halt::Flaw(Flaw { at, wrong })) => {
                let place = self.place.wrapping_add(at as u64);
                return Step::Fault(Fault { place, wrong });
            }
        };
        self.state.take(read);
        self.place = self.place.wrapping_add(n as u64);
        match read {
            Record::Packet(found) => Step::Packet {
                used: n,
                packet: lent(found, &front[..n]),
            },
            _ => Step::Passed(n),
        }
    }

    /// What is wrong where the recording ends, with so many bytes left behind the last step, which
    /// asked for more: NotARecording where it has fewer than four bytes, CutInRecord where its
    /// header, a block or a record has begun; else None.
    #[tactic(auto, unfolding(crate::specs::Reader::end_of))]
    pub fn end(&self, left: usize) -> Option<Fault>
        ensures { result ≡ end_of self.now left }
    {
        let wrong = match self.state.stage {
            Stage::Start if left < 4 => Wrong::NotARecording,
            Stage::Records(_) | Stage::Blocks(_) if left == 0 => return None,
            _ => Wrong::CutInRecord,
        };
        Some(Fault {
            place: self.place,
            wrong,
        })
    }
}

// A packet, from its record.
fn lent(found: Data, whole: &[u8]) -> Packet<'_>
    requires { found.start + found.captured ≤ length whole.now }
    ensures { seen result ≡ packet_of found whole.now }
{
    Packet {
        time: found.time,
        bytes: &whole[found.start..found.start + found.captured],
        length: found.wire,
        interface: found.interface,
    }
}

/// Law of the parts: what is read of bytes is what is read of their first part, and then of what
/// that left with the rest behind it, so that it does not matter how a recording is cut; and a step
/// gives the first packet of what is read, if it gives one, and leaves the reader where all the
/// others are read; where it reads nothing, nothing can be read.
#[tactic(auto, using(crate::proofs::InParts::parts, crate::proofs::Steps::steps, crate::proofs::Steps::halts))]
pub fn in_whatever_parts()
    ensures parts { (r : reader.Reader) (xs ys : List ℕ) →
        read_of r (xs ++ ys) ≡ joined (read_of r xs) ys }
    ensures steps { (r : reader.Reader) (xs : List ℕ) →
        read_of r xs ≡ with_packets (given (answer_of r xs))
        (read_of (behind_step r xs) (drop (used (answer_of r xs)) xs)) }
    ensures halts { (r : reader.Reader) (xs : List ℕ) → r.place < 2 ^ 64 →
        Halts (answer_of r xs) → read_of r xs ≡ record { packets = []; last = r; left = xs } }
{}
