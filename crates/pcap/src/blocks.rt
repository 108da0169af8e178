//! The blocks of a pcapng: a type, a length, a body and the length again, each of four bytes but
//! the body, which is filled up to a multiple of four.
ghost use Rattle.std.specs.Prelude.{◌≡◌, ◌+◌, ◌≤◌, length, IfOk, IfErr};
ghost use Rattle.pcap.specs.Records.{Within, Asks};
ghost use Rattle.pcap.specs.Blocks.{kind_of, least, kind_least, order_of_magic, order_of_block};
ghost use Rattle.pcap.specs.Blocks.{extent_of, block_extent, ethernet, read_section};
ghost use Rattle.pcap.specs.Blocks.{read_interface, read_stamped, read_simple, read_body};
ghost use Rattle.pcap.specs.Blocks.{read_block};

use crate::fault::{Flaw, Halt, Wrong};
use crate::interface::{ETHERNET, Interface, Interfaces, MOST, Offset};
use crate::options::with_options;
use crate::order::Order;
use crate::records::{Data, LONGEST, Record};

/// The type of the block with which a section begins: the same number in either order.
pub const SECTION: u32 = 0x0A0D_0D0A;

/// What a block is, by its type.
#[derive(Clone, Copy, Debug, PartialEq, Eq)]
pub enum Kind {
    /// 0x0A0D0D0A, Section Header Block.
    Section,
    /// 1, Interface Description Block.
    Interface,
    /// 2, the obsolete Packet Block.
    Packet,
    /// 3, Simple Packet Block.
    Simple,
    /// 6, Enhanced Packet Block.
    Enhanced,
    /// Any other, which is passed over.
    Other,
}

impl Kind {
    /// By the number of its type.
    pub(crate) fn of(number: u32) -> Kind
        ensures { result ≡ kind_of number }
    {
        match number {
            SECTION => Kind::Section,
            1 => Kind::Interface,
            2 => Kind::Packet,
            3 => Kind::Simple,
            6 => Kind::Enhanced,
            _ => Kind::Other,
        }
    }

    /// The fewest bytes that such a block has.
    pub(crate) fn least(self) -> u32
        ensures { result ≡ least self }
    {
        match self {
            Kind::Section => 28,
            Kind::Interface => 20,
            Kind::Packet | Kind::Enhanced => 32,
            Kind::Simple => 16,
            Kind::Other => 12,
        }
    }
}

/// How much is read of the block at the front, and how.
#[derive(Clone, Copy, Debug, PartialEq, Eq)]
pub struct Extent {
    pub order: Order,
    pub kind: Kind,
    /// All its bytes, or the first eight of one that is passed over.
    pub bytes: usize,
}

/// The order of a section's numbers, by its four bytes from 8 on, read lowest first.
pub(crate) fn order_of_magic(magic: u32) -> Option<Order>
    ensures { result ≡ order_of_magic magic }
{
    match magic {
        0x1A2B_3C4D => Some(Order::LowestFirst),
        0x4D3C_2B1A => Some(Order::HighestFirst),
        _ => None,
    }
}

/// The order of the numbers of the block at the front, in a section with an order: a block that
/// begins a section tells its own. NotARecording where it tells none.
#[tactic(auto, unfolding(crate::specs::Blocks::order_of_block))]
pub(crate) fn order_of_block(order: Order, front: &[u8]) -> Result<Order, Flaw>
    requires { 12 ≤ length front.now }
    ensures { result ≡ order_of_block order front.now }
{
    if Order::LowestFirst.four_at(front, 0) != SECTION {
        return Ok(order);
    }
    match order_of_magic(Order::LowestFirst.four_at(front, 8)) {
        Some(own) => Ok(own),
        None => Err(Wrong::NotARecording.at(8)),
    }
}

// How much is read of the block whose first 12 bytes stand at the front.
#[tactic(auto, unfolding(crate::specs::Blocks::extent_of))]
fn extent_of(order: Order, front: &[u8]) -> Result<Extent, Flaw>
    requires { 12 ≤ length front.now }
    ensures gives { result ≡ extent_of order front.now }
    ensures least { IfOk result (λ e. kind_least e.kind ≤ e.bytes) }
    ensures most { IfOk result (λ e. e.bytes ≤ 1048576) }
{
    let order = order_of_block(order, front)?;
    let kind = Kind::of(order.four_at(front, 0));
    let total = order.four_at(front, 4);
    if total < kind.least() || total % 4 != 0 {
        return Err(Wrong::LengthLies(total).at(4));
    }
    let bytes = match kind {
        Kind::Other => 8,
        _ if LONGEST < total => return Err(Wrong::TooLong(total).at(4)),
        _ => total as usize,
    };
    Ok(Extent { order, kind, bytes })
}

/// How much is read of the block at the front. It needs 12 bytes; then NotARecording where a
/// section begins that tells no order; LengthLies below the least length of its kind, or at no
/// multiple of 4; TooLong, unless it is passed over.
#[tactic(auto, unfolding(crate::specs::Blocks::block_extent))]
pub(crate) fn block_extent(order: Order, front: &[u8]) -> Result<Extent, Halt>
    ensures gives { result ≡ block_extent order front.now }
    ensures least { IfOk result (λ e. kind_least e.kind ≤ e.bytes) }
    ensures most { IfOk result (λ e. e.bytes ≤ 1048576) }
    ensures asks { IfErr result (λ h. Asks h (length front.now)) }
{
    if front.len() < 12 {
        return Err(Halt::More(12 - front.len()));
    }
    Ok(extent_of(order, front)?)
}

// The interface of a packet, which is Ethernet's: UnknownInterface, then LinkTypeNotEthernet.
#[tactic(auto, unfolding(crate::specs::Blocks::ethernet))]
fn ethernet(interfaces: &Interfaces, id: u32) -> Result<Interface, Flaw>
    ensures { result ≡ ethernet interfaces.now id }
{
    let Some(interface) = interfaces.get(id as usize) else {
        return Err(Wrong::UnknownInterface(id).at(8));
    };
    if interface.link != ETHERNET {
        return Err(Wrong::LinkTypeNotEthernet(interface.link).at(8));
    }
    Ok(interface)
}

// The order of a section, whose major version is 1, else UnknownVersion.
#[tactic(auto, unfolding(crate::specs::Blocks::read_section))]
fn read_section(order: Order, block: &[u8]) -> Result<Order, Flaw>
    requires { 28 ≤ length block.now }
    ensures { result ≡ read_section order block.now }
{
    let version = order.two_at(block, 12);
    if version != 1 {
        return Err(Wrong::UnknownVersion(version).at(12));
    }
    Ok(order)
}

// An interface: TooManyInterfaces, then what an option is refused for.
#[tactic(auto, unfolding(crate::specs::Blocks::read_interface))]
fn read_interface(order: Order, interfaces: &Interfaces, block: &[u8]) -> Result<Interface, Flaw>
    requires { 20 ≤ length block.now }
    ensures { result ≡ read_interface order interfaces.now block.now }
{
    if MOST <= interfaces.count {
        return Err(Wrong::TooManyInterfaces.at(0));
    }
    let plain = Interface {
        link: order.two_at(block, 8),
        kept: order.four_at(block, 12),
        per_second: 1_000_000,
        offset: Offset::Later(0),
    };
    let end = block.len() - 4;
    with_options(order, end, plain, &block[16..end])
}

// A packet with a time and two lengths, by the number of its interface: LengthLies where it has
// more bytes than the block has left for it; UnknownInterface; LinkTypeNotEthernet;
// TimeOutOfRange.
#[tactic(auto, unfolding(crate::specs::Blocks::read_stamped))]
fn read_stamped(order: Order, interfaces: &Interfaces, id: u32, block: &[u8]) -> Result<Data, Flaw>
    requires { 32 ≤ length block.now }
    ensures gives { result ≡ read_stamped order interfaces.now id block.now }
    ensures within { IfOk result (λ d. d.start + d.captured ≤ length block.now) }
{
    let captured = order.four_at(block, 20);
    if block.len() - 32 < captured as usize {
        return Err(Wrong::LengthLies(captured).at(20));
    }
    let interface = ethernet(interfaces, id)?;
    let units = order.four_at(block, 12) as u64 * 0x1_0000_0000 + order.four_at(block, 16) as u64;
    let Some(time) = interface.time(units) else {
        return Err(Wrong::TimeOutOfRange.at(12));
    };
    Ok(Data {
        time: Some(time),
        start: 28,
        captured: captured as usize,
        wire: order.four_at(block, 24),
        interface: id,
    })
}

// A packet of the section's first interface, without a time: UnknownInterface;
// LinkTypeNotEthernet; LengthLies where it has more bytes than the block has left for it. The
// interface's limit says how many were kept.
#[tactic(auto, unfolding(crate::specs::Blocks::read_simple))]
fn read_simple(order: Order, interfaces: &Interfaces, block: &[u8]) -> Result<Data, Flaw>
    requires { 16 ≤ length block.now }
    ensures gives { result ≡ read_simple order interfaces.now block.now }
    ensures within { IfOk result (λ d. d.start + d.captured ≤ length block.now) }
{
    let interface = ethernet(interfaces, 0)?;
    let wire = order.four_at(block, 8);
    let captured = match interface.kept {
        0 => wire,
        kept => wire.min(kept),
    };
    if block.len() - 16 < captured as usize {
        return Err(Wrong::LengthLies(captured).at(8));
    }
    Ok(Data {
        time: None,
        start: 12,
        captured: captured as usize,
        wire,
        interface: 0,
    })
}

// What a whole block has between its lengths, by its kind.
#[tactic(auto, unfolding(crate::specs::Blocks::read_body))]
fn read_body(
    order: Order,
    kind: Kind,
    interfaces: &Interfaces,
    block: &[u8],
) -> Result<Record, Flaw>
    requires { least kind ≤ length block.now }
    ensures gives { result ≡ read_body order kind interfaces.now block.now }
    ensures within { IfOk result (λ r. Within r (length block.now)) }
{
    match kind {
        Kind::Section => Ok(Record::Section(read_section(order, block)?)),
        Kind::Interface => Ok(Record::Interface(read_interface(order, interfaces, block)?)),
        Kind::Packet => {
            let id = order.two_at(block, 8) as u32;
            Ok(Record::Packet(read_stamped(order, interfaces, id, block)?))
        }
        Kind::Enhanced => {
            let id = order.four_at(block, 8);
            Ok(Record::Packet(read_stamped(order, interfaces, id, block)?))
        }
        Kind::Simple => Ok(Record::Packet(read_simple(order, interfaces, block)?)),
        Kind::Other => Ok(Record::Other(order, order.four_at(block, 4))),
    }
}

/// A block, from as many of its bytes as its extent says: of one that is passed over its length;
/// else LengthLies where its last four bytes tell another length than its first, and then by its
/// kind UnknownVersion (a section), TooManyInterfaces, LengthLies or UnknownResolution (an
/// interface and its options), UnknownInterface, LinkTypeNotEthernet, LengthLies or TimeOutOfRange
/// (a packet).
#[tactic(auto, unfolding(crate::specs::Blocks::read_block))]
pub(crate) fn read_block(
    order: Order,
    kind: Kind,
    interfaces: &Interfaces,
    block: &[u8],
) -> Result<Record, Flaw>
    requires { kind_least kind ≤ length block.now }
    ensures gives { result ≡ read_block order kind interfaces.now block.now }
    ensures within { IfOk result (λ r. Within r (length block.now)) }
{
    let total = order.four_at(block, 4);
    if kind == Kind::Other {
        return Ok(Record::Other(order, total));
    }
    let end = block.len() - 4;
    let again = order.four_at(block, end);
    if again != total {
        return Err(Wrong::LengthLies(again).at(end));
    }
    read_body(order, kind, interfaces, block)
}
