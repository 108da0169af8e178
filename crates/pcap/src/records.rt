//! What is read at the front of a recording: a header, a block or a packet.
use crate::classic::Classic;
use crate::interface::Interface;
use crate::order::Order;

/// The most bytes that a record may have which is read whole, its numbers and its packet together.
/// The caller's buffer holds as many.
pub const LONGEST: u32 = 1_048_576;

/// A packet within its record.
#[derive(Clone, Copy, Debug, PartialEq, Eq)]
pub struct Data {
    /// Nanoseconds since 1970; None where its block carries no time.
    pub time: Option<u64>,
    /// Where its bytes begin in the record.
    pub start: usize,
    /// How many of its bytes were kept.
    pub captured: usize,
    /// How many bytes it had on the line.
    pub wire: u32,
    /// The number of its interface in its section.
    pub interface: u32,
}

/// A record that was read.
#[derive(Clone, Copy, Debug, PartialEq, Eq)]
pub enum Record {
    /// The header of a pcap.
    Header(Classic),
    /// The block with which a section begins.
    Section(Order),
    /// The block that describes an interface.
    Interface(Interface),
    /// A packet.
    Packet(Data),
    /// The first eight bytes of a block that is passed over, and its length.
    Other(Order, u32),
    /// The length at the end of such a block.
    Trailer(Order),
}
