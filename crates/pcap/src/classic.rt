//! The classic pcap: a header of 24 bytes, and records, each with 16 bytes before its packet.
ghost use Rattle.std.specs.Prelude.{◌≡◌, ◌+◌, ◌≤◌, length, IfOk, IfErr};
ghost use Rattle.pcap.specs.Records.{Asks};
ghost use Rattle.pcap.specs.Classic.{classic_of, record_size, read_header, read_packet};

use crate::fault::{Flaw, Halt, Wrong};
use crate::interface::{ETHERNET, SECOND};
use crate::order::Order;
use crate::records::{Data, LONGEST};

/// The length of the header.
pub const HEADER_BYTES: usize = 24;

/// The length of the numbers before a packet.
pub const RECORD_BYTES: usize = 16;

/// What a record counts beside its seconds.
#[derive(Clone, Copy, Debug, PartialEq, Eq)]
pub enum Fraction {
    Microseconds,
    Nanoseconds,
}

/// What the first four bytes of a pcap tell.
#[derive(Clone, Copy, Debug, PartialEq, Eq)]
pub struct Classic {
    pub order: Order,
    pub fraction: Fraction,
}

impl Classic {
    /// By the first four bytes, read lowest first: 0xA1B2C3D4, or 0xA1B23C4D with nanoseconds, or
    /// one of these with its bytes the other way round. None by any other number.
    pub(crate) fn of(magic: u32) -> Option<Classic>
        ensures { result ≡ classic_of magic }
    {
        let (order, fraction) = match magic {
            0xA1B2_C3D4 => (Order::LowestFirst, Fraction::Microseconds),
            0xA1B2_3C4D => (Order::LowestFirst, Fraction::Nanoseconds),
            0xD4C3_B2A1 => (Order::HighestFirst, Fraction::Microseconds),
            0x4D3C_B2A1 => (Order::HighestFirst, Fraction::Nanoseconds),
            _ => return None,
        };
        Some(Classic { order, fraction })
    }

    /// The header: UnknownVersion unless its major version is 2, then LinkTypeNotEthernet.
    #[tactic(auto, unfolding(crate::specs::Classic::read_header))]
    pub(crate) fn header(self, whole: &[u8]) -> Result<Classic, Flaw>
        requires { 24 ≤ length whole.now }
        ensures { result ≡ read_header self whole.now }
    {
        let version = self.order.two_at(whole, 4);
        if version != 2 {
            return Err(Wrong::UnknownVersion(version).at(4));
        }
        let link = (self.order.four_at(whole, 20) % 65536) as u16;
        if link != ETHERNET {
            return Err(Wrong::LinkTypeNotEthernet(link).at(20));
        }
        Ok(self)
    }

    /// How many bytes the record at the front has. It needs 16 bytes; then TooLong.
    #[tactic(auto, unfolding(crate::specs::Classic::record_size))]
    pub(crate) fn size(self, front: &[u8]) -> Result<usize, Halt>
        ensures gives { result ≡ record_size self front.now }
        ensures least { IfOk result (λ n. 16 ≤ n) }
        ensures most { IfOk result (λ n. n ≤ 1048576) }
        ensures asks { IfErr result (λ h. Asks h (length front.now)) }
    {
        if front.len() < RECORD_BYTES {
            return Err(Halt::More(RECORD_BYTES - front.len()));
        }
        let captured = self.order.four_at(front, 8);
        if LONGEST - 16 < captured {
            return Err(Halt::Flaw(Wrong::TooLong(captured).at(8)));
        }
        Ok(RECORD_BYTES + captured as usize)
    }

    /// The packet of a whole record: seconds, the fraction, how many bytes were kept, how many
    /// there were on the line, and the packet's bytes.
    #[tactic(auto, unfolding(crate::specs::Classic::read_packet))]
    pub(crate) fn packet(self, whole: &[u8]) -> Data
        requires { 16 ≤ length whole.now }
        ensures gives { result ≡ read_packet self whole.now }
        ensures within { result.start + result.captured ≤ length whole.now }
    {
        let seconds = self.order.four_at(whole, 0) as u64;
        let fraction = self.order.four_at(whole, 4) as u64;
        let nanoseconds = match self.fraction {
            Fraction::Microseconds => fraction * 1000,
            Fraction::Nanoseconds => fraction,
        };
        Data {
            time: Some(seconds * SECOND + nanoseconds),
            start: RECORD_BYTES,
            captured: whole.len() - RECORD_BYTES,
            wire: self.order.four_at(whole, 12),
            interface: 0,
        }
    }
}
