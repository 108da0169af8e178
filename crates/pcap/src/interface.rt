//! The interfaces of a section: what was recorded where, and by which clock.
ghost use Rattle.std.specs.Prelude.{◌≡◌, ◌<◌, ◌^◌};
ghost use Rattle.pcap.specs.Interface.{per_second_of, offset_of, moved, time_of};
ghost use Rattle.pcap.specs.Interface.{interface_of, added};

/// The link type of Ethernet.
pub const ETHERNET: u16 = 1;

/// The most interfaces that a section may describe.
pub const MOST: usize = 64;

/// The nanoseconds in a second.
pub const SECOND: u64 = 1_000_000_000;

/// What is added to an interface's times: so many seconds, or less than nothing.
#[derive(Clone, Copy, Debug, PartialEq, Eq)]
pub enum Offset {
    Later(u64),
    Earlier(u64),
}

/// An interface, as its block describes it.
#[derive(Clone, Copy, Debug, PartialEq, Eq)]
pub struct Interface {
    /// The link type.
    pub link: u16,
    /// The most bytes that are kept of a packet; 0 is no limit.
    pub kept: u32,
    /// How many units of its clock make a second: a power of 10 or of 2.
    pub per_second: u64,
    /// What is added to its times.
    pub offset: Offset,
}

/// How many units of a clock make a second, by the byte of the option if_tsresol: a power of 10,
/// or of 2 where the highest bit is set. None where it is 2^64 or more.
pub(crate) fn per_second_of(byte: u8) -> Option<u64>
    ensures { result ≡ per_second_of byte }
{
    if byte < 128 {
        10u64.checked_pow(byte as u32)
    } else {
        2u64.checked_pow((byte - 128) as u32)
    }
}

impl Offset {
    /// By the option if_tsoffset: a signed number of 64 bits, in two's complement.
    pub(crate) fn of(seconds: u64) -> Offset
        ensures { result ≡ offset_of seconds }
    {
        if seconds < 0x8000_0000_0000_0000 {
            Offset::Later(seconds)
        } else {
            Offset::Earlier(u64::MAX - seconds + 1)
        }
    }

    // Nanoseconds with the offset added; None where they are below 0, or 2^64 or more.
    fn moved(self, time: u128) -> Option<u64>
        requires { time < 2 ^ 100 }
        ensures { result ≡ moved self time }
    {
        let moved = match self {
            Offset::Later(seconds) => time + seconds as u128 * SECOND as u128,
            Offset::Earlier(seconds) => time.checked_sub(seconds as u128 * SECOND as u128)?,
        };
        u64::try_from(moved).ok()
    }
}

impl Interface {
    /// The nanoseconds since 1970 at so many units of its clock. None where they are below 0, or
    /// 2^64 or more; or where no unit makes a second.
    #[tactic(auto, unfolding(crate::specs::Interface::time_of))]
    pub(crate) fn time(self, units: u64) -> Option<u64>
        ensures { result ≡ time_of self units }
    {
        if self.per_second == 0 {
            return None;
        }
        let counted = units as u128 * SECOND as u128 / self.per_second as u128;
        self.offset.moved(counted)
    }
}

/// The interfaces that a section has described so far, in their order.
#[derive(Clone, Copy, Debug, PartialEq, Eq)]
pub struct Interfaces {
    /// The first `count` of them are described.
    pub items: [Interface; MOST],
    pub count: usize,
}

impl Interfaces {
    /// The interface with a number, counted from 0; None where it is not described.
    pub(crate) fn get(&self, id: usize) -> Option<Interface>
        ensures { result ≡ interface_of self.now id }
    {
        if id < self.count {
            self.items.get(id).copied()
        } else {
            None
        }
    }

    /// One interface more; nothing changes where there are `MOST`.
    pub(crate) fn add(&mut self, interface: Interface)
        ensures { self.new ≡ added self.old interface }
    {
        if self.count < MOST {
            self.items[self.count] = interface;
            self.count += 1;
        }
    }
}
