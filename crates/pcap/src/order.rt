//! The two orders in which a recording has the bytes of its numbers.
ghost use Rattle.std.specs.Prelude.{◌≡◌, ◌+◌, ◌≤◌, length};
ghost use Rattle.pcap.specs.Order.{two_at, four_at, eight_at};

/// The order of the bytes of a recording's numbers: that of the machine which wrote it.
#[derive(Clone, Copy, Debug, PartialEq, Eq)]
pub enum Order {
    LowestFirst,
    HighestFirst,
}

impl Order {
    /// The number in the two bytes from a place on.
    pub(crate) fn two_at(self, bytes: &[u8], place: usize) -> u16
        requires { place + 2 ≤ length bytes.now }
        ensures { result ≡ two_at self bytes.now place }
    {
        let two = [bytes[place], bytes[place + 1]];
        match self {
            Order::LowestFirst => u16::from_le_bytes(two),
            Order::HighestFirst => u16::from_be_bytes(two),
        }
    }

    /// The number in the four bytes from a place on.
    pub(crate) fn four_at(self, bytes: &[u8], place: usize) -> u32
        requires { place + 4 ≤ length bytes.now }
        ensures { result ≡ four_at self bytes.now place }
    {
        let four = [
            bytes[place],
            bytes[place + 1],
            bytes[place + 2],
            bytes[place + 3],
        ];
        match self {
            Order::LowestFirst => u32::from_le_bytes(four),
            Order::HighestFirst => u32::from_be_bytes(four),
        }
    }

    /// The number in the eight bytes from a place on.
    pub(crate) fn eight_at(self, bytes: &[u8], place: usize) -> u64
        requires { place + 8 ≤ length bytes.now }
        ensures { result ≡ eight_at self bytes.now place }
    {
        let first = self.four_at(bytes, place) as u64;
        let second = self.four_at(bytes, place + 4) as u64;
        match self {
            Order::LowestFirst => first + second * 0x1_0000_0000,
            Order::HighestFirst => first * 0x1_0000_0000 + second,
        }
    }
}
