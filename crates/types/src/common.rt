//! `NetTime`, a time in seconds and nanoseconds (EPSG DS 301, Section 6.1.6.7).
ghost use Rattle.std.specs.Prelude.{◌≡◌};
ghost use Rattle.types.specs.Common.{net_time, from_micros, as_nanos, add_nanos, sub_net_time};

/// A time: seconds, and nanoseconds, which may be any 32 bits.
#[derive(Clone, Copy, Debug, PartialEq, Eq)]
pub struct NetTime {
    pub seconds: u32,
    pub nanoseconds: u32,
}

impl NetTime {
    /// The time of these two numbers, as they are.
    pub fn new(seconds: u32, nanoseconds: u32) -> Self
        ensures { result ≡ net_time seconds nanoseconds }
    {
        Self {
            seconds,
            nanoseconds,
        }
    }

    /// A time in µs; the seconds are taken modulo 2^32.
    pub fn from_micros(micros: u64) -> Self
        ensures { result ≡ from_micros micros }
    {
        Self {
            seconds: (micros / 1_000_000 % 4_294_967_296) as u32,
            nanoseconds: (micros % 1_000_000 * 1_000) as u32,
        }
    }

    /// The total nanoseconds, which always fit.
    pub fn as_nanos(self) -> u64
        ensures { result ≡ as_nanos self }
    {
        (self.seconds as u64) * 1_000_000_000 + (self.nanoseconds as u64)
    }

    /// The time later by so many nanoseconds, the seconds modulo 2^32. The sum of the nanoseconds
    /// is made in 64 bits: with nanoseconds far above a second it would overflow 32.
    #[tactic(auto, unfolding(crate::specs::Common::add_nanos))]
    pub fn add_nanos(self, nanos: u64) -> Self
        ensures { result ≡ add_nanos self nanos }
    {
        let sum = (self.nanoseconds as u64) + nanos % 1_000_000_000;
        let seconds = (self.seconds as u64) + nanos / 1_000_000_000;
        if sum < 1_000_000_000 {
            Self {
                seconds: (seconds % 4_294_967_296) as u32,
                nanoseconds: sum as u32,
            }
        } else {
            Self {
                seconds: ((seconds + 1) % 4_294_967_296) as u32,
                nanoseconds: (sum - 1_000_000_000) as u32,
            }
        }
    }

    /// `self - other` in nanoseconds, which always fits.
    pub fn sub_net_time(self, other: NetTime) -> i64
        ensures { result ≡ sub_net_time self other }
    {
        (self.as_nanos() as i64) - (other.as_nanos() as i64)
    }
}
