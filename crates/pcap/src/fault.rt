//! What is wrong with a recording, and at which of its bytes.
ghost use Rattle.std.specs.Prelude.{◌≡◌, Some};
ghost use Rattle.pcap.specs.Bind.{flaw};
ghost use Rattle.pcap.specs.Text.{wrong_text, fault_text};
ghost use Rattle.pcap.specs.declared.fault.Halt.TheVariants as Halt;

use std::fmt;

/// What is wrong.
#[derive(Clone, Copy, Debug, PartialEq, Eq)]
pub enum Wrong {
    /// The first four bytes, or those that tell a section's order of bytes, are none of a
    /// recording's.
    NotARecording,
    /// A major version that this reader does not know; it knows 2 of pcap and 1 of pcapng.
    UnknownVersion(u16),
    /// A link type other than Ethernet's, 1.
    LinkTypeNotEthernet(u16),
    /// A length that does not fit what it is the length of.
    LengthLies(u32),
    /// More bytes than a record may have, `LONGEST`; the number is that which the record says.
    TooLong(u32),
    /// A packet of an interface that its section has not described.
    UnknownInterface(u32),
    /// A section describes more interfaces than `MOST`.
    TooManyInterfaces,
    /// A resolution finer than a count of 64 bits for each second: the option's byte.
    UnknownResolution(u8),
    /// A time before 1970, or after the 18,446,744,073 seconds and 709,551,615 nanoseconds that
    /// 64 bits count.
    TimeOutOfRange,
    /// The recording ends within a record.
    CutInRecord,
}

/// What is wrong, and the byte at which it stands, counted from 0 and modulo 2^64.
#[derive(Clone, Copy, Debug, PartialEq, Eq)]
pub struct Fault {
    pub place: u64,
    pub wrong: Wrong,
}

/// What is wrong within a record or a block, and how many bytes behind its front.
#[derive(Clone, Copy, Debug, PartialEq, Eq)]
pub struct Flaw {
    pub at: usize,
    pub wrong: Wrong,
}

impl Wrong {
    /// This, so many bytes behind the front.
    pub fn at(self, at: usize) -> Flaw
        ensures { result ≡ flaw at self }
    {
        Flaw { at, wrong: self }
    }
}

/// Why no record is read at the front of some bytes.
#[derive(Clone, Copy, Debug, PartialEq, Eq)]
pub enum Halt {
    /// It needs so many bytes more, at least 1.
    More(usize),
    /// Something is wrong.
    Flaw(Flaw),
}

/// What is wrong ends the reading.
impl From<Flaw> for Halt {
    ghost from_gives = { λ f h. h ≡ Halt.Flaw f };

    fn from(flaw: Flaw) -> Halt {
        Halt::Flaw(flaw)
    }
}

impl fmt::Display for Wrong {
    ghost output = { λ x. Some (wrong_text x) };

    fn fmt<W: fmt::Write>(&self, f: &mut fmt::Formatter<W>) -> fmt::Result {
        match self {
            Wrong::NotARecording => f.write_str("neither pcap nor pcapng"),
            Wrong::UnknownVersion(version) => write!(f, "unknown version {version} of the format"),
            Wrong::LinkTypeNotEthernet(link) => {
                write!(f, "link type {link} is not Ethernet, which is 1")
            }
            Wrong::LengthLies(length) => write!(f, "a length of {length} does not fit"),
            Wrong::TooLong(length) => write!(f, "a record of {length} bytes is too long"),
            Wrong::UnknownInterface(id) => write!(f, "interface {id} is not described"),
            Wrong::TooManyInterfaces => f.write_str("more than 64 interfaces in a section"),
            Wrong::UnknownResolution(byte) => write!(f, "unknown resolution {byte} of the times"),
            Wrong::TimeOutOfRange => f.write_str("a time outside the years 1970 to 2554"),
            Wrong::CutInRecord => f.write_str("the recording ends within a record"),
        }
    }
}

impl fmt::Display for Fault {
    ghost output = { λ x. Some (fault_text x) };

    fn fmt<W: fmt::Write>(&self, f: &mut fmt::Formatter<W>) -> fmt::Result {
        write!(f, "byte {}: {}", self.place, self.wrong)
    }
}
