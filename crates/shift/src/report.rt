//! The page for a shift as bytes, which a contract can speak of; what a program prints it can't.
ghost use Rattle.std.specs.Prelude.{◌≡◌, ◌+◌, ◌-◌, ◌≤◌, ◌++◌, length, slice_index, decimal};
ghost use Rattle.shift.specs.Report.{named_codes, code_line, other_line, if_any, code_lines, page};
ghost use Rattle.shift.specs.Feed.{less, printed};

use crate::feed::{Counts, Shift};
use arrayvec::ArrayVec;
use itoa::Buffer;
use types::frame::error::kinds::DllErrorKind;

/// A page, with more room than the longest has: 17 lines of at most 43 characters, and three
/// others.
pub type Page = ArrayVec<u8, 1024>;

// The 17 kinds that have a code of their own, in the order of their codes.
const ASCENDING: [DllErrorKind; 17] = [
    DllErrorKind::BadPhysicalMode,
    DllErrorKind::Collision,
    DllErrorKind::Crc,
    DllErrorKind::LossOfLink,
    DllErrorKind::MacBuffer,
    DllErrorKind::PdoPayloadShort,
    DllErrorKind::PdoMapVersion,
    DllErrorKind::CycleTimeExceeded,
    DllErrorKind::SoCJitter,
    DllErrorKind::LatePres,
    DllErrorKind::InvalidFormat,
    DllErrorKind::LossOfPreq,
    DllErrorKind::LossOfPres,
    DllErrorKind::LossOfSoa,
    DllErrorKind::LossOfSoc,
    DllErrorKind::LossOfStatusRes,
    DllErrorKind::HeartbeatTimeout,
];

// Adds a text.
fn put(page: &mut Page, text: &[u8])
    requires { length page.old.items + length text.now ≤ 1024 }
    ensures { page.new.items ≡ page.old.items ++ text.now }
{
    page.try_extend_from_slice(text).unwrap();
}

// Adds a number between two texts.
fn put_count(page: &mut Page, before: &[u8], n: u64, behind: &[u8])
    requires { length page.old.items + (length before.now + (20 + length behind.now)) ≤ 1024 }
    ensures text { page.new.items ≡ page.old.items ++ (before.now ++ (decimal n ++ behind.now)) }
    ensures short { length page.new.items ≤
        length page.old.items + (length before.now + (20 + length behind.now)) }
{
    put(page, before);
    put(page, Buffer::new().format(n).as_bytes());
    put(page, behind);
}

// Adds the line of a code, where it occurred.
fn put_code(page: &mut Page, code: u16, n: u64)
    requires { length page.old.items + 43 ≤ 1024 }
    ensures text { page.new.items ≡ page.old.items ++ if_any n (code_line code n) }
    ensures short { length page.new.items ≤ length page.old.items + 43 }
{
    if n == 0 {
        return;
    }
    put(page, b"(code ");
    put(page, &forms::hex4(code as u64));
    put_count(page, b" (count ", n, b"))\n");
}

// Adds the lines of the codes that name a kind.
fn put_codes(page: &mut Page, counts: &Counts)
    requires { length page.old.items + 731 ≤ 1024 }
    ensures text { page.new.items ≡
        page.old.items ++ code_lines (λ c. slice_index counts.now c) named_codes }
    ensures short { length page.new.items ≤ length page.old.items + 731 }
{
    for kind in ASCENDING {
        let code = kind.to_error_code();
        put_code(page, code, counts[code as usize]);
    }
}

// How many entries have a code that names no single kind: all but those that are counted under one.
fn others(entries: u64, counts: &Counts) -> u64
    ensures { result ≡ less (λ c. slice_index counts.now c) entries named_codes }
{
    ASCENDING.iter().fold(
        entries,
        |rest, kind| rest.saturating_sub(counts[kind.to_error_code() as usize]),
    )
}

// Adds the line of the other codes, where some occurred.
#[tactic(auto, unfolding(crate::specs::Report::other_line))]
fn put_others(page: &mut Page, count: u64)
    requires { length page.old.items + 37 ≤ 1024 }
    ensures text { page.new.items ≡ page.old.items ++ if_any count (other_line count) }
    ensures short { length page.new.items ≤ length page.old.items + 37 }
{
    if count == 0 {
        return;
    }
    put_count(page, b"(other (count ", count, b"))\n");
}

impl Shift {
    /// The page of the entries so far and the bytes left.
    pub fn report(&self) -> Page
        ensures { result.items ≡ printed self.now.entries self.now.counts self.now.left }
    {
        let mut page = Page::new();
        put_count(&mut page, b"(report (entries ", self.entries, b"))\n");
        put_codes(&mut page, &self.counts);
        put_others(&mut page, others(self.entries, &self.counts));
        put_count(&mut page, b"(total (count ", self.entries, b")");
        put_count(&mut page, b" (left ", self.left as u64, b"))\n");
        page
    }
}
