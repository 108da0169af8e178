//! The input of a shift in parts of any size. A `Shift` holds all that is kept between two parts
//! but for the bytes left behind the last whole entry, which stand at the front of the caller's
//! buffer.
ghost use Rattle.std.specs.Prelude.{◌≡◌, ◌+◌, ◌*◌, ◌%◌, length, take, slice_index, []};
ghost use Rattle.shift.specs.Report.{codes_in};
ghost use Rattle.shift.specs.Feed.{keeping, counted, counted_all, absorbed, at_start};

/// How often each code of 16 bits occurred, modulo 2^64. A place for each code needs no search at
/// an entry, and the codes ascend.
pub type Counts = [u64; 65536];

/// What is kept of the input so far.
#[derive(Clone, Copy)]
pub struct Shift {
    /// How many whole entries were read, modulo 2^64. No count is above it before 2^64 entries.
    pub entries: u64,
    /// How often each code occurred in them.
    pub counts: Counts,
    /// How many bytes are left behind the last whole entry, 0 to 19.
    pub left: usize,
}

// Counts the code of an entry.
#[tactic(auto, unfolding(crate::specs::Feed::counted))]
fn count(counts: &mut Counts, entry: &[u8])
    requires { length entry.now ≡ 20 }
    ensures { counts.new ≡
        counted counts.old (slice_index entry.now 2 + 256 * slice_index entry.now 3) }
{
    let code = u16::from_le_bytes([entry[2], entry[3]]) as usize;
    counts[code] = counts[code].wrapping_add(1);
}

// Counts the codes of the whole entries in a run of bytes.
fn tally(counts: &mut Counts, run: &[u8])
    ensures { counts.new ≡ counted_all counts.old (codes_in run.now) }
{
    for entry in run.chunks_exact(20) {
        count(counts, entry);
    }
}

impl Shift {
    /// The start of a shift, before the first part.
    #[tactic(auto, unfolding(crate::specs::Feed::no_counts))]
    pub fn new() -> Shift
        ensures kept { keeping result.entries result.counts [] ≡ at_start }
        ensures left { result.left ≡ 0 }
    {
        Shift {
            entries: 0,
            counts: [0; 65536],
            left: 0,
        }
    }

    /// Counts the whole entries in a buffer, which holds the bytes left before and a part behind
    /// them, and moves the bytes left now to its front.
    pub fn feed(&mut self, filled: &mut [u8])
        ensures kept { keeping self.new.entries self.new.counts (take self.new.left filled.new) ≡
            absorbed self.old.entries self.old.counts filled.old }
        ensures left { self.new.left ≡ length filled.old % 20 }
    {
        let n = filled.len();
        tally(&mut self.counts, filled);
        self.entries = self.entries.wrapping_add((n / 20) as u64);
        self.left = n % 20;
        filled.copy_within(n - n % 20..n, 0);
    }
}
