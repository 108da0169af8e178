//! The words of a head one by one: a byte, a time in two words, and a value that may be missing.
ghost use Rattle.std.specs.Prelude.{◌≡◌, ◌%◌, ◌<◌, replicate, slice_set, MatchOption};
ghost use Rattle.head.specs.Words.{word, yes, time_at, moment_there};
ghost use Rattle.head.specs.Written.{time_written, moment_written, WritesThere};

use crate::state::Head;

/// The lowest byte of a word.
pub(crate) fn byte_at(head: &Head, place: usize) -> u8
    requires { place < 60 }
    ensures { result ≡ word head.now place % 256 }
{
    (head[place] % 256) as u8
}

/// The time in two words from a place on, the low one first.
pub(crate) fn time_at(head: &Head, place: usize) -> u64
    requires { place < 59 }
    ensures { result ≡ time_at head.now place }
{
    head[place] as u64 + 4294967296 * (head[place + 1] as u64)
}

/// Writes a time into two words, the low one first.
pub(crate) fn set_time(head: &mut Head, place: usize, time: u64)
    requires { place < 59 }
    ensures { head.new ≡ time_written head.old place time }
{
    head[place] = (time % 4294967296) as u32;
    head[place + 1] = (time / 4294967296) as u32;
}

/// A moment that may be missing: one word says whether it is there, two have its time.
pub(crate) fn moment_at(head: &Head, there: usize, place: usize) -> Option<u64>
    requires { (there < 60) × (place < 59) }
    ensures { result ≡ moment_there (yes (word head.now there)) (time_at head.now place) }
{
    (head[there] != 0).then_some(time_at(head, place))
}

/// Writes whether there is a value, and by `write` what it is: where there is none, its words stay
/// as they were.
pub(crate) fn set_option<T, F: FnOnce(&mut Head, T)>(
    head: &mut Head,
    there: usize,
    value: Option<T>,
    write: F,
)
    requires inside { there < 60 }
    requires callable { F.IsAlwaysCallable write }
    ensures { MatchOption value (head.new ≡ slice_set head.old there 0)
        (λ t. WritesThere F.FnOnce write (slice_set head.old there 1) t head.new) }
{
    head[there] = u32::from(value.is_some());
    if let Some(value) = value {
        write(head, value);
    }
}

/// Writes a moment that may be missing.
pub(crate) fn set_moment(head: &mut Head, there: usize, place: usize, moment: Option<u64>)
    requires { (there < 60) × (place < 59) }
    ensures { head.new ≡ moment_written head.old there place moment }
{
    set_option(head, there, moment, |head, t| set_time(head, place, t));
}

/// Writes 0 into every word.
pub fn clear(head: &mut Head)
    ensures { head.new ≡ replicate 60 0 }
{
    *head = [0; 60];
}
