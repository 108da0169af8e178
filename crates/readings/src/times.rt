//! `NetTime` at ordinary values and at the limits.
ghost use Rattle.std.specs.Prelude.{◌≡◌};
ghost use Rattle.readings.specs.Shown.{compared_times};

use forms::output::Output;
use types::common::NetTime;

const MICROS: [u64; 10] = [
    0,
    1,
    999_999,
    1_000_000,
    12_100,
    1_234_567_890_123,
    4_294_967_295_999_999,
    4_294_967_296_000_000,
    4_611_686_018_427_387_903,
    18_446_744_073_709_551_615,
];

const NANOS: [u64; 5] = [
    0,
    1,
    1_000_000_000,
    1_999_999_999,
    18_446_744_073_709_551_615,
];

// The times that are added to and compared.
fn times() -> [NetTime; 4]
    ensures { result ≡ compared_times }
{
    [
        NetTime::new(0, 0),
        NetTime::new(0, 999_999_999),
        NetTime::new(1, 500_000_000),
        NetTime::new(4_294_967_295, 999_999_999),
    ]
}

/// Prints the times of so many µs.
pub(crate) fn print_times(out: &mut Output) {
    for micros in MICROS {
        let time = NetTime::from_micros(micros);
        writeln!(
            out,
            "(time {micros} (seconds {}) (nanoseconds {}) (nanos {}))",
            time.seconds,
            time.nanoseconds,
            time.as_nanos()
        );
    }
}

/// Prints the times later by so many ns.
pub(crate) fn print_additions(out: &mut Output) {
    for time in times() {
        for nanos in NANOS {
            let sum = time.add_nanos(nanos);
            writeln!(
                out,
                "(add {} {} {nanos} (seconds {}) (nanoseconds {}))",
                time.seconds, time.nanoseconds, sum.seconds, sum.nanoseconds
            );
        }
    }
}

/// Prints the differences of two times, the first less the second, in ns.
pub(crate) fn print_differences(out: &mut Output) {
    for a in times() {
        for b in times() {
            writeln!(
                out,
                "(difference {} {} {} {} {})",
                a.seconds,
                a.nanoseconds,
                b.seconds,
                b.nanoseconds,
                a.sub_net_time(b)
            );
        }
    }
}
