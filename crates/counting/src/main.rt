//! Gives the error counters 2000 errors and completed cycles and prints, one form a line, the
//! answer to each, with the levels, the counts of errors and of crossings after it. The stored
//! output was printed by the original Rust (compare/), so a run shows that both agree.
#![tactic(auto)]

ghost use Rattle.std.specs.Prelude.{◌≡◌};
ghost use Rattle.counting.specs.Shown.{levels_of, counts_of, crossings_of};

use counters::counters::{CnErrorCounters, ErrorTaken, Thresholds};
use forms::errors::ErrorsForm;
use forms::generator::Generator;
use forms::output::Output;
use std::io;
use types::frame::error::types::DllError;

// The level of each counter.
fn levels(counters: CnErrorCounters) -> [u32; 7]
    ensures { result ≡ levels_of counters }
{
    let [a, b, c, d, e, f, g] = counters.counters.each();
    [
        a.threshold_cnt,
        b.threshold_cnt,
        c.threshold_cnt,
        d.threshold_cnt,
        e.threshold_cnt,
        f.threshold_cnt,
        g.threshold_cnt,
    ]
}

// How many errors were given to each.
fn counts(counters: CnErrorCounters) -> [u32; 7]
    ensures { result ≡ counts_of counters }
{
    let [a, b, c, d, e, f, g] = counters.counters.each();
    [
        a.cumulative_cnt,
        b.cumulative_cnt,
        c.cumulative_cnt,
        d.cumulative_cnt,
        e.cumulative_cnt,
        f.cumulative_cnt,
        g.cumulative_cnt,
    ]
}

// How often each was at its threshold.
fn crossings(counters: CnErrorCounters) -> [u32; 7]
    ensures { result ≡ crossings_of counters }
{
    let [a, b, c, d, e, f, g] = counters.counters.each();
    [
        a.crossings_cnt,
        b.crossings_cnt,
        c.crossings_cnt,
        d.crossings_cnt,
        e.crossings_cnt,
        f.crossings_cnt,
        g.crossings_cnt,
    ]
}

fn say_each(out: &mut Output, name: &str, numbers: [u32; 7]) {
    write!(out, " ({name}");
    for number in numbers {
        write!(out, " {number}");
    }
    write!(out, ")");
}

fn say_counters(out: &mut Output, counters: CnErrorCounters) {
    say_each(out, "levels", levels(counters));
    say_each(out, "counts", counts(counters));
    say_each(out, "crossings", crossings(counters));
    writeln!(out, " (links {}))", counters.loss_of_link_cumulative);
}

fn say_answer(out: &mut Output, answer: ErrorTaken) {
    write!(
        out,
        " (action {}) (signal {}) (logged{})",
        answer.action.number(),
        u8::from(answer.signal),
        ErrorsForm(answer.logged)
    );
}

fn print_error(out: &mut Output, counters: &mut CnErrorCounters, error: DllError) {
    write!(out, "(error {}", error.kind());
    let answer = counters.handle_error(error);
    say_answer(out, answer);
    say_counters(out, *counters);
}

fn print_cycle(out: &mut Output, counters: &mut CnErrorCounters) {
    let cleared = counters.on_cycle_complete();
    write!(out, "(cycle (cleared {})", u8::from(cleared));
    say_counters(out, *counters);
}

// A number below 22 is an error of that kind; the others, a third of the calls, complete a cycle,
// so that levels both cross the threshold and come down to 0.
fn print_call(out: &mut Output, counters: &mut CnErrorCounters, number: u64) {
    // Kind 18, UnexpectedEventInState, carries a state and an event, others a node or nothing.
    let carried = if number == 18 { 0x6D } else { 17 };
    match DllError::try_from(number, carried, 2) {
        Ok(error) => print_error(out, counters, error),
        Err(_) => print_cycle(out, counters),
    }
}

fn main(rt: HostRuntime) -> io::Result<()> {
    let mut out = Output::new(rt.stdout());
    let mut counters = CnErrorCounters::new(Thresholds::same_for_all(15));
    let mut generator = Generator::new();
    for _ in 0..2000 {
        print_call(&mut out, &mut counters, generator.next() % 32);
    }
    out.end()
}
