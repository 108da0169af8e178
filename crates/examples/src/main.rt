//! Runs the twelve examples of RULES 11.4 on a head in words and prints for each its number and
//! `same` where all that it states came so, else `differs`. It is proved that each answers `same`,
//! against the examples in the specs of `node`.
#![tactic(auto)]

mod answers;
mod bench;
mod comes;
mod events;
mod heads;
mod memory;
mod runs;
mod same;
mod ticks;

use crate::bench::Bench;
use forms::output::Output;
use std::io;

// An example's line.
fn say(out: &mut Output, number: u8, same: bool) {
    let outcome = if same { "same" } else { "differs" };
    writeln!(out, "{number} {outcome}");
}

fn main(rt: HostRuntime) -> io::Result<()> {
    let mut output = Output::new(rt.stdout());
    let out = &mut output;
    let mut bench = Bench {
        head: [0; 60],
        queue: [0; 640],
        history: [0; 5080],
        nodes: [0; 96],
    };
    let bench = &mut bench;
    let mut after = [0; 60];
    let after = &mut after;
    // One by one, since a list of different closures would need dyn values.
    say(
        out,
        1,
        events::sw_reset(&mut bench.head, after, &mut bench.nodes),
    );
    say(out, 2, events::timeout(&mut bench.head, after));
    say(out, 3, events::enable(&mut bench.head, after));
    say(out, 4, events::no_row(&mut bench.head, after));
    say(out, 5, events::no_cycle(&mut bench.head, after));
    say(out, 6, events::one_between(&mut bench.head, after));
    say(out, 7, events::two_between(&mut bench.head, after));
    say(out, 8, ticks::early(bench, after));
    say(out, 9, ticks::at_limit(bench, after));
    say(out, 10, ticks::above_limit(bench, after));
    say(out, 11, ticks::then_crossing(bench, after));
    say(out, 12, ticks::late(bench, after));
    output.end()
}
