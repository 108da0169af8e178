//! Writes the page docs/TRANSITIONS.md from the NMT machine's table: the transitions by state, and
//! the positions that a head can come to.
#![tactic(auto)]

mod positions;
mod transitions;

use forms::output::Output;
use std::io;

// What the page says before its pictures and charts.
fn print_head(out: &mut Output) {
    write!(
        out,
        "# NMT transitions\n\nWritten by the program `crates/chart` from [the table of the NMT state machine](../crates/nmt/src/table.rt); `make test` fails where it is not what the program writes.\n"
    );
    write!(
        out,
        "\nStates, events and transitions (NMT_CT) have the names of EPSG DS 301. A machine is *enabled* once the managing node has enabled ReadyToOperate, and *ready* once the application has given its ready word.\n"
    );
}

fn main(rt: HostRuntime) -> io::Result<()> {
    let mut out = Output::new(rt.stdout());
    print_head(&mut out);
    transitions::print_moves(&mut out);
    positions::print_positions(&mut out);
    transitions::print_charts(&mut out);
    out.end()
}
