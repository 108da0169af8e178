//! Prints every position that a fresh head can reach by NMT events and withdrawals, one form a line
//! (RULES 11.3).
#![tactic(auto)]

use forms::output::Output;
use std::io;

fn main(rt: HostRuntime) -> io::Result<()> {
    let mut out = Output::new(rt.stdout());
    for line in reach::lines() {
        // A line is one write.
        out.write(&reach::form(line));
    }
    out.end()
}
