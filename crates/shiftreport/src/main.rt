//! Shift totals (RULES 11.2): reads entries from standard input and prints the page for the shift.
//! It is printed only at the end of the input, so that an input which was not read to its end has
//! no total.
#![tactic(auto)]

ghost use Rattle.std.specs.Prelude.{IfOk};
ghost use Rattle.std.specs.Io.KnownBytes.{Appends};
ghost use Rattle.shift.specs.Feed.{printed};

use shift::feed::Shift;
use std::io;
use std::io::{Read, Write};
use std::process::ExitCode;

// A proved loop has to end, and nothing says that the input does. So many reads of the buffer are
// fewer than 2^64 bytes, so that no count begins again at 0.
const READS: u64 = 281474976710655;

// The system's words for an error, without its number.
fn cause(text: &str) -> &str {
    match text.split_once(" (os error ") {
        Some((words, _)) => words,
        None => text,
    }
}

// Says on standard error what failed.
fn fail(rt: &(impl Eprint + Alloc), what: &str, error: io::Error) -> io::Result<ExitCode> {
    let text = format!(in rt.alloc(); "{error}")?;
    let why = cause(&text);
    eprintln!(rt; "shiftreport: {what}: {why}")?;
    Ok(ExitCode::FAILURE)
}

// Hands the page to a writer.
fn write_page<W: Write>(out: &mut W, shift: &Shift) -> io::Result<()>
    ensures { IfOk result (λ _. Appends (W.contents out.old) (W.contents out.new)
        (printed shift.now.entries shift.now.counts shift.now.left)) }
{
    out.write_all(shift.report().as_slice())
}

// Prints the page, or says that it could not be written.
fn print(rt: &HostRuntime, shift: &Shift) -> io::Result<ExitCode> {
    match write_page(&mut rt.stdout(), shift) {
        Ok(()) => Ok(ExitCode::SUCCESS),
        Err(error) => fail(rt, "writing standard output", error),
    }
}

fn main(rt: HostRuntime) -> io::Result<ExitCode> {
    let mut input = rt.stdin();
    // What is read at once stands behind the bytes left before.
    let mut buffer = [0u8; 65536];
    let mut shift = Shift::new();
    for _ in 0..READS {
        let left = shift.left.min(buffer.len());
        match input.read(&mut buffer[left..]) {
            Ok(0) => return print(&rt, &shift),
            Ok(got) => shift.feed(&mut buffer[..left + got]),
            Err(error) => return fail(&rt, "reading standard input", error),
        }
    }
    eprintln!(rt; "shiftreport: more input than can be counted")?;
    Ok(ExitCode::FAILURE)
}
