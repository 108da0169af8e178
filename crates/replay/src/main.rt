//! Drives a head by a call script and prints what each call answers (docs/CALLS.md).
#![tactic(auto)]

mod play;
mod station;
mod trace;

use clap::{Arg, ArgAction, ArgMatches, Command, Error};
use play::Options;
use std::alloc::Global;
use std::fs::File;
use std::io::{BufRead, BufReader, BufWriter, Read, Write};
use std::process::ExitCode;
use std::{env, io};
use telling::styles::Style;

const ABOUT: &str = "Drives a head by a call script and prints what each call answers.";

const NAMES: &str = "Print names in place of numbers: states, events, kinds, codes, refusals";

const TRACE: &str = "Print each change of the NMT state behind the line that made it";

const SCRIPT: &str = "The script, a file; none or - for standard input";

const AFTER: &str = "\
A script has a call in each line; docs/CALLS.md lists them. This one starts a head, resets
it, makes the event of a SoC, asks what the head waits for, and shows it:

  start node=7 queue=2 cycle=1000 tolerance=100000
  nmt SwReset
  nmt SocReceived
  why
  show

Exit status: 0 where each line could be read and played, 1 where one could not or the file
could not be read, 2 where the arguments are wrong.";

fn flag<'a>(alloc: Global, name: &'a str, help: &'a str) -> Arg<'a> {
    Arg::new(alloc, name)
        .long(name)
        .action(ArgAction::SetTrue)
        .help(help)
}

fn parsed<'a>(alloc: Global, words: &'a [String]) -> Result<ArgMatches<'a>, Error> {
    let script = Arg::new(alloc, "SCRIPT").help(SCRIPT);
    let names = flag(alloc, "names", NAMES);
    let trace = flag(alloc, "trace", TRACE);
    Command::new(alloc, "replay")
        .version("0.1.0")
        .about(ABOUT)
        .after_help(AFTER)
        .arg(script)?
        .arg(names)?
        .arg(trace)?
        .try_get_matches_from(words)
}

fn played<R: Read, W: Write + Drop>(
    alloc: Global,
    options: Options,
    script: &mut BufReader<R>,
    out: W,
) -> io::Result<ExitCode> {
    let mut out = BufWriter::with_capacity(alloc, 65536, out)?;
    let all_played = play::play(alloc, options, script, &mut out)?;
    Ok(ExitCode::from(u8::from(!all_played)))
}

// The script is no file that can be read, as a directory is not.
fn not_read(rt: &HostRuntime, path: &str, error: io::Error) -> io::Result<ExitCode> {
    eprintln!(rt; "replay: {path}: {error}; give a file of calls, or - for standard input")?;
    Ok(ExitCode::FAILURE)
}

fn play_file(rt: &HostRuntime, options: Options, path: &str) -> io::Result<ExitCode> {
    let alloc = rt.alloc();
    let file = match File::open(rt, path) {
        Ok(file) => file,
        Err(error) => return not_read(rt, path, error),
    };
    let mut script = BufReader::with_capacity(alloc, 65536, file)?;
    // A directory is opened, and its first read fails.
    let first_read = script.fill_buf().map(|_| ());
    if let Err(error) = first_read {
        return not_read(rt, path, error);
    }
    played(alloc, options, &mut script, rt.stdout())
}

fn run(rt: &HostRuntime) -> io::Result<ExitCode> {
    let alloc = rt.alloc();
    let words: Vec<String> = env::args(rt)?.collect(alloc)?;
    let matches = match parsed(alloc, words.as_slice()) {
        Ok(matches) => matches,
        Err(error) => {
            error.print(rt)?;
            return Ok(ExitCode::from(error.exit_code() as u8));
        }
    };
    let options = Options {
        style: if matches.get_flag("names") {
            Style::Names
        } else {
            Style::Numbers
        },
        trace: matches.get_flag("trace"),
    };
    match matches.get_str("SCRIPT") {
        None | Some("-") => {
            let mut script = BufReader::with_capacity(alloc, 65536, rt.stdin())?;
            played(alloc, options, &mut script, rt.stdout())
        }
        Some(path) => play_file(rt, options, path),
    }
}

fn main(rt: HostRuntime) -> io::Result<ExitCode> {
    match run(&rt) {
        Ok(status) => Ok(status),
        Err(error) => {
            eprintln!(rt; "replay: {error}")?;
            Ok(ExitCode::FAILURE)
        }
    }
}
