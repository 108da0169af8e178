//! A script is played line by line, and what each line prints is written.
ghost use Rattle.std.specs.Prelude.{◌≡◌, ℕ, List, Some, IfOk, IfSome};
ghost use Rattle.std.specs.Io.Buffered.{reader_remaining};
ghost use Rattle.std.specs.Io.BufRead.{strip_last};
ghost use Rattle.std.specs.Io.KnownBytes.{Appends, Keeps};
ghost use Rattle.script.specs.declared.Line.{Line};
ghost use Rattle.script.specs.Grammar.{says, line_says};
ghost use Rattle.replay.specs.declared.station.Said.{Said};
ghost use Rattle.replay.specs.Played.{fresh, said_text, trace_text, found_by, moved_from};
ghost use Rattle.replay.specs.Played.{is_played, line_text, Plays, Script};

use crate::station::{Said, Station};
use crate::trace::moved;
use nmt::cn_state_machine::CnNmtStateMachine;
use script::{Line, LineMemory, read};
use std::alloc::Global;
use std::fmt::Display;
use std::io::{BufRead, BufReader, ErrorKind, Read, Write};
use std::{fmt, io};
use telling::answers::ReplyForm;
use telling::moves::Moved;
use telling::styles::Style;

/// How a script is played.
#[derive(Clone, Copy)]
pub struct Options {
    /// How states, events, kinds, codes and refusals are printed.
    pub style: Style,
    /// Whether each change of the NMT state has a line behind what made it.
    pub trace: bool,
}

// What a line is answered at a place of the script, from 1, on the station that it left.
#[derive(Clone, Copy)]
struct Answered<'a> {
    style: Style,
    said: Said,
    place: u64,
    station: &'a Station,
}

impl Display for Answered<'_> {
    ghost output = { λ x. Some (said_text x.style x.said x.place x.station.now) };

    fn fmt<W: fmt::Write>(&self, f: &mut fmt::Formatter<W>) -> fmt::Result {
        match self.said {
            Said::Nothing => Ok(()),
            Said::Unreadable => writeln!(f, "(unreadable {})", self.place),
            Said::Reply(reply) => write!(f, "{}", ReplyForm(self.style, reply)),
            Said::Show => write!(f, "{}", self.station.shown(self.style)),
            Said::Why => write!(f, "{}", self.station.why()),
        }
    }
}

// How a line moved the NMT machine, where that is traced.
#[derive(Clone, Copy)]
struct Traced(Option<Moved>);

impl Display for Traced {
    ghost output = { λ x. Some (trace_text x.0) };

    fn fmt<W: fmt::Write>(&self, f: &mut fmt::Formatter<W>) -> fmt::Result {
        match self.0 {
            Some(moved) => write!(f, "{moved}"),
            None => Ok(()),
        }
    }
}

impl Options {
    // The machine that a line finds, where its moves are traced.
    fn before(&self, station: &Station) -> Option<CnNmtStateMachine>
        ensures { result ≡ found_by self.now.trace station.now }
    {
        if self.trace {
            Some(station.machine())
        } else {
            None
        }
    }
}

// How a line moved the machine that it found, from which one is told.
fn moved_from(before: Option<CnNmtStateMachine>, line: Line<'_>, station: &Station) -> Option<Moved>
    ensures { result ≡ moved_from before line.entry station.now }
{
    moved(line, before?, station.machine())
}

// A line without its newline; the last one of a script may have none.
fn without_newline(line: &[u8]) -> &[u8]
    ensures { result.now ≡ strip_last 10 line.now }
{
    match line {
        [front @ .., b'\n'] => front,
        _ => line,
    }
}

// What was printed is flushed before more of the script is waited for, which it is where the buffer
// holds no whole line.
fn flush_before_reading<R: Read, W: Write>(script: &BufReader<R>, out: &mut W) -> io::Result<()>
    ensures { Keeps (W.contents out.old) (W.contents out.new) }
{
    if !script.buffer().contains(&b'\n') {
        out.flush()?;
    }
    Ok(())
}

// Plays a line at a place of the script, from 1, and writes what it prints. Answers whether it
// could be read and played.
fn play_line<W: Write>(
    options: Options,
    station: &mut Station,
    memory: &mut LineMemory,
    line: &[u8],
    place: u64,
    out: &mut W,
) -> io::Result<bool>
    ensures { IfOk result (λ played. (l : Line) × (o : Said)
        × (says l ≡ line_says (strip_last 10 line.now))
        × Plays l station.old o station.new
        × (played ≡ is_played o)
        × Appends (W.contents out.old) (W.contents out.new)
        (line_text options l o place station.old station.new)) }
{
    let before = options.before(station);
    let read_line = read(without_newline(line), memory);
    let said = station.play(read_line);
    let traced = Traced(moved_from(before, read_line, station));
    let answered = Answered {
        style: options.style,
        said,
        place,
        station,
    };
    write!(out, "{answered}{traced}")?;
    Ok(said.is_played())
}

/// Plays a script to its end, and writes what each line prints. What is printed is flushed before
/// more of the script is read. Answers whether each line could be read and played; an error is that
/// of the reader, of the writer, or of memory, or InvalidInput after 2^64 - 2 lines. Where a read
/// fails inside a line, what came of the line is played first.
pub fn play<R: Read, W: Write>(
    alloc: Global,
    options: Options,
    script: &mut BufReader<R>,
    out: &mut W,
) -> io::Result<bool>
    ensures { IfOk result (λ played. IfSome (reader_remaining R.remaining script.old)
        (λ bytes. (page : List ℕ) × Script options fresh 1 bytes page played
        × Appends (W.contents out.old) (W.contents out.new) page)) }
{
    let mut station = Station::new();
    let mut line = Vec::new(alloc);
    let mut memory = LineMemory::new();
    let mut all_played = true;
    for place in 1..u64::MAX {
        flush_before_reading(script, out)?;
        line.clear();
        match script.read_until(b'\n', &mut line) {
            Ok(0) => {
                out.flush()?;
                return Ok(all_played);
            }
            Ok(_) => {}
            Err(error) => {
                play_line(options, &mut station, &mut memory, &line, place, out)?;
                out.flush()?;
                return Err(error);
            }
        }
        all_played &= play_line(options, &mut station, &mut memory, &line, place, out)?;
        // A line without a newline is the last one: no more is waited for.
        if without_newline(&line).len() == line.len() {
            out.flush()?;
            return Ok(all_played);
        }
    }
    Err(io::Error::from(ErrorKind::InvalidInput))
}
