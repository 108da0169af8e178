//! What a program prints to. The first write that fails is kept, nothing is written behind it, and
//! the program ends with it. No contract can say what reaches standard output; for a writer whose
//! bytes are known, such as one over memory, the contracts say which bytes are added.
ghost use Rattle.std.specs.Prelude.{◌≡◌, IsOk, IfSome};
ghost use Rattle.std.specs.Io.KnownBytes.{Appends};
ghost use Rattle.std.specs.Fmt.{decimal};
ghost use Rattle.forms.specs.Output.{Writes};

use std::fmt::Display;
use std::io;
use std::io::{Stdout, Write};

/// A writer, and what became of the writes so far.
#[derive(Drop)]
pub struct Output<W = Stdout> {
    pub to: W,
    /// Ok, or the error of the first write that failed.
    pub outcome: io::Result<()>,
}

impl<W: Write> Output<W> {
    /// An output to a writer, with no write so far.
    pub fn new(to: W) -> Output<W>
        ensures outcome { IsOk result.outcome }
        ensures to { result.to ≡ to }
    {
        Output {
            to,
            outcome: Ok(()),
        }
    }

    /// Writes all bytes, unless a write has failed before.
    pub fn write(&mut self, bytes: &[u8])
        ensures { Writes self.old self.new
            (Appends (W.contents self.old.to) (W.contents self.new.to) bytes.now) }
    {
        if self.outcome.is_ok() {
            self.outcome = self.to.write_all(bytes);
        }
    }

    /// The same with a text; `write!` and `writeln!` call it.
    pub fn write_fmt<D: Display + Drop>(&mut self, text: D)
        ensures { Writes self.old self.new
            (IfSome (D.output text) (Appends (W.contents self.old.to) (W.contents self.new.to))) }
    {
        if self.outcome.is_ok() {
            self.outcome = self.to.write_fmt(text);
        }
    }

    /// The same with a number in decimal.
    pub fn write_number(&mut self, n: u64)
        ensures { Writes self.old self.new
            (Appends (W.contents self.old.to) (W.contents self.new.to) (decimal n)) }
    {
        write!(self, "{n}");
    }

    /// Ok where all was written, else the first error.
    pub fn end(self) -> io::Result<()>
    where
        W: Drop,
        ensures { result ≡ self.outcome }
    {
        self.outcome
    }
}
