//! What a line is answered, as it is printed.
ghost use Rattle.std.specs.Prelude.{Some};
ghost use Rattle.forms.specs.Hex.{hex_form};
ghost use Rattle.telling.specs.Answers.{entered_text, restored_text, nmt_text, error_taken_text};
ghost use Rattle.telling.specs.Answers.{answer_text, weigh_answer_text, type_text, read_text};
ghost use Rattle.telling.specs.Answers.{bitmap_text, outcome_text, reply_text, frame_text};

use crate::styles::{
    CodeForm, CommandForm, Errors, KindForm, Machine, RefusalForm, StateForm, Style,
};
use crate::texts::{Digits, EntryBytes, Flag, text_of};
use calling::Answer;
use counters::counters::ErrorTaken;
use entries::status_response::{EntryType, ErrorEntry};
use nmt::state_machine::{IndexRange, ResetSequence};
use node::calls::NmtTaken;
use node::range::SocVerdict;
use reception::FrameAnswer;
use std::fmt;
use std::fmt::Display;
use types::frame::error::kinds::DllErrorKind;
use types::nmt::events::NmtStateCommand;
use types::nmt::states::NmtState;
use types::refusals::Refusal;
use weigh::WeighAnswer;

/// What a line tells that is taken.
#[derive(Clone, Copy)]
pub enum Outcome {
    /// What a call on a weigh head answers.
    Answer(WeighAnswer),
    /// The watched nodes as bits.
    Bitmap(Bitmap),
    /// An entry that was read.
    Entry(ErrorEntry),
    /// What was read of a number.
    State(NmtState),
    Command(NmtStateCommand),
    Kind(DllErrorKind),
}

/// The watched nodes as 32 bytes, a bit for each, and their number.
#[derive(Clone, Copy)]
pub struct Bitmap {
    pub number: u32,
    pub bytes: [u8; 32],
}

impl Display for Bitmap {
    ghost output = { λ x. Some (bitmap_text x) };

    fn fmt<W: fmt::Write>(&self, f: &mut fmt::Formatter<W>) -> fmt::Result {
        write!(f, " (nodes {}) {}", self.number, Digits::of(&self.bytes))
    }
}

/// What a line is answered: what it tells, or its refusal.
#[derive(Clone, Copy)]
pub struct Reply(pub Result<Outcome, Refusal>);

/// A reply as it is printed.
#[derive(Clone, Copy)]
pub struct ReplyForm(pub Style, pub Reply);

impl Display for ReplyForm {
    ghost output = { λ x. Some (reply_text x.0 x.1.0) };

    fn fmt<W: fmt::Write>(&self, f: &mut fmt::Formatter<W>) -> fmt::Result {
        let ReplyForm(style, Reply(answer)) = *self;
        match answer {
            Ok(outcome) => writeln!(f, "(taken{})", OutcomeForm(style, outcome)),
            Err(refusal) => writeln!(f, "(refused {})", RefusalForm(style, refusal)),
        }
    }
}

// What a line tells that is taken.
#[derive(Clone, Copy)]
struct OutcomeForm(Style, Outcome);

impl Display for OutcomeForm {
    ghost output = { λ x. Some (outcome_text x.0 x.1) };

    fn fmt<W: fmt::Write>(&self, f: &mut fmt::Formatter<W>) -> fmt::Result {
        let OutcomeForm(style, outcome) = *self;
        match outcome {
            Outcome::Answer(answer) => write!(f, "{}", WeighAnswerForm(style, answer)),
            Outcome::Bitmap(bitmap) => write!(f, "{bitmap}"),
            Outcome::Entry(entry) => write!(f, " (entry {})", EntryForm(style, entry)),
            Outcome::State(state) => write!(f, " {}", StateForm(style, state)),
            Outcome::Command(command) => write!(f, " {}", CommandForm(style, command)),
            Outcome::Kind(kind) => write!(f, " {}", KindForm(style, kind)),
        }
    }
}

// What a call answers.
#[derive(Clone, Copy)]
struct WeighAnswerForm(Style, WeighAnswer);

impl Display for WeighAnswerForm {
    ghost output = { λ x. Some (weigh_answer_text x.0 x.1) };

    fn fmt<W: fmt::Write>(&self, f: &mut fmt::Formatter<W>) -> fmt::Result {
        let WeighAnswerForm(style, answer) = *self;
        match answer {
            WeighAnswer::Node(answer) => write!(f, "{}", AnswerForm(style, answer)),
            WeighAnswer::Loaded => Ok(()),
            WeighAnswer::Weight(grams) => write!(f, " {grams}"),
        }
    }
}

// What a call on the node answers.
#[derive(Clone, Copy)]
struct AnswerForm(Style, Answer);

impl Display for AnswerForm {
    ghost output = { λ x. Some (answer_text x.0 x.1) };

    fn fmt<W: fmt::Write>(&self, f: &mut fmt::Formatter<W>) -> fmt::Result {
        let AnswerForm(style, answer) = *self;
        match answer {
            Answer::Taken => Ok(()),
            Answer::Nmt(taken) => write!(f, "{}", NmtForm(style, taken)),
            Answer::Dll(errors) => { write!(f, " (errors{})", Errors(style, Machine::Dll, errors)) }
            Answer::Error(taken) => write!(f, "{}", ErrorTakenForm(style, taken)),
            Answer::Cycle(cleared) => write!(f, " (cleared {})", Flag(cleared)),
            Answer::HandedOut(Some(entry)) => write!(f, " (entry{})", EntryBytes(entry)),
            Answer::HandedOut(None) => write!(f, " none"),
            Answer::Tick(errors) => write!(f, " (logged{})", Errors(style, Machine::Nmt, errors)),
            Answer::Range(SocVerdict::Lost) => write!(f, " lost"),
            Answer::Range(SocVerdict::Kept) => write!(f, " kept"),
            Answer::Range(SocVerdict::Open) => write!(f, " open"),
            Answer::Margin(margin) => write!(f, " {margin}"),
            Answer::Due(Some(moment)) => write!(f, " {moment}"),
            Answer::Due(None) => write!(f, " none"),
            Answer::Frame(answer) => write!(f, "{}", FrameForm(style, answer)),
        }
    }
}

// What a frame answers: what was logged, and what its NMT event answers, or no errors.
#[derive(Clone, Copy)]
struct FrameForm(Style, FrameAnswer);

impl Display for FrameForm {
    ghost output = { λ x. Some (frame_text x.0 x.1) };

    fn fmt<W: fmt::Write>(&self, f: &mut fmt::Formatter<W>) -> fmt::Result {
        let FrameForm(style, answer) = *self;
        match answer {
            FrameAnswer::NotOurs => write!(f, " not_ours"),
            FrameAnswer::Ours(taken) => {
                write!(f, " (logged{})", Errors(style, Machine::Dll, taken.logged))?;
                match taken.nmt {
                    Some(nmt) => write!(f, "{}", NmtForm(style, nmt)),
                    None => write!(f, " (errors)"),
                }
            }
        }
    }
}

// What an NMT event answers: a reset the states that it enters and the ranges to restore, any
// other its errors.
#[derive(Clone, Copy)]
struct NmtForm(Style, NmtTaken);

impl Display for NmtForm {
    ghost output = { λ x. Some (nmt_text x.0 x.1) };

    fn fmt<W: fmt::Write>(&self, f: &mut fmt::Formatter<W>) -> fmt::Result {
        let NmtForm(style, taken) = *self;
        match taken.reset {
            ResetSequence::None => {
                write!(f, " (errors{})", Errors(style, Machine::Nmt, taken.errors))
            }
            reset => write!(
                f,
                " (entered{}) (restore{})",
                Entered(style, reset.entered()),
                Restored(reset.restored())
            ),
        }
    }
}

// States, each behind a space.
#[derive(Clone, Copy)]
struct Entered<'a>(Style, &'a [NmtState]);

impl Display for Entered<'_> {
    ghost output = { λ x. Some (entered_text x.0 x.1.now) };

    fn fmt<W: fmt::Write>(&self, f: &mut fmt::Formatter<W>) -> fmt::Result {
        for state in self.1 {
            write!(f, " {}", StateForm(self.0, *state))?;
        }
        Ok(())
    }
}

// Ranges, each behind a space.
#[derive(Clone, Copy)]
struct Restored<'a>(&'a [IndexRange]);

impl Display for Restored<'_> {
    ghost output = { λ x. Some (restored_text x.0.now) };

    fn fmt<W: fmt::Write>(&self, f: &mut fmt::Formatter<W>) -> fmt::Result {
        for range in self.0 {
            write!(f, " ({} {})", Hex16(range.first), Hex16(range.last))?;
        }
        Ok(())
    }
}

/// A number of 16 bits as 0x and four digits.
#[derive(Clone, Copy)]
pub(crate) struct Hex16(pub(crate) u16);

impl Display for Hex16 {
    ghost output = { λ x. Some (hex_form 4 x.0) };

    fn fmt<W: fmt::Write>(&self, f: &mut fmt::Formatter<W>) -> fmt::Result {
        let digits = forms::hex4(u64::from(self.0));
        f.write_str(text_of(&digits))
    }
}

// What an error answers.
#[derive(Clone, Copy)]
struct ErrorTakenForm(Style, ErrorTaken);

impl Display for ErrorTakenForm {
    ghost output = { λ x. Some (error_taken_text x.0 x.1) };

    fn fmt<W: fmt::Write>(&self, f: &mut fmt::Formatter<W>) -> fmt::Result {
        write!(
            f,
            " (action {}) (signal {}) (logged{})",
            self.1.action.number(),
            Flag(self.1.signal),
            Errors(self.0, Machine::Nmt, self.1.logged)
        )
    }
}

// What an entry says.
#[derive(Clone, Copy)]
struct EntryForm(Style, ErrorEntry);

impl Display for EntryForm {
    ghost output = { λ x. Some (read_text x.0 x.1) };

    fn fmt<W: fmt::Write>(&self, f: &mut fmt::Formatter<W>) -> fmt::Result {
        let EntryForm(style, entry) = *self;
        write!(
            f,
            "{} (code {}) (seconds {}) (ns {}) (additional {})",
            EntryTypeForm(entry.entry_type),
            CodeForm(style, entry.error_code),
            entry.timestamp.seconds,
            entry.timestamp.nanoseconds,
            entry.additional_information
        )
    }
}

// What an entry's type says.
#[derive(Clone, Copy)]
struct EntryTypeForm(EntryType);

impl Display for EntryTypeForm {
    ghost output = { λ x. Some (type_text x.0) };

    fn fmt<W: fmt::Write>(&self, f: &mut fmt::Formatter<W>) -> fmt::Result {
        write!(
            f,
            "(status {}) (queue {}) (mode {}) (profile {})",
            Flag(self.0.is_status_entry),
            Flag(self.0.send_to_queue),
            self.0.mode.as_u16(),
            self.0.profile
        )
    }
}
