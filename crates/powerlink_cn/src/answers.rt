//! What C is given for an answer: structs of numbers, with zeros where there is nothing.
ghost use Rattle.std.specs.Prelude.{◌≡◌};
ghost use Rattle.powerlink_cn.specs.Answers.{c_error, c_errors, reset_number, c_nmt, c_taken};
ghost use Rattle.powerlink_cn.specs.Answers.{c_frame, c_due, number_of, Sent};

use counters::counters::ErrorTaken;
use nmt::state_machine::ResetSequence;
use node::calls::NmtTaken;
use node::range::SocVerdict;
use reception::FrameAnswer;
use types::frame::error::types::{DllError, DllErrors, NmtAction};
use types::refusals::Refusal;
use types::types::NodeId;

/// An error: its kind, and its node, or its state and event, or zeros.
#[repr(C)]
#[derive(Clone, Copy, PartialEq, Eq)]
pub struct PlcnError {
    /// The number of its kind.
    pub kind: u8,
    /// The node of a kind that carries one, or the state of kind 18.
    pub a: u8,
    /// The event of kind 18.
    pub b: u8,
}

/// The errors that one call reports, in order; zeros behind their count.
#[repr(C)]
#[derive(Clone, Copy, PartialEq, Eq)]
pub struct PlcnErrors {
    /// How many they are, 0 to 2.
    pub count: u8,
    /// They.
    pub error: [PlcnError; 2],
}

/// What an NMT event answers.
#[repr(C)]
#[derive(Clone, Copy, PartialEq, Eq)]
pub struct PlcnNmtAnswer {
    /// The errors that it reports.
    pub errors: PlcnErrors,
    /// 0 no reset, 1 the whole, 2 from the node's, 3 from the communication's, 4 from the
    /// configuration's.
    pub reset: u8,
}

/// What an error answers.
#[repr(C)]
#[derive(Clone, Copy, PartialEq, Eq)]
pub struct PlcnErrorAnswer {
    /// 0 no action, 1 ResetCommunication, 2 ResetNode.
    pub action: u8,
    /// The node of action 2.
    pub action_node: u8,
    /// Whether the error is signalled, 0 or 1.
    pub signal: u8,
    /// What is logged.
    pub logged: PlcnErrors,
}

/// What a complete cycle answers.
#[repr(C)]
#[derive(Clone, Copy, PartialEq, Eq)]
pub struct PlcnCycleAnswer {
    /// Whether the last level above 0 reached 0, 0 or 1.
    pub cleared: u8,
}

/// What a range of readings answers.
#[repr(C)]
#[derive(Clone, Copy, PartialEq, Eq)]
pub struct PlcnRangeAnswer {
    /// 0 lost, 1 kept, 2 open.
    pub verdict: u8,
}

/// What a margin answers.
#[repr(C)]
#[derive(Clone, Copy, PartialEq, Eq)]
pub struct PlcnMarginAnswer {
    /// What is left of the limit, in µs.
    pub margin_us: i64,
}

/// When the next tick is due.
#[repr(C)]
#[derive(Clone, Copy, PartialEq, Eq)]
pub struct PlcnDueAnswer {
    /// The moment in µs; 0 where there is none.
    pub time_us: u64,
    /// Whether there is one, 0 or 1.
    pub there: u8,
}

/// What a frame answers.
#[repr(C)]
#[derive(Clone, Copy, PartialEq, Eq)]
pub struct PlcnFrameAnswer {
    /// Whether it is for this head or for every node, 0 or 1; with 0 all else is 0.
    pub ours: u8,
    /// What is logged.
    pub logged: PlcnErrors,
    /// Whether an NMT event came of it, 0 or 1; with 0 `nmt` is 0.
    pub has_nmt: u8,
    /// What that answers.
    pub nmt: PlcnNmtAnswer,
}

impl PlcnError {
    /// No error.
    pub const NONE: PlcnError = PlcnError {
        kind: 0,
        a: 0,
        b: 0,
    };

    fn of_node(kind: u8, node_id: NodeId) -> Self
        ensures { result ≡ record { kind = kind; a = node_id.0; b = 0 } }
    {
        PlcnError {
            kind,
            a: node_id.0,
            b: 0,
        }
    }
}

/// The error for C.
impl From<DllError> for PlcnError {
    ghost from_gives = { λ e c. c ≡ c_error e };

    fn from(error: DllError) -> Self {
        let kind = error.kind();
        match error {
            DllError::LossOfPres { node_id }
            | DllError::LossOfStatusRes { node_id }
            | DllError::LatePres { node_id }
            | DllError::PdoMapVersion { node_id }
            | DllError::PdoPayloadShort { node_id }
            | DllError::HeartbeatTimeout { node_id } => PlcnError::of_node(kind, node_id),
            DllError::UnexpectedEventInState { state, event } => PlcnError {
                kind,
                a: state,
                b: event,
            },
            _ => PlcnError { kind, a: 0, b: 0 },
        }
    }
}

impl PlcnErrors {
    /// No errors.
    pub const NONE: PlcnErrors = PlcnErrors {
        count: 0,
        error: [PlcnError::NONE; 2],
    };
}

/// The errors for C.
impl From<DllErrors> for PlcnErrors {
    ghost from_gives = { λ es c. c ≡ c_errors es };

    fn from(errors: DllErrors) -> Self {
        match errors {
            DllErrors::None => PlcnErrors::NONE,
            DllErrors::One(first) => PlcnErrors {
                count: 1,
                error: [PlcnError::from(first), PlcnError::NONE],
            },
            DllErrors::Two(first, second) => PlcnErrors {
                count: 2,
                error: [PlcnError::from(first), PlcnError::from(second)],
            },
        }
    }
}

// The number of a reset.
fn reset_number(reset: ResetSequence) -> u8
    ensures { result ≡ reset_number reset }
{
    match reset {
        ResetSequence::None => 0,
        ResetSequence::Whole => 1,
        ResetSequence::Node => 2,
        ResetSequence::Communication => 3,
        ResetSequence::Configuration => 4,
    }
}

/// What an NMT event answers, for C.
impl From<NmtTaken> for PlcnNmtAnswer {
    ghost from_gives = { λ t c. c ≡ c_nmt t };

    fn from(taken: NmtTaken) -> Self {
        PlcnNmtAnswer {
            errors: PlcnErrors::from(taken.errors),
            reset: reset_number(taken.reset),
        }
    }
}

/// What an error answers, for C.
impl From<ErrorTaken> for PlcnErrorAnswer {
    ghost from_gives = { λ t c. c ≡ c_taken t };

    fn from(taken: ErrorTaken) -> Self {
        PlcnErrorAnswer {
            action: taken.action.number(),
            action_node: match taken.action {
                NmtAction::ResetNode(node_id) => node_id.0,
                NmtAction::None | NmtAction::ResetCommunication => 0,
            },
            signal: u8::from(taken.signal),
            logged: PlcnErrors::from(taken.logged),
        }
    }
}

/// Whether the last level reached 0, for C.
impl From<bool> for PlcnCycleAnswer {
    ghost use Rattle.powerlink_cn.specs.Answers.{c_cycle};

    ghost from_gives = { λ b c. c ≡ c_cycle b };

    fn from(cleared: bool) -> Self {
        PlcnCycleAnswer {
            cleared: u8::from(cleared),
        }
    }
}

/// What a range answers, for C.
impl From<SocVerdict> for PlcnRangeAnswer {
    ghost use Rattle.powerlink_cn.specs.Answers.{c_range};

    ghost from_gives = { λ v c. c ≡ c_range v };

    fn from(verdict: SocVerdict) -> Self {
        PlcnRangeAnswer {
            verdict: match verdict {
                SocVerdict::Lost => 0,
                SocVerdict::Kept => 1,
                SocVerdict::Open => 2,
            },
        }
    }
}

/// What a margin answers, for C.
impl From<i64> for PlcnMarginAnswer {
    ghost use Rattle.powerlink_cn.specs.Answers.{c_margin};

    ghost from_gives = { λ z c. c ≡ c_margin z };

    fn from(margin_us: i64) -> Self {
        PlcnMarginAnswer { margin_us }
    }
}

/// When the next tick is due, for C.
impl From<Option<u64>> for PlcnDueAnswer {
    ghost from_gives = { λ d c. c ≡ c_due d };

    fn from(due: Option<u64>) -> Self {
        match due {
            Some(time_us) => PlcnDueAnswer { time_us, there: 1 },
            None => PlcnDueAnswer {
                time_us: 0,
                there: 0,
            },
        }
    }
}

impl PlcnNmtAnswer {
    /// No answer.
    pub const NONE: PlcnNmtAnswer = PlcnNmtAnswer {
        errors: PlcnErrors::NONE,
        reset: 0,
    };
}

/// What a frame answers, for C.
impl From<FrameAnswer> for PlcnFrameAnswer {
    ghost from_gives = { λ a c. c ≡ c_frame a };

    fn from(answer: FrameAnswer) -> Self {
        let FrameAnswer::Ours(taken) = answer else {
            return PlcnFrameAnswer {
                ours: 0,
                logged: PlcnErrors::NONE,
                has_nmt: 0,
                nmt: PlcnNmtAnswer::NONE,
            };
        };
        let logged = PlcnErrors::from(taken.logged);
        match taken.nmt {
            Some(event) => PlcnFrameAnswer {
                ours: 1,
                logged,
                has_nmt: 1,
                nmt: PlcnNmtAnswer::from(event),
            },
            None => PlcnFrameAnswer {
                ours: 1,
                logged,
                has_nmt: 0,
                nmt: PlcnNmtAnswer::NONE,
            },
        }
    }
}

/// The number of an answer with nothing else to say: 0, or that of the refusal.
pub fn number_of(answer: Result<(), Refusal>) -> u32
    ensures { result ≡ number_of answer }
{
    match answer {
        Ok(()) => 0,
        Err(refusal) => u32::from(refusal.number()),
    }
}

/// Sends an answer out: it is written, and the number is 0; a refusal gives its number and writes
/// nothing.
pub fn send<T, C: From<T> + Drop>(answer: Result<T, Refusal>, out: &mut C) -> u32
    ensures { Sent C.from_gives answer result out.old out.new }
{
    match answer {
        Ok(taken) => {
            *out = C::from(taken);
            0
        }
        Err(refusal) => number_of(Err(refusal)),
    }
}
