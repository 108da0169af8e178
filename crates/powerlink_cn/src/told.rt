//! What a weigh head answers a call on its node, for C.
ghost use Rattle.std.specs.Prelude.{◌≡◌};
ghost use Rattle.powerlink_cn.specs.Answers.{number_of};
ghost use Rattle.powerlink_cn.specs.Told.{nmt_told, errors_told, error_told, cycle_told};
ghost use Rattle.powerlink_cn.specs.Told.{handed_out_told, frame_told};

use crate::answers::{
    PlcnCycleAnswer, PlcnErrorAnswer, PlcnErrors, PlcnFrameAnswer, PlcnNmtAnswer,
};
use crate::entry::PlcnHandedOut;
use calling::Answer;
use types::refusals::Refusal;
use weigh::WeighAnswer;

/// The number of an answer: 0, or that of the refusal.
pub fn number_told(answer: Result<WeighAnswer, Refusal>) -> u32
    ensures { result ≡ number_of answer }
{
    match answer {
        Ok(_) => 0,
        Err(refusal) => u32::from(refusal.number()),
    }
}

/// The answer to an NMT event.
pub fn nmt_told(answer: Result<WeighAnswer, Refusal>, out: &mut PlcnNmtAnswer) -> u32
    ensures number { result ≡ number_of answer }
    ensures told { out.new ≡ nmt_told answer out.old }
{
    if let Ok(WeighAnswer::Node(Answer::Nmt(taken))) = answer {
        *out = PlcnNmtAnswer::from(taken);
    }
    number_told(answer)
}

/// The answer to a DLL event or a tick.
pub fn errors_told(answer: Result<WeighAnswer, Refusal>, out: &mut PlcnErrors) -> u32
    ensures number { result ≡ number_of answer }
    ensures told { out.new ≡ errors_told answer out.old }
{
    if let Ok(WeighAnswer::Node(Answer::Dll(errors) | Answer::Tick(errors))) = answer {
        *out = PlcnErrors::from(errors);
    }
    number_told(answer)
}

/// The answer to an error for the counters.
pub fn error_told(answer: Result<WeighAnswer, Refusal>, out: &mut PlcnErrorAnswer) -> u32
    ensures number { result ≡ number_of answer }
    ensures told { out.new ≡ error_told answer out.old }
{
    if let Ok(WeighAnswer::Node(Answer::Error(taken))) = answer {
        *out = PlcnErrorAnswer::from(taken);
    }
    number_told(answer)
}

/// The answer to a complete cycle.
pub fn cycle_told(answer: Result<WeighAnswer, Refusal>, out: &mut PlcnCycleAnswer) -> u32
    ensures number { result ≡ number_of answer }
    ensures told { out.new ≡ cycle_told answer out.old }
{
    if let Ok(WeighAnswer::Node(Answer::Cycle(cleared))) = answer {
        *out = PlcnCycleAnswer::from(cleared);
    }
    number_told(answer)
}

/// The answer to the handing out of an entry.
pub fn handed_out_told(answer: Result<WeighAnswer, Refusal>, out: &mut PlcnHandedOut) -> u32
    ensures number { result ≡ number_of answer }
    ensures told { out.new ≡ handed_out_told answer out.old }
{
    if let Ok(WeighAnswer::Node(Answer::HandedOut(entry))) = answer {
        *out = PlcnHandedOut::from(entry);
    }
    number_told(answer)
}

/// The answer to a frame.
pub fn frame_told(answer: Result<WeighAnswer, Refusal>, out: &mut PlcnFrameAnswer) -> u32
    ensures number { result ≡ number_of answer }
    ensures told { out.new ≡ frame_told answer out.old }
{
    if let Ok(WeighAnswer::Node(Answer::Frame(taken))) = answer {
        *out = PlcnFrameAnswer::from(taken);
    }
    number_told(answer)
}
