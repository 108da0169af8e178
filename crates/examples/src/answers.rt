//! Whether a call answered what an example states.
ghost use Rattle.std.specs.Prelude.{◌≡◌};
ghost use Rattle.node.specs.Plain.{taken};
ghost use Rattle.node.specs.InPlace.{said, nmt_said, dll_said, dll_says, error_said};
ghost use Rattle.tick.specs.TickIn.{tick_said, tick_says};
ghost use Rattle.examples.specs.Same.{Exactly};
ghost use Rattle.examples.specs.Said.{nmt_stated, replied_of, error_stated};

use nmt::state_machine::ResetSequence;
use node::calls::{ErrorTaken, NmtTaken};
use types::frame::error::types::{DllError, DllErrors};
use types::refusals::Refusal;

/// Of an NMT event: the errors, and what a reset passes.
pub fn nmt_says(answer: Result<NmtTaken, Refusal>, errors: DllErrors, reset: ResetSequence) -> bool
    ensures { Exactly result (nmt_said answer ≡ nmt_stated errors reset) }
{
    answer == Ok(NmtTaken { errors, reset })
}

/// Of a DLL event or a tick: the errors.
pub fn says(answer: Result<DllErrors, Refusal>, stated: DllErrors) -> bool
    ensures dll { Exactly result (dll_said answer ≡ dll_says stated) }
    ensures tick { Exactly result (tick_said answer ≡ tick_says stated) }
{
    answer == Ok(stated)
}

// The answer to a LossOfSoc that crosses, or to one that does not.
fn reply(crosses: bool) -> ErrorTaken
    ensures { result ≡ replied_of crosses }
{
    ErrorTaken::counted(crosses, DllError::LossOfSoc)
}

/// Of a LossOfSoc that crosses, or of one that does not.
pub fn error_says(answer: Result<ErrorTaken, Refusal>, crosses: bool) -> bool
    ensures { Exactly result (error_said answer ≡ error_stated crosses) }
{
    answer == Ok(reply(crosses))
}

/// Of a call that answers only whether it was taken.
pub fn is_taken(answer: Result<(), Refusal>) -> bool
    ensures { Exactly result (said answer ≡ taken) }
{
    answer == Ok(())
}
