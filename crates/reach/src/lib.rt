//! Every position that a fresh head can reach by NMT events and withdrawals, and the line that the
//! program `positions` prints for each (RULES 11.3).
#![tactic(auto)]

ghost use Rattle.std.specs.Prelude.{◌≡◌, true, Some};
ghost use Rattle.reach.specs.Form.{line_form, one_digit};
ghost use Rattle.reach.specs.Positions.{EveryPosition, line_of};

use forms::hex::HexByte;
use nmt::cn_state_machine::Position;
use std::fmt;
use std::fmt::Display;
use types::nmt::states::NmtState;

/// A position, and the least number of steps to it from a fresh head.
#[derive(Clone, Copy)]
pub struct Line {
    pub position: Position,
    pub steps: u8,
}

// State, enabled, ready and steps, in the order in which they are printed.
const LINES: [(NmtState, bool, bool, u8); 14] = [
    (NmtState::NmtGsInitialising, false, true, 0),
    (NmtState::NmtGsInitialising, false, false, 1),
    (NmtState::NmtNotActive, false, false, 1),
    (NmtState::NmtPreOperational1, false, false, 2),
    (NmtState::NmtBasicEthernet, false, false, 2),
    (NmtState::NmtPreOperational2, false, false, 3),
    (NmtState::NmtCsStopped, false, false, 4),
    (NmtState::NmtPreOperational2, false, true, 4),
    (NmtState::NmtPreOperational2, true, false, 4),
    (NmtState::NmtPreOperational1, false, true, 5),
    (NmtState::NmtCsStopped, false, true, 5),
    (NmtState::NmtReadyToOperate, true, true, 5),
    (NmtState::NmtOperational, false, true, 5),
    (NmtState::NmtOperational, false, false, 6),
];

// The line of a row.
fn line_of(row: (NmtState, bool, bool, u8)) -> Line
    ensures { result ≡ line_of row }
{
    let (state, enabled, ready, steps) = row;
    let position = Position {
        state,
        enabled,
        ready,
    };
    Line { position, steps }
}

/// The 14 positions, in the order in which they are printed.
pub fn lines() -> [Line; 14]
    ensures { EveryPosition result × (one_digit result ≡ true) }
{
    LINES.map(line_of)
}

/// A line as it is printed: `(at 0xHH (enabled N) (ready N) (steps N))` and a line feed. Of the
/// steps the last digit is printed, which is all of them below 10.
#[tactic(auto, using(crate::proofs::Digits::flag_glyph, crate::proofs::Digits::digit_glyph), unfolding(crate::specs::Form::line_form))]
pub fn form(line: Line) -> [u8; 42]
    ensures { result ≡ line_form line }
{
    let Position {
        state,
        enabled,
        ready,
    } = line.position;
    let [high, low]: [u8; 2] = forms::hex::digits(u64::from(state.as_u8()));
    let mut form = *b"(at 0x00 (enabled 0) (ready 0) (steps 0))\n";
    form[6] = high;
    form[7] = low;
    form[18] = b'0' + u8::from(enabled);
    form[28] = b'0' + u8::from(ready);
    form[38] = b'0' + line.steps % 10;
    form
}

/// The same bytes, to a writer.
#[tactic(auto, using(crate::proofs::Digits::flag_text, crate::proofs::Digits::digit_text), unfolding(crate::specs::Form::line_form))]
impl Display for Line {
    ghost output = { λ l. Some (line_form l) };

    fn fmt<W: fmt::Write>(&self, f: &mut fmt::Formatter<W>) -> fmt::Result {
        let Position {
            state,
            enabled,
            ready,
        } = self.position;
        writeln!(
            f,
            "(at {} (enabled {}) (ready {}) (steps {}))",
            HexByte(state.as_u8()),
            u8::from(enabled),
            u8::from(ready),
            self.steps % 10
        )
    }
}
