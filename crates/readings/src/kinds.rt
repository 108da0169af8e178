//! The kind behind each code of 16 bits.
ghost use Rattle.std.specs.Prelude.{◌≡◌};
ghost use Rattle.types.specs.Kinds.{kind_behind};
ghost use Rattle.readings.specs.Shown.{of_code};

use forms::output::Output;
use types::frame::error::kinds::DllErrorKind;

// The place of the one kind that has the code.
fn kind(code: u64) -> Option<u8>
    ensures { result ≡ of_code (kind_behind code) }
{
    DllErrorKind::from_error_code(code)
        .ok()
        .map(DllErrorKind::place)
}

/// Prints a line for each code that names a kind, and how many codes name none.
pub(crate) fn print_kinds(out: &mut Output) {
    let mut refused = 0u32;
    for code in 0..=u16::MAX {
        match kind(u64::from(code)) {
            Some(place) => writeln!(out, "(kind {code:#06X} {place})"),
            None => refused = refused.saturating_add(1),
        }
    }
    writeln!(out, "(kind refused {refused})");
}
